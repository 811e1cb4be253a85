//! Types: the expressions that are read as types.
ghost use Rattle.std.specs.Prelude.{◌≡◌, Ok, IfOk, IfErr, IsOk};
ghost use Rattle.starlark_lexer.specs.Tokens.{span_of};
ghost use Rattle.starlark_tree.specs.Views.{all_expressions, expression_of, shape_seen};
ghost use Rattle.starlark_checks.specs.Answers.{AnswersOutcome};
ghost use Rattle.starlark_checks.specs.Faults.{RefusesOutcome};
ghost use Rattle.starlark_checks.specs.Refusals.{out_of_memory};
ghost use Rattle.starlark_spec.specs.Types as types;
ghost use Rattle.starlark_checks.specs.TypeViews.{form_seen, row_seen, type_seen};

mod fault;
mod made;
mod path;

use crate::error::Error;
pub use crate::error::TypeExprUnpackError;
use crate::type_expr::fault::{invalid, type_error};
use crate::type_expr::made::{
    index_by_one, index_by_two, joined, literal_type, path_type, tuple, type_list, union, with,
    with_span,
};
use crate::type_expr::path::{alone, member, path_of};
use starlark_lexer::codemap::{CodeMap, Span};
use starlark_lexer::span::Spanned;
use starlark_spec::error::NoTypeForm;
use starlark_tree::ast::{AstExprP, AstIdentP, AstPayload, BinOp, ExprP};
use std::alloc::Global;

/// Whether the text of a type denotes every type: it is empty, or begins with `_`.
pub fn type_str_literal_is_wildcard(s: &str) -> bool
    ensures { result ≡ types.is_wildcard s.now }
{
    s.is_empty() || s.starts_with('_')
}

/// Names with dots between them, borrowed from the tree.
#[derive(Debug, Drop)]
pub struct TypePathP<'a, P: AstPayload> {
    /// The first name.
    pub first: &'a AstIdentP<P>,
    /// The names after the dots, in order.
    pub rem: Vec<Spanned<&'a str>>,
}

/// A type, as it is read from an expression. It is inspected by reference.
#[derive(Debug)]
pub enum TypeExprUnpackP<'a, P: AstPayload> {
    /// `...`
    Ellipsis,
    /// `a.b.c`
    Path(TypePathP<'a, P>),
    /// `a[t]`
    Index(&'a AstIdentP<P>, Box<Spanned<TypeExprUnpackP<'a, P>>>),
    /// `a.b[t, u]`
    Index2(
        Spanned<TypePathP<'a, P>>,
        Box<Spanned<TypeExprUnpackP<'a, P>>>,
        Box<Spanned<TypeExprUnpackP<'a, P>>>,
    ),
    /// A list among the two parts between the square brackets of `a[[t, u], v]`.
    List(Vec<Spanned<TypeExprUnpackP<'a, P>>>),
    /// `t | u | v`, or `[t, u, v]`: one of its members. A member that is written with `|` is split into its own members.
    Union(Vec<Spanned<TypeExprUnpackP<'a, P>>>),
    /// `(t, u)`
    Tuple(Vec<Spanned<TypeExprUnpackP<'a, P>>>),
}

impl<'a, P: AstPayload> Drop for TypeExprUnpackP<'a, P> {
    fn drop(self) {
        match self {
            TypeExprUnpackP::Ellipsis => {}
            TypeExprUnpackP::Path(_path) => {}
            TypeExprUnpackP::Index(_, _index) => {}
            TypeExprUnpackP::Index2(_path, _first, _second) => {}
            TypeExprUnpackP::List(_parts) => {}
            TypeExprUnpackP::Union(_members) => {}
            TypeExprUnpackP::Tuple(_parts) => {}
        }
    }
}

impl<'a, P: AstPayload> TypeExprUnpackP<'a, P> {
    /// The type that the expression is read as, with the expression's span.
    ///
    /// Fails at the first part from the left that is not read as a type, if memory runs out, and if the code map has
    /// too many clones to count.
    pub fn unpack(
        alloc: Global,
        expr: &'a AstExprP<P>,
        codemap: &CodeMap,
    ) -> Result<Spanned<TypeExprUnpackP<'a, P>>, Error>
        ensures ok { IfOk result (λ t. types.reading (expression_of expr.now) ≡ Ok (type_seen t)) }
        ensures err { IfErr result (λ e. RefusesOutcome codemap.now (types.reading (expression_of expr.now)) e) }
        ensures only_memory { IfErr result (λ e. IsOk (types.reading (expression_of expr.now)) → e ≡ out_of_memory) }
    {
        unpack(alloc, codemap, expr)
    }
}

/// The type that the expression is read as.
#[cycle(types)]
fn unpack<'a, P: AstPayload>(
    alloc: Global,
    codemap: &CodeMap,
    x: &'a AstExprP<P>,
) -> Result<Spanned<TypeExprUnpackP<'a, P>>, Error>
    ensures { AnswersOutcome codemap.now (types.reading (expression_of x.now)) type_seen result }
{
    with_span(form(alloc, codemap, x), x.span)
}

/// The form of the type that the expression is read as.
#[cycle(types)]
fn form<'a, P: AstPayload>(
    alloc: Global,
    codemap: &CodeMap,
    x: &'a AstExprP<P>,
) -> Result<TypeExprUnpackP<'a, P>, Error>
    ensures { AnswersOutcome codemap.now (types.form (span_of x.now.span) (shape_seen x.now.node)) form_seen result }
{
    let span = x.span;
    match &x.node {
        ExprP::Identifier(name) => Ok(TypeExprUnpackP::Path(alone(alloc, name))),
        ExprP::Dot(object, name) => path_type(member(alloc, codemap, object, name)),
        ExprP::Tuple(parts) => tuple(unpack_all(alloc, codemap, parts)),
        ExprP::List(parts) => list(alloc, codemap, parts, span),
        ExprP::Op(left, op, right) => match op {
            BinOp::BitOr => {
                let left = operands(alloc, codemap, left)?;
                union(joined(left, operands(alloc, codemap, right)))
            }
            _ => Err(invalid(codemap, NoTypeForm::Operation, span)),
        },
        ExprP::Index(parts) => indexed(alloc, codemap, parts, span),
        ExprP::Index2(parts) => indexed_by_two(alloc, codemap, parts),
        ExprP::Literal(literal) => literal_type(codemap, literal, span),
        ExprP::Call(..) => Err(invalid(codemap, NoTypeForm::Call, span)),
        ExprP::Slice(..) => Err(invalid(codemap, NoTypeForm::Slice, span)),
        ExprP::Lambda(_) => Err(invalid(codemap, NoTypeForm::Lambda, span)),
        ExprP::Not(_) => Err(invalid(codemap, NoTypeForm::Not, span)),
        ExprP::Minus(_) => Err(invalid(codemap, NoTypeForm::Minus, span)),
        ExprP::Plus(_) => Err(invalid(codemap, NoTypeForm::Plus, span)),
        ExprP::BitNot(_) => Err(invalid(codemap, NoTypeForm::BitNot, span)),
        ExprP::If(_) => Err(invalid(codemap, NoTypeForm::If, span)),
        ExprP::Dict(_) => Err(invalid(codemap, NoTypeForm::Dict, span)),
        ExprP::ListComprehension(..) => Err(invalid(codemap, NoTypeForm::ListComprehension, span)),
        ExprP::DictComprehension(..) => Err(invalid(codemap, NoTypeForm::DictComprehension, span)),
        ExprP::FString(_) => Err(invalid(codemap, NoTypeForm::FString, span)),
    }
}

/// The types that the expressions are read as, in order.
#[cycle(types)]
fn unpack_all<'a, P: AstPayload>(
    alloc: Global,
    codemap: &CodeMap,
    xs: &'a [AstExprP<P>],
) -> Result<Vec<Spanned<TypeExprUnpackP<'a, P>>>, Error>
    ensures { AnswersOutcome codemap.now (types.readings (all_expressions xs.now)) row_seen result }
{
    let mut parts = Vec::new(alloc);
    for x in xs {
        parts = with(parts, unpack(alloc, codemap, x))?;
    }
    Ok(parts)
}

/// The form of a list that spans `span`: the union of two parts or more.
#[cycle(types)]
fn list<'a, P: AstPayload>(
    alloc: Global,
    codemap: &CodeMap,
    xs: &'a [AstExprP<P>],
    span: Span,
) -> Result<TypeExprUnpackP<'a, P>, Error>
    ensures { AnswersOutcome codemap.now (types.list (span_of span) (all_expressions xs.now) (types.readings (all_expressions xs.now))) form_seen result }
{
    match xs {
        [] => Err(type_error(codemap, TypeExprUnpackError::EmptyListInType, span)),
        [_] => Err(invalid(codemap, NoTypeForm::ListOfOne, span)),
        _ => union(unpack_all(alloc, codemap, xs)),
    }
}

/// The members that an operand of `|` gives: its own operands, if it is a `|`, or itself.
#[cycle(types)]
fn operands<'a, P: AstPayload>(
    alloc: Global,
    codemap: &CodeMap,
    x: &'a AstExprP<P>,
) -> Result<Vec<Spanned<TypeExprUnpackP<'a, P>>>, Error>
    ensures { AnswersOutcome codemap.now (types.operands (expression_of x.now)) row_seen result }
{
    match &x.node {
        ExprP::Op(left, op, right) => match op {
            BinOp::BitOr => {
                let before = operands(alloc, codemap, left)?;
                joined(before, operands(alloc, codemap, right))
            }
            _ => with(Vec::new(alloc), unpack(alloc, codemap, x)),
        },
        _ => with(Vec::new(alloc), unpack(alloc, codemap, x)),
    }
}

/// The form of `array[index]`, which spans `span`.
#[cycle(types)]
fn indexed<'a, P: AstPayload>(
    alloc: Global,
    codemap: &CodeMap,
    parts: &'a (AstExprP<P>, AstExprP<P>),
    span: Span,
) -> Result<TypeExprUnpackP<'a, P>, Error>
    ensures { AnswersOutcome codemap.now (types.indexed (span_of span) (expression_of parts.now.0) (types.reading (expression_of parts.now.1)))
        form_seen result }
{
    let (array, index) = parts;
    match &array.node {
        ExprP::Identifier(name) => index_by_one(alloc, name, unpack(alloc, codemap, index)),
        _ => Err(invalid(codemap, NoTypeForm::Indirection, span)),
    }
}

/// The form of `path[first, second]`.
#[cycle(types)]
fn indexed_by_two<'a, P: AstPayload>(
    alloc: Global,
    codemap: &CodeMap,
    parts: &'a (AstExprP<P>, AstExprP<P>, AstExprP<P>),
) -> Result<TypeExprUnpackP<'a, P>, Error>
    ensures { AnswersOutcome codemap.now (types.indexed_by_two (expression_of parts.now.0) (types.argument (expression_of parts.now.1))
        (types.argument (expression_of parts.now.2))) form_seen result }
{
    let (path, first, second) = parts;
    let span = path.span;
    let node = path_of(alloc, codemap, path)?;
    let first = argument(alloc, codemap, first);
    let second = argument(alloc, codemap, second);
    index_by_two(alloc, Spanned { node, span }, first, second)
}

/// The type that one of the two parts between square brackets is read as: a list is a list of such parts.
#[cycle(types)]
fn argument<'a, P: AstPayload>(
    alloc: Global,
    codemap: &CodeMap,
    x: &'a AstExprP<P>,
) -> Result<Spanned<TypeExprUnpackP<'a, P>>, Error>
    ensures { AnswersOutcome codemap.now (types.argument (expression_of x.now)) type_seen result }
{
    match &x.node {
        ExprP::List(items) => with_span(type_list(all_arguments(alloc, codemap, items)), x.span),
        _ => unpack(alloc, codemap, x),
    }
}

/// The types that the expressions are read as, each as one of the parts between square brackets.
#[cycle(types)]
fn all_arguments<'a, P: AstPayload>(
    alloc: Global,
    codemap: &CodeMap,
    xs: &'a [AstExprP<P>],
) -> Result<Vec<Spanned<TypeExprUnpackP<'a, P>>>, Error>
    ensures { AnswersOutcome codemap.now (types.all_arguments (all_expressions xs.now)) row_seen result }
{
    let mut parts = Vec::new(alloc);
    for x in xs {
        parts = with(parts, argument(alloc, codemap, x))?;
    }
    Ok(parts)
}
