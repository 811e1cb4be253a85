//! Types: the expressions that are read as types.
ghost use Rattle.std.specs.Prelude.{◌≡◌, IfOk, Ok, Some, string_bytes};
ghost use Rattle.starlark_lexer.specs.Tokens.{span_of};
ghost use Rattle.starlark_tree.specs.Ast.{expression_span, typed};
ghost use Rattle.starlark_tree.specs.Views.{all_expressions, expression_of as tree_of, literal_seen, word};
ghost use Rattle.starlark_spec.specs.Faults as faults;
ghost use Rattle.starlark_spec.specs.Faults.{form_text};
ghost use Rattle.starlark_spec.specs.Machine.Faults.{fault_of, type_fault};
ghost use Rattle.starlark_spec.specs.Types as types;
ghost use Rattle.starlark_parse_held.specs.Held.{expression_of, type_of};
ghost use Rattle.starlark_parse_build.specs.Check.Checks.{Finds, Names};

use starlark_lexer::dialect::DialectTypes;
use starlark_lexer::span::{Span, Spanned};
use starlark_parse_held::{HeldExpr, HeldType};
use starlark_spec::error::NoTypeForm;
use starlark_spec::refusal::Refusal;
use starlark_tree::ast::{AstExpr, AstLiteral, AstString, BinOp, Expr, TypeExprP};
use std::alloc::Global;

/// The expression as a type, if the dialect has types.
///
/// Fails if the dialect has no types, at the first part from the left that is not read as a type, and if there is no memory for the type or
/// for the text of that error. The expression is then dropped.
pub fn annotation(alloc: Global, types: DialectTypes, value: HeldExpr) -> Result<HeldType, Refusal>
    ensures means { IfOk result (λ x. type_of x ≡ typed (expression_span (expression_of value)) (expression_of value) tt) }
    ensures finds { Finds (type_fault types (expression_of value)) result }
{
    check_type(types, &value)?;
    let span = value.tree.span;
    let node = TypeExprP {
        expr: value.into_tree(),
        payload: (),
    };
    Ok(HeldType::new(alloc, Spanned { node, span })?)
}

/// Refuses an expression that is not a type, or any if the dialect has no types.
pub fn check_type(types: DialectTypes, value: &HeldExpr) -> Result<(), Refusal>
    ensures { Finds (type_fault types (expression_of value.now)) result }
{
    match types {
        DialectTypes::Disable => Err(Refusal::Types(value.tree.span)),
        DialectTypes::ParseOnly | DialectTypes::Enable => read(&value.tree),
    }
}

/// Refuses an expression that is not read as a type.
#[cycle(types)]
fn read(x: &AstExpr) -> Result<(), Refusal>
    ensures { Finds (fault_of (types.reading (tree_of x.now))) result }
{
    let span = x.span;
    match &x.node {
        Expr::Identifier(_) => Ok(()),
        Expr::Dot(object, name) => member(object, name),
        Expr::Tuple(parts) => read_all(parts),
        Expr::List(parts) => list(parts, span),
        Expr::Op(left, op, right) => match op {
            BinOp::BitOr => {
                read(left)?;
                read(right)
            }
            _ => Err(invalid(NoTypeForm::Operation, span)),
        },
        Expr::Index(parts) => indexed(parts, span),
        Expr::Index2(parts) => indexed_by_two(parts),
        Expr::Literal(value) => literal(value, span),
        Expr::Call(..) => Err(invalid(NoTypeForm::Call, span)),
        Expr::Slice(..) => Err(invalid(NoTypeForm::Slice, span)),
        Expr::Lambda(_) => Err(invalid(NoTypeForm::Lambda, span)),
        Expr::Not(_) => Err(invalid(NoTypeForm::Not, span)),
        Expr::Minus(_) => Err(invalid(NoTypeForm::Minus, span)),
        Expr::Plus(_) => Err(invalid(NoTypeForm::Plus, span)),
        Expr::BitNot(_) => Err(invalid(NoTypeForm::BitNot, span)),
        Expr::If(_) => Err(invalid(NoTypeForm::If, span)),
        Expr::Dict(_) => Err(invalid(NoTypeForm::Dict, span)),
        Expr::ListComprehension(..) => Err(invalid(NoTypeForm::ListComprehension, span)),
        Expr::DictComprehension(..) => Err(invalid(NoTypeForm::DictComprehension, span)),
        Expr::FString(_) => Err(invalid(NoTypeForm::FString, span)),
    }
}

/// Refuses the first of the expressions that is not read as a type.
#[cycle(types)]
fn read_all(xs: &[AstExpr]) -> Result<(), Refusal>
    ensures { Finds (fault_of (types.readings (all_expressions xs.now))) result }
{
    for x in xs {
        read(x)?;
    }
    Ok(())
}

/// Refuses a list that spans `span`, unless it has two parts or more, each of which is read as a type.
#[cycle(types)]
fn list(xs: &[AstExpr], span: Span) -> Result<(), Refusal>
    ensures { Finds (fault_of (types.list (span_of span) (all_expressions xs.now) (types.readings (all_expressions xs.now)))) result }
{
    match xs {
        [] => Err(Refusal::EmptyListInType(span)),
        [_] => Err(invalid(NoTypeForm::ListOfOne, span)),
        _ => read_all(xs),
    }
}

/// Refuses `array[index]`, which spans `span`, unless the array is a name and the index is read as a type.
#[cycle(types)]
fn indexed(parts: &(AstExpr, AstExpr), span: Span) -> Result<(), Refusal>
    ensures { Finds (fault_of (types.indexed (span_of span) (tree_of parts.now.0) (types.reading (tree_of parts.now.1)))) result }
{
    let (array, index) = parts;
    match &array.node {
        Expr::Identifier(_) => read(index),
        _ => Err(invalid(NoTypeForm::Indirection, span)),
    }
}

/// Refuses `path[first, second]`, unless it has a path, and each of the two is read as a type or a list of types.
#[cycle(types)]
fn indexed_by_two(parts: &(AstExpr, AstExpr, AstExpr)) -> Result<(), Refusal>
    ensures { Finds (fault_of (types.indexed_by_two (tree_of parts.now.0) (types.argument (tree_of parts.now.1)) (types.argument (tree_of parts.now.2))))
        result }
{
    let (before, first, second) = parts;
    path(before)?;
    argument(first)?;
    argument(second)
}

/// Refuses one of the two parts between square brackets that is read neither as a type nor as a list of such parts.
#[cycle(types)]
fn argument(x: &AstExpr) -> Result<(), Refusal>
    ensures { Finds (fault_of (types.argument (tree_of x.now))) result }
{
    match &x.node {
        Expr::List(items) => all_arguments(items),
        _ => read(x),
    }
}

/// Refuses the first of the expressions that is not such a part.
#[cycle(types)]
fn all_arguments(xs: &[AstExpr]) -> Result<(), Refusal>
    ensures { Finds (fault_of (types.all_arguments (all_expressions xs.now))) result }
{
    for x in xs {
        argument(x)?;
    }
    Ok(())
}

/// Refuses a literal that spans `span`, unless it is `...`.
fn literal(value: &AstLiteral, span: Span) -> Result<(), Refusal>
    ensures { Finds (fault_of (types.constant (span_of span) (literal_seen value.now))) result }
{
    match value {
        AstLiteral::Ellipsis => Ok(()),
        AstLiteral::Int(_) => Err(invalid(NoTypeForm::Int, span)),
        AstLiteral::Float(_) => Err(invalid(NoTypeForm::Float, span)),
        AstLiteral::String(_) => Err(invalid(NoTypeForm::String, span)),
        AstLiteral::Bytes(_) => Err(invalid(NoTypeForm::Bytes, span)),
    }
}

/// Refuses an expression before `[first, second]` that is not a path.
fn path(x: &AstExpr) -> Result<(), Refusal>
    ensures { Finds (fault_of (types.path (tree_of x.now))) result }
{
    match &x.node {
        Expr::Identifier(_) => Ok(()),
        Expr::Dot(object, name) => member(object, name),
        _ => Err(Refusal::ExpectingPath(x.span)),
    }
}

/// Refuses `object.name`, unless the object is names with dots between them and the name is not `type`.
fn member(object: &AstExpr, name: &AstString) -> Result<(), Refusal>
    ensures { Finds (fault_of (types.member (tree_of object.now) (word name.now))) result }
{
    if name.node.as_str() == "type" {
        let (text, span) = path_text(object)?;
        return Err(banned(text, span));
    }
    dotted(object)
}

/// Refuses an expression that is not names with dots between them.
#[cycle(dotted)]
fn dotted(x: &AstExpr) -> Result<(), Refusal>
    ensures { Finds (fault_of (types.dotted (tree_of x.now))) result }
{
    match &x.node {
        Expr::Identifier(_) => Ok(()),
        Expr::Dot(object, _) => dotted(object),
        _ => Err(Refusal::DotInType(x.span)),
    }
}

/// The text of names with dots between them, and where the first of them is.
#[cycle(path_text)]
fn path_text(x: &AstExpr) -> Result<(String, Span), Refusal>
    ensures text { IfOk result (λ r. IfOk (types.dotted (tree_of x.now)) (λ p. string_bytes r.0 ≡ types.path_text p)) }
    ensures first { IfOk result (λ r. IfOk (types.dotted (tree_of x.now)) (λ p. span_of r.1 ≡ p.first.word.span)) }
    ensures finds { Finds (fault_of (types.dotted (tree_of x.now))) result }
{
    match &x.node {
        Expr::Identifier(name) => Ok((name.node.ident.clone()?, name.span)),
        Expr::Dot(object, name) => {
            let (mut text, span) = path_text(object)?;
            text.push('.')?;
            text.push_str(&name.node)?;
            Ok((text, span))
        }
        _ => Err(Refusal::DotInType(x.span)),
    }
}

/// The error of an expression of a form that is not a type.
fn invalid(form: NoTypeForm, span: Span) -> Refusal
    ensures { Names (Some (types.mistyped (faults.InvalidType (form_text form)) (span_of span))) result }
{
    Refusal::InvalidType(form, span)
}

/// The error of a path before `.type`, or out of memory.
fn banned(text: String, span: Span) -> Refusal
    ensures { Names (Some (types.mistyped (faults.DotTypeBan (string_bytes text)) (span_of span))) result }
{
    let alloc = *text.allocator();
    let Ok(path) = Box::new(alloc, (text, span)) else {
        return Refusal::Memory;
    };
    Refusal::DotTypeBan(path)
}
