//! Expressions over the parts that were read.
ghost use Rattle.std.specs.Prelude.{◌≡◌, ◌≤◌, false, IfOk, MatchResult};
ghost use Rattle.starlark_lexer.specs.Tokens.{Span as Place, span_of, from_to};
ghost use Rattle.starlark_tree.specs.Ast.{expression, If, Plus, Minus, BitNot, Not, Constant, Identifier};
ghost use Rattle.starlark_tree.specs.Views.{literal_seen, shape_seen, word};
ghost use Rattle.starlark_spec.specs.Trees.{operation as operation_of, one_or_tuple as one_or_tuple_of, tuple as tuple_of};
ghost use Rattle.starlark_spec.specs.Trees.{list as list_of, dictionary as dictionary_of, lambda as lambda_of};
ghost use Rattle.starlark_parse_held.specs.Held.{expression_of, unboxed_of, expressions_in, entries_in, parameters_in};
ghost use Rattle.starlark_parse_build.specs.Suffixes.{is_name};

use starlark_lexer::span::{Pos, Span, Spanned};
use starlark_parse_held::{HeldEntries, HeldExpr, HeldExprs, HeldParameters, HeldTree};
use starlark_tree::ast::{AstLiteral, AstString, BinOp, Expr, IdentP, LambdaP};
use std::alloc::{AllocError, Global};

/// A name.
pub fn identifier(alloc: Global, name: AstString) -> Result<HeldExpr, AllocError>
    ensures { IfOk result (λ e. expression_of e ≡ expression (span_of name.span) (Identifier (word name) tt)) }
{
    let Spanned { node: ident, span } = name;
    let node = Expr::Identifier(Spanned {
        node: IdentP { ident, payload: () },
        span,
    });
    HeldExpr::new(alloc, Spanned { node, span })
}

/// A literal.
pub fn literal(alloc: Global, value: AstLiteral, span: Span) -> Result<HeldExpr, AllocError>
    ensures { IfOk result (λ e. expression_of e ≡ expression (span_of span) (Constant (literal_seen value))) }
{
    let node = Expr::Literal(value);
    HeldExpr::new(alloc, Spanned { node, span })
}

/// A name, by value.
#[inline(always)]
pub fn identifier_tree(name: AstString) -> HeldTree
    ensures { unboxed_of result ≡ expression (span_of name.span) (Identifier (word name) tt) }
{
    let Spanned { node: ident, span } = name;
    let node = Expr::Identifier(Spanned {
        node: IdentP { ident, payload: () },
        span,
    });
    HeldTree {
        tree: Spanned { node, span },
    }
}

/// A literal, by value.
#[inline(always)]
pub fn literal_tree(value: AstLiteral, span: Span) -> HeldTree
    ensures { unboxed_of result ≡ expression (span_of span) (Constant (literal_seen value)) }
{
    let node = Expr::Literal(value);
    HeldTree {
        tree: Spanned { node, span },
    }
}

/// An operand after `+`.
pub fn plus(alloc: Global, operand: HeldExpr, span: Span) -> Result<HeldExpr, AllocError>
    ensures means { IfOk result (λ e. expression_of e ≡ expression (span_of span) (Plus (expression_of operand))) }
    ensures spans { IfOk result (λ e. e.tree.value.span ≡ span) }
{
    let node = Expr::Plus(operand.into_box());
    HeldExpr::new(alloc, Spanned { node, span })
}

/// An operand after `-`.
pub fn minus(alloc: Global, operand: HeldExpr, span: Span) -> Result<HeldExpr, AllocError>
    ensures means { IfOk result (λ e. expression_of e ≡ expression (span_of span) (Minus (expression_of operand))) }
    ensures spans { IfOk result (λ e. e.tree.value.span ≡ span) }
{
    let node = Expr::Minus(operand.into_box());
    HeldExpr::new(alloc, Spanned { node, span })
}

/// An operand after `~`.
pub fn bit_not(alloc: Global, operand: HeldExpr, span: Span) -> Result<HeldExpr, AllocError>
    ensures means { IfOk result (λ e. expression_of e ≡ expression (span_of span) (BitNot (expression_of operand))) }
    ensures spans { IfOk result (λ e. e.tree.value.span ≡ span) }
{
    let node = Expr::BitNot(operand.into_box());
    HeldExpr::new(alloc, Spanned { node, span })
}

/// The expression after a `not`, from `begin` to `end`.
pub fn not_from(
    alloc: Global,
    begin: Pos,
    operand: HeldExpr,
    end: Pos,
) -> Result<HeldExpr, AllocError>
    requires { begin.byte ≤ end.byte }
    ensures means { IfOk result (λ e. expression_of e ≡ expression (from_to begin.byte end.byte) (Not (expression_of operand))) }
    ensures ends { IfOk result (λ e. e.tree.value.span.end ≡ end) }
{
    let node = Expr::Not(operand.into_box());
    let span = Span::new(begin, end);
    HeldExpr::new(alloc, Spanned { node, span })
}

/// Two operands with a binary operator between them.
pub fn operation(left: HeldExpr, operator: BinOp, right: HeldExpr) -> Result<HeldExpr, AllocError>
    requires { left.tree.value.span.begin.byte ≤ right.tree.value.span.end.byte }
    ensures means { IfOk result (λ e. expression_of e ≡ operation_of (expression_of left) operator (expression_of right)) }
    ensures ends { IfOk result (λ e. e.tree.value.span.end ≡ right.tree.value.span.end) }
{
    let alloc = left.allocator();
    let span = Span::new(left.begin(), right.end());
    let node = Expr::Op(left.into_box(), operator, right.into_box());
    HeldExpr::new(alloc, Spanned { node, span })
}

/// A conditional expression.
pub fn conditional(
    alloc: Global,
    value: HeldExpr,
    condition: HeldExpr,
    other: HeldExpr,
    end: Pos,
) -> Result<HeldExpr, AllocError>
    requires { value.tree.value.span.begin.byte ≤ end.byte }
    ensures means { IfOk result (λ e. expression_of e ≡ expression (from_to value.tree.value.span.begin.byte end.byte)
        (If (expression_of condition) (expression_of value) (expression_of other))) }
    ensures spans { IfOk result (λ e. (e.tree.value.span.begin ≡ value.tree.value.span.begin) × (e.tree.value.span.end ≡ end)) }
{
    let span = Span::new(value.begin(), end);
    let parts = condition.tripled(alloc, value, other)?;
    let node = Expr::If(parts.into_trees());
    HeldExpr::new(alloc, Spanned { node, span })
}

/// Whether an expression is a name.
fn is_identifier(node: &Expr) -> bool
    ensures { (span : Place) → is_name (expression span (shape_seen node.now)) ≡ result }
{
    matches!(node, Expr::Identifier(_))
}

/// The name that an expression is, or the expression if it is not a name.
pub fn name_in(value: HeldExpr) -> Result<AstString, HeldExpr>
    ensures { MatchResult result (λ name. expression_of value ≡ expression (span_of value.tree.value.span) (Identifier (word name) tt))
        (λ e. (e ≡ value) × (is_name (expression_of value) ≡ false)) }
{
    if !is_identifier(&value.tree.node) {
        return Err(value);
    }
    let Spanned { node, span: _span } = value.into_tree();
    match node {
        Expr::Identifier(ident) => Ok(Spanned {
            node: ident.node.ident,
            span: ident.span,
        }),
        _ => unreachable!(),
    }
}

/// A tuple, from `begin` to `end`.
pub fn tuple(
    alloc: Global,
    elements: HeldExprs,
    begin: Pos,
    end: Pos,
) -> Result<HeldExpr, AllocError>
    requires { begin.byte ≤ end.byte }
    ensures { IfOk result (λ e. expression_of e ≡ tuple_of (from_to begin.byte end.byte) (expressions_in elements)) }
{
    let node = Expr::Tuple(elements.into_trees());
    let span = Span::new(begin, end);
    HeldExpr::new(alloc, Spanned { node, span })
}

/// One expression is itself; several, or none, are a tuple from `begin` to `end`.
pub fn one_or_tuple(
    alloc: Global,
    elements: HeldExprs,
    begin: Pos,
    end: Pos,
) -> Result<HeldExpr, AllocError>
    requires { begin.byte ≤ end.byte }
    ensures { IfOk result (λ e. expression_of e ≡ one_or_tuple_of (from_to begin.byte end.byte) (expressions_in elements)) }
{
    match elements.only() {
        Ok(element) => HeldExpr::new(alloc, element),
        Err(elements) => tuple(alloc, elements, begin, end),
    }
}

/// A list, from `begin` to `end`.
pub fn list(
    alloc: Global,
    elements: HeldExprs,
    begin: Pos,
    end: Pos,
) -> Result<HeldExpr, AllocError>
    requires { begin.byte ≤ end.byte }
    ensures { IfOk result (λ e. expression_of e ≡ list_of (from_to begin.byte end.byte) (expressions_in elements)) }
{
    let node = Expr::List(elements.into_trees());
    let span = Span::new(begin, end);
    HeldExpr::new(alloc, Spanned { node, span })
}

/// A dictionary, from `begin` to `end`.
pub fn dictionary(
    alloc: Global,
    entries: HeldEntries,
    begin: Pos,
    end: Pos,
) -> Result<HeldExpr, AllocError>
    requires { begin.byte ≤ end.byte }
    ensures { IfOk result (λ e. expression_of e ≡ dictionary_of (from_to begin.byte end.byte) (entries_in entries)) }
{
    let node = Expr::Dict(entries.into_trees());
    let span = Span::new(begin, end);
    HeldExpr::new(alloc, Spanned { node, span })
}

/// A lambda, from `begin` to `end`.
pub fn lambda(
    alloc: Global,
    params: HeldParameters,
    body: HeldExpr,
    begin: Pos,
    end: Pos,
) -> Result<HeldExpr, AllocError>
    requires { begin.byte ≤ end.byte }
    ensures means { IfOk result (λ e. expression_of e ≡ lambda_of (from_to begin.byte end.byte) (parameters_in params) (expression_of body)) }
    ensures spans { IfOk result (λ e. (e.tree.value.span.begin ≡ begin) × (e.tree.value.span.end ≡ end)) }
{
    let node = Expr::Lambda(LambdaP {
        params: params.into_trees(),
        body: body.into_box(),
        payload: (),
    });
    let span = Span::new(begin, end);
    HeldExpr::new(alloc, Spanned { node, span })
}
