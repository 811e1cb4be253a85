//! What comes after an operand.
ghost use Rattle.std.specs.Prelude.{◌≡◌, ◌≤◌, IfOk};
ghost use Rattle.starlark_lexer.specs.Tokens.{Span as Place, from_to};
ghost use Rattle.starlark_tree.specs.Ast.{expression, Call, Dot, Slice, arguments_of};
ghost use Rattle.starlark_tree.specs.Views.{shape_seen, word, expression_of as tree_of};
ghost use Rattle.starlark_spec.specs.Trees.{called};
ghost use Rattle.starlark_parse_held.specs.Held.{expression_of, maybe_of, arguments_in};
ghost use Rattle.starlark_parse_build.specs.Suffixes.{with_suffix};

use crate::optional::boxed_tree;
use starlark_lexer::span::{Pos, Span, Spanned};
use starlark_parse_held::{HeldArguments, HeldExpr};
use starlark_tree::ast::{AstExpr, AstString, CallArgsP, Expr};
use std::alloc::{AllocError, Global};

/// What comes after an operand: the name of an attribute, the arguments of a call, one index or two, or the start, stop and step of a slice.
pub enum Suffix {
    Attribute(AstString),
    Call(HeldArguments),
    Index(HeldExpr),
    Index2(HeldExpr, HeldExpr),
    Slice(Option<HeldExpr>, Option<HeldExpr>, Option<HeldExpr>),
}

impl Drop for Suffix {
    fn drop(self) {
        match self {
            Suffix::Attribute(name) => drop(name),
            Suffix::Call(arguments) => drop(arguments),
            Suffix::Index(index) => drop(index),
            Suffix::Index2(first, second) => {
                drop(first);
                drop(second);
            }
            Suffix::Slice(start, stop, step) => {
                drop(start);
                drop(stop);
                drop(step);
            }
        }
    }
}

/// A call of an operand.
fn call(operand: Box<AstExpr>, arguments: HeldArguments) -> Expr
    ensures { shape_seen result ≡ Call (tree_of operand.value) (arguments_of (arguments_in arguments)) }
{
    let args = arguments.into_trees();
    Expr::Call(operand, CallArgsP { args })
}

/// A slice of an operand.
fn slice(
    operand: HeldExpr,
    start: Option<HeldExpr>,
    stop: Option<HeldExpr>,
    step: Option<HeldExpr>,
) -> Expr
    ensures { shape_seen result ≡ Slice (expression_of operand) (maybe_of start) (maybe_of stop) (maybe_of step) }
{
    Expr::Slice(
        operand.into_box(),
        boxed_tree(start),
        boxed_tree(stop),
        boxed_tree(step),
    )
}

impl Suffix {
    /// An operand and the suffix after it, without their span.
    fn after(self, alloc: Global, operand: HeldExpr) -> Result<Expr, AllocError>
        ensures { IfOk result (λ e. (span : Place) → expression span (shape_seen e) ≡ with_suffix span (expression_of operand) self) }
    {
        match self {
            Suffix::Attribute(name) => Ok(Expr::Dot(operand.into_box(), name)),
            Suffix::Call(arguments) => Ok(call(operand.into_box(), arguments)),
            Suffix::Index(index) => Ok(Expr::Index(operand.paired(alloc, index)?.into_trees())),
            Suffix::Index2(first, second) => {
                let parts = operand.tripled(alloc, first, second)?;
                Ok(Expr::Index2(parts.into_trees()))
            }
            Suffix::Slice(start, stop, step) => Ok(slice(operand, start, stop, step)),
        }
    }
}

/// An attribute of an operand, which ends at `end`.
pub fn attribute_of(
    alloc: Global,
    operand: HeldExpr,
    name: AstString,
    end: Pos,
) -> Result<HeldExpr, AllocError>
    requires { operand.tree.value.span.begin.byte ≤ end.byte }
    ensures means { IfOk result (λ e. expression_of e
        ≡ expression (from_to operand.tree.value.span.begin.byte end.byte) (Dot (expression_of operand) (word name))) }
    ensures spans { IfOk result (λ e. (e.tree.value.span.begin ≡ operand.tree.value.span.begin) × (e.tree.value.span.end ≡ end)) }
{
    let span = Span::new(operand.begin(), end);
    let node = Expr::Dot(operand.into_box(), name);
    HeldExpr::new(alloc, Spanned { node, span })
}

/// A call of an operand, which ends at `end`.
pub fn call_of(
    alloc: Global,
    operand: HeldExpr,
    arguments: HeldArguments,
    end: Pos,
) -> Result<HeldExpr, AllocError>
    requires { operand.tree.value.span.begin.byte ≤ end.byte }
    ensures means { IfOk result (λ e. expression_of e
        ≡ called (from_to operand.tree.value.span.begin.byte end.byte) (expression_of operand) (arguments_in arguments)) }
    ensures spans { IfOk result (λ e. (e.tree.value.span.begin ≡ operand.tree.value.span.begin) × (e.tree.value.span.end ≡ end)) }
{
    let span = Span::new(operand.begin(), end);
    let node = call(operand.into_box(), arguments);
    HeldExpr::new(alloc, Spanned { node, span })
}

/// An operand and the suffix after it, which ends at `end`.
pub fn suffixed(
    alloc: Global,
    operand: HeldExpr,
    suffix: Suffix,
    end: Pos,
) -> Result<HeldExpr, AllocError>
    requires { operand.tree.value.span.begin.byte ≤ end.byte }
    ensures means { IfOk result (λ e. expression_of e ≡ with_suffix (from_to operand.tree.value.span.begin.byte end.byte) (expression_of operand) suffix) }
    ensures spans { IfOk result (λ e. (e.tree.value.span.begin ≡ operand.tree.value.span.begin) × (e.tree.value.span.end ≡ end)) }
{
    let span = Span::new(operand.begin(), end);
    let node = suffix.after(alloc, operand)?;
    HeldExpr::new(alloc, Spanned { node, span })
}
