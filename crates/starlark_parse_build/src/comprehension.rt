//! Comprehensions over the parts that were read.
ghost use Rattle.std.specs.Prelude.{◌≤◌, ◌≡◌, IfOk};
ghost use Rattle.starlark_lexer.specs.Tokens.{from_to};
ghost use Rattle.starlark_spec.specs.Trees as trees;
ghost use Rattle.starlark_parse_held.specs.Held.{clauses_in, expression_of};

use starlark_lexer::span::{Pos, Span, Spanned};
use starlark_parse_held::{HeldClauses, HeldExpr};
use starlark_tree::ast::Expr;
use std::alloc::{AllocError, Global};

/// A list comprehension, from `begin` to `end`.
pub fn list_comprehension(
    alloc: Global,
    element: HeldExpr,
    clauses: HeldClauses,
    begin: Pos,
    end: Pos,
) -> Result<HeldExpr, AllocError>
    requires { begin.byte ≤ end.byte }
    ensures { IfOk result (λ e. expression_of e ≡ trees.list_comprehension (from_to begin.byte end.byte) (expression_of element) (clauses_in clauses)) }
{
    let (first, rest) = clauses.into_parts();
    let node = Expr::ListComprehension(element.into_box(), first, rest);
    let span = Span::new(begin, end);
    HeldExpr::new(alloc, Spanned { node, span })
}

/// A dictionary comprehension, from `begin` to `end`.
pub fn dict_comprehension(
    alloc: Global,
    key: HeldExpr,
    value: HeldExpr,
    clauses: HeldClauses,
    begin: Pos,
    end: Pos,
) -> Result<HeldExpr, AllocError>
    requires { begin.byte ≤ end.byte }
    ensures { IfOk result (λ e. expression_of e ≡ trees.dict_comprehension (from_to begin.byte end.byte) (expression_of key, expression_of value)
        (clauses_in clauses)) }
{
    let entry = key.paired(alloc, value)?;
    let (first, rest) = clauses.into_parts();
    let node = Expr::DictComprehension(entry.into_trees(), first, rest);
    let span = Span::new(begin, end);
    HeldExpr::new(alloc, Spanned { node, span })
}
