//! Statements with their spans.
ghost use Rattle.std.specs.Prelude.{◌≡◌, ◌≤◌, ◌++◌, ◌∷◌, [], IfOk, OnOk};
ghost use Rattle.starlark_lexer.specs.Tokens.{from_to};
ghost use Rattle.starlark_tree.specs.Ast.{statement};
ghost use Rattle.starlark_tree.specs.Views.{form_seen};
ghost use Rattle.starlark_parse_held.specs.Held.{statement_of, statements_in};

use starlark_lexer::span::{Pos, Span, Spanned};
use starlark_parse_held::{HeldStmt, HeldStmts};
use starlark_tree::ast::Stmt;
use std::alloc::{AllocError, Global};

/// A statement, from `begin` to `end`.
pub(crate) fn spanned(
    alloc: Global,
    node: Stmt,
    begin: Pos,
    end: Pos,
) -> Result<HeldStmt, AllocError>
    requires { begin.byte ≤ end.byte }
    ensures { IfOk result (λ s. statement_of s ≡ statement (from_to begin.byte end.byte) (form_seen node)) }
{
    let span = Span::new(begin, end);
    HeldStmt::new(alloc, Spanned { node, span })
}

/// Adds a statement to the statements, from `begin` to `end`.
pub(crate) fn add_spanned(
    statements: &mut HeldStmts,
    node: Stmt,
    begin: Pos,
    end: Pos,
) -> Result<(), AllocError>
    requires { begin.byte ≤ end.byte }
    ensures { OnOk result (statements_in statements.new
        ≡ statements_in statements.old ++ statement (from_to begin.byte end.byte) (form_seen node) ∷ []) }
{
    statements.add(node, Span::new(begin, end))
}
