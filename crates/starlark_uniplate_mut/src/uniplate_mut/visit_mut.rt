//! Mutable walks over the children of a statement, its expressions and its statements.
ghost use Rattle.std.specs.Prelude.{Result, ⊤};
ghost use Rattle.starlark_tree.specs.Ast.{Expression, Statement};
ghost use Rattle.starlark_tree.specs.Views.{expression_of, payloads, statement_of};
ghost use Rattle.starlark_tree.specs.Walks.{Writing};

use crate::uniplate_mut::at::AtExprMut;
use crate::uniplate_mut::at_stmt::AtStmtMut;
use starlark_tree::ast::{AstExprP, AstPayload, AstStmtP};

/// What a mutable walk over the children of a statement does at each of them. The visitor is the state of the walk. An
/// `impl` may specify by its two ghost members what its calls require and what they may leave; without them it may be
/// called at each child, and nothing is promised about the result.
pub trait VisitMut<P: AstPayload, E> {
    // In which states it may be called at which statements, and what it may leave there.
    ghost stmt_calls: { Writing Self
        (Statement (payloads P.LoadPayload P.IdentPayload P.IdentAssignPayload P.DefPayload P.TypeExprPayload)) E } = { record {
          may = λ _ _. ⊤;
          call = λ _ _ _ _ _. ⊤;
        } };

    // The same for expressions.
    ghost expr_calls: { Writing Self
        (Expression (payloads P.LoadPayload P.IdentPayload P.IdentAssignPayload P.DefPayload P.TypeExprPayload)) E } = { record {
          may = λ _ _. ⊤;
          call = λ _ _ _ _ _. ⊤;
        } };

    /// Visits a statement, which it may change. An `Err` ends the walk.
    fn stmt(&mut self, stmt: &mut AstStmtP<P>) -> Result<(), E>
        requires { stmt_calls.may self.old (statement_of stmt.old) }
        ensures { stmt_calls.call self.old (statement_of stmt.old) (statement_of stmt.new) result self.new };

    /// Visits an expression, which it may change. An `Err` ends the walk.
    fn expr(&mut self, expr: &mut AstExprP<P>) -> Result<(), E>
        requires { expr_calls.may self.old (expression_of expr.old) }
        ensures { expr_calls.call self.old (expression_of expr.old) (expression_of expr.new) result self.new };
}

/// Passes a child to the visitor that is the state.
pub(super) struct Hand;

impl<P: AstPayload, E, V: VisitMut<P, E>> AtStmtMut<P, V, E> for Hand {
    ghost calls = { V.stmt_calls };

    fn call(&self, stmt: &mut AstStmtP<P>, state: &mut V) -> Result<(), E> {
        state.stmt(stmt)
    }
}

impl<P: AstPayload, E, V: VisitMut<P, E>> AtExprMut<P, V, E> for Hand {
    ghost calls = { V.expr_calls };

    fn call(&self, expr: &mut AstExprP<P>, state: &mut V) -> Result<(), E> {
        state.expr(expr)
    }
}
