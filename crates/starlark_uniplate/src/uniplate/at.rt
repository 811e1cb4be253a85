//! What a walk does at a node, apart from the state in which it does it.
ghost use Rattle.std.specs.Prelude.{Result};
ghost use Rattle.starlark_tree.specs.Ast.{Expression, Statement, Word};
ghost use Rattle.starlark_tree.specs.Names.{name_of};
ghost use Rattle.starlark_tree.specs.Places.{behind};
ghost use Rattle.starlark_tree.specs.Views.{expression_of, payloads, statement_of};
ghost use Rattle.starlark_tree.specs.Walks.{Calls, CallsSeen, TakesSeen};
ghost use Rattle.starlark_uniplate.specs.Held.{statement_at};
ghost use Rattle.starlark_uniplate.specs.Visited.{CallsOn};

use starlark_tree::ast::{AstAssignIdentP, AstExprP, AstPayload, AstStmtP};
use std::convert::Infallible;

/// Called at an expression.
pub(super) trait AtExpr<P: AstPayload, S, E> {
    // In which states it may be called at which expressions, and the effect of a call.
    ghost calls: { Calls S (Expression (payloads P.LoadPayload P.IdentPayload P.IdentAssignPayload P.DefPayload P.TypeExprPayload)) E };

    fn call(&self, expr: &AstExprP<P>, state: &mut S) -> Result<(), E>
        requires { calls.may state.old (expression_of expr.now) }
        ensures { calls.call state.old (expression_of expr.now) result state.new };
}

/// Called at a statement.
pub(super) trait AtStmt<P: AstPayload, S, E> {
    // In which states it may be called at which statements, and the effect of a call.
    ghost calls: { Calls S (Statement (payloads P.LoadPayload P.IdentPayload P.IdentAssignPayload P.DefPayload P.TypeExprPayload)) E };

    fn call(&self, stmt: &AstStmtP<P>, state: &mut S) -> Result<(), E>
        requires { calls.may state.old (statement_at stmt.now) }
        ensures { calls.call state.old (statement_at stmt.now) result state.new };
}

/// Called at a name that is bound.
pub(super) trait AtName<P: AstPayload, S, E> {
    // In which states it may be called at which names, and the effect of a call.
    ghost calls: { Calls S (Word × P.IdentAssignPayload) E };

    fn call(&self, name: &AstAssignIdentP<P>, state: &mut S) -> Result<(), E>
        requires { calls.may state.old (name_of name.now) }
        ensures { calls.call state.old (name_of name.now) result state.new };
}

/// Calls the closure that is the state.
#[derive(Clone, Copy)]
pub(super) struct Call;

impl<P: AstPayload, F: FnMut(&AstExprP<P>)> AtExpr<P, F, Infallible> for Call {
    ghost calls = { record { may = TakesSeen (behind expression_of) F.FnMut; call = CallsOn (behind expression_of) F.FnMut } };

    fn call(&self, expr: &AstExprP<P>, state: &mut F) -> Result<(), Infallible> {
        state(expr);
        Ok(())
    }
}

impl<P: AstPayload, F: FnMut(&AstStmtP<P>)> AtStmt<P, F, Infallible> for Call {
    ghost calls = { record { may = TakesSeen (behind statement_of) F.FnMut; call = CallsOn (behind statement_of) F.FnMut } };

    #[tactic(auto, unfolding(crate::specs::Held::statement_at))]
    fn call(&self, stmt: &AstStmtP<P>, state: &mut F) -> Result<(), Infallible> {
        state(stmt);
        Ok(())
    }
}

impl<P: AstPayload, F: FnMut(&AstAssignIdentP<P>)> AtName<P, F, Infallible> for Call {
    ghost calls = { record { may = TakesSeen (behind name_of) F.FnMut; call = CallsOn (behind name_of) F.FnMut } };

    fn call(&self, name: &AstAssignIdentP<P>, state: &mut F) -> Result<(), Infallible> {
        state(name);
        Ok(())
    }
}

/// Calls the closure that is the state, which may fail.
#[derive(Clone, Copy)]
pub(super) struct CallErr;

impl<P: AstPayload, E, F: FnMut(&AstExprP<P>) -> Result<(), E>> AtExpr<P, F, E> for CallErr {
    ghost calls = { record { may = TakesSeen (behind expression_of) F.FnMut; call = CallsSeen (behind expression_of) F.FnMut } };

    fn call(&self, expr: &AstExprP<P>, state: &mut F) -> Result<(), E> {
        state(expr)
    }
}

impl<P: AstPayload, E, F: FnMut(&AstStmtP<P>) -> Result<(), E>> AtStmt<P, F, E> for CallErr {
    ghost calls = { record { may = TakesSeen (behind statement_of) F.FnMut; call = CallsSeen (behind statement_of) F.FnMut } };

    #[tactic(auto, unfolding(crate::specs::Held::statement_at))]
    fn call(&self, stmt: &AstStmtP<P>, state: &mut F) -> Result<(), E> {
        state(stmt)
    }
}
