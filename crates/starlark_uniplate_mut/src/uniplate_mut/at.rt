//! What a mutable walk does at a node, apart from the state in which it does it.
ghost use Rattle.std.specs.Prelude.{Result};
ghost use Rattle.starlark_tree.specs.Ast.{Expression, Word};
ghost use Rattle.starlark_tree.specs.Names.{name_of};
ghost use Rattle.starlark_tree.specs.Views.{expression_of, payloads};
ghost use Rattle.starlark_tree.specs.Walks.{GoesWriting, TakesMut, WritesSeen, Writing};

use starlark_tree::ast::{AstAssignIdentP, AstExprP, AstPayload};
use std::convert::Infallible;

/// Called at an expression, which it may change.
pub trait AtExprMut<P: AstPayload, S, E> {
    // In which states it may be called at which expressions, and what it may leave there.
    ghost calls: { Writing S (Expression (payloads P.LoadPayload P.IdentPayload P.IdentAssignPayload P.DefPayload P.TypeExprPayload)) E };

    fn call(&self, expr: &mut AstExprP<P>, state: &mut S) -> Result<(), E>
        requires { calls.may state.old (expression_of expr.old) }
        ensures { calls.call state.old (expression_of expr.old) (expression_of expr.new) result state.new };
}

/// Called at a name that is bound, which it may change.
pub(super) trait AtNameMut<P: AstPayload, S, E> {
    // In which states it may be called at which names, and what it may leave there.
    ghost calls: { Writing S (Word × P.IdentAssignPayload) E };

    fn call(&self, name: &mut AstAssignIdentP<P>, state: &mut S) -> Result<(), E>
        requires { calls.may state.old (name_of name.old) }
        ensures { calls.call state.old (name_of name.old) (name_of name.new) result state.new };
}

/// Calls the closure that is the state.
pub(super) struct Call;

impl<P: AstPayload, F: FnMut(&mut AstExprP<P>)> AtExprMut<P, F, Infallible> for Call {
    ghost calls = { record { may = TakesMut expression_of F.FnMut; call = GoesWriting expression_of F.FnMut } };

    fn call(&self, expr: &mut AstExprP<P>, state: &mut F) -> Result<(), Infallible> {
        state(expr);
        Ok(())
    }
}

impl<P: AstPayload, F: FnMut(&mut AstAssignIdentP<P>)> AtNameMut<P, F, Infallible> for Call {
    ghost calls = { record { may = TakesMut name_of F.FnMut; call = GoesWriting name_of F.FnMut } };

    fn call(&self, name: &mut AstAssignIdentP<P>, state: &mut F) -> Result<(), Infallible> {
        state(name);
        Ok(())
    }
}

/// Calls the closure that is the state, which may fail.
pub(super) struct CallErr;

impl<P: AstPayload, E, F: FnMut(&mut AstExprP<P>) -> Result<(), E>> AtExprMut<P, F, E> for CallErr {
    ghost calls = { record { may = TakesMut expression_of F.FnMut; call = WritesSeen expression_of F.FnMut } };

    fn call(&self, expr: &mut AstExprP<P>, state: &mut F) -> Result<(), E> {
        state(expr)
    }
}

impl<P: AstPayload, E, F: FnMut(&mut AstAssignIdentP<P>) -> Result<(), E>> AtNameMut<P, F, E>
    for CallErr {
    ghost calls = { record { may = TakesMut name_of F.FnMut; call = WritesSeen name_of F.FnMut } };

    fn call(&self, name: &mut AstAssignIdentP<P>, state: &mut F) -> Result<(), E> {
        state(name)
    }
}
