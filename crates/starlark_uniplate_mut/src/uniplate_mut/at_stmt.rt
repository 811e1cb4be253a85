//! What a mutable walk does at a statement, apart from the state in which it does it.
ghost use Rattle.std.specs.Prelude.{Result};
ghost use Rattle.starlark_tree.specs.Ast.{Statement};
ghost use Rattle.starlark_tree.specs.Views.{payloads, statement_of};
ghost use Rattle.starlark_tree.specs.Walks.{GoesWriting, TakesMut, WritesSeen, Writing};

use crate::uniplate_mut::at::{Call, CallErr};
use starlark_tree::ast::{AstPayload, AstStmtP};
use std::convert::Infallible;

/// Called at a statement, which it may change.
pub(super) trait AtStmtMut<P: AstPayload, S, E> {
    // In which states it may be called at which statements, and what it may leave there.
    ghost calls: { Writing S (Statement (payloads P.LoadPayload P.IdentPayload P.IdentAssignPayload P.DefPayload P.TypeExprPayload)) E };

    fn call(&self, stmt: &mut AstStmtP<P>, state: &mut S) -> Result<(), E>
        requires { calls.may state.old (statement_of stmt.old) }
        ensures { calls.call state.old (statement_of stmt.old) (statement_of stmt.new) result state.new };
}

impl<P: AstPayload, F: FnMut(&mut AstStmtP<P>)> AtStmtMut<P, F, Infallible> for Call {
    ghost calls = { record { may = TakesMut statement_of F.FnMut; call = GoesWriting statement_of F.FnMut } };

    fn call(&self, stmt: &mut AstStmtP<P>, state: &mut F) -> Result<(), Infallible> {
        state(stmt);
        Ok(())
    }
}

impl<P: AstPayload, E, F: FnMut(&mut AstStmtP<P>) -> Result<(), E>> AtStmtMut<P, F, E> for CallErr {
    ghost calls = { record { may = TakesMut statement_of F.FnMut; call = WritesSeen statement_of F.FnMut } };

    fn call(&self, stmt: &mut AstStmtP<P>, state: &mut F) -> Result<(), E> {
        state(stmt)
    }
}
