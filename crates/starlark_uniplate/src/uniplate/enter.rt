//! Entering a node by a function that is passed by name.
ghost use Rattle.starlark_tree.specs.Places.{behind};
ghost use Rattle.starlark_tree.specs.Views.{expression_of, statement_of};
ghost use Rattle.starlark_uniplate.specs.Entering.{Enters, MayEnter};

use crate::uniplate::at::{AtExpr, AtStmt};
use starlark_tree::ast::{AstExprP, AstPayload, AstStmtP};

/// Enters an expression or a statement by a function that is passed by name and has the mark as its last argument.
#[derive(Clone, Copy)]
pub(super) struct Enter<H, M> {
    pub(super) function: H,
    pub(super) mark: M,
}

impl<P: AstPayload, S, E, M: Copy, H: Fn(&AstExprP<P>, &mut S, M) -> Result<(), E>> AtExpr<P, S, E>
    for Enter<H, M> {
    ghost calls = { record { may = MayEnter (behind expression_of) H.Fn; call = Enters (behind expression_of) H.Fn } };

    fn call(&self, expr: &AstExprP<P>, state: &mut S) -> Result<(), E> {
        (self.function)(expr, state, self.mark)
    }
}

impl<P: AstPayload, S, E, M: Copy, H: Fn(&AstStmtP<P>, &mut S, M) -> Result<(), E>> AtStmt<P, S, E>
    for Enter<H, M> {
    ghost calls = { record { may = MayEnter (behind statement_of) H.Fn; call = Enters (behind statement_of) H.Fn } };

    #[tactic(auto, unfolding(crate::specs::Held::statement_at))]
    fn call(&self, stmt: &AstStmtP<P>, state: &mut S) -> Result<(), E> {
        (self.function)(stmt, state, self.mark)
    }
}
