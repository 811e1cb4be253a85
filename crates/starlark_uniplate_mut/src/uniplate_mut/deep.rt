//! Mutable walks over the expressions of a statement and of the statements in it.
ghost use Rattle.starlark_tree.specs.Children.{exprs_in_stmt};
ghost use Rattle.starlark_tree.specs.Walks.{MayWriteBy, WritesIn};
ghost use Rattle.starlark_uniplate_mut.specs.AllExprs.{own_expr_calls};
ghost use Rattle.starlark_uniplate_mut.specs.FormFrames.{entered_frame_of};

use crate::uniplate_mut::at::AtExprMut;
use crate::uniplate_mut::statement::write_exprs;
use crate::uniplate_mut::statements::{AtOwnMut, write_statement};
use starlark_tree::ast::{AstPayload, StmtP};

/// Visits each expression of a statement itself.
#[derive(Drop)]
struct AtExprs<'a, G> {
    visit: &'a G,
}

impl<P: AstPayload, S, E, G: AtExprMut<P, S, E>> AtOwnMut<P, S, E> for AtExprs<'_, G> {
    ghost calls = { own_expr_calls G.calls };

    #[tactic(auto, using(crate::proofs::AllExprs::exprs_stay))]
    fn call(&self, stmt: &mut StmtP<P>, state: &mut S) -> Result<(), E> {
        write_exprs(stmt, state, self.visit)
    }
}

/// Visits the expressions of a statement, including those of the statements in it.
#[tactic(auto, using(crate::proofs::StatementParts::exprs_apart))]
pub(super) fn write_all_exprs<P: AstPayload, S, E, G: AtExprMut<P, S, E>>(
    stmt: &mut StmtP<P>,
    state: &mut S,
    visit: &G,
) -> Result<(), E>
    requires { MayWriteBy G.calls state.old (exprs_in_stmt stmt.old) }
    ensures { WritesIn exprs_in_stmt entered_frame_of G.calls state.old stmt.old stmt.new result state.new }
{
    write_statement(stmt, state, &AtExprs { visit })
}
