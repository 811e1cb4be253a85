//! Walks over the expressions of a statement and of the statements in it.
ghost use Rattle.starlark_tree.specs.Children.{exprs_in_stmt};
ghost use Rattle.starlark_tree.specs.Walks.{MayWalkBy, WalkBy};
ghost use Rattle.starlark_uniplate.specs.Entering.{calls_at};
ghost use Rattle.starlark_uniplate.specs.Statements.{exprs_of_statement};

use crate::uniplate::at::{AtExpr, AtStmt};
use crate::uniplate::block::walk_stmts;
use crate::uniplate::inside::Inside;
use crate::uniplate::statement::walk_exprs;
use starlark_tree::ast::{AstPayload, AstStmtP, StmtP};

/// Visits the expressions of a statement itself.
#[derive(Clone, Copy)]
struct AtExprs<G> {
    visit: G,
}

impl<P: AstPayload, S, E, G: AtExpr<P, S, E>> AtStmt<P, S, E> for AtExprs<G> {
    ghost calls = { calls_at exprs_of_statement G.calls };

    #[tactic(auto, unfolding(crate::specs::Held::statement_at))]
    fn call(&self, stmt: &AstStmtP<P>, state: &mut S) -> Result<(), E> {
        walk_exprs(&stmt.node, state, &self.visit)
    }
}

/// Visits the expressions of a statement itself, then those of the statements in it.
#[tactic(auto, using(crate::proofs::Entered::exprs_then_stmts))]
pub(super) fn walk_all_exprs<P: AstPayload, S, E, G: AtExpr<P, S, E> + Copy>(
    stmt: &StmtP<P>,
    state: &mut S,
    visit: G,
) -> Result<(), E>
    requires { MayWalkBy G.calls state.old (exprs_in_stmt stmt.now) }
    ensures { WalkBy G.calls state.old (exprs_in_stmt stmt.now) result state.new }
{
    match walk_exprs(stmt, state, &visit) {
        Ok(()) => {
            let visit = AtExprs { visit };
            walk_stmts(stmt, state, &Inside { visit })
        }
        Err(error) => Err(error),
    }
}
