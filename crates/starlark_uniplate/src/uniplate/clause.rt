//! Walks over the clauses of comprehensions.
ghost use Rattle.std.specs.List.{flat_map};
ghost use Rattle.starlark_tree.specs.Places.{clause_exprs, for_exprs};
ghost use Rattle.starlark_tree.specs.Views.{clause_seen, for_in_of};
ghost use Rattle.starlark_tree.specs.Walks.{MayWalkBy, WalkBy};

use crate::uniplate::at::AtExpr;
use crate::uniplate::one::walk_one;
use crate::uniplate::target::walk_target;
use starlark_tree::ast::{AstPayload, ClauseP, ForClauseP};

/// Visits the expressions of `for var in over`.
#[tactic(auto, using(crate::proofs::Calls::parts))]
pub(super) fn walk_for<P: AstPayload, S, E, G: AtExpr<P, S, E>>(
    clause: &ForClauseP<P>,
    state: &mut S,
    visit: &G,
) -> Result<(), E>
    requires { MayWalkBy G.calls state.old (for_exprs (for_in_of clause.now)) }
    ensures { WalkBy G.calls state.old (for_exprs (for_in_of clause.now)) result state.new }
{
    match walk_target(&clause.var.node, state, visit) {
        Ok(()) => walk_one(&clause.over, state, visit),
        Err(error) => Err(error),
    }
}

/// Visits the expressions of a clause.
pub(super) fn walk_clause<P: AstPayload, S, E, G: AtExpr<P, S, E>>(
    clause: &ClauseP<P>,
    state: &mut S,
    visit: &G,
) -> Result<(), E>
    requires { MayWalkBy G.calls state.old (clause_exprs (clause_seen clause.now)) }
    ensures { WalkBy G.calls state.old (clause_exprs (clause_seen clause.now)) result state.new }
{
    match clause {
        ClauseP::For(clause) => walk_for(clause, state, visit),
        ClauseP::If(condition) => walk_one(condition, state, visit),
    }
}

/// Visits the expressions of clauses.
#[tactic(auto, using(crate::proofs::Calls::items))]
pub(super) fn walk_clauses<P: AstPayload, S, E, G: AtExpr<P, S, E>>(
    clauses: &[ClauseP<P>],
    state: &mut S,
    visit: &G,
) -> Result<(), E>
    requires { MayWalkBy G.calls state.old (flat_map (λ c. clause_exprs (clause_seen c)) clauses.now) }
    ensures { WalkBy G.calls state.old (flat_map (λ c. clause_exprs (clause_seen c)) clauses.now) result state.new }
{
    for clause in clauses {
        walk_clause(clause, state, visit)?;
    }
    Ok(())
}
