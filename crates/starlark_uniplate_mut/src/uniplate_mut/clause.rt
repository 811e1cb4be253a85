//! Mutable walks over the expressions of comprehensions' clauses.
ghost use Rattle.std.specs.Prelude.{map};
ghost use Rattle.std.specs.List.{flat_map};
ghost use Rattle.starlark_uniplate_mut.specs.Frames.{clause_frame_of, for_frame_of};
ghost use Rattle.starlark_tree.specs.Places.{clause_exprs, for_exprs};
ghost use Rattle.starlark_tree.specs.Views.{clause_seen, for_in_of};
ghost use Rattle.starlark_tree.specs.Walks.{MayWriteBy, WritesIn};

use crate::uniplate_mut::at::AtExprMut;
use crate::uniplate_mut::one::write_one;
use crate::uniplate_mut::target::write_binding;
use starlark_tree::ast::{AstPayload, ClauseP, ForClauseP};

/// Visits the expressions of `for var in over`.
#[tactic(auto, using(starlark_tree::proofs::Nodes::anywhere))]
pub(super) fn write_for<P: AstPayload, S, E, G: AtExprMut<P, S, E>>(
    clause: &mut ForClauseP<P>,
    state: &mut S,
    visit: &G,
) -> Result<(), E>
    requires { MayWriteBy G.calls state.old (for_exprs (for_in_of clause.old)) }
    ensures { WritesIn (λ c. for_exprs (for_in_of c)) for_frame_of G.calls state.old clause.old clause.new result state.new }
{
    write_binding(&mut clause.var.node, &mut clause.over, state, visit)
}

/// Visits the expressions of a clause.
pub(super) fn write_clause<P: AstPayload, S, E, G: AtExprMut<P, S, E>>(
    clause: &mut ClauseP<P>,
    state: &mut S,
    visit: &G,
) -> Result<(), E>
    requires { MayWriteBy G.calls state.old (clause_exprs (clause_seen clause.old)) }
    ensures { WritesIn (λ c. clause_exprs (clause_seen c)) clause_frame_of G.calls state.old clause.old clause.new result state.new }
{
    match clause {
        ClauseP::For(clause) => write_for(clause, state, visit),
        ClauseP::If(condition) => write_one(condition, state, visit),
    }
}

/// Visits the expressions of clauses.
#[tactic(auto, using(crate::proofs::May::at_item))]
pub(super) fn write_clauses<P: AstPayload, S, E, G: AtExprMut<P, S, E>>(
    clauses: &mut [ClauseP<P>],
    state: &mut S,
    visit: &G,
) -> Result<(), E>
    requires { MayWriteBy G.calls state.old (flat_map (λ c. clause_exprs (clause_seen c)) clauses.old) }
    ensures { WritesIn (flat_map (λ c. clause_exprs (clause_seen c))) (map clause_frame_of) G.calls state.old clauses.old clauses.new result state.new }
{
    for clause in clauses.iter_mut() {
        write_clause(clause, state, visit)?;
    }
    Ok(())
}
