//! Mutable walks over the expressions of comprehensions.
ghost use Rattle.std.specs.Prelude.{◌≡◌, [], ◌∷◌, ◌++◌, Ok, map};
ghost use Rattle.std.specs.List.{flat_map};
ghost use Rattle.starlark_uniplate_mut.specs.Frames.{clause_frame_of, for_frame_of};
ghost use Rattle.starlark_tree.specs.Places.{clause_exprs, for_exprs};
ghost use Rattle.starlark_tree.specs.Views.{clause_seen, expression_of, for_in_of};
ghost use Rattle.starlark_tree.specs.Walks.{MayWriteBy, WriteBy};

use crate::uniplate_mut::at::AtExprMut;
use crate::uniplate_mut::clause::{write_clauses, write_for};
use crate::uniplate_mut::one::{write_one, write_pair};
use starlark_tree::ast::{AstExprP, AstPayload, ClauseP, ForClauseP};

/// Visits the expressions of a comprehension's clauses.
#[tactic(auto, using(crate::proofs::Sequel::plain))]
fn write_comprehension<P: AstPayload, S, E, G: AtExprMut<P, S, E>>(
    first: &mut ForClauseP<P>,
    others: &mut [ClauseP<P>],
    state: &mut S,
    visit: &G,
) -> Result<(), E>
    requires { MayWriteBy G.calls state.old (for_exprs (for_in_of first.old) ++ flat_map (λ k. clause_exprs (clause_seen k)) others.old) }
    ensures calls { WriteBy G.calls state.old (for_exprs (for_in_of first.old) ++ flat_map (λ k. clause_exprs (clause_seen k)) others.old)
        (for_exprs (for_in_of first.new) ++ flat_map (λ k. clause_exprs (clause_seen k)) others.new) result state.new }
    ensures first { for_frame_of first.new ≡ for_frame_of first.old }
    ensures others { map clause_frame_of others.new ≡ map clause_frame_of others.old }
{
    match write_for(first, state, visit) {
        Ok(()) => write_clauses(others, state, visit),
        Err(error) => Err(error),
    }
}

/// Visits the expressions of a comprehension's clauses; a key and a value are visited after it.
fn write_before_pair<P: AstPayload, S, E, G: AtExprMut<P, S, E>>(
    first: &mut ForClauseP<P>,
    others: &mut [ClauseP<P>],
    state: &mut S,
    visit: &G,
) -> Result<(), E>
    requires { MayWriteBy G.calls state.old (for_exprs (for_in_of first.old) ++ flat_map (λ k. clause_exprs (clause_seen k)) others.old) }
    ensures calls { WriteBy G.calls state.old (for_exprs (for_in_of first.old) ++ flat_map (λ k. clause_exprs (clause_seen k)) others.old)
        (for_exprs (for_in_of first.new) ++ flat_map (λ k. clause_exprs (clause_seen k)) others.new) result state.new }
    ensures first { for_frame_of first.new ≡ for_frame_of first.old }
    ensures others { map clause_frame_of others.new ≡ map clause_frame_of others.old }
    ensures key { (key value : _)
        → MayWriteBy G.calls state.old ((for_exprs (for_in_of first.old) ++ flat_map (λ k. clause_exprs (clause_seen k)) others.old) ++ key ∷ value ∷ [])
        → result ≡ Ok tt → G.calls.may state.new key }
    ensures value { (key value left later : _)
        → MayWriteBy G.calls state.old ((for_exprs (for_in_of first.old) ++ flat_map (λ k. clause_exprs (clause_seen k)) others.old) ++ key ∷ value ∷ [])
        → result ≡ Ok tt → G.calls.call state.new key left (Ok tt) later → G.calls.may later value }
{
    write_comprehension(first, others, state, visit)
}

/// Visits the expressions of a comprehension's clauses, then the value.
#[tactic(auto, using(crate::proofs::Sequel::one_more))]
pub(super) fn write_list_comprehension<P: AstPayload, S, E, G: AtExprMut<P, S, E>>(
    value: &mut AstExprP<P>,
    first: &mut ForClauseP<P>,
    others: &mut [ClauseP<P>],
    state: &mut S,
    visit: &G,
) -> Result<(), E>
    requires { MayWriteBy G.calls state.old
        ((for_exprs (for_in_of first.old) ++ flat_map (λ k. clause_exprs (clause_seen k)) others.old) ++ expression_of value.old ∷ []) }
    ensures calls { WriteBy G.calls state.old
        ((for_exprs (for_in_of first.old) ++ flat_map (λ k. clause_exprs (clause_seen k)) others.old) ++ expression_of value.old ∷ [])
        ((for_exprs (for_in_of first.new) ++ flat_map (λ k. clause_exprs (clause_seen k)) others.new) ++ expression_of value.new ∷ []) result state.new }
    ensures first { for_frame_of first.new ≡ for_frame_of first.old }
    ensures others { map clause_frame_of others.new ≡ map clause_frame_of others.old }
{
    match write_comprehension(first, others, state, visit) {
        Ok(()) => write_one(value, state, visit),
        Err(error) => Err(error),
    }
}

/// Visits the key and the value, each of which is known to be one that may be changed.
fn write_last_pair<P: AstPayload, S, E, G: AtExprMut<P, S, E>>(
    pair: &mut (AstExprP<P>, AstExprP<P>),
    state: &mut S,
    visit: &G,
) -> Result<(), E>
    requires key { G.calls.may state.old (expression_of pair.old.0) }
    requires value { (left later : _) → G.calls.call state.old (expression_of pair.old.0) left (Ok tt) later → G.calls.may later (expression_of pair.old.1) }
    ensures { WriteBy G.calls state.old (expression_of pair.old.0 ∷ expression_of pair.old.1 ∷ [])
        (expression_of pair.new.0 ∷ expression_of pair.new.1 ∷ []) result state.new }
{
    write_pair(pair, state, visit)
}

/// Visits the expressions of a comprehension's clauses, then the key and the value.
#[tactic(auto, using(crate::proofs::Sequel::plain))]
pub(super) fn write_dict_comprehension<P: AstPayload, S, E, G: AtExprMut<P, S, E>>(
    pair: &mut (AstExprP<P>, AstExprP<P>),
    first: &mut ForClauseP<P>,
    others: &mut [ClauseP<P>],
    state: &mut S,
    visit: &G,
) -> Result<(), E>
    requires { MayWriteBy G.calls state.old
        ((for_exprs (for_in_of first.old) ++ flat_map (λ k. clause_exprs (clause_seen k)) others.old) ++ expression_of pair.old.0 ∷ expression_of pair.old.1
        ∷ []) }
    ensures calls { WriteBy G.calls state.old
        ((for_exprs (for_in_of first.old) ++ flat_map (λ k. clause_exprs (clause_seen k)) others.old) ++ expression_of pair.old.0 ∷ expression_of pair.old.1
        ∷ [])
        ((for_exprs (for_in_of first.new) ++ flat_map (λ k. clause_exprs (clause_seen k)) others.new) ++ expression_of pair.new.0 ∷ expression_of pair.new.1
        ∷ []) result state.new }
    ensures first { for_frame_of first.new ≡ for_frame_of first.old }
    ensures others { map clause_frame_of others.new ≡ map clause_frame_of others.old }
{
    match write_before_pair(first, others, state, visit) {
        Ok(()) => write_last_pair(pair, state, visit),
        Err(error) => Err(error),
    }
}
