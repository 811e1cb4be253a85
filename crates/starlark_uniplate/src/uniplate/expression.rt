//! Walks over expressions.
ghost use Rattle.std.specs.Prelude.{[], ◌∷◌, ◌++◌, map};
ghost use Rattle.std.specs.List.{flat_map};
ghost use Rattle.starlark_tree.specs.Parts.{argument_expression};
ghost use Rattle.starlark_tree.specs.Places.{exprs_in_parameter, for_exprs, maybe_exprs};
ghost use Rattle.starlark_tree.specs.Views.{expression_of, for_in_of, maybe_of};
ghost use Rattle.starlark_tree.specs.Walks.{MayWalkBy, WalkBy};
ghost use Rattle.starlark_uniplate.specs.Listed.{exprs_of_clauses};

use crate::uniplate::at::AtExpr;
use crate::uniplate::clause::{walk_clauses, walk_for};
use crate::uniplate::listed::more_clauses;
use crate::uniplate::one::{walk_one, walk_two};
use crate::uniplate::parameter::{walk_maybe, walk_parameters};
use starlark_tree::ast::{AstArgumentP, AstExprP, AstParameterP, AstPayload, ClauseP, ForClauseP};

/// Visits the expressions of arguments.
#[tactic(auto, using(crate::proofs::Calls::spots))]
fn walk_arguments<P: AstPayload, S, E, G: AtExpr<P, S, E>>(
    arguments: &[AstArgumentP<P>],
    state: &mut S,
    visit: &G,
) -> Result<(), E>
    requires { MayWalkBy G.calls state.old (map (λ a. expression_of (argument_expression a.node)) arguments.now) }
    ensures { WalkBy G.calls state.old (map (λ a. expression_of (argument_expression a.node)) arguments.now) result state.new }
{
    for argument in arguments {
        walk_one(argument.node.expr(), state, visit)?;
    }
    Ok(())
}

/// Visits what is called, and the expressions of the arguments.
pub(super) fn walk_call<P: AstPayload, S, E, G: AtExpr<P, S, E>>(
    callee: &AstExprP<P>,
    arguments: &[AstArgumentP<P>],
    state: &mut S,
    visit: &G,
) -> Result<(), E>
    requires { MayWalkBy G.calls state.old (expression_of callee.now ∷ map (λ a. expression_of (argument_expression a.node)) arguments.now) }
    ensures { WalkBy G.calls state.old (expression_of callee.now ∷ map (λ a. expression_of (argument_expression a.node)) arguments.now) result state.new }
{
    match walk_one(callee, state, visit) {
        Ok(()) => walk_arguments(arguments, state, visit),
        Err(error) => Err(error),
    }
}

/// Visits the stop and the step of a slice.
fn walk_stop<P: AstPayload, S, E, G: AtExpr<P, S, E>>(
    stop: &Option<Box<AstExprP<P>>>,
    step: &Option<Box<AstExprP<P>>>,
    state: &mut S,
    visit: &G,
) -> Result<(), E>
    requires { MayWalkBy G.calls state.old (maybe_exprs (maybe_of stop.now) ++ maybe_exprs (maybe_of step.now)) }
    ensures { WalkBy G.calls state.old (maybe_exprs (maybe_of stop.now) ++ maybe_exprs (maybe_of step.now)) result state.new }
{
    match walk_maybe(stop, state, visit) {
        Ok(()) => walk_maybe(step, state, visit),
        Err(error) => Err(error),
    }
}

/// Visits the start, the stop and the step of a slice.
pub(super) fn walk_bounds<P: AstPayload, S, E, G: AtExpr<P, S, E>>(
    start: &Option<Box<AstExprP<P>>>,
    stop: &Option<Box<AstExprP<P>>>,
    step: &Option<Box<AstExprP<P>>>,
    state: &mut S,
    visit: &G,
) -> Result<(), E>
    requires { MayWalkBy G.calls state.old (maybe_exprs (maybe_of start.now) ++ (maybe_exprs (maybe_of stop.now) ++ maybe_exprs (maybe_of step.now))) }
    ensures { WalkBy G.calls state.old (maybe_exprs (maybe_of start.now) ++ (maybe_exprs (maybe_of stop.now) ++ maybe_exprs (maybe_of step.now))) result
        state.new }
{
    match walk_maybe(start, state, visit) {
        Ok(()) => walk_stop(stop, step, state, visit),
        Err(error) => Err(error),
    }
}

/// Visits the expressions of parameters, and the body.
#[tactic(auto, using(crate::proofs::Calls::parts))]
pub(super) fn walk_lambda<P: AstPayload, S, E, G: AtExpr<P, S, E>>(
    parameters: &[AstParameterP<P>],
    body: &AstExprP<P>,
    state: &mut S,
    visit: &G,
) -> Result<(), E>
    requires { MayWalkBy G.calls state.old (flat_map (λ p. exprs_in_parameter p.node) parameters.now ++ expression_of body.now ∷ []) }
    ensures { WalkBy G.calls state.old (flat_map (λ p. exprs_in_parameter p.node) parameters.now ++ expression_of body.now ∷ []) result state.new }
{
    match walk_parameters(parameters, state, visit) {
        Ok(()) => walk_one(body, state, visit),
        Err(error) => Err(error),
    }
}

/// Visits the keys and values of a dictionary.
#[tactic(auto, using(crate::proofs::Calls::items))]
pub(super) fn walk_pairs<P: AstPayload, S, E, G: AtExpr<P, S, E>>(
    pairs: &[(AstExprP<P>, AstExprP<P>)],
    state: &mut S,
    visit: &G,
) -> Result<(), E>
    requires { MayWalkBy G.calls state.old (flat_map (λ p. expression_of p.0 ∷ expression_of p.1 ∷ []) pairs.now) }
    ensures { WalkBy G.calls state.old (flat_map (λ p. expression_of p.0 ∷ expression_of p.1 ∷ []) pairs.now) result state.new }
{
    for pair in pairs {
        walk_two(&pair.0, &pair.1, state, visit)?;
    }
    Ok(())
}

/// Visits the expressions of the clauses after the first.
fn walk_more_clauses<P: AstPayload, S, E, G: AtExpr<P, S, E>>(
    others: &Vec<ClauseP<P>>,
    state: &mut S,
    visit: &G,
) -> Result<(), E>
    requires { MayWalkBy G.calls state.old (exprs_of_clauses others.now) }
    ensures { WalkBy G.calls state.old (exprs_of_clauses others.now) result state.new }
{
    walk_clauses(more_clauses(others), state, visit)
}

/// Visits the expressions of a comprehension's clauses.
#[tactic(auto, using(crate::proofs::Calls::in_turn))]
pub(super) fn walk_comprehension<P: AstPayload, S, E, G: AtExpr<P, S, E>>(
    first: &Box<ForClauseP<P>>,
    others: &Vec<ClauseP<P>>,
    state: &mut S,
    visit: &G,
) -> Result<(), E>
    requires { MayWalkBy G.calls state.old (for_exprs (for_in_of first.now.value) ++ exprs_of_clauses others.now) }
    ensures { WalkBy G.calls state.old (for_exprs (for_in_of first.now.value) ++ exprs_of_clauses others.now) result state.new }
{
    match walk_for(first, state, visit) {
        Ok(()) => walk_more_clauses(others, state, visit),
        Err(error) => Err(error),
    }
}
