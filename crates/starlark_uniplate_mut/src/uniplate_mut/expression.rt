//! Mutable walks over the expressions of calls, slices, lambdas and dictionaries.
ghost use Rattle.std.specs.Prelude.{◌≡◌, [], ◌∷◌, ◌++◌, map};
ghost use Rattle.std.specs.List.{flat_map};
ghost use Rattle.starlark_uniplate_mut.specs.Frames.{argument_frame, argument_frame_of, maybe_frame, parameter_frame};
ghost use Rattle.starlark_tree.specs.Parts.{argument_expression};
ghost use Rattle.starlark_tree.specs.Places.{exprs_in_parameter, maybe_exprs};
ghost use Rattle.starlark_tree.specs.Views.{argument_of, expression_of, maybe_of, parameter_of};
ghost use Rattle.starlark_tree.specs.Walks.{MayWriteBy, WriteBy, WritesIn};

use crate::uniplate_mut::at::AtExprMut;
use crate::uniplate_mut::one::{write_first, write_one, write_pair};
use crate::uniplate_mut::parameter::{write_maybe, write_parameters};
use starlark_tree::ast::{ArgumentP, AstArgumentP, AstExprP, AstParameterP, AstPayload};

/// Visits the expression of an argument.
fn write_argument<P: AstPayload, S, E, G: AtExprMut<P, S, E>>(
    argument: &mut ArgumentP<P>,
    state: &mut S,
    visit: &G,
) -> Result<(), E>
    requires { MayWriteBy G.calls state.old (expression_of (argument_expression argument.old) ∷ []) }
    ensures { WritesIn (λ a. expression_of (argument_expression a) ∷ []) argument_frame_of G.calls state.old argument.old argument.new result state.new }
{
    match argument {
        ArgumentP::Positional(expr) => write_one(expr, state, visit),
        ArgumentP::Named(_, expr) => write_one(expr, state, visit),
        ArgumentP::Args(expr) => write_one(expr, state, visit),
        ArgumentP::KwArgs(expr) => write_one(expr, state, visit),
    }
}

/// Visits the expressions of arguments.
#[tactic(auto, using(crate::proofs::Spots::at_spot))]
fn write_arguments<P: AstPayload, S, E, G: AtExprMut<P, S, E>>(
    arguments: &mut [AstArgumentP<P>],
    state: &mut S,
    visit: &G,
) -> Result<(), E>
    requires { MayWriteBy G.calls state.old (map (λ a. expression_of (argument_expression a.node)) arguments.old) }
    ensures { WritesIn (map (λ a. expression_of (argument_expression a.node))) (map (λ a. argument_frame (argument_of a))) G.calls state.old arguments.old
        arguments.new result state.new }
{
    for argument in arguments.iter_mut() {
        write_argument(&mut argument.node, state, visit)?;
    }
    Ok(())
}

/// Visits what is called, and the expressions of the arguments.
pub(super) fn write_call<P: AstPayload, S, E, G: AtExprMut<P, S, E>>(
    callee: &mut AstExprP<P>,
    arguments: &mut [AstArgumentP<P>],
    state: &mut S,
    visit: &G,
) -> Result<(), E>
    requires { MayWriteBy G.calls state.old (expression_of callee.old ∷ map (λ a. expression_of (argument_expression a.node)) arguments.old) }
    ensures calls { WriteBy G.calls state.old (expression_of callee.old ∷ map (λ a. expression_of (argument_expression a.node)) arguments.old)
        (expression_of callee.new ∷ map (λ a. expression_of (argument_expression a.node)) arguments.new) result state.new }
    ensures rest { map (λ a. argument_frame (argument_of a)) arguments.new ≡ map (λ a. argument_frame (argument_of a)) arguments.old }
{
    match write_first(callee, state, visit) {
        Ok(()) => write_arguments(arguments, state, visit),
        Err(error) => Err(error),
    }
}

/// Visits the stop and the step of a slice.
fn write_stop<P: AstPayload, S, E, G: AtExprMut<P, S, E>>(
    stop: &mut Option<Box<AstExprP<P>>>,
    step: &mut Option<Box<AstExprP<P>>>,
    state: &mut S,
    visit: &G,
) -> Result<(), E>
    requires { MayWriteBy G.calls state.old (maybe_exprs (maybe_of stop.old) ++ maybe_exprs (maybe_of step.old)) }
    ensures calls { WriteBy G.calls state.old (maybe_exprs (maybe_of stop.old) ++ maybe_exprs (maybe_of step.old))
        (maybe_exprs (maybe_of stop.new) ++ maybe_exprs (maybe_of step.new))
        result state.new }
    ensures stop { maybe_frame (maybe_of stop.new) ≡ maybe_frame (maybe_of stop.old) }
    ensures step { maybe_frame (maybe_of step.new) ≡ maybe_frame (maybe_of step.old) }
{
    match write_maybe(stop, state, visit) {
        Ok(()) => write_maybe(step, state, visit),
        Err(error) => Err(error),
    }
}

/// Visits the start, the stop and the step of a slice.
fn write_bounds<P: AstPayload, S, E, G: AtExprMut<P, S, E>>(
    start: &mut Option<Box<AstExprP<P>>>,
    stop: &mut Option<Box<AstExprP<P>>>,
    step: &mut Option<Box<AstExprP<P>>>,
    state: &mut S,
    visit: &G,
) -> Result<(), E>
    requires { MayWriteBy G.calls state.old (maybe_exprs (maybe_of start.old) ++ (maybe_exprs (maybe_of stop.old) ++ maybe_exprs (maybe_of step.old))) }
    ensures calls { WriteBy G.calls state.old (maybe_exprs (maybe_of start.old) ++ (maybe_exprs (maybe_of stop.old) ++ maybe_exprs (maybe_of step.old)))
        (maybe_exprs (maybe_of start.new) ++ (maybe_exprs (maybe_of stop.new) ++ maybe_exprs (maybe_of step.new))) result state.new }
    ensures start { maybe_frame (maybe_of start.new) ≡ maybe_frame (maybe_of start.old) }
    ensures stop { maybe_frame (maybe_of stop.new) ≡ maybe_frame (maybe_of stop.old) }
    ensures step { maybe_frame (maybe_of step.new) ≡ maybe_frame (maybe_of step.old) }
{
    match write_maybe(start, state, visit) {
        Ok(()) => write_stop(stop, step, state, visit),
        Err(error) => Err(error),
    }
}

/// Visits what is sliced, then the start, the stop and the step.
pub(super) fn write_slice<P: AstPayload, S, E, G: AtExprMut<P, S, E>>(
    array: &mut AstExprP<P>,
    start: &mut Option<Box<AstExprP<P>>>,
    stop: &mut Option<Box<AstExprP<P>>>,
    step: &mut Option<Box<AstExprP<P>>>,
    state: &mut S,
    visit: &G,
) -> Result<(), E>
    requires { MayWriteBy G.calls state.old
        (expression_of array.old ∷ (maybe_exprs (maybe_of start.old) ++ (maybe_exprs (maybe_of stop.old) ++ maybe_exprs (maybe_of step.old)))) }
    ensures calls { WriteBy G.calls state.old
        (expression_of array.old ∷ (maybe_exprs (maybe_of start.old) ++ (maybe_exprs (maybe_of stop.old) ++ maybe_exprs (maybe_of step.old))))
        (expression_of array.new ∷ (maybe_exprs (maybe_of start.new) ++ (maybe_exprs (maybe_of stop.new) ++ maybe_exprs (maybe_of step.new)))) result
        state.new }
    ensures start { maybe_frame (maybe_of start.new) ≡ maybe_frame (maybe_of start.old) }
    ensures stop { maybe_frame (maybe_of stop.new) ≡ maybe_frame (maybe_of stop.old) }
    ensures step { maybe_frame (maybe_of step.new) ≡ maybe_frame (maybe_of step.old) }
{
    match write_one(array, state, visit) {
        Ok(()) => write_bounds(start, stop, step, state, visit),
        Err(error) => Err(error),
    }
}

/// Visits the expressions of parameters, and the body.
#[tactic(auto, using(crate::proofs::May::parts))]
pub(super) fn write_lambda<P: AstPayload, S, E, G: AtExprMut<P, S, E>>(
    parameters: &mut [AstParameterP<P>],
    body: &mut AstExprP<P>,
    state: &mut S,
    visit: &G,
) -> Result<(), E>
    requires { MayWriteBy G.calls state.old (flat_map (λ p. exprs_in_parameter p.node) parameters.old ++ expression_of body.old ∷ []) }
    ensures calls { WriteBy G.calls state.old (flat_map (λ p. exprs_in_parameter p.node) parameters.old ++ expression_of body.old ∷ [])
        (flat_map (λ p. exprs_in_parameter p.node) parameters.new ++ expression_of body.new ∷ []) result state.new }
    ensures rest { map (λ p. parameter_frame (parameter_of p)) parameters.new ≡ map (λ p. parameter_frame (parameter_of p)) parameters.old }
{
    match write_parameters(parameters, state, visit) {
        Ok(()) => write_one(body, state, visit),
        Err(error) => Err(error),
    }
}

/// Visits the keys and values of a dictionary.
#[tactic(auto, using(crate::proofs::May::at_item))]
pub(super) fn write_pairs<P: AstPayload, S, E, G: AtExprMut<P, S, E>>(
    pairs: &mut [(AstExprP<P>, AstExprP<P>)],
    state: &mut S,
    visit: &G,
) -> Result<(), E>
    requires { MayWriteBy G.calls state.old (flat_map (λ p. expression_of p.0 ∷ expression_of p.1 ∷ []) pairs.old) }
    ensures { WriteBy G.calls state.old (flat_map (λ p. expression_of p.0 ∷ expression_of p.1 ∷ []) pairs.old)
        (flat_map (λ p. expression_of p.0 ∷ expression_of p.1 ∷ []) pairs.new)
        result state.new }
{
    for pair in pairs.iter_mut() {
        write_pair(pair, state, visit)?;
    }
    Ok(())
}
