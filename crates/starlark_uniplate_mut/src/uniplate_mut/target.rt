//! Mutable walks over the expressions of targets.
ghost use Rattle.starlark_tree.specs.declared.ast.AssignTargetP;
ghost use Rattle.std.specs.Prelude.{◌≡◌, [], ◌∷◌, ◌++◌};
ghost use Rattle.starlark_uniplate_mut.specs.Frames.{target_frame_of};
ghost use Rattle.starlark_tree.specs.Places.{exprs_in_target};
ghost use Rattle.starlark_tree.specs.Views.{expression_of};
ghost use Rattle.starlark_tree.specs.Walks.{MayWriteBy, WriteBy, WritesIn};

use crate::uniplate_mut::at::AtExprMut;
use crate::uniplate_mut::one::{write_boxed, write_boxed_pair, write_one};
use starlark_tree::ast::{AssignTargetP, AstAssignTargetP, AstExprP, AstPayload};

/// Visits the expressions of a tuple's parts.
#[cycle(target)]
fn write_parts<P: AstPayload, S, E, G: AtExprMut<P, S, E>>(
    parts: &mut Vec<AstAssignTargetP<P>>,
    state: &mut S,
    visit: &G,
) -> Result<(), E>
    requires { MayWriteBy G.calls state.old (exprs_in_target (AssignTargetP.Tuple parts.old)) }
    ensures { WritesIn exprs_in_target target_frame_of G.calls state.old (AssignTargetP.Tuple parts.old) (AssignTargetP.Tuple parts.new) result state.new }
{
    for part in parts.iter_mut() {
        write_target(&mut part.node, state, visit)?;
    }
    Ok(())
}

/// Visits the expressions of a target.
#[cycle(target)]
pub(super) fn write_target<P: AstPayload, S, E, G: AtExprMut<P, S, E>>(
    target: &mut AssignTargetP<P>,
    state: &mut S,
    visit: &G,
) -> Result<(), E>
    requires { MayWriteBy G.calls state.old (exprs_in_target target.old) }
    ensures { WritesIn exprs_in_target target_frame_of G.calls state.old target.old target.new result state.new }
{
    match target {
        AssignTargetP::Tuple(parts) => write_parts(parts, state, visit),
        AssignTargetP::Index(parts) => write_boxed_pair(parts, state, visit),
        AssignTargetP::Dot(object, _) => write_boxed(object, state, visit),
        AssignTargetP::Identifier(_) => Ok(()),
    }
}

/// Visits the expressions of a target, and what is assigned or iterated over.
#[tactic(auto, using(crate::proofs::Sequel::one_more))]
pub(super) fn write_binding<P: AstPayload, S, E, G: AtExprMut<P, S, E>>(
    target: &mut AssignTargetP<P>,
    value: &mut AstExprP<P>,
    state: &mut S,
    visit: &G,
) -> Result<(), E>
    requires { MayWriteBy G.calls state.old (exprs_in_target target.old ++ expression_of value.old ∷ []) }
    ensures calls { WriteBy G.calls state.old (exprs_in_target target.old ++ expression_of value.old ∷ [])
        (exprs_in_target target.new ++ expression_of value.new ∷ []) result state.new }
    ensures rest { target_frame_of target.new ≡ target_frame_of target.old }
{
    match write_target(target, state, visit) {
        Ok(()) => write_one(value, state, visit),
        Err(error) => Err(error),
    }
}
