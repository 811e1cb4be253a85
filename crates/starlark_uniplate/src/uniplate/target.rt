//! Walks over targets of assignments.
ghost use Rattle.starlark_tree.specs.Places.{exprs_in_target};
ghost use Rattle.starlark_tree.specs.Walks.{MayWalkBy, WalkBy};

use crate::uniplate::at::AtExpr;
use crate::uniplate::one::{walk_one, walk_two};
use starlark_tree::ast::{AssignTargetP, AstPayload};

/// Visits the expressions of a target.
pub(super) fn walk_target<P: AstPayload, S, E, G: AtExpr<P, S, E>>(
    target: &AssignTargetP<P>,
    state: &mut S,
    visit: &G,
) -> Result<(), E>
    requires { MayWalkBy G.calls state.old (exprs_in_target target.now) }
    ensures { WalkBy G.calls state.old (exprs_in_target target.now) result state.new }
{
    match target {
        AssignTargetP::Tuple(parts) => {
            for part in parts {
                walk_target(&part.node, state, visit)?;
            }
            Ok(())
        }
        AssignTargetP::Index(parts) => { walk_two(&parts.0, &parts.1, state, visit) }
        AssignTargetP::Dot(object, _) => walk_one(object, state, visit),
        AssignTargetP::Identifier(_) => Ok(()),
    }
}
