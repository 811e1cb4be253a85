//! Walks over the names that a target binds.
ghost use Rattle.std.specs.Prelude.{[], ◌∷◌};
ghost use Rattle.starlark_tree.specs.Names.{lvalues_of, name_of};
ghost use Rattle.starlark_tree.specs.Walks.{MayWalkBy, WalkBy};

use crate::uniplate::at::AtName;
use starlark_tree::ast::{AssignTargetP, AstAssignIdentP, AstPayload};

/// Visits a name.
#[tactic(auto, using(starlark_tree::proofs::Steps::walk_one))]
fn walk_name<P: AstPayload, S, E, G: AtName<P, S, E>>(
    name: &AstAssignIdentP<P>,
    state: &mut S,
    visit: &G,
) -> Result<(), E>
    requires { MayWalkBy G.calls state.old (name_of name.now ∷ []) }
    ensures { WalkBy G.calls state.old (name_of name.now ∷ []) result state.new }
{
    visit.call(name, state)
}

/// Visits the names that a target binds.
pub(super) fn walk_lvalues<P: AstPayload, S, E, G: AtName<P, S, E>>(
    target: &AssignTargetP<P>,
    state: &mut S,
    visit: &G,
) -> Result<(), E>
    requires { MayWalkBy G.calls state.old (lvalues_of target.now) }
    ensures { WalkBy G.calls state.old (lvalues_of target.now) result state.new }
{
    match target {
        AssignTargetP::Tuple(parts) => {
            for part in parts {
                walk_lvalues(&part.node, state, visit)?;
            }
            Ok(())
        }
        AssignTargetP::Index(_) => Ok(()),
        AssignTargetP::Dot(_, _) => Ok(()),
        AssignTargetP::Identifier(name) => walk_name(name, state, visit),
    }
}
