//! Mutable walks over the names that a target binds.
ghost use Rattle.starlark_tree.specs.declared.ast.AssignTargetP;
ghost use Rattle.std.specs.Prelude.{[], ◌∷◌};
ghost use Rattle.starlark_uniplate_mut.specs.Frames.{unnamed_of};
ghost use Rattle.starlark_tree.specs.Names.{lvalues_of, name_of};
ghost use Rattle.starlark_tree.specs.Walks.{MayWriteBy, WriteBy, WritesIn};

use crate::uniplate_mut::at::AtNameMut;
use starlark_tree::ast::{AssignTargetP, AstAssignIdentP, AstAssignTargetP, AstPayload};

/// Visits a name.
fn write_name<P: AstPayload, S, E, G: AtNameMut<P, S, E>>(
    name: &mut AstAssignIdentP<P>,
    state: &mut S,
    visit: &G,
) -> Result<(), E>
    requires { MayWriteBy G.calls state.old (name_of name.old ∷ []) }
    ensures { WriteBy G.calls state.old (name_of name.old ∷ []) (name_of name.new ∷ []) result state.new }
{
    visit.call(name, state)
}

/// Visits the names that a tuple's parts bind.
#[cycle(lvalue)]
fn write_part_names<P: AstPayload, S, E, G: AtNameMut<P, S, E>>(
    parts: &mut Vec<AstAssignTargetP<P>>,
    state: &mut S,
    visit: &G,
) -> Result<(), E>
    requires { MayWriteBy G.calls state.old (lvalues_of (AssignTargetP.Tuple parts.old)) }
    ensures { WritesIn lvalues_of unnamed_of G.calls state.old (AssignTargetP.Tuple parts.old) (AssignTargetP.Tuple parts.new) result state.new }
{
    for part in parts.iter_mut() {
        write_lvalues(&mut part.node, state, visit)?;
    }
    Ok(())
}

/// Visits the names that a target binds.
#[cycle(lvalue)]
pub(super) fn write_lvalues<P: AstPayload, S, E, G: AtNameMut<P, S, E>>(
    target: &mut AssignTargetP<P>,
    state: &mut S,
    visit: &G,
) -> Result<(), E>
    requires { MayWriteBy G.calls state.old (lvalues_of target.old) }
    ensures { WritesIn lvalues_of unnamed_of G.calls state.old target.old target.new result state.new }
{
    match target {
        AssignTargetP::Tuple(parts) => write_part_names(parts, state, visit),
        AssignTargetP::Identifier(name) => write_name(name, state, visit),
        AssignTargetP::Index(_) | AssignTargetP::Dot(_, _) => Ok(()),
    }
}
