//! Mutable walks over the expressions of a statement.
ghost use Rattle.starlark_tree.specs.declared.ast.StmtP;
ghost use Rattle.std.specs.Prelude.{◌≡◌, [], ◌∷◌, ◌++◌, map};
ghost use Rattle.std.specs.List.{flat_map};
ghost use Rattle.starlark_tree.specs.Children.{exprs_of_stmt};
ghost use Rattle.starlark_uniplate_mut.specs.FormFrames.{exprs_frame_of};
ghost use Rattle.starlark_uniplate_mut.specs.Frames.{parameter_frame, target_frame_of, type_frame};
ghost use Rattle.starlark_tree.specs.Places.{exprs_in_parameter, exprs_in_target, type_exprs};
ghost use Rattle.starlark_tree.specs.Views.{boxed_type_of, expression_of, maybe_type_of, parameter_of};
ghost use Rattle.starlark_tree.specs.Walks.{MayWriteBy, WriteBy, WritesIn};

use crate::uniplate_mut::at::AtExprMut;
use crate::uniplate_mut::one::{write_one, write_two};
use crate::uniplate_mut::parameter::{write_parameters, write_type};
use crate::uniplate_mut::places::places_in_def;
use crate::uniplate_mut::target::{write_binding, write_target};
use starlark_tree::ast::{
    AssignP, AssignTargetP, AstExprP, AstParameterP, AstPayload, AstTypeExprP, DefP, ForP, StmtP,
};

/// Visits the value that is returned, if there is one.
fn write_returned<P: AstPayload, S, E, G: AtExprMut<P, S, E>>(
    value: &mut Option<AstExprP<P>>,
    state: &mut S,
    visit: &G,
) -> Result<(), E>
    requires { MayWriteBy G.calls state.old (exprs_of_stmt (StmtP.Return value.old)) }
    ensures { WritesIn exprs_of_stmt exprs_frame_of G.calls state.old (StmtP.Return value.old) (StmtP.Return value.new) result state.new }
{
    match value {
        Some(value) => write_one(value, state, visit),
        None => Ok(()),
    }
}

/// Visits a type's expression, if there is a type, and the value.
fn write_typed<P: AstPayload, S, E, G: AtExprMut<P, S, E>>(
    ty: &mut Option<AstTypeExprP<P>>,
    value: &mut AstExprP<P>,
    state: &mut S,
    visit: &G,
) -> Result<(), E>
    requires { MayWriteBy G.calls state.old (type_exprs (maybe_type_of ty.old) ++ expression_of value.old ∷ []) }
    ensures calls { WriteBy G.calls state.old (type_exprs (maybe_type_of ty.old) ++ expression_of value.old ∷ [])
        (type_exprs (maybe_type_of ty.new) ++ expression_of value.new ∷ []) result state.new }
    ensures rest { type_frame (maybe_type_of ty.new) ≡ type_frame (maybe_type_of ty.old) }
{
    match ty {
        Some(ty) => write_two(&mut ty.node.expr, value, state, visit),
        None => write_one(value, state, visit),
    }
}

/// Visits the expressions of a target, that of a type, if there is one, and the value.
#[tactic(auto, using(crate::proofs::Sequel::plain))]
fn write_assigned<P: AstPayload, S, E, G: AtExprMut<P, S, E>>(
    target: &mut AssignTargetP<P>,
    ty: &mut Option<AstTypeExprP<P>>,
    value: &mut AstExprP<P>,
    state: &mut S,
    visit: &G,
) -> Result<(), E>
    requires { MayWriteBy G.calls state.old (exprs_in_target target.old ++ (type_exprs (maybe_type_of ty.old) ++ expression_of value.old ∷ [])) }
    ensures calls { WriteBy G.calls state.old (exprs_in_target target.old ++ (type_exprs (maybe_type_of ty.old) ++ expression_of value.old ∷ []))
        (exprs_in_target target.new ++ (type_exprs (maybe_type_of ty.new) ++ expression_of value.new ∷ [])) result state.new }
    ensures target { target_frame_of target.new ≡ target_frame_of target.old }
    ensures ty { type_frame (maybe_type_of ty.new) ≡ type_frame (maybe_type_of ty.old) }
{
    match write_target(target, state, visit) {
        Ok(()) => write_typed(ty, value, state, visit),
        Err(error) => Err(error),
    }
}

/// Visits the expressions of an assignment.
#[tactic(auto, using(starlark_tree::proofs::Nodes::anywhere))]
fn write_assign<P: AstPayload, S, E, G: AtExprMut<P, S, E>>(
    assign: &mut AssignP<P>,
    state: &mut S,
    visit: &G,
) -> Result<(), E>
    requires { MayWriteBy G.calls state.old (exprs_of_stmt (StmtP.Assign assign.old)) }
    ensures { WritesIn exprs_of_stmt exprs_frame_of G.calls state.old (StmtP.Assign assign.old) (StmtP.Assign assign.new) result state.new }
{
    write_assigned(
        &mut assign.lhs.node,
        &mut assign.ty,
        &mut assign.rhs,
        state,
        visit,
    )
}

/// Visits the expressions of a loop, without those of its body.
#[tactic(auto, using(starlark_tree::proofs::Nodes::anywhere))]
fn write_loop<P: AstPayload, S, E, G: AtExprMut<P, S, E>>(
    repeated: &mut ForP<P>,
    state: &mut S,
    visit: &G,
) -> Result<(), E>
    requires { MayWriteBy G.calls state.old (exprs_of_stmt (StmtP.For repeated.old)) }
    ensures { WritesIn exprs_of_stmt exprs_frame_of G.calls state.old (StmtP.For repeated.old) (StmtP.For repeated.new) result state.new }
{
    write_binding(&mut repeated.var.node, &mut repeated.over, state, visit)
}

/// Visits the expressions of parameters, and that of the return type.
#[tactic(auto, using(crate::proofs::May::parts))]
fn write_signature<P: AstPayload, S, E, G: AtExprMut<P, S, E>>(
    parameters: &mut [AstParameterP<P>],
    return_type: &mut Option<Box<AstTypeExprP<P>>>,
    state: &mut S,
    visit: &G,
) -> Result<(), E>
    requires { MayWriteBy G.calls state.old (flat_map (λ p. exprs_in_parameter p.node) parameters.old ++ type_exprs (boxed_type_of return_type.old)) }
    ensures calls { WriteBy G.calls state.old (flat_map (λ p. exprs_in_parameter p.node) parameters.old ++ type_exprs (boxed_type_of return_type.old))
        (flat_map (λ p. exprs_in_parameter p.node) parameters.new ++ type_exprs (boxed_type_of return_type.new)) result state.new }
    ensures parameters { map (λ p. parameter_frame (parameter_of p)) parameters.new ≡ map (λ p. parameter_frame (parameter_of p)) parameters.old }
    ensures return_type { type_frame (boxed_type_of return_type.new) ≡ type_frame (boxed_type_of return_type.old) }
{
    match write_parameters(parameters, state, visit) {
        Ok(()) => write_type(return_type, state, visit),
        Err(error) => Err(error),
    }
}

/// Visits the expressions of a definition, without those of its body.
fn write_def<P: AstPayload, S, E, G: AtExprMut<P, S, E>>(
    def: &mut DefP<P>,
    state: &mut S,
    visit: &G,
) -> Result<(), E>
    requires { MayWriteBy G.calls state.old (exprs_of_stmt (StmtP.Def def.old)) }
    ensures { WritesIn exprs_of_stmt exprs_frame_of G.calls state.old (StmtP.Def def.old) (StmtP.Def def.new) result state.new }
{
    places_in_def(def);
    write_signature(&mut def.params, &mut def.return_type, state, visit)
}

/// Visits the expressions of a statement, without those of the statements in it.
#[tactic(auto, using(crate::proofs::Modified::exprs))]
pub fn write_exprs<P: AstPayload, S, E, G: AtExprMut<P, S, E>>(
    stmt: &mut StmtP<P>,
    state: &mut S,
    visit: &G,
) -> Result<(), E>
    requires { MayWriteBy G.calls state.old (exprs_of_stmt stmt.old) }
    ensures { WritesIn exprs_of_stmt exprs_frame_of G.calls state.old stmt.old stmt.new result state.new }
{
    match stmt {
        StmtP::Break | StmtP::Continue | StmtP::Pass | StmtP::Statements(_) | StmtP::Load(_) => Ok(
            (),
        ),
        StmtP::Return(value) => write_returned(value, state, visit),
        StmtP::Expression(value) => write_one(value, state, visit),
        StmtP::Assign(assign) => write_assign(assign, state, visit),
        StmtP::AssignModify(target, _, value) => {
            write_binding(&mut target.node, value, state, visit)
        }
        StmtP::If(condition, _) => write_one(condition, state, visit),
        StmtP::IfElse(condition, _) => write_one(condition, state, visit),
        StmtP::For(repeated) => write_loop(repeated, state, visit),
        StmtP::Def(def) => write_def(def, state, visit),
    }
}
