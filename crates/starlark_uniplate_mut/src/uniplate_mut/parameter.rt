//! Mutable walks over the expressions of parameters.
ghost use Rattle.std.specs.Prelude.{◌≡◌, ◌++◌, map};
ghost use Rattle.std.specs.List.{flat_map};
ghost use Rattle.starlark_uniplate_mut.specs.Frames.{maybe_frame, parameter_frame, parameter_frame_of, type_frame};
ghost use Rattle.starlark_tree.specs.Places.{exprs_in_parameter, maybe_exprs, type_exprs};
ghost use Rattle.starlark_tree.specs.Views.{boxed_type_of, maybe_of, parameter_of};
ghost use Rattle.starlark_tree.specs.Walks.{MayWriteBy, WriteBy, WritesIn};

use crate::uniplate_mut::at::AtExprMut;
use crate::uniplate_mut::one::write_one;
use starlark_tree::ast::{AstExprP, AstParameterP, AstPayload, AstTypeExprP, ParameterP};

/// Visits an expression, if there is one.
pub(super) fn write_maybe<P: AstPayload, S, E, G: AtExprMut<P, S, E>>(
    expr: &mut Option<Box<AstExprP<P>>>,
    state: &mut S,
    visit: &G,
) -> Result<(), E>
    requires { MayWriteBy G.calls state.old (maybe_exprs (maybe_of expr.old)) }
    ensures { WritesIn (λ o. maybe_exprs (maybe_of o)) (λ o. maybe_frame (maybe_of o)) G.calls state.old expr.old expr.new result state.new }
{
    match expr {
        Some(expr) => write_one(expr, state, visit),
        None => Ok(()),
    }
}

/// Visits a type's expression, if there is a type.
pub(super) fn write_type<P: AstPayload, S, E, G: AtExprMut<P, S, E>>(
    ty: &mut Option<Box<AstTypeExprP<P>>>,
    state: &mut S,
    visit: &G,
) -> Result<(), E>
    requires { MayWriteBy G.calls state.old (type_exprs (boxed_type_of ty.old)) }
    ensures { WritesIn (λ o. type_exprs (boxed_type_of o)) (λ o. type_frame (boxed_type_of o)) G.calls state.old ty.old ty.new result state.new }
{
    match ty {
        Some(ty) => write_one(&mut ty.node.expr, state, visit),
        None => Ok(()),
    }
}

/// Visits the expression of the type, then the default value.
fn write_normal<P: AstPayload, S, E, G: AtExprMut<P, S, E>>(
    ty: &mut Option<Box<AstTypeExprP<P>>>,
    default: &mut Option<Box<AstExprP<P>>>,
    state: &mut S,
    visit: &G,
) -> Result<(), E>
    requires { MayWriteBy G.calls state.old (type_exprs (boxed_type_of ty.old) ++ maybe_exprs (maybe_of default.old)) }
    ensures calls { WriteBy G.calls state.old (type_exprs (boxed_type_of ty.old) ++ maybe_exprs (maybe_of default.old))
        (type_exprs (boxed_type_of ty.new) ++ maybe_exprs (maybe_of default.new))
        result state.new }
    ensures ty { type_frame (boxed_type_of ty.new) ≡ type_frame (boxed_type_of ty.old) }
    ensures default { maybe_frame (maybe_of default.new) ≡ maybe_frame (maybe_of default.old) }
{
    match write_type(ty, state, visit) {
        Ok(()) => write_maybe(default, state, visit),
        Err(error) => Err(error),
    }
}

/// Visits the expressions of a parameter.
pub(super) fn write_parameter<P: AstPayload, S, E, G: AtExprMut<P, S, E>>(
    parameter: &mut ParameterP<P>,
    state: &mut S,
    visit: &G,
) -> Result<(), E>
    requires { MayWriteBy G.calls state.old (exprs_in_parameter parameter.old) }
    ensures { WritesIn exprs_in_parameter parameter_frame_of G.calls state.old parameter.old parameter.new result state.new }
{
    match parameter {
        ParameterP::Slash | ParameterP::NoArgs => Ok(()),
        ParameterP::Normal(_, ty, default) => write_normal(ty, default, state, visit),
        ParameterP::Args(_, ty) => write_type(ty, state, visit),
        ParameterP::KwArgs(_, ty) => write_type(ty, state, visit),
    }
}

/// Visits the expressions of parameters.
#[tactic(auto, using(crate::proofs::May::at_item))]
pub(super) fn write_parameters<P: AstPayload, S, E, G: AtExprMut<P, S, E>>(
    parameters: &mut [AstParameterP<P>],
    state: &mut S,
    visit: &G,
) -> Result<(), E>
    requires { MayWriteBy G.calls state.old (flat_map (λ p. exprs_in_parameter p.node) parameters.old) }
    ensures { WritesIn (flat_map (λ p. exprs_in_parameter p.node)) (map (λ p. parameter_frame (parameter_of p))) G.calls state.old parameters.old
        parameters.new result state.new }
{
    for parameter in parameters.iter_mut() {
        write_parameter(&mut parameter.node, state, visit)?;
    }
    Ok(())
}
