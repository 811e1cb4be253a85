//! Walks over parameters.
ghost use Rattle.std.specs.List.{flat_map};
ghost use Rattle.starlark_tree.specs.Places.{exprs_in_parameter, maybe_exprs, type_exprs};
ghost use Rattle.starlark_tree.specs.Views.{boxed_type_of, maybe_of};
ghost use Rattle.starlark_tree.specs.Walks.{MayWalkBy, WalkBy};

use crate::uniplate::at::AtExpr;
use crate::uniplate::one::walk_one;
use starlark_tree::ast::{AstExprP, AstParameterP, AstPayload, AstTypeExprP, ParameterP};

/// Visits an expression, if there is one.
pub(super) fn walk_maybe<P: AstPayload, S, E, G: AtExpr<P, S, E>>(
    expr: &Option<Box<AstExprP<P>>>,
    state: &mut S,
    visit: &G,
) -> Result<(), E>
    requires { MayWalkBy G.calls state.old (maybe_exprs (maybe_of expr.now)) }
    ensures { WalkBy G.calls state.old (maybe_exprs (maybe_of expr.now)) result state.new }
{
    match expr {
        Some(expr) => walk_one(expr, state, visit),
        None => Ok(()),
    }
}

/// Visits a type's expression, if there is a type.
pub(super) fn walk_type<P: AstPayload, S, E, G: AtExpr<P, S, E>>(
    ty: &Option<Box<AstTypeExprP<P>>>,
    state: &mut S,
    visit: &G,
) -> Result<(), E>
    requires { MayWalkBy G.calls state.old (type_exprs (boxed_type_of ty.now)) }
    ensures { WalkBy G.calls state.old (type_exprs (boxed_type_of ty.now)) result state.new }
{
    match ty {
        Some(ty) => walk_one(&ty.node.expr, state, visit),
        None => Ok(()),
    }
}

/// Visits the expressions of a parameter.
pub(super) fn walk_parameter<P: AstPayload, S, E, G: AtExpr<P, S, E>>(
    parameter: &ParameterP<P>,
    state: &mut S,
    visit: &G,
) -> Result<(), E>
    requires { MayWalkBy G.calls state.old (exprs_in_parameter parameter.now) }
    ensures { WalkBy G.calls state.old (exprs_in_parameter parameter.now) result state.new }
{
    match parameter {
        ParameterP::Slash | ParameterP::NoArgs => Ok(()),
        ParameterP::Normal(_, ty, default) => {
            match walk_type(ty, state, visit) {
                Ok(()) => walk_maybe(default, state, visit),
                Err(error) => Err(error),
            }
        }
        ParameterP::Args(_, ty) | ParameterP::KwArgs(_, ty) => walk_type(ty, state, visit),
    }
}

/// Visits the expressions of parameters.
#[tactic(auto, using(crate::proofs::Calls::items))]
pub(super) fn walk_parameters<P: AstPayload, S, E, G: AtExpr<P, S, E>>(
    parameters: &[AstParameterP<P>],
    state: &mut S,
    visit: &G,
) -> Result<(), E>
    requires { MayWalkBy G.calls state.old (flat_map (λ p. exprs_in_parameter p.node) parameters.now) }
    ensures { WalkBy G.calls state.old (flat_map (λ p. exprs_in_parameter p.node) parameters.now) result state.new }
{
    for parameter in parameters {
        walk_parameter(&parameter.node, state, visit)?;
    }
    Ok(())
}
