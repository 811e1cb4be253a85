//! Walks over single expressions: a function is called with a state at each of them, up to the first `Err`.
ghost use Rattle.std.specs.Prelude.{[], ◌∷◌, map};
ghost use Rattle.starlark_tree.specs.Views.{expression_of};
ghost use Rattle.starlark_tree.specs.Walks.{MayWalkBy, WalkBy};

use crate::uniplate::at::AtExpr;
use starlark_tree::ast::{AstExprP, AstPayload};

/// Visits an expression.
#[tactic(auto, using(starlark_tree::proofs::Steps::walk_one))]
pub(super) fn walk_one<P: AstPayload, S, E, G: AtExpr<P, S, E>>(
    expr: &AstExprP<P>,
    state: &mut S,
    visit: &G,
) -> Result<(), E>
    requires { MayWalkBy G.calls state.old (expression_of expr.now ∷ []) }
    ensures { WalkBy G.calls state.old (expression_of expr.now ∷ []) result state.new }
{
    visit.call(expr, state)
}

/// Visits two expressions.
pub(super) fn walk_two<P: AstPayload, S, E, G: AtExpr<P, S, E>>(
    first: &AstExprP<P>,
    second: &AstExprP<P>,
    state: &mut S,
    visit: &G,
) -> Result<(), E>
    requires { MayWalkBy G.calls state.old (expression_of first.now ∷ expression_of second.now ∷ []) }
    ensures { WalkBy G.calls state.old (expression_of first.now ∷ expression_of second.now ∷ []) result state.new }
{
    match walk_one(first, state, visit) {
        Ok(()) => walk_one(second, state, visit),
        Err(error) => Err(error),
    }
}

/// Visits three expressions.
pub(super) fn walk_three<P: AstPayload, S, E, G: AtExpr<P, S, E>>(
    first: &AstExprP<P>,
    second: &AstExprP<P>,
    third: &AstExprP<P>,
    state: &mut S,
    visit: &G,
) -> Result<(), E>
    requires { MayWalkBy G.calls state.old (expression_of first.now ∷ expression_of second.now ∷ expression_of third.now ∷ []) }
    ensures { WalkBy G.calls state.old (expression_of first.now ∷ expression_of second.now ∷ expression_of third.now ∷ []) result state.new }
{
    match walk_one(first, state, visit) {
        Ok(()) => walk_two(second, third, state, visit),
        Err(error) => Err(error),
    }
}

/// Visits each of the expressions.
#[tactic(auto, using(crate::proofs::Calls::spots))]
pub(super) fn walk_each<P: AstPayload, S, E, G: AtExpr<P, S, E>>(
    items: &[AstExprP<P>],
    state: &mut S,
    visit: &G,
) -> Result<(), E>
    requires { MayWalkBy G.calls state.old (map expression_of items.now) }
    ensures { WalkBy G.calls state.old (map expression_of items.now) result state.new }
{
    for item in items {
        walk_one(item, state, visit)?;
    }
    Ok(())
}
