//! Walks over the children of single kinds of expressions.
ghost use Rattle.starlark_tree.specs.declared.ast.ExprP;
ghost use Rattle.std.specs.Prelude.{[], ◌∷◌};
ghost use Rattle.starlark_tree.specs.Places.{children};
ghost use Rattle.starlark_tree.specs.Views.{expression_of};
ghost use Rattle.starlark_tree.specs.Walks.{MayWalkBy, WalkBy};

use crate::uniplate::at::AtExpr;
use crate::uniplate::expression::{
    walk_bounds, walk_call, walk_comprehension, walk_lambda, walk_pairs,
};
use crate::uniplate::listed::{entries, lambda_parameters, passed};
use crate::uniplate::one::{walk_each, walk_one, walk_three, walk_two};
use starlark_tree::ast::{AstExprP, AstPayload, CallArgsP, ClauseP, ForClauseP, LambdaP};

/// Visits the items of a tuple or a list, or the expressions of an f-string.
#[tactic(auto, using(starlark_tree::proofs::Nodes::tuple_children))]
pub(super) fn walk_items<P: AstPayload, S, E, G: AtExpr<P, S, E>>(
    items: &Vec<AstExprP<P>>,
    state: &mut S,
    visit: &G,
) -> Result<(), E>
    requires { MayWalkBy G.calls state.old (children (ExprP.Tuple items.now)) }
    ensures { WalkBy G.calls state.old (children (ExprP.Tuple items.now)) result state.new }
{
    walk_each(items, state, visit)
}

/// Visits the parts of a call.
pub(super) fn walk_called<P: AstPayload, S, E, G: AtExpr<P, S, E>>(
    callee: &Box<AstExprP<P>>,
    args: &CallArgsP<P>,
    state: &mut S,
    visit: &G,
) -> Result<(), E>
    requires { MayWalkBy G.calls state.old (children (ExprP.Call callee.now args.now)) }
    ensures { WalkBy G.calls state.old (children (ExprP.Call callee.now args.now)) result state.new }
{
    walk_call(callee, passed(args), state, visit)
}

/// Visits an expression in a box.
fn walk_boxed<P: AstPayload, S, E, G: AtExpr<P, S, E>>(
    value: &Box<AstExprP<P>>,
    state: &mut S,
    visit: &G,
) -> Result<(), E>
    requires { MayWalkBy G.calls state.old (expression_of value.now.value ∷ []) }
    ensures { WalkBy G.calls state.old (expression_of value.now.value ∷ []) result state.new }
{
    walk_one(value, state, visit)
}

/// Visits two expressions in a box.
fn walk_pair<P: AstPayload, S, E, G: AtExpr<P, S, E>>(
    pair: &Box<(AstExprP<P>, AstExprP<P>)>,
    state: &mut S,
    visit: &G,
) -> Result<(), E>
    requires { MayWalkBy G.calls state.old (expression_of pair.now.value.0 ∷ expression_of pair.now.value.1 ∷ []) }
    ensures { WalkBy G.calls state.old (expression_of pair.now.value.0 ∷ expression_of pair.now.value.1 ∷ []) result state.new }
{
    walk_two(&pair.0, &pair.1, state, visit)
}

/// Visits three expressions in a box.
pub(super) fn walk_triple<P: AstPayload, S, E, G: AtExpr<P, S, E>>(
    parts: &Box<(AstExprP<P>, AstExprP<P>, AstExprP<P>)>,
    state: &mut S,
    visit: &G,
) -> Result<(), E>
    requires { MayWalkBy G.calls state.old (expression_of parts.now.value.0 ∷ expression_of parts.now.value.1 ∷ expression_of parts.now.value.2 ∷ []) }
    ensures { WalkBy G.calls state.old (expression_of parts.now.value.0 ∷ expression_of parts.now.value.1 ∷ expression_of parts.now.value.2 ∷ []) result
        state.new }
{
    walk_three(&parts.0, &parts.1, &parts.2, state, visit)
}

/// Visits what is sliced, and the bounds.
#[tactic(auto, using(crate::proofs::Calls::nodes))]
pub(super) fn walk_slice<P: AstPayload, S, E, G: AtExpr<P, S, E>>(
    array: &Box<AstExprP<P>>,
    start: &Option<Box<AstExprP<P>>>,
    stop: &Option<Box<AstExprP<P>>>,
    step: &Option<Box<AstExprP<P>>>,
    state: &mut S,
    visit: &G,
) -> Result<(), E>
    requires { MayWalkBy G.calls state.old (children (ExprP.Slice array.now start.now stop.now step.now)) }
    ensures { WalkBy G.calls state.old (children (ExprP.Slice array.now start.now stop.now step.now)) result state.new }
{
    match walk_one(array, state, visit) {
        Ok(()) => walk_bounds(start, stop, step, state, visit),
        Err(error) => Err(error),
    }
}

/// Visits the parts of a lambda.
pub(super) fn walk_lambda_parts<P: AstPayload, S, E, G: AtExpr<P, S, E>>(
    lambda: &LambdaP<P>,
    state: &mut S,
    visit: &G,
) -> Result<(), E>
    requires { MayWalkBy G.calls state.old (children (ExprP.Lambda lambda.now)) }
    ensures { WalkBy G.calls state.old (children (ExprP.Lambda lambda.now)) result state.new }
{
    walk_lambda(lambda_parameters(lambda), &lambda.body, state, visit)
}

/// Visits the keys and values of a dictionary.
pub(super) fn walk_dict<P: AstPayload, S, E, G: AtExpr<P, S, E>>(
    pairs: &Vec<(AstExprP<P>, AstExprP<P>)>,
    state: &mut S,
    visit: &G,
) -> Result<(), E>
    requires { MayWalkBy G.calls state.old (children (ExprP.Dict pairs.now)) }
    ensures { WalkBy G.calls state.old (children (ExprP.Dict pairs.now)) result state.new }
{
    walk_pairs(entries(pairs), state, visit)
}

/// Visits a comprehension's clauses, and its value.
#[tactic(auto, using(crate::proofs::Sequel::one_more))]
pub(super) fn walk_list_comprehension<P: AstPayload, S, E, G: AtExpr<P, S, E>>(
    value: &Box<AstExprP<P>>,
    first: &Box<ForClauseP<P>>,
    others: &Vec<ClauseP<P>>,
    state: &mut S,
    visit: &G,
) -> Result<(), E>
    requires { MayWalkBy G.calls state.old (children (ExprP.ListComprehension value.now first.now others.now)) }
    ensures { WalkBy G.calls state.old (children (ExprP.ListComprehension value.now first.now others.now)) result state.new }
{
    match walk_comprehension(first, others, state, visit) {
        Ok(()) => walk_boxed(value, state, visit),
        Err(error) => Err(error),
    }
}

/// Visits a comprehension's clauses, and its key and value.
#[tactic(auto, using(crate::proofs::Sequel::two_more))]
pub(super) fn walk_dict_comprehension<P: AstPayload, S, E, G: AtExpr<P, S, E>>(
    pair: &Box<(AstExprP<P>, AstExprP<P>)>,
    first: &Box<ForClauseP<P>>,
    others: &Vec<ClauseP<P>>,
    state: &mut S,
    visit: &G,
) -> Result<(), E>
    requires { MayWalkBy G.calls state.old (children (ExprP.DictComprehension pair.now first.now others.now)) }
    ensures { WalkBy G.calls state.old (children (ExprP.DictComprehension pair.now first.now others.now)) result state.new }
{
    match walk_comprehension(first, others, state, visit) {
        Ok(()) => walk_pair(pair, state, visit),
        Err(error) => Err(error),
    }
}
