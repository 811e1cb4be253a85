//! Walks over the children of an expression.
ghost use Rattle.starlark_tree.specs.Places.{children};
ghost use Rattle.starlark_tree.specs.Walks.{MayWalkBy, WalkBy};

use crate::uniplate::at::AtExpr;
use crate::uniplate::node::{
    walk_called, walk_dict, walk_dict_comprehension, walk_items, walk_lambda_parts,
    walk_list_comprehension, walk_slice, walk_triple,
};
use crate::uniplate::one::{walk_one, walk_two};
use starlark_tree::ast::{AstPayload, ExprP};

/// Visits the children of an expression.
pub(super) fn walk_children<P: AstPayload, S, E, G: AtExpr<P, S, E>>(
    expr: &ExprP<P>,
    state: &mut S,
    visit: &G,
) -> Result<(), E>
    requires { MayWalkBy G.calls state.old (children expr.now) }
    ensures { WalkBy G.calls state.old (children expr.now) result state.new }
{
    match expr {
        ExprP::Tuple(items) => walk_items(items, state, visit),
        ExprP::Dot(object, _) => walk_one(object, state, visit),
        ExprP::Call(callee, args) => walk_called(callee, args, state, visit),
        ExprP::Index(parts) => walk_two(&parts.0, &parts.1, state, visit),
        ExprP::Index2(parts) => walk_triple(parts, state, visit),
        ExprP::Slice(array, start, stop, step) => {
            walk_slice(array, start, stop, step, state, visit)
        }
        ExprP::Identifier(_) => Ok(()),
        ExprP::Lambda(lambda) => walk_lambda_parts(lambda, state, visit),
        ExprP::Literal(_) => Ok(()),
        ExprP::Not(operand) => walk_one(operand, state, visit),
        ExprP::Minus(operand) => walk_one(operand, state, visit),
        ExprP::Plus(operand) => walk_one(operand, state, visit),
        ExprP::BitNot(operand) => walk_one(operand, state, visit),
        ExprP::Op(left, _, right) => walk_two(left, right, state, visit),
        ExprP::If(parts) => walk_triple(parts, state, visit),
        ExprP::List(items) => walk_items(items, state, visit),
        ExprP::Dict(pairs) => walk_dict(pairs, state, visit),
        ExprP::ListComprehension(value, first, others) => {
            walk_list_comprehension(value, first, others, state, visit)
        }
        ExprP::DictComprehension(pair, first, others) => {
            walk_dict_comprehension(pair, first, others, state, visit)
        }
        ExprP::FString(format) => walk_items(&format.node.expressions, state, visit),
    }
}
