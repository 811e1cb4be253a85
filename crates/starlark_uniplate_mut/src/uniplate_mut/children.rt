//! Mutable walks over the children of an expression.
ghost use Rattle.starlark_uniplate_mut.specs.Frames.{frame_of};
ghost use Rattle.starlark_tree.specs.Places.{children};
ghost use Rattle.starlark_tree.specs.Walks.{MayWriteBy, WritesIn};

use crate::uniplate_mut::at::AtExprMut;
use crate::uniplate_mut::node::{
    write_called, write_comprehended_dict, write_comprehended_list, write_dict, write_fstring,
    write_lambda_parts, write_list, write_sliced, write_tuple,
};
use crate::uniplate_mut::one::{write_boxed, write_boxed_pair, write_boxed_triple, write_operands};
use starlark_tree::ast::{AstPayload, ExprP};

/// Visits the children of an expression.
#[tactic(auto, using(crate::proofs::ByKind::in_found))]
pub fn write_children<P: AstPayload, S, E, G: AtExprMut<P, S, E>>(
    expr: &mut ExprP<P>,
    state: &mut S,
    visit: &G,
) -> Result<(), E>
    requires { MayWriteBy G.calls state.old (children expr.old) }
    ensures { WritesIn children frame_of G.calls state.old expr.old expr.new result state.new }
{
    match expr {
        ExprP::Tuple(items) => write_tuple(items, state, visit),
        ExprP::Dot(object, _) => write_boxed(object, state, visit),
        ExprP::Call(callee, args) => write_called(callee, args, state, visit),
        ExprP::Index(parts) => write_boxed_pair(parts, state, visit),
        ExprP::Index2(parts) => write_boxed_triple(parts, state, visit),
        ExprP::Slice(array, start, stop, step) => {
            write_sliced(array, start, stop, step, state, visit)
        }
        ExprP::Identifier(_) => Ok(()),
        ExprP::Lambda(lambda) => write_lambda_parts(lambda, state, visit),
        ExprP::Literal(_) => Ok(()),
        ExprP::Not(operand) => write_boxed(operand, state, visit),
        ExprP::Minus(operand) => write_boxed(operand, state, visit),
        ExprP::Plus(operand) => write_boxed(operand, state, visit),
        ExprP::BitNot(operand) => write_boxed(operand, state, visit),
        ExprP::Op(left, _, right) => write_operands(left, right, state, visit),
        ExprP::If(parts) => write_boxed_triple(parts, state, visit),
        ExprP::List(items) => write_list(items, state, visit),
        ExprP::Dict(pairs) => write_dict(pairs, state, visit),
        ExprP::ListComprehension(value, first, others) => {
            write_comprehended_list(value, first, others, state, visit)
        }
        ExprP::DictComprehension(pair, first, others) => {
            write_comprehended_dict(pair, first, others, state, visit)
        }
        ExprP::FString(format) => write_fstring(format, state, visit),
    }
}
