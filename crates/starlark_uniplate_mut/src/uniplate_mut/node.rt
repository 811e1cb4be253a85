//! Mutable walks over the children of single kinds of expressions.
ghost use Rattle.starlark_tree.specs.declared.ast.ExprP;
ghost use Rattle.starlark_uniplate_mut.specs.Frames.{frame_of};
ghost use Rattle.starlark_tree.specs.Places.{children};
ghost use Rattle.starlark_tree.specs.Walks.{MayWriteBy, WritesIn};

use crate::uniplate_mut::at::AtExprMut;
use crate::uniplate_mut::comprehension::{write_dict_comprehension, write_list_comprehension};
use crate::uniplate_mut::expression::{write_call, write_lambda, write_pairs, write_slice};
use crate::uniplate_mut::one::write_each;
use crate::uniplate_mut::places::{
    places_in_call, places_in_dict, places_in_dict_comprehension, places_in_lambda,
    places_in_list_comprehension,
};
use starlark_tree::ast::{
    AstExprP, AstFStringP, AstPayload, CallArgsP, ClauseP, ForClauseP, LambdaP,
};

/// Visits the items of a tuple.
#[tactic(auto, using(crate::proofs::May::rows))]
pub(super) fn write_tuple<P: AstPayload, S, E, G: AtExprMut<P, S, E>>(
    items: &mut Vec<AstExprP<P>>,
    state: &mut S,
    visit: &G,
) -> Result<(), E>
    requires { MayWriteBy G.calls state.old (children (ExprP.Tuple items.old)) }
    ensures { WritesIn children frame_of G.calls state.old (ExprP.Tuple items.old) (ExprP.Tuple items.new) result state.new }
{
    write_each(items, state, visit)
}

/// Visits the items of a list.
#[tactic(auto, using(crate::proofs::May::rows))]
pub(super) fn write_list<P: AstPayload, S, E, G: AtExprMut<P, S, E>>(
    items: &mut Vec<AstExprP<P>>,
    state: &mut S,
    visit: &G,
) -> Result<(), E>
    requires { MayWriteBy G.calls state.old (children (ExprP.List items.old)) }
    ensures { WritesIn children frame_of G.calls state.old (ExprP.List items.old) (ExprP.List items.new) result state.new }
{
    write_each(items, state, visit)
}

/// Visits the keys and values of a dictionary.
pub(super) fn write_dict<P: AstPayload, S, E, G: AtExprMut<P, S, E>>(
    pairs: &mut Vec<(AstExprP<P>, AstExprP<P>)>,
    state: &mut S,
    visit: &G,
) -> Result<(), E>
    requires { MayWriteBy G.calls state.old (children (ExprP.Dict pairs.old)) }
    ensures { WritesIn children frame_of G.calls state.old (ExprP.Dict pairs.old) (ExprP.Dict pairs.new) result state.new }
{
    places_in_dict(pairs);
    write_pairs(pairs, state, visit)
}

/// Visits the expressions of an f-string.
#[tactic(auto, using(crate::proofs::May::rows))]
pub(super) fn write_fstring<P: AstPayload, S, E, G: AtExprMut<P, S, E>>(
    format: &mut AstFStringP<P>,
    state: &mut S,
    visit: &G,
) -> Result<(), E>
    requires { MayWriteBy G.calls state.old (children (ExprP.FString format.old)) }
    ensures { WritesIn children frame_of G.calls state.old (ExprP.FString format.old) (ExprP.FString format.new) result state.new }
{
    write_each(&mut format.node.expressions, state, visit)
}

/// Visits what is called, and the arguments.
pub(super) fn write_called<P: AstPayload, S, E, G: AtExprMut<P, S, E>>(
    callee: &mut Box<AstExprP<P>>,
    args: &mut CallArgsP<P>,
    state: &mut S,
    visit: &G,
) -> Result<(), E>
    requires { MayWriteBy G.calls state.old (children (ExprP.Call callee.old args.old)) }
    ensures { WritesIn children frame_of G.calls state.old (ExprP.Call callee.old args.old) (ExprP.Call callee.new args.new) result state.new }
{
    places_in_call(callee, args);
    write_call(callee, &mut args.args, state, visit)
}

/// Visits what is sliced, and the bounds.
#[tactic(auto, using(starlark_tree::proofs::Nodes::slice_children))]
pub(super) fn write_sliced<P: AstPayload, S, E, G: AtExprMut<P, S, E>>(
    array: &mut Box<AstExprP<P>>,
    start: &mut Option<Box<AstExprP<P>>>,
    stop: &mut Option<Box<AstExprP<P>>>,
    step: &mut Option<Box<AstExprP<P>>>,
    state: &mut S,
    visit: &G,
) -> Result<(), E>
    requires { MayWriteBy G.calls state.old (children (ExprP.Slice array.old start.old stop.old step.old)) }
    ensures { WritesIn children frame_of G.calls state.old (ExprP.Slice array.old start.old stop.old step.old)
        (ExprP.Slice array.new start.new stop.new step.new) result state.new }
{
    write_slice(array, start, stop, step, state, visit)
}

/// Visits the parameters and the body of a lambda.
pub(super) fn write_lambda_parts<P: AstPayload, S, E, G: AtExprMut<P, S, E>>(
    lambda: &mut LambdaP<P>,
    state: &mut S,
    visit: &G,
) -> Result<(), E>
    requires { MayWriteBy G.calls state.old (children (ExprP.Lambda lambda.old)) }
    ensures { WritesIn children frame_of G.calls state.old (ExprP.Lambda lambda.old) (ExprP.Lambda lambda.new) result state.new }
{
    places_in_lambda(lambda);
    write_lambda(&mut lambda.params, &mut lambda.body, state, visit)
}

/// Visits a comprehension's clauses, and its value.
pub(super) fn write_comprehended_list<P: AstPayload, S, E, G: AtExprMut<P, S, E>>(
    value: &mut Box<AstExprP<P>>,
    first: &mut Box<ForClauseP<P>>,
    others: &mut Vec<ClauseP<P>>,
    state: &mut S,
    visit: &G,
) -> Result<(), E>
    requires { MayWriteBy G.calls state.old (children (ExprP.ListComprehension value.old first.old others.old)) }
    ensures { WritesIn children frame_of G.calls state.old (ExprP.ListComprehension value.old first.old others.old)
        (ExprP.ListComprehension value.new first.new others.new) result state.new }
{
    places_in_list_comprehension(value, first, others);
    write_list_comprehension(value, first, others, state, visit)
}

/// Visits a comprehension's clauses, and its key and value.
pub(super) fn write_comprehended_dict<P: AstPayload, S, E, G: AtExprMut<P, S, E>>(
    pair: &mut Box<(AstExprP<P>, AstExprP<P>)>,
    first: &mut Box<ForClauseP<P>>,
    others: &mut Vec<ClauseP<P>>,
    state: &mut S,
    visit: &G,
) -> Result<(), E>
    requires { MayWriteBy G.calls state.old (children (ExprP.DictComprehension pair.old first.old others.old)) }
    ensures { WritesIn children frame_of G.calls state.old (ExprP.DictComprehension pair.old first.old others.old)
        (ExprP.DictComprehension pair.new first.new others.new) result state.new }
{
    places_in_dict_comprehension(pair, first, others);
    write_dict_comprehension(pair, first, others, state, visit)
}
