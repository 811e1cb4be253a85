//! Expressions with their payloads mapped.
ghost use Rattle.std.specs.Prelude.{IfOk};
ghost use Rattle.starlark_payload.specs.Function.Steps.{◌⨾◌, Each};
ghost use Rattle.starlark_payload.specs.Function.Mapped.{MapsClause, MapsExpression, MapsForIn, MapsMaybe, MapsShape};
ghost use Rattle.starlark_tree.specs.Views.{clause_seen, expression_of, for_in_of, maybe_of, shape_seen};
ghost use Rattle.starlark_tree.specs.declared.ast.ExprP;

use crate::function::function::AstPayloadFunction;
use crate::function::ident::map_spanned_ident;
use crate::function::made::{Made, Mapping, zip, zip_boxed, zip_pair, zip_spanned};
use crate::payload_map::argument::{map_arguments, map_lambda, map_spanned};
use crate::payload_map::clause::{map_clauses, map_for};
use crate::payload_map::made::{held, made_of, pair_in_box, spanned_in_box, triple_in_box};
use starlark_lexer::span::Spanned;
use starlark_tree::ast::{
    AstExprP, AstPayload, BinOp, CallArgsP, ClauseP, ExprP, FStringP, ForClauseP,
};
use std::alloc::Global;

/// A bound of a slice, or its step.
type Bound<P> = Option<Box<AstExprP<P>>>;

#[cycle(map)]
pub(super) fn map_expr<A: AstPayload, B: AstPayload, F: AstPayloadFunction<A, B>>(
    alloc: Global,
    expr: ExprP<A>,
    f: &mut F,
) -> Made<ExprP<B>>
    ensures { IfOk result (λ mapped. MapsShape F.calls (shape_seen expr) (shape_seen mapped) f.old f.new) }
{
    match expr {
        ExprP::Tuple(items) => made_of!(map_exprs(alloc, items, f), ExprP::Tuple),
        ExprP::Dot(object, name) => {
            made_of!(map_boxed(alloc, object, f), object => ExprP::Dot(object, name))
        }
        ExprP::Call(callee, args) => map_call(alloc, (callee, args), f),
        ExprP::Index(parts) => made_of!(map_pair(alloc, parts, f), ExprP::Index),
        ExprP::Index2(parts) => made_of!(map_triple(alloc, parts, f), ExprP::Index2),
        ExprP::Slice(array, start, stop, step) => {
            map_slice(alloc, (array, (start, (stop, step))), f)
        }
        ExprP::Identifier(name) => Ok(ExprP::Identifier(map_spanned_ident(name, f))),
        ExprP::Lambda(lambda) => made_of!(map_lambda(alloc, lambda, f), ExprP::Lambda),
        ExprP::Literal(literal) => Ok(ExprP::Literal(literal)),
        ExprP::Not(operand) => made_of!(map_boxed(alloc, operand, f), ExprP::Not),
        ExprP::Minus(operand) => made_of!(map_boxed(alloc, operand, f), ExprP::Minus),
        ExprP::Plus(operand) => made_of!(map_boxed(alloc, operand, f), ExprP::Plus),
        ExprP::BitNot(operand) => made_of!(map_boxed(alloc, operand, f), ExprP::BitNot),
        ExprP::Op(left, operator, right) => map_operation(alloc, (left, operator, right), f),
        ExprP::If(parts) => made_of!(map_triple(alloc, parts, f), ExprP::If),
        ExprP::List(items) => made_of!(map_exprs(alloc, items, f), ExprP::List),
        ExprP::Dict(pairs) => made_of!(map_pairs(alloc, pairs, f), ExprP::Dict),
        ExprP::ListComprehension(value, first, clauses) => {
            map_list_comprehension(alloc, (value, (first, clauses)), f)
        }
        ExprP::DictComprehension(pair, first, clauses) => {
            map_dict_comprehension(alloc, (pair, (first, clauses)), f)
        }
        ExprP::FString(string) => {
            let Spanned { node, span } = string;
            let FStringP {
                format,
                expressions,
            } = node;
            made_of!(map_exprs(alloc, expressions, f), expressions => ExprP::FString(Spanned { node: FStringP { format, expressions }, span }))
        }
    }
}

#[cycle(map)]
pub(super) fn map_boxed<A: AstPayload, B: AstPayload, F: AstPayloadFunction<A, B>>(
    alloc: Global,
    expr: Box<AstExprP<A>>,
    f: &mut F,
) -> Made<Box<AstExprP<B>>>
    ensures { IfOk result (λ mapped. MapsExpression F.calls (expression_of expr.value) (expression_of mapped.value) f.old f.new) }
{
    let Spanned { node, span } = Box::into_inner(expr);
    spanned_in_box(alloc, map_expr(alloc, node, f), span)
}

#[cycle(map)]
pub(super) fn map_exprs<A: AstPayload, B: AstPayload, F: AstPayloadFunction<A, B>>(
    alloc: Global,
    items: Vec<AstExprP<A>>,
    f: &mut F,
) -> Made<Vec<AstExprP<B>>>
    ensures { IfOk result (λ mapped. Each (λ x y. MapsExpression F.calls (expression_of x) (expression_of y)) items.items mapped.items f.old f.new) }
{
    let mut mapping = Mapping::begin_spanned(alloc, items)?;
    while let Some(item) = mapping.next() {
        mapping = mapping.push_spanned(map_spanned(alloc, item, f))?;
    }
    Ok(mapping.finish())
}

#[cycle(map)]
pub(super) fn map_two<A: AstPayload, B: AstPayload, F: AstPayloadFunction<A, B>>(
    alloc: Global,
    pair: (AstExprP<A>, AstExprP<A>),
    f: &mut F,
) -> Made<(AstExprP<B>, AstExprP<B>)>
    ensures { IfOk result (λ mapped. (MapsExpression F.calls (expression_of pair.0) (expression_of mapped.0)
        ⨾ MapsExpression F.calls (expression_of pair.1) (expression_of mapped.1)) f.old f.new) }
{
    let (first, second) = pair;
    match zip_spanned(map_spanned(alloc, first, f), second) {
        Ok((first, second)) => {
            let parts = zip_spanned(map_spanned(alloc, second, f), first);
            made_of!(parts, (second, first) => (first, second))
        }
        Err(e) => Err(e),
    }
}

#[cycle(map)]
pub(super) fn map_pair<A: AstPayload, B: AstPayload, F: AstPayloadFunction<A, B>>(
    alloc: Global,
    pair: Box<(AstExprP<A>, AstExprP<A>)>,
    f: &mut F,
) -> Made<Box<(AstExprP<B>, AstExprP<B>)>>
    ensures { IfOk result (λ mapped. (MapsExpression F.calls (expression_of pair.value.0) (expression_of mapped.value.0)
        ⨾ MapsExpression F.calls (expression_of pair.value.1) (expression_of mapped.value.1)) f.old f.new) }
{
    pair_in_box(alloc, map_two(alloc, Box::into_inner(pair), f))
}

#[cycle(map)]
pub(super) fn map_triple<A: AstPayload, B: AstPayload, F: AstPayloadFunction<A, B>>(
    alloc: Global,
    triple: Box<(AstExprP<A>, AstExprP<A>, AstExprP<A>)>,
    f: &mut F,
) -> Made<Box<(AstExprP<B>, AstExprP<B>, AstExprP<B>)>>
    ensures { IfOk result (λ mapped. (MapsExpression F.calls (expression_of triple.value.0) (expression_of mapped.value.0)
        ⨾ MapsExpression F.calls (expression_of triple.value.1) (expression_of mapped.value.1)
        ⨾ MapsExpression F.calls (expression_of triple.value.2) (expression_of mapped.value.2)) f.old f.new) }
{
    let (first, second, third) = Box::into_inner(triple);
    match zip_pair(map_spanned(alloc, first, f), (second, third)) {
        Ok((first, others)) => {
            let parts = zip_spanned(map_two(alloc, others, f), first);
            match parts {
                Ok((others, first)) => {
                    let (second, third) = others;
                    triple_in_box(alloc, Ok((first, second, third)))
                }
                Err(e) => Err(e),
            }
        }
        Err(e) => Err(e),
    }
}

#[cycle(map)]
pub(super) fn map_pairs<A: AstPayload, B: AstPayload, F: AstPayloadFunction<A, B>>(
    alloc: Global,
    pairs: Vec<(AstExprP<A>, AstExprP<A>)>,
    f: &mut F,
) -> Made<Vec<(AstExprP<B>, AstExprP<B>)>>
    ensures { IfOk result (λ mapped. Each (λ x y. MapsExpression F.calls (expression_of x.0) (expression_of y.0)
        ⨾ MapsExpression F.calls (expression_of x.1) (expression_of y.1)) pairs.items mapped.items f.old f.new) }
{
    let mut mapping = Mapping::begin_pairs(alloc, pairs)?;
    while let Some(pair) = mapping.next() {
        mapping = mapping.push_pair(map_two(alloc, pair, f))?;
    }
    Ok(mapping.finish())
}

#[cycle(map)]
pub(super) fn map_maybe<A: AstPayload, B: AstPayload, F: AstPayloadFunction<A, B>>(
    alloc: Global,
    expr: Option<Box<AstExprP<A>>>,
    f: &mut F,
) -> Made<Option<Box<AstExprP<B>>>>
    ensures { IfOk result (λ mapped. MapsMaybe F.calls (maybe_of expr) (maybe_of mapped) f.old f.new) }
{
    match expr {
        Some(expr) => made_of!(map_boxed(alloc, expr, f), Some),
        None => Ok(None),
    }
}

#[cycle(map)]
pub(super) fn map_call<A: AstPayload, B: AstPayload, F: AstPayloadFunction<A, B>>(
    alloc: Global,
    parts: (Box<AstExprP<A>>, CallArgsP<A>),
    f: &mut F,
) -> Made<ExprP<B>>
    ensures { IfOk result (λ mapped. MapsShape F.calls (shape_seen (ExprP.Call parts.0 parts.1)) (shape_seen mapped) f.old f.new) }
{
    let (callee, args) = parts;
    match zip(map_boxed(alloc, callee, f), args) {
        Ok((callee, args)) => {
            let CallArgsP { args } = args;
            let parts = zip_boxed(map_arguments(alloc, args, f), callee);
            made_of!(parts, (args, callee) => ExprP::Call(callee, CallArgsP { args }))
        }
        Err(e) => Err(e),
    }
}

#[cycle(map)]
pub(super) fn map_slice<A: AstPayload, B: AstPayload, F: AstPayloadFunction<A, B>>(
    alloc: Global,
    parts: (Box<AstExprP<A>>, (Bound<A>, (Bound<A>, Bound<A>))),
    f: &mut F,
) -> Made<ExprP<B>>
    ensures { IfOk result (λ mapped. MapsShape F.calls (shape_seen (ExprP.Slice parts.0 parts.1.0 parts.1.1.0 parts.1.1.1)) (shape_seen mapped) f.old f.new) }
{
    let (array, bounds) = parts;
    match zip(map_boxed(alloc, array, f), bounds) {
        Ok((array, bounds)) => {
            let (start, ends) = bounds;
            let started = zip(map_maybe(alloc, start, f), (ends, array));
            match started {
                Ok((start, kept)) => {
                    let ((stop, step), array) = kept;
                    let stopped = zip(map_maybe(alloc, stop, f), (step, (array, start)));
                    match stopped {
                        Ok((stop, kept)) => {
                            let (step, kept) = kept;
                            let stepped = zip(map_maybe(alloc, step, f), (kept, stop));
                            match stepped {
                                Ok((step, kept)) => {
                                    let ((array, start), stop) = kept;
                                    Ok(ExprP::Slice(array, start, stop, step))
                                }
                                Err(e) => Err(e),
                            }
                        }
                        Err(e) => Err(e),
                    }
                }
                Err(e) => Err(e),
            }
        }
        Err(e) => Err(e),
    }
}

#[cycle(map)]
pub(super) fn map_operation<A: AstPayload, B: AstPayload, F: AstPayloadFunction<A, B>>(
    alloc: Global,
    parts: (Box<AstExprP<A>>, BinOp, Box<AstExprP<A>>),
    f: &mut F,
) -> Made<ExprP<B>>
    ensures { IfOk result (λ mapped. MapsShape F.calls (shape_seen (ExprP.Op parts.0 parts.1 parts.2)) (shape_seen mapped) f.old f.new) }
{
    let (left, operator, right) = parts;
    match zip_boxed(map_boxed(alloc, left, f), right) {
        Ok((left, right)) => {
            let parts = zip_boxed(map_boxed(alloc, right, f), left);
            made_of!(parts, (right, left) => ExprP::Op(left, operator, right))
        }
        Err(e) => Err(e),
    }
}

#[cycle(map)]
pub(super) fn map_for_and_clauses<A: AstPayload, B: AstPayload, F: AstPayloadFunction<A, B>>(
    alloc: Global,
    parts: (Box<ForClauseP<A>>, Vec<ClauseP<A>>),
    f: &mut F,
) -> Made<(Box<ForClauseP<B>>, Vec<ClauseP<B>>)>
    ensures { IfOk result (λ mapped. (MapsForIn F.calls (for_in_of parts.0.value) (for_in_of mapped.0.value)
        ⨾ Each (λ x y. MapsClause F.calls (clause_seen x) (clause_seen y)) parts.1.items mapped.1.items) f.old f.new) }
{
    let (first, clauses) = parts;
    match zip(
        held(alloc, map_for(alloc, Box::into_inner(first), f)),
        clauses,
    ) {
        Ok((first, clauses)) => {
            let parts = zip(map_clauses(alloc, clauses, f), first);
            made_of!(parts, (clauses, first) => (first, clauses))
        }
        Err(e) => Err(e),
    }
}

#[cycle(map)]
pub(super) fn map_list_comprehension<A: AstPayload, B: AstPayload, F: AstPayloadFunction<A, B>>(
    alloc: Global,
    parts: (Box<AstExprP<A>>, (Box<ForClauseP<A>>, Vec<ClauseP<A>>)),
    f: &mut F,
) -> Made<ExprP<B>>
    ensures { IfOk result (λ mapped. MapsShape F.calls (shape_seen (ExprP.ListComprehension parts.0 parts.1.0 parts.1.1)) (shape_seen mapped) f.old f.new) }
{
    let (value, clauses) = parts;
    match zip(map_boxed(alloc, value, f), clauses) {
        Ok((value, clauses)) => {
            let parts = zip_boxed(map_for_and_clauses(alloc, clauses, f), value);
            match parts {
                Ok((clauses, value)) => {
                    let (first, clauses) = clauses;
                    Ok(ExprP::ListComprehension(value, first, clauses))
                }
                Err(e) => Err(e),
            }
        }
        Err(e) => Err(e),
    }
}

#[cycle(map)]
pub(super) fn map_dict_comprehension<A: AstPayload, B: AstPayload, F: AstPayloadFunction<A, B>>(
    alloc: Global,
    parts: (
        Box<(AstExprP<A>, AstExprP<A>)>,
        (Box<ForClauseP<A>>, Vec<ClauseP<A>>),
    ),
    f: &mut F,
) -> Made<ExprP<B>>
    ensures { IfOk result (λ mapped. MapsShape F.calls (shape_seen (ExprP.DictComprehension parts.0 parts.1.0 parts.1.1)) (shape_seen mapped) f.old f.new) }
{
    let (pair, clauses) = parts;
    match zip(map_pair(alloc, pair, f), clauses) {
        Ok((pair, clauses)) => {
            let parts = zip(map_for_and_clauses(alloc, clauses, f), pair);
            match parts {
                Ok((clauses, pair)) => {
                    let (first, clauses) = clauses;
                    Ok(ExprP::DictComprehension(pair, first, clauses))
                }
                Err(e) => Err(e),
            }
        }
        Err(e) => Err(e),
    }
}
