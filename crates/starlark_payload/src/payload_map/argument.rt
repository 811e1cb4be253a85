//! Types, arguments, parameters and lambdas with their payloads mapped.
ghost use Rattle.std.specs.Prelude.{IfOk};
ghost use Rattle.starlark_lexer.specs.Tokens.{Span as Place};
ghost use Rattle.starlark_payload.specs.Function.Steps.{◌⨾◌, Each};
ghost use Rattle.starlark_payload.specs.Function.Mapped.{MapsArgument, MapsExpression, MapsMaybeType, MapsParameter, MapsShape};
ghost use Rattle.starlark_tree.specs.Views.{argument_of, argument_seen, boxed_type_of, expression_of, parameter_of, parameter_seen, shape_seen};
ghost use Rattle.starlark_tree.specs.declared.ast.ExprP;

use crate::function::function::AstPayloadFunction;
use crate::function::ident::map_spanned_assign_ident;
use crate::function::made::{Made, Mapping, zip, zip_boxed, zip_maybe};
use crate::payload_map::expression::{map_boxed, map_expr, map_maybe};
use crate::payload_map::made::{held, made_of, spanned};
use starlark_lexer::span::Spanned;
use starlark_tree::ast::{
    ArgumentP, AstArgumentP, AstExprP, AstParameterP, AstPayload, AstTypeExprP, LambdaP,
    ParameterP, TypeExprP,
};
use std::alloc::Global;

#[cycle(map)]
pub(super) fn map_spanned<A: AstPayload, B: AstPayload, F: AstPayloadFunction<A, B>>(
    alloc: Global,
    expr: AstExprP<A>,
    f: &mut F,
) -> Made<AstExprP<B>>
    ensures { IfOk result (λ mapped. MapsExpression F.calls (expression_of expr) (expression_of mapped) f.old f.new) }
{
    let Spanned { node, span } = expr;
    made_of!(map_expr(alloc, node, f), node => Spanned { node, span })
}

/// A type: its expression, its payload.
pub(super) fn map_type<A: AstPayload, B: AstPayload, F: AstPayloadFunction<A, B>>(
    alloc: Global,
    ty: TypeExprP<A>,
    f: &mut F,
) -> Made<TypeExprP<B>>
    ensures { IfOk result (λ mapped. (MapsExpression F.calls (expression_of ty.expr) (expression_of mapped.expr) ⨾ F.calls.type ty.payload mapped.payload)
        f.old f.new) }
{
    let TypeExprP { expr, payload } = ty;
    match map_spanned(alloc, expr, f) {
        Ok(expr) => {
            let payload = f.map_type_expr(payload);
            Ok(TypeExprP { expr, payload })
        }
        Err(e) => Err(e),
    }
}

#[cycle(map)]
pub(super) fn map_maybe_type<A: AstPayload, B: AstPayload, F: AstPayloadFunction<A, B>>(
    alloc: Global,
    ty: Option<Box<AstTypeExprP<A>>>,
    f: &mut F,
) -> Made<Option<Box<AstTypeExprP<B>>>>
    ensures { IfOk result (λ mapped. MapsMaybeType F.calls (boxed_type_of ty) (boxed_type_of mapped) f.old f.new) }
{
    match ty {
        Some(ty) => {
            let Spanned { node, span } = Box::into_inner(ty);
            let TypeExprP { expr, payload } = node;
            match map_spanned(alloc, expr, f) {
                Ok(expr) => {
                    let payload = f.map_type_expr(payload);
                    let node = TypeExprP { expr, payload };
                    made_of!(held(alloc, Ok(Spanned { node, span })), Some)
                }
                Err(e) => Err(e),
            }
        }
        None => Ok(None),
    }
}

#[cycle(map)]
pub(super) fn map_argument<A: AstPayload, B: AstPayload, F: AstPayloadFunction<A, B>>(
    alloc: Global,
    argument: ArgumentP<A>,
    f: &mut F,
) -> Made<ArgumentP<B>>
    ensures { IfOk result (λ mapped. (at : Place) → MapsArgument F.calls (argument_seen at argument) (argument_seen at mapped) f.old f.new) }
{
    match argument {
        ArgumentP::Positional(value) => {
            made_of!(map_spanned(alloc, value, f), ArgumentP::Positional)
        }
        ArgumentP::Named(name, value) => {
            made_of!(map_spanned(alloc, value, f), value => ArgumentP::Named(name, value))
        }
        ArgumentP::Args(value) => made_of!(map_spanned(alloc, value, f), ArgumentP::Args),
        ArgumentP::KwArgs(value) => made_of!(map_spanned(alloc, value, f), ArgumentP::KwArgs),
    }
}

#[cycle(map)]
pub(super) fn map_arguments<A: AstPayload, B: AstPayload, F: AstPayloadFunction<A, B>>(
    alloc: Global,
    items: Vec<AstArgumentP<A>>,
    f: &mut F,
) -> Made<Vec<AstArgumentP<B>>>
    ensures { IfOk result (λ mapped. Each (λ x y. MapsArgument F.calls (argument_of x) (argument_of y)) items.items mapped.items f.old f.new) }
{
    let mut mapping = Mapping::begin_spanned(alloc, items)?;
    while let Some(item) = mapping.next() {
        let Spanned { node, span } = item;
        mapping = mapping.push_spanned(spanned(map_argument(alloc, node, f), span))?;
    }
    Ok(mapping.finish())
}

#[cycle(map)]
pub(super) fn map_parameter<A: AstPayload, B: AstPayload, F: AstPayloadFunction<A, B>>(
    alloc: Global,
    parameter: ParameterP<A>,
    f: &mut F,
) -> Made<ParameterP<B>>
    ensures { IfOk result (λ mapped. (at : Place) → MapsParameter F.calls (parameter_seen at parameter) (parameter_seen at mapped) f.old f.new) }
{
    match parameter {
        ParameterP::Slash => Ok(ParameterP::Slash),
        ParameterP::Normal(name, ty, default) => {
            let name = map_spanned_assign_ident(name, f);
            match zip_maybe(map_maybe_type(alloc, ty, f), default) {
                Ok((ty, default)) => {
                    let parts = zip_maybe(map_maybe(alloc, default, f), ty);
                    made_of!(parts, (default, ty) => ParameterP::Normal(name, ty, default))
                }
                Err(e) => Err(e),
            }
        }
        ParameterP::NoArgs => Ok(ParameterP::NoArgs),
        ParameterP::Args(name, ty) => {
            let name = map_spanned_assign_ident(name, f);
            made_of!(map_maybe_type(alloc, ty, f), ty => ParameterP::Args(name, ty))
        }
        ParameterP::KwArgs(name, ty) => {
            let name = map_spanned_assign_ident(name, f);
            made_of!(map_maybe_type(alloc, ty, f), ty => ParameterP::KwArgs(name, ty))
        }
    }
}

#[cycle(map)]
pub(super) fn map_parameters<A: AstPayload, B: AstPayload, F: AstPayloadFunction<A, B>>(
    alloc: Global,
    items: Vec<AstParameterP<A>>,
    f: &mut F,
) -> Made<Vec<AstParameterP<B>>>
    ensures { IfOk result (λ mapped. Each (λ x y. MapsParameter F.calls (parameter_of x) (parameter_of y)) items.items mapped.items f.old f.new) }
{
    let mut mapping = Mapping::begin_spanned(alloc, items)?;
    while let Some(item) = mapping.next() {
        let Spanned { node, span } = item;
        mapping = mapping.push_spanned(spanned(map_parameter(alloc, node, f), span))?;
    }
    Ok(mapping.finish())
}

#[cycle(map)]
pub(super) fn map_lambda<A: AstPayload, B: AstPayload, F: AstPayloadFunction<A, B>>(
    alloc: Global,
    lambda: LambdaP<A>,
    f: &mut F,
) -> Made<LambdaP<B>>
    ensures { IfOk result (λ mapped. MapsShape F.calls (shape_seen (ExprP.Lambda lambda)) (shape_seen (ExprP.Lambda mapped)) f.old f.new) }
{
    let LambdaP {
        params,
        body,
        payload,
    } = lambda;
    match zip_boxed(map_parameters(alloc, params, f), body) {
        Ok((params, body)) => match zip(map_boxed(alloc, body, f), params) {
            Ok((body, params)) => {
                let payload = f.map_def(payload);
                Ok(LambdaP {
                    params,
                    body,
                    payload,
                })
            }
            Err(e) => Err(e),
        },
        Err(e) => Err(e),
    }
}
