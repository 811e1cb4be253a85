//! Assignments with their payloads mapped.
ghost use Rattle.std.specs.Prelude.{IfOk};
ghost use Rattle.starlark_payload.specs.Function.Mapped.{MapsExpression, MapsForm, MapsMaybeType};
ghost use Rattle.starlark_payload.specs.Function.Steps.{◌⨾◌};
ghost use Rattle.starlark_tree.specs.Views.{assign_of, expression_of, form_seen, maybe_type_of};
ghost use Rattle.starlark_tree.specs.declared.ast.StmtP;

use crate::function::function::AstPayloadFunction;
use crate::function::made::{Made, zip, zip_boxed};
use crate::payload_map::argument::map_spanned;
use crate::payload_map::expression::map_boxed;
use crate::payload_map::leaves::{map_annotation, map_variable};
use crate::payload_map::made::made_of;
use starlark_tree::ast::{
    AssignOp, AssignP, AstAssignTargetP, AstExprP, AstPayload, AstTypeExprP, StmtP,
};
use std::alloc::Global;

/// The type of an assigned variable, if it has one, and then the value.
fn map_typed_value<A: AstPayload, B: AstPayload, F: AstPayloadFunction<A, B>>(
    alloc: Global,
    typed: (Option<AstTypeExprP<A>>, AstExprP<A>),
    f: &mut F,
) -> Made<(Option<AstTypeExprP<B>>, AstExprP<B>)>
    ensures { IfOk result (λ mapped. (MapsMaybeType F.calls (maybe_type_of typed.0) (maybe_type_of mapped.0)
        ⨾ MapsExpression F.calls (expression_of typed.1) (expression_of mapped.1)) f.old f.new) }
{
    let (ty, value) = typed;
    match zip(map_annotation(alloc, ty, f), value) {
        Ok((ty, value)) => {
            let parts = zip(map_spanned(alloc, value, f), ty);
            made_of!(parts, (value, ty) => (ty, value))
        }
        Err(e) => Err(e),
    }
}

/// An assignment: its target, its type, its value.
pub(super) fn map_assign<A: AstPayload, B: AstPayload, F: AstPayloadFunction<A, B>>(
    alloc: Global,
    assign: AssignP<A>,
    f: &mut F,
) -> Made<AssignP<B>>
    ensures { IfOk result (λ mapped. MapsForm F.calls (assign_of assign) (assign_of mapped) f.old f.new) }
{
    let AssignP { lhs, ty, rhs } = assign;
    match zip(map_variable(alloc, lhs, f), (ty, rhs)) {
        Ok((lhs, typed)) => match zip(map_typed_value(alloc, typed, f), lhs) {
            Ok((typed, lhs)) => {
                let (ty, rhs) = typed;
                Ok(AssignP { lhs, ty, rhs })
            }
            Err(e) => Err(e),
        },
        Err(e) => Err(e),
    }
}

/// An augmented assignment: its target, its value.
pub(super) fn map_assign_modify<A: AstPayload, B: AstPayload, F: AstPayloadFunction<A, B>>(
    alloc: Global,
    target: AstAssignTargetP<A>,
    operator: AssignOp,
    value: Box<AstExprP<A>>,
    f: &mut F,
) -> Made<StmtP<B>>
    ensures { IfOk result (λ mapped. MapsForm F.calls (form_seen (StmtP.AssignModify target operator value)) (form_seen mapped) f.old f.new) }
{
    match zip_boxed(map_variable(alloc, target, f), value) {
        Ok((target, value)) => {
            let parts = zip(map_boxed(alloc, value, f), target);
            made_of!(parts, (value, target) => StmtP::AssignModify(target, operator, value))
        }
        Err(e) => Err(e),
    }
}
