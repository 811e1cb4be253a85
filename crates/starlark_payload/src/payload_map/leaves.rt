//! The parts of statements, with their spans.
ghost use Rattle.std.specs.Prelude.{IfOk, option_map};
ghost use Rattle.starlark_payload.specs.Function.Mapped.{MapsMaybeType, MapsOption, MapsTarget};
ghost use Rattle.starlark_tree.specs.Views.{expression_of, maybe_type_of, target_of};

use crate::function::function::AstPayloadFunction;
use crate::function::made::Made;
use crate::payload_map::argument::{map_spanned, map_type};
use crate::payload_map::clause::map_target;
use crate::payload_map::made::{made_of, spanned};
use starlark_lexer::span::Spanned;
use starlark_tree::ast::{AstAssignTargetP, AstExprP, AstPayload, AstTypeExprP};
use std::alloc::Global;

/// The target of an assignment, with its span.
pub(super) fn map_variable<A: AstPayload, B: AstPayload, F: AstPayloadFunction<A, B>>(
    alloc: Global,
    target: AstAssignTargetP<A>,
    f: &mut F,
) -> Made<AstAssignTargetP<B>>
    ensures { IfOk result (λ mapped. MapsTarget F.calls (target_of target) (target_of mapped) f.old f.new) }
{
    let Spanned { node, span } = target;
    spanned(map_target(alloc, node, f), span)
}

/// The value of a return, if it has one.
pub(super) fn map_returned<A: AstPayload, B: AstPayload, F: AstPayloadFunction<A, B>>(
    alloc: Global,
    value: Option<AstExprP<A>>,
    f: &mut F,
) -> Made<Option<AstExprP<B>>>
    ensures { IfOk result (λ mapped. MapsOption F.calls (option_map expression_of value) (option_map expression_of mapped) f.old f.new) }
{
    match value {
        Some(value) => made_of!(map_spanned(alloc, value, f), Some),
        None => Ok(None),
    }
}

/// The type of a variable, if it has one.
pub(super) fn map_annotation<A: AstPayload, B: AstPayload, F: AstPayloadFunction<A, B>>(
    alloc: Global,
    ty: Option<AstTypeExprP<A>>,
    f: &mut F,
) -> Made<Option<AstTypeExprP<B>>>
    ensures { IfOk result (λ mapped. MapsMaybeType F.calls (maybe_type_of ty) (maybe_type_of mapped) f.old f.new) }
{
    match ty {
        Some(ty) => {
            let Spanned { node, span } = ty;
            made_of!(spanned(map_type(alloc, node, f), span), Some)
        }
        None => Ok(None),
    }
}
