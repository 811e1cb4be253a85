//! Clauses of comprehensions, targets of assignments and f-strings with their payloads mapped.
ghost use Rattle.std.specs.Prelude.{◌≡◌, IfOk};
ghost use Rattle.starlark_lexer.specs.Tokens.{Span as Place};
ghost use Rattle.starlark_payload.specs.Function.Steps.{Each};
ghost use Rattle.starlark_payload.specs.Function.Mapped.{MapsClause, MapsExpression, MapsForIn, MapsTarget};
ghost use Rattle.starlark_tree.specs.Views.{clause_seen, expression_of, for_in_of, target_of, target_seen, word};

use crate::function::function::AstPayloadFunction;
use crate::function::ident::map_spanned_assign_ident;
use crate::function::made::{Made, Mapping, zip_spanned};
use crate::payload_map::argument::map_spanned;
use crate::payload_map::expression::{map_boxed, map_exprs, map_pair};
use crate::payload_map::made::{made_of, spanned};
use starlark_lexer::span::Spanned;
use starlark_tree::ast::{
    AssignTargetP, AstAssignTargetP, AstPayload, ClauseP, FStringP, ForClauseP,
};
use std::alloc::Global;

#[cycle(map)]
pub(super) fn map_for<A: AstPayload, B: AstPayload, F: AstPayloadFunction<A, B>>(
    alloc: Global,
    clause: ForClauseP<A>,
    f: &mut F,
) -> Made<ForClauseP<B>>
    ensures { IfOk result (λ mapped. MapsForIn F.calls (for_in_of clause) (for_in_of mapped) f.old f.new) }
{
    let ForClauseP { var, over } = clause;
    let Spanned { node, span } = var;
    match zip_spanned(spanned(map_target(alloc, node, f), span), over) {
        Ok((var, over)) => {
            let parts = zip_spanned(map_spanned(alloc, over, f), var);
            made_of!(parts, (over, var) => ForClauseP { var, over })
        }
        Err(e) => Err(e),
    }
}

#[cycle(map)]
pub(super) fn map_clause<A: AstPayload, B: AstPayload, F: AstPayloadFunction<A, B>>(
    alloc: Global,
    clause: ClauseP<A>,
    f: &mut F,
) -> Made<ClauseP<B>>
    ensures { IfOk result (λ mapped. MapsClause F.calls (clause_seen clause) (clause_seen mapped) f.old f.new) }
{
    match clause {
        ClauseP::For(clause) => made_of!(map_for(alloc, clause, f), ClauseP::For),
        ClauseP::If(condition) => made_of!(map_spanned(alloc, condition, f), ClauseP::If),
    }
}

#[cycle(map)]
pub(super) fn map_clauses<A: AstPayload, B: AstPayload, F: AstPayloadFunction<A, B>>(
    alloc: Global,
    items: Vec<ClauseP<A>>,
    f: &mut F,
) -> Made<Vec<ClauseP<B>>>
    ensures { IfOk result (λ mapped. Each (λ x y. MapsClause F.calls (clause_seen x) (clause_seen y)) items.items mapped.items f.old f.new) }
{
    let mut mapping = Mapping::begin(alloc, items)?;
    while let Some(item) = mapping.next() {
        mapping = mapping.push(map_clause(alloc, item, f))?;
    }
    Ok(mapping.finish())
}

#[cycle(map)]
pub(super) fn map_target<A: AstPayload, B: AstPayload, F: AstPayloadFunction<A, B>>(
    alloc: Global,
    target: AssignTargetP<A>,
    f: &mut F,
) -> Made<AssignTargetP<B>>
    ensures { IfOk result (λ mapped. (at : Place) → MapsTarget F.calls (target_seen at target) (target_seen at mapped) f.old f.new) }
{
    match target {
        AssignTargetP::Tuple(items) => {
            made_of!(map_targets(alloc, items, f), AssignTargetP::Tuple)
        }
        AssignTargetP::Index(parts) => made_of!(map_pair(alloc, parts, f), AssignTargetP::Index),
        AssignTargetP::Dot(object, name) => {
            made_of!(map_boxed(alloc, object, f), object => AssignTargetP::Dot(object, name))
        }
        AssignTargetP::Identifier(name) => {
            Ok(AssignTargetP::Identifier(map_spanned_assign_ident(name, f)))
        }
    }
}

#[cycle(map)]
pub(super) fn map_targets<A: AstPayload, B: AstPayload, F: AstPayloadFunction<A, B>>(
    alloc: Global,
    items: Vec<AstAssignTargetP<A>>,
    f: &mut F,
) -> Made<Vec<AstAssignTargetP<B>>>
    ensures { IfOk result (λ mapped. Each (λ x y. MapsTarget F.calls (target_of x) (target_of y)) items.items mapped.items f.old f.new) }
{
    let mut mapping = Mapping::begin_spanned(alloc, items)?;
    while let Some(item) = mapping.next() {
        let Spanned { node, span } = item;
        mapping = mapping.push_spanned(spanned(map_target(alloc, node, f), span))?;
    }
    Ok(mapping.finish())
}

/// An f-string: its text, its expressions.
pub(super) fn map_format<A: AstPayload, B: AstPayload, F: AstPayloadFunction<A, B>>(
    alloc: Global,
    format: FStringP<A>,
    f: &mut F,
) -> Made<FStringP<B>>
    ensures format { IfOk result (λ mapped. word mapped.format ≡ word format.format) }
    ensures expressions { IfOk result (λ mapped. Each (λ x y. MapsExpression F.calls (expression_of x) (expression_of y)) format.expressions.items
        mapped.expressions.items f.old f.new) }
{
    let FStringP {
        format,
        expressions,
    } = format;
    made_of!(map_exprs(alloc, expressions, f), expressions => FStringP { format, expressions })
}
