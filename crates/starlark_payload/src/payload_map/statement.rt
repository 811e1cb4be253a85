//! Statements with their payloads mapped.
ghost use Rattle.std.specs.Prelude.{◌≡◌, IfOk};
ghost use Rattle.starlark_payload.specs.Function.Mapped.{MapsExpression, MapsForm, MapsMaybeType, MapsParameter, MapsStatement};
ghost use Rattle.starlark_payload.specs.Function.Steps.{◌⨾◌, Each};
ghost use Rattle.starlark_tree.specs.Views.{boxed_type_of, expression_of, form_seen, parameter_of, statement_of};
ghost use Rattle.starlark_tree.specs.declared.ast.StmtP;

use crate::function::function::AstPayloadFunction;
use crate::function::ident::map_spanned_assign_ident;
use crate::function::load::map_load;
use crate::function::made::{Made, Mapping, zip, zip_maybe};
use crate::payload_map::argument::{map_maybe_type, map_parameters, map_spanned};
use crate::payload_map::assignment::{map_assign, map_assign_modify};
use crate::payload_map::discard::{
    discard_body, discard_branches, discard_head, discard_signature, discard_statement,
    discard_variable,
};
use crate::payload_map::leaves::{map_returned, map_variable};
use crate::payload_map::made::{made_of, pair_in_box, spanned, spanned_in_box};
use starlark_lexer::span::Spanned;
use starlark_tree::ast::{
    AstExprP, AstParameterP, AstPayload, AstStmtP, AstTypeExprP, DefP, ForP, StmtP,
};
use std::alloc::Global;

/// A statement in a box.
#[cycle(statements)]
fn map_body<A: AstPayload, B: AstPayload, F: AstPayloadFunction<A, B>>(
    alloc: Global,
    body: Box<AstStmtP<A>>,
    f: &mut F,
) -> Made<Box<AstStmtP<B>>>
    ensures { IfOk result (λ mapped. MapsStatement F.calls (statement_of body.value) (statement_of mapped.value) f.old f.new) }
{
    let Spanned { node, span } = Box::into_inner(body);
    spanned_in_box(alloc, map_stmt(alloc, node, f), span)
}

/// Two statements, the first one first.
#[cycle(statements)]
fn map_both<A: AstPayload, B: AstPayload, F: AstPayloadFunction<A, B>>(
    alloc: Global,
    pair: (AstStmtP<A>, AstStmtP<A>),
    f: &mut F,
) -> Made<(AstStmtP<B>, AstStmtP<B>)>
    ensures { IfOk result (λ mapped. (MapsStatement F.calls (statement_of pair.0) (statement_of mapped.0)
        ⨾ MapsStatement F.calls (statement_of pair.1) (statement_of mapped.1)) f.old f.new) }
{
    let (first, second) = pair;
    let Spanned { node, span } = first;
    match map_stmt(alloc, node, f) {
        Ok(node) => {
            let first = Spanned { node, span };
            let Spanned { node, span } = second;
            match map_stmt(alloc, node, f) {
                Ok(node) => Ok((first, Spanned { node, span })),
                Err(e) => {
                    discard_statement(first);
                    Err(e)
                }
            }
        }
        Err(e) => {
            discard_statement(second);
            Err(e)
        }
    }
}

/// Statements one after another.
#[cycle(statements)]
fn map_stmts<A: AstPayload, B: AstPayload, F: AstPayloadFunction<A, B>>(
    alloc: Global,
    items: Vec<AstStmtP<A>>,
    f: &mut F,
) -> Made<Vec<AstStmtP<B>>>
    ensures { IfOk result (λ mapped. Each (λ x y. MapsStatement F.calls (statement_of x) (statement_of y)) items.items mapped.items f.old f.new) }
{
    let mut mapping = Mapping::begin_spanned(alloc, items)?;
    while let Some(item) = mapping.next() {
        let Spanned { node, span } = item;
        mapping = mapping.push_spanned(spanned(map_stmt(alloc, node, f), span))?;
    }
    Ok(mapping.finish())
}

/// An expression and then the statement that depends on it.
#[cycle(statements)]
fn map_headed<A: AstPayload, B: AstPayload, F: AstPayloadFunction<A, B>>(
    alloc: Global,
    body: Box<AstStmtP<A>>,
    head: AstExprP<A>,
    f: &mut F,
) -> Made<(AstExprP<B>, Box<AstStmtP<B>>)>
    ensures { IfOk result (λ mapped. (MapsExpression F.calls (expression_of head) (expression_of mapped.0)
        ⨾ MapsStatement F.calls (statement_of body.value) (statement_of mapped.1.value)) f.old f.new) }
{
    match map_spanned(alloc, head, f) {
        Ok(head) => match map_body(alloc, body, f) {
            Ok(body) => Ok((head, body)),
            Err(e) => {
                discard_head(head);
                Err(e)
            }
        },
        Err(e) => {
            discard_body(body);
            Err(e)
        }
    }
}

/// An `if` with `else`: its condition, its branches.
#[cycle(statements)]
fn map_if_else<A: AstPayload, B: AstPayload, F: AstPayloadFunction<A, B>>(
    alloc: Global,
    branches: Box<(AstStmtP<A>, AstStmtP<A>)>,
    condition: AstExprP<A>,
    f: &mut F,
) -> Made<StmtP<B>>
    ensures { IfOk result (λ mapped. MapsForm F.calls (form_seen (StmtP.IfElse condition branches)) (form_seen mapped) f.old f.new) }
{
    match map_spanned(alloc, condition, f) {
        Ok(condition) => match pair_in_box(alloc, map_both(alloc, Box::into_inner(branches), f)) {
            Ok(branches) => Ok(StmtP::IfElse(condition, branches)),
            Err(e) => {
                discard_head(condition);
                Err(e)
            }
        },
        Err(e) => {
            discard_branches(branches);
            Err(e)
        }
    }
}

/// A loop: its variable, what it iterates over, its body.
#[cycle(statements)]
pub(super) fn map_for<A: AstPayload, B: AstPayload, F: AstPayloadFunction<A, B>>(
    alloc: Global,
    stmt: ForP<A>,
    f: &mut F,
) -> Made<ForP<B>>
    ensures { IfOk result (λ mapped. MapsForm F.calls (form_seen (StmtP.For stmt)) (form_seen (StmtP.For mapped)) f.old f.new) }
{
    let ForP { var, over, body } = stmt;
    match map_variable(alloc, var, f) {
        Ok(var) => match map_headed(alloc, body, over, f) {
            Ok(headed) => {
                let (over, body) = headed;
                Ok(ForP { var, over, body })
            }
            Err(e) => {
                discard_variable(var);
                Err(e)
            }
        },
        Err(e) => {
            discard_head(over);
            discard_body(body);
            Err(e)
        }
    }
}

/// The parameters and the return type of a definition.
fn map_signature<A: AstPayload, B: AstPayload, F: AstPayloadFunction<A, B>>(
    alloc: Global,
    params: Vec<AstParameterP<A>>,
    return_type: Option<Box<AstTypeExprP<A>>>,
    f: &mut F,
) -> Made<(Vec<AstParameterP<B>>, Option<Box<AstTypeExprP<B>>>)>
    ensures { IfOk result (λ mapped. (Each (λ x y. MapsParameter F.calls (parameter_of x) (parameter_of y)) params.items mapped.0.items
        ⨾ MapsMaybeType F.calls (boxed_type_of return_type) (boxed_type_of mapped.1)) f.old f.new) }
{
    match zip_maybe(map_parameters(alloc, params, f), return_type) {
        Ok((params, return_type)) => {
            let parts = zip(map_maybe_type(alloc, return_type, f), params);
            made_of!(parts, (return_type, params) => (params, return_type))
        }
        Err(e) => Err(e),
    }
}

/// A definition: its name, its parameters, its return type, its body, and finally its payload.
#[cycle(statements)]
fn map_def<A: AstPayload, B: AstPayload, F: AstPayloadFunction<A, B>>(
    alloc: Global,
    stmt: DefP<A>,
    f: &mut F,
) -> Made<DefP<B>>
    ensures { IfOk result (λ mapped. MapsForm F.calls (form_seen (StmtP.Def stmt)) (form_seen (StmtP.Def mapped)) f.old f.new) }
{
    let DefP {
        name,
        params,
        return_type,
        body,
        payload,
    } = stmt;
    let name = map_spanned_assign_ident(name, f);
    match map_signature(alloc, params, return_type, f) {
        Ok(signature) => match map_body(alloc, body, f) {
            Ok(body) => {
                let (params, return_type) = signature;
                let payload = f.map_def(payload);
                Ok(DefP {
                    name,
                    params,
                    return_type,
                    body,
                    payload,
                })
            }
            Err(e) => {
                discard_signature(signature);
                Err(e)
            }
        },
        Err(e) => {
            discard_body(body);
            Err(e)
        }
    }
}

/// A statement.
#[cycle(statements)]
pub(super) fn map_stmt<A: AstPayload, B: AstPayload, F: AstPayloadFunction<A, B>>(
    alloc: Global,
    stmt: StmtP<A>,
    f: &mut F,
) -> Made<StmtP<B>>
    ensures { IfOk result (λ mapped. MapsForm F.calls (form_seen stmt) (form_seen mapped) f.old f.new) }
{
    match stmt {
        StmtP::Break => Ok(StmtP::Break),
        StmtP::Continue => Ok(StmtP::Continue),
        StmtP::Pass => Ok(StmtP::Pass),
        StmtP::Return(value) => made_of!(map_returned(alloc, value, f), StmtP::Return),
        StmtP::Expression(value) => made_of!(map_spanned(alloc, value, f), StmtP::Expression),
        StmtP::Assign(assign) => made_of!(map_assign(alloc, assign, f), StmtP::Assign),
        StmtP::AssignModify(target, operator, value) => {
            map_assign_modify(alloc, target, operator, value, f)
        }
        StmtP::Statements(items) => made_of!(map_stmts(alloc, items, f), StmtP::Statements),
        StmtP::If(condition, body) => {
            made_of!(map_headed(alloc, body, condition, f), (condition, body) => StmtP::If(condition, body))
        }
        StmtP::IfElse(condition, branches) => map_if_else(alloc, branches, condition, f),
        StmtP::For(stmt) => made_of!(map_for(alloc, stmt, f), StmtP::For),
        StmtP::Def(stmt) => made_of!(map_def(alloc, stmt, f), StmtP::Def),
        StmtP::Load(load) => made_of!(map_load(alloc, load, f), StmtP::Load),
    }
}
