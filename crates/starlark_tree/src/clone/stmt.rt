//! Clones of statements.
ghost use Rattle.std.specs.Prelude.{◌≡◌, IfOk, option_map};
ghost use Rattle.std.specs.Result.{IsOkAnd};
ghost use Rattle.std.specs.List.{AllZip};
ghost use Rattle.starlark_tree.specs.Ast.{IfElse};
ghost use Rattle.starlark_tree.specs.Clones.{ClonesBody, ClonesForm, ClonesMaybeType, ClonesOption, HasBody};
ghost use Rattle.starlark_tree.specs.Clones.{ClonesParameter, ClonesStatement, ClonesTarget, IsSimple, cloning};
ghost use Rattle.starlark_tree.specs.Views.{assign_of, boxed_type_of, expression_of, form_seen, maybe_type_of, parameter_of, statement_of, target_of};
ghost use Rattle.starlark_tree.specs.declared.ast.StmtP;

use crate::ast::{
    AssignP, AstAssignTargetP, AstExprP, AstPayload, AstStmtP, AstTypeExprP, DefP, ForP, LoadP,
    StmtP,
};
use crate::clone::expr::{
    clone_boxed, clone_maybe_type, clone_parameters, clone_spanned, clone_target, clone_type,
};
use crate::clone::leaf::{
    Cloned, both, boxed_like, clone_assign_ident, empty_like, made_of, pair_like, push_spanned,
    spanned_like,
};
use crate::clone::load::clone_load;

fn clone_variable<P: AstPayload>(target: &AstAssignTargetP<P>) -> Cloned<AstAssignTargetP<P>>
    ensures { IfOk result (λ copy. ClonesTarget
        (cloning P.LoadPayload.is_clone P.IdentPayload.is_clone P.IdentAssignPayload.is_clone P.DefPayload.is_clone P.TypeExprPayload.is_clone)
        (target_of target.now) (target_of copy)) }
{
    spanned_like(clone_target(&target.node), target)
}

fn clone_returned<P: AstPayload>(value: &Option<AstExprP<P>>) -> Cloned<Option<AstExprP<P>>>
    ensures { IfOk result (λ copy. ClonesOption
        (cloning P.LoadPayload.is_clone P.IdentPayload.is_clone P.IdentAssignPayload.is_clone P.DefPayload.is_clone P.TypeExprPayload.is_clone)
        (option_map expression_of value.now) (option_map expression_of copy)) }
{
    match value {
        Some(value) => made_of!(clone_spanned(value), Some),
        None => Ok(None),
    }
}

fn clone_annotation<P: AstPayload>(ty: &Option<AstTypeExprP<P>>) -> Cloned<Option<AstTypeExprP<P>>>
    ensures { IfOk result (λ copy. ClonesMaybeType
        (cloning P.LoadPayload.is_clone P.IdentPayload.is_clone P.IdentAssignPayload.is_clone P.DefPayload.is_clone P.TypeExprPayload.is_clone)
        (maybe_type_of ty.now) (maybe_type_of copy)) }
{
    match ty {
        Some(ty) => made_of!(spanned_like(clone_type(&ty.node), ty), Some),
        None => Ok(None),
    }
}

pub(super) fn clone_assign<P: AstPayload>(assign: &AssignP<P>) -> Cloned<AssignP<P>>
    ensures { IfOk result (λ copy. ClonesForm
        (cloning P.LoadPayload.is_clone P.IdentPayload.is_clone P.IdentAssignPayload.is_clone P.DefPayload.is_clone P.TypeExprPayload.is_clone)
        (assign_of assign.now) (assign_of copy)) }
{
    let value = both(clone_annotation(&assign.ty), clone_spanned(&assign.rhs));
    let parts = both(clone_variable(&assign.lhs), value);
    made_of!(parts, (lhs, (ty, rhs)) => AssignP { lhs, ty, rhs })
}

/// The clone of a statement that holds no other.
#[inline(never)]
fn clone_simple<P: AstPayload>(stmt: &StmtP<P>) -> Cloned<StmtP<P>>
    requires { IsSimple stmt.now }
    ensures { IfOk result (λ copy. ClonesForm
        (cloning P.LoadPayload.is_clone P.IdentPayload.is_clone P.IdentAssignPayload.is_clone P.DefPayload.is_clone P.TypeExprPayload.is_clone)
        (form_seen stmt.now) (form_seen copy)) }
{
    match stmt {
        StmtP::Break => Ok(StmtP::Break),
        StmtP::Continue => Ok(StmtP::Continue),
        StmtP::Pass => Ok(StmtP::Pass),
        StmtP::Return(value) => made_of!(clone_returned(value), StmtP::Return),
        StmtP::Expression(value) => made_of!(clone_spanned(value), StmtP::Expression),
        StmtP::Assign(assign) => made_of!(clone_assign(assign), StmtP::Assign),
        StmtP::AssignModify(target, operator, value) => {
            let parts = both(clone_variable(target), clone_boxed(value));
            let operator = *operator;
            made_of!(parts, (target, value) => StmtP::AssignModify(target, operator, value))
        }
        StmtP::Load(load) => made_of!(clone_load(load), StmtP::Load),
        StmtP::Statements(_) | StmtP::If(..) | StmtP::IfElse(..) | StmtP::For(_) | StmtP::Def(_) =>
            unreachable!(),
    }
}

#[inline(never)]
fn statements<P: AstPayload>(items: Cloned<Vec<AstStmtP<P>>>) -> Cloned<StmtP<P>>
    ensures { IfOk result (λ made. IsOkAnd items (λ xs. made ≡ StmtP.Statements xs)) }
{
    made_of!(items, StmtP::Statements)
}

/// The statement with other branches; a clone of each `if` with this condition if the branches are clones of that one's.
#[inline(never)]
fn if_else_like<P: AstPayload>(
    condition: &AstExprP<P>,
    branches: Cloned<Box<(AstStmtP<P>, AstStmtP<P>)>>,
) -> Cloned<StmtP<P>>
    ensures { IfOk result (λ copy. IsOkAnd branches (λ b. (s t : _) → ClonesStatement
        (cloning P.LoadPayload.is_clone P.IdentPayload.is_clone P.IdentAssignPayload.is_clone P.DefPayload.is_clone P.TypeExprPayload.is_clone)
        s (statement_of b.value.0) → ClonesStatement
        (cloning P.LoadPayload.is_clone P.IdentPayload.is_clone P.IdentAssignPayload.is_clone P.DefPayload.is_clone P.TypeExprPayload.is_clone)
        t (statement_of b.value.1) → ClonesForm
        (cloning P.LoadPayload.is_clone P.IdentPayload.is_clone P.IdentAssignPayload.is_clone P.DefPayload.is_clone P.TypeExprPayload.is_clone)
        (IfElse (expression_of condition.now) s t) (form_seen copy))) }
{
    made_of!(both(clone_spanned(condition), branches), (condition, branches) => StmtP::IfElse(condition, branches))
}

/// The loop with another body; a clone if the body is one.
fn for_like<P: AstPayload>(original: &ForP<P>, body: Cloned<Box<AstStmtP<P>>>) -> Cloned<ForP<P>>
    ensures { IfOk result (λ copy. IsOkAnd body (λ b. ClonesStatement
        (cloning P.LoadPayload.is_clone P.IdentPayload.is_clone P.IdentAssignPayload.is_clone P.DefPayload.is_clone P.TypeExprPayload.is_clone)
        (statement_of original.now.body.value) (statement_of b.value) → ClonesForm
        (cloning P.LoadPayload.is_clone P.IdentPayload.is_clone P.IdentAssignPayload.is_clone P.DefPayload.is_clone P.TypeExprPayload.is_clone)
        (form_seen (StmtP.For original.now)) (form_seen (StmtP.For copy)))) }
{
    let (var, over) = (clone_variable(&original.var), clone_spanned(&original.over));
    made_of!(both(both(var, over), body), ((var, over), body) => ForP { var, over, body })
}

/// The definition with another body; a clone if the body is one.
fn def_like<P: AstPayload>(original: &DefP<P>, body: Cloned<Box<AstStmtP<P>>>) -> Cloned<DefP<P>>
    ensures { IfOk result (λ copy. IsOkAnd body (λ b. ClonesStatement
        (cloning P.LoadPayload.is_clone P.IdentPayload.is_clone P.IdentAssignPayload.is_clone P.DefPayload.is_clone P.TypeExprPayload.is_clone)
        (statement_of original.now.body.value) (statement_of b.value) → ClonesForm
        (cloning P.LoadPayload.is_clone P.IdentPayload.is_clone P.IdentAssignPayload.is_clone P.DefPayload.is_clone P.TypeExprPayload.is_clone)
        (form_seen (StmtP.Def original.now)) (form_seen (StmtP.Def copy)))) }
{
    let signature = both(
        clone_assign_ident(&original.name),
        clone_parameters(&original.params),
    );
    let rest = both(
        clone_maybe_type(&original.return_type),
        original.payload.clone(),
    );
    let parts = both(both(signature, rest), body);
    made_of!(parts, (((name, params), (return_type, payload)), body) => DefP {
        name,
        params,
        return_type,
        body,
        payload,
    })
}

/// The `if` (without `else`), `for` or `def` with another body; a clone if the body is one.
#[tactic(auto, using(crate::proofs::Bodies::no_body))]
#[inline(never)]
fn with_body<P: AstPayload>(original: &StmtP<P>, body: Cloned<Box<AstStmtP<P>>>) -> Cloned<StmtP<P>>
    requires { HasBody (form_seen original.now) }
    ensures { IfOk result (λ copy. IsOkAnd body (λ b. ClonesBody
        (cloning P.LoadPayload.is_clone P.IdentPayload.is_clone P.IdentAssignPayload.is_clone P.DefPayload.is_clone P.TypeExprPayload.is_clone)
        (form_seen original.now) (statement_of b.value) → ClonesForm
        (cloning P.LoadPayload.is_clone P.IdentPayload.is_clone P.IdentAssignPayload.is_clone P.DefPayload.is_clone P.TypeExprPayload.is_clone)
        (form_seen original.now) (form_seen copy))) }
{
    match original {
        StmtP::If(condition, _) => {
            made_of!(both(clone_spanned(condition), body), (condition, body) => StmtP::If(condition, body))
        }
        StmtP::For(stmt) => made_of!(for_like(stmt, body), StmtP::For),
        StmtP::Def(stmt) => made_of!(def_like(stmt, body), StmtP::Def),
        _ => unreachable!(),
    }
}

#[cycle(copy)]
#[inline(never)]
fn clone_block<P: AstPayload>(body: &Box<AstStmtP<P>>) -> Cloned<Box<AstStmtP<P>>>
    ensures { IfOk result (λ copy. ClonesStatement
        (cloning P.LoadPayload.is_clone P.IdentPayload.is_clone P.IdentAssignPayload.is_clone P.DefPayload.is_clone P.TypeExprPayload.is_clone)
        (statement_of body.now.value) (statement_of copy.value)) }
{
    boxed_like(clone_stmt(&body.node), body)
}

#[cycle(copy)]
#[inline(never)]
fn clone_branches<P: AstPayload>(
    branches: &Box<(AstStmtP<P>, AstStmtP<P>)>,
) -> Cloned<Box<(AstStmtP<P>, AstStmtP<P>)>>
    ensures first { IfOk result (λ copy. ClonesStatement
        (cloning P.LoadPayload.is_clone P.IdentPayload.is_clone P.IdentAssignPayload.is_clone P.DefPayload.is_clone P.TypeExprPayload.is_clone)
        (statement_of branches.now.value.0) (statement_of copy.value.0)) }
    ensures second { IfOk result (λ copy. ClonesStatement
        (cloning P.LoadPayload.is_clone P.IdentPayload.is_clone P.IdentAssignPayload.is_clone P.DefPayload.is_clone P.TypeExprPayload.is_clone)
        (statement_of branches.now.value.1) (statement_of copy.value.1)) }
{
    pair_like(
        clone_stmt(&branches.0.node),
        clone_stmt(&branches.1.node),
        branches,
    )
}

#[cycle(copy)]
#[tactic(auto, using(crate::proofs::Bodies::bodies))]
#[inline(never)]
pub(super) fn clone_stmt<P: AstPayload>(stmt: &StmtP<P>) -> Cloned<StmtP<P>>
    ensures { IfOk result (λ copy. ClonesForm
        (cloning P.LoadPayload.is_clone P.IdentPayload.is_clone P.IdentAssignPayload.is_clone P.DefPayload.is_clone P.TypeExprPayload.is_clone)
        (form_seen stmt.now) (form_seen copy)) }
{
    match stmt {
        StmtP::Statements(items) => statements(clone_stmts(items)),
        StmtP::If(_, body) => with_body(stmt, clone_block(body)),
        StmtP::IfElse(condition, branches) => if_else_like(condition, clone_branches(branches)),
        StmtP::For(original) => with_body(stmt, clone_block(&original.body)),
        StmtP::Def(original) => with_body(stmt, clone_block(&original.body)),
        // `clone_simple` names each of them.
        _ => clone_simple(stmt),
    }
}

#[cycle(copy)]
#[inline(never)]
fn clone_stmts<P: AstPayload>(items: &Vec<AstStmtP<P>>) -> Cloned<Vec<AstStmtP<P>>>
    ensures { IfOk result (λ copies. AllZip (λ x y. ClonesStatement
        (cloning P.LoadPayload.is_clone P.IdentPayload.is_clone P.IdentAssignPayload.is_clone P.DefPayload.is_clone P.TypeExprPayload.is_clone)
        (statement_of x) (statement_of y)) items.now.items copies.items) }
{
    let mut copies = empty_like(items)?;
    for item in items {
        copies = push_spanned(copies, clone_stmt(&item.node), item)?;
    }
    Ok(copies)
}

pub(super) fn clone_for<P: AstPayload>(stmt: &ForP<P>) -> Cloned<ForP<P>>
    ensures { IfOk result (λ copy. ClonesForm
        (cloning P.LoadPayload.is_clone P.IdentPayload.is_clone P.IdentAssignPayload.is_clone P.DefPayload.is_clone P.TypeExprPayload.is_clone)
        (form_seen (StmtP.For stmt.now)) (form_seen (StmtP.For copy))) }
{
    for_like(stmt, clone_block(&stmt.body))
}

pub(super) fn clone_def<P: AstPayload>(stmt: &DefP<P>) -> Cloned<DefP<P>>
    ensures { IfOk result (λ copy. ClonesForm
        (cloning P.LoadPayload.is_clone P.IdentPayload.is_clone P.IdentAssignPayload.is_clone P.DefPayload.is_clone P.TypeExprPayload.is_clone)
        (form_seen (StmtP.Def stmt.now)) (form_seen (StmtP.Def copy))) }
{
    def_like(stmt, clone_block(&stmt.body))
}
