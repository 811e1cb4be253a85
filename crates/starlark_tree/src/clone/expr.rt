//! Clones of expressions, and of the arguments, parameters, targets and clauses in them.
ghost use Rattle.std.specs.Prelude.{◌≡◌, IfOk};
ghost use Rattle.std.specs.List.{AllZip};
ghost use Rattle.starlark_lexer.specs.Tokens.{Span as Place, span_of};
ghost use Rattle.starlark_tree.specs.Clones.{ClonesArgument, ClonesClause, ClonesExpression, ClonesForIn, ClonesMaybe};
ghost use Rattle.starlark_tree.specs.Clones.{ClonesMaybeType, ClonesParameter, ClonesShape, ClonesTarget, cloning};
ghost use Rattle.starlark_tree.specs.Views.{argument_of, argument_seen, boxed_type_of, clause_seen, expression_of, for_in_of, maybe_of};
ghost use Rattle.starlark_tree.specs.Views.{parameter_of, parameter_seen, shape_seen, target_of, target_seen, word};
ghost use Rattle.starlark_tree.specs.declared.ast.ExprP;

use crate::ast::{
    ArgumentP, AssignTargetP, AstArgumentP, AstAssignTargetP, AstExprP, AstParameterP, AstPayload,
    AstTypeExprP, ClauseP, ExprP, FStringP, ForClauseP, LambdaP, ParameterP, TypeExprP,
};
use crate::clone::leaf::{
    Cloned, both, boxed_like, clone_assign_ident, clone_text, empty_like, held_like, made_of,
    pair_like, push_made, push_pair, push_spanned, spanned_like, triple_like,
};
use crate::clone::node::{
    argument_like, attribute, bit_not, call, clone_constant, clone_name, conditional, dict,
    dict_comprehension, fstring, index, index2, lambda, lambda_like, list, list_comprehension,
    minus, not, operation, plus, push_argument, slice, tuple,
};

#[cycle(copy)]
#[tactic(auto, using(crate::proofs::Clones::clones))]
#[inline(never)]
pub(super) fn clone_expr<P: AstPayload>(expr: &ExprP<P>) -> Cloned<ExprP<P>>
    ensures { IfOk result (λ copy. ClonesShape
        (cloning P.LoadPayload.is_clone P.IdentPayload.is_clone P.IdentAssignPayload.is_clone P.DefPayload.is_clone P.TypeExprPayload.is_clone)
        (shape_seen expr.now) (shape_seen copy)) }
{
    match expr {
        ExprP::Tuple(items) => tuple(clone_exprs(items)),
        ExprP::Dot(object, name) => attribute(clone_boxed(object), name),
        ExprP::Call(callee, args) => call(clone_boxed(callee), clone_arguments(&args.args)),
        ExprP::Index(parts) => index(clone_pair(parts)),
        ExprP::Index2(parts) => index2(clone_triple(parts)),
        ExprP::Slice(array, start, stop, step) => slice(
            clone_boxed(array),
            clone_maybe(start),
            clone_maybe(stop),
            clone_maybe(step),
        ),
        ExprP::Identifier(name) => clone_name(name),
        ExprP::Lambda(original) => lambda(
            clone_parameters(&original.params),
            clone_boxed(&original.body),
            original,
        ),
        ExprP::Literal(literal) => clone_constant(literal),
        ExprP::Not(operand) => not(clone_boxed(operand)),
        ExprP::Minus(operand) => minus(clone_boxed(operand)),
        ExprP::Plus(operand) => plus(clone_boxed(operand)),
        ExprP::BitNot(operand) => bit_not(clone_boxed(operand)),
        ExprP::Op(left, operator, right) => {
            operation(clone_boxed(left), *operator, clone_boxed(right))
        }
        ExprP::If(parts) => conditional(clone_triple(parts)),
        ExprP::List(items) => list(clone_exprs(items)),
        ExprP::Dict(pairs) => dict(clone_pairs(pairs)),
        ExprP::ListComprehension(value, first, clauses) => list_comprehension(
            clone_boxed(value),
            clone_first(first),
            clone_clauses(clauses),
        ),
        ExprP::DictComprehension(pair, first, clauses) => dict_comprehension(
            clone_pair(pair),
            clone_first(first),
            clone_clauses(clauses),
        ),
        ExprP::FString(format) => fstring(clone_exprs(&format.node.expressions), format),
    }
}

pub(super) fn clone_spanned<P: AstPayload>(expr: &AstExprP<P>) -> Cloned<AstExprP<P>>
    ensures { IfOk result (λ copy. ClonesExpression
        (cloning P.LoadPayload.is_clone P.IdentPayload.is_clone P.IdentAssignPayload.is_clone P.DefPayload.is_clone P.TypeExprPayload.is_clone)
        (expression_of expr.now) (expression_of copy)) }
{
    spanned_like(clone_expr(&expr.node), expr)
}

#[cycle(copy)]
#[inline(never)]
pub(super) fn clone_boxed<P: AstPayload>(expr: &Box<AstExprP<P>>) -> Cloned<Box<AstExprP<P>>>
    ensures { IfOk result (λ copy. ClonesExpression
        (cloning P.LoadPayload.is_clone P.IdentPayload.is_clone P.IdentAssignPayload.is_clone P.DefPayload.is_clone P.TypeExprPayload.is_clone)
        (expression_of expr.now.value) (expression_of copy.value)) }
{
    boxed_like(clone_expr(&expr.node), expr)
}

#[cycle(copy)]
#[tactic(auto, using(crate::proofs::Clones::one_more))]
#[inline(never)]
pub(super) fn clone_exprs<P: AstPayload>(items: &Vec<AstExprP<P>>) -> Cloned<Vec<AstExprP<P>>>
    ensures { IfOk result (λ copies. AllZip (λ x y. ClonesExpression
        (cloning P.LoadPayload.is_clone P.IdentPayload.is_clone P.IdentAssignPayload.is_clone P.DefPayload.is_clone P.TypeExprPayload.is_clone)
        (expression_of x) (expression_of y)) items.now.items copies.items) }
{
    let mut copies = empty_like(items)?;
    for item in items {
        copies = push_spanned(copies, clone_expr(&item.node), item)?;
    }
    Ok(copies)
}

#[cycle(copy)]
#[inline(never)]
fn clone_pair<P: AstPayload>(
    pair: &Box<(AstExprP<P>, AstExprP<P>)>,
) -> Cloned<Box<(AstExprP<P>, AstExprP<P>)>>
    ensures first { IfOk result (λ copy. ClonesExpression
        (cloning P.LoadPayload.is_clone P.IdentPayload.is_clone P.IdentAssignPayload.is_clone P.DefPayload.is_clone P.TypeExprPayload.is_clone)
        (expression_of pair.now.value.0) (expression_of copy.value.0)) }
    ensures second { IfOk result (λ copy. ClonesExpression
        (cloning P.LoadPayload.is_clone P.IdentPayload.is_clone P.IdentAssignPayload.is_clone P.DefPayload.is_clone P.TypeExprPayload.is_clone)
        (expression_of pair.now.value.1) (expression_of copy.value.1)) }
{
    pair_like(clone_expr(&pair.0.node), clone_expr(&pair.1.node), pair)
}

#[cycle(copy)]
#[inline(never)]
fn clone_triple<P: AstPayload>(
    triple: &Box<(AstExprP<P>, AstExprP<P>, AstExprP<P>)>,
) -> Cloned<Box<(AstExprP<P>, AstExprP<P>, AstExprP<P>)>>
    ensures first { IfOk result (λ copy. ClonesExpression
        (cloning P.LoadPayload.is_clone P.IdentPayload.is_clone P.IdentAssignPayload.is_clone P.DefPayload.is_clone P.TypeExprPayload.is_clone)
        (expression_of triple.now.value.0) (expression_of copy.value.0)) }
    ensures second { IfOk result (λ copy. ClonesExpression
        (cloning P.LoadPayload.is_clone P.IdentPayload.is_clone P.IdentAssignPayload.is_clone P.DefPayload.is_clone P.TypeExprPayload.is_clone)
        (expression_of triple.now.value.1) (expression_of copy.value.1)) }
    ensures third { IfOk result (λ copy. ClonesExpression
        (cloning P.LoadPayload.is_clone P.IdentPayload.is_clone P.IdentAssignPayload.is_clone P.DefPayload.is_clone P.TypeExprPayload.is_clone)
        (expression_of triple.now.value.2) (expression_of copy.value.2)) }
{
    let first = clone_expr(&triple.0.node);
    let second = clone_expr(&triple.1.node);
    let third = clone_expr(&triple.2.node);
    triple_like(first, second, third, triple)
}

#[cycle(copy)]
#[tactic(auto, using(crate::proofs::Clones::one_more))]
#[inline(never)]
fn clone_pairs<P: AstPayload>(
    items: &Vec<(AstExprP<P>, AstExprP<P>)>,
) -> Cloned<Vec<(AstExprP<P>, AstExprP<P>)>>
    ensures { IfOk result (λ copies. AllZip (λ x y. ClonesExpression
        (cloning P.LoadPayload.is_clone P.IdentPayload.is_clone P.IdentAssignPayload.is_clone P.DefPayload.is_clone P.TypeExprPayload.is_clone)
        (expression_of x.0) (expression_of y.0) × ClonesExpression
        (cloning P.LoadPayload.is_clone P.IdentPayload.is_clone P.IdentAssignPayload.is_clone P.DefPayload.is_clone P.TypeExprPayload.is_clone)
        (expression_of x.1) (expression_of y.1)) items.now.items copies.items) }
{
    let mut copies = empty_like(items)?;
    for item in items {
        let key = clone_expr(&item.0.node);
        let value = clone_expr(&item.1.node);
        copies = push_pair(copies, key, value, item)?;
    }
    Ok(copies)
}

#[cycle(copy)]
#[inline(never)]
pub(super) fn clone_maybe<P: AstPayload>(
    expr: &Option<Box<AstExprP<P>>>,
) -> Cloned<Option<Box<AstExprP<P>>>>
    ensures { IfOk result (λ copy. ClonesMaybe
        (cloning P.LoadPayload.is_clone P.IdentPayload.is_clone P.IdentAssignPayload.is_clone P.DefPayload.is_clone P.TypeExprPayload.is_clone)
        (maybe_of expr.now) (maybe_of copy)) }
{
    match expr {
        Some(expr) => made_of!(boxed_like(clone_expr(&expr.node), expr), Some),
        None => Ok(None),
    }
}

#[cycle(copy)]
#[inline(never)]
pub(super) fn clone_type<P: AstPayload>(ty: &TypeExprP<P>) -> Cloned<TypeExprP<P>>
    ensures expr { IfOk result (λ copy. ClonesExpression
        (cloning P.LoadPayload.is_clone P.IdentPayload.is_clone P.IdentAssignPayload.is_clone P.DefPayload.is_clone P.TypeExprPayload.is_clone)
        (expression_of ty.now.expr) (expression_of copy.expr)) }
    ensures payload { IfOk result (λ copy. P.TypeExprPayload.is_clone ty.now.payload copy.payload) }
{
    let expr = spanned_like(clone_expr(&ty.expr.node), &ty.expr);
    made_of!(both(expr, ty.payload.clone()), (expr, payload) => TypeExprP { expr, payload })
}

#[cycle(copy)]
#[inline(never)]
pub(super) fn clone_maybe_type<P: AstPayload>(
    ty: &Option<Box<AstTypeExprP<P>>>,
) -> Cloned<Option<Box<AstTypeExprP<P>>>>
    ensures { IfOk result (λ copy. ClonesMaybeType
        (cloning P.LoadPayload.is_clone P.IdentPayload.is_clone P.IdentAssignPayload.is_clone P.DefPayload.is_clone P.TypeExprPayload.is_clone)
        (boxed_type_of ty.now) (boxed_type_of copy)) }
{
    match ty {
        Some(ty) => made_of!(boxed_like(clone_type(&ty.node), ty), Some),
        None => Ok(None),
    }
}

pub(super) fn clone_argument<P: AstPayload>(argument: &ArgumentP<P>) -> Cloned<ArgumentP<P>>
    ensures { IfOk result (λ copy. (at : Place) → ClonesArgument
        (cloning P.LoadPayload.is_clone P.IdentPayload.is_clone P.IdentAssignPayload.is_clone P.DefPayload.is_clone P.TypeExprPayload.is_clone)
        (argument_seen at argument.now) (argument_seen at copy)) }
{
    argument_like(clone_expr(&argument.expr().node), argument)
}

#[cycle(copy)]
#[tactic(auto, using(crate::proofs::Clones::one_more))]
#[inline(never)]
pub(super) fn clone_arguments<P: AstPayload>(
    items: &Vec<AstArgumentP<P>>,
) -> Cloned<Vec<AstArgumentP<P>>>
    ensures { IfOk result (λ copies. AllZip (λ x y. ClonesArgument
        (cloning P.LoadPayload.is_clone P.IdentPayload.is_clone P.IdentAssignPayload.is_clone P.DefPayload.is_clone P.TypeExprPayload.is_clone)
        (argument_of x) (argument_of y)) items.now.items copies.items) }
{
    let mut copies = empty_like(items)?;
    for item in items {
        copies = push_argument(copies, clone_expr(&item.node.expr().node), item)?;
    }
    Ok(copies)
}

#[cycle(copy)]
#[tactic(auto, using(crate::proofs::Clones::clones))]
#[inline(never)]
pub(super) fn clone_parameter<P: AstPayload>(parameter: &ParameterP<P>) -> Cloned<ParameterP<P>>
    ensures { IfOk result (λ copy. (at : Place) → ClonesParameter
        (cloning P.LoadPayload.is_clone P.IdentPayload.is_clone P.IdentAssignPayload.is_clone P.DefPayload.is_clone P.TypeExprPayload.is_clone)
        (parameter_seen at parameter.now) (parameter_seen at copy)) }
{
    match parameter {
        ParameterP::Slash => Ok(ParameterP::Slash),
        ParameterP::Normal(name, ty, default) => {
            let typed = both(clone_assign_ident(name), clone_maybe_type(ty));
            let parts = both(typed, clone_maybe(default));
            made_of!(parts, ((name, ty), default) => ParameterP::Normal(name, ty, default))
        }
        ParameterP::NoArgs => Ok(ParameterP::NoArgs),
        ParameterP::Args(name, ty) => {
            let parts = both(clone_assign_ident(name), clone_maybe_type(ty));
            made_of!(parts, (name, ty) => ParameterP::Args(name, ty))
        }
        ParameterP::KwArgs(name, ty) => {
            let parts = both(clone_assign_ident(name), clone_maybe_type(ty));
            made_of!(parts, (name, ty) => ParameterP::KwArgs(name, ty))
        }
    }
}

#[cycle(copy)]
#[tactic(auto, using(crate::proofs::Clones::one_more))]
#[inline(never)]
pub(super) fn clone_parameters<P: AstPayload>(
    items: &Vec<AstParameterP<P>>,
) -> Cloned<Vec<AstParameterP<P>>>
    ensures { IfOk result (λ copies. AllZip (λ x y. ClonesParameter
        (cloning P.LoadPayload.is_clone P.IdentPayload.is_clone P.IdentAssignPayload.is_clone P.DefPayload.is_clone P.TypeExprPayload.is_clone)
        (parameter_of x) (parameter_of y)) items.now.items copies.items) }
{
    let mut copies = empty_like(items)?;
    for item in items {
        push_made(&mut copies, spanned_like(clone_parameter(&item.node), item))?;
    }
    Ok(copies)
}

pub(super) fn clone_lambda<P: AstPayload>(lambda: &LambdaP<P>) -> Cloned<LambdaP<P>>
    ensures { IfOk result (λ copy. ClonesShape
        (cloning P.LoadPayload.is_clone P.IdentPayload.is_clone P.IdentAssignPayload.is_clone P.DefPayload.is_clone P.TypeExprPayload.is_clone)
        (shape_seen (ExprP.Lambda lambda.now)) (shape_seen (ExprP.Lambda copy))) }
{
    let params = clone_parameters(&lambda.params);
    lambda_like(params, clone_boxed(&lambda.body), lambda)
}

#[cycle(copy)]
#[inline(never)]
pub(super) fn clone_for<P: AstPayload>(clause: &ForClauseP<P>) -> Cloned<ForClauseP<P>>
    ensures { IfOk result (λ copy. ClonesForIn
        (cloning P.LoadPayload.is_clone P.IdentPayload.is_clone P.IdentAssignPayload.is_clone P.DefPayload.is_clone P.TypeExprPayload.is_clone)
        (for_in_of clause.now) (for_in_of copy)) }
{
    let var = spanned_like(clone_target(&clause.var.node), &clause.var);
    let over = spanned_like(clone_expr(&clause.over.node), &clause.over);
    made_of!(both(var, over), (var, over) => ForClauseP { var, over })
}

#[cycle(copy)]
#[inline(never)]
fn clone_first<P: AstPayload>(clause: &Box<ForClauseP<P>>) -> Cloned<Box<ForClauseP<P>>>
    ensures { IfOk result (λ copy. ClonesForIn
        (cloning P.LoadPayload.is_clone P.IdentPayload.is_clone P.IdentAssignPayload.is_clone P.DefPayload.is_clone P.TypeExprPayload.is_clone)
        (for_in_of clause.now.value) (for_in_of copy.value)) }
{
    held_like(clone_for(clause), clause)
}

#[cycle(copy)]
#[inline(never)]
pub(super) fn clone_clause<P: AstPayload>(clause: &ClauseP<P>) -> Cloned<ClauseP<P>>
    ensures { IfOk result (λ copy. ClonesClause
        (cloning P.LoadPayload.is_clone P.IdentPayload.is_clone P.IdentAssignPayload.is_clone P.DefPayload.is_clone P.TypeExprPayload.is_clone)
        (clause_seen clause.now) (clause_seen copy)) }
{
    match clause {
        ClauseP::For(clause) => made_of!(clone_for(clause), ClauseP::For),
        ClauseP::If(condition) => {
            made_of!(
                spanned_like(clone_expr(&condition.node), condition),
                ClauseP::If
            )
        }
    }
}

#[cycle(copy)]
#[tactic(auto, using(crate::proofs::Clones::one_more))]
#[inline(never)]
fn clone_clauses<P: AstPayload>(items: &Vec<ClauseP<P>>) -> Cloned<Vec<ClauseP<P>>>
    ensures { IfOk result (λ copies. AllZip (λ x y. ClonesClause
        (cloning P.LoadPayload.is_clone P.IdentPayload.is_clone P.IdentAssignPayload.is_clone P.DefPayload.is_clone P.TypeExprPayload.is_clone)
        (clause_seen x) (clause_seen y)) items.now.items copies.items) }
{
    let mut copies = empty_like(items)?;
    for item in items {
        push_made(&mut copies, clone_clause(item))?;
    }
    Ok(copies)
}

#[cycle(copy)]
#[tactic(auto, using(crate::proofs::Clones::clones))]
#[inline(never)]
pub(super) fn clone_target<P: AstPayload>(target: &AssignTargetP<P>) -> Cloned<AssignTargetP<P>>
    ensures { IfOk result (λ copy. (at : Place) → ClonesTarget
        (cloning P.LoadPayload.is_clone P.IdentPayload.is_clone P.IdentAssignPayload.is_clone P.DefPayload.is_clone P.TypeExprPayload.is_clone)
        (target_seen at target.now) (target_seen at copy)) }
{
    match target {
        AssignTargetP::Tuple(items) => made_of!(clone_targets(items), AssignTargetP::Tuple),
        AssignTargetP::Index(parts) => made_of!(clone_pair(parts), AssignTargetP::Index),
        AssignTargetP::Dot(object, name) => {
            let parts = both(clone_boxed(object), clone_text(name));
            made_of!(parts, (object, name) => AssignTargetP::Dot(object, name))
        }
        AssignTargetP::Identifier(name) => {
            made_of!(clone_assign_ident(name), AssignTargetP::Identifier)
        }
    }
}

#[cycle(copy)]
#[tactic(auto, using(crate::proofs::Clones::one_more))]
#[inline(never)]
fn clone_targets<P: AstPayload>(
    items: &Vec<AstAssignTargetP<P>>,
) -> Cloned<Vec<AstAssignTargetP<P>>>
    ensures { IfOk result (λ copies. AllZip (λ x y. ClonesTarget
        (cloning P.LoadPayload.is_clone P.IdentPayload.is_clone P.IdentAssignPayload.is_clone P.DefPayload.is_clone P.TypeExprPayload.is_clone)
        (target_of x) (target_of y)) items.now.items copies.items) }
{
    let mut copies = empty_like(items)?;
    for item in items {
        push_made(&mut copies, spanned_like(clone_target(&item.node), item))?;
    }
    Ok(copies)
}

pub(super) fn clone_format<P: AstPayload>(format: &FStringP<P>) -> Cloned<FStringP<P>>
    ensures format { IfOk result (λ copy. word copy.format ≡ word format.now.format) }
    ensures expressions { IfOk result (λ copy. AllZip (λ x y. ClonesExpression
        (cloning P.LoadPayload.is_clone P.IdentPayload.is_clone P.IdentAssignPayload.is_clone P.DefPayload.is_clone P.TypeExprPayload.is_clone)
        (expression_of x) (expression_of y)) format.now.expressions.items copy.expressions.items) }
{
    let parts = both(clone_text(&format.format), clone_exprs(&format.expressions));
    made_of!(parts, (format, expressions) => FStringP { format, expressions })
}
