//! Expressions and arguments built from cloned parts, if every part was allocated. They are not inlined, so that what they need is on the
//! stack only while nothing is being cloned below them.
ghost use Rattle.std.specs.Prelude.{◌≡◌, ◌∷◌, ◌++◌, [], IfOk};
ghost use Rattle.std.specs.Result.{IsOkAnd};
ghost use Rattle.std.specs.List.{AllZip};
ghost use Rattle.starlark_lexer.specs.Tokens.{Span as Place};
ghost use Rattle.starlark_tree.specs.Ast.{Constant, Dot};
ghost use Rattle.starlark_tree.specs.Clones.{ClonesArgument, ClonesExpression, ClonesParameter, ClonesShape, cloning};
ghost use Rattle.starlark_tree.specs.Parts.{argument_expression};
ghost use Rattle.starlark_tree.specs.Views.{argument_of, argument_seen, expression_of, literal_seen, parameter_of, shape_seen, word};
ghost use Rattle.starlark_tree.specs.declared.ast.ExprP;

use crate::ast::{
    ArgumentP, AstArgumentP, AstExprP, AstFStringP, AstIdentP, AstLiteral, AstParameterP,
    AstPayload, AstString, BinOp, CallArgsP, ClauseP, ExprP, FStringP, ForClauseP, LambdaP,
};
use crate::clone::leaf::{
    Cloned, both, clone_ident, clone_literal, clone_text, made_of, push_spanned, spanned_like,
};
use starlark_lexer::span::Spanned;

#[inline(never)]
pub(super) fn tuple<P: AstPayload>(items: Cloned<Vec<AstExprP<P>>>) -> Cloned<ExprP<P>>
    ensures { IfOk result (λ made. IsOkAnd items (λ x. made ≡ ExprP.Tuple x)) }
{
    made_of!(items, ExprP::Tuple)
}

#[inline(never)]
pub(super) fn list<P: AstPayload>(items: Cloned<Vec<AstExprP<P>>>) -> Cloned<ExprP<P>>
    ensures { IfOk result (λ made. IsOkAnd items (λ x. made ≡ ExprP.List x)) }
{
    made_of!(items, ExprP::List)
}

#[inline(never)]
pub(super) fn dict<P: AstPayload>(
    pairs: Cloned<Vec<(AstExprP<P>, AstExprP<P>)>>,
) -> Cloned<ExprP<P>>
    ensures { IfOk result (λ made. IsOkAnd pairs (λ x. made ≡ ExprP.Dict x)) }
{
    made_of!(pairs, ExprP::Dict)
}

#[inline(never)]
pub(super) fn index<P: AstPayload>(
    parts: Cloned<Box<(AstExprP<P>, AstExprP<P>)>>,
) -> Cloned<ExprP<P>>
    ensures { IfOk result (λ made. IsOkAnd parts (λ x. made ≡ ExprP.Index x)) }
{
    made_of!(parts, ExprP::Index)
}

#[inline(never)]
pub(super) fn index2<P: AstPayload>(
    parts: Cloned<Box<(AstExprP<P>, AstExprP<P>, AstExprP<P>)>>,
) -> Cloned<ExprP<P>>
    ensures { IfOk result (λ made. IsOkAnd parts (λ x. made ≡ ExprP.Index2 x)) }
{
    made_of!(parts, ExprP::Index2)
}

#[inline(never)]
pub(super) fn conditional<P: AstPayload>(
    parts: Cloned<Box<(AstExprP<P>, AstExprP<P>, AstExprP<P>)>>,
) -> Cloned<ExprP<P>>
    ensures { IfOk result (λ made. IsOkAnd parts (λ x. made ≡ ExprP.If x)) }
{
    made_of!(parts, ExprP::If)
}

#[inline(never)]
pub(super) fn not<P: AstPayload>(operand: Cloned<Box<AstExprP<P>>>) -> Cloned<ExprP<P>>
    ensures { IfOk result (λ made. IsOkAnd operand (λ x. made ≡ ExprP.Not x)) }
{
    made_of!(operand, ExprP::Not)
}

#[inline(never)]
pub(super) fn minus<P: AstPayload>(operand: Cloned<Box<AstExprP<P>>>) -> Cloned<ExprP<P>>
    ensures { IfOk result (λ made. IsOkAnd operand (λ x. made ≡ ExprP.Minus x)) }
{
    made_of!(operand, ExprP::Minus)
}

#[inline(never)]
pub(super) fn plus<P: AstPayload>(operand: Cloned<Box<AstExprP<P>>>) -> Cloned<ExprP<P>>
    ensures { IfOk result (λ made. IsOkAnd operand (λ x. made ≡ ExprP.Plus x)) }
{
    made_of!(operand, ExprP::Plus)
}

#[inline(never)]
pub(super) fn bit_not<P: AstPayload>(operand: Cloned<Box<AstExprP<P>>>) -> Cloned<ExprP<P>>
    ensures { IfOk result (λ made. IsOkAnd operand (λ x. made ≡ ExprP.BitNot x)) }
{
    made_of!(operand, ExprP::BitNot)
}

/// The lambda with other parameters and another body; a clone if they are clones.
pub(super) fn lambda_like<P: AstPayload>(
    params: Cloned<Vec<AstParameterP<P>>>,
    body: Cloned<Box<AstExprP<P>>>,
    original: &LambdaP<P>,
) -> Cloned<LambdaP<P>>
    ensures { IfOk result (λ copy. IsOkAnd params (λ ps. IsOkAnd body (λ b. AllZip (λ x y. ClonesParameter
        (cloning P.LoadPayload.is_clone P.IdentPayload.is_clone P.IdentAssignPayload.is_clone P.DefPayload.is_clone P.TypeExprPayload.is_clone)
        (parameter_of x) (parameter_of y)) original.now.params.items ps.items → ClonesExpression
        (cloning P.LoadPayload.is_clone P.IdentPayload.is_clone P.IdentAssignPayload.is_clone P.DefPayload.is_clone P.TypeExprPayload.is_clone)
        (expression_of original.now.body.value) (expression_of b.value) → ClonesShape
        (cloning P.LoadPayload.is_clone P.IdentPayload.is_clone P.IdentAssignPayload.is_clone P.DefPayload.is_clone P.TypeExprPayload.is_clone)
        (shape_seen (ExprP.Lambda original.now)) (shape_seen (ExprP.Lambda copy))))) }
{
    let parts = both(both(params, body), original.payload.clone());
    made_of!(parts, ((params, body), payload) => LambdaP { params, body, payload })
}

/// The same as an expression.
#[inline(never)]
pub(super) fn lambda<P: AstPayload>(
    params: Cloned<Vec<AstParameterP<P>>>,
    body: Cloned<Box<AstExprP<P>>>,
    original: &LambdaP<P>,
) -> Cloned<ExprP<P>>
    ensures { IfOk result (λ copy. IsOkAnd params (λ ps. IsOkAnd body (λ b. AllZip (λ x y. ClonesParameter
        (cloning P.LoadPayload.is_clone P.IdentPayload.is_clone P.IdentAssignPayload.is_clone P.DefPayload.is_clone P.TypeExprPayload.is_clone)
        (parameter_of x) (parameter_of y)) original.now.params.items ps.items → ClonesExpression
        (cloning P.LoadPayload.is_clone P.IdentPayload.is_clone P.IdentAssignPayload.is_clone P.DefPayload.is_clone P.TypeExprPayload.is_clone)
        (expression_of original.now.body.value) (expression_of b.value) → ClonesShape
        (cloning P.LoadPayload.is_clone P.IdentPayload.is_clone P.IdentAssignPayload.is_clone P.DefPayload.is_clone P.TypeExprPayload.is_clone)
        (shape_seen (ExprP.Lambda original.now)) (shape_seen copy)))) }
{
    made_of!(lambda_like(params, body, original), ExprP::Lambda)
}

#[inline(never)]
pub(super) fn attribute<P: AstPayload>(
    object: Cloned<Box<AstExprP<P>>>,
    name: &AstString,
) -> Cloned<ExprP<P>>
    ensures { IfOk result (λ copy. IsOkAnd object (λ o. (e : _) → ClonesExpression
        (cloning P.LoadPayload.is_clone P.IdentPayload.is_clone P.IdentAssignPayload.is_clone P.DefPayload.is_clone P.TypeExprPayload.is_clone)
        e (expression_of o.value) → ClonesShape
        (cloning P.LoadPayload.is_clone P.IdentPayload.is_clone P.IdentAssignPayload.is_clone P.DefPayload.is_clone P.TypeExprPayload.is_clone)
        (Dot e (word name.now)) (shape_seen copy))) }
{
    made_of!(both(object, clone_text(name)), (object, name) => ExprP::Dot(object, name))
}

#[inline(never)]
pub(super) fn call<P: AstPayload>(
    callee: Cloned<Box<AstExprP<P>>>,
    args: Cloned<Vec<AstArgumentP<P>>>,
) -> Cloned<ExprP<P>>
    ensures { IfOk result (λ made. IsOkAnd callee (λ c. IsOkAnd args (λ xs. made ≡ ExprP.Call c (record { args = xs })))) }
{
    made_of!(both(callee, args), (callee, args) => ExprP::Call(callee, CallArgsP { args }))
}

#[inline(never)]
pub(super) fn slice<P: AstPayload>(
    array: Cloned<Box<AstExprP<P>>>,
    start: Cloned<Option<Box<AstExprP<P>>>>,
    stop: Cloned<Option<Box<AstExprP<P>>>>,
    step: Cloned<Option<Box<AstExprP<P>>>>,
) -> Cloned<ExprP<P>>
    ensures { IfOk result (λ made. IsOkAnd array (λ a. IsOkAnd start (λ i. IsOkAnd stop (λ j. IsOkAnd step (λ k. made ≡ ExprP.Slice a i j k))))) }
{
    made_of!(both(both(array, start), both(stop, step)), ((array, start), (stop, step)) => ExprP::Slice(array, start, stop, step))
}

#[inline(never)]
pub(super) fn operation<P: AstPayload>(
    left: Cloned<Box<AstExprP<P>>>,
    operator: BinOp,
    right: Cloned<Box<AstExprP<P>>>,
) -> Cloned<ExprP<P>>
    ensures { IfOk result (λ made. IsOkAnd left (λ l. IsOkAnd right (λ r. made ≡ ExprP.Op l operator r))) }
{
    made_of!(both(left, right), (left, right) => ExprP::Op(left, operator, right))
}

#[inline(never)]
pub(super) fn list_comprehension<P: AstPayload>(
    value: Cloned<Box<AstExprP<P>>>,
    first: Cloned<Box<ForClauseP<P>>>,
    clauses: Cloned<Vec<ClauseP<P>>>,
) -> Cloned<ExprP<P>>
    ensures { IfOk result (λ made. IsOkAnd value (λ v. IsOkAnd first (λ f. IsOkAnd clauses (λ cs. made ≡ ExprP.ListComprehension v f cs)))) }
{
    made_of!(both(both(value, first), clauses), ((value, first), clauses) => ExprP::ListComprehension(value, first, clauses))
}

#[inline(never)]
pub(super) fn dict_comprehension<P: AstPayload>(
    pair: Cloned<Box<(AstExprP<P>, AstExprP<P>)>>,
    first: Cloned<Box<ForClauseP<P>>>,
    clauses: Cloned<Vec<ClauseP<P>>>,
) -> Cloned<ExprP<P>>
    ensures { IfOk result (λ made. IsOkAnd pair (λ p. IsOkAnd first (λ f. IsOkAnd clauses (λ cs. made ≡ ExprP.DictComprehension p f cs)))) }
{
    made_of!(both(both(pair, first), clauses), ((pair, first), clauses) => ExprP::DictComprehension(pair, first, clauses))
}

/// The f-string with other expressions; a clone if they are clones.
#[inline(never)]
pub(super) fn fstring<P: AstPayload>(
    expressions: Cloned<Vec<AstExprP<P>>>,
    original: &AstFStringP<P>,
) -> Cloned<ExprP<P>>
    ensures { IfOk result (λ copy. IsOkAnd expressions (λ es. AllZip (λ x y. ClonesExpression
        (cloning P.LoadPayload.is_clone P.IdentPayload.is_clone P.IdentAssignPayload.is_clone P.DefPayload.is_clone P.TypeExprPayload.is_clone)
        (expression_of x) (expression_of y)) original.now.node.expressions.items es.items → ClonesShape
        (cloning P.LoadPayload.is_clone P.IdentPayload.is_clone P.IdentAssignPayload.is_clone P.DefPayload.is_clone P.TypeExprPayload.is_clone)
        (shape_seen (ExprP.FString original.now)) (shape_seen copy))) }
{
    let span = original.span;
    let parts = both(clone_text(&original.node.format), expressions);
    made_of!(parts, (format, expressions) => {
        let node = FStringP { format, expressions };
        ExprP::FString(Spanned { node, span })
    })
}

#[inline(never)]
pub(super) fn clone_name<P: AstPayload>(name: &AstIdentP<P>) -> Cloned<ExprP<P>>
    ensures { IfOk result (λ copy. ClonesShape
        (cloning P.LoadPayload.is_clone P.IdentPayload.is_clone P.IdentAssignPayload.is_clone P.DefPayload.is_clone P.TypeExprPayload.is_clone)
        (shape_seen (ExprP.Identifier name.now)) (shape_seen copy)) }
{
    made_of!(clone_ident(name), ExprP::Identifier)
}

#[inline(never)]
pub(super) fn clone_constant<P: AstPayload>(literal: &AstLiteral) -> Cloned<ExprP<P>>
    ensures { IfOk result (λ copy. shape_seen copy ≡ Constant (literal_seen literal.now)) }
{
    made_of!(clone_literal(literal), ExprP::Literal)
}

/// The argument with another value; a clone if the value is one.
pub(super) fn argument_like<P: AstPayload>(
    value: Cloned<ExprP<P>>,
    original: &ArgumentP<P>,
) -> Cloned<ArgumentP<P>>
    ensures { IfOk result (λ copy. IsOkAnd value (λ v. ClonesShape
        (cloning P.LoadPayload.is_clone P.IdentPayload.is_clone P.IdentAssignPayload.is_clone P.DefPayload.is_clone P.TypeExprPayload.is_clone)
        (shape_seen (argument_expression original.now).node) (shape_seen v) → (at : Place) → ClonesArgument
        (cloning P.LoadPayload.is_clone P.IdentPayload.is_clone P.IdentAssignPayload.is_clone P.DefPayload.is_clone P.TypeExprPayload.is_clone)
        (argument_seen at original.now) (argument_seen at copy))) }
{
    match original {
        ArgumentP::Positional(part) => made_of!(spanned_like(value, part), ArgumentP::Positional),
        ArgumentP::Named(name, part) => {
            let parts = both(clone_text(name), spanned_like(value, part));
            made_of!(parts, (name, value) => ArgumentP::Named(name, value))
        }
        ArgumentP::Args(part) => made_of!(spanned_like(value, part), ArgumentP::Args),
        ArgumentP::KwArgs(part) => made_of!(spanned_like(value, part), ArgumentP::KwArgs),
    }
}

/// The list with one more argument, the original with another value; a clone if the value is one.
#[inline(never)]
pub(super) fn push_argument<P: AstPayload>(
    copies: Vec<AstArgumentP<P>>,
    value: Cloned<ExprP<P>>,
    original: &AstArgumentP<P>,
) -> Cloned<Vec<AstArgumentP<P>>>
    ensures { IfOk result (λ all. IsOkAnd value (λ v. ClonesShape
        (cloning P.LoadPayload.is_clone P.IdentPayload.is_clone P.IdentAssignPayload.is_clone P.DefPayload.is_clone P.TypeExprPayload.is_clone)
        (shape_seen (argument_expression original.now.node).node) (shape_seen v) → (xs : _) → AllZip (λ x y. ClonesArgument
        (cloning P.LoadPayload.is_clone P.IdentPayload.is_clone P.IdentAssignPayload.is_clone P.DefPayload.is_clone P.TypeExprPayload.is_clone)
        (argument_of x) (argument_of y)) xs copies.items → AllZip (λ x y. ClonesArgument
        (cloning P.LoadPayload.is_clone P.IdentPayload.is_clone P.IdentAssignPayload.is_clone P.DefPayload.is_clone P.TypeExprPayload.is_clone)
        (argument_of x) (argument_of y)) (xs ++ original.now ∷ []) all.items)) }
{
    push_spanned(copies, argument_like(value, &original.node), original)
}
