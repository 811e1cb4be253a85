//! Clones of the parts that contain no tree.
ghost use Rattle.std.specs.Prelude.{◌≡◌, ◌∷◌, ◌++◌, [], IfOk, Ok, vec_items};
ghost use Rattle.std.specs.Result.{IsOkAnd};
ghost use Rattle.starlark_lexer.specs.Tokens.{span_of};
ghost use Rattle.starlark_tree.specs.Views.{assign_word, ident_word, literal_seen, word};

use crate::ast::{
    AssignIdentP, AstAssignIdentP, AstIdentP, AstLiteral, AstPayload, AstString, IdentP,
};
use starlark_lexer::span::Spanned;
use std::alloc::AllocError;

/// A value, or a failed allocation.
pub(super) type Cloned<T> = Result<T, AllocError>;

/// What is built from a part, if the part was allocated. Like `Result::map`, which does not accept a constructor of a generic type.
macro_rules! made_of {
    ($part:expr, $node:path) => {
        match $part {
            Ok(part) => Ok($node(part)),
            Err(e) => Err(e),
        }
    };
    ($parts:expr, $names:pat => $node:expr) => {
        match $parts {
            Ok($names) => Ok($node),
            Err(e) => Err(e),
        }
    };
}

pub(super) use made_of;

/// The value with the span of the original.
pub(super) fn spanned_like<T>(node: Cloned<T>, original: &Spanned<T>) -> Cloned<Spanned<T>>
    ensures node { IfOk result (λ copy. node ≡ Ok copy.node) }
    ensures span { IfOk result (λ copy. copy.span ≡ original.now.span) }
{
    let span = original.span;
    made_of!(node, node => Spanned { node, span })
}

/// The value in a new box, with the span of the original.
#[inline(never)]
pub(super) fn boxed_like<T: Drop>(
    node: Cloned<T>,
    original: &Box<Spanned<T>>,
) -> Cloned<Box<Spanned<T>>>
    ensures node { IfOk result (λ copy. node ≡ Ok copy.value.node) }
    ensures span { IfOk result (λ copy. copy.value.span ≡ original.now.value.span) }
{
    let copy = spanned_like(node, &**original)?;
    Ok(Box::new(*Box::allocator(original), copy)?)
}

/// The values in a new box, each with the span of the original.
#[inline(never)]
pub(super) fn pair_like<T: Drop, U: Drop>(
    first: Cloned<T>,
    second: Cloned<U>,
    original: &Box<(Spanned<T>, Spanned<U>)>,
) -> Cloned<Box<(Spanned<T>, Spanned<U>)>>
    ensures first { IfOk result (λ copy. first ≡ Ok copy.value.0.node) }
    ensures first_span { IfOk result (λ copy. copy.value.0.span ≡ original.now.value.0.span) }
    ensures second { IfOk result (λ copy. second ≡ Ok copy.value.1.node) }
    ensures second_span { IfOk result (λ copy. copy.value.1.span ≡ original.now.value.1.span) }
{
    let first = spanned_like(first, &original.0)?;
    let second = spanned_like(second, &original.1)?;
    Ok(Box::new(*Box::allocator(original), (first, second))?)
}

/// The values in a new box, each with the span of the original.
#[inline(never)]
pub(super) fn triple_like<T: Drop, U: Drop, V: Drop>(
    first: Cloned<T>,
    second: Cloned<U>,
    third: Cloned<V>,
    original: &Box<(Spanned<T>, Spanned<U>, Spanned<V>)>,
) -> Cloned<Box<(Spanned<T>, Spanned<U>, Spanned<V>)>>
    ensures first { IfOk result (λ copy. first ≡ Ok copy.value.0.node) }
    ensures first_span { IfOk result (λ copy. copy.value.0.span ≡ original.now.value.0.span) }
    ensures second { IfOk result (λ copy. second ≡ Ok copy.value.1.node) }
    ensures second_span { IfOk result (λ copy. copy.value.1.span ≡ original.now.value.1.span) }
    ensures third { IfOk result (λ copy. third ≡ Ok copy.value.2.node) }
    ensures third_span { IfOk result (λ copy. copy.value.2.span ≡ original.now.value.2.span) }
{
    let first = spanned_like(first, &original.0)?;
    let second = spanned_like(second, &original.1)?;
    let third = spanned_like(third, &original.2)?;
    Ok(Box::new(*Box::allocator(original), (first, second, third))?)
}

/// The value in a new box.
#[inline(never)]
pub(super) fn held_like<T: Drop>(value: Cloned<T>, original: &Box<T>) -> Cloned<Box<T>>
    ensures { IfOk result (λ copy. value ≡ Ok copy.value) }
{
    Ok(Box::new(*Box::allocator(original), value?)?)
}

/// An empty list with room for as many values as the original has.
pub(super) fn empty_like<T>(original: &Vec<T>) -> Cloned<Vec<T>>
    ensures { IfOk result (λ copies. copies.items ≡ []) }
{
    Vec::with_capacity(*original.allocator(), original.len())
}

/// Appends the value.
pub(super) fn push_made<T: Drop>(copies: &mut Vec<T>, made: Cloned<T>) -> Cloned<()>
    ensures { IfOk result (λ _. IsOkAnd made (λ copy. copies.new.items ≡ copies.old.items ++ copy ∷ [])) }
{
    Ok(copies.push(made?)?)
}

/// The list with one more value, which has the span of the original.
#[inline(never)]
pub(super) fn push_spanned<T: Drop>(
    mut copies: Vec<Spanned<T>>,
    node: Cloned<T>,
    original: &Spanned<T>,
) -> Cloned<Vec<Spanned<T>>>
    ensures { IfOk result (λ all. IsOkAnd node (λ n. all.items ≡ copies.items ++ record { node = n; span = original.now.span } ∷ [])) }
{
    let node = node?;
    let span = original.span;
    copies.push(Spanned { node, span })?;
    Ok(copies)
}

/// The list with one more pair, of values which have the spans of the original's.
#[inline(never)]
pub(super) fn push_pair<T: Drop, U: Drop>(
    mut copies: Vec<(Spanned<T>, Spanned<U>)>,
    first: Cloned<T>,
    second: Cloned<U>,
    original: &(Spanned<T>, Spanned<U>),
) -> Cloned<Vec<(Spanned<T>, Spanned<U>)>>
    ensures { IfOk result (λ all. IsOkAnd first (λ f. IsOkAnd second (λ s. all.items ≡ copies.items
        ++ (record { node = f; span = original.now.0.span }, record { node = s; span = original.now.1.span }) ∷ []))) }
{
    let first = Spanned {
        node: first?,
        span: original.0.span,
    };
    let second = Spanned {
        node: second?,
        span: original.1.span,
    };
    copies.push((first, second))?;
    Ok(copies)
}

/// Both values, if both were allocated.
pub(super) fn both<T: Drop, U: Drop>(first: Cloned<T>, second: Cloned<U>) -> Cloned<(T, U)>
    ensures first { IfOk result (λ both. first ≡ Ok both.0) }
    ensures second { IfOk result (λ both. second ≡ Ok both.1) }
{
    let first = first?;
    Ok((first, second?))
}

pub(super) fn clone_text(text: &AstString) -> Cloned<AstString>
    ensures { IfOk result (λ copy. word copy ≡ word text.now) }
{
    let node = text.node.clone()?;
    Ok(Spanned {
        node,
        span: text.span,
    })
}

pub(super) fn clone_literal(literal: &AstLiteral) -> Cloned<AstLiteral>
    ensures { IfOk result (λ copy. literal_seen copy ≡ literal_seen literal.now) }
{
    match literal {
        AstLiteral::Int(integer) => {
            let node = integer.node.clone()?;
            let span = integer.span;
            Ok(AstLiteral::Int(Spanned { node, span }))
        }
        AstLiteral::Float(text) => made_of!(clone_text(text), AstLiteral::Float),
        AstLiteral::String(text) => made_of!(clone_text(text), AstLiteral::String),
        AstLiteral::Bytes(bytes) => {
            let node = bytes.node.clone()?;
            let span = bytes.span;
            Ok(AstLiteral::Bytes(Spanned { node, span }))
        }
        AstLiteral::Ellipsis => Ok(AstLiteral::Ellipsis),
    }
}

pub(super) fn clone_ident<P: AstPayload>(name: &AstIdentP<P>) -> Cloned<AstIdentP<P>>
    ensures word { IfOk result (λ copy. ident_word copy ≡ ident_word name.now) }
    ensures payload { IfOk result (λ copy. P.IdentPayload.is_clone name.now.node.payload copy.node.payload) }
{
    let ident = name.node.ident.clone()?;
    let payload = name.node.payload.clone()?;
    let span = name.span;
    Ok(Spanned {
        node: IdentP { ident, payload },
        span,
    })
}

pub(super) fn clone_assign_ident<P: AstPayload>(
    name: &AstAssignIdentP<P>,
) -> Cloned<AstAssignIdentP<P>>
    ensures word { IfOk result (λ copy. assign_word copy ≡ assign_word name.now) }
    ensures payload { IfOk result (λ copy. P.IdentAssignPayload.is_clone name.now.node.payload copy.node.payload) }
{
    let ident = name.node.ident.clone()?;
    let payload = name.node.payload.clone()?;
    let span = name.span;
    Ok(Spanned {
        node: AssignIdentP { ident, payload },
        span,
    })
}
