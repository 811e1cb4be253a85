//! What is built from parts that were allocated.
ghost use Rattle.std.specs.Prelude.{◌≡◌, IfOk, Ok};

use crate::function::made::Made;
use starlark_lexer::span::{Span, Spanned};
use starlark_tree::discard::{Discard, boxed};
use std::alloc::Global;

/// The value with its span.
pub(super) fn spanned<T>(node: Made<T>, span: Span) -> Made<Spanned<T>>
    ensures node { IfOk result (λ made. node ≡ Ok made.node) }
    ensures span { IfOk result (λ made. made.span ≡ span) }
{
    match node {
        Ok(node) => Ok(Spanned { node, span }),
        Err(e) => Err(e),
    }
}

/// The value in a box. It is dropped if memory cannot be allocated.
pub(super) fn held<T: Discard>(alloc: Global, value: Made<T>) -> Made<Box<T>>
    ensures { IfOk result (λ made. value ≡ Ok made.value) }
{
    boxed(alloc, value?)
}

/// The value with its span, in a box.
pub(super) fn spanned_in_box<T: Discard>(
    alloc: Global,
    node: Made<T>,
    span: Span,
) -> Made<Box<Spanned<T>>>
    ensures node { IfOk result (λ made. node ≡ Ok made.value.node) }
    ensures span { IfOk result (λ made. made.value.span ≡ span) }
{
    held(alloc, spanned(node, span))
}

/// Two values with their spans, in a box.
pub(super) fn pair_in_box<N: Discard>(
    alloc: Global,
    pair: Made<(Spanned<N>, Spanned<N>)>,
) -> Made<Box<(Spanned<N>, Spanned<N>)>>
    ensures { IfOk result (λ made. pair ≡ Ok made.value) }
{
    held(alloc, pair)
}

/// Three values with their spans, in a box.
pub(super) fn triple_in_box<N: Discard>(
    alloc: Global,
    triple: Made<(Spanned<N>, Spanned<N>, Spanned<N>)>,
) -> Made<Box<(Spanned<N>, Spanned<N>, Spanned<N>)>>
    ensures { IfOk result (λ made. triple ≡ Ok made.value) }
{
    held(alloc, triple)
}

/// What is built from a part, if the part was allocated. Like `Result::map`, which does not accept a constructor of a generic type.
macro_rules! made_of {
    ($part:expr, $node:path) => {
        match $part {
            Ok(part) => Ok($node(part)),
            Err(e) => Err(e),
        }
    };
    ($parts:expr, $names:pat => $node:expr) => {
        match $parts {
            Ok($names) => Ok($node),
            Err(e) => Err(e),
        }
    };
}

pub(super) use made_of;
