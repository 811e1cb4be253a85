//! Parts of a tree that were allocated.
ghost use Rattle.std.specs.Prelude.{◌≡◌, ◌∷◌, ◌++◌, [], IfNone, IfOk, IfSome, Ok};
ghost use Rattle.std.specs.Result.{IsOkAnd};
ghost use Rattle.std.specs.Vec.Iter.{into_iter_items};

use starlark_lexer::span::Spanned;
use starlark_tree::discard::{Discard, push};
use std::alloc::{AllocError, Global};
use std::vec;

/// A value, or a failed allocation.
pub type Made<T> = Result<T, AllocError>;

/// The value together with what is kept for later, which is dropped if the value was not allocated.
pub fn zip<T, U: Discard>(made: Made<T>, kept: U) -> Made<(T, U)>
    ensures made { IfOk result (λ both. made ≡ Ok both.0) }
    ensures kept { IfOk result (λ both. both.1 ≡ kept) }
{
    match made {
        Ok(made) => Ok((made, kept)),
        Err(e) => {
            kept.discard();
            Err(e)
        }
    }
}

/// `zip` for a value with its span. From a recursion, a bound on the node takes less of a proof than a bound on what holds it.
pub fn zip_spanned<T, N: Discard>(made: Made<T>, kept: Spanned<N>) -> Made<(T, Spanned<N>)>
    ensures made { IfOk result (λ both. made ≡ Ok both.0) }
    ensures kept { IfOk result (λ both. both.1 ≡ kept) }
{
    zip(made, kept)
}

/// `zip` for two values with their spans.
pub fn zip_pair<T, N: Discard>(
    made: Made<T>,
    kept: (Spanned<N>, Spanned<N>),
) -> Made<(T, (Spanned<N>, Spanned<N>))>
    ensures made { IfOk result (λ both. made ≡ Ok both.0) }
    ensures kept { IfOk result (λ both. both.1 ≡ kept) }
{
    zip(made, kept)
}

/// `zip` for a value in a box.
pub fn zip_boxed<T, N: Discard>(made: Made<T>, kept: Box<Spanned<N>>) -> Made<(T, Box<Spanned<N>>)>
    ensures made { IfOk result (λ both. made ≡ Ok both.0) }
    ensures kept { IfOk result (λ both. both.1 ≡ kept) }
{
    zip(made, kept)
}

/// `zip` for a value in a box, if there is one.
pub fn zip_maybe<T, N: Discard>(
    made: Made<T>,
    kept: Option<Box<Spanned<N>>>,
) -> Made<(T, Option<Box<Spanned<N>>>)>
    ensures made { IfOk result (λ both. made ≡ Ok both.0) }
    ensures kept { IfOk result (λ both. both.1 ≡ kept) }
{
    zip(made, kept)
}

/// A list that is mapped item by item: the items that are left, and what the others were mapped to. It is passed on or discarded, never
/// dropped.
pub struct Mapping<X, Y> {
    pub rest: vec::IntoIter<X>,
    pub mapped: Vec<Y>,
}

impl<X: Discard, Y> Mapping<X, Y> {
    /// All items are left, and there is room for what each is mapped to.
    pub fn begin(alloc: Global, items: Vec<X>) -> Made<Mapping<X, Y>>
        ensures rest { IfOk result (λ it. into_iter_items it.rest ≡ items.items) }
        ensures mapped { IfOk result (λ it. it.mapped.items ≡ []) }
    {
        match zip(Vec::with_capacity(alloc, items.len()), items) {
            Ok((mapped, items)) => {
                let rest = items.into_iter();
                Ok(Mapping { rest, mapped })
            }
            Err(e) => Err(e),
        }
    }
}

impl<X: Discard, Y: Discard> Mapping<X, Y> {
    /// Appends what an item was mapped to. If that was not allocated, or there is no memory for it, all is discarded.
    pub fn push(self, made: Made<Y>) -> Made<Mapping<X, Y>>
        ensures mapped { IfOk result (λ it. IsOkAnd made (λ item. it.mapped.items ≡ self.mapped.items ++ item ∷ [])) }
        ensures rest { IfOk result (λ it. it.rest ≡ self.rest) }
    {
        let Mapping { rest, mut mapped } = self;
        let pushed = match made {
            Ok(item) => push(&mut mapped, item),
            Err(e) => Err(e),
        };
        match pushed {
            Ok(()) => Ok(Mapping { rest, mapped }),
            Err(e) => {
                rest.discard();
                mapped.discard();
                Err(e)
            }
        }
    }
}

impl<M: Discard, Y> Mapping<Spanned<M>, Y> {
    /// `begin` for values with their spans.
    pub fn begin_spanned(alloc: Global, items: Vec<Spanned<M>>) -> Made<Mapping<Spanned<M>, Y>>
        ensures rest { IfOk result (λ it. into_iter_items it.rest ≡ items.items) }
        ensures mapped { IfOk result (λ it. it.mapped.items ≡ []) }
    {
        Mapping::begin(alloc, items)
    }
}

impl<M: Discard, N: Discard> Mapping<Spanned<M>, Spanned<N>> {
    /// `push` for a value with its span.
    pub fn push_spanned(self, made: Made<Spanned<N>>) -> Made<Mapping<Spanned<M>, Spanned<N>>>
        ensures mapped { IfOk result (λ it. IsOkAnd made (λ item. it.mapped.items ≡ self.mapped.items ++ item ∷ [])) }
        ensures rest { IfOk result (λ it. it.rest ≡ self.rest) }
    {
        self.push(made)
    }
}

impl<M: Discard, Y> Mapping<(Spanned<M>, Spanned<M>), Y> {
    /// `begin` for pairs of values with their spans.
    pub fn begin_pairs(
        alloc: Global,
        items: Vec<(Spanned<M>, Spanned<M>)>,
    ) -> Made<Mapping<(Spanned<M>, Spanned<M>), Y>>
        ensures rest { IfOk result (λ it. into_iter_items it.rest ≡ items.items) }
        ensures mapped { IfOk result (λ it. it.mapped.items ≡ []) }
    {
        Mapping::begin(alloc, items)
    }
}

impl<M: Discard, N: Discard> Mapping<(Spanned<M>, Spanned<M>), (Spanned<N>, Spanned<N>)> {
    /// `push` for a pair of values with their spans.
    pub fn push_pair(
        self,
        made: Made<(Spanned<N>, Spanned<N>)>,
    ) -> Made<Mapping<(Spanned<M>, Spanned<M>), (Spanned<N>, Spanned<N>)>>
        ensures mapped { IfOk result (λ it. IsOkAnd made (λ item. it.mapped.items ≡ self.mapped.items ++ item ∷ [])) }
        ensures rest { IfOk result (λ it. it.rest ≡ self.rest) }
    {
        self.push(made)
    }
}

impl<X, Y> Mapping<X, Y> {
    /// Takes the next item.
    pub fn next(&mut self) -> Option<X>
        ensures some { IfSome result (λ item. into_iter_items self.old.rest ≡ item ∷ into_iter_items self.new.rest) }
        ensures none { IfNone result (into_iter_items self.new.rest ≡ []) }
        ensures all { IfNone result (into_iter_items self.old.rest ≡ []) }
        ensures mapped { self.new.mapped ≡ self.old.mapped }
    {
        self.rest.next()
    }

    /// What all items were mapped to.
    pub fn finish(self) -> Vec<Y>
        requires { into_iter_items self.rest ≡ [] }
        ensures { result ≡ self.mapped }
    {
        let Mapping { rest, mapped } = self;
        rest.destroy_empty();
        mapped
    }
}
