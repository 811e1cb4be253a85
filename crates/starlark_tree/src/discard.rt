//! Parts of a tree that are dropped by a call, as what is kept while something else may fail to be allocated.
//!
//! A tree is dropped by `drop` too. But then the drops of all types of the tree are proved again in each crate that does so; a call of
//! [`Discard::discard`] is proved by its contract.
ghost use Rattle.std.specs.Prelude.{◌≡◌, ◌∷◌, ◌++◌, [], IfOk, OnErr, OnOk};

use crate::ast::{
    ArgumentP, AssignTargetP, AstPayload, CallArgsP, ClauseP, ExprP, ForClauseP, LoadArgP,
    ParameterP, StmtP, TypeExprP,
};
use starlark_lexer::span::Spanned;
use std::alloc::{AllocError, Global};
use std::vec;

/// A value that is dropped by a call.
pub trait Discard {
    /// Drops the value.
    fn discard(self);
}

/// The value in memory of its own. It is dropped if that cannot be allocated.
pub fn boxed<T: Discard>(alloc: Global, value: T) -> Result<Box<T>, AllocError>
    ensures { IfOk result (λ made. made.value ≡ value) }
{
    match Box::new(alloc, value) {
        Ok(made) => Ok(made),
        Err(refused) => {
            refused.value.discard();
            Err(AllocError)
        }
    }
}

/// Appends the value. It is dropped if memory for it cannot be allocated.
pub fn push<T: Discard>(items: &mut Vec<T>, value: T) -> Result<(), AllocError>
    ensures pushed { OnOk result (items.new.items ≡ items.old.items ++ value ∷ []) }
    ensures unchanged { OnErr result (items.new.items ≡ items.old.items) }
{
    match items.push(value) {
        Ok(()) => Ok(()),
        Err(refused) => {
            refused.value.discard();
            Err(AllocError)
        }
    }
}

impl<P: AstPayload> Discard for ExprP<P> {
    #[inline(never)]
    fn discard(self) {
        drop(self);
    }
}

impl<P: AstPayload> Discard for StmtP<P> {
    #[inline(never)]
    fn discard(self) {
        drop(self);
    }
}

impl<P: AstPayload> Discard for TypeExprP<P> {
    fn discard(self) {
        let TypeExprP { expr, payload } = self;
        expr.discard();
        drop(payload);
    }
}

impl<P: AstPayload> Discard for ArgumentP<P> {
    fn discard(self) {
        match self {
            ArgumentP::Positional(value) => value.discard(),
            ArgumentP::Named(_name, value) => value.discard(),
            ArgumentP::Args(value) => value.discard(),
            ArgumentP::KwArgs(value) => value.discard(),
        }
    }
}

impl<P: AstPayload> Discard for CallArgsP<P> {
    fn discard(self) {
        let CallArgsP { args } = self;
        args.discard();
    }
}

impl<P: AstPayload> Discard for ParameterP<P> {
    fn discard(self) {
        match self {
            ParameterP::Slash | ParameterP::NoArgs => {}
            ParameterP::Normal(_name, ty, default) => {
                ty.discard();
                default.discard();
            }
            ParameterP::Args(_name, ty) => ty.discard(),
            ParameterP::KwArgs(_name, ty) => ty.discard(),
        }
    }
}

impl<P: AstPayload> Discard for AssignTargetP<P> {
    #[inline(never)]
    fn discard(self) {
        drop(self);
    }
}

impl<P: AstPayload> Discard for ForClauseP<P> {
    fn discard(self) {
        let ForClauseP { var, over } = self;
        var.discard();
        over.discard();
    }
}

impl<P: AstPayload> Discard for ClauseP<P> {
    fn discard(self) {
        match self {
            ClauseP::For(clause) => clause.discard(),
            ClauseP::If(condition) => condition.discard(),
        }
    }
}

impl<P: AstPayload> Discard for LoadArgP<P> {
    fn discard(self) {
        drop(self);
    }
}

impl<T: Discard> Discard for Spanned<T> {
    fn discard(self) {
        let Spanned { node, span: _ } = self;
        node.discard();
    }
}

impl<T: Discard> Discard for Box<T> {
    fn discard(self) {
        Box::into_inner(self).discard();
    }
}

impl<T: Discard> Discard for Option<T> {
    fn discard(self) {
        if let Some(value) = self {
            value.discard();
        }
    }
}

impl<T: Discard> Discard for Vec<T> {
    fn discard(self) {
        self.into_iter().discard();
    }
}

impl<T: Discard> Discard for vec::IntoIter<T> {
    fn discard(self) {
        let mut items = self;
        while let Some(item) = items.next() {
            item.discard();
        }
        items.destroy_empty();
    }
}

impl<T: Discard, U: Discard> Discard for (T, U) {
    fn discard(self) {
        let (first, second) = self;
        first.discard();
        second.discard();
    }
}

impl<T: Discard, U: Discard, V: Discard> Discard for (T, U, V) {
    fn discard(self) {
        let (first, second, third) = self;
        first.discard();
        second.discard();
        third.discard();
    }
}
