//! Arguments and entries that are kept in memory while parsing.
ghost use Rattle.std.specs.Prelude.{◌≡◌, ◌≤◌, ◌++◌, ◌∷◌, [], OnOk};
ghost use Rattle.starlark_lexer.specs.Tokens.{from_to};
ghost use Rattle.starlark_tree.specs.Ast.{Positional, Named, Star, StarStar};
ghost use Rattle.starlark_tree.specs.Views.{word, argument_seen};
ghost use Rattle.starlark_parse_held.specs.Held.{argument_of, arguments_in, entries_in, expression_of, unboxed_of};

use crate::exact::exact;
use crate::expression::{HeldExpr, HeldTree};
use starlark_lexer::span::{Pos, Span, Spanned};
use starlark_tree::ast::{Argument, ArgumentP, AstArgument, AstExpr, AstString};
use starlark_tree::discard::Discard;
use std::alloc::{AllocError, Global};

/// An argument of a call.
pub struct HeldArgument {
    pub tree: AstArgument,
}

impl Drop for HeldArgument {
    #[inline(never)]
    fn drop(self) {
        let HeldArgument { tree } = self;
        tree.discard();
    }
}

impl HeldArgument {
    /// The argument, no longer held.
    pub fn into_tree(self) -> AstArgument
        ensures { result ≡ self.tree }
    {
        let HeldArgument { tree } = self;
        tree
    }
}

/// What is passed in a call, from `begin` to `end`.
fn passed(node: Argument, begin: Pos, end: Pos) -> HeldArgument
    requires { begin.byte ≤ end.byte }
    ensures { argument_of result ≡ argument_seen (from_to begin.byte end.byte) node }
{
    HeldArgument {
        tree: Spanned {
            node,
            span: Span::new(begin, end),
        },
    }
}

/// Arguments of a call.
pub struct HeldArguments {
    pub trees: Vec<AstArgument>,
}

impl Drop for HeldArguments {
    #[inline(never)]
    fn drop(self) {
        let HeldArguments { trees } = self;
        trees.discard();
    }
}

impl HeldArguments {
    /// No arguments, in memory of `alloc`.
    pub fn new(alloc: Global) -> HeldArguments
        ensures { arguments_in result ≡ [] }
    {
        HeldArguments {
            trees: Vec::new(alloc),
        }
    }

    /// Appends an argument, or drops it if memory cannot be allocated.
    #[inline(never)]
    pub fn push(&mut self, item: HeldArgument) -> Result<(), AllocError>
        ensures { OnOk result (arguments_in self.new ≡ arguments_in self.old ++ argument_of item ∷ []) }
    {
        self.trees.reserve(1)?;
        self.trees.push_reserved(item.into_tree());
        Ok(())
    }

    /// Adds an argument that is passed by position.
    #[inline(never)]
    pub fn push_positional(
        &mut self,
        value: HeldExpr,
        begin: Pos,
        end: Pos,
    ) -> Result<(), AllocError>
        requires { begin.byte ≤ end.byte }
        ensures { OnOk result (arguments_in self.new ≡ arguments_in self.old ++ Positional (from_to begin.byte end.byte) (expression_of value) ∷ []) }
    {
        self.push(passed(ArgumentP::Positional(value.into_tree()), begin, end))
    }

    /// Adds an argument that is passed by name.
    #[inline(never)]
    pub fn push_named(
        &mut self,
        name: AstString,
        value: HeldExpr,
        begin: Pos,
        end: Pos,
    ) -> Result<(), AllocError>
        requires { begin.byte ≤ end.byte }
        ensures { OnOk result (arguments_in self.new ≡ arguments_in self.old ++ Named (from_to begin.byte end.byte) (word name) (expression_of value) ∷ []) }
    {
        self.push(passed(ArgumentP::Named(name, value.into_tree()), begin, end))
    }

    /// Adds an argument that is passed by position, whose value is given by value.
    #[inline(always)]
    pub fn push_positional_tree(
        &mut self,
        value: HeldTree,
        begin: Pos,
        end: Pos,
    ) -> Result<(), AllocError>
        requires { begin.byte ≤ end.byte }
        ensures { OnOk result (arguments_in self.new ≡ arguments_in self.old ++ Positional (from_to begin.byte end.byte) (unboxed_of value) ∷ []) }
    {
        self.trees.reserve(1)?;
        self.trees.push_reserved(Spanned {
            node: ArgumentP::Positional(value.into_tree()),
            span: Span::new(begin, end),
        });
        Ok(())
    }

    /// Adds an argument that is passed by name, whose value is given by value.
    #[inline(always)]
    pub fn push_named_tree(
        &mut self,
        name: AstString,
        value: HeldTree,
        begin: Pos,
        end: Pos,
    ) -> Result<(), AllocError>
        requires { begin.byte ≤ end.byte }
        ensures { OnOk result (arguments_in self.new ≡ arguments_in self.old ++ Named (from_to begin.byte end.byte) (word name) (unboxed_of value) ∷ []) }
    {
        self.trees.reserve(1)?;
        self.trees.push_reserved(Spanned {
            node: ArgumentP::Named(name, value.into_tree()),
            span: Span::new(begin, end),
        });
        Ok(())
    }

    /// Adds `*value`.
    #[inline(never)]
    pub fn push_args(&mut self, value: HeldExpr, begin: Pos, end: Pos) -> Result<(), AllocError>
        requires { begin.byte ≤ end.byte }
        ensures { OnOk result (arguments_in self.new ≡ arguments_in self.old ++ Star (from_to begin.byte end.byte) (expression_of value) ∷ []) }
    {
        self.push(passed(ArgumentP::Args(value.into_tree()), begin, end))
    }

    /// Adds `**value`.
    #[inline(never)]
    pub fn push_kwargs(&mut self, value: HeldExpr, begin: Pos, end: Pos) -> Result<(), AllocError>
        requires { begin.byte ≤ end.byte }
        ensures { OnOk result (arguments_in self.new ≡ arguments_in self.old ++ StarStar (from_to begin.byte end.byte) (expression_of value) ∷ []) }
    {
        self.push(passed(ArgumentP::KwArgs(value.into_tree()), begin, end))
    }

    /// Converts them to a part of a tree, without spare capacity.
    pub fn into_trees(self) -> Vec<AstArgument>
        ensures { result.items ≡ self.trees.items }
    {
        let HeldArguments { trees } = self;
        exact(trees)
    }
}

/// Keys and their values.
pub struct HeldEntries {
    pub trees: Vec<(AstExpr, AstExpr)>,
}

impl Drop for HeldEntries {
    #[inline(never)]
    fn drop(self) {
        let HeldEntries { trees } = self;
        trees.discard();
    }
}

impl HeldEntries {
    /// No entries, in memory of `alloc`.
    pub fn new(alloc: Global) -> HeldEntries
        ensures { entries_in result ≡ [] }
    {
        HeldEntries {
            trees: Vec::new(alloc),
        }
    }

    /// Appends an entry, or drops it if memory cannot be allocated.
    #[inline(never)]
    pub fn push(&mut self, key: HeldExpr, value: HeldExpr) -> Result<(), AllocError>
        ensures { OnOk result (entries_in self.new ≡ entries_in self.old ++ (expression_of key, expression_of value) ∷ []) }
    {
        if self.trees.is_empty() {
            self.trees.reserve_exact(1)?;
        } else {
            self.trees.reserve(1)?;
        }
        self.trees
            .push_reserved((key.into_tree(), value.into_tree()));
        Ok(())
    }

    /// Converts them to a part of a tree, without spare capacity.
    pub fn into_trees(self) -> Vec<(AstExpr, AstExpr)>
        ensures { result.items ≡ self.trees.items }
    {
        let HeldEntries { trees } = self;
        exact(trees)
    }
}
