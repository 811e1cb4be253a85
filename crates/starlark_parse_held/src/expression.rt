//! Expressions that are kept in memory while parsing.
ghost use Rattle.std.specs.Prelude.{◌≡◌, ◌++◌, ◌∷◌, [], length, IfOk, IfErr, IfSome, IfNone, OnOk, OnErr};
ghost use Rattle.starlark_parse_held.specs.Held.{expression_of, expressions_in, rest_of};
ghost use Rattle.starlark_tree.specs.Views as seen;

use crate::exact::exact;
use starlark_lexer::span::Pos;
use starlark_tree::ast::AstExpr;
use starlark_tree::discard::{Discard, boxed};
use std::alloc::{AllocError, Global};
use std::vec;

/// An expression in memory of its own.
pub struct HeldExpr {
    pub tree: Box<AstExpr>,
}

impl Drop for HeldExpr {
    #[inline(never)]
    fn drop(self) {
        let HeldExpr { tree } = self;
        tree.discard();
    }
}

impl HeldExpr {
    /// The expression, in memory of its own.
    pub fn new(alloc: Global, tree: AstExpr) -> Result<HeldExpr, AllocError>
        ensures { IfOk result (λ e. e.tree.value ≡ tree) }
    {
        let tree = boxed(alloc, tree)?;
        Ok(HeldExpr { tree })
    }

    /// Converts it to a tree by value.
    pub fn into_tree(self) -> AstExpr
        ensures { result ≡ self.tree.value }
    {
        let HeldExpr { tree } = self;
        Box::into_inner(tree)
    }

    /// Converts it to a part of a tree, in its memory.
    pub fn into_box(self) -> Box<AstExpr>
        ensures { result ≡ self.tree }
    {
        let HeldExpr { tree } = self;
        tree
    }

    /// The allocator of its memory.
    pub fn allocator(&self) -> Global {
        *Box::allocator(&self.tree)
    }

    /// Where it begins.
    pub fn begin(&self) -> Pos
        ensures { result ≡ self.now.tree.value.span.begin }
    {
        self.tree.span.begin()
    }

    /// Where it ends.
    pub fn end(&self) -> Pos
        ensures { result ≡ self.now.tree.value.span.end }
    {
        self.tree.span.end()
    }

    /// This expression and another in memory of their own.
    #[inline(never)]
    pub fn paired(self, alloc: Global, second: HeldExpr) -> Result<HeldPair, AllocError>
        ensures { IfOk result (λ b. b.trees.value ≡ (self.tree.value, second.tree.value)) }
    {
        let trees = boxed(alloc, (self.into_tree(), second.into_tree()))?;
        Ok(HeldPair { trees })
    }

    /// This expression and two others in memory of their own.
    #[inline(never)]
    pub fn tripled(
        self,
        alloc: Global,
        second: HeldExpr,
        third: HeldExpr,
    ) -> Result<HeldTriple, AllocError>
        ensures { IfOk result (λ b. b.trees.value ≡ (self.tree.value, second.tree.value, third.tree.value)) }
    {
        let trees = (self.into_tree(), second.into_tree(), third.into_tree());
        let trees = boxed(alloc, trees)?;
        Ok(HeldTriple { trees })
    }
}

/// Two expressions in memory of their own.
pub struct HeldPair {
    pub trees: Box<(AstExpr, AstExpr)>,
}

impl Drop for HeldPair {
    #[inline(never)]
    fn drop(self) {
        let HeldPair { trees } = self;
        trees.discard();
    }
}

impl HeldPair {
    /// The expressions, no longer held.
    pub fn into_trees(self) -> Box<(AstExpr, AstExpr)>
        ensures { result ≡ self.trees }
    {
        let HeldPair { trees } = self;
        trees
    }
}

/// Three expressions in memory of their own.
pub struct HeldTriple {
    pub trees: Box<(AstExpr, AstExpr, AstExpr)>,
}

impl Drop for HeldTriple {
    #[inline(never)]
    fn drop(self) {
        let HeldTriple { trees } = self;
        trees.discard();
    }
}

impl HeldTriple {
    /// The expressions, no longer held.
    pub fn into_trees(self) -> Box<(AstExpr, AstExpr, AstExpr)>
        ensures { result ≡ self.trees }
    {
        let HeldTriple { trees } = self;
        trees
    }
}

/// Expressions.
pub struct HeldExprs {
    pub trees: Vec<AstExpr>,
}

impl Drop for HeldExprs {
    #[inline(never)]
    fn drop(self) {
        let HeldExprs { trees } = self;
        trees.discard();
    }
}

impl HeldExprs {
    /// No expressions, in memory of `alloc`.
    pub fn new(alloc: Global) -> HeldExprs
        ensures { expressions_in result ≡ [] }
    {
        HeldExprs {
            trees: Vec::new(alloc),
        }
    }

    /// A single expression.
    #[inline(never)]
    pub fn of_one(alloc: Global, item: HeldExpr) -> Result<HeldExprs, AllocError>
        ensures { IfOk result (λ es. expressions_in es ≡ expression_of item ∷ []) }
    {
        let mut trees = Vec::with_capacity(alloc, 1)?;
        trees.push_reserved(item.into_tree());
        Ok(HeldExprs { trees })
    }

    /// Appends an expression, or drops it if memory cannot be allocated.
    #[inline(never)]
    pub fn push(&mut self, item: HeldExpr) -> Result<(), AllocError>
        ensures { OnOk result (expressions_in self.new ≡ expressions_in self.old ++ expression_of item ∷ []) }
    {
        self.trees.reserve(1)?;
        self.trees.push_reserved(item.into_tree());
        Ok(())
    }

    /// Adds an expression that is given by value.
    #[inline(always)]
    pub fn push_tree(&mut self, item: HeldTree) -> Result<(), AllocError>
        ensures { OnOk result (expressions_in self.new ≡ expressions_in self.old ++ seen.expression_of item.tree ∷ []) }
    {
        self.trees.reserve(1)?;
        self.trees.push_reserved(item.into_tree());
        Ok(())
    }

    /// Converts them to a part of a tree, without spare capacity.
    pub fn into_trees(self) -> Vec<AstExpr>
        ensures { result.items ≡ self.trees.items }
    {
        let HeldExprs { trees } = self;
        exact(trees)
    }

    /// The only one, or all of them if there are several or none.
    #[inline(never)]
    pub fn only(self) -> Result<AstExpr, HeldExprs>
        ensures one { IfOk result (λ x. expressions_in self ≡ seen.expression_of x ∷ []) }
        ensures all { IfErr result (λ xs. expressions_in xs ≡ expressions_in self) }
        ensures not_one { OnErr result (¬ (length (expressions_in self) ≡ 1)) }
    {
        let HeldExprs { mut trees } = self;
        if trees.len() == 1 {
            if let Some(tree) = trees.pop() {
                trees.destroy_empty();
                return Ok(tree);
            }
        }
        Err(HeldExprs { trees })
    }

    /// Converts them to a value that returns them one by one.
    pub fn into_rest(self) -> HeldRest
        ensures { rest_of result ≡ expressions_in self }
    {
        let HeldExprs { trees } = self;
        HeldRest {
            trees: trees.into_iter(),
        }
    }
}

/// The rest of expressions that are returned one by one.
pub struct HeldRest {
    pub trees: vec::IntoIter<AstExpr>,
}

impl Drop for HeldRest {
    #[inline(never)]
    fn drop(self) {
        let HeldRest { trees } = self;
        trees.discard();
    }
}

impl HeldRest {
    /// The next one.
    pub fn next(&mut self) -> Option<AstExpr>
        ensures taken { IfSome result (λ x. rest_of self.old ≡ seen.expression_of x ∷ rest_of self.new) }
        ensures all { IfNone result (rest_of self.old ≡ []) }
    {
        self.trees.next()
    }
}

/// An expression by value.
pub struct HeldTree {
    pub tree: AstExpr,
}

impl Drop for HeldTree {
    #[inline(never)]
    fn drop(self) {
        let HeldTree { tree } = self;
        tree.discard();
    }
}

impl HeldTree {
    /// The expression, no longer held.
    pub fn into_tree(self) -> AstExpr
        ensures { result ≡ self.tree }
    {
        let HeldTree { tree } = self;
        tree
    }
}
