//! Statements that are kept in memory while parsing.
ghost use Rattle.std.specs.Prelude.{◌≡◌, ◌++◌, ◌∷◌, [], length, IfSome, IfNone, IfOk, IfErr, OnOk, OnErr};
ghost use Rattle.starlark_lexer.specs.Tokens.{span_of};
ghost use Rattle.starlark_tree.specs.Ast.{statement};
ghost use Rattle.starlark_tree.specs.Views as seen;
ghost use Rattle.starlark_parse_held.specs.Held.{statement_of, statements_in};

use crate::dropping::{drop_stmt, drop_stmts};
use crate::exact::exact;
use starlark_lexer::span::{Span, Spanned};
use starlark_tree::ast::{AstStmt, Stmt};
use starlark_tree::discard::boxed;
use std::alloc::{AllocError, Global};

/// A statement in memory of its own.
pub struct HeldStmt {
    pub tree: Box<AstStmt>,
}

impl Drop for HeldStmt {
    #[inline(never)]
    fn drop(self) {
        let HeldStmt { tree } = self;
        drop_stmt(Box::into_inner(tree));
    }
}

impl HeldStmt {
    /// The statement, in memory of its own.
    pub fn new(alloc: Global, tree: AstStmt) -> Result<HeldStmt, AllocError>
        ensures { IfOk result (λ s. s.tree.value ≡ tree) }
    {
        let tree = boxed(alloc, tree)?;
        Ok(HeldStmt { tree })
    }

    /// Converts it to a tree by value.
    pub fn into_tree(self) -> AstStmt
        ensures { result ≡ self.tree.value }
    {
        let HeldStmt { tree } = self;
        Box::into_inner(tree)
    }

    /// Converts it to a part of a tree, in its memory.
    pub fn into_box(self) -> Box<AstStmt>
        ensures { result ≡ self.tree }
    {
        let HeldStmt { tree } = self;
        tree
    }

    /// This statement and another in memory of their own.
    #[inline(never)]
    pub fn paired(self, alloc: Global, second: HeldStmt) -> Result<HeldStmtPair, AllocError>
        ensures { IfOk result (λ b. b.trees.value ≡ (self.tree.value, second.tree.value)) }
    {
        let trees = boxed(alloc, (self.into_tree(), second.into_tree()))?;
        Ok(HeldStmtPair { trees })
    }
}

/// A statement by value that is dropped by a function call.
pub struct HeldStmtTree {
    pub tree: AstStmt,
}

impl Drop for HeldStmtTree {
    #[inline(never)]
    fn drop(self) {
        let HeldStmtTree { tree } = self;
        drop_stmt(tree);
    }
}

impl HeldStmtTree {
    /// The statement, no longer held.
    pub fn into_tree(self) -> AstStmt
        ensures { result ≡ self.tree }
    {
        let HeldStmtTree { tree } = self;
        tree
    }
}

/// Two statements in memory of their own.
pub struct HeldStmtPair {
    pub trees: Box<(AstStmt, AstStmt)>,
}

impl Drop for HeldStmtPair {
    #[inline(never)]
    fn drop(self) {
        let HeldStmtPair { trees } = self;
        let (first, second) = Box::into_inner(trees);
        drop_stmt(first);
        drop_stmt(second);
    }
}

impl HeldStmtPair {
    /// The statements, no longer held.
    pub fn into_trees(self) -> Box<(AstStmt, AstStmt)>
        ensures { result ≡ self.trees }
    {
        let HeldStmtPair { trees } = self;
        trees
    }
}

/// Statements.
pub struct HeldStmts {
    pub trees: Vec<AstStmt>,
}

impl Drop for HeldStmts {
    #[inline(never)]
    fn drop(self) {
        let HeldStmts { trees } = self;
        drop_stmts(trees);
    }
}

impl HeldStmts {
    /// No statements, in memory of `alloc`.
    pub fn new(alloc: Global) -> HeldStmts
        ensures { statements_in result ≡ [] }
    {
        HeldStmts {
            trees: Vec::new(alloc),
        }
    }

    /// Appends a statement, or drops it if memory cannot be allocated.
    #[inline(never)]
    pub fn push(&mut self, item: HeldStmt) -> Result<(), AllocError>
        ensures { OnOk result (statements_in self.new ≡ statements_in self.old ++ statement_of item ∷ []) }
    {
        self.trees.reserve(1)?;
        self.trees.push_reserved(item.into_tree());
        Ok(())
    }

    /// Removes the last one and returns it.
    pub fn pop(&mut self) -> Option<HeldStmtTree>
        ensures some { IfSome result (λ last. statements_in self.old ≡ statements_in self.new ++ seen.statement_of last.tree ∷ []) }
        ensures none { IfNone result (statements_in self.old ≡ []) }
    {
        match self.trees.pop() {
            Some(tree) => Some(HeldStmtTree { tree }),
            None => None,
        }
    }

    /// Adds a statement that is given by value.
    pub fn push_tree(&mut self, item: HeldStmtTree) -> Result<(), AllocError>
        ensures { OnOk result (statements_in self.new ≡ statements_in self.old ++ seen.statement_of item.tree ∷ []) }
    {
        self.trees.reserve(1)?;
        self.trees.push_reserved(item.into_tree());
        Ok(())
    }

    /// Adds a statement with its span: byte offsets.
    #[inline(always)]
    pub fn add(&mut self, node: Stmt, span: Span) -> Result<(), AllocError>
        ensures { OnOk result (statements_in self.new ≡ statements_in self.old ++ statement (span_of span) (seen.form_seen node) ∷ []) }
    {
        let tree = Spanned { node, span };
        match self.trees.reserve(1) {
            Ok(()) => {
                self.trees.push_reserved(tree);
                Ok(())
            }
            Err(error) => {
                drop(HeldStmtTree { tree });
                Err(error)
            }
        }
    }

    /// Converts them to a part of a tree, without spare capacity.
    pub fn into_trees(self) -> Vec<AstStmt>
        ensures { result.items ≡ self.trees.items }
    {
        let HeldStmts { trees } = self;
        exact(trees)
    }

    /// The only one, or all of them if there are several or none.
    #[inline(never)]
    pub fn only(self) -> Result<AstStmt, HeldStmts>
        ensures one { IfOk result (λ x. statements_in self ≡ seen.statement_of x ∷ []) }
        ensures all { IfErr result (λ xs. statements_in xs ≡ statements_in self) }
        ensures not_one { OnErr result (¬ (length (statements_in self) ≡ 1)) }
    {
        let HeldStmts { mut trees } = self;
        if trees.len() == 1 {
            if let Some(tree) = trees.pop() {
                trees.destroy_empty();
                return Ok(tree);
            }
        }
        Err(HeldStmts { trees })
    }
}
