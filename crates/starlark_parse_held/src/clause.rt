//! The clauses of a comprehension that are kept in memory while parsing.
ghost use Rattle.std.specs.Prelude.{◌≡◌, ◌++◌, ◌∷◌, [], IfOk, OnOk};
ghost use Rattle.starlark_tree.specs.Ast.{for_clause, if_clause};
ghost use Rattle.starlark_parse_held.specs.Held.{clauses_in, expression_of, for_in_of};

use crate::expression::HeldExpr;
use starlark_tree::ast::{Clause, ForClause};
use starlark_tree::discard::{Discard, boxed, push};
use std::alloc::{AllocError, Global};

/// A clause `for var in over`.
pub struct HeldForClause {
    pub tree: ForClause,
}

impl Drop for HeldForClause {
    #[inline(never)]
    fn drop(self) {
        let HeldForClause { tree } = self;
        tree.discard();
    }
}

impl HeldForClause {
    /// The clause, no longer held.
    pub fn into_tree(self) -> ForClause
        ensures { result ≡ self.tree }
    {
        let HeldForClause { tree } = self;
        tree
    }
}

/// The first clause of a comprehension, and the others.
pub struct HeldClauses {
    pub first: Box<ForClause>,
    pub rest: Vec<Clause>,
}

impl Drop for HeldClauses {
    #[inline(never)]
    fn drop(self) {
        let HeldClauses { first, rest } = self;
        first.discard();
        rest.discard();
    }
}

impl HeldClauses {
    /// Only the first clause.
    pub fn new(alloc: Global, first: HeldForClause) -> Result<HeldClauses, AllocError>
        ensures { IfOk result (λ cs. clauses_in cs ≡ (for_in_of first, [])) }
    {
        let first = boxed(alloc, first.into_tree())?;
        Ok(HeldClauses {
            first,
            rest: Vec::new(alloc),
        })
    }

    /// Adds a clause `for var in over`.
    pub fn push_for(&mut self, clause: HeldForClause) -> Result<(), AllocError>
        ensures { OnOk result (clauses_in self.new ≡ ((clauses_in self.old).0, (clauses_in self.old).1 ++ for_clause (for_in_of clause) ∷ [])) }
    {
        push(&mut self.rest, Clause::For(clause.into_tree()))
    }

    /// Adds a clause `if condition`.
    pub fn push_if(&mut self, condition: HeldExpr) -> Result<(), AllocError>
        ensures { OnOk result (clauses_in self.new ≡ ((clauses_in self.old).0, (clauses_in self.old).1 ++ if_clause (expression_of condition) ∷ [])) }
    {
        push(&mut self.rest, Clause::If(condition.into_tree()))
    }

    /// The clauses, no longer held.
    pub fn into_parts(self) -> (Box<ForClause>, Vec<Clause>)
        ensures { result ≡ (self.first, self.rest) }
    {
        let HeldClauses { first, rest } = self;
        (first, rest)
    }
}
