//! The operators in comprehensions.
ghost use Rattle.std.specs.Prelude.{◌++◌, map};
ghost use Rattle.std.specs.List.{flat_map};
ghost use Rattle.starlark_tree.specs.Inside.{clause_inside, for_inside, inside};
ghost use Rattle.starlark_tree.specs.Views.{clause_seen, expression_of, for_in_of, pair_of};
ghost use Rattle.starlark_passes.specs.Replace.Entering.{Enters};
ghost use Rattle.starlark_passes.specs.Replace.Parts.{Replaces, a_clause, a_for, an_expression, both, each};
ghost use Rattle.starlark_passes.specs.Replace.Replacing.{table_of};

use crate::replace::rules::Rules;
use starlark_tree::ast::{AstExpr, Clause, ForClause};
use std::alloc::{AllocError, Global};
use std::collections::HashMap;

impl<F: Fn(Global, &mut AstExpr, &HashMap<String, String>) -> Result<(), AllocError>> Rules<'_, F> {
    /// Replaces the operators in `for var in over`.
    fn for_clause(&self, clause: &mut ForClause) -> Result<(), AllocError>
        requires { Enters (for_inside (for_in_of clause.old)) (F.pre self.now.enter) (F.post self.now.enter) }
        ensures { let table = table_of self.now.replacements.now in Replaces table (a_for table) result (for_in_of clause.old) (for_in_of clause.new) }
    {
        self.target(&mut clause.var)?;
        self.one(&mut clause.over)
    }

    /// Replaces the operators in a clause.
    fn clause(&self, clause: &mut Clause) -> Result<(), AllocError>
        requires { Enters (clause_inside (clause_seen clause.old)) (F.pre self.now.enter) (F.post self.now.enter) }
        ensures { let table = table_of self.now.replacements.now in Replaces table (a_clause table) result (clause_seen clause.old) (clause_seen clause.new) }
    {
        match clause {
            Clause::For(clause) => self.for_clause(clause),
            Clause::If(condition) => self.one(condition),
        }
    }

    /// Replaces the operators in clauses.
    fn clauses(&self, clauses: &mut [Clause]) -> Result<(), AllocError>
        requires { Enters (flat_map clause_inside (map clause_seen clauses.old)) (F.pre self.now.enter) (F.post self.now.enter) }
        ensures { let table = table_of self.now.replacements.now in Replaces table (each table (a_clause table)) result (map clause_seen clauses.old)
            (map clause_seen clauses.new) }
    {
        for clause in clauses.iter_mut() {
            self.clause(clause)?;
        }
        Ok(())
    }

    /// Replaces the operators of a list comprehension: those of the clauses come first.
    pub(crate) fn list_comprehension(
        &self,
        element: &mut AstExpr,
        first: &mut ForClause,
        clauses: &mut [Clause],
    ) -> Result<(), AllocError>
        requires { Enters (for_inside (for_in_of first.old) ++ (flat_map clause_inside (map clause_seen clauses.old) ++ inside (expression_of element.old)))
            (F.pre self.now.enter) (F.post self.now.enter) }
        ensures { let table = table_of self.now.replacements.now in Replaces table
            (both table (a_for table) (both table (each table (a_clause table)) (an_expression table))) result
            (for_in_of first.old, (map clause_seen clauses.old, expression_of element.old))
            (for_in_of first.new, (map clause_seen clauses.new, expression_of element.new)) }
    {
        self.for_clause(first)?;
        self.clauses(clauses)?;
        self.one(element)
    }

    /// Replaces the operators of a dict comprehension: those of the clauses come first.
    pub(crate) fn dict_comprehension(
        &self,
        entry: &mut (AstExpr, AstExpr),
        first: &mut ForClause,
        clauses: &mut [Clause],
    ) -> Result<(), AllocError>
        requires { Enters (for_inside (for_in_of first.old) ++ (flat_map clause_inside (map clause_seen clauses.old)
            ++ (inside (expression_of entry.old.0) ++ inside (expression_of entry.old.1)))) (F.pre self.now.enter) (F.post self.now.enter) }
        ensures { let table = table_of self.now.replacements.now in Replaces table
            (both table (a_for table) (both table (each table (a_clause table)) (both table (an_expression table) (an_expression table)))) result
            (for_in_of first.old, (map clause_seen clauses.old, pair_of entry.old)) (for_in_of first.new, (map clause_seen clauses.new, pair_of entry.new)) }
    {
        self.for_clause(first)?;
        self.clauses(clauses)?;
        self.pair(entry)
    }
}
