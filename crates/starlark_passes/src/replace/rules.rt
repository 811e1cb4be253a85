//! The operators inside what contains expressions. Each rule takes as a parameter what replaces those of an expression.
ghost use Rattle.std.specs.Prelude.{◌++◌, map};
ghost use Rattle.std.specs.List.{flat_map};
ghost use Rattle.starlark_tree.specs.Inside.{inside, maybe_inside, type_inside};
ghost use Rattle.starlark_tree.specs.Views.{boxed_type_of, expression_of, maybe_of, pair_of};
ghost use Rattle.starlark_passes.specs.Replace.Entering.{Enters};
ghost use Rattle.starlark_passes.specs.Replace.Parts.{Replaces, a_maybe, a_type, an_expression, both, each};
ghost use Rattle.starlark_passes.specs.Replace.Replacing.{table_of};

use starlark_tree::ast::{AstExpr, AstTypeExpr};
use std::alloc::{AllocError, Global};
use std::collections::HashMap;

/// The rules, over what replaces the operators of an expression.
#[derive(Drop)]
pub(crate) struct Rules<'a, F> {
    pub alloc: Global,
    /// The functions that replace operators, by the operators' names.
    pub replacements: &'a HashMap<String, String>,
    pub enter: F,
}

impl<F: Fn(Global, &mut AstExpr, &HashMap<String, String>) -> Result<(), AllocError>> Rules<'_, F> {
    /// Replaces the operators of an expression.
    pub(crate) fn one(&self, expr: &mut AstExpr) -> Result<(), AllocError>
        requires { Enters (inside (expression_of expr.old)) (F.pre self.now.enter) (F.post self.now.enter) }
        ensures { let table = table_of self.now.replacements.now in Replaces table (an_expression table) result (expression_of expr.old)
            (expression_of expr.new) }
    {
        (self.enter)(self.alloc, expr, self.replacements)
    }

    /// Replaces the operators of two expressions.
    pub(crate) fn two(&self, first: &mut AstExpr, second: &mut AstExpr) -> Result<(), AllocError>
        requires { Enters (inside (expression_of first.old) ++ inside (expression_of second.old)) (F.pre self.now.enter) (F.post self.now.enter) }
        ensures { let table = table_of self.now.replacements.now in Replaces table (both table (an_expression table) (an_expression table)) result
            (expression_of first.old, expression_of second.old) (expression_of first.new, expression_of second.new) }
    {
        self.one(first)?;
        self.one(second)
    }

    /// Replaces the operators of three expressions.
    pub(crate) fn three(
        &self,
        first: &mut AstExpr,
        second: &mut AstExpr,
        third: &mut AstExpr,
    ) -> Result<(), AllocError>
        requires { Enters (inside (expression_of first.old) ++ (inside (expression_of second.old) ++ inside (expression_of third.old)))
            (F.pre self.now.enter) (F.post self.now.enter) }
        ensures { let table = table_of self.now.replacements.now in Replaces table
            (both table (an_expression table) (both table (an_expression table) (an_expression table))) result
            (expression_of first.old, (expression_of second.old, expression_of third.old))
            (expression_of first.new, (expression_of second.new, expression_of third.new)) }
    {
        self.one(first)?;
        self.two(second, third)
    }

    /// Replaces the operators of a pair of expressions.
    pub(crate) fn pair(&self, parts: &mut (AstExpr, AstExpr)) -> Result<(), AllocError>
        requires { Enters (inside (expression_of parts.old.0) ++ inside (expression_of parts.old.1)) (F.pre self.now.enter) (F.post self.now.enter) }
        ensures { let table = table_of self.now.replacements.now in Replaces table (both table (an_expression table) (an_expression table)) result
            (pair_of parts.old) (pair_of parts.new) }
    {
        self.two(&mut parts.0, &mut parts.1)
    }

    /// Replaces the operators of three expressions that are together.
    pub(crate) fn triple(&self, parts: &mut (AstExpr, AstExpr, AstExpr)) -> Result<(), AllocError>
        requires { Enters (inside (expression_of parts.old.0) ++ (inside (expression_of parts.old.1) ++ inside (expression_of parts.old.2)))
            (F.pre self.now.enter) (F.post self.now.enter) }
        ensures { let table = table_of self.now.replacements.now in Replaces table
            (both table (an_expression table) (both table (an_expression table) (an_expression table))) result
            (expression_of parts.old.0, (expression_of parts.old.1, expression_of parts.old.2))
            (expression_of parts.new.0, (expression_of parts.new.1, expression_of parts.new.2)) }
    {
        self.three(&mut parts.0, &mut parts.1, &mut parts.2)
    }

    /// Replaces the operators of expressions.
    pub(crate) fn each(&self, exprs: &mut [AstExpr]) -> Result<(), AllocError>
        requires { Enters (flat_map inside (map expression_of exprs.old)) (F.pre self.now.enter) (F.post self.now.enter) }
        ensures { let table = table_of self.now.replacements.now in Replaces table (each table (an_expression table)) result (map expression_of exprs.old)
            (map expression_of exprs.new) }
    {
        for expr in exprs.iter_mut() {
            self.one(expr)?;
        }
        Ok(())
    }

    /// Replaces the operators of an expression, if there is one.
    pub(crate) fn maybe(&self, expr: &mut Option<Box<AstExpr>>) -> Result<(), AllocError>
        requires { Enters (maybe_inside (maybe_of expr.old)) (F.pre self.now.enter) (F.post self.now.enter) }
        ensures { let table = table_of self.now.replacements.now in Replaces table (a_maybe table) result (maybe_of expr.old) (maybe_of expr.new) }
    {
        match expr {
            Some(expr) => self.one(expr),
            None => Ok(()),
        }
    }

    /// Replaces the operators of a type, if there is one.
    pub(crate) fn annotation(&self, ty: &mut Option<Box<AstTypeExpr>>) -> Result<(), AllocError>
        requires { Enters (type_inside (boxed_type_of ty.old)) (F.pre self.now.enter) (F.post self.now.enter) }
        ensures { let table = table_of self.now.replacements.now in Replaces table (a_type table) result (boxed_type_of ty.old) (boxed_type_of ty.new) }
    {
        match ty {
            Some(ty) => self.one(&mut ty.node.expr),
            None => Ok(()),
        }
    }
}
