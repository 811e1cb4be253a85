//! The operators in statements. Each rule takes as a parameter what replaces those of a statement.
ghost use Rattle.std.specs.Prelude.{◌≡◌, ◌+◌, map};
ghost use Rattle.starlark_tree.specs.Ast.{IfElse as IfElseForm, IfThen as IfThenForm, For as ForForm, statements_of};
ghost use Rattle.starlark_tree.specs.Views.{boxed_type_of, expression_of, form_seen, parameter_of, statement_of, target_of};
ghost use Rattle.starlark_passes.specs.Replace.Entering.{EntersStatements, all_statements_in, statements_in, statements_in_form};
ghost use Rattle.starlark_passes.specs.Replace.Parts.{Replaces, a_form, a_parameter, a_statement, a_type, both, each};
ghost use Rattle.starlark_passes.specs.Replace.Replacing.{table_of};

use crate::replace::binding::{
    replace_assign, replace_binding, replace_returned, replace_signature,
};
use crate::replace::expression::replace_expression;
use starlark_tree::ast::{AstExpr, AstNoPayload, AstStmt, DefP, ForP, Stmt};
use std::alloc::{AllocError, Global};
use std::collections::HashMap;

/// The rules of statements, over what replaces the operators of a statement.
#[derive(Drop)]
pub(crate) struct Blocks<'a, G> {
    alloc: Global,
    /// The functions that replace operators, by the operators' names.
    replacements: &'a HashMap<String, String>,
    enter: G,
}

impl<G: Fn(Global, &mut AstStmt, &HashMap<String, String>) -> Result<(), AllocError>> Blocks<
    '_,
    G,
> {
    /// Replaces the operators of a statement.
    fn one(&self, statement: &mut AstStmt) -> Result<(), AllocError>
        requires { EntersStatements (statements_in (statement_of statement.old)) (G.pre self.now.enter) (G.post self.now.enter) }
        ensures { let table = table_of self.now.replacements.now in Replaces table (a_statement table) result (statement_of statement.old)
            (statement_of statement.new) }
    {
        (self.enter)(self.alloc, statement, self.replacements)
    }

    /// Replaces the operators of statements.
    fn each(&self, statements: &mut [AstStmt]) -> Result<(), AllocError>
        requires { EntersStatements (all_statements_in (statements_of (map statement_of statements.old))) (G.pre self.now.enter) (G.post self.now.enter) }
        ensures { let table = table_of self.now.replacements.now in Replaces table (each table (a_statement table)) result (map statement_of statements.old)
            (map statement_of statements.new) }
    {
        for statement in statements.iter_mut() {
            self.one(statement)?;
        }
        Ok(())
    }

    /// Replaces the operators of two statements.
    fn two(&self, first: &mut AstStmt, second: &mut AstStmt) -> Result<(), AllocError>
        requires { EntersStatements (statements_in (statement_of first.old) + statements_in (statement_of second.old)) (G.pre self.now.enter)
            (G.post self.now.enter) }
        ensures { let table = table_of self.now.replacements.now in Replaces table (both table (a_statement table) (a_statement table)) result
            (statement_of first.old, statement_of second.old) (statement_of first.new, statement_of second.new) }
    {
        self.one(first)?;
        self.one(second)
    }

    /// Replaces the operators of an if without else.
    fn if_then(&self, condition: &mut AstExpr, body: &mut AstStmt) -> Result<(), AllocError>
        requires { EntersStatements (statements_in (statement_of body.old)) (G.pre self.now.enter) (G.post self.now.enter) }
        ensures { let table = table_of self.now.replacements.now in Replaces table (a_form table) result
            (IfThenForm (expression_of condition.old) (statement_of body.old)) (IfThenForm (expression_of condition.new) (statement_of body.new)) }
    {
        replace_expression(self.alloc, condition, self.replacements)?;
        self.one(body)
    }

    /// Replaces the operators of an if with its else.
    fn if_else(
        &self,
        condition: &mut AstExpr,
        branches: &mut (AstStmt, AstStmt),
    ) -> Result<(), AllocError>
        requires { EntersStatements (statements_in (statement_of branches.old.0) + statements_in (statement_of branches.old.1)) (G.pre self.now.enter)
            (G.post self.now.enter) }
        ensures { let table = table_of self.now.replacements.now in Replaces table (a_form table) result
            (IfElseForm (expression_of condition.old) (statement_of branches.old.0) (statement_of branches.old.1))
            (IfElseForm (expression_of condition.new) (statement_of branches.new.0) (statement_of branches.new.1)) }
    {
        replace_expression(self.alloc, condition, self.replacements)?;
        self.two(&mut branches.0, &mut branches.1)
    }

    /// Replaces the operators of a for statement.
    fn repeated(&self, repeated: &mut ForP<AstNoPayload>) -> Result<(), AllocError>
        requires { EntersStatements (statements_in (statement_of repeated.old.body.value)) (G.pre self.now.enter) (G.post self.now.enter) }
        ensures { let table = table_of self.now.replacements.now in Replaces table (a_form table) result
            (ForForm (target_of repeated.old.var) (expression_of repeated.old.over) (statement_of repeated.old.body.value))
            (ForForm (target_of repeated.new.var) (expression_of repeated.new.over) (statement_of repeated.new.body.value)) }
    {
        replace_binding(
            self.alloc,
            &mut repeated.var,
            &mut repeated.over,
            self.replacements,
        )?;
        self.one(&mut repeated.body)
    }

    /// Replaces the operators of a function definition.
    fn definition(&self, def: &mut DefP<AstNoPayload>) -> Result<(), AllocError>
        requires { EntersStatements (statements_in (statement_of def.old.body.value)) (G.pre self.now.enter) (G.post self.now.enter) }
        ensures replaced { let table = table_of self.now.replacements.now in Replaces table
            (both table (both table (each table (a_parameter table)) (a_type table)) (a_statement table)) result
            ((map parameter_of def.old.params.items, boxed_type_of def.old.return_type), statement_of def.old.body.value)
            ((map parameter_of def.new.params.items, boxed_type_of def.new.return_type), statement_of def.new.body.value) }
        ensures name { def.new.name ≡ def.old.name }
    {
        replace_signature(
            self.alloc,
            &mut def.params,
            &mut def.return_type,
            self.replacements,
        )?;
        self.one(&mut def.body)
    }

    /// Replaces the operators of a statement, whose span is left out.
    #[tactic(auto, using(crate::proofs::ReplaceLemmas::Counts::forms))]
    fn form(&self, form: &mut Stmt) -> Result<(), AllocError>
        requires { EntersStatements (statements_in_form (form_seen form.old)) (G.pre self.now.enter) (G.post self.now.enter) }
        ensures { let table = table_of self.now.replacements.now in Replaces table (a_form table) result (form_seen form.old) (form_seen form.new) }
    {
        match form {
            Stmt::Break => Ok(()),
            Stmt::Continue => Ok(()),
            Stmt::Pass => Ok(()),
            Stmt::Return(value) => replace_returned(self.alloc, value, self.replacements),
            Stmt::Expression(value) => replace_expression(self.alloc, value, self.replacements),
            Stmt::Assign(assign) => replace_assign(self.alloc, assign, self.replacements),
            Stmt::AssignModify(target, _, value) => {
                replace_binding(self.alloc, target, value, self.replacements)
            }
            Stmt::Statements(parts) => self.each(parts),
            Stmt::If(condition, body) => self.if_then(condition, body),
            Stmt::IfElse(condition, branches) => self.if_else(condition, branches),
            Stmt::For(repeated) => self.repeated(repeated),
            Stmt::Def(def) => self.definition(def),
            Stmt::Load(_) => Ok(()),
        }
    }
}

/// Replaces the operators of a statement.
pub(crate) fn replace_statement(
    alloc: Global,
    statement: &mut AstStmt,
    replacements: &HashMap<String, String>,
) -> Result<(), AllocError>
    ensures { let table = table_of replacements.now in Replaces table (a_statement table) result (statement_of statement.old) (statement_of statement.new) }
{
    Blocks {
        alloc,
        replacements,
        enter: replace_statement,
    }
    .form(&mut statement.node)
}
