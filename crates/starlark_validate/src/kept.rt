//! The rules of calls, f-strings and loads, which are tested in the order of the text: a node's parts, and then the node.
ghost use Rattle.std.specs.Prelude.{map};
ghost use Rattle.std.specs.List.{flat_map};
ghost use Rattle.starlark_lexer.specs.Tokens.{span_of};
ghost use Rattle.starlark_tree.specs.Views.{argument_of, expression_of, form_seen, load_arg_of, shape_seen, statement_of, word};
ghost use Rattle.starlark_validate.specs.KeptTreeFaults.{call_faults, f_string_faults, in_expression, in_form, in_statement, load_faults};
ghost use Rattle.starlark_validate.specs.Walks.InText.{form_exprs, own_kept};
ghost use Rattle.starlark_validate.specs.TestResults.{Tested};

use crate::children::{children_in_text, exprs_in_stmt};
use crate::context::Tests;
use starlark_checks::call::CallArgsUnpack;
use starlark_checks::error::{DialectError, Error, ErrorKind, GrammarError};
use starlark_lexer::codemap::Span;
use starlark_tree::ast::{
    AstExpr, AstNoPayload, AstStmt, AstString, CallArgsP, Expr, ExprP, LoadArgP, Stmt, StmtP,
};

impl Tests<'_> {
    /// Refuses the first argument that is not allowed where it is.
    pub(crate) fn arguments(&self, args: &CallArgsP<AstNoPayload>) -> Result<(), Error>
        ensures { Tested self.now.codemap.now (call_faults (map argument_of args.now.args.items)) result }
    {
        CallArgsUnpack::unpack(self.alloc, args, self.codemap)?;
        Ok(())
    }

    /// Refuses an f-string if they are off.
    fn f_string(&self, span: Span) -> Result<(), Error>
        ensures { Tested self.now.codemap.now (f_string_faults self.now.dialect (span_of span)) result }
    {
        if self.dialect.enable_f_strings {
            return Ok(());
        }
        let kind = ErrorKind::Dialect(DialectError::FStrings);
        Err(Error::new_spanned(kind, span, self.codemap)?)
    }

    /// Refuses a load that names nothing, at the text of its module.
    fn load(&self, path: &AstString, names: &[LoadArgP<AstNoPayload>]) -> Result<(), Error>
        ensures { Tested self.now.codemap.now (load_faults (word path.now) (map load_arg_of names.now)) result }
    {
        if !names.is_empty() {
            return Ok(());
        }
        let kind = ErrorKind::Grammar(GrammarError::LoadRequiresAtLeastTwoArguments);
        Err(Error::new_spanned(kind, path.span, self.codemap)?)
    }

    /// The rules of one expression.
    fn expr_itself(&self, expr: &Expr) -> Result<(), Error>
        ensures { Tested self.now.codemap.now (own_kept self.now.dialect (shape_seen expr.now)) result }
    {
        match expr {
            ExprP::Call(_, args) => self.arguments(args),
            ExprP::FString(f_string) => self.f_string(f_string.span),
            _ => Ok(()),
        }
    }

    /// The rules of an expression and all inside it.
    fn expr(&self, expr: &AstExpr) -> Result<(), Error>
        ensures { Tested self.now.codemap.now (in_expression self.now.dialect (expression_of expr.now)) result }
    {
        let children = children_in_text(self.alloc, expr)?;
        for child in &children {
            self.expr(child)?;
        }
        self.expr_itself(&expr.node)
    }

    /// The rules of the expressions directly in a statement.
    fn exprs_in(&self, stmt: &Stmt) -> Result<(), Error>
        ensures { Tested self.now.codemap.now (flat_map (in_expression self.now.dialect) (form_exprs (form_seen stmt.now))) result }
    {
        let exprs = exprs_in_stmt(self.alloc, stmt)?;
        for expr in &exprs {
            self.expr(expr)?;
        }
        Ok(())
    }

    /// The rules of a statement and all inside it.
    fn stmt(&self, stmt: &Stmt) -> Result<(), Error>
        ensures { Tested self.now.codemap.now (in_form self.now.dialect (form_seen stmt.now)) result }
    {
        self.exprs_in(stmt)?;
        match stmt {
            StmtP::Statements(parts) => {
                for part in parts {
                    self.stmt(&part.node)?;
                }
                Ok(())
            }
            StmtP::If(_, body) => self.stmt(&body.node),
            StmtP::IfElse(_, branches) => {
                self.stmt(&branches.0.node)?;
                self.stmt(&branches.1.node)
            }
            StmtP::For(repeated) => self.stmt(&repeated.body.node),
            StmtP::Def(def) => self.stmt(&def.body.node),
            StmtP::Load(load) => self.load(&load.module, &load.args),
            _ => Ok(()),
        }
    }
}

/// Refuses the first call, f-string or load of a statement that breaks a rule, in the order in which these end.
///
/// Fails at the first argument of a call that is not allowed where it is, at an f-string if the dialect has
/// none, at the module of a load that names nothing (Starlark specification, "Function and method calls", "Load
/// statements"), and if memory runs out.
pub(crate) fn kept(tests: &Tests, statement: &AstStmt) -> Result<(), Error>
    ensures { Tested tests.now.codemap.now (in_statement tests.now.dialect (statement_of statement.now)) result }
{
    tests.stmt(&statement.node)
}
