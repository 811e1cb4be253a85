//! The rules of expressions that the dialect leaves out, and of a lambda's parameters.
ghost use Rattle.std.specs.Prelude.{◌≡◌, ◌++◌, not, map};
ghost use Rattle.std.specs.List.{flat_map};
ghost use Rattle.starlark_lexer.specs.Tokens.{span_of};
ghost use Rattle.starlark_tree.specs.Inside.{inside};
ghost use Rattle.starlark_tree.specs.Views.{expression_of, literal_seen, parameter_of, statement_of};
ghost use Rattle.starlark_tree.specs.Ast as t;
ghost use Rattle.starlark_spec.specs.Faults.{rule_fault as fault};
ghost use Rattle.starlark_spec.specs.Faults as rules;
ghost use Rattle.starlark_validate.specs.KeptTreeFaults.{listed_if};
ghost use Rattle.starlark_validate.specs.Validity as validity;
ghost use Rattle.starlark_validate.specs.Validity.{expression_faults, own_faults, params_faults};
ghost use Rattle.starlark_validate.specs.TestResults.{Tested};

use crate::children::{children, exprs_in_stmt};
use crate::context::Tests;
use crate::parameters::test_parameters;
use crate::parts::statements_in;
use crate::refusal::refuse_left_out;
use starlark_checks::error::{DialectError, Error};
use starlark_lexer::codemap::Span;
use starlark_lexer::dialect::DialectTypes;
use starlark_tree::ast::{AstExpr, AstLiteral, AstParameter, AstStmt, ExprP};

/// Tests the expressions of a statement and of those in it.
pub(crate) fn test_expressions(tests: &Tests, statement: &AstStmt) -> Result<(), Error>
    ensures { Tested tests.now.codemap.now (expression_faults tests.now.dialect (statement_of statement.now)) result }
{
    let exprs = exprs_in_stmt(tests.alloc, &statement.node)?;
    for expr in &exprs {
        test_expression(tests, expr)?;
    }
    let parts = statements_in(tests.alloc, statement)?;
    for part in &parts {
        test_expressions(tests, part)?;
    }
    Ok(())
}

/// Tests an expression, and then those in it.
fn test_expression(tests: &Tests, expr: &AstExpr) -> Result<(), Error>
    ensures { Tested tests.now.codemap.now (flat_map (own_faults tests.now.dialect) (inside (expression_of expr.now))) result }
{
    test_alone(tests, expr)?;
    let parts = children(tests.alloc, expr)?;
    for part in &parts {
        test_expression(tests, part)?;
    }
    Ok(())
}

/// Tests an expression without those in it.
fn test_alone(tests: &Tests, expr: &AstExpr) -> Result<(), Error>
    ensures { Tested tests.now.codemap.now (own_faults tests.now.dialect (expression_of expr.now)) result }
{
    match &expr.node {
        ExprP::Literal(literal) => test_literal(tests, literal, expr.span),
        ExprP::Lambda(lambda) => test_lambda(tests, &lambda.params, expr.span),
        _ => Ok(()),
    }
}

/// Refuses an ellipsis if the dialect leaves types out.
fn test_literal(tests: &Tests, literal: &AstLiteral, span: Span) -> Result<(), Error>
    ensures { Tested tests.now.codemap.now (own_faults {P = t.no_payload} tests.now.dialect
        (t.expression (span_of span) (t.Constant (literal_seen literal.now)))) result }
{
    match literal {
        AstLiteral::Ellipsis => {
            let is_left_out = are_disabled(tests.dialect.enable_types);
            refuse_left_out(tests, is_left_out, DialectError::Ellipsis, span)
        }
        AstLiteral::Int(_) | AstLiteral::Float(_) | AstLiteral::String(_) | AstLiteral::Bytes(_) =>
            Ok(()),
    }
}

/// Whether the dialect leaves types out.
pub(crate) fn are_disabled(types: DialectTypes) -> bool
    ensures { result ≡ validity.are_disabled types }
{
    match types {
        DialectTypes::Disable => true,
        DialectTypes::ParseOnly | DialectTypes::Enable => false,
    }
}

/// Refuses a `lambda` if the dialect leaves it out, and tests its parameters.
fn test_lambda(tests: &Tests, params: &[AstParameter], span: Span) -> Result<(), Error>
    ensures { Tested tests.now.codemap.now (listed_if (not tests.now.dialect.enable_lambda) (fault (rules.Dialect DialectError.Lambda) (span_of span))
        ++ params_faults tests.now.dialect (map parameter_of params.now)) result }
{
    let is_left_out = !tests.dialect.enable_lambda;
    refuse_left_out(tests, is_left_out, DialectError::Lambda, span)?;
    test_parameters(tests, params)
}
