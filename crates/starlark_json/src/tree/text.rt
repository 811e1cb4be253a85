//! A tree as one text.
ghost use Rattle.std.specs.Prelude.{◌≡◌, [], IfOk, IsOk, Some, string_bytes};
ghost use Rattle.json.specs.Lex.{tokens};
ghost use Rattle.json.specs.Print.{print};
ghost use Rattle.json.specs.Tree.{json_tokens};
ghost use Rattle.starlark_tree.specs.Views.{expression_of, statement_of};
ghost use Rattle.starlark_json.specs.Tree.Fitting.{ExpressionFits, StatementFits};
ghost use Rattle.starlark_json.specs.Tree.Reading.{expression_of_text, statement_of_text};
ghost use Rattle.starlark_json.specs.Tree.Trees.{expression_json, statement_json};

use crate::tree::expression::write_expression;
use crate::tree::statement::write_statement;
use json::Writer;
use starlark_tree::ast::{AstExpr, AstStmt};
use std::alloc::{AllocError, Global};

/// A statement as JSON, compact and with no line feed at its end.
///
/// Fails if an allocation fails.
pub fn statement_to_json(alloc: Global, statement: &AstStmt) -> Result<String, AllocError>
    ensures text { IfOk result (λ text. string_bytes text ≡ print (json_tokens (statement_json (statement_of statement.now)))) }
    ensures reads_back { IfOk result (λ text. StatementFits (statement_of statement.now) → statement_of_text (string_bytes text)
        ≡ Some (statement_of statement.now)) }
{
    let mut out = Writer::new(Vec::new(alloc));
    write_statement(&mut out, statement)?;
    text_of(out)
}

/// An expression as JSON, compact and with no line feed at its end.
///
/// Fails if an allocation fails.
pub fn expression_to_json(alloc: Global, expression: &AstExpr) -> Result<String, AllocError>
    ensures text { IfOk result (λ text. string_bytes text ≡ print (json_tokens (expression_json (expression_of expression.now)))) }
    ensures reads_back { IfOk result (λ text. ExpressionFits (expression_of expression.now) → expression_of_text (string_bytes text)
        ≡ Some (expression_of expression.now)) }
{
    let mut out = Writer::new(Vec::new(alloc));
    write_expression(&mut out, expression)?;
    text_of(out)
}

/// What a writer that began with nothing has written.
///
/// It never fails: what a writer writes is UTF-8.
pub fn text_of(out: Writer) -> Result<String, AllocError>
    ensures text { out.before ≡ [] → IfOk result (λ text. string_bytes text ≡ print out.tokens) }
    ensures reads_back { out.before ≡ [] → IfOk result (λ text. tokens (string_bytes text) ≡ out.tokens) }
    ensures succeeds { out.before ≡ [] → IsOk result }
{
    match String::from_utf8(out.into_inner()) {
        Ok(text) => Ok(text),
        Err(_) => Err(AllocError),
    }
}
