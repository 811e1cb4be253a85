//! Rows of JSON.
use crate::text::parsed;
use starlark_checks::error::Error;
use starlark_json::tree::{expression_to_json, statement_to_json};
use starlark_json::{answer_to_json, error_to_json};
use starlark_lexer::dialect::Dialect;
use starlark_tree::ast::{AstStmt, StmtP};
use std::alloc::{AllocError, Global};
use std::fmt::Write;

/// Appends what is written as JSON:
///
/// - `all`, `standard`, `bare`: the result for the text in this dialect.
/// - `statement`: the module's statement alone; `expression`: the value of an expression statement alone.
/// - `error NAME`: an error that no small text causes.
pub fn push_json(row: &mut String, call: &str, text: &str) -> Result<(), AllocError> {
    let json = json_of(*row.allocator(), call, text)?;
    write!(row, "\n{json}\n")
}

/// The result of a call for a text.
fn json_of(alloc: Global, call: &str, text: &str) -> Result<String, AllocError> {
    match call {
        "error text_too_long" => error_to_json(alloc, &Error::text_too_long()),
        "error out_of_memory" => error_to_json(alloc, &Error::from(AllocError)),
        "standard" => answer_to_json(alloc, &parsed(alloc, text, &Dialect::Standard)?),
        "bare" => answer_to_json(alloc, &parsed(alloc, text, &Dialect::Bare)?),
        _ => {
            let answer = parsed(alloc, text, &Dialect::All)?;
            match (call, &answer) {
                ("statement", Ok(module)) => statement_to_json(alloc, module.statement()),
                ("expression", Ok(module)) => value_to_json(alloc, module.statement()),
                _ => answer_to_json(alloc, &answer),
            }
        }
    }
}

/// The value of an expression statement as JSON.
fn value_to_json(alloc: Global, statement: &AstStmt) -> Result<String, AllocError> {
    match &statement.node {
        StmtP::Expression(value) => expression_to_json(alloc, value),
        _ => String::from_str(alloc, "no expression"),
    }
}
