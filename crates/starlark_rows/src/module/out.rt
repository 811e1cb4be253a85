//! What several calls append to a result.
use starlark_checks::error::Error;
use starlark_lexer::codemap::{Pos, Span};
use starlark_tree::ast::AstStmt;
use std::alloc::AllocError;
use std::fmt::Write;

/// Appends a position.
pub fn push_span(out: &mut String, span: Span) -> Result<(), AllocError> {
    let (begin, end) = (span.begin().get(), span.end().get());
    write!(out, "{begin}..{end}")
}

/// Appends the position of a refusal, and its text.
pub fn push_refusal(out: &mut String, error: &Error) -> Result<(), AllocError> {
    if let Some(place) = error.span() {
        push_span(out, place.span)?;
        out.push_str(": ")?;
    }
    writeln!(out, "{error}")
}

/// Appends the span of a module's statement, and its print.
pub fn push_statement(out: &mut String, statement: &AstStmt) -> Result<(), AllocError> {
    push_span(out, statement.span)?;
    write!(out, "\n{}", statement.node)
}

/// The span that is written `3..5`, if it is one.
pub fn span_of(text: &str) -> Option<Span> {
    let (begin, end) = text.split_once("..")?;
    let (begin, end) = (begin.parse::<u32>().ok()?, end.parse::<u32>().ok()?);
    if end < begin {
        return None;
    }
    Some(Span::new(Pos::new(begin), Pos::new(end)))
}
