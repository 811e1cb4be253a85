//! Rows of diagnostics.
use crate::text::parsed;
use starlark_checks::error::Error;
use starlark_diagnostics::diagnostic::Diagnostic;
use starlark_diagnostics::issue::issue_diagnostic;
use starlark_diagnostics::refusal::error_diagnostic;
use starlark_lexer::codemap::{CodeMap, Span};
use starlark_lexer::dialect::Dialect;
use starlark_module::module::AstModule;
use starlark_passes::lint::issues;
use std::alloc::AllocError;
use std::fmt::Write;

/// Appends the diagnostic of what refuses a text, which is read under a dialect `all`, `standard` or `bare`; or those of the issues of
/// its module. A line has the position, the severity, the message and the code; a line for each note has its position and message.
pub fn push_diagnostics(row: &mut String, dialect: &str, text: &str) -> Result<(), AllocError> {
    row.push('\n')?;
    let dialect = dialect_of(dialect);
    match parsed(*row.allocator(), text, &dialect)? {
        Ok(module) => push_issues(row, &module),
        Err(error) => push_error(row, &error, &dialect),
    }
}

fn dialect_of(name: &str) -> Dialect {
    match name {
        "bare" => Dialect::Bare,
        "standard" => Dialect::Standard,
        _ => Dialect::All,
    }
}

fn push_error(out: &mut String, error: &Error, dialect: &Dialect) -> Result<(), AllocError> {
    let diagnostic = error_diagnostic(*out.allocator(), error, dialect)?;
    match error.span() {
        Some(place) => push_diagnostic(out, &place.file, &diagnostic),
        None => writeln!(out, "{} [{}]", diagnostic.message, diagnostic.code),
    }
}

fn push_issues(out: &mut String, module: &AstModule) -> Result<(), AllocError> {
    let alloc = *out.allocator();
    let issues = issues(alloc, module.statement())?;
    for issue in &issues {
        let diagnostic = issue_diagnostic(alloc, issue, module.statement())?;
        push_diagnostic(out, module.codemap(), &diagnostic)?;
    }
    Ok(())
}

fn push_diagnostic(
    out: &mut String,
    file: &CodeMap,
    diagnostic: &Diagnostic,
) -> Result<(), AllocError> {
    push_place(out, file, diagnostic.span)?;
    let (severity, code) = (diagnostic.severity, diagnostic.code);
    writeln!(out, "{severity}: {} [{code}]", diagnostic.message)?;
    for note in &diagnostic.notes {
        out.push_str("  ")?;
        push_place(out, file, note.span)?;
        writeln!(out, "{}", note.message)?;
    }
    Ok(())
}

fn push_place(out: &mut String, file: &CodeMap, span: Option<Span>) -> Result<(), AllocError> {
    match span {
        Some(span) => write!(out, "{}: ", file.resolve_span(span)),
        None => Ok(()),
    }
}
