//! Rows of diagnostics as the formats write them.
use crate::text::parsed;
use starlark_checks::error::Error;
use starlark_diagnostics::diagnostic::Diagnostic;
use starlark_diagnostics::emit::{Format, closing, diagnostic_text, opening, separator};
use starlark_diagnostics::file::{not_utf8, unreadable};
use starlark_diagnostics::issue::issue_diagnostic;
use starlark_diagnostics::refusal::error_diagnostic;
use starlark_lexer::codemap::CodeMap;
use starlark_lexer::dialect::Dialect;
use starlark_module::module::AstModule;
use starlark_passes::lint::issues;
use std::alloc::{AllocError, Global};

/// What a format writes for the file `path`.
#[derive(Clone, Copy)]
struct Emitter<'a> {
    format: Format,
    path: &'a str,
}

/// Appends what a format writes for the diagnostics of a text. The arguments are the format and the file's name, which may have spaces.
/// The text `NOT UTF-8` stands for a file that is not UTF-8, and `UNREADABLE` for one that cannot be read.
pub fn push_emitted(row: &mut String, words: &str, text: &str) -> Result<(), AllocError> {
    row.push('\n')?;
    let (name, path) = words.split_once(' ').unwrap_or((words, "a.bzl"));
    let emitter = Emitter {
        format: Format::named(name).unwrap_or(Format::Short),
        path,
    };
    row.push_str(opening(emitter.format))?;
    match text {
        "NOT UTF-8" => push_one(row, emitter, None, &not_utf8(*row.allocator())?)?,
        "UNREADABLE" => {
            let diagnostic = unreadable(*row.allocator(), "no such file")?;
            push_one(row, emitter, None, &diagnostic)?;
        }
        _ => push_all(row, emitter, text)?,
    }
    row.push_str(closing(emitter.format))
}

fn push_all(row: &mut String, emitter: Emitter, text: &str) -> Result<(), AllocError> {
    let dialect = Dialect::All;
    match parsed(*row.allocator(), text, &dialect)? {
        Ok(module) => push_issues(row, emitter, &module),
        Err(error) => push_error(row, emitter, &error, &dialect),
    }
}

fn push_error(
    row: &mut String,
    emitter: Emitter,
    error: &Error,
    dialect: &Dialect,
) -> Result<(), AllocError> {
    let diagnostic = error_diagnostic(*row.allocator(), error, dialect)?;
    match error.span() {
        Some(place) => push_one(row, emitter, Some(&place.file), &diagnostic),
        None => push_one(row, emitter, None, &diagnostic),
    }
}

fn push_issues(row: &mut String, emitter: Emitter, module: &AstModule) -> Result<(), AllocError> {
    let alloc: Global = *row.allocator();
    let issues = issues(alloc, module.statement())?;
    let mut between = "";
    for issue in &issues {
        row.push_str(between)?;
        let diagnostic = issue_diagnostic(alloc, issue, module.statement())?;
        push_one(row, emitter, Some(module.codemap()), &diagnostic)?;
        between = separator(emitter.format);
    }
    Ok(())
}

fn push_one(
    row: &mut String,
    emitter: Emitter,
    file: Option<&CodeMap>,
    diagnostic: &Diagnostic,
) -> Result<(), AllocError> {
    let text = diagnostic_text(
        *row.allocator(),
        emitter.format,
        emitter.path,
        file,
        diagnostic,
    )?;
    row.push_str(&text)
}
