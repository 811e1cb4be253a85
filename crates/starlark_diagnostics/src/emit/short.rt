//! One line for a diagnostic.
ghost use Rattle.std.specs.Prelude.{◌≡◌, IfOk, Some, option_map, string_bytes};
ghost use Rattle.starlark_lexer.specs.Tokens.{span_of};
ghost use Rattle.starlark_diagnostics.specs.Ends.{ends_of as ends_at, file_of, resolved_ends};
ghost use Rattle.starlark_diagnostics.specs.DiagnosticViews.{seen};
ghost use Rattle.starlark_diagnostics.specs.Short as specs;

use crate::diagnostic::Diagnostic;
use crate::emit::place::{column_number, ends_of, line_number};
use starlark_lexer::codemap::{CodeMap, ResolvedSpan, Span};
use std::alloc::{AllocError, Global};

/// `file:line:col: error: message [code]`, and a line feed.
pub(crate) fn short_text(
    alloc: Global,
    path: &str,
    codemap: Option<&CodeMap>,
    diagnostic: &Diagnostic,
) -> Result<String, AllocError>
    ensures { IfOk result (λ text. string_bytes text ≡ specs.short_text path.now
        (ends_at (file_of codemap.entry) (option_map span_of diagnostic.now.span)) (seen diagnostic.now)) }
{
    let place = place_text(alloc, path, codemap, diagnostic.span)?;
    let severity = diagnostic.severity.name();
    let code = diagnostic.code.name();
    let message = diagnostic.message.as_str();
    format!(in alloc; "{place}: {severity}: {message} [{code}]\n")
}

/// `file:line:col`, or `file` if it is the whole file.
pub(crate) fn place_text(
    alloc: Global,
    path: &str,
    codemap: Option<&CodeMap>,
    span: Option<Span>,
) -> Result<String, AllocError>
    ensures { IfOk result (λ text. string_bytes text ≡ specs.at_text path.now (ends_at (file_of codemap.entry) (option_map span_of span))) }
{
    match ends_of(codemap, span) {
        Some(ends) => begin_text(alloc, path, ends),
        None => String::from_str(alloc, path),
    }
}

/// `file:line:col` of the start of a span.
fn begin_text(alloc: Global, path: &str, ends: ResolvedSpan) -> Result<String, AllocError>
    ensures { IfOk result (λ text. string_bytes text ≡ specs.at_text path.now (Some (resolved_ends ends))) }
{
    let line = line_number(ends.begin);
    let column = column_number(ends.begin);
    format!(in alloc; "{path}:{line}:{column}")
}
