//! A diagnostic as a command of GitHub's workflows.
ghost use Rattle.std.specs.Prelude.{◌≡◌, IfOk, Some, option_map, string_bytes};
ghost use Rattle.starlark_lexer.specs.Tokens.{span_of};
ghost use Rattle.starlark_diagnostics.specs.Ends.{ends_of as ends_at, file_of, resolved_ends};
ghost use Rattle.starlark_diagnostics.specs.Github as specs;
ghost use Rattle.starlark_diagnostics.specs.DiagnosticViews.{seen};

use crate::diagnostic::Diagnostic;
use crate::emit::place::{column_number, ends_of, line_number};
use crate::emit::written::{Style, written};
use starlark_lexer::codemap::{CodeMap, ResolvedSpan};
use std::alloc::{AllocError, Global};

/// `::error file=F,line=L,col=C,endLine=L,endColumn=C,title=CODE::MESSAGE`, and a line feed.
pub(crate) fn github_text(
    alloc: Global,
    path: &str,
    codemap: Option<&CodeMap>,
    diagnostic: &Diagnostic,
) -> Result<String, AllocError>
    ensures { IfOk result (λ text. string_bytes text ≡ specs.github_text path.now
        (ends_at (file_of codemap.entry) (option_map span_of diagnostic.now.span)) (seen diagnostic.now)) }
{
    let severity = diagnostic.severity.name();
    let file = written(alloc, Style::Property, path)?;
    let region = region_text(alloc, ends_of(codemap, diagnostic.span))?;
    let code = diagnostic.code.name();
    let message = written(alloc, Style::Data, diagnostic.message.as_str())?;
    format!(in alloc; "::{severity} file={file}{region},title={code}::{message}\n")
}

/// The lines and columns of a span, if there is one.
fn region_text(alloc: Global, ends: Option<ResolvedSpan>) -> Result<String, AllocError>
    ensures { IfOk result (λ text. string_bytes text ≡ specs.region_text (option_map resolved_ends ends)) }
{
    match ends {
        Some(ends) => ends_text(alloc, ends),
        None => Ok(String::new(alloc)),
    }
}

/// The lines and columns of a span.
fn ends_text(alloc: Global, ends: ResolvedSpan) -> Result<String, AllocError>
    ensures { IfOk result (λ text. string_bytes text ≡ specs.region_text (Some (resolved_ends ends))) }
{
    let line = line_number(ends.begin);
    let column = column_number(ends.begin);
    let end_line = line_number(ends.end);
    let end_column = column_number(ends.end);
    format!(in alloc; ",line={line},col={column},endLine={end_line},endColumn={end_column}")
}
