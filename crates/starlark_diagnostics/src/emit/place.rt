//! The lines and columns of a span, if the file's text is known.
ghost use Rattle.std.specs.Prelude.{◌≡◌, ◌+◌, option_map};
ghost use Rattle.starlark_lexer.specs.Tokens.{span_of};
ghost use Rattle.starlark_diagnostics.specs.Ends as specs;
ghost use Rattle.starlark_diagnostics.specs.Ends.{ends_in as ends_in_file, file_of, resolved_ends};

use starlark_lexer::codemap::{CodeMap, ResolvedPos, ResolvedSpan, Span};

/// The ends of a span of a file, if there are both.
pub(crate) fn ends_of(codemap: Option<&CodeMap>, span: Option<Span>) -> Option<ResolvedSpan>
    ensures { option_map resolved_ends result ≡ specs.ends_of (file_of codemap.entry) (option_map span_of span) }
{
    match codemap {
        Some(file) => ends_in(file, span),
        None => None,
    }
}

/// The ends of a span of this file, if there is one.
fn ends_in(file: &CodeMap, span: Option<Span>) -> Option<ResolvedSpan>
    ensures { option_map resolved_ends result ≡ option_map (ends_in_file file.now) (option_map span_of span) }
{
    match span {
        Some(span) => Some(file.resolve_span(span)),
        None => None,
    }
}

/// The line, counted from 1.
pub(crate) fn line_number(at: ResolvedPos) -> u64
    ensures { result ≡ at.line + 1 }
{
    u64::from(at.line) + 1
}

/// The column in characters, counted from 1.
pub(crate) fn column_number(at: ResolvedPos) -> u64
    ensures { result ≡ at.column + 1 }
{
    u64::from(at.column) + 1
}
