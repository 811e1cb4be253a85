//! The lines of a span, with carets below it.
ghost use Rattle.std.specs.Prelude.{◌≡◌, ◌-◌, ◌+◌, ◌<◌, ◌^◌, IfOk, max, string_bytes};
ghost use Rattle.starlark_lexer.specs.Tokens.{span_of};
ghost use Rattle.starlark_diagnostics.specs.Snippet as specs;

use crate::emit::row::Row;
use crate::emit::written::{Style, written};
use starlark_lexer::codemap::{CodeMap, Pos, Span};
use std::alloc::{AllocError, Global};
use unicode_width::UnicodeWidthStr;

/// The columns that the number of a line has at least.
const NUMBER: usize = 4;

/// The first three lines of a span, with carets below what is in it.
pub(crate) fn snippet(alloc: Global, file: &CodeMap, span: Span) -> Result<String, AllocError>
    ensures { IfOk result (λ text. string_bytes text ≡ specs.snippet file.now.text (span_of span)) }
{
    let first = first_line(file, span);
    let last = last_line(file, span);
    let one = line_up_to(alloc, file, span, first, last)?;
    let two = line_up_to(alloc, file, span, first + 1, last)?;
    let three = line_up_to(alloc, file, span, first + 2, last)?;
    let rest = rest_after(first + 2, last);
    format!(in alloc; "{one}{two}{three}{rest}")
}

/// The line where the span begins.
fn first_line(file: &CodeMap, span: Span) -> usize
    ensures line { result ≡ specs.first_line file.now.text (span_of span) }
    ensures small { result < 2 ^ 32 }
{
    let ends = file.resolve_span(span);
    ends.begin.line as usize
}

/// The line of the last byte of the span.
fn last_line(file: &CodeMap, span: Span) -> usize
    ensures { result ≡ specs.last_line file.now.text (span_of span) }
{
    let ends = file.resolve_span(to_last_byte(span));
    ends.end.line as usize
}

/// The span without its last byte.
fn to_last_byte(span: Span) -> Span
    ensures begin { result.begin ≡ span.begin }
    ensures end { result.end.byte ≡ max (span.end.byte - 1) span.begin.byte }
{
    let begin = span.begin().get();
    let last = span.end().get().saturating_sub(1);
    Span::new(Pos::new(begin), Pos::new(last.max(begin)))
}

/// What is written if there are further lines.
fn rest_after(line: usize, last: usize) -> &'static str
    ensures { result.now ≡ specs.rest_after line last }
{
    if line < last { "     | ...\n" } else { "" }
}

/// A line, if it is not after the last.
fn line_up_to(
    alloc: Global,
    file: &CodeMap,
    span: Span,
    line: usize,
    last: usize,
) -> Result<String, AllocError>
    requires { line < 2 ^ 33 }
    ensures { IfOk result (λ text. string_bytes text ≡ specs.line_up_to file.now.text (span_of span) line last) }
{
    if line > last {
        return Ok(String::new(alloc));
    }
    match file.line_span_opt(line) {
        Some(_) => {
            let ends = file.line_span_trim_newline(line);
            marked_line(alloc, file, line as u64 + 1, Row::new(ends, span))
        }
        None => Ok(String::new(alloc)),
    }
}

/// A line with its number, and below it carets where the span is.
fn marked_line(alloc: Global, file: &CodeMap, number: u64, row: Row) -> Result<String, AllocError>
    ensures { IfOk result (λ text. string_bytes text ≡ specs.marked_line file.now.text number row) }
{
    let number = number_text(alloc, number)?;
    let margin = " ".repeat(alloc, number.len())?;
    let line = shown_row(alloc, file, row)?;
    let carets = carets(alloc, file, row)?;
    format!(in alloc; "{number} | {line}\n{margin} | {carets}\n")
}

/// The number of a line, with spaces before it.
fn number_text(alloc: Global, number: u64) -> Result<String, AllocError>
    ensures { IfOk result (λ text. string_bytes text ≡ specs.number_text number) }
{
    let digits = format!(in alloc; "{number}")?;
    let spaces = " ".repeat(alloc, NUMBER.saturating_sub(digits.len()))?;
    format!(in alloc; "{spaces}{digits}")
}

/// What is shown of a line.
fn shown_row(alloc: Global, file: &CodeMap, row: Row) -> Result<String, AllocError>
    ensures { IfOk result (λ text. string_bytes text ≡ specs.shown_row file.now.text row) }
{
    let cut = row.cut();
    let left = shown(alloc, file, row.from, row.begin)?;
    let part = shown(alloc, file, row.begin, row.end)?;
    let right = shown(alloc, file, row.end, row.to)?;
    let tail = row.tail();
    format!(in alloc; "{cut}{left}{part}{right}{tail}")
}

/// The carets below what is in the span, at least one, and the spaces before them.
fn carets(alloc: Global, file: &CodeMap, row: Row) -> Result<String, AllocError>
    ensures { IfOk result (λ text. string_bytes text ≡ specs.carets file.now.text row) }
{
    let cut = " ".repeat(alloc, row.cut().len())?;
    let left = " ".repeat(alloc, width(alloc, file, row.from, row.begin)?)?;
    let part = "^".repeat(alloc, width(alloc, file, row.begin, row.end)?.max(1))?;
    format!(in alloc; "{cut}{left}{part}")
}

/// The columns of the text between two positions, as it is shown.
fn width(alloc: Global, file: &CodeMap, begin: u32, end: u32) -> Result<usize, AllocError>
    ensures { IfOk result (λ columns. columns ≡ specs.width file.now.text begin end) }
{
    let text = shown(alloc, file, begin, end)?;
    Ok(text.as_str().width())
}

/// The text between two positions, as it is shown.
fn shown(alloc: Global, file: &CodeMap, begin: u32, end: u32) -> Result<String, AllocError>
    ensures { IfOk result (λ text. string_bytes text ≡ specs.shown file.now.text begin end) }
{
    let span = Span::new(Pos::new(begin), Pos::new(end.max(begin)));
    written(alloc, Style::Shown, file.source_span(span))
}
