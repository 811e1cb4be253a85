//! Spans, and the positions in a text.
ghost use Rattle.std.specs.Prelude.{◌<◌, ◌^◌, length};

use starlark_lexer::codemap::{CodeMap, Pos, Span};
use std::alloc::AllocError;
use std::fmt::Write;

/// Appends the lines of the text, each with its span, without and with its line feed; then for each byte, and for two past the end,
/// its line, counted from 0, and its line and column as they are printed.
pub fn push_lines(out: &mut String, text: &str) -> Result<(), AllocError>
    requires { length text.now < 2 ^ 32 }
{
    let file = CodeMap::new(*out.allocator(), "dir/x.star", text)?;
    for line in 0..text.len() {
        push_line(out, &file, line)?;
    }
    push_line(out, &file, text.len())?;
    let end = text.len() as u32;
    for byte in 0..end.saturating_add(2) {
        let pos = Pos::new(byte);
        let (line, place) = (file.find_line(pos), file.resolve_span(Span::new(pos, pos)));
        writeln!(out, "{byte} {line} {place}")?;
    }
    Ok(())
}

/// Appends the line, if there is one.
fn push_line(out: &mut String, file: &CodeMap, line: usize) -> Result<(), AllocError> {
    if let Some(whole) = file.line_span_opt(line) {
        push_span(out, file.line_span_trim_newline(line))?;
        out.push(' ')?;
        push_span(out, whole)?;
        out.push('\n')?;
    }
    Ok(())
}

/// Appends each span of the text, up to a byte past its end: its position in the file, and its text.
pub fn push_file_spans(out: &mut String, text: &str) -> Result<(), AllocError>
    requires { length text.now < 2 ^ 32 }
{
    let file = CodeMap::new(*out.allocator(), "dir/x.star", text)?.clone()?;
    let past = (text.len() as u32).saturating_add(1);
    for begin in 0..=past {
        for end in begin..=past {
            push_file_span(out, &file, Span::new(Pos::new(begin), Pos::new(end)))?;
        }
    }
    Ok(())
}

fn push_file_span(out: &mut String, file: &CodeMap, span: Span) -> Result<(), AllocError> {
    let place = file.file_span(span)?.clone()?;
    let (resolved, text) = (place.resolve_span(), place.source_span());
    push_span(out, place.span)?;
    writeln!(out, " {place} {resolved} {text:?}")
}

/// Appends of each pair of spans, one a line of the text: their merge, and whether they meet; then the merge of all that were read.
pub fn push_spans(out: &mut String, text: &str) -> Result<(), AllocError> {
    let mut spans = Vec::new(*out.allocator());
    for line in text.lines() {
        if let Some(span) = span_of(line) {
            spans.push(span)?;
        }
    }
    for one in &spans {
        push_span(out, *one)?;
        out.push(':')?;
        for other in &spans {
            let meets = if one.intersects(*other) {
                "meets"
            } else {
                "and"
            };
            let begins = if one.contains(other.begin()) {
                "has"
            } else {
                "not"
            };
            write!(out, " {meets} {begins} ")?;
            push_span(out, one.merge(*other))?;
        }
        out.push('\n')?;
    }
    push_span(out, Span::merge_all(spans.iter().copied()))?;
    out.push('\n')
}

/// The span that is written `3..5`, if it is one.
fn span_of(text: &str) -> Option<Span> {
    let (begin, end) = text.split_once("..")?;
    let (begin, end) = (begin.parse::<u32>().ok()?, end.parse::<u32>().ok()?);
    if end < begin {
        return None;
    }
    Some(Span::new(Pos::new(begin), Pos::new(end)))
}

fn push_span(out: &mut String, span: Span) -> Result<(), AllocError> {
    let (begin, end) = (span.begin().get(), span.end().get());
    write!(out, "{begin}..{end}")
}
