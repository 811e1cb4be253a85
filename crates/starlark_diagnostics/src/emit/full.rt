//! A diagnostic with the lines of its span and its notes.
ghost use Rattle.std.specs.Prelude.{◌≡◌, ◌++◌, IfOk, OnOk, Some, flat_map, map, option_map, string_bytes};
ghost use Rattle.starlark_lexer.specs.Tokens.{span_of};
ghost use Rattle.starlark_diagnostics.specs.Ends.{file_of};
ghost use Rattle.starlark_diagnostics.specs.Full as specs;
ghost use Rattle.starlark_diagnostics.specs.Full.{note_text as text_of_note};
ghost use Rattle.starlark_diagnostics.specs.DiagnosticViews.{note_seen, seen};

use crate::diagnostic::{Diagnostic, Note};
use crate::emit::short::{place_text, short_text};
use crate::emit::snippet::snippet;
use starlark_lexer::codemap::{CodeMap, Span};
use std::alloc::{AllocError, Global};

/// The short line, the lines of the span, and the notes.
pub(crate) fn full_text(
    alloc: Global,
    path: &str,
    codemap: Option<&CodeMap>,
    diagnostic: &Diagnostic,
) -> Result<String, AllocError>
    ensures { IfOk result (λ text. string_bytes text ≡ specs.full_text path.now (file_of codemap.entry) (seen diagnostic.now)) }
{
    let line = short_text(alloc, path, codemap, diagnostic)?;
    let lines = lines_of(alloc, codemap, diagnostic.span)?;
    let notes = notes_text(alloc, path, codemap, diagnostic.notes.as_slice())?;
    format!(in alloc; "{line}{lines}{notes}")
}

/// The notes one after another.
fn notes_text(
    alloc: Global,
    path: &str,
    codemap: Option<&CodeMap>,
    notes: &[Note],
) -> Result<String, AllocError>
    ensures { IfOk result (λ text. string_bytes text ≡ flat_map (text_of_note path.now (file_of codemap.entry)) (map note_seen notes.now)) }
{
    let mut text = String::new(alloc);
    for note in notes {
        push_note(&mut text, path, codemap, note)?;
    }
    Ok(text)
}

/// Appends a note.
fn push_note(
    out: &mut String,
    path: &str,
    codemap: Option<&CodeMap>,
    note: &Note,
) -> Result<(), AllocError>
    ensures { OnOk result (string_bytes out.new ≡ string_bytes out.old ++ text_of_note path.now (file_of codemap.entry) (note_seen note.now)) }
{
    let text = note_text(*out.allocator(), path, codemap, note)?;
    out.push_str(&text)
}

/// `file:line:col: note: message` and the lines of its span; or `help: message` if it has no place.
fn note_text(
    alloc: Global,
    path: &str,
    codemap: Option<&CodeMap>,
    note: &Note,
) -> Result<String, AllocError>
    ensures { IfOk result (λ text. string_bytes text ≡ text_of_note path.now (file_of codemap.entry) (note_seen note.now)) }
{
    let message = note.message.as_str();
    match note.span {
        Some(span) => {
            let place = place_text(alloc, path, codemap, Some(span))?;
            let lines = lines_of(alloc, codemap, Some(span))?;
            format!(in alloc; "{place}: note: {message}\n{lines}")
        }
        None => format!(in alloc; "     = help: {message}\n"),
    }
}

/// The lines of a span, if it is in a text.
fn lines_of(
    alloc: Global,
    codemap: Option<&CodeMap>,
    span: Option<Span>,
) -> Result<String, AllocError>
    ensures { IfOk result (λ text. string_bytes text ≡ specs.lines_of (file_of codemap.entry) (option_map span_of span)) }
{
    match codemap {
        Some(file) => lines_in(alloc, file, span),
        None => Ok(String::new(alloc)),
    }
}

/// The lines of a span, if there is one.
fn lines_in(alloc: Global, file: &CodeMap, span: Option<Span>) -> Result<String, AllocError>
    ensures { IfOk result (λ text. string_bytes text ≡ specs.lines_of (Some file.now) (option_map span_of span)) }
{
    match span {
        Some(span) => snippet(alloc, file, span),
        None => Ok(String::new(alloc)),
    }
}
