//! The message on an unexpected token or end.
ghost use Rattle.std.specs.Prelude.{◌≡◌, ◌⊎◌, IfOk, string_bytes};
ghost use Rattle.starlark_lexer.specs.Tokens.{span_of};
ghost use Rattle.starlark_diagnostics.specs.Things as specs;
ghost use Rattle.starlark_diagnostics.specs.Unexpected.{IsSentence, Names, SaysUnexpected, name_of};

use crate::diagnostic::Note;
use crate::help::{help, sentence};
use crate::lexemes::lexemes;
use crate::refusal::Explanation;
use crate::spot::{block_of, last_kind, open_delimiter};
use crate::stop::Stop;
use crate::thing::Thing;
use crate::things::things;
use crate::token::token_name;
use starlark_lexer::codemap::{CodeMap, FileSpan, Span};
use starlark_lexer::dialect::Dialect;
use starlark_lexer::kind::Kind;
use std::alloc::{AllocError, Global};

/// Explains a token that cannot continue any program, or the end.
pub(crate) fn explain_unexpected(
    alloc: Global,
    place: &FileSpan,
    dialect: &Dialect,
) -> Result<Explanation, AllocError>
    ensures { IfOk result (λ explanation. SaysUnexpected place.now.file.text (span_of place.now.span) (string_bytes explanation.message)) }
{
    let lexemes = lexemes(alloc, place.file.source(), dialect)?;
    let stop = Stop::find(alloc, &lexemes, place.span)?;
    let open = open_delimiter(alloc, stop.before)?;
    let delimiter = match open {
        Some(span) => place.file.source_span(span),
        None => "",
    };
    Ok(Explanation {
        message: message(alloc, &stop, place.source_span(), delimiter)?,
        notes: notes(alloc, &stop, &place.file, open)?,
    })
}

/// The message: a sentence if one is clearer, else what is not expected and what is.
fn message(alloc: Global, stop: &Stop, text: &str, delimiter: &str) -> Result<String, AllocError>
    ensures { IfOk result (λ message. IsSentence (string_bytes message) ⊎ Names stop.now text.now (string_bytes message)) }
{
    if let Some(sentence) = sentence(stop, delimiter) {
        return String::from_str(alloc, sentence);
    }
    let name = name(alloc, stop.kind, text)?;
    match &stop.set {
        Some(set) => {
            let things = things(alloc, set, last_kind(stop.before))?;
            unexpected(alloc, &name, &things)
        }
        None => unexpected(alloc, &name, &[]),
    }
}

/// A token of the kind that is written so, or the end.
fn name(alloc: Global, kind: Option<Kind>, text: &str) -> Result<String, AllocError>
    ensures { IfOk result (λ name. string_bytes name ≡ name_of kind text.now) }
{
    match kind {
        Some(kind) => token_name(alloc, kind, text),
        None => String::from_str(alloc, "end of file"),
    }
}

/// The message of what is not expected, which is called so, and of what is.
fn unexpected(alloc: Global, name: &str, things: &[Thing]) -> Result<String, AllocError>
    ensures { IfOk result (λ message. string_bytes message ≡ specs.unexpected name.now things.now) }
{
    match things {
        [] => format!(in alloc; "unexpected {name}"),
        [a] => format!(in alloc; "unexpected {name}, expected {a}"),
        [a, b] => format!(in alloc; "unexpected {name}, expected {a} or {b}"),
        [a, b, c] => format!(in alloc; "unexpected {name}, expected {a}, {b} or {c}"),
        [a, b, c, d] => format!(in alloc; "unexpected {name}, expected {a}, {b}, {c} or {d}"),
        [_, _, _, _, _, ..] => format!(in alloc; "unexpected {name}"),
    }
}

/// Where the innermost delimiter was opened, whose block is missing, and how to write it if it is a common mistake.
fn notes(
    alloc: Global,
    stop: &Stop,
    file: &CodeMap,
    open: Option<Span>,
) -> Result<Vec<Note>, AllocError> {
    let mut notes = Vec::new(alloc);
    let mut delimiter = "";
    if let Some(span) = open {
        delimiter = file.source_span(span);
        notes.push(Note {
            message: format!(in alloc; "`{delimiter}` opened here")?,
            span: Some(span),
        })?;
    }
    if let Some(span) = block_of(stop) {
        let word = file.source_span(span);
        notes.push(Note {
            message: format!(in alloc; "the block of this `{word}` is missing")?,
            span: Some(span),
        })?;
    }
    if let Some(help) = help(stop, delimiter) {
        notes.push(Note {
            message: String::from_str(alloc, help)?,
            span: None,
        })?;
    }
    Ok(notes)
}
