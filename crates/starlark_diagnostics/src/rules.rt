//! Messages on broken rules.
ghost use Rattle.std.specs.Prelude.{◌≡◌, IfOk, string_bytes};
ghost use Rattle.starlark_checks.specs.ErrorText.{error_text};
ghost use Rattle.starlark_checks.specs.Kinds.{kind_of};
ghost use Rattle.starlark_checks.specs.Refusals.{place_of};
ghost use Rattle.starlark_diagnostics.specs.Rules.{SaysName, dialect_message, dialect_name, part_name, text_with_name};

use crate::diagnostic::Note;
use crate::entries::{Entries, earlier};
use crate::lexemes::lexemes;
use crate::refusal::Explanation;
use starlark_checks::error::{DialectError, ErrorKind};
use starlark_lexer::codemap::{CodeMap, FileSpan, Span};
use starlark_lexer::dialect::Dialect;
use std::alloc::{AllocError, Global};

/// The kind's own text, and no notes.
pub(crate) fn explain_rule(alloc: Global, kind: &ErrorKind) -> Result<Explanation, AllocError>
    ensures { IfOk result (λ explanation. string_bytes explanation.message ≡ error_text (kind_of kind.now)) }
{
    Ok(Explanation {
        message: kind.to_string(alloc)?,
        notes: Vec::new(alloc),
    })
}

/// What the dialect leaves out, and the field that leaves it out.
pub(crate) fn explain_dialect(
    alloc: Global,
    error: DialectError,
    dialect: &Dialect,
) -> Result<Explanation, AllocError>
    ensures { IfOk result (λ explanation. string_bytes explanation.message ≡ dialect_message dialect.now error) }
{
    let field = field(error);
    let mut notes = Vec::new(alloc);
    notes.push(Note {
        message: format!(in alloc; "`{field}` is off")?,
        span: None,
    })?;
    let (name, part) = (name(dialect), part(error));
    Ok(Explanation {
        message: format!(in alloc; "{name} has no {part}")?,
        notes,
    })
}

/// A dialect as a message names it.
fn name(dialect: &Dialect) -> &'static str
    ensures { result.now ≡ dialect_name dialect.now }
{
    if *dialect == Dialect::Bare {
        "the dialect `bare`"
    } else if *dialect == Dialect::Standard {
        "the dialect `standard`"
    } else {
        "this dialect"
    }
}

/// A part of the language that a dialect may leave out.
fn part(error: DialectError) -> &'static str
    ensures { result.now ≡ part_name error }
{
    match error {
        DialectError::Types => "type annotations",
        DialectError::FStrings => "f-strings",
        DialectError::KeywordOnly => "`*` without a name among parameters",
        DialectError::PositionalOnly => "`/` among parameters",
        DialectError::Def => "`def`",
        DialectError::Load => "`load`",
        DialectError::Ellipsis => "`...`",
        DialectError::Lambda => "`lambda`",
    }
}

/// The field of a dialect that has the part.
fn field(error: DialectError) -> &'static str {
    match error {
        DialectError::Types | DialectError::Ellipsis => "enable_types",
        DialectError::FStrings => "enable_f_strings",
        DialectError::KeywordOnly => "enable_keyword_only_arguments",
        DialectError::PositionalOnly => "enable_positional_only_arguments",
        DialectError::Def => "enable_def",
        DialectError::Load => "enable_load",
        DialectError::Lambda => "enable_lambda",
    }
}

/// The kind's own text with the name that is there twice, and where it is first.
pub(crate) fn explain_name(
    alloc: Global,
    kind: &ErrorKind,
    place: &FileSpan,
    dialect: &Dialect,
    entries: Entries,
) -> Result<Explanation, AllocError>
    ensures { IfOk result (λ explanation. SaysName (error_text (kind_of kind.now)) (place_of place.now) (string_bytes explanation.message)) }
{
    let lexemes = lexemes(alloc, place.file.source(), dialect)?;
    let found = earlier(alloc, place, &lexemes, entries)?;
    Ok(Explanation {
        message: with_name(alloc, kind, &place.file, found.name)?,
        notes: notes_at(alloc, found.first)?,
    })
}

/// The kind's own text, and a name of the file.
fn with_name(
    alloc: Global,
    kind: &ErrorKind,
    file: &CodeMap,
    name: Option<Span>,
) -> Result<String, AllocError>
    ensures { IfOk result (λ message. string_bytes message ≡ text_with_name (error_text (kind_of kind.now)) file.now.text name) }
{
    match name {
        Some(span) => {
            let name = file.source_span(span);
            format!(in alloc; "{kind} `{name}`")
        }
        None => kind.to_string(alloc),
    }
}

/// A note on where it is first, if that is known.
fn notes_at(alloc: Global, first: Option<Span>) -> Result<Vec<Note>, AllocError> {
    let mut notes = Vec::new(alloc);
    if let Some(span) = first {
        notes.push(Note {
            message: String::from_str(alloc, "it is here first")?,
            span: Some(span),
        })?;
    }
    Ok(notes)
}
