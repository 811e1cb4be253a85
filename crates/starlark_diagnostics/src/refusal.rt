//! The diagnostic of an error.
ghost use Rattle.std.specs.Prelude.{◌≡◌, IfOk, Some, option_map, string_bytes};
ghost use Rattle.starlark_lexer.specs.Tokens.{span_of};
ghost use Rattle.starlark_checks.specs.Kinds.{kind_of};
ghost use Rattle.starlark_checks.specs.Refusals.{place, place_of};
ghost use Rattle.starlark_diagnostics.specs.Codes as codes;
ghost use Rattle.starlark_diagnostics.specs.ErrorMessages.{Says, SaysAt, SaysKind};
ghost use Rattle.starlark_diagnostics.specs.declared.diagnostic.Severity.TheVariants as severities;

use crate::diagnostic::{Diagnostic, Note, Severity};
use crate::entries::Entries;
use crate::kind::code_of;
use crate::lexical::explain_lexer;
use crate::rules::{explain_dialect, explain_name, explain_rule};
use crate::unexpected::explain_unexpected;
use starlark_checks::error::{CallError, Error, ErrorKind, ParamsError};
use starlark_lexer::codemap::{FileSpan, Span};
use starlark_lexer::dialect::Dialect;
use std::alloc::{AllocError, Global};

/// A message and its notes.
#[derive(Drop)]
pub(crate) struct Explanation {
    pub message: String,
    pub notes: Vec<Note>,
}

/// The diagnostic of an error, of a text that was read under the dialect.
///
/// Fails if memory runs out.
pub fn error_diagnostic(
    alloc: Global,
    error: &Error,
    dialect: &Dialect,
) -> Result<Diagnostic, AllocError>
    ensures code { IfOk result (λ d. d.code ≡ codes.code_of error.now.kind) }
    ensures severity { IfOk result (λ d. d.severity ≡ severities.Error) }
    ensures span { IfOk result (λ d. option_map span_of d.span ≡ option_map (λ p. p.span) error.now.place) }
    ensures message { IfOk result (λ d. Says dialect.now error.now (string_bytes d.message)) }
{
    let explanation = explain(alloc, error.kind(), error.span(), dialect)?;
    Ok(Diagnostic {
        code: code_of(error.kind()),
        severity: Severity::Error,
        message: explanation.message,
        span: span_of(error.span()),
        notes: explanation.notes,
    })
}

/// The span of a place.
fn span_of(at: Option<&FileSpan>) -> Option<Span>
    ensures { option_map span_of result ≡ option_map (λ p. p.span) (place at.entry) }
{
    match at {
        Some(place) => Some(place.span),
        None => None,
    }
}

/// Explains an error of the kind, at a place if it is anywhere.
fn explain(
    alloc: Global,
    kind: &ErrorKind,
    at: Option<&FileSpan>,
    dialect: &Dialect,
) -> Result<Explanation, AllocError>
    ensures { IfOk result (λ explanation. SaysKind dialect.now (kind_of kind.now) (place at.entry) (string_bytes explanation.message)) }
{
    match at {
        Some(place) => explain_at(alloc, kind, place, dialect),
        None => explain_rule(alloc, kind),
    }
}

/// Explains an error at a place.
fn explain_at(
    alloc: Global,
    kind: &ErrorKind,
    place: &FileSpan,
    dialect: &Dialect,
) -> Result<Explanation, AllocError>
    ensures { IfOk result (λ explanation. SaysAt dialect.now (kind_of kind.now) (place_of place.now) (string_bytes explanation.message)) }
{
    match kind {
        ErrorKind::UnexpectedToken | ErrorKind::UnexpectedEnd => {
            explain_unexpected(alloc, place, dialect)
        }
        ErrorKind::Lexer(error) => {
            explain_lexer(alloc, error.kind, place.source_span(), place.file.source())
        }
        ErrorKind::Dialect(error) => explain_dialect(alloc, *error, dialect),
        ErrorKind::Call(CallError::RepeatedName) => {
            explain_name(alloc, kind, place, dialect, Entries::Arguments)
        }
        ErrorKind::Params(ParamsError::DuplicateName) => {
            explain_name(alloc, kind, place, dialect, Entries::Parameters)
        }
        _ => explain_rule(alloc, kind),
    }
}
