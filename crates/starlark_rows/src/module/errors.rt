//! The texts of errors that no text causes, the positions of errors, and the order of the parts into which parameters are divided.
use crate::module::out::push_refusal;
use starlark_checks::def::DefParamIndices;
use starlark_checks::error::{Error, ErrorKind, ParamsError, TypeExprUnpackError, WithDiagnostic};
use starlark_lexer::codemap::{CodeMap, Pos, Span};
use starlark_lexer::token::{LexerError, LexerErrorKind};
use std::alloc::AllocError;
use std::collections::HashSet;
use std::fmt::Write;

const PARAMS: [ParamsError; 10] = [
    ParamsError::TooMany,
    ParamsError::SlashFirst,
    ParamsError::DuplicateName,
    ParamsError::AfterKwargs,
    ParamsError::PositionalAfterNonPositional,
    ParamsError::ArgsAfterArgs,
    ParamsError::MultipleSlash,
    ParamsError::MultipleKwargs,
    ParamsError::StarLast,
    ParamsError::StarWithoutNamed,
];

/// Appends the errors, and then the parts of parameters.
pub fn push_errors(out: &mut String) -> Result<(), AllocError> {
    for error in PARAMS {
        writeln!(out, "{error}")?;
    }
    push_placed(out)?;
    push_refusal(out, &Error::text_too_long())?;
    push_refusal(out, &Error::from(AllocError))?;
    push_refusal(out, &Error::from(TypeExprUnpackError::EmptyListInType))?;
    push_indices(out)
}

/// Appends errors at a span.
fn push_placed(out: &mut String) -> Result<(), AllocError> {
    let codemap = CodeMap::new(*out.allocator(), "stdin", "x = class")?;
    let span = Span::new(Pos::new(4), Pos::new(9));
    let kind = LexerErrorKind::ReservedKeyword;
    push_error(
        out,
        &Error::from_lexer(LexerError { kind, span }, &codemap)?,
    )?;
    push_error(
        out,
        &Error::new_spanned(ErrorKind::UnexpectedToken, span, &codemap)?,
    )?;
    let empty = WithDiagnostic::new_spanned(TypeExprUnpackError::EmptyListInType, span, &codemap)?;
    push_error(out, &Error::from(empty))
}

/// Appends the text at the error's position, and the error.
fn push_error(out: &mut String, error: &Error) -> Result<(), AllocError> {
    if let Some(place) = error.span() {
        write!(out, "{place} {} ", place.source_span())?;
    }
    push_refusal(out, error)
}

/// Appends how parts of parameters are ordered, and whether a set holds each once.
fn push_indices(out: &mut String) -> Result<(), AllocError> {
    let few = DefParamIndices {
        num_positional: 1,
        num_positional_only: 0,
        args: None,
        kwargs: None,
    };
    let more = DefParamIndices {
        args: Some(1),
        ..few
    };
    let (is_less, is_more, is_same) = (few < more, few > more, few == more);
    let mut found = HashSet::new(*out.allocator());
    let is_first = found.insert(few)?;
    let is_again = found.insert(few)?;
    let is_other = found.insert(more)?;
    writeln!(
        out,
        "{is_less} {is_more} {is_same} {is_first} {is_again} {is_other}"
    )
}
