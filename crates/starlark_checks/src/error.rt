//! What is refused, and where.
ghost use Rattle.std.specs.Prelude.{◌≡◌, ◌≢◌, ◌↔◌, IsTrue, IfOk, Some, None, option_copied};
ghost use Rattle.starlark_checks.specs.Refusals as refusals;
ghost use Rattle.starlark_checks.specs.Kinds as kinds;
ghost use Rattle.starlark_checks.specs.Kinds.{HasPlace};

mod kind;
mod line;
mod refusal;
mod text;

pub use crate::error::kind::ErrorKind;
pub use crate::error::line::ErrorLine;
use starlark_lexer::codemap::{CodeMap, FileSpan, Span};
use starlark_lexer::token::{LexerError, LexerErrorKind};
pub use starlark_spec::error::{
    CallError, DialectError, GrammarError, ParamsError, PlaceError, TypeExprUnpackError,
};
use std::alloc::{AllocError, AllocFailed};
use std::marker::Model;

/// What is refused, and where. Its text is that of its kind.
#[derive(Debug, Drop)]
pub struct Error {
    kind: ErrorKind,
    span: Option<FileSpan>,
}

impl Model for Error {
    ghost use Rattle.starlark_checks.specs.Refusals.{Refusal, refusal};

    ghost Value = { Refusal };

    ghost view = { λ e. refusal e.kind e.span };
}

impl Error {
    /// The error for a text that is longer than positions can count.
    pub fn text_too_long() -> Self
        ensures { result ≡ refusals.without_place kinds.TextTooLong }
    {
        Error {
            kind: ErrorKind::TextTooLong,
            span: None,
        }
    }

    /// Out of memory.
    fn out_of_memory() -> Self
        ensures { result ≡ refusals.out_of_memory }
    {
        Error {
            kind: ErrorKind::Memory,
            span: None,
        }
    }

    /// An error at a span of the code map's file: neither a text that is too long nor out of memory.
    ///
    /// Fails if the code map has too many clones to count.
    pub fn new_spanned(kind: ErrorKind, span: Span, codemap: &CodeMap) -> Result<Self, AllocError>
        requires { HasPlace (kinds.kind_of kind) }
        ensures { IfOk result (λ e. e ≡ refusals.in_file (kinds.kind_of kind) codemap.now span) }
    {
        Ok(Error {
            span: Some(codemap.file_span(span)?),
            kind,
        })
    }

    /// The error for what the lexer refuses, which is out of memory if the lexer ran out of memory.
    ///
    /// Fails if the lexer ran out of memory, or the code map has too many clones to count.
    pub fn from_lexer(error: LexerError, codemap: &CodeMap) -> Result<Self, AllocError>
        ensures memory { IfOk result (λ _. error.kind ≢ LexerErrorKind.Memory) }
        ensures error { IfOk result (λ e. e ≡ refusals.in_file (kinds.Lexer error) codemap.now error.span) }
    {
        match error.kind {
            LexerErrorKind::Memory => Err(AllocError),
            _ => Error::new_spanned(ErrorKind::Lexer(error), error.span, codemap),
        }
    }

    /// What is refused.
    pub fn kind(&self) -> &ErrorKind
        ensures { kinds.kind_of result.now ≡ self.now.kind }
    {
        &self.kind
    }

    /// Whether memory ran out.
    pub fn is_out_of_memory(&self) -> bool
        ensures { IsTrue result ↔ (self.now.kind ≡ kinds.Memory) }
    {
        matches!(self.kind, ErrorKind::Memory)
    }

    /// Where it is, if it has a position.
    pub fn span(&self) -> Option<&FileSpan>
        ensures { refusals.place result ≡ self.now.place }
    {
        self.span.as_ref()
    }

    /// What a program prints for its user, in one line without its newline: where it is, if it has a position, as
    /// `FILE:LINE:COLUMN`, then `: ` and its text.
    pub fn line(&self) -> ErrorLine<'_>
        ensures { result.error.now ≡ self.now }
    {
        ErrorLine { error: self }
    }
}

impl From<AllocError> for Error {
    ghost use Rattle.std.specs.Prelude.{◌≡◌};
    ghost use Rattle.starlark_checks.specs.Refusals.{out_of_memory};

    ghost from_gives = { λ _ e. e ≡ out_of_memory };

    fn from(_error: AllocError) -> Error {
        Error::out_of_memory()
    }
}

impl<T: Drop> From<AllocFailed<T>> for Error {
    ghost use Rattle.std.specs.Prelude.{◌≡◌};
    ghost use Rattle.starlark_checks.specs.Refusals.{out_of_memory};

    ghost from_gives = { λ _ e. e ≡ out_of_memory };

    fn from(_failed: AllocFailed<T>) -> Error {
        Error::out_of_memory()
    }
}

/// An error value with the span of a file that it is about.
#[derive(Debug, Drop)]
pub struct WithDiagnostic<E> {
    pub error: E,
    pub span: FileSpan,
}

impl<E: Drop> WithDiagnostic<E> {
    /// The error value with a span of the code map's file.
    ///
    /// Fails if the code map has too many clones to count.
    pub fn new_spanned(error: E, span: Span, codemap: &CodeMap) -> Result<Self, AllocError>
        ensures error { IfOk result (λ d. d.error ≡ error) }
        ensures file { IfOk result (λ d. d.span.file ≡ codemap.now) }
        ensures span { IfOk result (λ d. d.span.span ≡ span) }
    {
        Ok(WithDiagnostic {
            span: codemap.file_span(span)?,
            error,
        })
    }
}

impl From<WithDiagnostic<TypeExprUnpackError>> for Error {
    ghost use Rattle.std.specs.Prelude.{◌≡◌};
    ghost use Rattle.starlark_spec.specs.Faults.{TypeExpr, type_fault_of};
    ghost use Rattle.starlark_checks.specs.Kinds.{Broken};
    ghost use Rattle.starlark_checks.specs.Refusals.{at, place_of};

    ghost from_gives = { λ d e. e ≡ at (Broken (TypeExpr (type_fault_of d.error))) (place_of d.span) };

    fn from(diagnostic: WithDiagnostic<TypeExprUnpackError>) -> Error {
        let WithDiagnostic { error, span } = diagnostic;
        Error {
            kind: ErrorKind::TypeExpr(error),
            span: Some(span),
        }
    }
}

impl From<TypeExprUnpackError> for Error {
    ghost use Rattle.std.specs.Prelude.{◌≡◌};
    ghost use Rattle.starlark_spec.specs.Faults.{TypeExpr, type_fault_of};
    ghost use Rattle.starlark_checks.specs.Kinds.{Broken};
    ghost use Rattle.starlark_checks.specs.Refusals.{without_place};

    ghost from_gives = { λ t e. e ≡ without_place (Broken (TypeExpr (type_fault_of t))) };

    fn from(error: TypeExprUnpackError) -> Error {
        Error {
            kind: ErrorKind::TypeExpr(error),
            span: None,
        }
    }
}
