//! Why tokens are rejected.
ghost use Rattle.std.specs.Prelude.{◌≡◌};
ghost use Rattle.starlark_spec.specs.declared.refusal.Refusal.TheVariants.{Memory};

use crate::error::{GrammarError, NoTypeForm};
use starlark_lexer::span::Span;
use starlark_lexer::token::LexerError;
use std::alloc::{AllocError, AllocFailed};

/// Why the items of an iterator are not a module. A span is a range of byte offsets.
#[derive(Debug, Drop)]
pub enum Refusal {
    /// Memory for the tree could not be allocated, or the lexer ran out of memory.
    Memory,
    /// The lexer's error. The tokens before it are the start of some program.
    Lexer(LexerError),
    /// The first token that cannot continue any program.
    UnexpectedToken(Span),
    /// The end of an incomplete program: an empty span, at the end of the last token, or at 0.
    UnexpectedEnd(Span),
    /// A rule of statements and f-strings that the text violates, and where.
    Grammar(GrammarError, Span),
    /// A type, if the dialect has no types.
    Types(Span),
    /// An expression of a form that cannot be a type, where a type is required.
    InvalidType(NoTypeForm, Span),
    /// An empty list, where a type is required.
    EmptyListInType(Span),
    /// What is before a `.` in a type, if it is not names separated by dots.
    DotInType(Span),
    /// What is before `[` with two parts in a type, if it is not names separated by dots.
    ExpectingPath(Span),
    /// The path before a `.type` at its end, and where it begins. It is boxed, so that a refusal is small.
    DotTypeBan(Box<(String, Span)>),
}

impl From<AllocError> for Refusal {
    ghost from_gives = { λ _ e. e ≡ Memory };

    fn from(_: AllocError) -> Self {
        Refusal::Memory
    }
}

impl<T: Drop> From<AllocFailed<T>> for Refusal {
    ghost from_gives = { λ _ e. e ≡ Memory };

    fn from(_: AllocFailed<T>) -> Self {
        Refusal::Memory
    }
}
