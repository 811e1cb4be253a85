//! Where a text stops being the beginning of a program.
ghost use Rattle.std.specs.Prelude.{◌≡◌, IfOk, IfSome, IsTrue, ◌↔◌};
ghost use Rattle.starlark_diagnostics.specs.Stops.{HasMember, IsAt, IsStop};

use starlark_expected::expected::{Expected, expected};
use starlark_lexer::kind::{Kind, kind_of};
use starlark_lexer::span::Span;
use starlark_lexer::token::Lexeme;
use std::alloc::{AllocError, Global};

/// The lexemes before a token that cannot follow them, and what can.
#[derive(Drop)]
pub(crate) struct Stop<'a> {
    pub before: &'a [Lexeme],
    /// The kind of the token. `None` at the end.
    pub kind: Option<Kind>,
    /// What may follow. `None` if no program begins with the lexemes.
    pub set: Option<Expected>,
}

impl<'a> Stop<'a> {
    /// The first token at the span that cannot follow those before it, or else the end.
    pub fn find(alloc: Global, lexemes: &'a [Lexeme], span: Span) -> Result<Stop<'a>, AllocError>
        ensures { IfOk result (IsStop lexemes.now span) }
    {
        for at in 0..lexemes.len() {
            if let Some(kind) = kind_at(&lexemes[at], span) {
                let set = expected(alloc, &lexemes[..at])?;
                if !has(&set, kind) {
                    return Ok(Stop {
                        before: &lexemes[..at],
                        kind: Some(kind),
                        set,
                    });
                }
            }
        }
        Ok(Stop {
            before: lexemes,
            kind: None,
            set: expected(alloc, lexemes)?,
        })
    }
}

/// The kind of a token that has this span.
fn kind_at(lexeme: &Lexeme, span: Span) -> Option<Kind>
    ensures { IfSome result (λ kind. IsAt span kind lexeme.now) }
{
    match lexeme {
        Ok((begin, token, end)) => {
            if *begin == span.begin().get() as usize && *end == span.end().get() as usize {
                Some(kind_of(token))
            } else {
                None
            }
        }
        Err(_) => None,
    }
}

/// Whether the kind is in the set, if there is one.
fn has(set: &Option<Expected>, kind: Kind) -> bool
    ensures { IsTrue result ↔ HasMember set.now kind }
{
    match set {
        Some(set) => set.has(kind),
        None => false,
    }
}
