//! An iterator that passes on the lexemes of another as long as they nest no deeper than a limit.
ghost use Rattle.std.specs.Prelude.{◌≡◌, ◌≤◌, ◌<◌, ◌^◌, ◌∷◌, [], true, false, IfErr, IfOk, OnOk};
ghost use Rattle.starlark_lexer.specs.Tokens.{fault_of, from_to};
ghost use Rattle.starlark_lexer.specs.declared.token.LexerErrorKind.TheVariants as kinds;
ghost use Rattle.starlark_depth.specs.Counted.{state_of};
ghost use Rattle.starlark_depth.specs.declared.levels.Refused.TheVariants as refusals;
ghost use Rattle.starlark_depth.specs.Depths.{start};
ghost use Rattle.starlark_depth.specs.Guarding.{Passes, Refuses};
ghost use Rattle.starlark_parse_cursor.specs.Order.{IsInOrder};

use crate::depth::Depth;
use crate::levels::Refused;
use starlark_lexer::span::{Pos, Span};
use starlark_lexer::token::{Lexeme, LexerError, LexerErrorKind};
use std::alloc::{AllocError, Global};

/// The lexemes of an iterator up to the first error, or up to the first token that nests deeper than a limit: in place of that it
/// returns an error of the kind `TooDeep` with the span of the token. After an error it returns nothing.
#[derive(Drop)]
pub struct DepthGuard<'a, I> {
    pub lexemes: &'a mut I,
    pub depth: Depth,
    pub failed: bool,
}

/// The error for a token from byte `begin` to byte `end`.
#[cold]
#[inline(never)]
fn error_at(refused: Refused, begin: usize, end: usize) -> LexerError
    requires order { begin ≤ end }
    requires small { end < 2 ^ 32 }
    ensures memory { refused ≡ refusals.OutOfMemory → result.kind ≡ kinds.Memory }
    ensures deep { refused ≡ refusals.TooDeep → fault_of result ≡ record { kind = kinds.TooDeep; span = from_to begin end } }
{
    let span = Span::new(Pos::new(begin as u32), Pos::new(end as u32));
    let kind = match refused {
        Refused::TooDeep => LexerErrorKind::TooDeep,
        Refused::OutOfMemory => LexerErrorKind::Memory,
    };
    LexerError { kind, span }
}

impl<'a, I: Iterator<Item = Lexeme>> DepthGuard<'a, I> {
    /// A guard of these lexemes, before the first. Fails if allocation for the first levels fails.
    pub fn new(alloc: Global, lexemes: &'a mut I, limit: u32) -> Result<Self, AllocError>
        ensures same_reference { IfOk result (λ g. g.lexemes.ghost_name ≡ lexemes.entry.ghost_name) }
        ensures lexemes { IfOk result (λ g. g.lexemes.now ≡ lexemes.old) }
        ensures limit { IfOk result (λ g. g.depth.limit ≡ limit) }
        ensures begins { IfOk result (λ g. state_of g.depth ≡ start) }
        ensures fresh { IfOk result (λ g. g.failed ≡ false) }
    {
        let depth = Depth::new(alloc, limit)?;
        Ok(DepthGuard {
            lexemes,
            depth,
            failed: false,
        })
    }

    /// Counts a lexeme. Fails with the error that replaces it; that, and an error among the lexemes, is the last.
    #[inline(always)]
    fn count(&mut self, lexeme: &Lexeme) -> Result<(), LexerError>
        requires running { self.old.failed ≡ false }
        requires ordered { IsInOrder 0 (lexeme.now ∷ []) }
        ensures lexemes { self.new.lexemes ≡ self.old.lexemes }
        ensures limit { self.new.depth.limit ≡ self.old.depth.limit }
        ensures passes { OnOk result (Passes lexeme.now self.old.depth self.new.depth self.new.failed) }
        ensures refuses { IfErr result (λ e. Refuses lexeme.now e self.old.depth self.new.failed) }
    {
        match lexeme {
            Ok((begin, token, end)) => match self.depth.consume(token) {
                Ok(()) => Ok(()),
                Err(refused) => {
                    self.failed = true;
                    Err(error_at(refused, *begin, *end))
                }
            },
            Err(_) => {
                self.failed = true;
                Ok(())
            }
        }
    }
}

impl<'a, I: Iterator<Item = Lexeme>> Iterator for DepthGuard<'a, I> {
    type Item = Lexeme;

    ghost use Rattle.starlark_depth.specs.Guarding.{CanNext, Gives};

    ghost can_next = { CanNext I.can_next I.next_gives };

    ghost next_gives = { Gives I.next_gives };

    ghost remaining = { λ g. I.remaining g.lexemes.now };

    fn next(&mut self) -> Option<Lexeme> {
        if self.failed {
            return None;
        }
        let lexeme = self.lexemes.next()?;
        match self.count(&lexeme) {
            Ok(()) => Some(lexeme),
            Err(error) => {
                drop(lexeme);
                Some(Err(error))
            }
        }
    }
}
