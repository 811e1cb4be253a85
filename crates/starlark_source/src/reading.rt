//! How the lexer reads a text.
ghost use Rattle.std.specs.Prelude.{◌≡◌, ◌<◌, ◌^◌, ◌==◌, ◌&&◌, nat_lt, length, IfOk, IsTrue, Some};
ghost use Rattle.starlark_lexer.specs.Lexemes.{State, Step};
ghost use Rattle.starlark_lexer.specs.Lexer.{Gave};
ghost use Rattle.starlark_lexer.specs.Tokens.{terminal};
ghost use Rattle.starlark_source.specs.Readings.{reading_of, reads, whole_token};

use starlark_lexer::dialect::Dialect;
use starlark_lexer::lexer::Lexer;
use starlark_lexer::token::{Lexeme, LexerErrorKind, Token, TokenInt};
use std::alloc::{AllocError, Global};

/// The lexer reads texts of fewer bytes than this.
const TOO_LONG: u64 = 1 << 32;

/// How the lexer reads a text, if the text is one token.
#[derive(Clone, Copy)]
pub(crate) enum Reading {
    Name,
    Float,
    /// An integer of more than 32 bits.
    LargeInt,
    /// Another token, or more than one.
    Other,
}

/// How the lexer reads the text.
///
/// Fails if memory cannot be allocated.
pub(crate) fn read_alone(alloc: Global, text: &str) -> Result<Reading, AllocError>
    ensures { IfOk result (λ reading. reading ≡ reads text.now) }
{
    if is_short(text) {
        let mut lexer = Lexer::new(alloc, text, &Dialect::All);
        match lexer.next() {
            Some(lexeme) => judged(lexeme, text.len()),
            None => Ok(Reading::Other),
        }
    } else {
        Ok(Reading::Other)
    }
}

/// Whether the lexer reads texts of that length.
fn is_short(text: &str) -> bool
    ensures test { result ≡ nat_lt (length text.now) (2 ^ 32) }
    ensures short { IsTrue result → length text.now < 2 ^ 32 }
{
    (text.len() as u64) < TOO_LONG
}

/// How a text of this length that begins with this lexeme is read.
fn judged(lexeme: Lexeme, len: usize) -> Result<Reading, AllocError>
    ensures { (p : Step) → (t : State) → Gave p lexeme t → IfOk result (λ reading. reading ≡ reading_of (whole_token len p.0)) }
{
    match lexeme {
        Ok(found) => {
            if is_whole(found.0, found.2, len) {
                Ok(kind(found.1))
            } else {
                Ok(Reading::Other)
            }
        }
        Err(error) => match error.kind {
            LexerErrorKind::Memory => Err(AllocError),
            _ => Ok(Reading::Other),
        },
    }
}

fn is_whole(begin: usize, end: usize, len: usize) -> bool
    ensures { result ≡ (begin == 0 && end == len) }
{
    begin == 0 && end == len
}

/// How a text that is this token is read.
fn kind(token: Token) -> Reading
    ensures { result ≡ reading_of (Some (terminal token)) }
{
    match token {
        Token::Identifier(_) => Reading::Name,
        Token::Float(_) => Reading::Float,
        Token::Int(TokenInt::BigInt(_)) => Reading::LargeInt,
        _ => Reading::Other,
    }
}
