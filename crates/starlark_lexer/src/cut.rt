//! A lexeme, relative to the position of the lexer.
ghost use Rattle.std.specs.Prelude.{◌≡◌, ℕ, ◌+◌, ◌<◌, ◌^◌, Ok};
ghost use Rattle.starlark_lexer.specs.Tokens.{terminal};
ghost use Rattle.starlark_lexer.specs.Cuts as spec;
ghost use Rattle.starlark_lexer.specs.Cutting.{cut_of};

use crate::token::{LexerErrorKind, Token};

/// The lexeme at the front of a text, or why it is rejected. It begins `begin` bytes on and is `len` bytes long; `taken` bytes
/// are consumed with it.
#[derive(Drop)]
pub(crate) struct Cut {
    pub(crate) what: Result<Token, LexerErrorKind>,
    pub(crate) begin: usize,
    pub(crate) len: usize,
    pub(crate) taken: usize,
}

/// A token of `len` bytes.
pub(crate) fn token(what: Token, len: usize) -> Cut
    ensures { cut_of result ≡ spec.token (terminal what) len }
{
    Cut {
        what: Ok(what),
        begin: 0,
        len,
        taken: len,
    }
}

/// An error of `len` bytes that begins `begin` bytes on.
pub(crate) fn refused(kind: LexerErrorKind, begin: usize, len: usize) -> Cut
    requires { begin + len < 2 ^ 64 }
    ensures { cut_of result ≡ spec.refused kind begin len }
{
    Cut {
        what: Err(kind),
        begin,
        len,
        taken: begin + len,
    }
}
