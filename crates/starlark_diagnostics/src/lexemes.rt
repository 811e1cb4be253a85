//! The lexemes of a text.
ghost use Rattle.std.specs.Prelude.{◌≡◌, ◌<◌, ◌^◌, IfOk, length, map};
ghost use Rattle.starlark_lexer.specs.Lexemes.{lexemes};
ghost use Rattle.starlark_lexer.specs.Lexer.{lexeme_of};
ghost use Rattle.starlark_diagnostics.specs.Lexed as lexed;
ghost use Rattle.starlark_diagnostics.specs.Lexed.{runs_out};

use starlark_lexer::dialect::Dialect;
use starlark_lexer::lexer::Lexer;
use starlark_lexer::token::{Lexeme, LexerErrorKind};
use std::alloc::{AllocError, Global};

/// The lexemes of a text, up to the first error.
///
/// Fails if memory runs out.
pub(crate) fn lexemes(
    alloc: Global,
    text: &str,
    dialect: &Dialect,
) -> Result<Vec<Lexeme>, AllocError>
    requires { length text.now < 2 ^ 32 }
    ensures { IfOk result (λ found. map lexeme_of found.items ≡ lexemes text.now) }
{
    let mut found = Vec::new(alloc);
    found.extend(Lexer::new(alloc, text, dialect))?;
    if is_out_of_memory(&found) {
        return Err(AllocError);
    }
    Ok(found)
}

/// Whether the lexer ran out of memory: its last lexeme says so.
fn is_out_of_memory(lexemes: &[Lexeme]) -> bool
    ensures { result ≡ runs_out lexemes.now }
{
    match lexemes.last() {
        Some(last) => is_memory_error(last),
        None => false,
    }
}

/// Whether the lexeme says that memory ran out.
fn is_memory_error(lexeme: &Lexeme) -> bool
    ensures { result ≡ lexed.is_memory_error lexeme.now }
{
    match lexeme {
        Ok(_) => false,
        Err(error) => matches!(error.kind, LexerErrorKind::Memory),
    }
}
