//! The lexemes of a text.
ghost use Rattle.std.specs.Prelude.{◌<◌, ◌^◌, length};

use starlark_lexer::dialect::Dialect;
use starlark_lexer::lexer::Lexer;
use starlark_lexer::token::Lexeme;
use std::alloc::AllocError;
use std::fmt::Write;

/// Appends the lexemes of the text, one a line: its start, what it is, and its end.
pub fn push_tokens(out: &mut String, text: &str, dialect: &Dialect) -> Result<(), AllocError>
    requires { length text.now < 2 ^ 32 }
{
    let lexer = Lexer::new(*out.allocator(), text, dialect);
    for lexeme in lexer {
        push_lexeme(out, &lexeme)?;
    }
    Ok(())
}

fn push_lexeme(out: &mut String, lexeme: &Lexeme) -> Result<(), AllocError> {
    match lexeme {
        Ok((begin, token, end)) => writeln!(out, "{begin} {token:?} {end}"),
        Err(error) => {
            let (begin, end) = (error.span.begin().get(), error.span.end().get());
            writeln!(out, "{begin} !{error} {end}")
        }
    }
}
