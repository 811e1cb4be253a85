//! Which tokens, numbers, errors and dialects are equal, and their texts.
ghost use Rattle.std.specs.Prelude.{◌<◌, ◌^◌, length};

use starlark_lexer::codemap::{Pos, Span};
use starlark_lexer::dialect::Dialect;
use starlark_lexer::lexer::Lexer;
use starlark_lexer::token::{LexerError, LexerErrorKind, Token, TokenInt};
use std::alloc::{AllocError, Global};
use std::fmt::Write;

const KINDS: [LexerErrorKind; 9] = [
    LexerErrorKind::InvalidCharacter,
    LexerErrorKind::ReservedKeyword,
    LexerErrorKind::InvalidNumber,
    LexerErrorKind::UnfinishedString,
    LexerErrorKind::InvalidEscape,
    LexerErrorKind::Indentation,
    LexerErrorKind::InvalidFString,
    LexerErrorKind::TooDeep,
    LexerErrorKind::Memory,
];

const DIALECTS: [Dialect; 3] = [Dialect::All, Dialect::Standard, Dialect::Bare];

/// Appends a line for each token of the text: `=` for each of the tokens that it is equal to, `.` for any other, and the token; then
/// the text of a number and whether its clone is equal.
pub fn push_equal(out: &mut String, text: &str) -> Result<(), AllocError>
    requires { length text.now < 2 ^ 32 }
{
    let tokens = tokens_of(*out.allocator(), text)?;
    for one in &tokens {
        for other in &tokens {
            out.push(mark(one == other))?;
        }
        writeln!(out, " {one:?}")?;
        if let Token::Int(number) = one {
            push_number(out, number)?;
        }
    }
    Ok(())
}

fn tokens_of(alloc: Global, text: &str) -> Result<Vec<Token>, AllocError>
    requires { length text.now < 2 ^ 32 }
{
    let mut tokens = Vec::new(alloc);
    for lexeme in Lexer::new(alloc, text, &Dialect::All) {
        if let Ok((_, token, _)) = lexeme {
            tokens.push(token)?;
        }
    }
    Ok(tokens)
}

fn mark(is_equal: bool) -> char {
    if is_equal { '=' } else { '.' }
}

fn push_number(out: &mut String, number: &TokenInt) -> Result<(), AllocError> {
    let copy = number.clone()?;
    let is_equal = copy == *number;
    writeln!(out, "{number} {is_equal}")
}

/// Appends what no text shows: a number below 0, and one with two forms; the errors; which dialects are equal.
pub fn push_words(out: &mut String) -> Result<(), AllocError> {
    push_number(out, &TokenInt::I32(-12))?;
    let long = TokenInt::BigInt(String::from_str(*out.allocator(), "9")?);
    let is_equal = long == TokenInt::I32(9);
    writeln!(out, "{long} {is_equal}")?;
    let span = Span::new(Pos::new(0), Pos::new(1));
    for kind in KINDS {
        let error = LexerError { kind, span };
        writeln!(out, "{kind} {error}")?;
    }
    for one in DIALECTS {
        for other in DIALECTS {
            out.push(mark(one == other))?;
        }
        writeln!(out, " {one:?}")?;
    }
    Ok(())
}
