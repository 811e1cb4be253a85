//! Variants of a text: each of its lexemes replaced by an error in turn, and each prefix of it.
ghost use Rattle.std.specs.Prelude.{◌<◌, ◌^◌, length};

use crate::module::lexeme_lists::push_list_answer;
use crate::module::program::{Written, run_words};
use starlark_lexer::codemap::{Pos, Span};
use starlark_lexer::dialect::Dialect;
use starlark_lexer::lexer::Lexer;
use starlark_lexer::token::{Lexeme, LexerError, LexerErrorKind};
use std::alloc::{AllocError, Global};
use std::fmt::Write;

/// The result for a list in which an error replaces a lexeme.
const ERROR: &str = "0..1: InvalidNumber\n";

/// Appends how many lexemes the text has; then the result for the lexemes with an error instead of one, each in turn, if the result is
/// not that error, after the number of those before it.
pub fn push_broken(out: &mut String, text: &str) -> Result<(), AllocError> {
    if text.len() > u32::MAX as usize {
        return out.push_str("a text that is too long\n");
    }
    let count = Lexer::new(*out.allocator(), text, &Dialect::All).count();
    writeln!(out, "{count} lexemes")?;
    for at in 0..count {
        push_broken_at(out, text, at)?;
    }
    Ok(())
}

fn push_broken_at(out: &mut String, text: &str, at: usize) -> Result<(), AllocError>
    requires { length text.now < 2 ^ 32 }
{
    let alloc = *out.allocator();
    let mut answer = String::new(alloc);
    push_list_answer(&mut answer, text, broken_at(alloc, text, at)?)?;
    if answer.as_str() != ERROR {
        write!(out, "{at}: {answer}")?;
    }
    Ok(())
}

/// The first lexemes of the text, so many, and an error after them.
fn broken_at(alloc: Global, text: &str, at: usize) -> Result<Vec<Lexeme>, AllocError>
    requires { length text.now < 2 ^ 32 }
{
    let mut list = Vec::new(alloc);
    for lexeme in Lexer::new(alloc, text, &Dialect::All).take(at) {
        list.push(lexeme)?;
    }
    list.push(Err(LexerError {
        kind: LexerErrorKind::InvalidNumber,
        span: Span::new(Pos::new(0), Pos::new(1)),
    }))?;
    Ok(list)
}

/// Appends a letter for each byte of the text: the result for the text before it.
pub fn push_cut(out: &mut String, text: &str) -> Result<(), AllocError> {
    let alloc = *out.allocator();
    let bytes = text.as_bytes();
    for end in 0..bytes.len() {
        let written = run_words(alloc, "all print", &bytes[..end])?;
        out.push(letter(&written))?;
    }
    out.push('\n')
}

/// `.` if the input is printed, `t` and `e` if a token or the end is unexpected, `l` for an error of the lexer, `r` for a rule, `u` if it is
/// not UTF-8, and `m` if memory ran out.
fn letter(written: &Written) -> char {
    match (written.status, str::from_utf8(&written.err)) {
        (0, _) => '.',
        (1, Ok(line)) => letter_of_line(line),
        (2, _) => 'u',
        _ => '?',
    }
}

fn letter_of_line(line: &str) -> char {
    match line.rsplit_once(": ") {
        None => 'm',
        Some((_, "unexpected token\n")) => 't',
        Some((_, "unexpected end of file\n")) => 'e',
        Some((_, text)) if text.contains(' ') => 'r',
        Some(_) => 'l',
    }
}
