//! Modules of lists of lexemes that no lexer returns.
//!
//! `4: 0..1 2..2=+ 3..4!InvalidNumber` is such a list over a text, and how many of its items may be asked for, the end among them and
//! comments aside: a number, or the least and the most as `4..5`. An item is the span of a token, which is the first that the lexer
//! returns for the text there, or for the text after the `=`. Tokens of lines, and of f-strings after their start, are named. A `!`
//! is before the name of an error.
ghost use Rattle.std.specs.Iterator.{YieldsFirst};
ghost use Rattle.std.specs.Prelude.{◌<◌, ◌^◌, length};
ghost use Rattle.starlark_parse_cursor.specs.Order.{ComesInOrder};
ghost use Rattle.starlark_module.specs.LexemeLists.{lexemes_left};

mod counted;

use crate::module::lexeme_lists::counted::Counted;
use crate::module::out::{push_refusal, push_statement, span_of};
use starlark_checks::error::Error;
use starlark_lexer::codemap::CodeMap;
use starlark_lexer::dialect::Dialect;
use starlark_lexer::lexer::Lexer;
use starlark_lexer::token::{Lexeme, LexerError, LexerErrorKind, Token};
use starlark_module::module::{AstModule, LexemeList};
use std::alloc::{AllocError, Global};
use std::fmt::Write;

/// Appends the result for a list over the text, and how many items were asked for if that is not right.
pub fn push_list(out: &mut String, words: &str, text: &str) -> Result<(), AllocError> {
    if text.len() > u32::MAX as usize {
        return out.push_str("a text that is too long\n");
    }
    let (taken, items) = words.split_once(':').unwrap_or(("", words));
    let list = list_of(*out.allocator(), text, items)?;
    let asked = push_list_answer(out, text, list)?;
    if !is_allowed(taken, asked) {
        writeln!(out, "{asked} items were asked for")?;
    }
    Ok(())
}

/// Appends the result for the list, and returns how many of its items were asked for.
pub fn push_list_answer(out: &mut String, text: &str, list: Vec<Lexeme>) -> Result<u64, AllocError>
    requires { length text.now < 2 ^ 32 }
{
    let codemap = CodeMap::new(*out.allocator(), "stdin", text)?;
    let Some(lexemes) = LexemeList::new(&codemap, list) else {
        out.push_str("no list of lexemes of the text\n")?;
        return Ok(0);
    };
    let mut counted = Counted { lexemes, asked: 0 };
    push_module(out, codemap, &mut counted)?;
    Ok(counted.asked)
}

/// Appends the result for the lexemes, which come in order.
fn push_module(out: &mut String, codemap: CodeMap, lexemes: &mut Counted) -> Result<(), AllocError>
    requires { ComesInOrder (YieldsFirst lexemes_left) lexemes.old.lexemes 0 }
{
    let answer = AstModule::from_lexemes(*out.allocator(), codemap, lexemes, &Dialect::All);
    push_result(out, &answer)
}

/// Appends the span of a module, and its print, or the refusal.
pub fn push_result(out: &mut String, answer: &Result<AstModule, Error>) -> Result<(), AllocError> {
    match answer {
        Ok(module) => push_statement(out, module.statement()),
        Err(error) => push_refusal(out, error),
    }
}

/// Whether so many items may be asked for.
fn is_allowed(taken: &str, asked: u64) -> bool {
    let (least, most) = taken.split_once("..").unwrap_or((taken, taken));
    match (least.parse::<u64>(), most.parse::<u64>()) {
        (Ok(least), Ok(most)) => least <= asked && asked <= most,
        _ => false,
    }
}

/// The lexemes of a list over the text, without those that cannot be read.
fn list_of(alloc: Global, text: &str, items: &str) -> Result<Vec<Lexeme>, AllocError> {
    let mut list = Vec::new(alloc);
    for item in items.split(' ') {
        if let Some(lexeme) = lexeme_of(alloc, text, item)? {
            list.push(lexeme)?;
        }
    }
    Ok(list)
}

/// The lexeme of an item, if it can be read.
fn lexeme_of(alloc: Global, text: &str, item: &str) -> Result<Option<Lexeme>, AllocError> {
    if let Some((span, word)) = item.split_once('=') {
        return Ok(lexeme_at(span, token_of(alloc, text_at(text, span), word)?));
    }
    if let Some((span, name)) = item.split_once('!') {
        return Ok(error_of(span, name));
    }
    Ok(lexeme_at(item, first_token(alloc, text_at(text, item))?))
}

/// The token at a span.
fn lexeme_at(span: &str, token: Option<Token>) -> Option<Lexeme> {
    let token = token?;
    let (begin, end) = bounds(span)?;
    Some(Ok((begin, token, end)))
}

/// The error of that name at a span.
fn error_of(span: &str, name: &str) -> Option<Lexeme> {
    let kind = error_kind(name)?;
    let span = span_of(span)?;
    Some(Err(LexerError { kind, span }))
}

/// The begin and the end of the span that is written `3..5`.
fn bounds(span: &str) -> Option<(usize, usize)> {
    let (begin, end) = span.split_once("..")?;
    Some((begin.parse::<usize>().ok()?, end.parse::<usize>().ok()?))
}

fn text_at<'a>(text: &'a str, span: &str) -> &'a str {
    match bounds(span) {
        Some((begin, end)) => text.get(begin..end).unwrap_or(""),
        None => "",
    }
}

/// The token of that name, if it is one of lines or in f-strings; else the first token of the name as a text.
fn token_of(alloc: Global, here: &str, word: &str) -> Result<Option<Token>, AllocError> {
    if let Some(value) = word.strip_prefix("FStringText:") {
        return Ok(Some(Token::FStringText(String::from_str(alloc, value)?)));
    }
    Ok(match word {
        "Newline" => Some(Token::Newline),
        "Indent" => Some(Token::Indent),
        "Dedent" => Some(Token::Dedent),
        "FStringText" => Some(Token::FStringText(String::from_str(alloc, here)?)),
        "FStringExprStart" => Some(Token::FStringExprStart),
        "FStringBang" => Some(Token::FStringBang),
        "FStringExprEnd" => Some(Token::FStringExprEnd),
        "FStringEnd" => Some(Token::FStringEnd),
        _ => first_token(alloc, word)?,
    })
}

/// The first token that the lexer returns for a text.
fn first_token(alloc: Global, text: &str) -> Result<Option<Token>, AllocError> {
    if text.len() > u32::MAX as usize {
        return Ok(None);
    }
    match Lexer::new(alloc, text, &Dialect::All).next() {
        Some(Ok((_, token, _))) => Ok(Some(token)),
        Some(Err(error)) if error.kind == LexerErrorKind::Memory => Err(AllocError),
        _ => Ok(None),
    }
}

fn error_kind(name: &str) -> Option<LexerErrorKind> {
    match name {
        "InvalidCharacter" => Some(LexerErrorKind::InvalidCharacter),
        "ReservedKeyword" => Some(LexerErrorKind::ReservedKeyword),
        "InvalidNumber" => Some(LexerErrorKind::InvalidNumber),
        "UnfinishedString" => Some(LexerErrorKind::UnfinishedString),
        "InvalidEscape" => Some(LexerErrorKind::InvalidEscape),
        "Indentation" => Some(LexerErrorKind::Indentation),
        "InvalidFString" => Some(LexerErrorKind::InvalidFString),
        "TooDeep" => Some(LexerErrorKind::TooDeep),
        "Memory" => Some(LexerErrorKind::Memory),
        _ => None,
    }
}
