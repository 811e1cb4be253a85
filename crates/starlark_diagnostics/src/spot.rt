//! What is around the place after some lexemes.
use crate::stop::Stop;
use starlark_lexer::kind::{Kind, kind_of};
use starlark_lexer::span::{Pos, Span};
use starlark_lexer::token::Lexeme;
use std::alloc::{AllocError, Global};

/// A token's kind, and its span.
pub(crate) fn token_of(lexeme: &Lexeme) -> Option<(Kind, Span)> {
    match lexeme {
        Ok((begin, token, end)) => {
            let (begin, end) = (u32::try_from(*begin).ok()?, u32::try_from(*end).ok()?);
            if begin > end {
                return None;
            }
            Some((kind_of(token), Span::new(Pos::new(begin), Pos::new(end))))
        }
        Err(_) => None,
    }
}

/// Where the innermost delimiter is that is open after the lexemes.
pub(crate) fn open_delimiter(
    alloc: Global,
    lexemes: &[Lexeme],
) -> Result<Option<Span>, AllocError> {
    let mut open: Vec<Span> = Vec::new(alloc);
    for lexeme in lexemes {
        if let Some((kind, span)) = token_of(lexeme) {
            if opens(kind) {
                open.push(span)?;
            } else if closes(kind) {
                open.pop();
            }
        }
    }
    Ok(open.last().copied())
}

/// Whether a token of the kind opens a delimiter.
pub(crate) fn opens(kind: Kind) -> bool {
    matches!(
        kind,
        Kind::OpeningRound | Kind::OpeningSquare | Kind::OpeningCurly | Kind::FStringExprStart
    )
}

/// Whether a token of the kind closes a delimiter.
pub(crate) fn closes(kind: Kind) -> bool {
    matches!(
        kind,
        Kind::ClosingRound | Kind::ClosingSquare | Kind::ClosingCurly | Kind::FStringExprEnd
    )
}

/// The kind of the last token, comments aside.
pub(crate) fn last_kind(lexemes: &[Lexeme]) -> Kind {
    let mut last = Kind::End;
    for lexeme in lexemes {
        match token_of(lexeme) {
            None | Some((Kind::Comment, _)) => {}
            Some((kind, _)) => last = kind,
        }
    }
    last
}

/// The keyword of the statement whose block may begin next and does not.
pub(crate) fn block_of(stop: &Stop) -> Option<Span> {
    match &stop.set {
        Some(set) if set.has(Kind::Indent) => first_of_line(stop.before),
        _ => None,
    }
}

/// Where the first token of the last line is.
fn first_of_line(lexemes: &[Lexeme]) -> Option<Span> {
    let mut begins = true;
    let mut first = None;
    for lexeme in lexemes {
        match token_of(lexeme) {
            None | Some((Kind::Comment, _)) => {}
            Some((Kind::Newline | Kind::Indent | Kind::Dedent, _)) => begins = true,
            Some((_, span)) => {
                if begins {
                    first = Some(span);
                }
                begins = false;
            }
        }
    }
    first
}
