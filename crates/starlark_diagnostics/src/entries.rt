//! Names that arguments or parameters have twice.
use crate::spot::{closes, opens, token_of};
use starlark_lexer::codemap::{CodeMap, FileSpan};
use starlark_lexer::kind::Kind;
use starlark_lexer::span::Span;
use starlark_lexer::token::Lexeme;
use std::alloc::{AllocError, Global};

/// What has names.
#[derive(Clone, Copy)]
pub(crate) enum Entries {
    /// The named arguments of a call.
    Arguments,
    /// The parameters of a function.
    Parameters,
}

/// A name, and where it is first.
#[derive(Clone, Copy)]
pub(crate) struct Twice {
    pub name: Option<Span>,
    pub first: Option<Span>,
}

/// The names of the lists that are open.
#[derive(Drop)]
struct Lists {
    entries: Entries,
    /// Of each list that is open: how many names were there before it, and whether a `:` ends it.
    open: Vec<(usize, bool)>,
    names: Vec<Span>,
    /// The last token, and the name with which an entry began, if that is the last token.
    last: Kind,
    begun: Option<Span>,
}

/// The name of the entry at the place, and the earlier entry of the same list with that name. The lexemes are those of the file.
pub(crate) fn earlier(
    alloc: Global,
    place: &FileSpan,
    lexemes: &[Lexeme],
    entries: Entries,
) -> Result<Twice, AllocError> {
    let mut lists = Lists::new(alloc, entries);
    for lexeme in lexemes {
        if let Some((kind, span)) = token_of(lexeme) {
            if span.begin() >= place.span.begin() && matches!(kind, Kind::Identifier) {
                return Ok(Twice {
                    name: Some(span),
                    first: first(&place.file, lists.innermost(), span),
                });
            }
            lists.take(kind, span)?;
        }
    }
    Ok(Twice {
        name: None,
        first: None,
    })
}

/// The first of these spans that has the text of the name.
fn first(file: &CodeMap, spans: &[Span], name: Span) -> Option<Span> {
    for span in spans {
        if file.source_span(*span) == file.source_span(name) {
            return Some(*span);
        }
    }
    None
}

impl Lists {
    fn new(alloc: Global, entries: Entries) -> Lists {
        Lists {
            entries,
            open: Vec::new(alloc),
            names: Vec::new(alloc),
            last: Kind::End,
            begun: None,
        }
    }

    /// The names of the innermost list that is open.
    fn innermost(&self) -> &[Span] {
        let begin = match self.open.last() {
            Some((begin, _)) => *begin,
            None => 0,
        };
        match self.names.as_slice().get(begin..) {
            Some(names) => names,
            None => self.names.as_slice(),
        }
    }

    /// Takes a token.
    fn take(&mut self, kind: Kind, span: Span) -> Result<(), AllocError> {
        self.see_name(kind, span)?;
        if opens(kind) {
            self.open.push((self.names.len(), false))?;
        } else if closes(kind) {
            self.close();
        } else if matches!(kind, Kind::Lambda) {
            self.open.push((self.names.len(), true))?;
        } else if matches!(kind, Kind::Colon) {
            self.close_lambda();
        }
        self.last = kind;
        Ok(())
    }

    /// Adds the name, if an entry has it.
    fn see_name(&mut self, kind: Kind, span: Span) -> Result<(), AllocError> {
        let begun = self.begun;
        self.begun = if matches!(kind, Kind::Identifier) && begins_entry(self.last) {
            Some(span)
        } else {
            None
        };
        match self.entries {
            Entries::Parameters => {
                if let Some(name) = self.begun {
                    self.names.push(name)?;
                }
            }
            Entries::Arguments => {
                if let (Some(name), Kind::Equal) = (begun, kind) {
                    self.names.push(name)?;
                }
            }
        }
        Ok(())
    }

    /// The innermost list ends.
    fn close(&mut self) {
        if let Some((begin, _)) = self.open.pop() {
            self.names.truncate(begin);
        }
    }

    /// The innermost list ends, if it is that of a lambda.
    fn close_lambda(&mut self) {
        if let Some((_, true)) = self.open.last() {
            self.close();
        }
    }
}

/// Whether an entry may begin after a token of the kind.
fn begins_entry(last: Kind) -> bool {
    matches!(
        last,
        Kind::OpeningRound | Kind::Lambda | Kind::Comma | Kind::Star | Kind::StarStar
    )
}
