//! An iterator that passes on another's lexemes and keeps the comments among them.
ghost use Rattle.std.specs.Prelude.{◌≡◌, ℕ, ◌≤◌, ◌<◌, ◌^◌, ◌++◌, ◌∷◌, [], map, true, false, List, Result, Ok, IfErr, OnOk, OnErr};
ghost use Rattle.starlark_lexer.specs.Lexer.{lexeme_of};
ghost use Rattle.starlark_lexer.specs.Tokens.{span_of, lexeme, Lexeme, LexerFault};
ghost use Rattle.starlark_lexer.specs.Tokens as tokens;
ghost use Rattle.starlark_lexer.specs.declared.token.LexerErrorKind.TheVariants as kinds;
ghost use Rattle.starlark_module.specs.Comments.Comments.{is_no_comment};
ghost use Rattle.starlark_module.specs.Comments.Building.{HasRead};
ghost use Rattle.starlark_parse_cursor.specs.Order.{IsInOrder};
ghost use Rattle.starlark_module.specs.Comments.Keeping.{HasKept, Keeps, IsSameKeeper, is_error, comment_spans};

use crate::comments::lint_suppressions::LintSuppressionsBuilder;
use starlark_lexer::codemap::{CodeMap, Pos, Span};
use starlark_lexer::token::{Lexeme, LexerError, LexerErrorKind, Token};
use std::alloc::{AllocError, Global};

/// The lexemes of an iterator, of which it keeps the comments: where they are, and what they suppress.
///
/// It returns what the iterator returns, up to the first error, and requests nothing after that. If an allocation for a comment fails,
/// it returns an error of the kind `Memory`.
#[derive(Drop)]
pub struct CommentKeeper<'a, I> {
    pub lexemes: &'a mut I,
    pub codemap: &'a CodeMap,
    pub comments: Vec<Span>,
    pub suppressions: LintSuppressionsBuilder,
    pub failed: bool,
}

impl<'a, I: Iterator<Item = Lexeme>> CommentKeeper<'a, I> {
    /// A keeper of the comments of these lexemes, which are in the code map's text. It has kept none yet.
    pub fn new(alloc: Global, codemap: &'a CodeMap, lexemes: &'a mut I) -> Self
        ensures same_reference { result.lexemes.ghost_name ≡ lexemes.entry.ghost_name }
        ensures lexemes { result.lexemes.now ≡ lexemes.old }
        ensures codemap { result.codemap.now ≡ codemap.now }
        ensures fresh { result.failed ≡ false }
        ensures kept { HasKept [] result }
    {
        CommentKeeper {
            lexemes,
            codemap,
            comments: Vec::new(alloc),
            suppressions: LintSuppressionsBuilder::new(alloc),
            failed: false,
        }
    }

    /// Keeps a lexeme if it is a comment. An error, and running out of memory, is the last.
    fn keep(&mut self, lexeme: &Lexeme) -> Result<(), LexerError>
        requires going { self.old.failed ≡ false }
        requires ordered { IsInOrder 0 (lexeme.now ∷ []) }
        ensures lexemes { self.new.lexemes ≡ self.old.lexemes }
        ensures codemap { self.new.codemap ≡ self.old.codemap }
        ensures kept { OnOk result (Keeps lexeme.now self.old self.new) }
        ensures failed { OnOk result (self.new.failed ≡ is_error lexeme.now) }
        ensures err { IfErr result (λ e. e.kind ≡ kinds.Memory) }
        ensures err_failed { OnErr result (self.new.failed ≡ true) }
        ensures err_comment { OnErr result (is_no_comment (lexeme_of lexeme.now) ≡ false) }
    {
        match lexeme {
            Ok((begin, token, end)) => match token {
                Token::Comment(text) => {
                    let span = Span::new(Pos::new(*begin as u32), Pos::new(*end as u32));
                    self.keep_comment(text.as_str(), span)
                }
                _ => {
                    self.suppressions.end_of_comment_block();
                    Ok(())
                }
            },
            Err(_) => {
                self.suppressions.end_of_comment_block();
                self.failed = true;
                Ok(())
            }
        }
    }

    /// Keeps a comment. If an allocation fails, that is the last.
    fn keep_comment(&mut self, text: &str, span: Span) -> Result<(), LexerError>
        ensures lexemes { self.new.lexemes ≡ self.old.lexemes }
        ensures codemap { self.new.codemap ≡ self.old.codemap }
        ensures kept { OnOk result ((lexemes : List (Result Lexeme LexerFault)) → HasKept lexemes self.old
            → HasKept (lexemes ++ Ok (lexeme (tokens.Comment text.now) (span_of span)) ∷ []) self.new) }
        ensures failed { OnOk result (self.new.failed ≡ self.old.failed) }
        ensures err { IfErr result (λ e. e.kind ≡ kinds.Memory) }
        ensures err_failed { OnErr result (self.new.failed ≡ true) }
    {
        match self.try_keep(text, span) {
            Ok(()) => Ok(()),
            Err(_) => {
                self.failed = true;
                let kind = LexerErrorKind::Memory;
                Err(LexerError { kind, span })
            }
        }
    }

    fn try_keep(&mut self, text: &str, span: Span) -> Result<(), AllocError>
        ensures lexemes { self.new.lexemes ≡ self.old.lexemes }
        ensures codemap { self.new.codemap ≡ self.old.codemap }
        ensures failed { self.new.failed ≡ self.old.failed }
        ensures kept { OnOk result ((lexemes : List (Result Lexeme LexerFault)) → HasKept lexemes self.old
            → HasKept (lexemes ++ Ok (lexeme (tokens.Comment text.now) (span_of span)) ∷ []) self.new) }
    {
        self.comments.push(span)?;
        self.suppressions.parse_comment(self.codemap, text, span)
    }
}

impl<'a, I: Iterator<Item = Lexeme>> Iterator for CommentKeeper<'a, I> {
    type Item = Lexeme;

    ghost use Rattle.starlark_module.specs.Comments.Keeping.{CanNext, Gives};

    ghost can_next = { CanNext I.can_next I.next_gives };

    ghost next_gives = { Gives I.next_gives };

    ghost remaining = { λ k. I.remaining k.lexemes.now };

    // A call between the lexer and the parser would pass each lexeme through memory.
    #[inline(always)]
    fn next(&mut self) -> Option<Lexeme> {
        if self.failed {
            return None;
        }
        let lexeme = self.lexemes.next()?;
        match self.keep(&lexeme) {
            Ok(()) => Some(lexeme),
            Err(error) => {
                drop(lexeme);
                Some(Err(error))
            }
        }
    }
}
