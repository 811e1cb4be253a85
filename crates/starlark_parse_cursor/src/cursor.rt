//! A cursor over the items of an iterator of lexemes, with one item of lookahead.
ghost use Rattle.std.specs.Prelude.{◌≡◌, ◌≤◌, if◌then◌else◌, MatchOption, true};
ghost use Rattle.std.specs.Iterator.{IsFinite, size};
ghost use Rattle.starlark_lexer.specs.Tokens.{Terminal, lexeme, terminal, span_of};
ghost use Rattle.starlark_spec.specs.Faults.{grammar_fault};
ghost use Rattle.starlark_spec.specs.Answers.Answer.{memory, broken_rule};
ghost use Rattle.starlark_lexer.specs.Kinds.{is, is_plain};
ghost use Rattle.starlark_spec.specs.Machine.Sight.{look_at};
ghost use Rattle.starlark_spec.specs.Machine.Firsts.{starts_operand, starts_test, starts_argument, starts_param, starts_symbol, starts_small, is_leaf};
ghost use Rattle.starlark_spec.specs.Refusals.{refused};
ghost use Rattle.starlark_parse_cursor.specs.Order.{ComesInOrder};
ghost use Rattle.starlark_parse_cursor.specs.Reading.{at, begin_at, begin_in, stop_at, items_left, sight_of, GoesOn, Ready, Advances, Pulls, IsToken};
ghost use Rattle.starlark_parse_cursor.specs.Contract.{Takes, TakesOne, ends_expression, starts_suffix};

use starlark_lexer::dialect::DialectTypes;
use starlark_lexer::kind::{Kind, kind_of};
use starlark_lexer::span::{Pos, Span};
use starlark_lexer::token::{Lexeme, LexerError, LexerErrorKind, Token};
use starlark_spec::error::GrammarError;
use starlark_spec::refusal::Refusal;
use std::mem;

/// The next item.
#[derive(Debug, Drop)]
pub enum Look {
    /// A token other than a comment, and where it is.
    Token(Token, Span),
    /// The error that ends the items.
    Error(LexerError),
    /// The end of the items.
    End,
}

/// The remaining lexemes, the next item, and the end of the last token that was consumed.
#[derive(Drop)]
pub struct Cursor<'a, I> {
    pub lexemes: &'a mut I,
    pub look: Look,
    pub end: Pos,
    /// Which types the dialect allows.
    pub types: DialectTypes,
}

impl<'a, I: Iterator<Item = Lexeme>> Cursor<'a, I> {
    /// The kind of the next item.
    #[inline(always)]
    pub fn kind(&self) -> Kind
        ensures { result ≡ (look_at (at self.now).sight).kind }
    {
        match &self.look {
            Look::Token(token, _) => kind_of(token),
            Look::Error(_) => Kind::Fault,
            Look::End => Kind::End,
        }
    }

    /// Whether the next item is of this kind.
    #[inline(always)]
    pub fn at(&self, kind: Kind) -> bool
        ensures { result ≡ is (look_at (at self.now).sight).kind kind }
    {
        self.kind() == kind
    }

    /// Whether the next item begins an operand.
    #[inline(always)]
    pub fn at_operand(&self) -> bool
        ensures { result ≡ starts_operand (look_at (at self.now).sight).kind }
    {
        matches!(
            self.kind(),
            Kind::Identifier
                | Kind::Int
                | Kind::Float
                | Kind::String
                | Kind::Bytes
                | Kind::FStringStart
                | Kind::Ellipsis
                | Kind::OpeningRound
                | Kind::OpeningSquare
                | Kind::OpeningCurly
                | Kind::Plus
                | Kind::Minus
                | Kind::Tilde
        )
    }

    /// Whether the next item begins an expression.
    #[inline(always)]
    pub fn at_test(&self) -> bool
        ensures { result ≡ starts_test (look_at (at self.now).sight).kind }
    {
        matches!(self.kind(), Kind::Not | Kind::Lambda) || self.at_operand()
    }

    /// Whether the next item begins an argument.
    #[inline(always)]
    pub fn at_argument(&self) -> bool
        ensures { result ≡ starts_argument (look_at (at self.now).sight).kind }
    {
        matches!(self.kind(), Kind::Star | Kind::StarStar) || self.at_test()
    }

    /// Whether the next item begins a parameter.
    pub fn at_parameter(&self) -> bool
        ensures { result ≡ starts_param (look_at (at self.now).sight).kind }
    {
        matches!(
            self.kind(),
            Kind::Slash | Kind::Star | Kind::StarStar | Kind::Identifier
        )
    }

    /// Whether the next item begins a symbol of a `load`.
    pub fn at_symbol(&self) -> bool
        ensures { result ≡ starts_symbol (look_at (at self.now).sight).kind }
    {
        matches!(self.kind(), Kind::String | Kind::Identifier)
    }

    /// Whether the next item begins a small statement.
    pub fn at_small(&self) -> bool
        ensures { result ≡ starts_small (look_at (at self.now).sight).kind }
    {
        matches!(
            self.kind(),
            Kind::Return | Kind::Break | Kind::Continue | Kind::Pass | Kind::Load
        ) || self.at_test()
    }

    /// Whether the next item begins a suffix of an operand.
    #[inline(always)]
    pub fn at_suffix(&self) -> bool
        ensures { result ≡ starts_suffix (look_at (at self.now).sight).kind }
    {
        matches!(
            self.kind(),
            Kind::Dot | Kind::OpeningSquare | Kind::OpeningRound
        )
    }

    /// Whether the next item is an atom of one token: a name, a number, a string, bytes or `...`.
    #[inline(always)]
    pub fn at_leaf(&self) -> bool
        ensures { result ≡ is_leaf (look_at (at self.now).sight).kind }
    {
        matches!(
            self.kind(),
            Kind::Identifier | Kind::Int | Kind::Float | Kind::String | Kind::Bytes | Kind::Ellipsis
        )
    }

    /// Whether the next item is a token that ends an expression: not a suffix, not an operator, and not `if`.
    #[inline(always)]
    pub fn at_expression_end(&self) -> bool
        ensures { result ≡ ends_expression (look_at (at self.now).sight).kind }
    {
        matches!(
            self.kind(),
            Kind::Newline
                | Kind::Comma
                | Kind::Semicolon
                | Kind::Colon
                | Kind::Equal
                | Kind::ClosingRound
                | Kind::ClosingSquare
                | Kind::ClosingCurly
                | Kind::Else
                | Kind::For
        )
    }

    /// Where the next token begins; if there is none, the end of the last one.
    #[inline(always)]
    pub fn begin(&self) -> Pos
        ensures { result.byte ≡ begin_at (at self.now) }
    {
        match &self.look {
            Look::Token(_, span) => span.begin(),
            _ => self.end,
        }
    }

    /// The refusal if nothing can continue with the next item.
    pub fn refusal(&self) -> Refusal
        ensures { refused result ≡ stop_at (at self.now) }
    {
        match &self.look {
            Look::Token(_, span) => Refusal::UnexpectedToken(*span),
            Look::Error(error) => match error.kind {
                LexerErrorKind::Memory => Refusal::Memory,
                _ => Refusal::Lexer(*error),
            },
            Look::End => Refusal::UnexpectedEnd(Span::new(self.end, self.end)),
        }
    }

    /// The refusal if what was read breaks a rule; out of memory if the next item is, since whether that item continues the program is unknown.
    pub fn broken(&self, error: GrammarError, span: Span) -> Refusal
        ensures { refused result ≡ (if (look_at (at self.now).sight).no_memory then memory else broken_rule (grammar_fault error (span_of span))) }
    {
        self.unless_out_of_memory(Refusal::Grammar(error, span))
    }

    /// Returns the refusal, unless memory ran out for the next item.
    pub fn unless_out_of_memory(&self, refusal: Refusal) -> Refusal
        ensures { refused result ≡ (if (look_at (at self.now).sight).no_memory then memory else refused refusal) }
    {
        match &self.look {
            Look::Error(error) => match error.kind {
                LexerErrorKind::Memory => Refusal::Memory,
                _ => refusal,
            },
            _ => refusal,
        }
    }

    /// Reads the item after a token that ended at `from`. Not inlined, so that the item takes no space in the stack frames of its callers.
    #[inline(never)]
    pub fn advance(&mut self, from: Pos)
        requires can { I.can_next self.old.lexemes.now }
        requires ends { IsFinite (I.remaining self.old.lexemes.now) }
        requires ordered { ComesInOrder I.next_gives self.old.lexemes.now from.byte }
        ensures same_reference { self.new.lexemes.ghost_name ≡ self.old.lexemes.ghost_name }
        ensures end { self.new.end ≡ self.old.end }
        ensures types { self.new.types ≡ self.old.types }
        ensures pulls { Pulls I.next_gives self.old.lexemes.now (sight_of self.new.look) self.new.lexemes.now }
        ensures goes_on { GoesOn I.can_next I.remaining I.next_gives (sight_of self.new.look) self.new.lexemes.now }
        ensures later { from.byte ≤ begin_in (sight_of self.new.look) from.byte }
        ensures fewer { items_left (sight_of self.new.look) (size (I.remaining self.new.lexemes.now)) ≤ size (I.remaining self.old.lexemes.now) }
    {
        // The old item is the end, or a token that owns no memory: there is nothing to drop.
        let old = mem::replace(&mut self.look, next_item(self.lexemes, from));
        mem::forget(old);
    }

    /// Consumes the next token. At an error and at the end nothing is consumed and no further item is read.
    pub fn take(&mut self) -> Option<(Token, Span)>
        requires { Ready I.can_next I.remaining I.next_gives (at self.old) }
        ensures moves { TakesOne I.can_next I.remaining I.next_gives self.old result self.new }
        ensures takes { MatchOption result ((at self.new ≡ at self.old) × (IsToken (at self.old).sight → ⊥))
            (λ x. Advances I.next_gives (at self.old) (lexeme (terminal x.0) (span_of x.1)) (at self.new)) }
    {
        match mem::replace(&mut self.look, Look::End) {
            Look::Token(token, span) => {
                self.end = span.end();
                self.advance(span.end());
                Some((token, span))
            }
            look => {
                self.look = look;
                None
            }
        }
    }

    /// Consumes the next token and returns its span.
    pub fn skip(&mut self) -> Option<Span>
        requires { Ready I.can_next I.remaining I.next_gives (at self.old) }
        ensures moves { TakesOne I.can_next I.remaining I.next_gives self.old result self.new }
        ensures takes { MatchOption result ((at self.new ≡ at self.old) × (IsToken (at self.old).sight → ⊥))
            (λ s. (what : Terminal) × Advances I.next_gives (at self.old) (lexeme what (span_of s)) (at self.new)) }
    {
        match &self.look {
            Look::Token(_, span) => {
                let span = *span;
                self.end = span.end();
                self.advance(span.end());
                Some(span)
            }
            _ => None,
        }
    }

    /// Consumes the next token if it is of this kind, which has to be the kind of a token without contents.
    pub fn take_if(&mut self, kind: Kind) -> Option<Span>
        requires plain { is_plain kind ≡ true }
        requires ready { Ready I.can_next I.remaining I.next_gives (at self.old) }
        ensures moves { TakesOne I.can_next I.remaining I.next_gives self.old result self.new }
        ensures takes { Takes I.next_gives kind (at self.old) result (at self.new) }
    {
        if !self.at(kind) {
            return None;
        }
        self.skip()
    }
}

/// Reads lexemes up to the next item and drops the comments before it. `from` is the end of the last token.
#[inline(always)]
fn next_item<I: Iterator<Item = Lexeme>>(lexemes: &mut I, from: Pos) -> Look
    requires can { I.can_next lexemes.old }
    requires ends { IsFinite (I.remaining lexemes.old) }
    requires ordered { ComesInOrder I.next_gives lexemes.old from.byte }
    ensures pulls { Pulls I.next_gives lexemes.old (sight_of result) lexemes.new }
    ensures goes_on { GoesOn I.can_next I.remaining I.next_gives (sight_of result) lexemes.new }
    ensures later { from.byte ≤ begin_in (sight_of result) from.byte }
    ensures fewer { items_left (sight_of result) (size (I.remaining lexemes.new)) ≤ size (I.remaining lexemes.old) }
{
    'pulling: loop {
        match lexemes.next() {
            None => return Look::End,
            Some(Err(error)) => return Look::Error(error),
            Some(Ok((begin, token, end))) => match token {
                Token::Comment(_) => {}
                token => {
                    let span = Span::new(Pos::new(begin as u32), Pos::new(end as u32));
                    return Look::Token(token, span);
                }
            },
        }
    }
}
