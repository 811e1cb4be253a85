//! F-strings.
ghost use Rattle.std.specs.Prelude.{◌≡◌, ◌≤◌, IfOk, OnOk};
ghost use Rattle.starlark_lexer.specs.Tokens.{span_of};
ghost use Rattle.starlark_parse_cursor.specs.Reading.{at, begin_at, Ready};
ghost use Rattle.starlark_parse_cursor.specs.Contract.{MayMove, MovesOn, TakesOne};
ghost use Rattle.starlark_parse.specs.Expr.Expressions.{Lies};
ghost use Rattle.starlark_parse.specs.Expr.Contract.{TakesStart, TakesText, ParsesConversion, ParsesPieces, ParsesHole, ParsesFString};
ghost use Rattle.starlark_parse.specs.Expr.NestedParsers.{NestsInside};

use crate::expr::rules::{Level, Rules};
use starlark_lexer::kind::Kind;
use starlark_lexer::span::Span;
use starlark_lexer::token::{FStringConv, Lexeme, Token};
use starlark_parse_build::format::{Format, conversion_of, formatted};
use starlark_parse_cursor::cursor::Cursor;
use starlark_parse_cursor::token::{expect, take_name};
use starlark_parse_held::HeldExpr;
use starlark_spec::error::GrammarError;
use starlark_spec::refusal::Refusal;
use std::alloc::Global;

/// Consumes the beginning of an f-string, if one comes.
pub(crate) fn take_start<I: Iterator<Item = Lexeme>>(cursor: &mut Cursor<I>) -> Option<Span>
    requires ready { Ready I.can_next I.remaining I.next_gives (at cursor.old) }
    ensures moves { TakesOne I.can_next I.remaining I.next_gives cursor.old result cursor.new }
    ensures takes { TakesStart I.next_gives (at cursor.old) result (at cursor.new) }
{
    if !cursor.at(Kind::FStringStart) {
        return None;
    }
    cursor.skip()
}

/// Consumes a text of an f-string, if one comes.
fn take_text<I: Iterator<Item = Lexeme>>(cursor: &mut Cursor<I>) -> Option<String>
    requires ready { Ready I.can_next I.remaining I.next_gives (at cursor.old) }
    ensures moves { TakesOne I.can_next I.remaining I.next_gives cursor.old result cursor.new }
    ensures takes { TakesText I.next_gives (at cursor.old) result (at cursor.new) }
{
    if !cursor.at(Kind::FStringText) {
        return None;
    }
    match cursor.take()? {
        (Token::FStringText(text), _) => Some(text),
        _ => None,
    }
}

/// What `!` after a value in an f-string says about its conversion: `s` or `r`.
fn conversion<I: Iterator<Item = Lexeme>>(cursor: &mut Cursor<I>) -> Result<FStringConv, Refusal>
    requires ready { Ready I.can_next I.remaining I.next_gives (at cursor.old) }
    ensures moves { MayMove I.can_next I.remaining I.next_gives cursor.old result cursor.new }
    ensures parses { ParsesConversion I.next_gives (at cursor.old) result (at cursor.new) }
{
    let Some(bang) = cursor.take_if(Kind::FStringBang) else {
        return Ok(FStringConv::None);
    };
    let Ok(name) = take_name(cursor) else {
        let span = Span::new(bang.begin(), cursor.begin());
        return Err(cursor.broken(GrammarError::FStringConversion, span));
    };
    match conversion_of(name.node.as_str()) {
        Some(conversion) => Ok(conversion),
        None => {
            let span = Span::new(bang.begin(), name.span.end());
            Err(cursor.broken(GrammarError::FStringConversion, span))
        }
    }
}

impl<
    I: Iterator<Item = Lexeme>,
    F: Fn(Global, &mut Cursor<'_, I>, Level) -> Result<HeldExpr, Refusal>,
> Rules<I, F> {
    /// An f-string, after its beginning. What is between its quotes comes as tokens of its own.
    #[inline(never)]
    pub(crate) fn f_string(&self, cursor: &mut Cursor<I>, start: Span) -> Result<HeldExpr, Refusal>
        requires opened { cursor.old.end ≡ start.end }
        requires ready { Ready I.can_next I.remaining I.next_gives (at cursor.old) }
        requires nests { NestsInside I.can_next I.remaining I.next_gives (at cursor.old) (F.pre self.now.expression) (F.post self.now.expression) }
        ensures moves { MovesOn I.can_next I.remaining I.next_gives cursor.old result cursor.new }
        ensures parses { ParsesFString I.next_gives (span_of start) (at cursor.old) result (at cursor.new) }
        ensures inside { IfOk result (Lies start.begin.byte cursor.new.end.byte) }
    {
        let format = self.pieces(cursor)?;
        expect(cursor, Kind::FStringEnd)?;
        Ok(formatted(self.alloc, format, start.begin(), cursor.end)?)
    }

    /// What is between the quotes of an f-string: texts and values.
    fn pieces(&self, cursor: &mut Cursor<I>) -> Result<Format, Refusal>
        requires ready { Ready I.can_next I.remaining I.next_gives (at cursor.old) }
        requires nests { NestsInside I.can_next I.remaining I.next_gives (at cursor.old) (F.pre self.now.expression) (F.post self.now.expression) }
        ensures moves { MayMove I.can_next I.remaining I.next_gives cursor.old result cursor.new }
        ensures onward { OnOk result (begin_at (at cursor.old) ≤ begin_at (at cursor.new)) }
        ensures parses { ParsesPieces I.next_gives (at cursor.old) result (at cursor.new) }
    {
        let mut format = Format::new(self.alloc);
        'reading: loop {
            if let Some(text) = take_text(cursor) {
                format.push_text(text.as_str())?;
                continue;
            }
            let Some(_opening) = cursor.take_if(Kind::FStringExprStart) else {
                return Ok(format);
            };
            let (value, conversion) = self.hole(cursor)?;
            format.push_value(value, conversion)?;
        }
    }

    /// A value in an f-string, with its conversion and the `}` after it.
    fn hole(&self, cursor: &mut Cursor<I>) -> Result<(HeldExpr, FStringConv), Refusal>
        requires ready { Ready I.can_next I.remaining I.next_gives (at cursor.old) }
        requires nests { NestsInside I.can_next I.remaining I.next_gives (at cursor.old) (F.pre self.now.expression) (F.post self.now.expression) }
        ensures moves { MovesOn I.can_next I.remaining I.next_gives cursor.old result cursor.new }
        ensures parses { ParsesHole I.next_gives (at cursor.old) result (at cursor.new) }
    {
        let value = self.test(cursor)?;
        let conversion = conversion(cursor)?;
        expect(cursor, Kind::FStringExprEnd)?;
        Ok((value, conversion))
    }
}
