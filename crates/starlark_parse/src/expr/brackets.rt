//! What is in delimiters: tuples, lists, dictionaries and comprehensions.
ghost use Rattle.std.specs.Prelude.{◌≡◌, ◌≤◌, true, IfOk, MatchResult};
ghost use Rattle.starlark_lexer.specs.Tokens.{from_to, span_of};
ghost use Rattle.starlark_parse_held.specs.Held.{expression_of};
ghost use Rattle.starlark_lexer.specs.declared.kind.Kind.TheVariants as kinds;
ghost use Rattle.starlark_lexer.specs.Kinds.{is};
ghost use Rattle.starlark_spec.specs.Machine.Sight.{look_at};
ghost use Rattle.starlark_spec.specs.Trees.{list as list_of, dictionary as dictionary_of};
ghost use Rattle.starlark_spec.specs.declared.refusal.Refusal.TheVariants.{Memory};
ghost use Rattle.starlark_parse_cursor.specs.Reading.{at, Ready};
ghost use Rattle.starlark_parse_cursor.specs.Contract.{MovesOn, ParsesFrom};
ghost use Rattle.starlark_parse.specs.Expr.Expressions.{IsAtom, Lies, LiesListed, elements_in, listed_entries, in_parentheses};
ghost use Rattle.starlark_parse.specs.Expr.Contract.{ParsesRound, ParsesSquare, ParsesCurly, at_round, at_square, at_curly};
ghost use Rattle.starlark_parse.specs.Expr.NestedParsers.{NestsBelow, NestsInside};

use crate::expr::listed::{Listed, ListedEntries, elements_of, entries_of};
use crate::expr::rules::{Level, Rules};
use starlark_lexer::kind::Kind;
use starlark_lexer::span::{Pos, Span};
use starlark_lexer::token::Lexeme;
use starlark_parse_build::comprehension::{dict_comprehension, list_comprehension};
use starlark_parse_build::expression::{dictionary, list, tuple};
use starlark_parse_cursor::cursor::Cursor;
use starlark_parse_cursor::token::expect;
use starlark_parse_held::{HeldExpr, HeldExprs};
use starlark_spec::refusal::Refusal;
use std::alloc::Global;

/// What the parentheses at `brackets` contain: nothing, one expression, or elements from `begin` to `end`.
fn parenthesized(
    alloc: Global,
    listed: Listed,
    brackets: Span,
    begin: Pos,
    end: Pos,
) -> Result<HeldExpr, Refusal>
    requires { LiesListed begin.byte end.byte listed }
    ensures { MatchResult result (λ e. expression_of e ≡ in_parentheses (span_of brackets) begin.byte end.byte listed) (λ e. e ≡ Memory) }
{
    match listed {
        Listed::Nothing => Ok(tuple(
            alloc,
            HeldExprs::new(alloc),
            brackets.begin(),
            brackets.end(),
        )?),
        Listed::One(expression) => Ok(expression),
        Listed::Many(elements) => Ok(tuple(alloc, elements, begin, end)?),
    }
}

/// What follows the expressions after `(`, which begin at `begin`: `)`.
#[inline(never)]
fn after_paren<I: Iterator<Item = Lexeme>>(
    alloc: Global,
    cursor: &mut Cursor<I>,
    listed: Listed,
    opening: Span,
    begin: Pos,
) -> Result<HeldExpr, Refusal>
    requires opened { opening.end.byte ≤ cursor.old.end.byte }
    requires begins { opening.end.byte ≤ begin.byte }
    requires within { LiesListed begin.byte cursor.old.end.byte listed }
    requires ready { Ready I.can_next I.remaining I.next_gives (at cursor.old) }
    ensures moves { MovesOn I.can_next I.remaining I.next_gives cursor.old result cursor.new }
    ensures parses { ParsesRound I.next_gives (span_of opening) begin.byte listed (at cursor.old) result (at cursor.new) }
    ensures inside { IfOk result (Lies opening.begin.byte cursor.new.end.byte) }
{
    let end = cursor.end;
    let closing = expect(cursor, Kind::ClosingRound)?;
    let brackets = Span::new(opening.begin(), closing.end());
    parenthesized(alloc, listed, brackets, begin, end)
}

/// A list of the elements, from `begin` to `end`.
fn listed_list(alloc: Global, listed: Listed, begin: Pos, end: Pos) -> Result<HeldExpr, Refusal>
    requires { begin.byte ≤ end.byte }
    ensures { MatchResult result (λ e. expression_of e ≡ list_of (from_to begin.byte end.byte) (elements_in listed)) (λ e. e ≡ Memory) }
{
    let elements = elements_of(alloc, listed)?;
    Ok(list(alloc, elements, begin, end)?)
}

/// A dictionary of the entries, from `begin` to `end`.
fn listed_dictionary(
    alloc: Global,
    listed: ListedEntries,
    begin: Pos,
    end: Pos,
) -> Result<HeldExpr, Refusal>
    requires { begin.byte ≤ end.byte }
    ensures { MatchResult result (λ e. expression_of e ≡ dictionary_of (from_to begin.byte end.byte) (listed_entries listed)) (λ e. e ≡ Memory) }
{
    let entries = entries_of(alloc, listed)?;
    Ok(dictionary(alloc, entries, begin, end)?)
}

impl<
    I: Iterator<Item = Lexeme>,
    F: Fn(Global, &mut Cursor<'_, I>, Level) -> Result<HeldExpr, Refusal>,
> Rules<I, F> {
    /// What follows `(`: nothing, one expression, or a tuple, and `)`.
    #[inline(never)]
    pub(crate) fn round(&self, cursor: &mut Cursor<I>, opening: Span) -> Result<HeldExpr, Refusal>
        requires opened { cursor.old.end ≡ opening.end }
        requires ready { Ready I.can_next I.remaining I.next_gives (at cursor.old) }
        requires nests { NestsInside I.can_next I.remaining I.next_gives (at cursor.old) (F.pre self.now.expression) (F.post self.now.expression) }
        ensures moves { MovesOn I.can_next I.remaining I.next_gives cursor.old result cursor.new }
        ensures parses { ParsesFrom I.next_gives (at_round (span_of opening)) opening.begin.byte IsAtom (at cursor.old) result (at cursor.new) }
        ensures inside { IfOk result (Lies opening.begin.byte cursor.new.end.byte) }
    {
        let begin = cursor.begin();
        let listed = self.tests(cursor)?;
        after_paren(self.alloc, cursor, listed, opening, begin)
    }

    /// What follows `[`: the elements of a list, or an element and clauses, and `]`.
    #[inline(never)]
    pub(crate) fn square(&self, cursor: &mut Cursor<I>, opening: Span) -> Result<HeldExpr, Refusal>
        requires opened { cursor.old.end ≡ opening.end }
        requires ready { Ready I.can_next I.remaining I.next_gives (at cursor.old) }
        requires nests { NestsInside I.can_next I.remaining I.next_gives (at cursor.old) (F.pre self.now.expression) (F.post self.now.expression) }
        ensures moves { MovesOn I.can_next I.remaining I.next_gives cursor.old result cursor.new }
        ensures parses { ParsesFrom I.next_gives (at_square (span_of opening)) opening.begin.byte IsAtom (at cursor.old) result (at cursor.new) }
        ensures inside { IfOk result (Lies opening.begin.byte cursor.new.end.byte) }
    {
        let listed = self.tests(cursor)?;
        self.after_bracket(cursor, listed, opening)
    }

    /// What follows the expressions after `[`: `]`, or after one of them clauses and `]`.
    #[inline(never)]
    fn after_bracket(
        &self,
        cursor: &mut Cursor<I>,
        listed: Listed,
        opening: Span,
    ) -> Result<HeldExpr, Refusal>
        requires opened { opening.end.byte ≤ cursor.old.end.byte }
        requires ready { Ready I.can_next I.remaining I.next_gives (at cursor.old) }
        requires nests { NestsBelow I.can_next I.remaining I.next_gives (at cursor.old) (F.pre self.now.expression) (F.post self.now.expression) }
        ensures moves { MovesOn I.can_next I.remaining I.next_gives cursor.old result cursor.new }
        ensures parses { ParsesSquare I.next_gives (span_of opening) listed (at cursor.old) result (at cursor.new) }
        ensures inside { IfOk result (Lies opening.begin.byte cursor.new.end.byte) }
    {
        if cursor.at(Kind::For) {
            return self.list_clauses(cursor, listed, opening);
        }
        let _closing = expect(cursor, Kind::ClosingSquare)?;
        listed_list(self.alloc, listed, opening.begin(), cursor.end)
    }

    /// What follows the expressions after `[` if `for` comes: there is one, and clauses and `]` follow it.
    #[inline(never)]
    fn list_clauses(
        &self,
        cursor: &mut Cursor<I>,
        listed: Listed,
        opening: Span,
    ) -> Result<HeldExpr, Refusal>
        requires comes { is (look_at (at cursor.old).sight).kind kinds.For ≡ true }
        requires opened { opening.end.byte ≤ cursor.old.end.byte }
        requires ready { Ready I.can_next I.remaining I.next_gives (at cursor.old) }
        requires nests { NestsBelow I.can_next I.remaining I.next_gives (at cursor.old) (F.pre self.now.expression) (F.post self.now.expression) }
        ensures moves { MovesOn I.can_next I.remaining I.next_gives cursor.old result cursor.new }
        ensures parses { ParsesSquare I.next_gives (span_of opening) listed (at cursor.old) result (at cursor.new) }
        ensures inside { IfOk result (Lies opening.begin.byte cursor.new.end.byte) }
    {
        let Listed::One(element) = listed else {
            return Err(cursor.refusal());
        };
        let clauses = self.clauses(cursor)?;
        let _end = expect(cursor, Kind::ClosingSquare)?;
        Ok(list_comprehension(self.alloc, element, clauses, opening.begin(), cursor.end)?)
    }

    /// What follows `{`: the entries of a dictionary, or an entry and clauses, and `}`.
    #[inline(never)]
    pub(crate) fn curly(&self, cursor: &mut Cursor<I>, opening: Span) -> Result<HeldExpr, Refusal>
        requires opened { cursor.old.end ≡ opening.end }
        requires ready { Ready I.can_next I.remaining I.next_gives (at cursor.old) }
        requires nests { NestsInside I.can_next I.remaining I.next_gives (at cursor.old) (F.pre self.now.expression) (F.post self.now.expression) }
        ensures moves { MovesOn I.can_next I.remaining I.next_gives cursor.old result cursor.new }
        ensures parses { ParsesFrom I.next_gives (at_curly (span_of opening)) opening.begin.byte IsAtom (at cursor.old) result (at cursor.new) }
        ensures inside { IfOk result (Lies opening.begin.byte cursor.new.end.byte) }
    {
        let listed = self.entries(cursor)?;
        self.after_brace(cursor, listed, opening)
    }

    /// What follows the entries after `{`: `}`, or after one of them clauses and `}`.
    #[inline(never)]
    fn after_brace(
        &self,
        cursor: &mut Cursor<I>,
        listed: ListedEntries,
        opening: Span,
    ) -> Result<HeldExpr, Refusal>
        requires opened { opening.end.byte ≤ cursor.old.end.byte }
        requires ready { Ready I.can_next I.remaining I.next_gives (at cursor.old) }
        requires nests { NestsBelow I.can_next I.remaining I.next_gives (at cursor.old) (F.pre self.now.expression) (F.post self.now.expression) }
        ensures moves { MovesOn I.can_next I.remaining I.next_gives cursor.old result cursor.new }
        ensures parses { ParsesCurly I.next_gives (span_of opening) listed (at cursor.old) result (at cursor.new) }
        ensures inside { IfOk result (Lies opening.begin.byte cursor.new.end.byte) }
    {
        if cursor.at(Kind::For) {
            return self.dict_clauses(cursor, listed, opening);
        }
        let _closing = expect(cursor, Kind::ClosingCurly)?;
        listed_dictionary(self.alloc, listed, opening.begin(), cursor.end)
    }

    /// What follows the entries after `{` if `for` comes: there is one, and clauses and `}` follow it.
    #[inline(never)]
    fn dict_clauses(
        &self,
        cursor: &mut Cursor<I>,
        listed: ListedEntries,
        opening: Span,
    ) -> Result<HeldExpr, Refusal>
        requires comes { is (look_at (at cursor.old).sight).kind kinds.For ≡ true }
        requires opened { opening.end.byte ≤ cursor.old.end.byte }
        requires ready { Ready I.can_next I.remaining I.next_gives (at cursor.old) }
        requires nests { NestsBelow I.can_next I.remaining I.next_gives (at cursor.old) (F.pre self.now.expression) (F.post self.now.expression) }
        ensures moves { MovesOn I.can_next I.remaining I.next_gives cursor.old result cursor.new }
        ensures parses { ParsesCurly I.next_gives (span_of opening) listed (at cursor.old) result (at cursor.new) }
        ensures inside { IfOk result (Lies opening.begin.byte cursor.new.end.byte) }
    {
        let ListedEntries::One(key, value) = listed else {
            return Err(cursor.refusal());
        };
        let clauses = self.clauses(cursor)?;
        let _end = expect(cursor, Kind::ClosingCurly)?;
        Ok(dict_comprehension(self.alloc, key, value, clauses, opening.begin(), cursor.end)?)
    }
}
