//! Operands: atoms with their suffixes.
ghost use Rattle.std.specs.Prelude.{◌≡◌, ◌≤◌, true, IfOk};
ghost use Rattle.starlark_lexer.specs.Tokens.{Span as Place};
ghost use Rattle.starlark_parse_held.specs.Held.{maybe_of};
ghost use Rattle.starlark_spec.specs.Grammar.Nonterminal.{Primary as PrimaryN, Sub as SubN};
ghost use Rattle.starlark_spec.specs.Machine.Sight.{look_at};
ghost use Rattle.starlark_spec.specs.Machine.States.State.{primary_tail};
ghost use Rattle.starlark_parse_cursor.specs.Reading.{at, begin_at, Ready};
ghost use Rattle.starlark_parse_cursor.specs.Contract.{MayMove, MovesOn, Parses, starts_suffix};
ghost use Rattle.starlark_parse.specs.Expr.Expressions.{IsPrimary, IsSub, IsCall, Lies, Extends};
ghost use Rattle.starlark_parse.specs.Expr.Contract.{ParsesSuffixes, ParsesAfter, ParsesClosed, ParsesIndex, ParsesSlice, ParsesBound};
ghost use Rattle.starlark_parse.specs.Expr.Contract.{at_name, at_arguments, at_subscript};
ghost use Rattle.starlark_parse.specs.Expr.NestedParsers.{NestsBelow, NestsInside};

use crate::expr::rules::{Level, Rules};
use starlark_lexer::kind::Kind;
use starlark_lexer::span::Pos;
use starlark_lexer::token::Lexeme;
use starlark_parse_build::suffix::{Suffix, attribute_of, call_of, suffixed};
use starlark_parse_cursor::cursor::Cursor;
use starlark_parse_cursor::token::{expect, take_name};
use starlark_parse_held::{HeldArguments, HeldExpr};
use starlark_spec::refusal::Refusal;
use std::alloc::{AllocError, Global};

/// An attribute of an operand, after the `.`.
#[inline(never)]
fn attribute<I: Iterator<Item = Lexeme>>(
    alloc: Global,
    cursor: &mut Cursor<I>,
    operand: HeldExpr,
) -> Result<HeldExpr, Refusal>
    requires ends { operand.tree.value.span.end.byte ≤ cursor.old.end.byte }
    requires ready { Ready I.can_next I.remaining I.next_gives (at cursor.old) }
    ensures moves { MovesOn I.can_next I.remaining I.next_gives cursor.old result cursor.new }
    ensures parses { (dot : Place) → ParsesAfter I.next_gives (at_name dot) operand (at cursor.old) result (at cursor.new) }
    ensures inside { IfOk result (Extends operand cursor.new.end.byte) }
{
    let name = take_name(cursor)?;
    Ok(attribute_of(alloc, operand, name, cursor.end)?)
}

/// A call of an operand, which ends at `end`.
#[inline(never)]
fn called_with(
    alloc: Global,
    operand: HeldExpr,
    arguments: HeldArguments,
    end: Pos,
) -> Result<HeldExpr, AllocError>
    requires { operand.tree.value.span.end.byte ≤ end.byte }
    ensures means { IfOk result (IsCall operand arguments end.byte) }
    ensures inside { IfOk result (Extends operand end.byte) }
{
    call_of(alloc, operand, arguments, end)
}

/// What follows the subscript of an operand: `]`.
#[inline(never)]
fn closed<I: Iterator<Item = Lexeme>>(
    alloc: Global,
    cursor: &mut Cursor<I>,
    operand: HeldExpr,
    subscript: Suffix,
) -> Result<HeldExpr, Refusal>
    requires ends { operand.tree.value.span.end.byte ≤ cursor.old.end.byte }
    requires ready { Ready I.can_next I.remaining I.next_gives (at cursor.old) }
    ensures moves { MovesOn I.can_next I.remaining I.next_gives cursor.old result cursor.new }
    ensures parses { ParsesClosed I.next_gives subscript operand (at cursor.old) result (at cursor.new) }
    ensures inside { IfOk result (Extends operand cursor.new.end.byte) }
{
    let _closing = expect(cursor, Kind::ClosingSquare)?;
    Ok(suffixed(alloc, operand, subscript, cursor.end)?)
}

impl<
    I: Iterator<Item = Lexeme>,
    F: Fn(Global, &mut Cursor<'_, I>, Level) -> Result<HeldExpr, Refusal>,
> Rules<I, F> {
    /// An atom with its suffixes (Starlark specification, "Primary expressions").
    pub fn primary(&self, cursor: &mut Cursor<I>) -> Result<HeldExpr, Refusal>
        requires ready { Ready I.can_next I.remaining I.next_gives (at cursor.old) }
        requires nests { NestsBelow I.can_next I.remaining I.next_gives (at cursor.old) (F.pre self.now.expression) (F.post self.now.expression) }
        ensures moves { MovesOn I.can_next I.remaining I.next_gives cursor.old result cursor.new }
        ensures parses { Parses I.next_gives PrimaryN IsPrimary (at cursor.old) result (at cursor.new) }
        ensures inside { IfOk result (Lies (begin_at (at cursor.old)) cursor.new.end.byte) }
    {
        let atom = self.atom(cursor)?;
        if !cursor.at_suffix() {
            return Ok(atom);
        }
        self.suffixes(cursor, atom)
    }

    /// An operand with the suffixes after it.
    #[inline(never)]
    pub(crate) fn suffixes(
        &self,
        cursor: &mut Cursor<I>,
        operand: HeldExpr,
    ) -> Result<HeldExpr, Refusal>
        requires ends { operand.tree.value.span.end.byte ≤ cursor.old.end.byte }
        requires ready { Ready I.can_next I.remaining I.next_gives (at cursor.old) }
        requires nests { NestsBelow I.can_next I.remaining I.next_gives (at cursor.old) (F.pre self.now.expression) (F.post self.now.expression) }
        ensures moves { MayMove I.can_next I.remaining I.next_gives cursor.old result cursor.new }
        ensures parses { ParsesSuffixes I.next_gives operand (at cursor.old) result (at cursor.new) }
        ensures inside { IfOk result (Extends operand cursor.new.end.byte) }
    {
        let mut suffixed = operand;
        'suffixes: while cursor.at_suffix() {
            suffixed = self.suffix(cursor, suffixed)?;
        }
        Ok(suffixed)
    }

    /// An operand with the suffix that comes next.
    fn suffix(&self, cursor: &mut Cursor<I>, operand: HeldExpr) -> Result<HeldExpr, Refusal>
        requires comes { starts_suffix (look_at (at cursor.old).sight).kind ≡ true }
        requires ends { operand.tree.value.span.end.byte ≤ cursor.old.end.byte }
        requires ready { Ready I.can_next I.remaining I.next_gives (at cursor.old) }
        requires nests { NestsBelow I.can_next I.remaining I.next_gives (at cursor.old) (F.pre self.now.expression) (F.post self.now.expression) }
        ensures moves { MovesOn I.can_next I.remaining I.next_gives cursor.old result cursor.new }
        ensures parses { ParsesAfter I.next_gives primary_tail operand (at cursor.old) result (at cursor.new) }
        ensures inside { IfOk result (Extends operand cursor.new.end.byte) }
    {
        if let Some(_opening) = cursor.take_if(Kind::OpeningRound) {
            return self.called(cursor, operand);
        }
        if let Some(_dot) = cursor.take_if(Kind::Dot) {
            return attribute(self.alloc, cursor, operand);
        }
        let _opening = expect(cursor, Kind::OpeningSquare)?;
        self.indexed(cursor, operand)
    }

    /// A call of an operand, after the `(` (Starlark specification, "Function and method calls").
    #[inline(never)]
    fn called(&self, cursor: &mut Cursor<I>, operand: HeldExpr) -> Result<HeldExpr, Refusal>
        requires ends { operand.tree.value.span.end.byte ≤ cursor.old.end.byte }
        requires ready { Ready I.can_next I.remaining I.next_gives (at cursor.old) }
        requires nests { NestsInside I.can_next I.remaining I.next_gives (at cursor.old) (F.pre self.now.expression) (F.post self.now.expression) }
        ensures moves { MayMove I.can_next I.remaining I.next_gives cursor.old result cursor.new }
        ensures parses { (opening : Place) → ParsesAfter I.next_gives (at_arguments opening) operand (at cursor.old) result (at cursor.new) }
        ensures inside { IfOk result (Extends operand cursor.new.end.byte) }
    {
        let mut arguments = HeldArguments::new(self.alloc);
        self.arguments(cursor, &mut arguments)?;
        let _closing = expect(cursor, Kind::ClosingRound)?;
        Ok(called_with(self.alloc, operand, arguments, cursor.end)?)
    }

    /// An operand with its index or slice, after the `[`.
    #[inline(never)]
    fn indexed(&self, cursor: &mut Cursor<I>, operand: HeldExpr) -> Result<HeldExpr, Refusal>
        requires ends { operand.tree.value.span.end.byte ≤ cursor.old.end.byte }
        requires ready { Ready I.can_next I.remaining I.next_gives (at cursor.old) }
        requires nests { NestsInside I.can_next I.remaining I.next_gives (at cursor.old) (F.pre self.now.expression) (F.post self.now.expression) }
        ensures moves { MovesOn I.can_next I.remaining I.next_gives cursor.old result cursor.new }
        ensures parses { (opening : Place) → ParsesAfter I.next_gives (at_subscript opening) operand (at cursor.old) result (at cursor.new) }
        ensures inside { IfOk result (Extends operand cursor.new.end.byte) }
    {
        let subscript = self.subscript(cursor)?;
        closed(self.alloc, cursor, operand, subscript)
    }

    /// What is in the square brackets after an operand (Starlark specification, "Index expressions", "Slice expressions").
    fn subscript(&self, cursor: &mut Cursor<I>) -> Result<Suffix, Refusal>
        requires ready { Ready I.can_next I.remaining I.next_gives (at cursor.old) }
        requires nests { NestsInside I.can_next I.remaining I.next_gives (at cursor.old) (F.pre self.now.expression) (F.post self.now.expression) }
        ensures moves { MovesOn I.can_next I.remaining I.next_gives cursor.old result cursor.new }
        ensures parses { Parses I.next_gives SubN IsSub (at cursor.old) result (at cursor.new) }
    {
        if !cursor.at_test() {
            expect(cursor, Kind::Colon)?;
            return self.slice(cursor, None);
        }
        let first = self.test(cursor)?;
        self.after_first(cursor, first)
    }

    /// What follows the first expression in the square brackets: a second index, the rest of a slice, or nothing.
    #[inline(never)]
    fn after_first(&self, cursor: &mut Cursor<I>, first: HeldExpr) -> Result<Suffix, Refusal>
        requires ready { Ready I.can_next I.remaining I.next_gives (at cursor.old) }
        requires nests { NestsBelow I.can_next I.remaining I.next_gives (at cursor.old) (F.pre self.now.expression) (F.post self.now.expression) }
        ensures moves { MayMove I.can_next I.remaining I.next_gives cursor.old result cursor.new }
        ensures parses { ParsesIndex I.next_gives first (at cursor.old) result (at cursor.new) }
    {
        if let Some(_comma) = cursor.take_if(Kind::Comma) {
            let second = self.test(cursor)?;
            return Ok(Suffix::Index2(first, second));
        }
        let Some(_colon) = cursor.take_if(Kind::Colon) else {
            return Ok(Suffix::Index(first));
        };
        self.slice(cursor, Some(first))
    }

    /// What follows the first `:` of a slice: where it stops, and after a second `:` its step.
    #[inline(never)]
    fn slice(&self, cursor: &mut Cursor<I>, start: Option<HeldExpr>) -> Result<Suffix, Refusal>
        requires ready { Ready I.can_next I.remaining I.next_gives (at cursor.old) }
        requires nests { NestsInside I.can_next I.remaining I.next_gives (at cursor.old) (F.pre self.now.expression) (F.post self.now.expression) }
        ensures moves { MayMove I.can_next I.remaining I.next_gives cursor.old result cursor.new }
        ensures parses { ParsesSlice I.next_gives (maybe_of start) (at cursor.old) result (at cursor.new) }
    {
        let stop = self.bound(cursor)?;
        let Some(_colon) = cursor.take_if(Kind::Colon) else {
            return Ok(Suffix::Slice(start, stop, None));
        };
        let step = self.bound(cursor)?;
        Ok(Suffix::Slice(start, stop, step))
    }

    /// A bound of a slice, which is absent if no expression begins.
    fn bound(&self, cursor: &mut Cursor<I>) -> Result<Option<HeldExpr>, Refusal>
        requires ready { Ready I.can_next I.remaining I.next_gives (at cursor.old) }
        requires nests { NestsInside I.can_next I.remaining I.next_gives (at cursor.old) (F.pre self.now.expression) (F.post self.now.expression) }
        ensures moves { MayMove I.can_next I.remaining I.next_gives cursor.old result cursor.new }
        ensures parses { ParsesBound I.next_gives (at cursor.old) result (at cursor.new) }
    {
        if !cursor.at_test() {
            return Ok(None);
        }
        Ok(Some(self.test(cursor)?))
    }
}
