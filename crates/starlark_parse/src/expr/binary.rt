//! Operands with operators between them, and unary operators before them.
ghost use Rattle.std.specs.Prelude.{◌≡◌, ℕ, ◌≤◌, true, Some, OnOk, IfOk};
ghost use Rattle.starlark_spec.specs.Grammar.Nonterminal.{LeftAssociative, Unary as UnaryN};
ghost use Rattle.starlark_spec.specs.Grammar.PrecedenceLevel.{or_precedence, bit_or_precedence};
ghost use Rattle.starlark_spec.specs.Machine.Firsts as firsts;
ghost use Rattle.starlark_spec.specs.Machine.Sight.{look_at};
ghost use Rattle.starlark_parse_build.specs.Operations.{Before, After, stack_of};
ghost use Rattle.starlark_parse_cursor.specs.Reading.{at, begin_at, left_at, Ready};
ghost use Rattle.starlark_parse_cursor.specs.Contract.{MayMove, MovesOn, Parses};
ghost use Rattle.starlark_parse.specs.Expr.Operators.{binary_operator as binary};
ghost use Rattle.starlark_parse.specs.Expr.Expressions.{IsOr, IsBitOr, Lies};
ghost use Rattle.starlark_parse.specs.Expr.Operators.{IsUnary};
ghost use Rattle.starlark_parse.specs.Expr.Operating.{Operates, NotsTaken, ParsesFirst, ParsesMore, ParsesOperations};
ghost use Rattle.starlark_parse.specs.Expr.NestedParsers.{Nests};

use crate::expr::operator::{binary_operator, is_unary_operator, tight_operator, with_operator};
use crate::expr::rules::{Level, Rules};
use starlark_lexer::kind::Kind;
use starlark_lexer::span::{Pos, Span};
use starlark_lexer::token::Lexeme;
use starlark_parse_build::expression::operation;
use starlark_parse_build::operations::Operations;
use starlark_parse_cursor::cursor::Cursor;
use starlark_parse_cursor::token::expect;
use starlark_parse_held::HeldExpr;
use starlark_spec::refusal::Refusal;
use starlark_tree::ast::BinOp;
use std::alloc::{AllocError, Global};

/// Consumes the binary operator that comes next: one token, or `not in`.
fn take_operator<I: Iterator<Item = Lexeme>>(
    cursor: &mut Cursor<I>,
    operator: BinOp,
) -> Result<(), Refusal>
    requires operator { binary (look_at (at cursor.old).sight).kind ≡ Some operator }
    requires ready { Ready I.can_next I.remaining I.next_gives (at cursor.old) }
    ensures moves { MovesOn I.can_next I.remaining I.next_gives cursor.old result cursor.new }
    ensures takes { Operates I.next_gives operator (at cursor.old) result (at cursor.new) }
{
    let Some(_sign) = cursor.skip() else {
        return Err(cursor.refusal());
    };
    match operator {
        BinOp::NotIn => {
            let _in = expect(cursor, Kind::In)?;
            Ok(())
        }
        _ => Ok(()),
    }
}

/// Consumes the `not`s before an operand, if they are allowed.
fn take_nots<I: Iterator<Item = Lexeme>>(
    cursor: &mut Cursor<I>,
    waiting: &mut Operations,
) -> Result<(), AllocError>
    requires ready { Ready I.can_next I.remaining I.next_gives (at cursor.old) }
    ensures moves { MayMove I.can_next I.remaining I.next_gives cursor.old result cursor.new }
    ensures takes { NotsTaken I.next_gives (stack_of waiting.old) (at cursor.old) result (stack_of waiting.new) (at cursor.new) }
    ensures later { OnOk result (begin_at (at cursor.old) ≤ begin_at (at cursor.new)) }
{
    if !waiting.takes_not() {
        return Ok(());
    }
    'negating: while let Some(operator) = cursor.take_if(Kind::Not) {
        waiting.wait_not(operator.begin())?;
    }
    Ok(())
}

/// Operands with binary operators between them and `not`s before them (Starlark specification, "Binary operators").
#[inline(always)]
pub(crate) fn or_test<
    I: Iterator<Item = Lexeme>,
    F: Fn(Global, &mut Cursor<'_, I>, Level) -> Result<HeldExpr, Refusal>,
>(rules: &Rules<I, F>, cursor: &mut Cursor<I>) -> Result<HeldExpr, Refusal>
    requires ready { Ready I.can_next I.remaining I.next_gives (at cursor.old) }
    requires nests { Nests I.can_next I.remaining I.next_gives (left_at I.remaining (at cursor.old)) (F.pre rules.now.expression)
        (F.post rules.now.expression) }
    ensures moves { MovesOn I.can_next I.remaining I.next_gives cursor.old result cursor.new }
    ensures parses { Parses I.next_gives (LeftAssociative or_precedence) IsOr (at cursor.old) result (at cursor.new) }
    ensures inside { IfOk result (Lies (begin_at (at cursor.old)) cursor.new.end.byte) }
{
    if cursor.at(Kind::Not) {
        return negated_operations(rules, cursor);
    }
    let operand = unary(rules, cursor)?;
    all_operations(rules, cursor, operand)
}

/// The operations that begin with a `not`.
#[inline(never)]
fn negated_operations<
    I: Iterator<Item = Lexeme>,
    F: Fn(Global, &mut Cursor<'_, I>, Level) -> Result<HeldExpr, Refusal>,
>(rules: &Rules<I, F>, cursor: &mut Cursor<I>) -> Result<HeldExpr, Refusal>
    requires ready { Ready I.can_next I.remaining I.next_gives (at cursor.old) }
    requires nests { Nests I.can_next I.remaining I.next_gives (left_at I.remaining (at cursor.old)) (F.pre rules.now.expression)
        (F.post rules.now.expression) }
    ensures moves { MovesOn I.can_next I.remaining I.next_gives cursor.old result cursor.new }
    ensures parses { Parses I.next_gives (LeftAssociative or_precedence) IsOr (at cursor.old) result (at cursor.new) }
    ensures inside { IfOk result (Lies (begin_at (at cursor.old)) cursor.new.end.byte) }
{
    let mut waiting = Operations::new(rules.alloc);
    take_nots(cursor, &mut waiting)?;
    let operand = unary(rules, cursor)?;
    operations(rules, cursor, &mut waiting, operand)
}

/// The same, not inlined.
#[inline(never)]
pub(crate) fn or_test_apart<
    I: Iterator<Item = Lexeme>,
    F: Fn(Global, &mut Cursor<'_, I>, Level) -> Result<HeldExpr, Refusal>,
>(rules: &Rules<I, F>, cursor: &mut Cursor<I>) -> Result<HeldExpr, Refusal>
    requires ready { Ready I.can_next I.remaining I.next_gives (at cursor.old) }
    requires nests { Nests I.can_next I.remaining I.next_gives (left_at I.remaining (at cursor.old)) (F.pre rules.now.expression)
        (F.post rules.now.expression) }
    ensures moves { MovesOn I.can_next I.remaining I.next_gives cursor.old result cursor.new }
    ensures parses { Parses I.next_gives (LeftAssociative or_precedence) IsOr (at cursor.old) result (at cursor.new) }
    ensures inside { IfOk result (Lies (begin_at (at cursor.old)) cursor.new.end.byte) }
{
    or_test(rules, cursor)
}

/// The operations that begin with an operand.
#[inline(never)]
pub(crate) fn all_operations<
    I: Iterator<Item = Lexeme>,
    F: Fn(Global, &mut Cursor<'_, I>, Level) -> Result<HeldExpr, Refusal>,
>(rules: &Rules<I, F>, cursor: &mut Cursor<I>, operand: HeldExpr) -> Result<HeldExpr, Refusal>
    requires ends { operand.tree.value.span.end.byte ≤ cursor.old.end.byte }
    requires ready { Ready I.can_next I.remaining I.next_gives (at cursor.old) }
    requires nests { Nests I.can_next I.remaining I.next_gives (left_at I.remaining (at cursor.old)) (F.pre rules.now.expression)
        (F.post rules.now.expression) }
    ensures moves { MayMove I.can_next I.remaining I.next_gives cursor.old result cursor.new }
    ensures parses { ParsesFirst I.next_gives operand (at cursor.old) result (at cursor.new) }
    ensures inside { IfOk result (Lies operand.tree.value.span.begin.byte cursor.new.end.byte) }
{
    let Some(operator) = binary_operator(cursor.kind()) else {
        return Ok(operand);
    };
    let end = cursor.end;
    take_operator(cursor, operator)?;
    if cursor.at(Kind::Not) {
        return more_operations(rules, cursor, operand, operator, end);
    }
    let right = unary(rules, cursor)?;
    if binary_operator(cursor.kind()).is_none() {
        return Ok(operation(operand, operator, right)?);
    }
    let mut waiting = Operations::new(rules.alloc);
    waiting.wait(operand, operator, end)?;
    operations(rules, cursor, &mut waiting, right)
}

/// The operations that begin with an operand, which ended at `end`, and an operator, if a `not` comes next.
#[inline(never)]
fn more_operations<
    I: Iterator<Item = Lexeme>,
    F: Fn(Global, &mut Cursor<'_, I>, Level) -> Result<HeldExpr, Refusal>,
>(
    rules: &Rules<I, F>,
    cursor: &mut Cursor<I>,
    left: HeldExpr,
    operator: BinOp,
    end: Pos,
) -> Result<HeldExpr, Refusal>
    requires left { left.tree.value.span.end.byte ≤ end.byte }
    requires ends { end.byte ≤ cursor.old.end.byte }
    requires ready { Ready I.can_next I.remaining I.next_gives (at cursor.old) }
    requires nests { Nests I.can_next I.remaining I.next_gives (left_at I.remaining (at cursor.old)) (F.pre rules.now.expression)
        (F.post rules.now.expression) }
    ensures moves { MovesOn I.can_next I.remaining I.next_gives cursor.old result cursor.new }
    ensures parses { ParsesMore I.next_gives left operator end.byte (at cursor.old) result (at cursor.new) }
    ensures inside { IfOk result (Lies left.tree.value.span.begin.byte cursor.new.end.byte) }
{
    let mut waiting = Operations::new(rules.alloc);
    waiting.wait(left, operator, end)?;
    take_nots(cursor, &mut waiting)?;
    let operand = unary(rules, cursor)?;
    operations(rules, cursor, &mut waiting, operand)
}

/// The operations that begin with an operand, if others may wait for it.
#[inline(never)]
fn operations<
    I: Iterator<Item = Lexeme>,
    F: Fn(Global, &mut Cursor<'_, I>, Level) -> Result<HeldExpr, Refusal>,
>(
    rules: &Rules<I, F>,
    cursor: &mut Cursor<I>,
    waiting: &mut Operations,
    first: HeldExpr,
) -> Result<HeldExpr, Refusal>
    requires before { Before first.tree.value.span.end.byte (stack_of waiting.old) }
    requires ends { first.tree.value.span.end.byte ≤ cursor.old.end.byte }
    requires ready { Ready I.can_next I.remaining I.next_gives (at cursor.old) }
    requires nests { Nests I.can_next I.remaining I.next_gives (left_at I.remaining (at cursor.old)) (F.pre rules.now.expression)
        (F.post rules.now.expression) }
    ensures moves { MayMove I.can_next I.remaining I.next_gives cursor.old result cursor.new }
    ensures parses { ParsesOperations I.next_gives (stack_of waiting.old) first (at cursor.old) result (at cursor.new) }
    ensures inside { (begin : ℕ) → After begin (stack_of waiting.old) → begin ≤ first.tree.value.span.begin.byte
        → IfOk result (Lies begin cursor.new.end.byte) }
{
    let mut operand = first;
    'operands: loop {
        let Some(operator) = binary_operator(cursor.kind()) else {
            return Ok(waiting.finish(operand, cursor.end)?);
        };
        if waiting.compares_twice(operator) {
            return Err(cursor.refusal());
        }
        waiting.wait(operand, operator, cursor.end)?;
        take_operator(cursor, operator)?;
        take_nots(cursor, waiting)?;
        operand = unary(rules, cursor)?;
    }
}

/// Operands with operators between them that bind more tightly than comparisons.
#[inline(never)]
pub(crate) fn bit_or<
    I: Iterator<Item = Lexeme>,
    F: Fn(Global, &mut Cursor<'_, I>, Level) -> Result<HeldExpr, Refusal>,
>(rules: &Rules<I, F>, cursor: &mut Cursor<I>) -> Result<HeldExpr, Refusal>
    requires ready { Ready I.can_next I.remaining I.next_gives (at cursor.old) }
    requires nests { Nests I.can_next I.remaining I.next_gives (left_at I.remaining (at cursor.old)) (F.pre rules.now.expression)
        (F.post rules.now.expression) }
    ensures moves { MovesOn I.can_next I.remaining I.next_gives cursor.old result cursor.new }
    ensures parses { Parses I.next_gives (LeftAssociative bit_or_precedence) IsBitOr (at cursor.old) result (at cursor.new) }
    ensures inside { IfOk result (Lies (begin_at (at cursor.old)) cursor.new.end.byte) }
{
    let mut waiting = Operations::new(rules.alloc);
    'operands: loop {
        let operand = unary(rules, cursor)?;
        let Some(operator) = tight_operator(cursor.kind()) else {
            return Ok(waiting.finish(operand, cursor.end)?);
        };
        waiting.wait(operand, operator, cursor.end)?;
        take_operator(cursor, operator)?;
    }
}

/// An operand, perhaps after unary operators (Starlark specification, "Unary operators").
#[cycle(unary)]
fn unary<
    I: Iterator<Item = Lexeme>,
    F: Fn(Global, &mut Cursor<'_, I>, Level) -> Result<HeldExpr, Refusal>,
>(rules: &Rules<I, F>, cursor: &mut Cursor<I>) -> Result<HeldExpr, Refusal>
    requires ready { Ready I.can_next I.remaining I.next_gives (at cursor.old) }
    requires nests { Nests I.can_next I.remaining I.next_gives (left_at I.remaining (at cursor.old)) (F.pre rules.now.expression)
        (F.post rules.now.expression) }
    ensures moves { MovesOn I.can_next I.remaining I.next_gives cursor.old result cursor.new }
    ensures parses { Parses I.next_gives UnaryN IsUnary (at cursor.old) result (at cursor.new) }
    ensures inside { IfOk result (Lies (begin_at (at cursor.old)) cursor.new.end.byte) }
{
    let operator = cursor.kind();
    if is_unary_operator(operator) {
        return unary_operation(rules, cursor, operator);
    }
    rules.primary(cursor)
}

/// An operator, and the operand after it.
#[cycle(unary)]
#[inline(never)]
fn unary_operation<
    I: Iterator<Item = Lexeme>,
    F: Fn(Global, &mut Cursor<'_, I>, Level) -> Result<HeldExpr, Refusal>,
>(rules: &Rules<I, F>, cursor: &mut Cursor<I>, operator: Kind) -> Result<HeldExpr, Refusal>
    requires comes { operator ≡ (look_at (at cursor.old).sight).kind }
    requires operator { firsts.is_sign operator ≡ true }
    requires ready { Ready I.can_next I.remaining I.next_gives (at cursor.old) }
    requires nests { Nests I.can_next I.remaining I.next_gives (left_at I.remaining (at cursor.old)) (F.pre rules.now.expression)
        (F.post rules.now.expression) }
    ensures moves { MovesOn I.can_next I.remaining I.next_gives cursor.old result cursor.new }
    ensures parses { Parses I.next_gives UnaryN IsUnary (at cursor.old) result (at cursor.new) }
    ensures inside { IfOk result (Lies (begin_at (at cursor.old)) cursor.new.end.byte) }
{
    let begin = cursor.begin();
    let Some(_sign) = cursor.skip() else {
        return Err(cursor.refusal());
    };
    let operand = unary(rules, cursor)?;
    Ok(with_operator(rules.alloc, operator, operand, Span::new(begin, cursor.end))?)
}
