//! Expressions: lambdas, conditional expressions, and what is made of operands.
ghost use Rattle.std.specs.Prelude.{◌≡◌, ◌≤◌, true, IfOk};
ghost use Rattle.starlark_lexer.specs.Tokens.{span_of};
ghost use Rattle.starlark_spec.specs.Grammar.Nonterminal.{Test as TestN, LoopVars, LeftAssociative, OptionalList};
ghost use Rattle.starlark_spec.specs.Grammar.ElementKind.{lambda_parameters};
ghost use Rattle.starlark_spec.specs.Grammar.PrecedenceLevel.{or_precedence};
ghost use Rattle.starlark_spec.specs.Machine.States.Place.{test_or_at, lambda_parameters_at};
ghost use Rattle.starlark_spec.specs.Machine.States.State.{read};
ghost use Rattle.starlark_spec.specs.Machine.Sight.{look_at};
ghost use Rattle.starlark_spec.specs.Machine.Firsts.{is_leaf};
ghost use Rattle.starlark_parse_cursor.specs.Reading.{at, begin_at, left_at, Ready};
ghost use Rattle.starlark_parse_cursor.specs.Contract.{MayMove, MovesOn, Parses, ParsesFrom};
ghost use Rattle.starlark_parse.specs.Expr.Expressions.{IsTest, IsLoopVars, Lies, LiesListed};
ghost use Rattle.starlark_parse.specs.Expr.Contract.{ParsesTests};
ghost use Rattle.starlark_parse.specs.Expr.NestedParsers.{Nests, IsBegun, MovesLevel, ParsesLevel, begin_of_level};
ghost use Rattle.starlark_parse.specs.Expr.Operating.{ParsesIf, ParsesAfterAtom, ParsesAfterOperand};

use crate::expr::atom::leaf;
use crate::expr::binary::{all_operations, bit_or, or_test, or_test_apart};
use crate::expr::listed::Listed;
use crate::expr::rules::{Level, Rules};
use starlark_lexer::kind::Kind;
use starlark_lexer::span::Span;
use starlark_lexer::token::Lexeme;
use starlark_parse_build::expression::{conditional, lambda};
use starlark_parse_cursor::cursor::Cursor;
use starlark_parse_cursor::token::expect;
use starlark_parse_held::HeldExpr;
use starlark_spec::refusal::Refusal;
use std::alloc::Global;
use std::marker::PhantomData;

/// An expression of a level (Starlark specification, "Expressions").
#[cycle(expression)]
pub fn expression<I: Iterator<Item = Lexeme>>(
    alloc: Global,
    cursor: &mut Cursor<I>,
    level: Level,
) -> Result<HeldExpr, Refusal>
    requires begun { IsBegun level cursor.old.end.byte }
    requires ready { Ready I.can_next I.remaining I.next_gives (at cursor.old) }
    ensures moves { MovesLevel I.can_next I.remaining I.next_gives level cursor.old result cursor.new }
    ensures parses { ParsesLevel I.next_gives level (at cursor.old) result (at cursor.new) }
    ensures inside { IfOk result (Lies (begin_of_level level (begin_at (at cursor.old))) cursor.new.end.byte) }
{
    let rules = Rules {
        alloc,
        expression: expression::<I>,
        items: PhantomData,
    };
    match level {
        Level::Test => any_test(&rules, cursor),
        Level::After(atom) => after_atom(&rules, cursor, atom),
        Level::Or => or_test(&rules, cursor),
        Level::BitOr => bit_or(&rules, cursor),
    }
}

/// An expression (Starlark specification, "Expressions").
pub fn test<I: Iterator<Item = Lexeme>>(
    alloc: Global,
    cursor: &mut Cursor<I>,
) -> Result<HeldExpr, Refusal>
    requires ready { Ready I.can_next I.remaining I.next_gives (at cursor.old) }
    ensures moves { MovesOn I.can_next I.remaining I.next_gives cursor.old result cursor.new }
    ensures parses { Parses I.next_gives TestN IsTest (at cursor.old) result (at cursor.new) }
    ensures inside { IfOk result (Lies (begin_at (at cursor.old)) cursor.new.end.byte) }
{
    expression(alloc, cursor, Level::Test)
}

/// The expression that begins with an atom of one token, which was consumed.
pub fn test_after<I: Iterator<Item = Lexeme>>(
    alloc: Global,
    cursor: &mut Cursor<I>,
    atom: HeldExpr,
) -> Result<HeldExpr, Refusal>
    requires ends { atom.tree.value.span.end.byte ≤ cursor.old.end.byte }
    requires ready { Ready I.can_next I.remaining I.next_gives (at cursor.old) }
    ensures moves { MayMove I.can_next I.remaining I.next_gives cursor.old result cursor.new }
    ensures parses { ParsesAfterAtom I.next_gives atom (at cursor.old) result (at cursor.new) }
    ensures inside { IfOk result (Lies atom.tree.value.span.begin.byte cursor.new.end.byte) }
{
    expression(alloc, cursor, Level::After(atom))
}

/// The variables of a `for`: operands with commas between them (Starlark specification, "For loops").
pub fn loop_variables<I: Iterator<Item = Lexeme>>(
    alloc: Global,
    cursor: &mut Cursor<I>,
) -> Result<HeldExpr, Refusal>
    requires ready { Ready I.can_next I.remaining I.next_gives (at cursor.old) }
    ensures moves { MovesOn I.can_next I.remaining I.next_gives cursor.old result cursor.new }
    ensures parses { Parses I.next_gives LoopVars IsLoopVars (at cursor.old) result (at cursor.new) }
    ensures inside { IfOk result (Lies (begin_at (at cursor.old)) cursor.new.end.byte) }
{
    Rules {
        alloc,
        expression: expression::<I>,
        items: PhantomData,
    }
    .loop_variables(cursor)
}

/// Expressions with commas between them, and perhaps one after the last; there may be none.
pub fn tests<I: Iterator<Item = Lexeme>>(
    alloc: Global,
    cursor: &mut Cursor<I>,
) -> Result<Listed, Refusal>
    requires ready { Ready I.can_next I.remaining I.next_gives (at cursor.old) }
    ensures moves { MayMove I.can_next I.remaining I.next_gives cursor.old result cursor.new }
    ensures parses { ParsesTests I.next_gives (at cursor.old) result (at cursor.new) }
    ensures inside { IfOk result (LiesListed (begin_at (at cursor.old)) cursor.new.end.byte) }
{
    Rules {
        alloc,
        expression: expression::<I>,
        items: PhantomData,
    }
    .tests(cursor)
}

/// An expression (Starlark specification, "Expressions").
pub(crate) fn any_test<
    I: Iterator<Item = Lexeme>,
    F: Fn(Global, &mut Cursor<'_, I>, Level) -> Result<HeldExpr, Refusal>,
>(rules: &Rules<I, F>, cursor: &mut Cursor<I>) -> Result<HeldExpr, Refusal>
    requires ready { Ready I.can_next I.remaining I.next_gives (at cursor.old) }
    requires nests { Nests I.can_next I.remaining I.next_gives (left_at I.remaining (at cursor.old)) (F.pre rules.now.expression)
        (F.post rules.now.expression) }
    ensures moves { MovesOn I.can_next I.remaining I.next_gives cursor.old result cursor.new }
    ensures parses { Parses I.next_gives TestN IsTest (at cursor.old) result (at cursor.new) }
    ensures inside { IfOk result (Lies (begin_at (at cursor.old)) cursor.new.end.byte) }
{
    if cursor.at_leaf() {
        return leaf_test(rules, cursor);
    }
    if let Some(keyword) = cursor.take_if(Kind::Lambda) {
        return after_lambda(rules, cursor, keyword);
    }
    if_expression(rules, cursor)
}

/// An expression that begins with an atom of one token: most are no more than that.
#[inline(never)]
fn leaf_test<
    I: Iterator<Item = Lexeme>,
    F: Fn(Global, &mut Cursor<'_, I>, Level) -> Result<HeldExpr, Refusal>,
>(rules: &Rules<I, F>, cursor: &mut Cursor<I>) -> Result<HeldExpr, Refusal>
    requires leaf { is_leaf (look_at (at cursor.old).sight).kind ≡ true }
    requires ready { Ready I.can_next I.remaining I.next_gives (at cursor.old) }
    requires nests { Nests I.can_next I.remaining I.next_gives (left_at I.remaining (at cursor.old)) (F.pre rules.now.expression)
        (F.post rules.now.expression) }
    ensures moves { MovesOn I.can_next I.remaining I.next_gives cursor.old result cursor.new }
    ensures parses { Parses I.next_gives TestN IsTest (at cursor.old) result (at cursor.new) }
    ensures inside { IfOk result (Lies (begin_at (at cursor.old)) cursor.new.end.byte) }
{
    let atom = leaf(rules.alloc, cursor)?;
    if cursor.at_expression_end() {
        return Ok(atom);
    }
    after_atom(rules, cursor, atom)
}

/// The expression that begins with an atom of one token, which was consumed.
#[inline(never)]
pub(crate) fn after_atom<
    I: Iterator<Item = Lexeme>,
    F: Fn(Global, &mut Cursor<'_, I>, Level) -> Result<HeldExpr, Refusal>,
>(rules: &Rules<I, F>, cursor: &mut Cursor<I>, atom: HeldExpr) -> Result<HeldExpr, Refusal>
    requires ends { atom.tree.value.span.end.byte ≤ cursor.old.end.byte }
    requires ready { Ready I.can_next I.remaining I.next_gives (at cursor.old) }
    requires nests { Nests I.can_next I.remaining I.next_gives (left_at I.remaining (at cursor.old)) (F.pre rules.now.expression)
        (F.post rules.now.expression) }
    ensures moves { MayMove I.can_next I.remaining I.next_gives cursor.old result cursor.new }
    ensures parses { ParsesAfterAtom I.next_gives atom (at cursor.old) result (at cursor.new) }
    ensures inside { IfOk result (Lies atom.tree.value.span.begin.byte cursor.new.end.byte) }
{
    let operand = rules.suffixes(cursor, atom)?;
    if cursor.at_expression_end() {
        return Ok(operand);
    }
    after_operand(rules, cursor, operand)
}

/// The expression that begins with an operand: with the operations that it is in, and `if`.
#[inline(never)]
fn after_operand<
    I: Iterator<Item = Lexeme>,
    F: Fn(Global, &mut Cursor<'_, I>, Level) -> Result<HeldExpr, Refusal>,
>(rules: &Rules<I, F>, cursor: &mut Cursor<I>, operand: HeldExpr) -> Result<HeldExpr, Refusal>
    requires ends { operand.tree.value.span.end.byte ≤ cursor.old.end.byte }
    requires ready { Ready I.can_next I.remaining I.next_gives (at cursor.old) }
    requires nests { Nests I.can_next I.remaining I.next_gives (left_at I.remaining (at cursor.old)) (F.pre rules.now.expression)
        (F.post rules.now.expression) }
    ensures moves { MayMove I.can_next I.remaining I.next_gives cursor.old result cursor.new }
    ensures parses { ParsesAfterOperand I.next_gives operand (at cursor.old) result (at cursor.new) }
    ensures inside { IfOk result (Lies operand.tree.value.span.begin.byte cursor.new.end.byte) }
{
    let value = all_operations(rules, cursor, operand)?;
    let Some(keyword) = cursor.take_if(Kind::If) else {
        return Ok(value);
    };
    after_value_if(rules, cursor, value, keyword)
}

/// What follows `lambda`: parameters, `:`, and the body (Starlark specification, "Lambda expressions").
#[inline(never)]
fn after_lambda<
    I: Iterator<Item = Lexeme>,
    F: Fn(Global, &mut Cursor<'_, I>, Level) -> Result<HeldExpr, Refusal>,
>(rules: &Rules<I, F>, cursor: &mut Cursor<I>, keyword: Span) -> Result<HeldExpr, Refusal>
    requires keyword { cursor.old.end ≡ keyword.end }
    requires ready { Ready I.can_next I.remaining I.next_gives (at cursor.old) }
    requires nests { Nests I.can_next I.remaining I.next_gives (left_at I.remaining (at cursor.old)) (F.pre rules.now.expression)
        (F.post rules.now.expression) }
    ensures moves { MovesOn I.can_next I.remaining I.next_gives cursor.old result cursor.new }
    ensures parses { ParsesFrom I.next_gives (λ p. read (OptionalList lambda_parameters) (lambda_parameters_at (span_of keyword) p)) keyword.begin.byte IsTest
        (at cursor.old) result (at cursor.new) }
    ensures inside { IfOk result (Lies keyword.begin.byte cursor.new.end.byte) }
{
    let parameters = rules.parameters(cursor)?;
    expect(cursor, Kind::Colon)?;
    let body = rules.test(cursor)?;
    Ok(lambda(rules.alloc, parameters, body, keyword.begin(), cursor.end)?)
}

/// Operands with operators between them, or a conditional expression (Starlark specification, "Conditional expressions").
fn if_expression<
    I: Iterator<Item = Lexeme>,
    F: Fn(Global, &mut Cursor<'_, I>, Level) -> Result<HeldExpr, Refusal>,
>(rules: &Rules<I, F>, cursor: &mut Cursor<I>) -> Result<HeldExpr, Refusal>
    requires ready { Ready I.can_next I.remaining I.next_gives (at cursor.old) }
    requires nests { Nests I.can_next I.remaining I.next_gives (left_at I.remaining (at cursor.old)) (F.pre rules.now.expression)
        (F.post rules.now.expression) }
    ensures moves { MovesOn I.can_next I.remaining I.next_gives cursor.old result cursor.new }
    ensures parses { ParsesFrom I.next_gives (λ p. read (LeftAssociative or_precedence) (test_or_at p)) (begin_at (at cursor.old)) IsTest (at cursor.old)
        result (at cursor.new) }
    ensures inside { IfOk result (Lies (begin_at (at cursor.old)) cursor.new.end.byte) }
{
    let value = or_test(rules, cursor)?;
    let Some(keyword) = cursor.take_if(Kind::If) else {
        return Ok(value);
    };
    after_value_if(rules, cursor, value, keyword)
}

/// What follows a value and `if`: the condition, `else`, and the other value.
#[inline(never)]
fn after_value_if<
    I: Iterator<Item = Lexeme>,
    F: Fn(Global, &mut Cursor<'_, I>, Level) -> Result<HeldExpr, Refusal>,
>(
    rules: &Rules<I, F>,
    cursor: &mut Cursor<I>,
    value: HeldExpr,
    keyword: Span,
) -> Result<HeldExpr, Refusal>
    requires ends { value.tree.value.span.end.byte ≤ cursor.old.end.byte }
    requires ready { Ready I.can_next I.remaining I.next_gives (at cursor.old) }
    requires nests { Nests I.can_next I.remaining I.next_gives (left_at I.remaining (at cursor.old)) (F.pre rules.now.expression)
        (F.post rules.now.expression) }
    ensures moves { MovesOn I.can_next I.remaining I.next_gives cursor.old result cursor.new }
    ensures parses { ParsesIf I.next_gives value (span_of keyword) (at cursor.old) result (at cursor.new) }
    ensures inside { IfOk result (Lies value.tree.value.span.begin.byte cursor.new.end.byte) }
{
    let condition = or_test_apart(rules, cursor)?;
    expect(cursor, Kind::Else)?;
    let other = rules.test(cursor)?;
    Ok(conditional(rules.alloc, value, condition, other, cursor.end)?)
}
