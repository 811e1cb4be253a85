//! Small statements (Starlark specification, "Statements").
ghost use Rattle.std.specs.Prelude.{◌≡◌, ◌≤◌};
ghost use Rattle.starlark_lexer.specs.Tokens.{span_of};
ghost use Rattle.starlark_spec.specs.Machine.States.State.{after_return as return_taken};
ghost use Rattle.starlark_parse_cursor.specs.Reading.{at, Ready};
ghost use Rattle.starlark_parse_cursor.specs.Contract.{MayMove, MovesOn};
ghost use Rattle.starlark_parse.specs.Stmt.Lines.{ParsesSmall, ParsesSmallFrom};

use crate::stmt::assignment::expression_or_assignment;
use crate::stmt::load::after_load;
use crate::stmt::test_list::test_list;
use starlark_lexer::kind::Kind;
use starlark_lexer::span::Span;
use starlark_lexer::token::Lexeme;
use starlark_parse_build::statement::{
    break_statement, continue_statement, pass_statement, return_statement, return_value,
};
use starlark_parse_cursor::cursor::Cursor;
use starlark_parse_held::HeldStmts;
use starlark_spec::refusal::Refusal;
use std::alloc::Global;

/// Adds a small statement: one of those that may share a line.
pub fn small_statement<I: Iterator<Item = Lexeme>>(
    alloc: Global,
    cursor: &mut Cursor<I>,
    statements: &mut HeldStmts,
) -> Result<(), Refusal>
    requires ready { Ready I.can_next I.remaining I.next_gives (at cursor.old) }
    ensures moves { MovesOn I.can_next I.remaining I.next_gives cursor.old result cursor.new }
    ensures parses { ParsesSmall I.next_gives statements.old statements.new (at cursor.old) result (at cursor.new) }
{
    if let Some(span) = cursor.take_if(Kind::Pass) {
        return Ok(pass_statement(statements, span)?);
    }
    if let Some(span) = cursor.take_if(Kind::Break) {
        return Ok(break_statement(statements, span)?);
    }
    if let Some(span) = cursor.take_if(Kind::Continue) {
        return Ok(continue_statement(statements, span)?);
    }
    if let Some(keyword) = cursor.take_if(Kind::Return) {
        return after_return(alloc, cursor, statements, keyword);
    }
    if let Some(keyword) = cursor.take_if(Kind::Load) {
        return after_load(alloc, cursor, statements, keyword);
    }
    expression_or_assignment(alloc, cursor, statements)
}

/// Adds the statement of a `return`, which is followed by a value or by nothing.
#[inline(never)]
fn after_return<I: Iterator<Item = Lexeme>>(
    alloc: Global,
    cursor: &mut Cursor<I>,
    statements: &mut HeldStmts,
    keyword: Span,
) -> Result<(), Refusal>
    requires keyword { cursor.old.end ≡ keyword.end }
    requires ready { Ready I.can_next I.remaining I.next_gives (at cursor.old) }
    ensures moves { MayMove I.can_next I.remaining I.next_gives cursor.old result cursor.new }
    ensures parses { ParsesSmallFrom I.next_gives (λ p. return_taken (span_of keyword) p) keyword.begin.byte statements.old statements.new
        (at cursor.old) result
        (at cursor.new) }
{
    if !cursor.at_test() {
        return Ok(return_statement(statements, keyword)?);
    }
    let value = test_list(alloc, cursor)?;
    Ok(return_value(statements, value.expression, keyword.begin(), cursor.end)?)
}
