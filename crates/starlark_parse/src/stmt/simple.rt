//! Lines of small statements.
ghost use Rattle.std.specs.Prelude.{◌≤◌, IfOk};
ghost use Rattle.starlark_parse_cursor.specs.Reading.{at, Ready};
ghost use Rattle.starlark_parse_cursor.specs.Contract.{MovesOn};
ghost use Rattle.starlark_parse.specs.Stmt.Lines.{ParsesLine, ParsesLineEnd, TakesLast};

use crate::stmt::small::small_statement;
use starlark_lexer::kind::Kind;
use starlark_lexer::span::Pos;
use starlark_lexer::token::Lexeme;
use starlark_parse_build::statement::joined;
use starlark_parse_cursor::cursor::Cursor;
use starlark_parse_cursor::token::expect;
use starlark_parse_held::HeldStmts;
use starlark_spec::refusal::Refusal;
use std::alloc::{AllocError, Global};

/// Adds a line: small statements with `;` between them, and perhaps one after the last, up to the end of the line. Several become a block.
#[inline(never)]
pub fn simple_statement<I: Iterator<Item = Lexeme>>(
    alloc: Global,
    cursor: &mut Cursor<I>,
    statements: &mut HeldStmts,
) -> Result<(), Refusal>
    requires ready { Ready I.can_next I.remaining I.next_gives (at cursor.old) }
    ensures moves { MovesOn I.can_next I.remaining I.next_gives cursor.old result cursor.new }
    ensures parses { ParsesLine I.next_gives statements.old statements.new (at cursor.old) result (at cursor.new) }
{
    let begin = cursor.begin();
    small_statement(alloc, cursor, statements)?;
    if cursor.at(Kind::Semicolon) {
        return after_first(alloc, cursor, begin, statements);
    }
    let _newline = expect(cursor, Kind::Newline)?;
    Ok(())
}

/// What follows the first small statement of a line that began at `begin`: others, each after a `;`. That statement is the last of
/// the statements passed in; the block of all replaces it.
#[inline(never)]
fn after_first<I: Iterator<Item = Lexeme>>(
    alloc: Global,
    cursor: &mut Cursor<I>,
    begin: Pos,
    around: &mut HeldStmts,
) -> Result<(), Refusal>
    requires begins { begin.byte ≤ cursor.old.end.byte }
    requires ready { Ready I.can_next I.remaining I.next_gives (at cursor.old) }
    ensures moves { MovesOn I.can_next I.remaining I.next_gives cursor.old result cursor.new }
    ensures parses { ParsesLineEnd I.next_gives begin.byte around.old around.new (at cursor.old) result (at cursor.new) }
{
    let mut statements = take_last(alloc, around)?;
    'line: while let Some(_semicolon) = cursor.take_if(Kind::Semicolon) {
        if !cursor.at_small() {
            let _newline = expect(cursor, Kind::Newline)?;
            let whole = joined(alloc, statements, begin, cursor.end)?;
            return Ok(around.push(whole)?);
        }
        small_statement(alloc, cursor, &mut statements)?;
    }
    let _newline = expect(cursor, Kind::Newline)?;
    let whole = joined(alloc, statements, begin, cursor.end)?;
    Ok(around.push(whole)?)
}

/// Removes the last of some statements and returns it alone.
fn take_last(alloc: Global, statements: &mut HeldStmts) -> Result<HeldStmts, AllocError>
    ensures { IfOk result (TakesLast statements.old statements.new) }
{
    let mut taken = HeldStmts::new(alloc);
    let Some(last) = statements.pop() else {
        return Ok(taken);
    };
    taken.push_tree(last)?;
    Ok(taken)
}
