//! The parser's public entry point.
ghost use Rattle.std.specs.Prelude.{◌≡◌};
ghost use Rattle.std.specs.Iterator.{IsFinite};
ghost use Rattle.starlark_parse_cursor.specs.Order.{ComesInOrder};
ghost use Rattle.starlark_parse_cursor.specs.Reading.{at, Ready};
ghost use Rattle.starlark_parse.specs.Stmt.Runs.{AnswersFrom, answer_of};
ghost use Rattle.starlark_parse.specs.Stmt.Modules.{ParsesModule, answered};

use crate::stmt::compound::statement;
use starlark_lexer::dialect::DialectTypes;
use starlark_lexer::kind::Kind;
use starlark_lexer::span::Pos;
use starlark_lexer::token::Lexeme;
use starlark_parse_build::statement::joined;
use starlark_parse_cursor::cursor::{Cursor, Look};
use starlark_parse_held::{HeldStmt, HeldStmts};
use starlark_spec::refusal::Refusal;
use starlark_tree::ast::AstStmt;
use std::alloc::Global;

/// Parses lexemes as a module, ignoring comments, with types as the dialect treats them, and returns its statement.
///
/// It has the spans of the tokens, in byte offsets. One statement is returned as it is; several, or none, become a block from
/// the first one's first token to the last token's end. Each lexeme is requested once, and so is the end; after an error, the end or
/// the token that the error names, nothing is requested, and what was not consumed is left in the iterator.
///
/// Fails with the lexer's error, at the first token that cannot continue any program, at the end of an incomplete program, with a
/// rule that what was read breaks, and if memory runs out (Starlark specification, "Grammar reference").
pub fn parse_module<I: Iterator<Item = Lexeme>>(
    alloc: Global,
    types: DialectTypes,
    lexemes: &mut I,
) -> Result<AstStmt, Refusal>
    requires can { I.can_next lexemes.old }
    requires ends { IsFinite (I.remaining lexemes.old) }
    requires ordered { ComesInOrder I.next_gives lexemes.old 0 }
    ensures { AnswersFrom I.next_gives types lexemes.old (answer_of result) lexemes.new }
{
    handed_out(held_module(alloc, types, lexemes))
}

/// The statement itself, if there is one.
fn handed_out(statement: Result<HeldStmt, Refusal>) -> Result<AstStmt, Refusal>
    ensures { answer_of result ≡ answered statement }
{
    match statement {
        Ok(statement) => Ok(statement.into_tree()),
        Err(refusal) => Err(refusal),
    }
}

/// The same, as a held statement.
fn held_module<I: Iterator<Item = Lexeme>>(
    alloc: Global,
    types: DialectTypes,
    lexemes: &mut I,
) -> Result<HeldStmt, Refusal>
    requires can { I.can_next lexemes.old }
    requires ends { IsFinite (I.remaining lexemes.old) }
    requires ordered { ComesInOrder I.next_gives lexemes.old 0 }
    ensures { AnswersFrom I.next_gives types lexemes.old (answered result) lexemes.new }
{
    let begin = Pos::new(0);
    let mut cursor = Cursor {
        lexemes,
        look: Look::End,
        end: begin,
        types,
    };
    cursor.advance(begin);
    let statement = module(alloc, &mut cursor);
    let Cursor {
        lexemes,
        look: _look,
        end: _end,
        types: _types,
    } = cursor;
    end_borrow(lexemes);
    statement
}

/// Ends a borrow, so that the caller knows the iterator's final state.
pub fn end_borrow<I: Iterator>(lexemes: &mut I)
    ensures { lexemes.new ≡ lexemes.old }
{
    let _lexemes = lexemes;
}

/// Statements up to the end, and the ends of empty lines between them.
fn module<I: Iterator<Item = Lexeme>>(
    alloc: Global,
    cursor: &mut Cursor<I>,
) -> Result<HeldStmt, Refusal>
    requires ready { Ready I.can_next I.remaining I.next_gives (at cursor.old) }
    requires fresh { cursor.old.end.byte ≡ 0 }
    ensures same_reference { cursor.new.lexemes.ghost_name ≡ cursor.old.lexemes.ghost_name }
    ensures parses { ParsesModule I.next_gives (at cursor.old) result (at cursor.new) }
{
    let mut statements = HeldStmts::new(alloc);
    let mut begin = None;
    'reading: while !cursor.at(Kind::End) {
        if let Some(_newline) = cursor.take_if(Kind::Newline) {
            continue;
        }
        let here = cursor.begin();
        statement(alloc, cursor, &mut statements)?;
        begin = Some(begin.unwrap_or(here));
    }
    Ok(joined(alloc, statements, begin.unwrap_or(cursor.end), cursor.end)?)
}
