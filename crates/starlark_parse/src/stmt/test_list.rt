//! Lists of expressions without delimiters around them.
ghost use Rattle.std.specs.Prelude.{◌≤◌, IfOk};
ghost use Rattle.starlark_spec.specs.Grammar.Nonterminal.{TestList as TestListN};
ghost use Rattle.starlark_parse_cursor.specs.Reading.{at, begin_at, Ready};
ghost use Rattle.starlark_parse_cursor.specs.Contract.{MayMove, MovesOn, Parses};
ghost use Rattle.starlark_parse.specs.Stmt.Lines.{IsTestList, ParsesListAfterAtom, ParsesListEnd};

use crate::expr::test::{test, test_after};
use starlark_lexer::kind::Kind;
use starlark_lexer::span::{Pos, Span};
use starlark_lexer::token::Lexeme;
use starlark_parse_build::expression::tuple;
use starlark_parse_cursor::cursor::Cursor;
use starlark_parse_held::{HeldExpr, HeldExprs};
use starlark_spec::error::GrammarError;
use starlark_spec::refusal::Refusal;
use std::alloc::Global;

/// Expressions with commas between them, without delimiters around them.
#[derive(Drop)]
pub struct TestList {
    /// The one expression, or the tuple of all of them.
    pub expression: HeldExpr,
    /// Whether there is more than one.
    pub several: bool,
}

/// Expressions with commas between them. A comma after the last breaks a rule.
pub fn test_list<I: Iterator<Item = Lexeme>>(
    alloc: Global,
    cursor: &mut Cursor<I>,
) -> Result<TestList, Refusal>
    requires ready { Ready I.can_next I.remaining I.next_gives (at cursor.old) }
    ensures moves { MovesOn I.can_next I.remaining I.next_gives cursor.old result cursor.new }
    ensures parses { Parses I.next_gives TestListN IsTestList (at cursor.old) result (at cursor.new) }
{
    let begin = cursor.begin();
    let first = test(alloc, cursor)?;
    after_first(alloc, cursor, first, begin)
}

/// The same after an atom of one token that began at `begin` was read: the first expression begins with it.
pub fn test_list_after<I: Iterator<Item = Lexeme>>(
    alloc: Global,
    cursor: &mut Cursor<I>,
    atom: HeldExpr,
    begin: Pos,
) -> Result<TestList, Refusal>
    requires ends { atom.tree.value.span.end.byte ≤ cursor.old.end.byte }
    requires begins { begin.byte ≤ cursor.old.end.byte }
    requires ready { Ready I.can_next I.remaining I.next_gives (at cursor.old) }
    ensures moves { MayMove I.can_next I.remaining I.next_gives cursor.old result cursor.new }
    ensures parses { ParsesListAfterAtom I.next_gives atom begin.byte (at cursor.old) result (at cursor.new) }
{
    let first = test_after(alloc, cursor, atom)?;
    after_first(alloc, cursor, first, begin)
}

/// What follows the first expression of a list that began at `begin`: others, each after a comma.
fn after_first<I: Iterator<Item = Lexeme>>(
    alloc: Global,
    cursor: &mut Cursor<I>,
    first: HeldExpr,
    begin: Pos,
) -> Result<TestList, Refusal>
    requires begins { begin.byte ≤ cursor.old.end.byte }
    requires ready { Ready I.can_next I.remaining I.next_gives (at cursor.old) }
    ensures moves { MayMove I.can_next I.remaining I.next_gives cursor.old result cursor.new }
    ensures parses { ParsesListEnd I.next_gives first begin.byte (at cursor.old) result (at cursor.new) }
{
    let Some(_comma) = cursor.take_if(Kind::Comma) else {
        return Ok(TestList {
            expression: first,
            several: false,
        });
    };
    let mut elements = HeldExprs::new(alloc);
    elements.push(first)?;
    'listing: while cursor.at_test() {
        let element = test(alloc, cursor)?;
        elements.push(element)?;
        let Some(_next) = cursor.take_if(Kind::Comma) else {
            return Ok(TestList {
                expression: tuple(alloc, elements, begin, cursor.end)?,
                several: true,
            });
        };
    }
    let span = Span::new(begin, cursor.end);
    let rule = GrammarError::UnparenthesizedTupleTrailingComma;
    Err(cursor.broken(rule, span))
}
