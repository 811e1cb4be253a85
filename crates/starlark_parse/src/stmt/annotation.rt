//! Types beside names (Starlark specification, "Type annotations").
ghost use Rattle.starlark_spec.specs.Grammar.Nonterminal.{Note as NoteN, Annotation as AnnotationN};
ghost use Rattle.starlark_parse_cursor.specs.Reading.{at, Ready};
ghost use Rattle.starlark_parse_cursor.specs.Contract.{MayMove, MovesOn, Parses, ParsesPerhaps};
ghost use Rattle.starlark_parse.specs.Stmt.Lines.{IsNote, IsAnnotation};

use crate::expr::test::test;
use starlark_lexer::kind::Kind;
use starlark_lexer::token::Lexeme;
use starlark_parse_build::check::type_expr;
use starlark_parse_cursor::cursor::Cursor;
use starlark_parse_held::HeldType;
use starlark_spec::refusal::Refusal;
use std::alloc::Global;

/// A type: an expression that is read as one.
pub fn note<I: Iterator<Item = Lexeme>>(
    alloc: Global,
    cursor: &mut Cursor<I>,
) -> Result<HeldType, Refusal>
    requires ready { Ready I.can_next I.remaining I.next_gives (at cursor.old) }
    ensures moves { MovesOn I.can_next I.remaining I.next_gives cursor.old result cursor.new }
    ensures parses { Parses I.next_gives NoteN (IsNote (at cursor.old).types) (at cursor.old) result (at cursor.new) }
{
    let value = test(alloc, cursor)?;
    match type_expr::annotation(alloc, cursor.types, value) {
        Ok(annotation) => Ok(annotation),
        Err(error) => Err(cursor.unless_out_of_memory(error)),
    }
}

/// `:` and a type, or neither.
pub fn annotation<I: Iterator<Item = Lexeme>>(
    alloc: Global,
    cursor: &mut Cursor<I>,
) -> Result<Option<HeldType>, Refusal>
    requires ready { Ready I.can_next I.remaining I.next_gives (at cursor.old) }
    ensures moves { MayMove I.can_next I.remaining I.next_gives cursor.old result cursor.new }
    ensures parses { ParsesPerhaps I.next_gives AnnotationN IsAnnotation (at cursor.old) result (at cursor.new) }
{
    let Some(_colon) = cursor.take_if(Kind::Colon) else {
        return Ok(None);
    };
    let annotation = note(alloc, cursor)?;
    Ok(Some(annotation))
}
