//! Clauses of comprehensions, and loop variables.
ghost use Rattle.std.specs.Prelude.{◌≡◌, ◌≤◌, IfOk};
ghost use Rattle.starlark_spec.specs.Grammar.Nonterminal.{LoopVars, ForClause as ForClauseN, Clauses as ClausesN};
ghost use Rattle.starlark_spec.specs.Refusals.{refused};
ghost use Rattle.starlark_parse_cursor.specs.Reading.{at, begin_at, Ready};
ghost use Rattle.starlark_parse_cursor.specs.Contract.{MovesOn, Parses};
ghost use Rattle.starlark_parse.specs.Expr.Expressions.{IsLoopVars, IsForClause, IsClauses, Lies};
ghost use Rattle.starlark_parse.specs.Expr.Contract.{after_trailing_comma};
ghost use Rattle.starlark_parse.specs.Expr.NestedParsers.{NestsBelow, NestsInside};

use crate::expr::rules::{Level, Rules};
use starlark_lexer::kind::Kind;
use starlark_lexer::span::{Pos, Span};
use starlark_lexer::token::Lexeme;
use starlark_parse_build::check::target::for_clause;
use starlark_parse_build::expression::one_or_tuple;
use starlark_parse_cursor::cursor::Cursor;
use starlark_parse_cursor::token::expect;
use starlark_parse_held::{HeldClauses, HeldExpr, HeldExprs, HeldForClause};
use starlark_spec::error::GrammarError;
use starlark_spec::refusal::Refusal;
use std::alloc::Global;

impl<
    I: Iterator<Item = Lexeme>,
    F: Fn(Global, &mut Cursor<'_, I>, Level) -> Result<HeldExpr, Refusal>,
> Rules<I, F> {
    /// Clauses of a comprehension, of which the first is a `for` (Starlark specification, "Comprehensions").
    #[inline(never)]
    pub(crate) fn clauses(&self, cursor: &mut Cursor<I>) -> Result<HeldClauses, Refusal>
        requires ready { Ready I.can_next I.remaining I.next_gives (at cursor.old) }
        requires nests { NestsBelow I.can_next I.remaining I.next_gives (at cursor.old) (F.pre self.now.expression) (F.post self.now.expression) }
        ensures moves { MovesOn I.can_next I.remaining I.next_gives cursor.old result cursor.new }
        ensures parses { Parses I.next_gives ClausesN IsClauses (at cursor.old) result (at cursor.new) }
    {
        let first = self.for_clause(cursor)?;
        let mut clauses = HeldClauses::new(self.alloc, first)?;
        'clauses: loop {
            if cursor.at(Kind::For) {
                let clause = self.for_clause(cursor)?;
                clauses.push_for(clause)?;
                continue;
            }
            let Some(_if) = cursor.take_if(Kind::If) else {
                return Ok(clauses);
            };
            let condition = self.nested_or(cursor)?;
            clauses.push_if(condition)?;
        }
    }

    /// `for`, variables, `in`, and what they iterate over.
    #[inline(never)]
    fn for_clause(&self, cursor: &mut Cursor<I>) -> Result<HeldForClause, Refusal>
        requires ready { Ready I.can_next I.remaining I.next_gives (at cursor.old) }
        requires nests { NestsBelow I.can_next I.remaining I.next_gives (at cursor.old) (F.pre self.now.expression) (F.post self.now.expression) }
        ensures moves { MovesOn I.can_next I.remaining I.next_gives cursor.old result cursor.new }
        ensures parses { Parses I.next_gives ForClauseN IsForClause (at cursor.old) result (at cursor.new) }
    {
        let _for = expect(cursor, Kind::For)?;
        let variables = self.loop_variables(cursor)?;
        let _in = expect(cursor, Kind::In)?;
        let over = self.nested_or(cursor)?;
        match for_clause(self.alloc, variables, over) {
            Ok(clause) => Ok(clause),
            Err(error) => Err(cursor.unless_out_of_memory(error)),
        }
    }

    /// The variables of a `for`: operands with commas between them (Starlark specification, "For loops").
    #[inline(never)]
    pub fn loop_variables(&self, cursor: &mut Cursor<I>) -> Result<HeldExpr, Refusal>
        requires ready { Ready I.can_next I.remaining I.next_gives (at cursor.old) }
        requires nests { NestsInside I.can_next I.remaining I.next_gives (at cursor.old) (F.pre self.now.expression) (F.post self.now.expression) }
        ensures moves { MovesOn I.can_next I.remaining I.next_gives cursor.old result cursor.new }
        ensures parses { Parses I.next_gives LoopVars IsLoopVars (at cursor.old) result (at cursor.new) }
        ensures inside { IfOk result (Lies (begin_at (at cursor.old)) cursor.new.end.byte) }
    {
        let begin = cursor.begin();
        let mut variables = HeldExprs::new(self.alloc);
        'listing: loop {
            let variable = self.nested_bit_or(cursor)?;
            variables.push(variable)?;
            let Some(_comma) = cursor.take_if(Kind::Comma) else {
                return Ok(one_or_tuple(self.alloc, variables, begin, cursor.end)?);
            };
            if !cursor.at_operand() {
                return Err(no_variable(cursor, begin));
            }
        }
    }
}

/// The error when no variable comes after a comma: at `not` that token, otherwise the trailing comma of an unparenthesized tuple.
fn no_variable<I: Iterator<Item = Lexeme>>(cursor: &Cursor<I>, begin: Pos) -> Refusal
    requires { begin.byte ≤ cursor.now.end.byte }
    ensures { refused result ≡ after_trailing_comma begin.byte (at cursor.now) }
{
    if cursor.at(Kind::Not) {
        return cursor.refusal();
    }
    let span = Span::new(begin, cursor.end);
    cursor.broken(GrammarError::UnparenthesizedTupleTrailingComma, span)
}
