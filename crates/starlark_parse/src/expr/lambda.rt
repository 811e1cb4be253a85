//! Parameters of lambdas.
ghost use Rattle.std.specs.Prelude.{◌≡◌, ◌≤◌, OnOk};
ghost use Rattle.starlark_lexer.specs.Tokens.{span_of};
ghost use Rattle.starlark_tree.specs.Views.{word};
ghost use Rattle.starlark_spec.specs.Grammar.Nonterminal.{LambdaParam};
ghost use Rattle.starlark_spec.specs.Machine.States.State.{after_star as past_star, kwargs_due};
ghost use Rattle.starlark_parse_cursor.specs.Reading.{at, begin_at, Ready};
ghost use Rattle.starlark_parse_cursor.specs.Contract.{MayMove, MovesOn, Parses, ParsesFrom};
ghost use Rattle.starlark_parse.specs.Expr.Expressions.{IsParameter};
ghost use Rattle.starlark_parse.specs.Expr.Contract.{ParsesParameters, past_name};
ghost use Rattle.starlark_parse.specs.Expr.NestedParsers.{NestsBelow};

use crate::expr::rules::{Level, Rules};
use starlark_lexer::kind::Kind;
use starlark_lexer::span::Span;
use starlark_lexer::token::Lexeme;
use starlark_parse_build::parameter::{
    args_parameter, default_parameter, kwargs_parameter, normal_parameter, slash_parameter,
    star_parameter,
};
use starlark_parse_cursor::cursor::Cursor;
use starlark_parse_cursor::token::take_name;
use starlark_parse_held::{HeldExpr, HeldParameter, HeldParameters};
use starlark_spec::refusal::Refusal;
use starlark_tree::ast::AstString;
use std::alloc::Global;

/// What follows the `*` of a parameter: its name, or nothing.
fn after_star<I: Iterator<Item = Lexeme>>(
    cursor: &mut Cursor<I>,
    star: Span,
) -> Result<HeldParameter, Refusal>
    requires star { cursor.old.end ≡ star.end }
    requires ready { Ready I.can_next I.remaining I.next_gives (at cursor.old) }
    ensures moves { MayMove I.can_next I.remaining I.next_gives cursor.old result cursor.new }
    ensures parses { ParsesFrom I.next_gives (λ p. past_star (span_of star) p) star.begin.byte IsParameter (at cursor.old) result (at cursor.new) }
{
    if !cursor.at(Kind::Identifier) {
        return Ok(star_parameter(star));
    }
    let name = take_name(cursor)?;
    Ok(args_parameter(name, star.begin(), cursor.end))
}

/// What follows the `**` of a parameter: its name.
fn after_stars<I: Iterator<Item = Lexeme>>(
    cursor: &mut Cursor<I>,
    stars: Span,
) -> Result<HeldParameter, Refusal>
    requires stars { cursor.old.end ≡ stars.end }
    requires ready { Ready I.can_next I.remaining I.next_gives (at cursor.old) }
    ensures moves { MayMove I.can_next I.remaining I.next_gives cursor.old result cursor.new }
    ensures parses { ParsesFrom I.next_gives (λ p. kwargs_due (span_of stars) p) stars.begin.byte IsParameter (at cursor.old) result (at cursor.new) }
{
    let name = take_name(cursor)?;
    Ok(kwargs_parameter(name, stars.begin(), cursor.end))
}

impl<
    I: Iterator<Item = Lexeme>,
    F: Fn(Global, &mut Cursor<'_, I>, Level) -> Result<HeldExpr, Refusal>,
> Rules<I, F> {
    /// Parameters of a lambda with commas between them, and perhaps one after the last; there may be none.
    pub fn parameters(&self, cursor: &mut Cursor<I>) -> Result<HeldParameters, Refusal>
        requires ready { Ready I.can_next I.remaining I.next_gives (at cursor.old) }
        requires nests { NestsBelow I.can_next I.remaining I.next_gives (at cursor.old) (F.pre self.now.expression) (F.post self.now.expression) }
        ensures moves { MayMove I.can_next I.remaining I.next_gives cursor.old result cursor.new }
        ensures onward { OnOk result (begin_at (at cursor.old) ≤ begin_at (at cursor.new)) }
        ensures parses { ParsesParameters I.next_gives (at cursor.old) result (at cursor.new) }
    {
        let mut parameters = HeldParameters::new(self.alloc);
        'listing: while cursor.at_parameter() {
            let parameter = self.parameter(cursor)?;
            parameters.push(parameter)?;
            let Some(_comma) = cursor.take_if(Kind::Comma) else {
                return Ok(parameters);
            };
        }
        Ok(parameters)
    }

    /// A parameter of a lambda: `/`, `*`, `*name`, `**name`, or a name, perhaps with a default value.
    fn parameter(&self, cursor: &mut Cursor<I>) -> Result<HeldParameter, Refusal>
        requires ready { Ready I.can_next I.remaining I.next_gives (at cursor.old) }
        requires nests { NestsBelow I.can_next I.remaining I.next_gives (at cursor.old) (F.pre self.now.expression) (F.post self.now.expression) }
        ensures moves { MovesOn I.can_next I.remaining I.next_gives cursor.old result cursor.new }
        ensures parses { Parses I.next_gives LambdaParam IsParameter (at cursor.old) result (at cursor.new) }
    {
        if let Some(span) = cursor.take_if(Kind::Slash) {
            return Ok(slash_parameter(span));
        }
        if let Some(star) = cursor.take_if(Kind::Star) {
            return after_star(cursor, star);
        }
        if let Some(stars) = cursor.take_if(Kind::StarStar) {
            return after_stars(cursor, stars);
        }
        let name = take_name(cursor)?;
        self.after_name(cursor, name)
    }

    /// What follows the name of a parameter: perhaps `=` and a default value.
    fn after_name(&self, cursor: &mut Cursor<I>, name: AstString) -> Result<HeldParameter, Refusal>
        requires name { cursor.old.end ≡ name.span.end }
        requires ready { Ready I.can_next I.remaining I.next_gives (at cursor.old) }
        requires nests { NestsBelow I.can_next I.remaining I.next_gives (at cursor.old) (F.pre self.now.expression) (F.post self.now.expression) }
        ensures moves { MayMove I.can_next I.remaining I.next_gives cursor.old result cursor.new }
        ensures parses { ParsesFrom I.next_gives (past_name (word name)) name.span.begin.byte IsParameter (at cursor.old) result (at cursor.new) }
    {
        let begin = name.span.begin();
        let Some(_equal) = cursor.take_if(Kind::Equal) else {
            return Ok(normal_parameter(name, begin, cursor.end));
        };
        let value = self.test(cursor)?;
        Ok(default_parameter(name, value, begin, cursor.end))
    }
}
