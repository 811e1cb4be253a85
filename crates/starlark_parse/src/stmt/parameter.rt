//! The parameters of a `def`.
ghost use Rattle.std.specs.Prelude.{◌≡◌};
ghost use Rattle.starlark_lexer.specs.Tokens.{span_of};
ghost use Rattle.starlark_tree.specs.Views.{word};
ghost use Rattle.starlark_parse_held.specs.Held.{parameters_in};
ghost use Rattle.starlark_spec.specs.Grammar.ElementKind.{def_parameters};
ghost use Rattle.starlark_spec.specs.Grammar.Nonterminal.{DefParam};
ghost use Rattle.starlark_spec.specs.Trees.{tree};
ghost use Rattle.starlark_spec.specs.Machine.States.State.{after_def_param_star, def_param_kwargs_due};
ghost use Rattle.starlark_parse_cursor.specs.Reading.{at, Ready};
ghost use Rattle.starlark_parse_cursor.specs.Contract.{MayMove, MovesOn, Parses, ParsesFrom, ParsesOptionalList};
ghost use Rattle.starlark_parse.specs.Stmt.Statements.{IsParam, type_due};

use crate::expr::test::test;
use crate::stmt::annotation::annotation;
use starlark_lexer::kind::Kind;
use starlark_lexer::span::Span;
use starlark_lexer::token::Lexeme;
use starlark_parse_build::parameter::{
    slash_parameter, star_parameter, typed_args_parameter, typed_kwargs_parameter, typed_parameter,
};
use starlark_parse_cursor::cursor::Cursor;
use starlark_parse_cursor::token::take_name;
use starlark_parse_held::{HeldParameter, HeldParameters};
use starlark_spec::refusal::Refusal;
use starlark_tree::ast::AstString;
use std::alloc::Global;

/// Parameters with commas between them, and perhaps one after the last; there may be none.
pub fn parameters<I: Iterator<Item = Lexeme>>(
    alloc: Global,
    cursor: &mut Cursor<I>,
) -> Result<HeldParameters, Refusal>
    requires ready { Ready I.can_next I.remaining I.next_gives (at cursor.old) }
    ensures moves { MayMove I.can_next I.remaining I.next_gives cursor.old result cursor.new }
    ensures parses { ParsesOptionalList I.next_gives def_parameters (λ v c d. parameters_in v ≡ tree d) (at cursor.old) result (at cursor.new) }
{
    let mut parameters = HeldParameters::new(alloc);
    'listing: while cursor.at_parameter() {
        let parameter = parameter(alloc, cursor)?;
        parameters.push(parameter)?;
        let Some(_comma) = cursor.take_if(Kind::Comma) else {
            return Ok(parameters);
        };
    }
    Ok(parameters)
}

/// A parameter: `/`, `*`, `*name`, `**name`, or a name, perhaps with a default value. A name may have a type.
fn parameter<I: Iterator<Item = Lexeme>>(
    alloc: Global,
    cursor: &mut Cursor<I>,
) -> Result<HeldParameter, Refusal>
    requires ready { Ready I.can_next I.remaining I.next_gives (at cursor.old) }
    ensures moves { MovesOn I.can_next I.remaining I.next_gives cursor.old result cursor.new }
    ensures parses { Parses I.next_gives DefParam IsParam (at cursor.old) result (at cursor.new) }
{
    if let Some(span) = cursor.take_if(Kind::Slash) {
        return Ok(slash_parameter(span));
    }
    if let Some(star) = cursor.take_if(Kind::Star) {
        return after_star(alloc, cursor, star);
    }
    if let Some(stars) = cursor.take_if(Kind::StarStar) {
        return after_stars(alloc, cursor, stars);
    }
    let name = take_name(cursor)?;
    after_name(alloc, cursor, name)
}

/// What follows the `*` of a parameter: a name, or nothing.
fn after_star<I: Iterator<Item = Lexeme>>(
    alloc: Global,
    cursor: &mut Cursor<I>,
    star: Span,
) -> Result<HeldParameter, Refusal>
    requires star { cursor.old.end ≡ star.end }
    requires ready { Ready I.can_next I.remaining I.next_gives (at cursor.old) }
    ensures moves { MayMove I.can_next I.remaining I.next_gives cursor.old result cursor.new }
    ensures parses { ParsesFrom I.next_gives (λ p. after_def_param_star (span_of star) p) star.begin.byte IsParam (at cursor.old) result (at cursor.new) }
{
    if !cursor.at(Kind::Identifier) {
        return Ok(star_parameter(star));
    }
    let name = take_name(cursor)?;
    let annotation = annotation(alloc, cursor)?;
    Ok(typed_args_parameter(name, annotation, star.begin(), cursor.end))
}

/// What follows the `**` of a parameter: a name.
fn after_stars<I: Iterator<Item = Lexeme>>(
    alloc: Global,
    cursor: &mut Cursor<I>,
    stars: Span,
) -> Result<HeldParameter, Refusal>
    requires stars { cursor.old.end ≡ stars.end }
    requires ready { Ready I.can_next I.remaining I.next_gives (at cursor.old) }
    ensures moves { MovesOn I.can_next I.remaining I.next_gives cursor.old result cursor.new }
    ensures parses { ParsesFrom I.next_gives (λ p. def_param_kwargs_due (span_of stars) p) stars.begin.byte IsParam (at cursor.old) result (at cursor.new) }
{
    let name = take_name(cursor)?;
    let annotation = annotation(alloc, cursor)?;
    Ok(typed_kwargs_parameter(name, annotation, stars.begin(), cursor.end))
}

/// What follows the name of a parameter: perhaps a type, and perhaps `=` and a default value.
fn after_name<I: Iterator<Item = Lexeme>>(
    alloc: Global,
    cursor: &mut Cursor<I>,
    name: AstString,
) -> Result<HeldParameter, Refusal>
    requires name { cursor.old.end ≡ name.span.end }
    requires ready { Ready I.can_next I.remaining I.next_gives (at cursor.old) }
    ensures moves { MayMove I.can_next I.remaining I.next_gives cursor.old result cursor.new }
    ensures parses { ParsesFrom I.next_gives (type_due (word name)) name.span.begin.byte IsParam (at cursor.old) result (at cursor.new) }
{
    let begin = name.span.begin();
    let annotation = annotation(alloc, cursor)?;
    let Some(_equal) = cursor.take_if(Kind::Equal) else {
        return Ok(typed_parameter(name, annotation, None, begin, cursor.end));
    };
    let value = test(alloc, cursor)?;
    Ok(typed_parameter(name, annotation, Some(value), begin, cursor.end))
}
