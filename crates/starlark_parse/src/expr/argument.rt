//! Arguments of calls.
ghost use Rattle.std.specs.Prelude.{◌≡◌, ◌≤◌, true, IfOk, IfSome};
ghost use Rattle.starlark_lexer.specs.Tokens.{Span as Place, span_of};
ghost use Rattle.starlark_lexer.specs.declared.kind.Kind.TheVariants as kinds;
ghost use Rattle.starlark_lexer.specs.Kinds.{is};
ghost use Rattle.starlark_spec.specs.Machine.Sight.{look_at};
ghost use Rattle.starlark_spec.specs.Machine.Firsts.{is_leaf};
ghost use Rattle.starlark_parse_held.specs.Held.{arguments_in, expression_of};
ghost use Rattle.starlark_parse_cursor.specs.Reading.{at, begin_at, Ready};
ghost use Rattle.starlark_parse_cursor.specs.Contract.{MayMove, MovesOn};
ghost use Rattle.starlark_parse.specs.Expr.Expressions.{Lies};
ghost use Rattle.starlark_parse.specs.Expr.Contract.{ParsesArguments, ParsesArgument, ParsesStarred, ParsesNamed, at_star, at_stars};
ghost use Rattle.starlark_parse.specs.Expr.Contract.{AddsPositional, LiesName, TakesLeaf, TakesNamed, TakesValue, named_by};
ghost use Rattle.starlark_parse.specs.Expr.NestedParsers.{NestsBelow, NestsInside};

use crate::expr::atom::{leaf_of, leaf_tree};
use crate::expr::rules::{Level, Rules};
use starlark_lexer::kind::Kind;
use starlark_lexer::span::{Pos, Span};
use starlark_lexer::token::Lexeme;
use starlark_parse_build::expression::{identifier, identifier_tree, name_in};
use starlark_parse_cursor::cursor::Cursor;
use starlark_parse_cursor::token::{expect, take_name};
use starlark_parse_held::{HeldArguments, HeldExpr};
use starlark_spec::refusal::Refusal;
use starlark_tree::ast::AstString;
use std::alloc::Global;

/// What a name at the beginning of an argument is.
#[derive(Drop)]
pub enum NameRead {
    /// The argument, which is added.
    Added,
    /// The argument's name: `=` comes next.
    Name(AstString),
    /// An atom, which the next token continues.
    Atom(HeldExpr),
}

/// Consumes the name that an argument begins with.
#[inline(never)]
fn name_argument<I: Iterator<Item = Lexeme>>(
    alloc: Global,
    cursor: &mut Cursor<I>,
    arguments: &mut HeldArguments,
) -> Result<NameRead, Refusal>
    requires name { is (look_at (at cursor.old).sight).kind kinds.Identifier ≡ true }
    requires ready { Ready I.can_next I.remaining I.next_gives (at cursor.old) }
    ensures moves { MovesOn I.can_next I.remaining I.next_gives cursor.old result cursor.new }
    ensures parses { TakesNamed I.next_gives arguments.old arguments.new (at cursor.old) result (at cursor.new) }
    ensures inside { IfOk result (LiesName (begin_at (at cursor.old)) cursor.new.end.byte) }
{
    let name = take_name(cursor)?;
    if cursor.at(Kind::Equal) {
        return Ok(NameRead::Name(name));
    }
    if cursor.at_expression_end() {
        let span = name.span;
        arguments.push_positional_tree(identifier_tree(name), span.begin(), span.end())?;
        return Ok(NameRead::Added);
    }
    Ok(NameRead::Atom(identifier(alloc, name)?))
}

/// Consumes an atom of one token that an argument begins with: adds it if nothing continues it, otherwise returns it.
#[inline(never)]
fn leaf_argument<I: Iterator<Item = Lexeme>>(
    alloc: Global,
    cursor: &mut Cursor<I>,
    arguments: &mut HeldArguments,
) -> Result<Option<HeldExpr>, Refusal>
    requires leaf { is_leaf (look_at (at cursor.old).sight).kind ≡ true }
    requires ready { Ready I.can_next I.remaining I.next_gives (at cursor.old) }
    ensures moves { MovesOn I.can_next I.remaining I.next_gives cursor.old result cursor.new }
    ensures parses { TakesLeaf I.next_gives (AddsPositional (begin_at (at cursor.old)) cursor.new.end.byte arguments.old arguments.new)
        (arguments_in arguments.new ≡ arguments_in arguments.old) (at cursor.old) result (at cursor.new) }
    ensures inside { IfOk result (λ o. IfSome o (Lies (begin_at (at cursor.old)) cursor.new.end.byte)) }
{
    let Some((token, span)) = cursor.take() else {
        return Err(cursor.refusal());
    };
    if cursor.at_expression_end() {
        let value = leaf_tree(token, span)?;
        arguments.push_positional_tree(value, span.begin(), span.end())?;
        return Ok(None);
    }
    Ok(Some(leaf_of(alloc, token, span)?))
}

/// Consumes an atom of one token that the value of a named argument begins with: adds it if nothing continues it, otherwise
/// returns it with the name.
#[inline(never)]
fn leaf_named<I: Iterator<Item = Lexeme>>(
    alloc: Global,
    cursor: &mut Cursor<I>,
    arguments: &mut HeldArguments,
    name: AstString,
    begin: Pos,
) -> Result<Option<(AstString, HeldExpr)>, Refusal>
    requires leaf { is_leaf (look_at (at cursor.old).sight).kind ≡ true }
    requires begins { begin.byte ≤ cursor.old.end.byte }
    requires ready { Ready I.can_next I.remaining I.next_gives (at cursor.old) }
    ensures moves { MovesOn I.can_next I.remaining I.next_gives cursor.old result cursor.new }
    ensures parses { TakesValue I.next_gives name begin.byte arguments.old arguments.new (at cursor.old) result (at cursor.new) }
    ensures inside { IfOk result (λ o. IfSome o (λ x. Lies (begin_at (at cursor.old)) cursor.new.end.byte x.1)) }
{
    let Some((token, span)) = cursor.take() else {
        return Err(cursor.refusal());
    };
    if cursor.at_expression_end() {
        let value = leaf_tree(token, span)?;
        arguments.push_named_tree(name, value, begin, span.end())?;
        return Ok(None);
    }
    let atom = leaf_of(alloc, token, span)?;
    Ok(Some((name, atom)))
}

impl<
    I: Iterator<Item = Lexeme>,
    F: Fn(Global, &mut Cursor<'_, I>, Level) -> Result<HeldExpr, Refusal>,
> Rules<I, F> {
    /// Adds arguments with commas between them, and perhaps one after the last; there may be none.
    #[inline(never)]
    pub(crate) fn arguments(
        &self,
        cursor: &mut Cursor<I>,
        arguments: &mut HeldArguments,
    ) -> Result<(), Refusal>
        requires ready { Ready I.can_next I.remaining I.next_gives (at cursor.old) }
        requires nests { NestsInside I.can_next I.remaining I.next_gives (at cursor.old) (F.pre self.now.expression) (F.post self.now.expression) }
        ensures moves { MayMove I.can_next I.remaining I.next_gives cursor.old result cursor.new }
        ensures parses { ParsesArguments I.next_gives arguments.old arguments.new (at cursor.old) result (at cursor.new) }
    {
        'listing: while cursor.at_argument() {
            self.argument(cursor, arguments)?;
            let Some(_comma) = cursor.take_if(Kind::Comma) else {
                return Ok(());
            };
        }
        Ok(())
    }

    /// Adds an argument (Starlark specification, "Function and method calls").
    fn argument(&self, cursor: &mut Cursor<I>, arguments: &mut HeldArguments) -> Result<(), Refusal>
        requires ready { Ready I.can_next I.remaining I.next_gives (at cursor.old) }
        requires nests { NestsInside I.can_next I.remaining I.next_gives (at cursor.old) (F.pre self.now.expression) (F.post self.now.expression) }
        ensures moves { MovesOn I.can_next I.remaining I.next_gives cursor.old result cursor.new }
        ensures parses { ParsesArgument I.next_gives arguments.old arguments.new (at cursor.old) result (at cursor.new) }
    {
        if cursor.at(Kind::Identifier) {
            return self.argument_of_name(cursor, arguments);
        }
        if let Some(star) = cursor.take_if(Kind::Star) {
            return self.args(cursor, arguments, star);
        }
        if let Some(stars) = cursor.take_if(Kind::StarStar) {
            return self.kwargs(cursor, arguments, stars);
        }
        let begin = cursor.begin();
        if !cursor.at_leaf() {
            let value = self.test(cursor)?;
            return Ok(arguments.push_positional(value, begin, cursor.end)?);
        }
        match leaf_argument(self.alloc, cursor, arguments)? {
            None => Ok(()),
            Some(atom) => {
                let value = self.test_after(cursor, atom)?;
                Ok(arguments.push_positional(value, begin, cursor.end)?)
            }
        }
    }

    /// Adds an argument that begins with a name. The name is that of the argument if `=` follows it.
    fn argument_of_name(
        &self,
        cursor: &mut Cursor<I>,
        arguments: &mut HeldArguments,
    ) -> Result<(), Refusal>
        requires name { is (look_at (at cursor.old).sight).kind kinds.Identifier ≡ true }
        requires ready { Ready I.can_next I.remaining I.next_gives (at cursor.old) }
        requires nests { NestsInside I.can_next I.remaining I.next_gives (at cursor.old) (F.pre self.now.expression) (F.post self.now.expression) }
        ensures moves { MovesOn I.can_next I.remaining I.next_gives cursor.old result cursor.new }
        ensures parses { ParsesArgument I.next_gives arguments.old arguments.new (at cursor.old) result (at cursor.new) }
    {
        let begin = cursor.begin();
        match name_argument(self.alloc, cursor, arguments)? {
            NameRead::Added => Ok(()),
            NameRead::Name(name) => self.value_of(cursor, arguments, name, begin),
            NameRead::Atom(atom) => {
                let value = self.test_after(cursor, atom)?;
                if cursor.at(Kind::Equal) {
                    return self.named(cursor, arguments, value, begin);
                }
                Ok(arguments.push_positional(value, begin, cursor.end)?)
            }
        }
    }

    /// Adds an argument from an expression that begins with a name and is followed by `=`: if it is only that name,
    /// the argument's value is what follows.
    #[inline(never)]
    fn named(
        &self,
        cursor: &mut Cursor<I>,
        arguments: &mut HeldArguments,
        first: HeldExpr,
        begin: Pos,
    ) -> Result<(), Refusal>
        requires equal { is (look_at (at cursor.old).sight).kind kinds.Equal ≡ true }
        requires begins { begin.byte ≤ cursor.old.end.byte }
        requires ready { Ready I.can_next I.remaining I.next_gives (at cursor.old) }
        requires nests { NestsBelow I.can_next I.remaining I.next_gives (at cursor.old) (F.pre self.now.expression) (F.post self.now.expression) }
        ensures moves { MayMove I.can_next I.remaining I.next_gives cursor.old result cursor.new }
        ensures parses { ParsesNamed I.next_gives begin.byte (expression_of first) arguments.old arguments.new (at cursor.old) result (at cursor.new) }
    {
        match name_in(first) {
            Ok(name) => self.value_of(cursor, arguments, name, begin),
            Err(value) => Ok(arguments.push_positional(value, begin, cursor.end)?),
        }
    }

    /// Adds the argument of a name that is followed by `=`.
    #[inline(never)]
    fn value_of(
        &self,
        cursor: &mut Cursor<I>,
        arguments: &mut HeldArguments,
        name: AstString,
        begin: Pos,
    ) -> Result<(), Refusal>
        requires equal { is (look_at (at cursor.old).sight).kind kinds.Equal ≡ true }
        requires begins { begin.byte ≤ cursor.old.end.byte }
        requires ready { Ready I.can_next I.remaining I.next_gives (at cursor.old) }
        requires nests { NestsBelow I.can_next I.remaining I.next_gives (at cursor.old) (F.pre self.now.expression) (F.post self.now.expression) }
        ensures moves { MayMove I.can_next I.remaining I.next_gives cursor.old result cursor.new }
        ensures parses { (span : Place) → ParsesNamed I.next_gives begin.byte (named_by span name) arguments.old arguments.new (at cursor.old) result
            (at cursor.new) }
    {
        expect(cursor, Kind::Equal)?;
        if !cursor.at_leaf() {
            let value = self.test(cursor)?;
            return Ok(arguments.push_named(name, value, begin, cursor.end)?);
        }
        match leaf_named(self.alloc, cursor, arguments, name, begin)? {
            None => Ok(()),
            Some((name, atom)) => {
                let value = self.test_after(cursor, atom)?;
                Ok(arguments.push_named(name, value, begin, cursor.end)?)
            }
        }
    }

    /// Adds the argument after `*`.
    #[inline(never)]
    fn args(
        &self,
        cursor: &mut Cursor<I>,
        arguments: &mut HeldArguments,
        star: Span,
    ) -> Result<(), Refusal>
        requires star { cursor.old.end ≡ star.end }
        requires ready { Ready I.can_next I.remaining I.next_gives (at cursor.old) }
        requires nests { NestsInside I.can_next I.remaining I.next_gives (at cursor.old) (F.pre self.now.expression) (F.post self.now.expression) }
        ensures moves { MovesOn I.can_next I.remaining I.next_gives cursor.old result cursor.new }
        ensures parses { ParsesStarred I.next_gives (at_star (span_of star)) star.begin.byte arguments.old arguments.new (at cursor.old) result
            (at cursor.new) }
    {
        let value = self.test(cursor)?;
        Ok(arguments.push_args(value, star.begin(), cursor.end)?)
    }

    /// Adds the argument after `**`.
    #[inline(never)]
    fn kwargs(
        &self,
        cursor: &mut Cursor<I>,
        arguments: &mut HeldArguments,
        stars: Span,
    ) -> Result<(), Refusal>
        requires stars { cursor.old.end ≡ stars.end }
        requires ready { Ready I.can_next I.remaining I.next_gives (at cursor.old) }
        requires nests { NestsInside I.can_next I.remaining I.next_gives (at cursor.old) (F.pre self.now.expression) (F.post self.now.expression) }
        ensures moves { MovesOn I.can_next I.remaining I.next_gives cursor.old result cursor.new }
        ensures parses { ParsesStarred I.next_gives (at_stars (span_of stars)) stars.begin.byte arguments.old arguments.new (at cursor.old) result
            (at cursor.new) }
    {
        let value = self.test(cursor)?;
        Ok(arguments.push_kwargs(value, stars.begin(), cursor.end)?)
    }
}
