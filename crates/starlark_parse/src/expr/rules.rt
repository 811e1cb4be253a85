//! The rules that contain expressions, over the parser of those.
ghost use Rattle.std.specs.Prelude.{◌≤◌, IfOk};
ghost use Rattle.starlark_spec.specs.Grammar.Nonterminal.{Test as TestN, LeftAssociative};
ghost use Rattle.starlark_spec.specs.Grammar.PrecedenceLevel.{or_precedence, bit_or_precedence};
ghost use Rattle.starlark_parse_cursor.specs.Reading.{at, begin_at, Ready};
ghost use Rattle.starlark_parse_cursor.specs.Contract.{MayMove, MovesOn, Parses};
ghost use Rattle.starlark_parse.specs.Expr.Expressions.{IsTest, IsOr, IsBitOr, Lies};
ghost use Rattle.starlark_parse.specs.Expr.Operating.{ParsesAfterAtom};
ghost use Rattle.starlark_parse.specs.Expr.NestedParsers.{NestsInside};

use starlark_lexer::token::Lexeme;
use starlark_parse_cursor::cursor::Cursor;
use starlark_parse_held::HeldExpr;
use starlark_spec::refusal::Refusal;
use std::alloc::Global;
use std::marker::PhantomData;

/// What is read as an expression.
#[derive(Drop)]
pub enum Level {
    /// Any expression.
    Test,
    /// The expression that begins with an atom of one token, which was consumed.
    After(HeldExpr),
    /// Operands with operators between them: not a lambda, and not a conditional expression.
    Or,
    /// Operands with operators between them that bind more tightly than comparisons.
    BitOr,
}

/// The rules that contain expressions take the parser of those as a parameter, so that each is proved by itself.
#[derive(Drop)]
pub struct Rules<I, F> {
    pub alloc: Global,
    pub expression: F,
    pub items: PhantomData<I>,
}

impl<
    I: Iterator<Item = Lexeme>,
    F: Fn(Global, &mut Cursor<'_, I>, Level) -> Result<HeldExpr, Refusal>,
> Rules<I, F> {
    /// An expression, as the parser of those reads it.
    pub fn test(&self, cursor: &mut Cursor<I>) -> Result<HeldExpr, Refusal>
        requires ready { Ready I.can_next I.remaining I.next_gives (at cursor.old) }
        requires nests { NestsInside I.can_next I.remaining I.next_gives (at cursor.old) (F.pre self.now.expression) (F.post self.now.expression) }
        ensures moves { MovesOn I.can_next I.remaining I.next_gives cursor.old result cursor.new }
        ensures parses { Parses I.next_gives TestN IsTest (at cursor.old) result (at cursor.new) }
        ensures inside { IfOk result (Lies (begin_at (at cursor.old)) cursor.new.end.byte) }
    {
        (self.expression)(self.alloc, cursor, Level::Test)
    }

    /// The expression that begins with an atom of one token, which was consumed, as the parser of expressions reads it.
    pub fn test_after(&self, cursor: &mut Cursor<I>, atom: HeldExpr) -> Result<HeldExpr, Refusal>
        requires ends { atom.tree.value.span.end.byte ≤ cursor.old.end.byte }
        requires ready { Ready I.can_next I.remaining I.next_gives (at cursor.old) }
        requires nests { NestsInside I.can_next I.remaining I.next_gives (at cursor.old) (F.pre self.now.expression) (F.post self.now.expression) }
        ensures moves { MayMove I.can_next I.remaining I.next_gives cursor.old result cursor.new }
        ensures parses { ParsesAfterAtom I.next_gives atom (at cursor.old) result (at cursor.new) }
        ensures inside { IfOk result (Lies atom.tree.value.span.begin.byte cursor.new.end.byte) }
    {
        (self.expression)(self.alloc, cursor, Level::After(atom))
    }

    /// Operands with operators between them, as the parser of expressions reads them.
    pub fn nested_or(&self, cursor: &mut Cursor<I>) -> Result<HeldExpr, Refusal>
        requires ready { Ready I.can_next I.remaining I.next_gives (at cursor.old) }
        requires nests { NestsInside I.can_next I.remaining I.next_gives (at cursor.old) (F.pre self.now.expression) (F.post self.now.expression) }
        ensures moves { MovesOn I.can_next I.remaining I.next_gives cursor.old result cursor.new }
        ensures parses { Parses I.next_gives (LeftAssociative or_precedence) IsOr (at cursor.old) result (at cursor.new) }
        ensures inside { IfOk result (Lies (begin_at (at cursor.old)) cursor.new.end.byte) }
    {
        (self.expression)(self.alloc, cursor, Level::Or)
    }

    /// Operands with operators between them that bind more tightly than comparisons, as the parser of expressions reads them.
    pub fn nested_bit_or(&self, cursor: &mut Cursor<I>) -> Result<HeldExpr, Refusal>
        requires ready { Ready I.can_next I.remaining I.next_gives (at cursor.old) }
        requires nests { NestsInside I.can_next I.remaining I.next_gives (at cursor.old) (F.pre self.now.expression) (F.post self.now.expression) }
        ensures moves { MovesOn I.can_next I.remaining I.next_gives cursor.old result cursor.new }
        ensures parses { Parses I.next_gives (LeftAssociative bit_or_precedence) IsBitOr (at cursor.old) result (at cursor.new) }
        ensures inside { IfOk result (Lies (begin_at (at cursor.old)) cursor.new.end.byte) }
    {
        (self.expression)(self.alloc, cursor, Level::BitOr)
    }
}
