//! Lists of expressions and of entries inside delimiters.
ghost use Rattle.std.specs.Prelude.{◌≡◌, ℕ, ◌≤◌, true, [], ◌∷◌, IfOk, IfSome, OnOk, MatchResult};
ghost use Rattle.starlark_lexer.specs.declared.kind.Kind.TheVariants as kinds;
ghost use Rattle.starlark_lexer.specs.Kinds.{is};
ghost use Rattle.starlark_tree.specs.Ast.{Expression, no_payload};
ghost use Rattle.starlark_parse_held.specs.Held.{expression_of, expressions_in, entries_in};
ghost use Rattle.starlark_spec.specs.Grammar.Nonterminal.{Entry as EntryN, Test as TestN};
ghost use Rattle.starlark_spec.specs.Trees.{tree};
ghost use Rattle.starlark_spec.specs.Machine.Sight.{look_at};
ghost use Rattle.starlark_spec.specs.Machine.Firsts.{is_leaf};
ghost use Rattle.starlark_spec.specs.declared.refusal.Refusal.TheVariants.{Memory};
ghost use Rattle.starlark_parse_cursor.specs.Reading.{at, begin_at, Ready};
ghost use Rattle.starlark_parse_cursor.specs.Contract.{MayMove, MovesOn, Parses};
ghost use Rattle.starlark_parse.specs.Expr.Expressions.{IsEntry, Lies, LiesListed, elements_in, listed_entries};
ghost use Rattle.starlark_parse.specs.Expr.Contract.{ParsesTests, ParsesMoreTests, ParsesEntries, TakesLeaf, AddsElement, AddsBeforeComma, KeepsNoComma};
ghost use Rattle.starlark_parse.specs.Expr.NestedParsers.{NestsInside};

use crate::expr::atom::{leaf_of, leaf_tree};
use crate::expr::rules::{Level, Rules};
use starlark_lexer::kind::Kind;
use starlark_lexer::token::Lexeme;
use starlark_parse_cursor::cursor::Cursor;
use starlark_parse_cursor::token::expect;
use starlark_parse_held::{HeldEntries, HeldExpr, HeldExprs};
use starlark_spec::refusal::Refusal;
use std::alloc::Global;

/// Expressions: none, one without a comma, or a list of them.
#[derive(Drop)]
pub enum Listed {
    Nothing,
    One(HeldExpr),
    Many(HeldExprs),
}

/// Entries of a dictionary: one without a comma, or a list of them, which may be empty.
#[derive(Drop)]
pub enum ListedEntries {
    One(HeldExpr, HeldExpr),
    Many(HeldEntries),
}

/// The expressions.
pub(crate) fn elements_of(alloc: Global, listed: Listed) -> Result<HeldExprs, Refusal>
    ensures { MatchResult result (λ es. expressions_in es ≡ elements_in listed) (λ e. e ≡ Memory) }
{
    match listed {
        Listed::Nothing => Ok(HeldExprs::new(alloc)),
        Listed::One(element) => { Ok(HeldExprs::of_one(alloc, element)?) }
        Listed::Many(elements) => Ok(elements),
    }
}

/// The entries.
pub(crate) fn entries_of(alloc: Global, listed: ListedEntries) -> Result<HeldEntries, Refusal>
    ensures { MatchResult result (λ es. entries_in es ≡ listed_entries listed) (λ e. e ≡ Memory) }
{
    match listed {
        ListedEntries::One(key, value) => {
            let mut entries = HeldEntries::new(alloc);
            entries.push(key, value)?;
            Ok(entries)
        }
        ListedEntries::Many(entries) => Ok(entries),
    }
}

/// Consumes an atom of one token: adds it if nothing continues it, otherwise returns it.
#[inline(never)]
fn leaf_element<I: Iterator<Item = Lexeme>>(
    alloc: Global,
    cursor: &mut Cursor<I>,
    elements: &mut HeldExprs,
) -> Result<Option<HeldExpr>, Refusal>
    requires leaf { is_leaf (look_at (at cursor.old).sight).kind ≡ true }
    requires ready { Ready I.can_next I.remaining I.next_gives (at cursor.old) }
    ensures moves { MovesOn I.can_next I.remaining I.next_gives cursor.old result cursor.new }
    ensures parses { TakesLeaf I.next_gives (AddsElement elements.old elements.new) (expressions_in elements.new ≡ expressions_in elements.old)
        (at cursor.old) result (at cursor.new) }
    ensures inside { IfOk result (λ o. IfSome o (Lies (begin_at (at cursor.old)) cursor.new.end.byte)) }
{
    let Some((token, span)) = cursor.take() else {
        return Err(cursor.refusal());
    };
    if cursor.at_expression_end() {
        elements.push_tree(leaf_tree(token, span)?)?;
        return Ok(None);
    }
    Ok(Some(leaf_of(alloc, token, span)?))
}

/// Consumes an atom of one token: adds it if a comma comes next, otherwise returns it.
#[inline(never)]
fn leaf_before_comma<I: Iterator<Item = Lexeme>>(
    alloc: Global,
    cursor: &mut Cursor<I>,
    elements: &mut HeldExprs,
) -> Result<Option<HeldExpr>, Refusal>
    requires leaf { is_leaf (look_at (at cursor.old).sight).kind ≡ true }
    requires ready { Ready I.can_next I.remaining I.next_gives (at cursor.old) }
    ensures moves { MovesOn I.can_next I.remaining I.next_gives cursor.old result cursor.new }
    ensures parses { TakesLeaf I.next_gives (AddsBeforeComma elements.old elements.new (at cursor.new))
        (KeepsNoComma elements.old elements.new (at cursor.new)) (at cursor.old) result (at cursor.new) }
    ensures inside { IfOk result (λ o. IfSome o (Lies (begin_at (at cursor.old)) cursor.new.end.byte)) }
{
    let Some((token, span)) = cursor.take() else {
        return Err(cursor.refusal());
    };
    if cursor.at(Kind::Comma) {
        elements.push_tree(leaf_tree(token, span)?)?;
        return Ok(None);
    }
    Ok(Some(leaf_of(alloc, token, span)?))
}

impl<
    I: Iterator<Item = Lexeme>,
    F: Fn(Global, &mut Cursor<'_, I>, Level) -> Result<HeldExpr, Refusal>,
> Rules<I, F> {
    /// Expressions with commas between them, and perhaps one after the last; there may be none.
    pub fn tests(&self, cursor: &mut Cursor<I>) -> Result<Listed, Refusal>
        requires ready { Ready I.can_next I.remaining I.next_gives (at cursor.old) }
        requires nests { NestsInside I.can_next I.remaining I.next_gives (at cursor.old) (F.pre self.now.expression) (F.post self.now.expression) }
        ensures moves { MayMove I.can_next I.remaining I.next_gives cursor.old result cursor.new }
        ensures onward { OnOk result (begin_at (at cursor.old) ≤ begin_at (at cursor.new)) }
        ensures parses { ParsesTests I.next_gives (at cursor.old) result (at cursor.new) }
        ensures inside { IfOk result (LiesListed (begin_at (at cursor.old)) cursor.new.end.byte) }
    {
        if !cursor.at_test() {
            return Ok(Listed::Nothing);
        }
        if cursor.at_leaf() {
            return self.leaf_tests(cursor);
        }
        let first = self.test(cursor)?;
        if !cursor.at(Kind::Comma) {
            return Ok(Listed::One(first));
        }
        self.tests_after(cursor, first)
    }

    /// What follows the first expression, after which a comma comes.
    #[inline(never)]
    fn tests_after(&self, cursor: &mut Cursor<I>, first: HeldExpr) -> Result<Listed, Refusal>
        requires comma { is (look_at (at cursor.old).sight).kind kinds.Comma ≡ true }
        requires ready { Ready I.can_next I.remaining I.next_gives (at cursor.old) }
        requires nests { NestsInside I.can_next I.remaining I.next_gives (at cursor.old) (F.pre self.now.expression) (F.post self.now.expression) }
        ensures moves { MovesOn I.can_next I.remaining I.next_gives cursor.old result cursor.new }
        ensures parses { ParsesMoreTests I.next_gives (expression_of first) (at cursor.old) result (at cursor.new) }
        ensures inside { (begin : ℕ) → begin ≤ cursor.old.end.byte → IfOk result (LiesListed begin cursor.new.end.byte) }
    {
        let mut elements = HeldExprs::new(self.alloc);
        elements.push(first)?;
        self.more_tests(cursor, elements)
    }

    /// The same, if they begin with an atom of one token.
    #[inline(never)]
    fn leaf_tests(&self, cursor: &mut Cursor<I>) -> Result<Listed, Refusal>
        requires leaf { is_leaf (look_at (at cursor.old).sight).kind ≡ true }
        requires ready { Ready I.can_next I.remaining I.next_gives (at cursor.old) }
        requires nests { NestsInside I.can_next I.remaining I.next_gives (at cursor.old) (F.pre self.now.expression) (F.post self.now.expression) }
        ensures moves { MovesOn I.can_next I.remaining I.next_gives cursor.old result cursor.new }
        ensures parses { ParsesTests I.next_gives (at cursor.old) result (at cursor.new) }
        ensures inside { IfOk result (LiesListed (begin_at (at cursor.old)) cursor.new.end.byte) }
    {
        let mut elements = HeldExprs::new(self.alloc);
        let Some(atom) = leaf_before_comma(self.alloc, cursor, &mut elements)? else {
            return self.more_tests(cursor, elements);
        };
        if cursor.at_expression_end() {
            return Ok(Listed::One(atom));
        }
        let first = self.test_after(cursor, atom)?;
        if !cursor.at(Kind::Comma) {
            return Ok(Listed::One(first));
        }
        elements.push(first)?;
        self.more_tests(cursor, elements)
    }

    /// What follows the first expression, after which a comma comes.
    #[inline(never)]
    fn more_tests(&self, cursor: &mut Cursor<I>, first: HeldExprs) -> Result<Listed, Refusal>
        requires comma { is (look_at (at cursor.old).sight).kind kinds.Comma ≡ true }
        requires ready { Ready I.can_next I.remaining I.next_gives (at cursor.old) }
        requires nests { NestsInside I.can_next I.remaining I.next_gives (at cursor.old) (F.pre self.now.expression) (F.post self.now.expression) }
        ensures moves { MovesOn I.can_next I.remaining I.next_gives cursor.old result cursor.new }
        ensures parses { (e : Expression no_payload) → expressions_in first ≡ e ∷ [] → ParsesMoreTests I.next_gives e (at cursor.old) result (at cursor.new) }
        ensures inside { (begin : ℕ) → begin ≤ cursor.old.end.byte → IfOk result (LiesListed begin cursor.new.end.byte) }
    {
        let mut elements = first;
        expect(cursor, Kind::Comma)?;
        'listing: while cursor.at_test() {
            self.element(cursor, &mut elements)?;
            let Some(_next) = cursor.take_if(Kind::Comma) else {
                return Ok(Listed::Many(elements));
            };
        }
        Ok(Listed::Many(elements))
    }

    /// Adds an expression.
    fn element(&self, cursor: &mut Cursor<I>, elements: &mut HeldExprs) -> Result<(), Refusal>
        requires ready { Ready I.can_next I.remaining I.next_gives (at cursor.old) }
        requires nests { NestsInside I.can_next I.remaining I.next_gives (at cursor.old) (F.pre self.now.expression) (F.post self.now.expression) }
        ensures moves { MovesOn I.can_next I.remaining I.next_gives cursor.old result cursor.new }
        ensures parses { Parses I.next_gives TestN (λ v d. AddsElement elements.old elements.new (tree d)) (at cursor.old) result (at cursor.new) }
    {
        if !cursor.at_leaf() {
            let element = self.test(cursor)?;
            return Ok(elements.push(element)?);
        }
        match leaf_element(self.alloc, cursor, elements)? {
            None => Ok(()),
            Some(atom) => {
                let element = self.test_after(cursor, atom)?;
                Ok(elements.push(element)?)
            }
        }
    }

    /// Entries with commas between them, and perhaps one after the last; there may be none.
    pub(crate) fn entries(&self, cursor: &mut Cursor<I>) -> Result<ListedEntries, Refusal>
        requires ready { Ready I.can_next I.remaining I.next_gives (at cursor.old) }
        requires nests { NestsInside I.can_next I.remaining I.next_gives (at cursor.old) (F.pre self.now.expression) (F.post self.now.expression) }
        ensures moves { MayMove I.can_next I.remaining I.next_gives cursor.old result cursor.new }
        ensures onward { OnOk result (begin_at (at cursor.old) ≤ begin_at (at cursor.new)) }
        ensures parses { ParsesEntries I.next_gives (at cursor.old) result (at cursor.new) }
    {
        let mut entries = HeldEntries::new(self.alloc);
        if !cursor.at_test() {
            return Ok(ListedEntries::Many(entries));
        }
        let (key, value) = self.entry(cursor)?;
        let Some(_comma) = cursor.take_if(Kind::Comma) else {
            return Ok(ListedEntries::One(key, value));
        };
        entries.push(key, value)?;
        'listing: while cursor.at_test() {
            let (key, value) = self.entry(cursor)?;
            entries.push(key, value)?;
            let Some(_next) = cursor.take_if(Kind::Comma) else {
                return Ok(ListedEntries::Many(entries));
            };
        }
        Ok(ListedEntries::Many(entries))
    }

    /// A key, `:` and a value (Starlark specification, "Dictionary expressions").
    #[inline(never)]
    fn entry(&self, cursor: &mut Cursor<I>) -> Result<(HeldExpr, HeldExpr), Refusal>
        requires ready { Ready I.can_next I.remaining I.next_gives (at cursor.old) }
        requires nests { NestsInside I.can_next I.remaining I.next_gives (at cursor.old) (F.pre self.now.expression) (F.post self.now.expression) }
        ensures moves { MovesOn I.can_next I.remaining I.next_gives cursor.old result cursor.new }
        ensures parses { Parses I.next_gives EntryN IsEntry (at cursor.old) result (at cursor.new) }
    {
        let key = self.test(cursor)?;
        expect(cursor, Kind::Colon)?;
        let value = self.test(cursor)?;
        Ok((key, value))
    }
}
