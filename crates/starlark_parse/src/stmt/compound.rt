//! Statements: definitions, branches, loops, and what they contain.
ghost use Rattle.std.specs.Prelude.{◌≡◌, ◌≤◌, true, false, map, IfOk};
ghost use Rattle.std.specs.List.{All};
ghost use Rattle.starlark_lexer.specs.Tokens.{span_of};
ghost use Rattle.starlark_parse_held.specs.Held.{other_of};
ghost use Rattle.starlark_lexer.specs.declared.kind.Kind.TheVariants as kinds;
ghost use Rattle.starlark_spec.specs.Grammar.Nonterminal.{Simple as SimpleN, Suite as SuiteN, Rest as RestN, ReturnType};
ghost use Rattle.starlark_spec.specs.Machine.States.State.{def_name_due};
ghost use Rattle.starlark_lexer.specs.Kinds.{is};
ghost use Rattle.starlark_spec.specs.Machine.Sight.{look_at};
ghost use Rattle.starlark_parse_cursor.specs.Reading.{at, Ready};
ghost use Rattle.starlark_parse_cursor.specs.Contract.{MayMove, MovesOn, Parses, ParsesFrom, ParsesPerhaps};
ghost use Rattle.starlark_parse.specs.Stmt.Lines.{IsSimple};
ghost use Rattle.starlark_parse.specs.Stmt.Statements.{IsStmt, IsSuite, IsRest, IsReturn};
ghost use Rattle.starlark_parse.specs.Stmt.Statements.{Skips, ReadsNewlines, ParsesOpening, ParsesBlock, ParsesStmt, Closes, ParsesBranch};
ghost use Rattle.starlark_parse.specs.Stmt.Statements.{ends_block, if_test_due, for_vars_due, branch_seen, folded};
ghost use Rattle.starlark_parse.specs.Stmt.NestedParsers.{NestsAt, NestsBelow};

use crate::expr::test::{loop_variables, test};
use crate::stmt::annotation::note;
use crate::stmt::parameter::parameters;
use crate::stmt::simple::simple_statement;
use starlark_lexer::kind::Kind;
use starlark_lexer::span::{Pos, Span};
use starlark_lexer::token::Lexeme;
use starlark_parse_build::check::target::for_statement;
use starlark_parse_build::statement::{definition, if_statement, joined};
use starlark_parse_cursor::cursor::Cursor;
use starlark_parse_cursor::token::{expect, take_name};
use starlark_parse_held::{HeldExpr, HeldStmt, HeldStmts, HeldType};
use starlark_spec::refusal::Refusal;
use std::alloc::{AllocError, Global};
use std::marker::PhantomData;

/// The condition and the statements of an `if` or an `elif`, and where that keyword begins.
#[derive(Drop)]
pub struct Branch {
    pub begin: Pos,
    pub condition: HeldExpr,
    pub body: HeldStmt,
}

/// Whether a block ends at the item that comes next.
fn at_block_end<I: Iterator<Item = Lexeme>>(cursor: &Cursor<I>) -> bool
    ensures { result ≡ ends_block (look_at (at cursor.now).sight).kind }
{
    matches!(cursor.kind(), Kind::Dedent | Kind::End)
}

/// Consumes the ends of lines.
fn newlines<I: Iterator<Item = Lexeme>>(cursor: &mut Cursor<I>)
    requires ready { Ready I.can_next I.remaining I.next_gives (at cursor.old) }
    ensures moves { Skips I.can_next I.remaining I.next_gives cursor.old cursor.new }
    ensures reads { ReadsNewlines I.next_gives (at cursor.old) (at cursor.new) }
{
    'reading: while let Some(_newline) = cursor.take_if(Kind::Newline) {}
}

/// Consumes what opens a block: the end of the line, those of empty lines, and an indent.
#[inline(never)]
fn opening<I: Iterator<Item = Lexeme>>(cursor: &mut Cursor<I>) -> Result<(), Refusal>
    requires comes { is (look_at (at cursor.old).sight).kind kinds.Newline ≡ true }
    requires ready { Ready I.can_next I.remaining I.next_gives (at cursor.old) }
    ensures moves { MovesOn I.can_next I.remaining I.next_gives cursor.old result cursor.new }
    ensures opens { ParsesOpening I.next_gives (at cursor.old) result (at cursor.new) }
{
    let _newline = expect(cursor, Kind::Newline)?;
    newlines(cursor);
    let _indent = expect(cursor, Kind::Indent)?;
    Ok(())
}

/// Consumes what closes a block: a dedent, or nothing if the tokens end.
#[inline(never)]
fn closing<I: Iterator<Item = Lexeme>>(cursor: &mut Cursor<I>) -> Result<(), Refusal>
    requires ready { Ready I.can_next I.remaining I.next_gives (at cursor.old) }
    ensures moves { MayMove I.can_next I.remaining I.next_gives cursor.old result cursor.new }
    ensures closes { Closes I.next_gives (at cursor.old) result (at cursor.new) }
{
    if cursor.at(Kind::End) {
        return Ok(());
    }
    let _dedent = expect(cursor, Kind::Dedent)?;
    Ok(())
}

/// What a function returns: `->` and a type, or nothing.
#[inline(never)]
fn return_type<I: Iterator<Item = Lexeme>>(
    alloc: Global,
    cursor: &mut Cursor<I>,
) -> Result<Option<HeldType>, Refusal>
    requires ready { Ready I.can_next I.remaining I.next_gives (at cursor.old) }
    ensures moves { MayMove I.can_next I.remaining I.next_gives cursor.old result cursor.new }
    ensures parses { ParsesPerhaps I.next_gives ReturnType IsReturn (at cursor.old) result (at cursor.new) }
{
    let Some(_arrow) = cursor.take_if(Kind::MinusGreater) else {
        return Ok(None);
    };
    let note = note(alloc, cursor)?;
    Ok(Some(note))
}

/// The statement of the branches: each in the `else` of the one before it, and the last part in that of the last one. All end at `end`.
#[inline(never)]
fn chained(
    alloc: Global,
    branches: Vec<Branch>,
    last: Option<HeldStmt>,
    end: Pos,
) -> Result<Option<HeldStmt>, AllocError>
    requires { All (λ b. b.begin.byte ≤ end.byte) branches.items }
    ensures { IfOk result (λ s. other_of s ≡ folded (map branch_seen branches.items) (other_of last) end.byte) }
{
    let mut branches = branches;
    let mut other = last;
    'chaining: while let Some(branch) = branches.pop() {
        let Branch {
            begin,
            condition,
            body,
        } = branch;
        other = Some(if_statement(alloc, condition, body, other, begin, end)?);
    }
    Ok(other)
}

/// A statement (Starlark specification, "Statements").
#[cycle(statement)]
pub fn statement<I: Iterator<Item = Lexeme>>(
    alloc: Global,
    cursor: &mut Cursor<I>,
    statements: &mut HeldStmts,
) -> Result<(), Refusal>
    requires ready { Ready I.can_next I.remaining I.next_gives (at cursor.old) }
    ensures moves { MovesOn I.can_next I.remaining I.next_gives cursor.old result cursor.new }
    ensures parses { ParsesStmt I.next_gives statements.old statements.new (at cursor.old) result (at cursor.new) }
{
    Statements {
        alloc,
        statement: statement::<I>,
        items: PhantomData,
    }
    .any_statement(cursor, statements)
}

/// The rules that contain statements take the parser of those as a parameter, so that each is proved by itself.
#[derive(Drop)]
pub struct Statements<I, F> {
    pub alloc: Global,
    pub statement: F,
    pub items: PhantomData<I>,
}

impl<
    I: Iterator<Item = Lexeme>,
    F: Fn(Global, &mut Cursor<'_, I>, &mut HeldStmts) -> Result<(), Refusal>,
> Statements<I, F> {
    /// Adds a statement, as the parser of those reads it.
    fn statement(&self, cursor: &mut Cursor<I>, statements: &mut HeldStmts) -> Result<(), Refusal>
        requires ready { Ready I.can_next I.remaining I.next_gives (at cursor.old) }
        requires nests { NestsAt I.can_next I.remaining I.next_gives cursor.old (F.pre self.now.statement) (F.post self.now.statement) }
        ensures moves { MovesOn I.can_next I.remaining I.next_gives cursor.old result cursor.new }
        ensures parses { ParsesStmt I.next_gives statements.old statements.new (at cursor.old) result (at cursor.new) }
    {
        (self.statement)(self.alloc, cursor, statements)
    }

    /// Adds a statement, by its first token.
    fn any_statement(
        &self,
        cursor: &mut Cursor<I>,
        statements: &mut HeldStmts,
    ) -> Result<(), Refusal>
        requires ready { Ready I.can_next I.remaining I.next_gives (at cursor.old) }
        requires nests { NestsBelow I.can_next I.remaining I.next_gives cursor.old (F.pre self.now.statement) (F.post self.now.statement) }
        ensures moves { MovesOn I.can_next I.remaining I.next_gives cursor.old result cursor.new }
        ensures parses { ParsesStmt I.next_gives statements.old statements.new (at cursor.old) result (at cursor.new) }
    {
        if let Some(word) = cursor.take_if(Kind::Def) {
            let definition = self.after_def(cursor, word)?;
            return Ok(statements.push(definition)?);
        }
        if let Some(word) = cursor.take_if(Kind::If) {
            let conditional = self.after_if(cursor, word)?;
            return Ok(statements.push(conditional)?);
        }
        if let Some(word) = cursor.take_if(Kind::For) {
            let iteration = self.after_for(cursor, word)?;
            return Ok(statements.push(iteration)?);
        }
        simple_statement(self.alloc, cursor, statements)
    }

    /// What follows `def` (Starlark specification, "Function definitions").
    #[inline(never)]
    fn after_def(&self, cursor: &mut Cursor<I>, word: Span) -> Result<HeldStmt, Refusal>
        requires word { cursor.old.end ≡ word.end }
        requires ready { Ready I.can_next I.remaining I.next_gives (at cursor.old) }
        requires nests { NestsBelow I.can_next I.remaining I.next_gives cursor.old (F.pre self.now.statement) (F.post self.now.statement) }
        ensures moves { MovesOn I.can_next I.remaining I.next_gives cursor.old result cursor.new }
        ensures parses { ParsesFrom I.next_gives (λ p. def_name_due (span_of word) p) word.begin.byte IsStmt (at cursor.old) result (at cursor.new) }
    {
        let name = take_name(cursor)?;
        let _opening = expect(cursor, Kind::OpeningRound)?;
        let parameters = parameters(self.alloc, cursor)?;
        let _closing = expect(cursor, Kind::ClosingRound)?;
        let return_type = return_type(self.alloc, cursor)?;
        let _colon = expect(cursor, Kind::Colon)?;
        let body = self.suite(cursor)?;
        Ok(definition(
            self.alloc,
            name,
            parameters,
            return_type,
            body,
            word.begin(),
            cursor.end,
        )?)
    }

    /// What follows `if` (Starlark specification, "If statements").
    #[inline(never)]
    fn after_if(&self, cursor: &mut Cursor<I>, word: Span) -> Result<HeldStmt, Refusal>
        requires word { cursor.old.end ≡ word.end }
        requires ready { Ready I.can_next I.remaining I.next_gives (at cursor.old) }
        requires nests { NestsBelow I.can_next I.remaining I.next_gives cursor.old (F.pre self.now.statement) (F.post self.now.statement) }
        ensures moves { MovesOn I.can_next I.remaining I.next_gives cursor.old result cursor.new }
        ensures parses { ParsesFrom I.next_gives (if_test_due (span_of word)) word.begin.byte IsStmt (at cursor.old) result (at cursor.new) }
    {
        let branch = self.branch(cursor, word)?;
        let other = self.rest(cursor)?;
        let Branch {
            begin,
            condition,
            body,
        } = branch;
        Ok(if_statement(self.alloc, condition, body, other, begin, cursor.end)?)
    }

    /// The condition and the statements of an `if` or an `elif`, after that keyword.
    #[inline(never)]
    fn branch(&self, cursor: &mut Cursor<I>, word: Span) -> Result<Branch, Refusal>
        requires ready { Ready I.can_next I.remaining I.next_gives (at cursor.old) }
        requires nests { NestsBelow I.can_next I.remaining I.next_gives cursor.old (F.pre self.now.statement) (F.post self.now.statement) }
        ensures moves { MovesOn I.can_next I.remaining I.next_gives cursor.old result cursor.new }
        ensures begin { IfOk result (λ b. b.begin ≡ word.begin) }
        ensures parses { ParsesBranch I.next_gives (at cursor.old) result (at cursor.new) }
    {
        let condition = test(self.alloc, cursor)?;
        let _colon = expect(cursor, Kind::Colon)?;
        let body = self.suite(cursor)?;
        Ok(Branch {
            begin: word.begin(),
            condition,
            body,
        })
    }

    /// What comes after the statements of an `if`: branches with `elif`, and an `else`.
    #[inline(never)]
    fn rest(&self, cursor: &mut Cursor<I>) -> Result<Option<HeldStmt>, Refusal>
        requires ready { Ready I.can_next I.remaining I.next_gives (at cursor.old) }
        requires nests { NestsBelow I.can_next I.remaining I.next_gives cursor.old (F.pre self.now.statement) (F.post self.now.statement) }
        ensures moves { MayMove I.can_next I.remaining I.next_gives cursor.old result cursor.new }
        ensures parses { ParsesPerhaps I.next_gives RestN IsRest (at cursor.old) result (at cursor.new) }
    {
        if !cursor.at(Kind::Elif) {
            return self.last(cursor);
        }
        self.elifs(cursor)
    }

    /// Branches with `elif`, and what comes after them.
    #[inline(never)]
    fn elifs(&self, cursor: &mut Cursor<I>) -> Result<Option<HeldStmt>, Refusal>
        requires ready { Ready I.can_next I.remaining I.next_gives (at cursor.old) }
        requires nests { NestsBelow I.can_next I.remaining I.next_gives cursor.old (F.pre self.now.statement) (F.post self.now.statement) }
        ensures moves { MayMove I.can_next I.remaining I.next_gives cursor.old result cursor.new }
        ensures parses { ParsesPerhaps I.next_gives RestN IsRest (at cursor.old) result (at cursor.new) }
    {
        let mut branches = Vec::new(self.alloc);
        'reading: while let Some(word) = cursor.take_if(Kind::Elif) {
            let branch = self.branch(cursor, word)?;
            branches.push(branch)?;
        }
        let last = self.last(cursor)?;
        Ok(chained(self.alloc, branches, last, cursor.end)?)
    }

    /// `else` and its statements, or neither. No `elif` comes.
    #[inline(never)]
    fn last(&self, cursor: &mut Cursor<I>) -> Result<Option<HeldStmt>, Refusal>
        requires no_elif { is (look_at (at cursor.old).sight).kind kinds.Elif ≡ false }
        requires ready { Ready I.can_next I.remaining I.next_gives (at cursor.old) }
        requires nests { NestsBelow I.can_next I.remaining I.next_gives cursor.old (F.pre self.now.statement) (F.post self.now.statement) }
        ensures moves { MayMove I.can_next I.remaining I.next_gives cursor.old result cursor.new }
        ensures parses { ParsesPerhaps I.next_gives RestN IsRest (at cursor.old) result (at cursor.new) }
    {
        let Some(_else) = cursor.take_if(Kind::Else) else {
            return Ok(None);
        };
        let _colon = expect(cursor, Kind::Colon)?;
        let body = self.suite(cursor)?;
        Ok(Some(body))
    }

    /// What follows `for` (Starlark specification, "For loops").
    #[inline(never)]
    fn after_for(&self, cursor: &mut Cursor<I>, word: Span) -> Result<HeldStmt, Refusal>
        requires word { cursor.old.end ≡ word.end }
        requires ready { Ready I.can_next I.remaining I.next_gives (at cursor.old) }
        requires nests { NestsBelow I.can_next I.remaining I.next_gives cursor.old (F.pre self.now.statement) (F.post self.now.statement) }
        ensures moves { MovesOn I.can_next I.remaining I.next_gives cursor.old result cursor.new }
        ensures parses { ParsesFrom I.next_gives (for_vars_due (span_of word)) word.begin.byte IsStmt (at cursor.old) result (at cursor.new) }
    {
        let variables = loop_variables(self.alloc, cursor)?;
        let _in = expect(cursor, Kind::In)?;
        let source = test(self.alloc, cursor)?;
        let _colon = expect(cursor, Kind::Colon)?;
        let body = self.suite(cursor)?;
        match for_statement(
            self.alloc,
            variables,
            source,
            body,
            word.begin(),
            cursor.end,
        ) {
            Ok(statement) => Ok(statement),
            Err(error) => Err(cursor.unless_out_of_memory(error)),
        }
    }

    /// The statements after `:`, on the same line or as a block. If the tokens end, a block may lack its end.
    #[inline(never)]
    fn suite(&self, cursor: &mut Cursor<I>) -> Result<HeldStmt, Refusal>
        requires ready { Ready I.can_next I.remaining I.next_gives (at cursor.old) }
        requires nests { NestsBelow I.can_next I.remaining I.next_gives cursor.old (F.pre self.now.statement) (F.post self.now.statement) }
        ensures moves { MovesOn I.can_next I.remaining I.next_gives cursor.old result cursor.new }
        ensures parses { Parses I.next_gives SuiteN IsSuite (at cursor.old) result (at cursor.new) }
    {
        if !cursor.at(Kind::Newline) {
            return self.line(cursor);
        }
        opening(cursor)?;
        let block = self.block(cursor)?;
        closing(cursor)?;
        Ok(block)
    }

    /// The statements on the line of a `:`.
    #[inline(never)]
    fn line(&self, cursor: &mut Cursor<I>) -> Result<HeldStmt, Refusal>
        requires ready { Ready I.can_next I.remaining I.next_gives (at cursor.old) }
        ensures moves { MovesOn I.can_next I.remaining I.next_gives cursor.old result cursor.new }
        ensures parses { Parses I.next_gives SimpleN IsSimple (at cursor.old) result (at cursor.new) }
    {
        let begin = cursor.begin();
        let mut statements = HeldStmts::new(self.alloc);
        simple_statement(self.alloc, cursor, &mut statements)?;
        Ok(joined(self.alloc, statements, begin, cursor.end)?)
    }

    /// Statements up to a `Dedent`, or to the end; there is one at least, and there may be empty lines between them.
    #[inline(never)]
    fn block(&self, cursor: &mut Cursor<I>) -> Result<HeldStmt, Refusal>
        requires ready { Ready I.can_next I.remaining I.next_gives (at cursor.old) }
        requires nests { NestsAt I.can_next I.remaining I.next_gives cursor.old (F.pre self.now.statement) (F.post self.now.statement) }
        ensures moves { MayMove I.can_next I.remaining I.next_gives cursor.old result cursor.new }
        ensures parses { ParsesBlock I.next_gives (at cursor.old) result (at cursor.new) }
    {
        newlines(cursor);
        let begin = cursor.begin();
        let mut statements = HeldStmts::new(self.alloc);
        self.statement(cursor, &mut statements)?;
        'reading: while !at_block_end(cursor) {
            if let Some(_newline) = cursor.take_if(Kind::Newline) {
                continue;
            }
            self.statement(cursor, &mut statements)?;
        }
        Ok(joined(self.alloc, statements, begin, cursor.end)?)
    }
}
