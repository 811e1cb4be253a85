//! How deep tokens nest. Most lines end before one of their tokens has to be counted.
ghost use Rattle.std.specs.Prelude.{◌≡◌, ◌+◌, ◌≤◌, ◌<◌, ◌^◌, [], true, false, length, reverse, All, IfOk, OnOk, vec_len, vec_capacity};
ghost use Rattle.starlark_lexer.specs.declared.kind.Kind.TheVariants as kinds;
ghost use Rattle.starlark_lexer.specs.Tokens.{terminal};
ghost use Rattle.starlark_depth.specs.Nested.{IsNested, IsOutcome, IsPlain, IsStatement, counted, nested_in, steps};
ghost use Rattle.starlark_depth.specs.Depths.{effect, effect_of as effect_of_kind, line_of, start, state_depth, step};
ghost use Rattle.starlark_depth.specs.declared.effect.Effect.TheVariants as effects;

use crate::effect::effect_of;
use crate::levels::Refused;
use crate::nesting::{Nesting, StatementDepth, statement_of_line};
use starlark_lexer::kind::{Kind, kind_of};
use starlark_lexer::token::Token;
use std::alloc::{AllocError, Global};

/// How many tokens of a line are kept uncounted at most.
const MOST_UNCOUNTED: u32 = 4096;

/// The statements and levels that are open after some tokens, none deeper than a limit.
///
/// A token makes what follows in its line at most one deeper. So the first tokens of a line are kept and not counted, as many as the
/// limit leaves room for, and forgotten at the line's end. A longer line is counted from its start.
#[derive(Drop)]
pub struct Depth {
    pub limit: u32,
    /// What is open before the tokens that are not counted.
    pub nesting: Nesting,
    /// The tokens of the line that are not counted, without comments.
    pub uncounted: Vec<Kind>,
    /// How many these may be.
    pub room: usize,
    /// How many these may be in a line at depth 0.
    pub most: u32,
    ghost plain: { All IsPlain uncounted.items },
    ghost fits: { vec_len uncounted ≤ room },
    ghost reserved: { room ≤ vec_capacity uncounted },
    ghost most_reserved: { most ≤ vec_capacity uncounted },
    ghost most_shallow: { most ≤ limit },
    ghost small: { limit < 2 ^ 32 },
    ghost unstarted: { nesting.line_starts ≡ false → room ≡ 0 },
    ghost shallow: { state_depth (nested_in nesting) + room ≤ limit },
    ghost nested: { IsNested limit nesting },
}

/// Counts tokens, of which none can be too deep. Fails if allocation fails.
fn count_all(nesting: &mut Nesting, limit: u32, kinds: &[Kind]) -> Result<(), AllocError>
    requires plain { All IsPlain kinds.now }
    requires nested { IsNested limit nesting.old }
    requires shallow { state_depth (nested_in nesting.old) + length kinds.now ≤ limit }
    ensures goes { OnOk result (nested_in nesting.new ≡ steps kinds.now (nested_in nesting.old)) }
    ensures nested { IsNested limit nesting.new }
{
    for kind in kinds {
        match nesting.apply(limit, effect_of(*kind)) {
            Ok(()) => {}
            Err(_) => return Err(AllocError),
        }
    }
    Ok(())
}

impl Depth {
    /// Before any token. Fails if allocation fails.
    pub fn new(alloc: Global, limit: u32) -> Result<Depth, AllocError>
        ensures limit { IfOk result (λ d. d.limit ≡ limit) }
        ensures begins { IfOk result (λ d. counted d.nesting d.uncounted.items ≡ start) }
    {
        let most = limit.min(MOST_UNCOUNTED);
        let uncounted = Vec::with_capacity(alloc, most as usize)?;
        Ok(Depth {
            limit,
            nesting: Nesting::new(alloc),
            uncounted,
            room: most as usize,
            most,
        })
    }

    /// Counts a token, unless something is deeper than the limit after it, or there is no memory for what it opens.
    #[inline(always)]
    pub fn consume(&mut self, token: &Token) -> Result<(), Refused>
        ensures limit { self.new.limit ≡ self.old.limit }
        ensures goes { IsOutcome self.old.limit (step (effect (terminal token.now)) (counted self.old.nesting self.old.uncounted.items)) result
            (counted self.new.nesting self.new.uncounted.items) }
    {
        let kind = kind_of(token);
        if matches!(
            kind,
            Kind::Comment | Kind::Newline | Kind::Indent | Kind::Dedent
        ) || self.uncounted.len() >= self.room
        {
            return self.count(kind);
        }
        self.uncounted.push_reserved(kind);
        Ok(())
    }

    /// The same for a token that ends a line, for a comment, and for one that may be too deep.
    #[inline(never)]
    fn count(&mut self, kind: Kind) -> Result<(), Refused>
        ensures limit { self.new.limit ≡ self.old.limit }
        ensures goes { IsOutcome self.old.limit (step (effect_of_kind kind) (counted self.old.nesting self.old.uncounted.items)) result
            (counted self.new.nesting self.new.uncounted.items) }
    {
        // Most calls are for a newline.
        if let Kind::Newline = kind {
            let statement = self.statement();
            self.start_line(statement);
            return Ok(());
        }
        match kind {
            Kind::Comment => Ok(()),
            Kind::Indent => self.indent(),
            Kind::Dedent => {
                self.dedent();
                Ok(())
            }
            _ => self.count_exactly(kind),
        }
    }

    /// Counts the tokens of the line, and one more.
    #[cold]
    #[inline(never)]
    fn count_exactly(&mut self, kind: Kind) -> Result<(), Refused>
        requires plain { IsPlain kind }
        ensures limit { self.new.limit ≡ self.old.limit }
        ensures goes { IsOutcome self.old.limit (step (effect_of_kind kind) (counted self.old.nesting self.old.uncounted.items)) result
            (counted self.new.nesting self.new.uncounted.items) }
    {
        if self.count_line().is_err() {
            return Err(Refused::OutOfMemory);
        }
        self.nesting.apply(self.limit, effect_of(kind))
    }

    /// The statement of the line.
    #[inline(always)]
    fn statement(&self) -> StatementDepth
        ensures value { result ≡ (counted self.now.nesting self.now.uncounted.items).statement }
        ensures shallow { IsStatement self.now.limit result }
    {
        match self.uncounted.first() {
            Some(kind) => {
                prove!(self.nesting.statement.own < self.limit);
                statement_of_line(effect_of(*kind), self.nesting.statement)
            }
            None => self.nesting.statement,
        }
    }

    /// Ends the line, if there is one, and starts another in this statement.
    fn start_line(&mut self, statement: StatementDepth)
        requires shallow { IsStatement self.old.limit statement }
        ensures limit { self.new.limit ≡ self.old.limit }
        ensures starts { counted self.new.nesting self.new.uncounted.items ≡ line_of statement (reverse self.old.nesting.around.items) true }
    {
        self.nesting.statement = statement;
        self.nesting.line_starts = true;
        self.uncounted.clear();
        self.room = self.most.saturating_sub(statement.own) as usize;
    }

    /// Opens a block.
    #[inline(never)]
    fn indent(&mut self) -> Result<(), Refused>
        ensures limit { self.new.limit ≡ self.old.limit }
        ensures goes { IsOutcome self.old.limit (step (effect_of_kind kinds.Indent) (counted self.old.nesting self.old.uncounted.items)) result
            (counted self.new.nesting self.new.uncounted.items) }
    {
        let around = self.statement();
        if self.limit - around.own < 2 {
            return Err(Refused::TooDeep);
        }
        let depth = around.own + 2;
        match self.nesting.around.push(around) {
            Ok(()) => {
                self.start_line(StatementDepth {
                    block: depth,
                    own: depth,
                });
                Ok(())
            }
            Err(_) => Err(Refused::OutOfMemory),
        }
    }

    /// Closes a block.
    #[inline(never)]
    fn dedent(&mut self)
        ensures limit { self.new.limit ≡ self.old.limit }
        ensures goes { counted self.new.nesting self.new.uncounted.items ≡ step effects.Dedent (counted self.old.nesting self.old.uncounted.items) }
    {
        match self.nesting.around.pop() {
            Some(around) => self.start_line(around),
            None => {
                let statement = self.statement();
                self.start_line(statement);
            }
        }
    }

    /// Counts the tokens of the line that are not counted, and lets none be kept in this line any more.
    fn count_line(&mut self) -> Result<(), AllocError>
        ensures limit { self.new.limit ≡ self.old.limit }
        ensures none { self.new.uncounted.items ≡ [] }
        ensures room { self.new.room ≡ 0 }
        ensures goes { OnOk result (nested_in self.new.nesting ≡ counted self.old.nesting self.old.uncounted.items) }
    {
        let counted = count_all(&mut self.nesting, self.limit, self.uncounted.as_slice());
        self.uncounted.clear();
        self.room = 0;
        counted
    }
}
