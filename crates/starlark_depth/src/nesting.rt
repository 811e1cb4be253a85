//! Statements that are open, and the levels of a line of the innermost.
ghost use Rattle.std.specs.Prelude.{◌≡◌, ◌≤◌, ◌<◌, ◌-◌, ◌^◌, false, true, IfErr, OnOk};
ghost use Rattle.starlark_depth.specs.Nested.{IsNested, IsOutcome, nested_in};
ghost use Rattle.starlark_depth.specs.Depths.{at_line_start, line_of, start, starts_no_line, state_depth, statement_of_line as statement_after, step};
ghost use Rattle.starlark_depth.specs.declared.effect.Effect.TheVariants as effects;
ghost use Rattle.starlark_depth.specs.declared.levels.Refused.TheVariants as refusals;

use crate::effect::Effect;
use crate::levels::{Levels, Refused};
use std::alloc::Global;

/// How deep the statements of a block are, and how deep one of them is, which is deeper after an `elif`.
#[derive(Clone, Copy, Debug, PartialEq, Eq)]
pub struct StatementDepth {
    pub block: u32,
    pub own: u32,
}

/// The statements and levels that are open after some tokens.
#[derive(Drop)]
pub struct Nesting {
    /// The statement of the line; if the next token starts a line, that of the line before.
    pub statement: StatementDepth,
    /// The statements around it, the outermost first.
    pub around: Vec<StatementDepth>,
    /// Whether the next token starts a line. Then `levels` mean nothing.
    pub line_starts: bool,
    /// The levels of the line.
    pub levels: Levels,
}

/// The statement of a line that starts with such a token, if that of the line before it is `before`.
pub fn statement_of_line(effect: Effect, before: StatementDepth) -> StatementDepth
    requires { effect ≡ effects.Elif → before.own < 2 ^ 32 - 1 }
    ensures { result ≡ statement_after effect before }
{
    match effect {
        Effect::Elif => StatementDepth {
            block: before.block,
            own: before.own + 1,
        },
        Effect::Else => before,
        _ => StatementDepth {
            block: before.block,
            own: before.block,
        },
    }
}

impl Nesting {
    /// Before any token: a line of a statement of the module.
    pub fn new(alloc: Global) -> Nesting
        ensures starts { nested_in result ≡ start }
        ensures shallow { IsNested 0 result }
    {
        Nesting {
            statement: StatementDepth { block: 0, own: 0 },
            around: Vec::new(alloc),
            line_starts: true,
            levels: Levels::new(alloc),
        }
    }

    /// Starts a line with a token.
    fn start_line(&mut self, limit: u32, effect: Effect) -> Result<(), Refused>
        requires starts { self.old.line_starts ≡ true }
        requires plain { starts_no_line effect ≡ false }
        requires shallow { IsNested limit self.old }
        ensures goes { IsOutcome limit (at_line_start effect (nested_in self.old)) result (nested_in self.new) }
        ensures shallow { IsNested limit self.new }
    {
        if self.statement.own >= limit && matches!(effect, Effect::Elif) {
            return Err(Refused::TooDeep);
        }
        let statement = statement_of_line(effect, self.statement);
        if self.levels.start_line(statement.own).is_err() {
            return Err(Refused::OutOfMemory);
        }
        self.statement = statement;
        self.line_starts = false;
        Ok(())
    }

    /// Counts a token that may start a line, unless something is deeper than the limit after it.
    pub fn apply(&mut self, limit: u32, effect: Effect) -> Result<(), Refused>
        requires plain { starts_no_line effect ≡ false }
        requires shallow { IsNested limit self.old }
        ensures goes { IsOutcome limit (step effect (nested_in self.old)) result (nested_in self.new) }
        ensures shallow { IsNested limit self.new }
    {
        if self.line_starts {
            self.start_line(limit, effect)?;
        }
        self.levels.apply(limit, effect)
    }
}
