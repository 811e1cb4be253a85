//! The levels of a line: delimiters, f-strings, parameters of lambdas and variables of loops that are open in it.
ghost use Rattle.std.specs.Prelude.{◌≡◌, ◌≤◌, IfErr, OnOk};
ghost use Rattle.starlark_depth.specs.Nested.{IsLineOutcome, line_in};
ghost use Rattle.starlark_depth.specs.Depths.{closed, deepened, in_line, level, line_at, line_depth, opened};
ghost use Rattle.starlark_depth.specs.declared.levels.Refused.TheVariants as refusals;

use crate::effect::Effect;
use std::alloc::{AllocError, Global};

/// What a level is.
#[derive(Clone, Copy, Debug, PartialEq, Eq)]
pub enum LevelKind {
    /// What is between delimiters, an f-string, or a line.
    Ordinary,
    /// The parameters of a lambda, up to its `:`.
    Parameters,
    /// The variables of a loop or of a clause of a comprehension, up to its `in`.
    Variables,
}

/// A level that is open. Commas divide it into parts.
#[derive(Clone, Copy, Debug)]
pub struct Level {
    pub kind: LevelKind,
    /// The depth of the next token: how many tokens that deepen came before it in its part of this level and of those around it.
    pub depth: u32,
    /// The largest depth of the levels that were closed in this part, with the tokens that deepen after them.
    pub deepest: u32,
}

/// Why a token is refused.
#[derive(Clone, Copy, Debug, PartialEq, Eq)]
pub enum Refused {
    /// It is deeper than the limit.
    TooDeep,
    /// There is no memory for what it opens.
    OutOfMemory,
}

/// The levels of a line that are open.
#[derive(Drop)]
pub struct Levels {
    pub innermost: Level,
    /// The levels around it, the outermost first.
    pub outer: Vec<Level>,
}

/// A level at a depth before its first token.
fn fresh(kind: LevelKind, depth: u32) -> Level
    ensures { result ≡ level kind depth }
{
    Level {
        kind,
        depth,
        deepest: depth,
    }
}

impl Levels {
    /// Before the first line.
    pub fn new(alloc: Global) -> Levels {
        Levels {
            innermost: fresh(LevelKind::Ordinary, 0),
            outer: Vec::new(alloc),
        }
    }

    /// Starts a line at a depth.
    pub fn start_line(&mut self, depth: u32) -> Result<(), AllocError>
        ensures starts { OnOk result (line_in self.new ≡ line_at depth) }
    {
        self.outer.clear();
        self.outer.push(fresh(LevelKind::Ordinary, depth))?;
        self.innermost = fresh(LevelKind::Ordinary, depth);
        Ok(())
    }

    /// What follows in the innermost level is one deeper.
    fn deepen(&mut self, limit: u32) -> Result<(), Refused>
        requires within { line_depth (line_in self.old) ≤ limit }
        ensures goes { IsLineOutcome limit (deepened (line_in self.old)) result self.new }
        ensures within { line_depth (line_in self.new) ≤ limit }
    {
        if self.innermost.deepest.max(self.innermost.depth) >= limit {
            return Err(Refused::TooDeep);
        }
        self.innermost.depth += 1;
        self.innermost.deepest += 1;
        Ok(())
    }

    /// Opens a level in the innermost.
    fn open(&mut self, kind: LevelKind) -> Result<(), Refused>
        ensures goes { OnOk result (line_in self.new ≡ opened kind (line_in self.old)) }
        ensures same { line_depth (line_in self.new) ≡ line_depth (line_in self.old) }
        ensures memory { IfErr result (λ e. e ≡ refusals.OutOfMemory) }
    {
        if self.outer.push(self.innermost).is_err() {
            return Err(Refused::OutOfMemory);
        }
        self.innermost = fresh(kind, self.innermost.depth);
        Ok(())
    }

    /// Closes the innermost level, unless it is the only one.
    fn close(&mut self)
        ensures closes { line_in self.new ≡ closed (line_in self.old) }
        ensures within { line_depth (line_in self.new) ≤ line_depth (line_in self.old) }
    {
        if let Some(outer) = self.outer.pop() {
            self.innermost = Level {
                kind: outer.kind,
                depth: outer.depth,
                deepest: outer.deepest.max(self.innermost.deepest),
            };
        }
    }

    /// Deepens the innermost level, and opens one in it.
    fn deepen_and_open(&mut self, limit: u32, kind: LevelKind) -> Result<(), Refused>
        requires within { line_depth (line_in self.old) ≤ limit }
        ensures goes { IsLineOutcome limit (opened kind (deepened (line_in self.old))) result self.new }
        ensures within { line_depth (line_in self.new) ≤ limit }
    {
        self.deepen(limit)?;
        self.open(kind)
    }

    /// Counts a token of the line, unless something is deeper than the limit after it.
    pub fn apply(&mut self, limit: u32, effect: Effect) -> Result<(), Refused>
        requires within { line_depth (line_in self.old) ≤ limit }
        ensures goes { IsLineOutcome limit (in_line effect (line_in self.old)) result self.new }
        ensures within { line_depth (line_in self.new) ≤ limit }
    {
        match effect {
            Effect::Deepen | Effect::Else => self.deepen(limit),
            Effect::Open => self.deepen_and_open(limit, LevelKind::Ordinary),
            Effect::Lambda => self.deepen_and_open(limit, LevelKind::Parameters),
            Effect::For => self.deepen_and_open(limit, LevelKind::Variables),
            Effect::In => {
                if let LevelKind::Variables = self.innermost.kind {
                    self.close();
                }
                self.deepen(limit)
            }
            Effect::Colon => {
                if let LevelKind::Parameters = self.innermost.kind {
                    self.close();
                }
                Ok(())
            }
            Effect::Close => {
                self.close();
                Ok(())
            }
            Effect::Separate => {
                let kind = self.innermost.kind;
                self.close();
                self.open(kind)
            }
            Effect::Unchanged
            | Effect::Elif
            | Effect::Newline
            | Effect::Indent
            | Effect::Dedent
            | Effect::Comment => Ok(()),
        }
    }
}
