//! A set of kinds of tokens in words.
ghost use Rattle.std.specs.Prelude.{IfOk, IfSome, IsTrue, OnOk};
ghost use Rattle.std.specs.List.{AllByRecursion};
ghost use Rattle.starlark_spec.specs.Nodes.{IsMember};
ghost use Rattle.starlark_diagnostics.specs.Stops.{IsIn};

use crate::thing::{NAMED, OPERAND, Thing};
use starlark_expected::expected::Expected;
use starlark_lexer::kind::Kind;
use std::alloc::{AllocError, Global};

/// What a message names of what may follow a token of the kind `last`, without what nobody misses.
pub(crate) fn things(alloc: Global, set: &Expected, last: Kind) -> Result<Vec<Thing>, AllocError>
    ensures { IfOk result (λ things. AllByRecursion (IsIn set.now.kinds.items) things.items) }
{
    let mut things = Vec::new(alloc);
    let start = start(set, last);
    if let Some(start) = start {
        things.push(start)?;
    }
    add_tokens(set, View::of(set, start), &mut things)?;
    add_operator(set, &mut things)?;
    Ok(things)
}

/// Adds each token of the set that is not left out.
fn add_tokens(set: &Expected, view: View, things: &mut Vec<Thing>) -> Result<(), AllocError>
    requires { AllByRecursion (IsIn set.now.kinds.items) things.old.items }
    ensures { OnOk result (AllByRecursion (IsIn set.now.kinds.items) things.new.items) }
{
    for kind in &NAMED {
        if set.has(*kind) && !view.hides(*kind) {
            things.push(Thing::Token(*kind))?;
        }
    }
    Ok(())
}

/// Adds an operator if nothing else is named and one may come.
fn add_operator(set: &Expected, things: &mut Vec<Thing>) -> Result<(), AllocError>
    requires { AllByRecursion (IsIn set.now.kinds.items) things.old.items }
    ensures { OnOk result (AllByRecursion (IsIn set.now.kinds.items) things.new.items) }
{
    if !set.has(Kind::Pipe) {
        return Ok(());
    }
    if !things.is_empty() || !set.has(Kind::Dot) {
        return Ok(());
    }
    things.push(Thing::Operator)?;
    Ok(())
}

/// What may begin, if the first tokens of something are all in the set.
fn start(set: &Expected, last: Kind) -> Option<Thing>
    ensures { IfSome result (IsIn set.now.kinds.items) }
{
    if !has_all(set, &OPERAND) {
        None
    } else if last == Kind::For {
        Some(Thing::Variable)
    } else if set.has(Kind::Pass) {
        Some(Thing::Statement)
    } else if set.has(Kind::Lambda) {
        Some(Thing::Expression)
    } else {
        Some(Thing::Operand)
    }
}

/// Whether each of the kinds is in the set.
fn has_all(set: &Expected, kinds: &[Kind]) -> bool
    ensures { IsTrue result → AllByRecursion (λ kind. IsMember kind set.now.kinds.items) kinds.now }
{
    for kind in kinds {
        if !set.has(*kind) {
            return false;
        }
    }
    true
}
/// What of a set decides which tokens a message leaves out.
#[derive(Clone, Copy)]
struct View {
    /// An operand may begin.
    begins: bool,
    /// A statement may begin.
    is_statement: bool,
    /// An operand has just ended.
    is_ended: bool,
    /// The line may end.
    ends_line: bool,
    /// A delimiter may be closed.
    closes: bool,
    /// A comma may come.
    has_comma: bool,
    has_or: bool,
    has_colon: bool,
    has_hole_end: bool,
}

impl View {
    fn of(set: &Expected, start: Option<Thing>) -> View {
        View {
            begins: start.is_some(),
            is_statement: matches!(start, Some(Thing::Statement)),
            is_ended: set.has(Kind::Pipe) && set.has(Kind::Dot),
            ends_line: set.has(Kind::Newline) && !set.has(Kind::Indent),
            closes: set.has(Kind::ClosingRound)
                || set.has(Kind::ClosingSquare)
                || set.has(Kind::ClosingCurly),
            has_comma: set.has(Kind::Comma),
            has_or: set.has(Kind::Or),
            has_colon: set.has(Kind::Colon),
            has_hole_end: set.has(Kind::FStringExprEnd),
        }
    }

    /// Whether a token of the kind is left out, as another says as much.
    fn hides(&self, kind: Kind) -> bool {
        match kind {
            Kind::Identifier
            | Kind::String
            | Kind::OpeningRound
            | Kind::Star
            | Kind::StarStar
            | Kind::Slash => self.begins || self.is_ended,
            Kind::Equal => self.ends_line || self.has_comma,
            Kind::Comma => self.ends_line,
            Kind::Colon => self.ends_line || self.has_comma && self.closes || self.begins,
            Kind::Newline => self.is_statement || !self.ends_line,
            Kind::In => self.is_ended && (self.ends_line || self.has_comma || self.has_or),
            Kind::MinusGreater => self.has_colon,
            Kind::FStringBang => self.has_hole_end,
            Kind::Dedent | Kind::Else => self.is_statement,
            _ => false,
        }
    }
}
