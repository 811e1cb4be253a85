//! Messages and help for common mistakes.
ghost use Rattle.std.specs.Prelude.{IfSome};
ghost use Rattle.starlark_diagnostics.specs.Unexpected.{IsSentence};

use crate::spot::last_kind;
use crate::stop::Stop;
use starlark_expected::expected::Expected;
use starlark_lexer::kind::Kind;
use starlark_lexer::token::{Lexeme, Token};

/// The message, if one is clearer than what is expected. The delimiter is the innermost one that is open, if any is.
pub(crate) fn sentence(stop: &Stop, delimiter: &str) -> Option<&'static str>
    ensures { IfSome result (λ sentence. IsSentence sentence.now) }
{
    let kind = stop.kind?;
    if compares(kind) && is_compared(stop) {
        Some("comparisons do not chain: join two by `and`")
    } else if closes_delimiter(kind) && delimiter.is_empty() {
        Some("no bracket is open that this closes")
    } else if matches!(kind, Kind::Indent) {
        Some("unexpected indentation")
    } else {
        None
    }
}

/// Whether a token of the kind compares two operands.
fn compares(kind: Kind) -> bool {
    matches!(
        kind,
        Kind::EqualEqual
            | Kind::BangEqual
            | Kind::LessThan
            | Kind::GreaterThan
            | Kind::LessEqual
            | Kind::GreaterEqual
            | Kind::In
    )
}

/// Whether an operand has just ended after which operators may come.
fn is_compared(stop: &Stop) -> bool {
    match &stop.set {
        Some(set) => set.has(Kind::Pipe) && set.has(Kind::And),
        None => false,
    }
}

fn closes_delimiter(kind: Kind) -> bool {
    matches!(
        kind,
        Kind::ClosingRound | Kind::ClosingSquare | Kind::ClosingCurly
    )
}

/// How to write it, if it is a common mistake.
pub(crate) fn help(stop: &Stop, delimiter: &str) -> Option<&'static str> {
    let kind = stop.kind?;
    match &stop.set {
        Some(set) => {
            let last = last_kind(stop.before);
            help_after(kind, last)
                .or(help_for_equal(kind, last, set, delimiter))
                .or(help_for_statement(kind, set))
                .or(help_for_print(kind, stop.before))
        }
        None => None,
    }
}

/// Where it is a matter of the last two tokens alone.
fn help_after(kind: Kind, last: Kind) -> Option<&'static str> {
    match (last, kind) {
        (Kind::Else, Kind::If) => Some("`elif` is `else` and `if` in one"),
        (Kind::Ampersand, Kind::Ampersand) => Some("`and` joins two conditions"),
        (Kind::Pipe, Kind::Pipe) => Some("`or` joins two conditions"),
        (Kind::Plus, Kind::Newline) => Some("`x += 1` adds one"),
        (Kind::String, Kind::String) => Some("strings side by side are not joined: `+` joins them"),
        _ => None,
    }
}

/// Where it is an `=`.
fn help_for_equal(kind: Kind, last: Kind, set: &Expected, delimiter: &str) -> Option<&'static str> {
    if !matches!(kind, Kind::Equal) {
        None
    } else if matches!(last, Kind::String) && delimiter == "(" {
        Some("a name before `=` has no quotes")
    } else if set.has(Kind::MinusGreater) {
        Some("`->` comes before the type of the result")
    } else if set.has(Kind::EqualEqual) && !set.has(Kind::Newline) && delimiter != "{" {
        Some("`==` compares")
    } else {
        None
    }
}

/// Where a statement may begin.
fn help_for_statement(kind: Kind, set: &Expected) -> Option<&'static str> {
    if !set.has(Kind::Def) {
        return None;
    }
    match kind {
        Kind::Else | Kind::Elif => Some("no `if` comes before it with the same indentation"),
        Kind::Indent => Some("this line is further in than the one before"),
        Kind::SlashSlash => Some("a comment begins with `#`"),
        _ => None,
    }
}

/// Where a value comes after the name `print`, with which a statement begins.
fn help_for_print(kind: Kind, before: &[Lexeme]) -> Option<&'static str> {
    match kind {
        Kind::String | Kind::Identifier | Kind::Int if is_print(before) => {
            Some("`print` is a function: print(..)")
        }
        _ => None,
    }
}

/// Whether the last token is the name `print`, and a statement begins with it.
fn is_print(before: &[Lexeme]) -> bool {
    let Some((last, others)) = before.split_last() else {
        return false;
    };
    let begins = matches!(
        last_kind(others),
        Kind::End | Kind::Newline | Kind::Indent | Kind::Dedent | Kind::Semicolon
    );
    match last {
        Ok((_, Token::Identifier(name), _)) => begins && name.as_str() == "print",
        _ => false,
    }
}
