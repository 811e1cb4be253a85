//! Sets of kinds.
ghost use Rattle.std.specs.Prelude.{◌≡◌, is_some};
ghost use Rattle.starlark_lexer.specs.Kinds.{is as is_kind};
ghost use Rattle.starlark_spec.specs.Machine.Firsts.{starts_operand, starts_test, starts_small, starts_element, comparison_at};
ghost use Rattle.starlark_spec.specs.Machine.Firsts.{compares as compares_kind, assign_at};
ghost use Rattle.starlark_spec.specs.Machine.Firsts.{starts_argument, starts_param, starts_symbol};
ghost use Rattle.starlark_expected.specs.Words.{operates, elements_of};

use crate::word::{Level, Listed};
use starlark_lexer::kind::Kind;

/// Whether two kinds are the same.
pub fn is(kind: Kind, other: Kind) -> bool
    ensures { result ≡ is_kind kind other }
{
    kind == other
}

/// Whether an operand begins with the kind.
pub fn is_operand(kind: Kind) -> bool
    ensures { result ≡ starts_operand kind }
{
    matches!(
        kind,
        Kind::Identifier
            | Kind::Int
            | Kind::Float
            | Kind::String
            | Kind::Bytes
            | Kind::FStringStart
            | Kind::Ellipsis
            | Kind::OpeningRound
            | Kind::OpeningSquare
            | Kind::OpeningCurly
            | Kind::Plus
            | Kind::Minus
            | Kind::Tilde
    )
}

/// Whether an expression begins with the kind.
pub fn is_test(kind: Kind) -> bool
    ensures { result ≡ starts_test kind }
{
    matches!(kind, Kind::Not | Kind::Lambda) || is_operand(kind)
}

/// Whether a small statement begins with the kind.
pub fn is_small(kind: Kind) -> bool
    ensures { result ≡ starts_small kind }
{
    matches!(
        kind,
        Kind::Return | Kind::Break | Kind::Continue | Kind::Pass | Kind::Load
    ) || is_test(kind)
}

fn is_argument(kind: Kind) -> bool
    ensures { result ≡ starts_argument kind }
{
    matches!(kind, Kind::Star | Kind::StarStar) || is_test(kind)
}

fn is_parameter(kind: Kind) -> bool
    ensures { result ≡ starts_param kind }
{
    matches!(
        kind,
        Kind::Slash | Kind::Star | Kind::StarStar | Kind::Identifier
    )
}

fn is_symbol(kind: Kind) -> bool
    ensures { result ≡ starts_symbol kind }
{
    matches!(kind, Kind::String | Kind::Identifier)
}

/// Whether an element of the list begins with the kind.
pub fn is_element(list: Listed, kind: Kind) -> bool
    ensures { result ≡ starts_element (elements_of list) kind }
{
    match list {
        Listed::Elements | Listed::Entries => is_test(kind),
        Listed::Arguments => is_argument(kind),
        Listed::LambdaParameters | Listed::DefParameters => is_parameter(kind),
        Listed::Symbols => is_symbol(kind),
    }
}

/// Whether the kind is an operator of the level.
pub fn is_operator(of: Level, kind: Kind) -> bool
    ensures { result ≡ operates of kind }
{
    match of {
        Level::Or => matches!(kind, Kind::Or),
        Level::And => matches!(kind, Kind::And),
        Level::BitOr => matches!(kind, Kind::Pipe),
        Level::Xor => matches!(kind, Kind::Caret),
        Level::BitAnd => matches!(kind, Kind::Ampersand),
        Level::Shift => matches!(kind, Kind::LessLess | Kind::GreaterGreater),
        Level::Add => matches!(kind, Kind::Plus | Kind::Minus),
        Level::Multiply => matches!(
            kind,
            Kind::Star | Kind::Slash | Kind::SlashSlash | Kind::Percent
        ),
    }
}

/// Whether the kind is a comparison of one token.
pub fn is_comparison(kind: Kind) -> bool
    ensures { result ≡ is_some (comparison_at kind) }
{
    matches!(
        kind,
        Kind::EqualEqual
            | Kind::BangEqual
            | Kind::LessThan
            | Kind::GreaterThan
            | Kind::LessEqual
            | Kind::GreaterEqual
            | Kind::In
    )
}

/// Whether the operator of a comparison begins with the kind.
pub fn compares(kind: Kind) -> bool
    ensures { result ≡ compares_kind kind }
{
    matches!(
        kind,
        Kind::EqualEqual
            | Kind::BangEqual
            | Kind::LessThan
            | Kind::GreaterThan
            | Kind::LessEqual
            | Kind::GreaterEqual
            | Kind::In
            | Kind::Not
    )
}

/// Whether the kind is the operator of an assignment.
pub fn is_assignment(kind: Kind) -> bool
    ensures { result ≡ is_some (assign_at kind) }
{
    matches!(
        kind,
        Kind::Equal
            | Kind::PlusEqual
            | Kind::MinusEqual
            | Kind::StarEqual
            | Kind::SlashEqual
            | Kind::SlashSlashEqual
            | Kind::PercentEqual
            | Kind::AmpersandEqual
            | Kind::PipeEqual
            | Kind::CaretEqual
            | Kind::LessLessEqual
            | Kind::GreaterGreaterEqual
    )
}
