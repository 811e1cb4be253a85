//! What tokens do to how deep what follows nests.
ghost use Rattle.std.specs.Prelude.{◌≡◌};
ghost use Rattle.starlark_depth.specs.Depths.{effect_of as effect_of_kind};

use starlark_lexer::kind::Kind;

/// What a token does to the levels that are open.
#[derive(Clone, Copy, Debug, PartialEq, Eq)]
pub enum Effect {
    Unchanged,
    /// What follows in the level is one deeper: an operator, a dot, a keyword of a clause or a statement.
    Deepen,
    /// The same, and a level is opened: `(`, `[`, `{`, the start of an f-string.
    Open,
    /// The same for the parameters of a lambda.
    Lambda,
    /// The same for the variables of a loop or of a clause of a comprehension.
    For,
    /// The variables of a loop or of a clause end here, if they are the innermost level, and what follows is one deeper.
    In,
    /// The parameters of a lambda end here, if they are the innermost level.
    Colon,
    /// The innermost level is closed.
    Close,
    /// A part of the innermost level ends: a comma, a semicolon, the end of a replacement field.
    Separate,
    /// A line ends.
    Newline,
    /// A block is opened.
    Indent,
    /// A block is closed.
    Dedent,
    /// The branches that follow are one deeper.
    Elif,
    /// A line that starts with it continues the statement before it.
    Else,
    Comment,
}

/// What a token of this kind does.
#[inline(always)]
pub fn effect_of(kind: Kind) -> Effect
    ensures { result ≡ effect_of_kind kind }
{
    match kind {
        Kind::Identifier
        | Kind::Int
        | Kind::Float
        | Kind::String
        | Kind::Bytes
        | Kind::FStringText
        | Kind::FStringExprStart
        | Kind::FStringBang
        | Kind::Break
        | Kind::Continue
        | Kind::Load
        | Kind::Pass
        | Kind::Return
        | Kind::Ellipsis
        | Kind::MinusGreater
        | Kind::StarStar
        | Kind::Fault
        | Kind::End => Effect::Unchanged,
        Kind::Equal
        | Kind::PlusEqual
        | Kind::MinusEqual
        | Kind::StarEqual
        | Kind::SlashEqual
        | Kind::SlashSlashEqual
        | Kind::PercentEqual
        | Kind::AmpersandEqual
        | Kind::PipeEqual
        | Kind::CaretEqual
        | Kind::LessLessEqual
        | Kind::GreaterGreaterEqual => Effect::Unchanged,
        Kind::And
        | Kind::Or
        | Kind::Not
        | Kind::If
        | Kind::Def
        | Kind::EqualEqual
        | Kind::BangEqual
        | Kind::LessThan
        | Kind::GreaterThan
        | Kind::LessEqual
        | Kind::GreaterEqual
        | Kind::Pipe
        | Kind::Caret
        | Kind::Ampersand
        | Kind::LessLess
        | Kind::GreaterGreater
        | Kind::Plus
        | Kind::Minus
        | Kind::Star
        | Kind::Slash
        | Kind::SlashSlash
        | Kind::Percent
        | Kind::Tilde
        | Kind::Dot => Effect::Deepen,
        Kind::OpeningRound | Kind::OpeningSquare | Kind::OpeningCurly | Kind::FStringStart =>
            Effect::Open,
        Kind::Lambda => Effect::Lambda,
        Kind::For => Effect::For,
        Kind::In => Effect::In,
        Kind::Colon => Effect::Colon,
        Kind::ClosingRound | Kind::ClosingSquare | Kind::ClosingCurly | Kind::FStringEnd => {
            Effect::Close
        }
        Kind::Comma | Kind::Semicolon | Kind::FStringExprEnd => Effect::Separate,
        Kind::Newline => Effect::Newline,
        Kind::Indent => Effect::Indent,
        Kind::Dedent => Effect::Dedent,
        Kind::Elif => Effect::Elif,
        Kind::Else => Effect::Else,
        Kind::Comment => Effect::Comment,
    }
}
