//! What may come next, as messages name it.
ghost use Rattle.std.specs.Prelude.{◌≡◌};
ghost use Rattle.starlark_diagnostics.specs.Things as specs;

use starlark_lexer::kind::Kind;
use std::fmt;

/// Something that may come next: a token, or what begins with each of several.
#[derive(Clone, Copy)]
pub(crate) enum Thing {
    Statement,
    Expression,
    /// An expression that is neither a `not` nor a `lambda`.
    Operand,
    /// What a `for` assigns to.
    Variable,
    /// What an operand may be followed by.
    Operator,
    Token(Kind),
}

impl fmt::Display for Thing {
    ghost use Rattle.std.specs.Prelude.{Some};
    ghost use Rattle.starlark_diagnostics.specs.Things.{thing_text};

    ghost output = { λ thing. Some (thing_text thing) };

    fn fmt<W: fmt::Write>(&self, f: &mut fmt::Formatter<W>) -> fmt::Result {
        f.write_str(match self {
            Thing::Statement => "a statement",
            Thing::Expression => "an expression",
            Thing::Operand => "an operand",
            Thing::Variable => "a variable",
            Thing::Operator => "an operator",
            Thing::Token(kind) => kind_text(*kind),
        })
    }
}

/// A token of a kind that [`NAMED`] has.
fn kind_text(kind: Kind) -> &'static str
    ensures { result.now ≡ specs.kind_text kind }
{
    match kind {
        Kind::Identifier => "a name",
        Kind::String => "a string",
        Kind::Indent => "an indented block",
        Kind::In => "`in`",
        Kind::Else => "`else`",
        Kind::Equal => "`=`",
        Kind::MinusGreater => "`->`",
        Kind::Comma => "`,`",
        Kind::Colon => "`:`",
        Kind::OpeningRound => "`(`",
        Kind::ClosingRound => "`)`",
        Kind::ClosingSquare => "`]`",
        Kind::ClosingCurly | Kind::FStringExprEnd => "`}`",
        Kind::FStringBang => "`!`",
        Kind::Star => "`*`",
        Kind::StarStar => "`**`",
        Kind::Slash => "`/`",
        Kind::FStringEnd => "the end of the string",
        Kind::Newline => "a new line",
        Kind::Dedent => "the end of the block",
        _ => "another token",
    }
}

/// The kinds of tokens that are named, in this order.
pub(crate) const NAMED: [Kind; 21] = [
    Kind::Identifier,
    Kind::String,
    Kind::Indent,
    Kind::In,
    Kind::Else,
    Kind::Equal,
    Kind::MinusGreater,
    Kind::Comma,
    Kind::Colon,
    Kind::OpeningRound,
    Kind::ClosingRound,
    Kind::ClosingSquare,
    Kind::ClosingCurly,
    Kind::FStringBang,
    Kind::FStringExprEnd,
    Kind::Star,
    Kind::StarStar,
    Kind::Slash,
    Kind::FStringEnd,
    Kind::Newline,
    Kind::Dedent,
];

/// The kinds of tokens with which an operand begins.
pub(crate) const OPERAND: [Kind; 13] = [
    Kind::Identifier,
    Kind::Int,
    Kind::Float,
    Kind::String,
    Kind::Bytes,
    Kind::FStringStart,
    Kind::Ellipsis,
    Kind::OpeningRound,
    Kind::OpeningSquare,
    Kind::OpeningCurly,
    Kind::Plus,
    Kind::Minus,
    Kind::Tilde,
];
