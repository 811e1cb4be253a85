//! Tokens, and the errors of the lexer.
ghost use Rattle.std.specs.Prelude.{◌≡◌, IfOk};
ghost use Rattle.starlark_lexer.specs.Tokens.{number};

mod equality;

use crate::span::Span;
use std::alloc::AllocError;
use std::fmt;

/// The quotes of an f-string.
#[derive(Clone, Copy, Debug, PartialEq, Eq)]
pub enum FStringQuote {
    /// `'`
    Single,
    /// `"`
    Double,
    /// `'''`
    TripleSingle,
    /// `"""`
    TripleDouble,
}

/// How the value in a hole of an f-string is converted to text.
#[derive(Clone, Copy, Debug, PartialEq, Eq)]
pub enum FStringConv {
    /// No conversion is written: same as `Str`.
    None,
    /// `!s`: converts as `str` does.
    Str,
    /// `!r`: converts as `repr` does.
    Repr,
}

/// An integer: its value, or its text if it does not fit into 32 bits.
/// Two are equal if their values or their texts are.
#[derive(Debug, Drop)]
pub enum TokenInt {
    /// The value.
    I32(i32),
    /// The literal's text as written in the source, with the prefix of its base, such as `0x`.
    BigInt(String),
}

impl TokenInt {
    /// Returns the same integer, with a copy of its text if it has one.
    ///
    /// Fails if memory cannot be allocated.
    pub fn clone(&self) -> Result<Self, AllocError>
        ensures { IfOk result (λ copy. number copy ≡ number self.now) }
    {
        match self {
            TokenInt::I32(value) => Ok(TokenInt::I32(*value)),
            TokenInt::BigInt(text) => Ok(TokenInt::BigInt(text.clone()?)),
        }
    }
}

impl fmt::Display for TokenInt {
    ghost use Rattle.std.specs.Prelude.{Some};
    ghost use Rattle.starlark_lexer.specs.Tokens.{number};
    ghost use Rattle.starlark_lexer.specs.TokenText.{number_text};

    ghost output = { λ n. Some (number_text (number n)) };

    fn fmt<W: fmt::Write>(&self, f: &mut fmt::Formatter<W>) -> fmt::Result {
        match self {
            TokenInt::I32(n) => write!(f, "{n}"),
            TokenInt::BigInt(text) => write!(f, "{text}"),
        }
    }
}

/// A token of the Starlark specification's "Lexical elements". Two are equal if their kinds and contents are.
#[derive(Debug, Drop)]
pub enum Token {
    /// A name that is not a keyword.
    Identifier(String),
    /// An integer.
    Int(TokenInt),
    /// A floating-point number, as it is written in the source.
    Float(String),
    /// The value of a string literal, with its escapes resolved.
    String(String),
    /// The value of a bytes literal, with its escapes resolved.
    Bytes(Vec<u8>),
    /// The text of a comment after its `#`, without the newline.
    Comment(String),
    /// The end of a line outside delimiters, or the end of the text.
    Newline,
    /// The start of a line that is indented more than the line before.
    Indent,
    /// The end of a block that an `Indent` began.
    Dedent,
    /// The prefix and the opening quotes of an f-string.
    FStringStart(FStringQuote),
    /// Text of an f-string outside its holes, its escapes and doubled braces resolved.
    FStringText(String),
    /// The `{` of a hole of an f-string.
    FStringExprStart,
    /// The `!` before a hole's conversion.
    FStringBang,
    /// The `}` of a hole of an f-string.
    FStringExprEnd,
    /// The closing quotes of an f-string.
    FStringEnd,
    /// `and`
    And,
    /// `break`
    Break,
    /// `continue`
    Continue,
    /// `def`
    Def,
    /// `elif`
    Elif,
    /// `else`
    Else,
    /// `for`
    For,
    /// `if`
    If,
    /// `in`
    In,
    /// `lambda`
    Lambda,
    /// `load`
    Load,
    /// `not`
    Not,
    /// `or`
    Or,
    /// `pass`
    Pass,
    /// `return`
    Return,
    /// `,`
    Comma,
    /// `;`
    Semicolon,
    /// `:`
    Colon,
    /// `.`
    Dot,
    /// `...`
    Ellipsis,
    /// `->`
    MinusGreater,
    /// `(`
    OpeningRound,
    /// `)`
    ClosingRound,
    /// `[`
    OpeningSquare,
    /// `]`
    ClosingSquare,
    /// `{`
    OpeningCurly,
    /// `}`
    ClosingCurly,
    /// `+`
    Plus,
    /// `-`
    Minus,
    /// `*`
    Star,
    /// `/`
    Slash,
    /// `//`
    SlashSlash,
    /// `%`
    Percent,
    /// `**`
    StarStar,
    /// `&`
    Ampersand,
    /// `|`
    Pipe,
    /// `^`
    Caret,
    /// `~`
    Tilde,
    /// `<<`
    LessLess,
    /// `>>`
    GreaterGreater,
    /// `<`
    LessThan,
    /// `>`
    GreaterThan,
    /// `<=`
    LessEqual,
    /// `>=`
    GreaterEqual,
    /// `==`
    EqualEqual,
    /// `!=`
    BangEqual,
    /// `=`
    Equal,
    /// `+=`
    PlusEqual,
    /// `-=`
    MinusEqual,
    /// `*=`
    StarEqual,
    /// `/=`
    SlashEqual,
    /// `//=`
    SlashSlashEqual,
    /// `%=`
    PercentEqual,
    /// `&=`
    AmpersandEqual,
    /// `|=`
    PipeEqual,
    /// `^=`
    CaretEqual,
    /// `<<=`
    LessLessEqual,
    /// `>>=`
    GreaterGreaterEqual,
}

/// What the lexer rejects.
#[derive(Clone, Copy, Debug, PartialEq, Eq)]
pub enum LexerErrorKind {
    /// A character that begins no token.
    InvalidCharacter,
    /// A reserved word that is not a keyword, such as `class`.
    ReservedKeyword,
    /// Digits that do not form a number, such as `012`.
    InvalidNumber,
    /// A string without its closing quotes.
    UnfinishedString,
    /// An escape with wrong digits, or one whose number is not a character.
    InvalidEscape,
    /// A line whose indentation is not that of an open block.
    Indentation,
    /// A `}` in the text of an f-string that closes no hole.
    InvalidFString,
    /// A token that is nested deeper than a limit that was set. The lexer sets none.
    TooDeep,
    /// Memory could not be allocated.
    Memory,
}

impl fmt::Display for LexerErrorKind {
    ghost use Rattle.std.specs.Prelude.{Some};
    ghost use Rattle.starlark_lexer.specs.TokenText.{kind_name};

    ghost output = { λ kind. Some (kind_name kind) };

    fn fmt<W: fmt::Write>(&self, f: &mut fmt::Formatter<W>) -> fmt::Result {
        f.write_str(match self {
            LexerErrorKind::InvalidCharacter => "InvalidCharacter",
            LexerErrorKind::ReservedKeyword => "ReservedKeyword",
            LexerErrorKind::InvalidNumber => "InvalidNumber",
            LexerErrorKind::UnfinishedString => "UnfinishedString",
            LexerErrorKind::InvalidEscape => "InvalidEscape",
            LexerErrorKind::Indentation => "Indentation",
            LexerErrorKind::InvalidFString => "InvalidFString",
            LexerErrorKind::TooDeep => "TooDeep",
            LexerErrorKind::Memory => "Memory",
        })
    }
}

/// An error of the lexer: its kind, and what it rejects. It is displayed as the name of the kind.
#[derive(Clone, Copy, Debug, PartialEq, Eq)]
pub struct LexerError {
    pub kind: LexerErrorKind,
    pub span: Span,
}

impl fmt::Display for LexerError {
    ghost use Rattle.std.specs.Prelude.{Some};
    ghost use Rattle.starlark_lexer.specs.TokenText.{kind_name};

    ghost output = { λ error. Some (kind_name error.kind) };

    fn fmt<W: fmt::Write>(&self, f: &mut fmt::Formatter<W>) -> fmt::Result {
        let kind = self.kind;
        write!(f, "{kind}")
    }
}

/// A token between the byte offsets of its start and its end, or an error.
pub type Lexeme = Result<(usize, Token, usize), LexerError>;
