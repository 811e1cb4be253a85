//! The kinds of errors. A kind's text is that of the error, as `text` has it.
use starlark_lexer::token::LexerError;
use starlark_spec::error::{
    CallError, DialectError, GrammarError, ParamsError, PlaceError, TypeExprUnpackError,
};

/// What is refused.
#[derive(Debug, Drop)]
pub enum ErrorKind {
    /// The text has more bytes than positions can count.
    TextTooLong,
    /// Memory ran out.
    Memory,
    /// What the lexer refuses.
    Lexer(LexerError),
    /// A token that cannot continue any program.
    UnexpectedToken,
    /// The text is only the beginning of a program.
    UnexpectedEnd,
    /// A statement or expression that is not written as its rule says.
    Grammar(GrammarError),
    /// The arguments of a call.
    Call(CallError),
    /// A function's parameters.
    Params(ParamsError),
    /// A type.
    TypeExpr(TypeExprUnpackError),
    /// Something that the dialect leaves out.
    Dialect(DialectError),
    /// A statement that is not allowed where it is.
    Place(PlaceError),
}
