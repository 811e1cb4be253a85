//! Tokens, and the lexer.
pub use starlark_lexer::lexer::Lexer;
pub use starlark_lexer::token::{
    FStringConv, FStringQuote, Lexeme, LexerError, LexerErrorKind, Token, TokenInt,
};
