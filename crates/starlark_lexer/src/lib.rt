//! Positions, the text of a file, tokens, and the lexer.
#![tactic(auto)]

pub mod codemap;
mod comment;
mod cut;
pub mod dialect;
mod f_string;
pub mod kind;
pub mod laws;
pub mod lexer;
mod lines;
mod number;
pub mod span;
mod string;
mod text;
pub mod token;
mod words;
