//! The parser of expressions: a function for each production, over a cursor.
//!
//! `rules` has what all of them share; a function that reads an expression inside another one takes the parser of
//! expressions from it, and `test` is that parser.
mod argument;
pub mod atom;
mod binary;
mod brackets;
pub mod comprehension;
mod f_string;
mod lambda;
pub mod listed;
mod operator;
mod primary;
pub mod rules;
pub mod test;
