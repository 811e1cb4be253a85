//! Diagnostics: an error or an issue of a file as a code, a message in words, its span, and notes on other places.
//!
//! The text of an [`starlark_checks::error::Error`] names what is wrong. A diagnostic also says what could have been there, names the
//! parameter that is twice there, or the file that an unused name is loaded from.
#![tactic(auto)]

pub mod code;
pub mod diagnostic;
pub mod emit;
mod entries;
pub mod file;
mod help;
pub mod issue;
mod key;
mod kind;
mod lexemes;
mod lexical;
mod load;
pub mod refusal;
mod rules;
mod spot;
mod stop;
mod thing;
mod things;
mod token;
mod unexpected;
