//! The two programs, over arguments, readers and writers: `ast` is `starlark_ast`, `tool` is `starlark`.
#![tactic(auto)]

pub mod ast;
mod symbols;
pub mod tool;
