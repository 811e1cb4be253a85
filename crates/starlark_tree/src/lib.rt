//! The syntax tree of Starlark: its types, and the functions that read, change, display, clone and drop it.
#![tactic(auto)]

pub mod ast;
mod clone;
pub mod discard;
pub mod display;
