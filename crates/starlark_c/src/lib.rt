//! The parser for programs in C and in languages that call C: the interface is include/starlark.h.
#![tactic(auto)]

mod dialect;
mod parse;
