//! Walks over the syntax tree of Starlark.
#![tactic(auto)]

pub mod uniplate;
