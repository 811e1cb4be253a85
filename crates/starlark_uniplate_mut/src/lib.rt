//! Mutable walks over the syntax tree of Starlark.
#![tactic(auto)]

pub mod types;
pub mod uniplate_mut;
