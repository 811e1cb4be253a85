//! Modules of Starlark: from a text to its tree, its comments and its issues.
#![tactic(auto)]

pub mod comments;
pub mod lint;
pub mod module;
