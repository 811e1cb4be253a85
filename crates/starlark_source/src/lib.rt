//! Canonical Starlark source of a tree. Comments are not part of a tree, so they are not preserved.
#![tactic(auto)]

pub mod error;
mod expression;
mod format;
mod level;
mod literal;
mod page;
mod reading;
pub mod source;
mod statement;
