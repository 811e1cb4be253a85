//! Passes over a tree: `outline` returns what is visible of a module from outside, `replace` turns binary operators into calls, and
//! `lint` is the linter.
#![tactic(auto)]

pub mod lint;
pub mod outline;
pub mod replace;
