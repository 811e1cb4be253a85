//! The rules that a tree keeps beyond its grammar: calls, parameters and types; and the errors of what is refused.
#![tactic(auto)]

pub mod call;
pub mod def;
pub mod error;
pub mod grammar_util;
pub mod type_expr;
