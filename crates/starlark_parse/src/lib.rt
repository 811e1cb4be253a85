//! The parser of the whole language: `expr` reads expressions, `stmt` statements and modules.
#![tactic(auto)]

pub mod expr;
pub mod stmt;
