//! What the parser builds of the parts that it read: expressions, parameters and statements, and `operations`, the
//! operations that wait for their right operand, by how tightly their operators bind.
#![tactic(auto)]

pub mod check;
pub mod comprehension;
pub mod expression;
pub mod format;
pub mod operations;
mod optional;
pub mod parameter;
pub mod statement;
pub mod suffix;
