//! The result of a parse as bytes, for programs in other languages: docs/COMPACT.md describes the format.
#![tactic(auto)]

mod answer;
mod expression;
mod kind;
mod literal;
mod statement;
mod write;

pub use crate::answer::{error_to_compact, module_to_compact};
pub use crate::expression::write_expression;
pub use crate::kind::Kind;
pub use crate::statement::write_statement;
