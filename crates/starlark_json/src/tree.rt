//! The tree as JSON, for programs in other languages: docs/JSON.md has the schema.
mod expression;
pub mod leaf;
mod literal;
mod statement;
mod text;

pub use crate::tree::expression::write_expression;
pub use crate::tree::statement::write_statement;
pub use crate::tree::text::{expression_to_json, statement_to_json, text_of};
