//! The result of a parse as JSON, for programs in other languages: docs/JSON.md has the schema.
#![tactic(auto)]

mod error;
pub mod laws;
mod module;
pub mod tree;

pub use crate::error::error_to_json;
pub use crate::module::{answer_to_json, module_to_json};
