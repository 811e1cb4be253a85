//! A module, an error, a statement or an expression as JSON.
pub use starlark_json::tree::{expression_to_json, statement_to_json};
pub use starlark_json::{answer_to_json, error_to_json, module_to_json};
