//! Modules, their trees and their errors.
pub mod diagnostics;
pub mod source;
pub mod tree_json;
pub mod uniplate;

pub use starlark_checks::{call, def, error, grammar_util, type_expr};
pub use starlark_expected::expected;
pub use starlark_lexer::dialect::{Dialect, DialectTypes};
pub use starlark_module::module::AstModule;
pub use starlark_module::{lint, module};
pub use starlark_passes::outline::ast_load::AstLoad;
pub use starlark_passes::outline::{ast_load, top_level_stmts};
pub use starlark_payload::payload_map;
pub use starlark_tree::ast;
