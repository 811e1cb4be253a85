//! The rules that are tested while tokens are read: which expressions are targets, which assignments are right, and which expressions are types.
pub mod assignment;
mod place;
pub mod target;
pub mod type_expr;
