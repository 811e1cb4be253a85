//! Starlark source of a tree.
pub use starlark_source::error::SourceError;
pub use starlark_source::source::to_source;
