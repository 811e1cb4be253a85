//! Why a tree has no source.
use starlark_lexer::span::Span;
use thiserror::Error;

/// Why a tree has no source.
#[derive(Clone, Copy, Debug, PartialEq, Eq, Error)]
pub enum SourceError {
    /// No text denotes this part of a tree that a program built: an invalid name, a `load` without names, a block inside a
    /// line. The span is the one that the part has in the tree.
    #[error("no Starlark source says this")]
    NotSource(Span),
    /// Memory could not be allocated.
    #[error("out of memory")]
    Memory,
}
