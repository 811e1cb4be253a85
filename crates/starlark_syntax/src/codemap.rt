//! Files, and positions in them.
pub use starlark_lexer::codemap::{
    CodeMap, FileSpan, Pos, ResolvedPos, ResolvedSpan, Span, Spanned,
};
