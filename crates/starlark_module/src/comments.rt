//! Comments, kept while the lexemes around them are passed on, and the lint suppressions that they are: comments that
//! name lints which are silent where the comments are.
pub mod comment_keeper;
pub mod lint_suppressions;
mod short_names;
mod suppressed;
