//! What all tests of a tree have in common.
use starlark_lexer::codemap::CodeMap;
use starlark_lexer::dialect::Dialect;
use std::alloc::Global;

/// What the tests are made with.
#[derive(Drop)]
pub struct Tests<'a> {
    pub alloc: Global,
    pub dialect: Dialect,
    pub codemap: &'a CodeMap,
}
