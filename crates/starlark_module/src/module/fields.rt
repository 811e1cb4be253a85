//! The parts of a module.
ghost use Rattle.std.specs.Prelude.{◌≡◌, ◌↔◌, IsTrue, codes};
ghost use Rattle.std.specs.Str.Iter.{HasSubslice};

use crate::module::AstModule;
use starlark_lexer::codemap::CodeMap;
use starlark_lexer::dialect::Dialect;
use starlark_tree::ast::AstStmt;

/// What in a text requests type checking.
const TYPECHECK: &str = "@starlark-rust: typecheck";

/// The parts of a module, for further processing.
pub trait AstModuleFields {
    /// The file.
    fn codemap(&self) -> &CodeMap;

    /// The tree.
    fn statement(&self) -> &AstStmt;

    /// The dialect that the text was read in.
    fn dialect(&self) -> &Dialect;

    /// The file, the tree, the dialect, and whether the text contains `@starlark-rust: typecheck`, which requests type
    /// checking.
    fn into_parts(self) -> (CodeMap, AstStmt, Dialect, bool);
}

impl AstModuleFields for AstModule {
    fn codemap(&self) -> &CodeMap
        ensures { result.now ≡ self.now.codemap }
    {
        &self.codemap
    }

    fn statement(&self) -> &AstStmt
        ensures { result.now ≡ self.now.statement }
    {
        &self.statement
    }

    fn dialect(&self) -> &Dialect
        ensures { result.now ≡ self.now.dialect }
    {
        &self.dialect
    }

    fn into_parts(self) -> (CodeMap, AstStmt, Dialect, bool)
        ensures codemap { result.0 ≡ self.codemap }
        ensures statement { result.1 ≡ self.statement }
        ensures dialect { result.2 ≡ self.dialect }
        ensures typecheck { IsTrue result.3 ↔ HasSubslice self.codemap.text (codes "@starlark-rust: typecheck") }
    {
        let AstModule {
            codemap,
            statement,
            comments: _comments,
            suppressions: _suppressions,
            dialect,
        } = self;
        let typecheck = asks_for_typecheck(codemap.source());
        (codemap, statement, dialect, typecheck)
    }
}

/// Whether a text requests type checking.
fn asks_for_typecheck(text: &str) -> bool
    ensures { IsTrue result ↔ HasSubslice text.now (codes "@starlark-rust: typecheck") }
{
    text.contains(TYPECHECK)
}
