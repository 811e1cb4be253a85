//! What is visible of a module from outside.
ghost use Rattle.std.specs.Prelude.{◌≡◌, IfOk, [], false, map};
ghost use Rattle.starlark_passes.specs.Outline.Listed.{in_file, listed, file_and_span};
ghost use Rattle.starlark_passes.specs.Outline.Outline.{loads, locations};
ghost use Rattle.starlark_spec.specs.Items.{Items};
ghost use Rattle.starlark_tree.specs.Views.{statement_of};
ghost use Rattle.starlark_validate.specs.Answers.{IsValidModule};

use crate::module::AstModule;
use starlark_lexer::codemap::FileSpan;
use starlark_passes::outline::ast_load::AstLoad;
use starlark_passes::outline::{ast_load, locations};
use std::alloc::{AllocError, Global};

impl AstModule {
    /// The loads at the top of the module, in order (Starlark specification, "Load statements"). A module that was parsed in a
    /// dialect without load statements has none.
    ///
    /// Fails if an allocation fails, or the code map has too many clones to count.
    pub fn loads(&self, alloc: Global) -> Result<Vec<AstLoad<'_>>, AllocError>
        ensures loads { IfOk result (λ found. map listed found.items ≡ map (in_file self.now.codemap) (loads (statement_of self.now.statement))) }
        ensures none { (items : Items) → IsValidModule self.now.dialect items (statement_of self.now.statement)
            → self.now.dialect.enable_load ≡ false → IfOk result (λ found. found.items ≡ []) }
    {
        ast_load::loads(alloc, &self.codemap, &self.statement)
    }

    /// The spans, in byte offsets, of all statements except lists of statements, in order, each before what it contains.
    ///
    /// Fails if an allocation fails, or the code map has too many clones to count.
    pub fn stmt_locations(&self, alloc: Global) -> Result<Vec<FileSpan>, AllocError>
        ensures { IfOk result (λ found. map file_and_span found.items ≡ map (in_file self.now.codemap) (locations (statement_of self.now.statement))) }
    {
        locations::stmt_locations(alloc, &self.codemap, &self.statement)
    }
}
