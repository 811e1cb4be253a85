//! Clones of modules.
ghost use Rattle.std.specs.Prelude.{◌≡◌, IfOk};
ghost use Rattle.starlark_module.specs.Comments.Building.{suppressions_in};
ghost use Rattle.starlark_tree.specs.Views.{statement_of};

use crate::module::AstModule;
use starlark_lexer::codemap::Spanned;
use std::alloc::AllocError;

impl AstModule {
    /// The same module. The clone shares the file's name and text.
    ///
    /// Fails if an allocation fails, or the code map has too many clones to count.
    pub fn clone(&self) -> Result<Self, AllocError>
        ensures codemap { IfOk result (λ m. m.codemap ≡ self.now.codemap) }
        ensures statement { IfOk result (λ m. statement_of m.statement ≡ statement_of self.now.statement) }
        ensures comments { IfOk result (λ m. m.comments.items ≡ self.now.comments.items) }
        ensures suppressions { IfOk result (λ m. suppressions_in m.suppressions ≡ suppressions_in self.now.suppressions) }
        ensures dialect { IfOk result (λ m. m.dialect ≡ self.now.dialect) }
    {
        let codemap = self.codemap.clone()?;
        let comments = self.comments.clone()?;
        let suppressions = self.suppressions.clone()?;
        let node = self.statement.node.clone()?;
        let span = self.statement.span;
        Ok(AstModule {
            codemap,
            statement: Spanned { node, span },
            comments,
            suppressions,
            dialect: self.dialect,
        })
    }
}
