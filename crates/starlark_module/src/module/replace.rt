//! Operators of a module that become calls.
ghost use Rattle.std.specs.Prelude.{◌≡◌, ◌<◌, ℕ, Ok, OnErr, OnOk};
ghost use Rattle.std.specs.HashMap.{IsEmpty};
ghost use Rattle.starlark_passes.specs.Replace.Replacing.{all_operators_replaced, operators, table_of, with_replaced};
ghost use Rattle.starlark_tree.specs.Views.{statement_of};

use crate::module::AstModule;
use std::alloc::{AllocError, Global};
use std::collections::HashMap;

impl AstModule {
    /// Turns the operations whose operators are replaced into calls. `replacements` has the name of a function for an
    /// operator's text without the spaces around it, such as `==` or `not in`; the call's arguments are the operands
    /// (Starlark specification, "Binary operators" and "Function and method calls"). The call and the function's name
    /// have the span of the operation. An operation is replaced before its operands are looked at. The operator of an
    /// augmented assignment is unchanged.
    ///
    /// Fails if the allocation of a call fails. The operations before it are then replaced, and the rest is unchanged. An
    /// empty table leaves the tree unchanged, and so does one that names none of its operators.
    pub fn replace_binary_operators(
        &mut self,
        alloc: Global,
        replacements: &HashMap<String, String>,
    ) -> Result<(), AllocError>
        ensures all { OnOk result (statement_of self.new.statement ≡ all_operators_replaced (table_of replacements.now) (statement_of self.old.statement)) }
        ensures some { OnErr result ((k : ℕ) × (k < operators (table_of replacements.now) (statement_of self.old.statement))
            × (statement_of self.new.statement ≡ with_replaced (table_of replacements.now) k (statement_of self.old.statement))) }
        ensures unnamed { operators (table_of replacements.now) (statement_of self.old.statement) ≡ 0
            → (result ≡ Ok tt) × (statement_of self.new.statement ≡ statement_of self.old.statement) }
        ensures empty { IsEmpty replacements.now → (result ≡ Ok tt) × (statement_of self.new.statement ≡ statement_of self.old.statement) }
        ensures codemap { self.new.codemap ≡ self.old.codemap }
        ensures comments { self.new.comments ≡ self.old.comments }
        ensures suppressions { self.new.suppressions ≡ self.old.suppressions }
        ensures dialect { self.new.dialect ≡ self.old.dialect }
    {
        starlark_passes::replace::replace_binary_operators(alloc, &mut self.statement, replacements)
    }
}
