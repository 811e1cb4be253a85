//! Parameters that are kept in memory while parsing.
ghost use Rattle.std.specs.Prelude.{◌≡◌, ◌++◌, ◌∷◌, [], OnOk};
ghost use Rattle.starlark_parse_held.specs.Held.{parameter_of, parameters_in};

use crate::exact::exact;
use starlark_tree::ast::AstParameter;
use starlark_tree::discard::{self, Discard};
use std::alloc::{AllocError, Global};

/// A parameter.
pub struct HeldParameter {
    pub tree: AstParameter,
}

impl Drop for HeldParameter {
    #[inline(never)]
    fn drop(self) {
        let HeldParameter { tree } = self;
        tree.discard();
    }
}

impl HeldParameter {
    /// The parameter, no longer held.
    pub fn into_tree(self) -> AstParameter
        ensures { result ≡ self.tree }
    {
        let HeldParameter { tree } = self;
        tree
    }
}

/// Parameters.
pub struct HeldParameters {
    pub trees: Vec<AstParameter>,
}

impl Drop for HeldParameters {
    #[inline(never)]
    fn drop(self) {
        let HeldParameters { trees } = self;
        trees.discard();
    }
}

impl HeldParameters {
    /// No parameters, in memory of `alloc`.
    pub fn new(alloc: Global) -> HeldParameters
        ensures { parameters_in result ≡ [] }
    {
        HeldParameters {
            trees: Vec::new(alloc),
        }
    }

    /// Appends a parameter, or drops it if memory cannot be allocated.
    pub fn push(&mut self, item: HeldParameter) -> Result<(), AllocError>
        ensures { OnOk result (parameters_in self.new ≡ parameters_in self.old ++ parameter_of item ∷ []) }
    {
        discard::push(&mut self.trees, item.into_tree())
    }

    /// Converts them to a part of a tree, without spare capacity.
    pub fn into_trees(self) -> Vec<AstParameter>
        ensures { result.items ≡ self.trees.items }
    {
        let HeldParameters { trees } = self;
        exact(trees)
    }
}
