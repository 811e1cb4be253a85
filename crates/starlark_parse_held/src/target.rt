//! Targets that are kept in memory while parsing.
ghost use Rattle.std.specs.Prelude.{◌≡◌, ◌++◌, ◌∷◌, [], OnOk};
ghost use Rattle.starlark_parse_held.specs.Held.{target_of, targets_in};

use crate::exact::exact;
use starlark_tree::ast::AstAssignTarget;
use starlark_tree::discard::{self, Discard};
use std::alloc::{AllocError, Global};

/// The target of an assignment.
pub struct HeldTarget {
    pub tree: AstAssignTarget,
}

impl Drop for HeldTarget {
    #[inline(never)]
    fn drop(self) {
        let HeldTarget { tree } = self;
        tree.discard();
    }
}

impl HeldTarget {
    /// The target, no longer held.
    pub fn into_tree(self) -> AstAssignTarget
        ensures { result ≡ self.tree }
    {
        let HeldTarget { tree } = self;
        tree
    }
}

/// The parts of a tuple that is assigned to.
pub struct HeldTargets {
    pub trees: Vec<AstAssignTarget>,
}

impl Drop for HeldTargets {
    #[inline(never)]
    fn drop(self) {
        let HeldTargets { trees } = self;
        trees.discard();
    }
}

impl HeldTargets {
    /// No targets, in memory of `alloc`.
    pub fn new(alloc: Global) -> HeldTargets
        ensures { targets_in result ≡ [] }
    {
        HeldTargets {
            trees: Vec::new(alloc),
        }
    }

    /// Appends a target. Not inlined, so that a target takes no space in the stack frames of nested tuples.
    #[inline(never)]
    pub fn push(&mut self, item: HeldTarget) -> Result<(), AllocError>
        ensures { OnOk result (targets_in self.new ≡ targets_in self.old ++ target_of item ∷ []) }
    {
        discard::push(&mut self.trees, item.into_tree())
    }

    /// Converts them to a part of a tree, without spare capacity.
    pub fn into_trees(self) -> Vec<AstAssignTarget>
        ensures { result.items ≡ self.trees.items }
    {
        let HeldTargets { trees } = self;
        exact(trees)
    }
}
