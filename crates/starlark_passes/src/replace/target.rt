//! The operators in what is assigned to.
ghost use Rattle.std.specs.Prelude.{map};
ghost use Rattle.std.specs.List.{flat_map};
ghost use Rattle.starlark_tree.specs.Inside.{target_inside};
ghost use Rattle.starlark_tree.specs.Views.{target_of};
ghost use Rattle.starlark_passes.specs.Replace.Entering.{Enters};
ghost use Rattle.starlark_passes.specs.Replace.Parts.{Replaces, a_target, each};
ghost use Rattle.starlark_passes.specs.Replace.Replacing.{table_of};

use crate::replace::rules::Rules;
use starlark_tree::ast::{AssignTarget, AstAssignTarget, AstExpr};
use std::alloc::{AllocError, Global};
use std::collections::HashMap;

impl<F: Fn(Global, &mut AstExpr, &HashMap<String, String>) -> Result<(), AllocError>> Rules<'_, F> {
    /// Replaces the operators in a target.
    #[cycle(target)]
    pub(crate) fn target(&self, target: &mut AstAssignTarget) -> Result<(), AllocError>
        requires { Enters (target_inside (target_of target.old)) (F.pre self.now.enter) (F.post self.now.enter) }
        ensures { let table = table_of self.now.replacements.now in Replaces table (a_target table) result (target_of target.old) (target_of target.new) }
    {
        match &mut target.node {
            AssignTarget::Tuple(parts) => self.targets(parts),
            AssignTarget::Index(parts) => self.pair(parts),
            AssignTarget::Dot(object, _) => self.one(object),
            AssignTarget::Identifier(_) => Ok(()),
        }
    }

    /// Replaces the operators in targets.
    #[cycle(target)]
    fn targets(&self, targets: &mut [AstAssignTarget]) -> Result<(), AllocError>
        requires { Enters (flat_map target_inside (map target_of targets.old)) (F.pre self.now.enter) (F.post self.now.enter) }
        ensures { let table = table_of self.now.replacements.now in Replaces table (each table (a_target table)) result (map target_of targets.old)
            (map target_of targets.new) }
    {
        for target in targets.iter_mut() {
            self.target(target)?;
        }
        Ok(())
    }
}
