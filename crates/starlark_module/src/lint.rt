//! The linter.
ghost use Rattle.std.specs.Prelude.{◌≡◌, IfErr, IfOk, map};
ghost use Rattle.starlark_checks.specs.Refusals.{out_of_memory};
ghost use Rattle.starlark_module.specs.Comments.Building.{suppressions_in};
ghost use Rattle.starlark_module.specs.Comments.Suppressions.{IsCovered};
ghost use Rattle.starlark_passes.specs.Lint.Found.{issue_of};
ghost use Rattle.starlark_passes.specs.Lint.LintIssues.{issues};
ghost use Rattle.starlark_passes.specs.Lint.Without.{Without};
ghost use Rattle.starlark_tree.specs.Views.{statement_of};

use crate::module::AstModule;
use starlark_checks::error::Error;
pub use starlark_passes::lint::Issue;
use std::alloc::Global;

/// The issues of a module that no comment suppresses (`AstModule::is_suppressed`), ordered by where they begin; of two
/// that begin at the same position an unused load comes first, and then the one that is first in the tree.
///
/// `unused-load` is a symbol of a load at the top of the module whose local name is not an identifier of the module; a name
/// that is only assigned to is not one. `duplicate-key` is a key of a dictionary's literal that is a string literal with the
/// text of an earlier such key of the same literal.
///
/// Fails only if memory runs out.
pub fn lint(alloc: Global, ast: &AstModule) -> Result<Vec<Issue>, Error>
    ensures found { IfOk result (λ found. Without (λ i. IsCovered (suppressions_in ast.now.suppressions) i.name i.span)
        (issues (statement_of ast.now.statement)) (map issue_of found.items)) }
    ensures refused { IfErr result (λ e. e ≡ out_of_memory) }
{
    let mut found = starlark_passes::lint::issues(alloc, ast.statement())?;
    found.retain(|issue| !ast.is_suppressed(issue.name, issue.span));
    Ok(found)
}
