//! Issues of a module that are not errors: names that are loaded and never read, and keys that a dictionary has twice.
ghost use Rattle.std.specs.Prelude.{◌≡◌, ◌++◌, IfOk, OnOk, map};
ghost use Rattle.starlark_lexer.specs.Tokens.{span_of};
ghost use Rattle.starlark_passes.specs.Lint.Found.{issue_of};
ghost use Rattle.starlark_passes.specs.Lint.LintIssues.{begins, issue_at, issues};
ghost use Rattle.starlark_passes.specs.Lint.Sorting.{sorted_by};
ghost use Rattle.starlark_tree.specs.Views.{statement_of};

mod duplicate_keys;
mod unused_loads;

use starlark_lexer::codemap::Span;
use starlark_tree::ast::AstStmt;
use std::alloc::{AllocError, Global};

/// Something that a module is better off without.
#[derive(Clone, Copy, Debug)]
pub struct Issue {
    /// What it is: `unused-load` or `duplicate-key`.
    pub name: &'static str,
    /// Where it is, in byte offsets: at the symbol of a load, or at the later of the equal keys.
    pub span: Span,
}

/// The issues of a module, ordered by where they begin; of two that begin at the same position an unused load comes first,
/// and then the one that is first in the tree.
///
/// `unused-load` is a symbol of a load at the top of the module whose local name is not an identifier of the module; a name
/// that is only assigned to is not one. `duplicate-key` is a key of a dictionary's literal that is a string literal with the
/// text of an earlier such key of the same literal.
///
/// Fails if memory runs out.
pub fn issues(alloc: Global, top: &AstStmt) -> Result<Vec<Issue>, AllocError>
    ensures { IfOk result (λ found. map issue_of found.items ≡ issues (statement_of top.now)) }
{
    let mut found = Vec::new(alloc);
    let unused = unused_loads::unused_loads(alloc, top)?;
    add_issues("unused-load", unused.as_slice(), &mut found)?;
    let duplicates = duplicate_keys::duplicate_keys(alloc, top)?;
    add_issues("duplicate-key", duplicates.as_slice(), &mut found)?;
    sort(&mut found)?;
    Ok(found)
}

/// Adds an issue of this name at each of these spans.
fn add_issues(name: &'static str, spans: &[Span], found: &mut Vec<Issue>) -> Result<(), AllocError>
    ensures { OnOk result (map issue_of found.new.items ≡ map issue_of found.old.items ++ map (λ s. issue_at name.now (span_of s)) spans.now) }
{
    for span in spans {
        found.push(Issue { name, span: *span })?;
    }
    Ok(())
}

/// Sorts issues by where they begin. Those that begin at the same position stay in their order.
fn sort(found: &mut Vec<Issue>) -> Result<(), AllocError>
    ensures { OnOk result (map issue_of found.new.items ≡ sorted_by begins (map issue_of found.old.items)) }
{
    found.sort_by_key(|issue| issue.span.begin().get())
}
