//! The statements at the top of a tree.
ghost use Rattle.std.specs.Prelude.{◌≡◌, ◌++◌, IfOk, OnOk, map};
ghost use Rattle.std.specs.List.{flat_map};
ghost use Rattle.starlark_passes.specs.Outline.Outline.{top_statements};
ghost use Rattle.starlark_passes.specs.Outline.Tops.{WritesTop, WritesTops};
ghost use Rattle.starlark_tree.specs.Places.{behind};
ghost use Rattle.starlark_tree.specs.Views.{statement_of};
ghost use Rattle.starlark_tree.specs.Walks.{MayWrite};

use starlark_tree::ast::{AstPayload, AstStmtP, StmtP};
use std::alloc::{AllocError, Global};

/// The statements at the top, in order: those of a list of statements instead of the list, of nested lists too.
///
/// Fails if an allocation fails.
pub fn top_level_stmts<'a, P: AstPayload>(
    alloc: Global,
    top: &'a AstStmtP<P>,
) -> Result<Vec<&'a AstStmtP<P>>, AllocError>
    ensures { IfOk result (λ found. map (behind statement_of) found.items ≡ top_statements (statement_of top.now)) }
{
    let mut found = Vec::new(alloc);
    add_top(top, &mut found)?;
    Ok(found)
}

/// Adds the statements at the top of this one.
fn add_top<'a, P: AstPayload>(
    statement: &'a AstStmtP<P>,
    found: &mut Vec<&'a AstStmtP<P>>,
) -> Result<(), AllocError>
    ensures { OnOk result (map (behind statement_of) found.new.items ≡ map (behind statement_of) found.old.items
        ++ top_statements (statement_of statement.now)) }
{
    if let StmtP::Statements(parts) = &statement.node {
        for part in parts {
            add_top(part, found)?;
        }
    } else {
        found.push(statement)?;
    }
    Ok(())
}

/// Calls `f` on each statement at the top, in order: those of a list of statements instead of the list, of nested lists
/// too. A list that a call leaves instead of a statement is not entered.
#[cycle(top)]
pub fn top_level_stmts_mut<P: AstPayload, F: FnMut(&mut AstStmtP<P>)>(
    top: &mut AstStmtP<P>,
    f: &mut F,
)
    requires { MayWrite statement_of F.FnMut f.old (top_statements (statement_of top.old)) }
    ensures { WritesTop statement_of F.FnMut f.old (statement_of top.old) (statement_of top.new) f.new }
{
    match &mut top.node {
        StmtP::Statements(parts) => all_top_mut(parts, f),
        _ => f(top),
    }
}

/// Calls `f` on each statement at the top of these.
#[cycle(top)]
fn all_top_mut<P: AstPayload, F: FnMut(&mut AstStmtP<P>)>(parts: &mut [AstStmtP<P>], f: &mut F)
    requires { MayWrite statement_of F.FnMut f.old (flat_map top_statements (map statement_of parts.old)) }
    ensures { WritesTops statement_of F.FnMut f.old (map statement_of parts.old) (map statement_of parts.new) f.new }
{
    for part in parts.iter_mut() {
        top_level_stmts_mut(part, f);
    }
}
