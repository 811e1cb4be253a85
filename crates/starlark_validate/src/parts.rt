//! The statements directly in a statement.
ghost use Rattle.std.specs.Prelude.{◌≡◌, ◌∷◌, [], map, IfOk};
ghost use Rattle.starlark_tree.specs.Places.{behind};
ghost use Rattle.starlark_tree.specs.Views.{form_seen, statement_of};
ghost use Rattle.starlark_tree.specs.Children.{own_stmts};

use starlark_tree::ast::{AstStmt, StmtP};
use std::alloc::{AllocError, Global};

/// The statements directly in a statement, in the order of the text.
pub(crate) fn statements_in<'a>(
    alloc: Global,
    statement: &'a AstStmt,
) -> Result<Vec<&'a AstStmt>, AllocError>
    ensures { IfOk result (λ v. map (behind statement_of) v.items ≡ own_stmts (form_seen statement.now.node)) }
{
    match &statement.node {
        StmtP::Statements(parts) => each(alloc, parts),
        StmtP::If(_, body) => one(alloc, body),
        StmtP::IfElse(_, branches) => two(alloc, &branches.0, &branches.1),
        StmtP::For(repeated) => one(alloc, &repeated.body),
        StmtP::Def(def) => one(alloc, &def.body),
        StmtP::Break
        | StmtP::Continue
        | StmtP::Pass
        | StmtP::Return(_)
        | StmtP::Expression(_)
        | StmtP::Assign(_)
        | StmtP::AssignModify(..)
        | StmtP::Load(_) => Ok(Vec::new(alloc)),
    }
}

/// Each of the statements.
fn each<'a>(alloc: Global, statements: &'a [AstStmt]) -> Result<Vec<&'a AstStmt>, AllocError>
    ensures { IfOk result (λ v. map (behind statement_of) v.items ≡ map statement_of statements.now) }
{
    let mut found = Vec::new(alloc);
    for statement in statements {
        found.push(statement)?;
    }
    Ok(found)
}

/// A statement alone.
fn one<'a>(alloc: Global, statement: &'a AstStmt) -> Result<Vec<&'a AstStmt>, AllocError>
    ensures { IfOk result (λ v. map (behind statement_of) v.items ≡ statement_of statement.now ∷ []) }
{
    let mut found = Vec::new(alloc);
    found.push(statement)?;
    Ok(found)
}

/// Two statements.
fn two<'a>(
    alloc: Global,
    first: &'a AstStmt,
    second: &'a AstStmt,
) -> Result<Vec<&'a AstStmt>, AllocError>
    ensures { IfOk result (λ v. map (behind statement_of) v.items ≡ statement_of first.now ∷ statement_of second.now ∷ []) }
{
    let mut found = Vec::new(alloc);
    found.push(first)?;
    found.push(second)?;
    Ok(found)
}
