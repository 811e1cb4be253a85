//! The names that a file binds at its top and never reads.
//!
//! Names are bound by loads, assignments, loops and definitions of functions. What other files read from this one is not
//! known here, and a function's own variable counts as read from the top if it has the same name.
ghost use Rattle.std.specs.HashSet.{contains_text};
ghost use Rattle.std.specs.Prelude.{◌≡◌, ◌++◌, IfOk, OnOk, cond, map, string_bytes, true};
ghost use Rattle.std.specs.Str.{bytes_eq};
ghost use Rattle.starlark_examples.specs.UnusedNames as unused;
ghost use Rattle.starlark_syntax.specs.tree.Names.{name_of};
ghost use Rattle.starlark_syntax.specs.tree.Places.{behind, lvalues};
ghost use Rattle.starlark_syntax.specs.tree.Views.{statement_of, target_of};

use crate::parsed;
use starlark_syntax::Error;
use starlark_syntax::syntax::ast::{
    AssignTarget, AstAssignIdent, AstAssignTarget, AstIdent, AstStmt, Stmt,
};
use starlark_syntax::syntax::uniplate::StmtPVisit;
use std::alloc::{AllocError, Global};
use std::collections::HashSet;
use std::fmt::Write;

/// A line for each name that a text binds at its top and never reads: the position at which it is bound, and the name.
pub fn report(alloc: Global, text: &str) -> Result<String, Error> {
    let module = parsed(alloc, text)?;
    let mut out = String::new(alloc);
    for name in &unread_names(alloc, module.statement())? {
        let place = module.file_span(name.span)?;
        writeln!(out, "{place}: {} is never read", name.node.ident)?;
    }
    Ok(out)
}

/// The names that are bound at the top of a module and never read, in order.
fn unread_names(alloc: Global, top: &AstStmt) -> Result<Vec<&AstAssignIdent>, AllocError>
    ensures { IfOk result (λ names. map (behind name_of) names.items ≡ unused.unread_names (statement_of top.now)) }
{
    let names_read = names_read(alloc, top)?;
    let mut names = Vec::new(alloc);
    add_bound(&mut names, top)?;
    names.retain(|name| !names_read.contains(name.node.ident.as_str()));
    Ok(names)
}

/// The names that are read anywhere in a statement.
#[tactic(auto, using(crate::proofs::Always::may_always))]
fn names_read(alloc: Global, statement: &AstStmt) -> Result<HashSet<String>, AllocError>
    ensures { IfOk result (λ names. (name : _) → contains_text names name ≡ unused.is_read (statement_of statement.now) name) }
{
    let mut names = HashSet::new(alloc);
    let mut add = |ident: &AstIdent| -> Result<(), AllocError>
        ensures { OnOk result ((name : _) → contains_text names.exit name
            ≡ cond (bytes_eq (string_bytes ident.now.node.ident) name) true (contains_text names.entry name)) }
    { add_name(alloc, ident.node.ident.as_str(), &mut names) };
    statement.node.visit_ident(&mut add)?;
    Ok(names)
}

/// Adds a name.
fn add_name(alloc: Global, name: &str, names: &mut HashSet<String>) -> Result<(), AllocError>
    ensures { OnOk result ((other : _) → contains_text names.new other
        ≡ cond (bytes_eq name.now other) true (contains_text names.old other)) }
{
    names.insert(String::from_str(alloc, name)?)?;
    Ok(())
}

/// Adds the names that a statement binds at the top. What a function binds is its own, and `x += 1` binds no new name.
fn add_bound<'a>(
    names: &mut Vec<&'a AstAssignIdent>,
    statement: &'a AstStmt,
) -> Result<(), AllocError>
    ensures { OnOk result (map (behind name_of) names.new.items
        ≡ map (behind name_of) names.old.items ++ unused.bound_names (statement_of statement.now)) }
{
    match &statement.node {
        Stmt::Load(load) => {
            for arg in &load.args {
                names.push(&arg.local)?;
            }
            Ok(())
        }
        Stmt::Assign(assign) => add_target(names, &assign.lhs),
        Stmt::Def(def) => Ok(names.push(&def.name)?),
        Stmt::For(part) => {
            add_target(names, &part.var)?;
            add_bound(names, &part.body)
        }
        Stmt::If(_, body) => add_bound(names, body),
        Stmt::IfElse(_, branches) => {
            add_bound(names, &branches.0)?;
            add_bound(names, &branches.1)
        }
        Stmt::Statements(parts) => {
            for part in parts {
                add_bound(names, part)?;
            }
            Ok(())
        }
        Stmt::Break
        | Stmt::Continue
        | Stmt::Pass
        | Stmt::Return(_)
        | Stmt::Expression(_)
        | Stmt::AssignModify(_, _, _) => Ok(()),
    }
}

/// Adds the names that a target binds. An element and an attribute bind none.
fn add_target<'a>(
    names: &mut Vec<&'a AstAssignIdent>,
    target: &'a AstAssignTarget,
) -> Result<(), AllocError>
    ensures { OnOk result (map (behind name_of) names.new.items
        ≡ map (behind name_of) names.old.items ++ lvalues (target_of target.now)) }
{
    match &target.node {
        AssignTarget::Identifier(name) => Ok(names.push(name)?),
        AssignTarget::Tuple(parts) => {
            for part in parts {
                add_target(names, part)?;
            }
            Ok(())
        }
        AssignTarget::Index(_) | AssignTarget::Dot(_, _) => Ok(()),
    }
}
