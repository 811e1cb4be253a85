//! Drops statements within a bounded stack, however deep they nest: statements more than [`LEVELS`] deep are cut off first, and
//! dropped after the rest.
ghost use Rattle.std.specs.Prelude.{◌≤◌, ◌+◌};
ghost use Rattle.std.specs.List.{sum_by};
ghost use Rattle.starlark_parse_held.specs.Weight.{parts_weight, statement_weight, weight};

use starlark_tree::ast::{AstStmt, Stmt};
use starlark_tree::discard::{Discard, push};
use std::alloc::Global;
use std::mem;

/// How many levels of nested statements are dropped by recursion.
const LEVELS: u32 = 32;

/// Drops a statement.
#[inline(never)]
pub fn drop_stmt(stmt: AstStmt) {
    let mut stmt = stmt;
    let Some(alloc) = allocator_of_parts(&stmt.node) else {
        stmt.discard();
        return;
    };
    let mut cut_off = Vec::new(alloc);
    cut_parts(&mut stmt.node, LEVELS, &mut cut_off);
    if let Stmt::Statements(parts) = &mut stmt.node {
        drop_last_first(parts);
    }
    stmt.discard();
    drop_cut_off(cut_off);
}

/// Drops the statements of a list, the last one first: those were allocated last, and the allocator joins a block that is
/// freed beside its unused memory with all that was freed before.
fn drop_last_first(stmts: &mut Vec<AstStmt>) {
    while let Some(stmt) = stmts.pop() {
        stmt.discard();
    }
}

/// Drops statements.
pub fn drop_stmts(stmts: Vec<AstStmt>) {
    let mut stmts = stmts;
    let mut cut_off = Vec::new(*stmts.allocator());
    cut_each(&mut stmts, LEVELS, &mut cut_off);
    stmts.discard();
    drop_cut_off(cut_off);
}

/// Drops the statements that were cut off, the last one first, and cuts off what nests deep in them.
fn drop_cut_off(cut_off: Vec<Stmt>) {
    let mut cut_off = cut_off;
    while let Some(stmt) = cut_off.pop() {
        let mut stmt = stmt;
        cut_parts(&mut stmt, LEVELS, &mut cut_off);
        stmt.discard();
    }
    cut_off.destroy_empty();
}

/// The allocator of the statements in this one, if it can hold any.
fn allocator_of_parts(stmt: &Stmt) -> Option<Global> {
    match stmt {
        Stmt::Statements(parts) => Some(*parts.allocator()),
        Stmt::If(_, body) => Some(*Box::allocator(body)),
        Stmt::IfElse(_, branches) => Some(*Box::allocator(branches)),
        Stmt::For(repeated) => Some(*Box::allocator(&repeated.body)),
        Stmt::Def(def) => Some(*Box::allocator(&def.body)),
        Stmt::Break
        | Stmt::Continue
        | Stmt::Pass
        | Stmt::Return(_)
        | Stmt::Expression(_)
        | Stmt::Assign(_)
        | Stmt::AssignModify(..)
        | Stmt::Load(_) => None,
    }
}

/// Cuts off what is more than `levels` levels below a statement.
#[cycle(cut)]
fn cut_parts(stmt: &mut Stmt, levels: u32, cut_off: &mut Vec<Stmt>)
    ensures { sum_by weight cut_off.new.items ≤ sum_by weight cut_off.old.items + parts_weight stmt.old }
{
    match stmt {
        Stmt::Statements(parts) => cut_each(parts, levels, cut_off),
        Stmt::If(_, body) => cut(&mut body.node, levels, cut_off),
        Stmt::IfElse(_, branches) => {
            let (body, other) = &mut **branches;
            cut(&mut body.node, levels, cut_off);
            cut(&mut other.node, levels, cut_off);
        }
        Stmt::For(repeated) => cut(&mut repeated.body.node, levels, cut_off),
        Stmt::Def(def) => cut(&mut def.body.node, levels, cut_off),
        Stmt::Break
        | Stmt::Continue
        | Stmt::Pass
        | Stmt::Return(_)
        | Stmt::Expression(_)
        | Stmt::Assign(_)
        | Stmt::AssignModify(..)
        | Stmt::Load(_) => {}
    }
}

/// Cuts off what is `levels` levels below these statements.
#[cycle(cut)]
fn cut_each(stmts: &mut [AstStmt], levels: u32, cut_off: &mut Vec<Stmt>)
    ensures { sum_by weight cut_off.new.items ≤ sum_by weight cut_off.old.items + sum_by statement_weight stmts.old }
{
    for stmt in stmts.iter_mut() {
        cut(&mut stmt.node, levels, cut_off);
    }
}

/// Cuts off what is `levels` levels below a statement: at level 0 the statement itself.
#[cycle(cut)]
#[inline(always)]
fn cut(stmt: &mut Stmt, levels: u32, cut_off: &mut Vec<Stmt>)
    ensures { sum_by weight cut_off.new.items ≤ sum_by weight cut_off.old.items + weight stmt.old }
{
    if allocator_of_parts(stmt).is_none() {
        return;
    }
    if levels == 0 {
        put_off(mem::replace(stmt, Stmt::Pass), cut_off);
    } else {
        cut_parts(stmt, levels - 1, cut_off);
    }
}

/// Adds a statement to those that are dropped later. If there is no memory for it, it is dropped now, by recursion.
#[inline(never)]
fn put_off(stmt: Stmt, cut_off: &mut Vec<Stmt>)
    ensures { sum_by weight cut_off.new.items ≤ sum_by weight cut_off.old.items + weight stmt }
{
    let _ = push(cut_off, stmt);
}
