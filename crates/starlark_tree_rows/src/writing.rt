//! Walks that write, and what is left of the tree.
//!
//! Each node that is visited is written: an expression or a type becomes `...`, a statement `pass`, and the letters of a
//! name become capitals. If the argument ends with `by not`, an expression or a type `e` becomes `not e` instead of `...`: that is
//! larger than what was there, and the call has to continue after it.
//!
//! The first text that is left says how many nodes were written, and the print afterwards. A call that may fail is then made
//! with a closure that fails at each node in turn: the call has to stop there, and what is after it is unchanged.
//!
//! A call on a statement is made on the module's own, a call on an expression on the value of an expression statement, a
//! call on a target on what is assigned to, a call on a clause on each of a comprehension, and a call on a parameter on
//! each of a definition.
ghost use Rattle.std.specs.Prelude.{◌≤◌};
ghost use Rattle.starlark_tree.specs.Views.{expression_of};
ghost use Rattle.starlark_uniplate_mut.specs.Types.Types.{types_in};

mod calls;

use crate::writing::calls::{Calls, Left, Stop};
use starlark_module::module::{AstModule, AstModuleFields};
use starlark_parse_held::statement::HeldStmt;
use starlark_passes::outline::top_level_stmts::top_level_stmts_mut;
use starlark_tree::ast::{
    AssignTarget, AstAssignIdent, AstExpr, AstNoPayload, AstParameter, AstStmt, AstTypeExpr, Expr,
    Stmt,
};
use starlark_uniplate_mut::types::StmtPVisitTypesMut;
use starlark_uniplate_mut::uniplate_mut::{
    AssignTargetPVisitMut, ExprPVisitMut, StmtPVisitMut, VisitExprMut, visit_expr_result_mut,
    visit_stmt_result_mut,
};
use std::alloc::{AllocError, Global};
use std::fmt::Write;

/// Appends what a call leaves of clones of a module, one text after the other.
pub fn push_written_by(
    out: &mut String,
    words: &str,
    module: &AstModule,
) -> Result<(), AllocError> {
    let alloc = *out.allocator();
    let (walk, left) = match words.strip_suffix(" by not") {
        Some(walk) => (walk, Left::Not),
        None => (words, Left::Dots),
    };
    let made = push_written(out, walk, module, Calls::new(alloc, left, None))?;
    if may_fail(walk) {
        for last in 0..made {
            let calls = Calls::new(alloc, left, Some(last));
            push_written(out, walk, module, calls)?;
        }
    }
    Ok(())
}

fn may_fail(walk: &str) -> bool {
    match walk {
        "StmtP::visit_children_err_mut" => true,
        "StmtP::visit_type_expr_err_mut" => true,
        "StmtP::visit_stmt_result_mut" => true,
        "StmtP::visit_expr_result_mut" => true,
        "AssignTargetP::visit_lvalue_err_mut" => true,
        "ExprP::visit_expr_err_mut" => true,
        _ => false,
    }
}

/// Appends what a call leaves of a clone of a module, and returns how many calls of the closure were made.
fn push_written(
    out: &mut String,
    walk: &str,
    module: &AstModule,
    mut calls: Calls,
) -> Result<u32, AllocError> {
    let mut held = tree_of(*out.allocator(), module.clone()?)?;
    let end = match write_by(walk, &mut *held.tree, &mut calls) {
        Some(Ok(())) => "written",
        Some(Err(Stop)) => "written, stopped",
        None => "no walk of such a tree",
    };
    if calls.is_out_of_memory {
        return Err(AllocError);
    }
    let made = calls.made;
    write!(out, "{made} {end}: {}", held.tree.node)?;
    if !out.ends_with('\n') {
        out.push('\n')?;
    }
    Ok(made)
}

/// The tree of a module.
fn tree_of(alloc: Global, module: AstModule) -> Result<HeldStmt, AllocError> {
    let (_codemap, tree, _dialect, _typecheck) = module.into_parts();
    HeldStmt::new(alloc, tree)
}

/// Makes a call on a tree, if it has what the call is made on.
fn write_by(walk: &str, statement: &mut AstStmt, calls: &mut Calls) -> Option<Result<(), Stop>> {
    Some(match (walk, &mut statement.node) {
        ("StmtP::visit_expr_mut", stmt) => write_exprs(stmt, calls),
        ("StmtP::visit_stmt_mut", stmt) => write_stmts(stmt, calls),
        ("StmtP::visit_children_mut", stmt) => write_children(stmt, calls),
        ("StmtP::visit_children_err_mut", stmt) => write_children_err(stmt, calls),
        ("StmtP::visit_type_expr_err_mut", stmt) => write_types(stmt, calls),
        ("StmtP::visit_stmt_result_mut", stmt) => write_stmts_err(stmt, calls),
        ("StmtP::visit_expr_result_mut", stmt) => write_stmt_exprs_err(stmt, calls),
        ("ExprP::visit_expr_mut", Stmt::Expression(value)) => write_exprs(&mut value.node, calls),
        ("ExprP::visit_expr_err_mut", Stmt::Expression(value)) => {
            write_exprs_err(&mut value.node, calls)
        }
        ("ClauseP::visit_expr_mut", Stmt::Expression(value)) => write_clauses(
            &mut value.node,
            calls,
        ),
        ("ParameterP::visit_expr_mut", Stmt::Def(def)) => write_each(&mut def.params, calls),
        ("AssignTargetP::visit_expr_mut", Stmt::Assign(assign)) => {
            write_exprs(&mut assign.lhs.node, calls)
        }
        ("AssignTargetP::visit_lvalue_mut", Stmt::Assign(assign)) => {
            write_names(&mut assign.lhs.node, calls)
        }
        ("AssignTargetP::visit_lvalue_err_mut", Stmt::Assign(assign)) => {
            write_names_err(&mut assign.lhs.node, calls)
        }
        ("top_level_stmts_mut", _) => write_top(statement, calls),
        _ => return None,
    })
}

#[tactic(auto, using(crate::proofs::Always::may_always))]
fn write_exprs<T: VisitExprMut<AstNoPayload>>(part: &mut T, calls: &mut Calls) -> Result<(), Stop> {
    let mut write = |expr: &mut AstExpr| {
        let _ = calls.write_expr(expr);
    };
    part.visit_expr_mut(&mut write);
    Ok(())
}

/// Writes the expressions of parameters, one after another.
fn write_each(params: &mut [AstParameter], calls: &mut Calls) -> Result<(), Stop> {
    for param in params.iter_mut() {
        write_exprs(&mut param.node, calls)?;
    }
    Ok(())
}

/// Writes the expressions of the clauses of a comprehension, if it is one of a list.
fn write_clauses(expr: &mut Expr, calls: &mut Calls) -> Result<(), Stop> {
    if let Expr::ListComprehension(_, first, rest) = expr {
        write_exprs(&mut **first, calls)?;
        for clause in rest.iter_mut() {
            write_exprs(clause, calls)?;
        }
    }
    Ok(())
}

#[tactic(auto, using(crate::proofs::Always::may_always))]
fn write_exprs_err(part: &mut Expr, calls: &mut Calls) -> Result<(), Stop> {
    let mut write = |expr: &mut AstExpr| -> Result<(), Stop> { calls.write_expr(expr) };
    part.visit_expr_err_mut(&mut write)
}

#[tactic(auto, using(crate::proofs::Always::may_always))]
fn write_names(target: &mut AssignTarget, calls: &mut Calls) -> Result<(), Stop> {
    let mut write = |name: &mut AstAssignIdent| {
        name.node.ident.make_ascii_uppercase();
        let _ = calls.count();
    };
    target.visit_lvalue_mut(&mut write);
    Ok(())
}

#[tactic(auto, using(crate::proofs::Always::may_always))]
fn write_stmts(part: &mut Stmt, calls: &mut Calls) -> Result<(), Stop> {
    let mut write = |stmt: &mut AstStmt| {
        let _ = calls.write_stmt(stmt);
    };
    part.visit_stmt_mut(&mut write);
    Ok(())
}

#[tactic(auto, using(crate::proofs::Always::may_always))]
fn write_stmts_err(part: &mut Stmt, calls: &mut Calls) -> Result<(), Stop> {
    let mut write = |stmt: &mut AstStmt| -> Result<(), Stop> { calls.write_stmt(stmt) };
    visit_stmt_result_mut(part, &mut write)
}

#[tactic(auto, using(crate::proofs::Always::may_always))]
fn write_stmt_exprs_err(part: &mut Stmt, calls: &mut Calls) -> Result<(), Stop> {
    let mut write = |expr: &mut AstExpr| -> Result<(), Stop> { calls.write_expr(expr) };
    visit_expr_result_mut(part, &mut write)
}

#[tactic(auto, using(crate::proofs::Always::may_always))]
fn write_names_err(target: &mut AssignTarget, calls: &mut Calls) -> Result<(), Stop> {
    let mut write = |name: &mut AstAssignIdent| -> Result<(), Stop> {
        name.node.ident.make_ascii_uppercase();
        calls.count()
    };
    target.visit_lvalue_err_mut(&mut write)
}

#[tactic(auto, using(crate::proofs::Always::may_always))]
fn write_top(part: &mut AstStmt, calls: &mut Calls) -> Result<(), Stop> {
    let mut write = |stmt: &mut AstStmt| {
        let _ = calls.write_stmt(stmt);
    };
    top_level_stmts_mut(part, &mut write);
    Ok(())
}

fn write_types(part: &mut Stmt, calls: &mut Calls) -> Result<(), Stop> {
    let mut write = |ty: &mut AstTypeExpr| -> Result<(), Stop>
        ensures { types_in (expression_of ty.new.node.expr) ≤ types_in (expression_of ty.old.node.expr) }
    { calls.write_expr(&mut ty.node.expr) };
    part.visit_type_expr_err_mut(&mut write)
}

#[tactic(auto, using(crate::proofs::Always::may_write_children))]
fn write_children(part: &mut Stmt, calls: &mut Calls) -> Result<(), Stop> {
    part.visit_children_mut(calls);
    Ok(())
}

#[tactic(auto, using(crate::proofs::Always::may_write_children))]
fn write_children_err(part: &mut Stmt, calls: &mut Calls) -> Result<(), Stop> {
    part.visit_children_err_mut(calls)
}
