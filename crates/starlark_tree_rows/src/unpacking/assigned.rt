//! Targets, assignments and statements one after another, made of clones.
use crate::out::push_span;
use crate::unpacking::{Report, refusal};
use starlark_checks::grammar_util::{check_assign, check_assignment, statements};
use starlark_lexer::codemap::{CodeMap, Pos, Span, Spanned};
use starlark_parse_held::{HeldStmt, HeldStmts, HeldTarget, HeldTree, HeldType};
use starlark_tree::ast::{
    AssignOp, AssignTarget, AstAssignTarget, AstExpr, AstStmt, AstTypeExpr, Stmt,
};
use std::alloc::{AllocError, Global};
use std::fmt::Write;

/// The spans of the target that the expression is and of the targets in it, and its text, or the refusal.
pub fn report_target(alloc: Global, codemap: &CodeMap, value: &AstExpr) -> Report {
    let value = held_expr(value)?;
    match check_assign(alloc, codemap, value.into_tree()) {
        Ok(tree) => {
            let held = HeldTarget { tree };
            let mut line = String::new(alloc);
            push_places(&mut line, &held.tree)?;
            write!(line, "{}", held.tree.node)?;
            Ok(line)
        }
        Err(error) => refusal(alloc, &error),
    }
}

/// Appends the spans of the target and of the targets in it.
fn push_places(line: &mut String, target: &AstAssignTarget) -> Result<(), AllocError> {
    push_part(line, target.span)?;
    if let AssignTarget::Tuple(parts) = &target.node {
        for part in parts {
            push_places(line, part)?;
        }
    }
    Ok(())
}

/// Appends the span of a part.
fn push_part(line: &mut String, span: Span) -> Result<(), AllocError> {
    push_span(line, span)?;
    line.push(' ')
}

/// The assignment to the first statement's value of what the second assigns, with its type and its operator.
pub fn report_assignment(
    alloc: Global,
    codemap: &CodeMap,
    left: &Stmt,
    assignment: &Stmt,
) -> Report {
    match (left, assignment) {
        (Stmt::Expression(left), Stmt::Assign(assign)) => {
            let ty = assign.ty.as_ref();
            made(alloc, codemap, left, ty, None, &assign.rhs)
        }
        (Stmt::Expression(left), Stmt::AssignModify(_, op, value)) => {
            made(alloc, codemap, left, None, Some(*op), value)
        }
        _ => String::from_str(alloc, "no assignment"),
    }
}

fn made(
    alloc: Global,
    codemap: &CodeMap,
    left: &AstExpr,
    ty: Option<&AstTypeExpr>,
    op: Option<AssignOp>,
    value: &AstExpr,
) -> Report {
    let span = value.span;
    let left = held_expr(left)?;
    let ty = held_type(alloc, ty)?;
    let value = held_expr(value)?;
    let ty = ty.map(HeldType::into_box);
    match check_assignment(alloc, codemap, left.into_tree(), ty, op, value.into_tree()) {
        Ok(node) => {
            let tree = Spanned { node, span };
            let held = HeldStmt::new(alloc, tree)?;
            report_stmt(alloc, &held.tree.node)
        }
        Err(error) => refusal(alloc, &error),
    }
}

/// The spans of the statement's parts, and its text.
fn report_stmt(alloc: Global, stmt: &Stmt) -> Report {
    let mut line = String::new(alloc);
    match stmt {
        Stmt::Assign(assign) => {
            push_places(&mut line, &assign.lhs)?;
            if let Some(ty) = &assign.ty {
                push_part(&mut line, ty.span)?;
            }
            push_part(&mut line, assign.rhs.span)?;
        }
        Stmt::AssignModify(target, _, value) => {
            push_places(&mut line, target)?;
            push_part(&mut line, value.span)?;
        }
        Stmt::Statements(parts) => {
            for part in parts {
                push_part(&mut line, part.span)?;
            }
        }
        _ => {}
    }
    write!(line, "{stmt}")?;
    Ok(line)
}

/// The statements as one, which ends at that byte: its span and theirs, and its text.
pub fn report_statements(alloc: Global, parts: &[AstStmt], end: Pos) -> Report {
    let held = held_stmts(alloc, parts)?;
    let tree = statements(held.into_trees(), 0, end.get() as usize);
    let held = HeldStmt::new(alloc, tree)?;
    let mut line = String::new(alloc);
    push_part(&mut line, held.tree.span)?;
    line.push_str(report_stmt(alloc, &held.tree.node)?.as_str())?;
    Ok(line)
}

fn held_stmts(alloc: Global, parts: &[AstStmt]) -> Result<HeldStmts, AllocError> {
    let mut held = HeldStmts::new(alloc);
    for part in parts {
        held.push(held_stmt(alloc, part)?)?;
    }
    Ok(held)
}

fn held_expr(expr: &AstExpr) -> Result<HeldTree, AllocError> {
    let span = expr.span;
    match expr.node.clone() {
        Ok(node) => {
            let tree = Spanned { node, span };
            Ok(HeldTree { tree })
        }
        Err(error) => Err(error),
    }
}

fn held_stmt(alloc: Global, stmt: &AstStmt) -> Result<HeldStmt, AllocError> {
    let span = stmt.span;
    match stmt.node.clone() {
        Ok(node) => {
            let tree = Spanned { node, span };
            HeldStmt::new(alloc, tree)
        }
        Err(error) => Err(error),
    }
}

fn held_type(alloc: Global, ty: Option<&AstTypeExpr>) -> Result<Option<HeldType>, AllocError> {
    let Some(ty) = ty else {
        return Ok(None);
    };
    let span = ty.span;
    match ty.node.clone() {
        Ok(node) => {
            let tree = Spanned { node, span };
            Ok(Some(HeldType::new(alloc, tree)?))
        }
        Err(error) => Err(error),
    }
}
