//! Statements, and targets, types and parameters.
use crate::maps::Calls;
use starlark_lexer::codemap::{Span, Spanned};
use starlark_parse_held::{HeldParameter, HeldStmt, HeldTarget, HeldType};
use starlark_payload::payload_map::same::{map_load_to_itself, map_stmt_to_itself};
use starlark_payload::payload_map::{
    AssignPMap, AssignTargetPExt, AssignTargetPMap, ForPMap, LoadPMap, ParameterPExt,
    ParameterPMap, StmtPExt, StmtPMap, TypeExprPExt, TypeExprPMap,
};
use starlark_tree::ast::{
    AssignP, AstAssignTarget, AstNoPayload, AstParameter, AstStmt, AstTypeExpr, ForP, Load, Stmt,
    StmtP,
};
use std::alloc::{AllocError, Global};

/// A held statement, or out of memory.
type Mapped = Result<HeldStmt, AllocError>;

/// Appends what the call returns for the statement, or for the load, the assignment or the loop that it is.
pub fn push_stmt(out: &mut String, name: &str, stmt: &AstStmt) -> Result<(), AllocError> {
    let mut calls = Calls::new(*out.allocator());
    let span = stmt.span;
    let mapped = match (name, &stmt.node) {
        ("LoadPMap" | "map_load_to_itself", StmtP::Load(load)) => {
            load_mapped(name, load, span, &mut calls)
        }
        ("AssignPMap", StmtP::Assign(assign)) => assign_mapped(assign, span, &mut calls),
        ("ForPMap", StmtP::For(each)) => for_mapped(each, span, &mut calls),
        ("StmtPExt", node) => spanned_mapped(node, span, &mut calls),
        (_, node) => stmt_mapped(name, node, span, &mut calls),
    };
    calls.push(out, &mapped?.tree.node)
}

fn held(alloc: Global, node: Stmt, span: Span) -> Mapped {
    HeldStmt::new(alloc, Spanned { node, span })
}

fn load_mapped(name: &str, load: &Load, span: Span, calls: &mut Calls) -> Mapped {
    let alloc = calls.alloc;
    let mapped = match load.clone() {
        Ok(load) => match name {
            "LoadPMap" => load.into_map_payload(alloc, calls),
            _ => map_load_to_itself(alloc, load, calls),
        },
        Err(error) => Err(error),
    };
    match mapped {
        Ok(load) => held(calls.alloc, StmtP::Load(load), span),
        Err(error) => Err(error),
    }
}

fn assign_mapped(assign: &AssignP<AstNoPayload>, span: Span, calls: &mut Calls) -> Mapped {
    let mapped = match assign.clone() {
        Ok(assign) => assign.into_map_payload(calls.alloc, calls),
        Err(error) => Err(error),
    };
    match mapped {
        Ok(assign) => held(calls.alloc, StmtP::Assign(assign), span),
        Err(error) => Err(error),
    }
}

fn for_mapped(each: &ForP<AstNoPayload>, span: Span, calls: &mut Calls) -> Mapped {
    let mapped = match each.clone() {
        Ok(each) => each.into_map_payload(calls.alloc, calls),
        Err(error) => Err(error),
    };
    match mapped {
        Ok(each) => held(calls.alloc, StmtP::For(each), span),
        Err(error) => Err(error),
    }
}

fn stmt_mapped(name: &str, stmt: &Stmt, span: Span, calls: &mut Calls) -> Mapped {
    let alloc = calls.alloc;
    let mapped = match stmt.clone() {
        Ok(stmt) => match name {
            "StmtPMap" => stmt.into_map_payload(alloc, calls),
            _ => map_stmt_to_itself(alloc, stmt, calls),
        },
        Err(error) => Err(error),
    };
    match mapped {
        Ok(node) => held(calls.alloc, node, span),
        Err(error) => Err(error),
    }
}

fn spanned_mapped(stmt: &Stmt, span: Span, calls: &mut Calls) -> Mapped {
    let mapped = match stmt.clone() {
        Ok(node) => Spanned { node, span }.into_map_payload(calls.alloc, calls),
        Err(error) => Err(error),
    };
    match mapped {
        Ok(tree) => HeldStmt::new(calls.alloc, tree),
        Err(error) => Err(error),
    }
}

/// Appends what the call returns for the target.
pub fn push_target(
    out: &mut String,
    name: &str,
    target: &AstAssignTarget,
) -> Result<(), AllocError> {
    let mut calls = Calls::new(*out.allocator());
    let (alloc, span) = (calls.alloc, target.span);
    let mapped = match target.node.clone() {
        Ok(node) => match name {
            "AssignTargetPMap" => with_span(node.into_map_payload(alloc, &mut calls), span),
            _ => Spanned { node, span }.into_map_payload(alloc, &mut calls),
        },
        Err(error) => Err(error),
    };
    match mapped {
        Ok(tree) => calls.push(out, &HeldTarget { tree }.tree.node),
        Err(error) => Err(error),
    }
}

/// Appends what the call returns for the type.
pub fn push_type(out: &mut String, name: &str, ty: &AstTypeExpr) -> Result<(), AllocError> {
    let mut calls = Calls::new(*out.allocator());
    let (alloc, span) = (calls.alloc, ty.span);
    let mapped = match ty.node.clone() {
        Ok(node) => match name {
            "TypeExprPMap" => with_span(node.into_map_payload(alloc, &mut calls), span),
            _ => Spanned { node, span }.into_map_payload(alloc, &mut calls),
        },
        Err(error) => Err(error),
    };
    match mapped {
        Ok(tree) => calls.push(out, &HeldType::new(alloc, tree)?.tree.node),
        Err(error) => Err(error),
    }
}

/// Appends what the call returns for the parameter.
pub fn push_parameter(
    out: &mut String,
    name: &str,
    param: &AstParameter,
) -> Result<(), AllocError> {
    let mut calls = Calls::new(*out.allocator());
    let (alloc, span) = (calls.alloc, param.span);
    let mapped = match param.node.clone() {
        Ok(node) => match name {
            "ParameterPMap" => with_span(node.into_map_payload(alloc, &mut calls), span),
            _ => Spanned { node, span }.into_map_payload(alloc, &mut calls),
        },
        Err(error) => Err(error),
    };
    match mapped {
        Ok(tree) => calls.push(out, &HeldParameter { tree }.tree.node),
        Err(error) => Err(error),
    }
}

/// What was mapped, at the span.
pub fn with_span<T>(mapped: Result<T, AllocError>, span: Span) -> Result<Spanned<T>, AllocError> {
    match mapped {
        Ok(node) => Ok(Spanned { node, span }),
        Err(error) => Err(error),
    }
}
