//! Expressions, and arguments, clauses and f-strings.
use crate::maps::Calls;
use crate::maps::statements::with_span;
use starlark_lexer::codemap::{Span, Spanned};
use starlark_parse_held::{HeldArgument, HeldForClause, HeldTree};
use starlark_payload::payload_map::same::map_expr_to_itself;
use starlark_payload::payload_map::{
    ArgumentPExt, ArgumentPMap, ClausePMap, ExprPExt, ExprPMap, FStringPExt, FStringPMap,
    ForClausePMap,
};
use starlark_tree::ast::{AstArgument, AstExpr, AstFString, Clause, Expr, ExprP, ForClause};
use std::alloc::AllocError;

/// A held expression, or out of memory.
type Mapped = Result<HeldTree, AllocError>;

/// Appends what the call returns for the expression, for each of its arguments or clauses, or for the f-string that it is.
pub fn push_expr(out: &mut String, name: &str, value: &AstExpr) -> Result<(), AllocError> {
    match (name, &value.node) {
        ("ArgumentPMap" | "ArgumentPExt", Expr::Call(_, args)) => {
            for argument in &args.args {
                push_argument(out, name, argument)?;
            }
            Ok(())
        }
        ("ForClausePMap", Expr::ListComprehension(_, first, _)) => push_for(out, first),
        ("ClausePMap", Expr::ListComprehension(_, _, others)) => {
            for clause in others {
                push_clause(out, clause)?;
            }
            Ok(())
        }
        _ => push_mapped(out, name, value),
    }
}

fn push_mapped(out: &mut String, name: &str, value: &AstExpr) -> Result<(), AllocError> {
    let mut calls = Calls::new(*out.allocator());
    let mapped = match (name, &value.node) {
        ("FStringPMap" | "FStringPExt", Expr::FString(text)) => {
            format_mapped(name, text, value.span, &mut calls)
        }
        ("ExprPExt", node) => spanned_mapped(node, value.span, &mut calls),
        (_, node) => expr_mapped(name, node, value.span, &mut calls),
    };
    calls.push(out, &mapped?.tree.node)
}

fn held(node: Expr, span: Span) -> HeldTree {
    HeldTree {
        tree: Spanned { node, span },
    }
}

fn expr_mapped(name: &str, expr: &Expr, span: Span, calls: &mut Calls) -> Mapped {
    let alloc = calls.alloc;
    let mapped = match expr.clone() {
        Ok(expr) => match name {
            "ExprPMap" => expr.into_map_payload(alloc, calls),
            _ => map_expr_to_itself(alloc, expr, calls),
        },
        Err(error) => Err(error),
    };
    match mapped {
        Ok(node) => Ok(held(node, span)),
        Err(error) => Err(error),
    }
}

fn spanned_mapped(expr: &Expr, span: Span, calls: &mut Calls) -> Mapped {
    let mapped = match expr.clone() {
        Ok(node) => Spanned { node, span }.into_map_payload(calls.alloc, calls),
        Err(error) => Err(error),
    };
    match mapped {
        Ok(tree) => Ok(HeldTree { tree }),
        Err(error) => Err(error),
    }
}

fn format_mapped(name: &str, text: &AstFString, span: Span, calls: &mut Calls) -> Mapped {
    let alloc = calls.alloc;
    let mapped = match text.node.clone() {
        Ok(node) => match name {
            "FStringPMap" => with_span(node.into_map_payload(alloc, calls), text.span),
            _ => {
                let text = Spanned {
                    node,
                    span: text.span,
                };
                text.into_map_payload(alloc, calls)
            }
        },
        Err(error) => Err(error),
    };
    match mapped {
        Ok(text) => Ok(held(ExprP::FString(text), span)),
        Err(error) => Err(error),
    }
}

fn push_argument(out: &mut String, name: &str, argument: &AstArgument) -> Result<(), AllocError> {
    let mut calls = Calls::new(*out.allocator());
    let (alloc, span) = (calls.alloc, argument.span);
    let mapped = match argument.node.clone() {
        Ok(node) => match name {
            "ArgumentPMap" => with_span(node.into_map_payload(alloc, &mut calls), span),
            _ => Spanned { node, span }.into_map_payload(alloc, &mut calls),
        },
        Err(error) => Err(error),
    };
    match mapped {
        Ok(tree) => calls.push(out, &HeldArgument { tree }.tree.node),
        Err(error) => Err(error),
    }
}

fn push_for(out: &mut String, clause: &ForClause) -> Result<(), AllocError> {
    let mut calls = Calls::new(*out.allocator());
    let mapped = match clause.clone() {
        Ok(clause) => clause.into_map_payload(calls.alloc, &mut calls),
        Err(error) => Err(error),
    };
    match mapped {
        Ok(tree) => calls.push(out, &HeldForClause { tree }.tree),
        Err(error) => Err(error),
    }
}

fn push_clause(out: &mut String, clause: &Clause) -> Result<(), AllocError> {
    let mut calls = Calls::new(*out.allocator());
    let mapped = match clause.clone() {
        Ok(clause) => clause.into_map_payload(calls.alloc, &mut calls),
        Err(error) => Err(error),
    };
    match mapped {
        Ok(Clause::For(tree)) => calls.push(out, &HeldForClause { tree }.tree),
        Ok(Clause::If(tree)) => calls.push(out, &HeldTree { tree }.tree.node),
        Err(error) => Err(error),
    }
}
