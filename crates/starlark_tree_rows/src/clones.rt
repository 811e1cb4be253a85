//! Clones of parts of a tree that no other call clones.
use starlark_lexer::codemap::{Span, Spanned};
use starlark_parse_held::{HeldArguments, HeldStmt, HeldTree};
use starlark_tree::ast::{
    AstNoPayload, AstStmt, CallArgsP, DefP, Expr, ExprP, LambdaP, Stmt, StmtP,
};
use std::alloc::AllocError;
use std::fmt::Write;

/// Appends the text of a clone of the definition, lambda, literal or arguments that the statement is or contains.
pub fn push_clone(out: &mut String, statement: &AstStmt) -> Result<(), AllocError> {
    match &statement.node {
        Stmt::Def(def) => push_def(out, def, statement.span),
        Stmt::Expression(value) => match &value.node {
            Expr::Lambda(lambda) => push_lambda(out, lambda, value.span),
            Expr::Call(_, args) => push_arguments(out, args),
            Expr::Literal(literal) => writeln!(out, "{}", literal.clone()?),
            _ => out.push_str("no part that is cloned\n"),
        },
        _ => out.push_str("no part that is cloned\n"),
    }
}

fn push_def(out: &mut String, def: &DefP<AstNoPayload>, span: Span) -> Result<(), AllocError> {
    let held = match def.clone() {
        Ok(def) => {
            let node = StmtP::Def(def);
            HeldStmt::new(*out.allocator(), Spanned { node, span })?
        }
        Err(error) => return Err(error),
    };
    write!(out, "{}", held.tree.node)
}

fn push_lambda(
    out: &mut String,
    lambda: &LambdaP<AstNoPayload>,
    span: Span,
) -> Result<(), AllocError> {
    let held = match lambda.clone() {
        Ok(lambda) => HeldTree {
            tree: Spanned {
                node: ExprP::Lambda(lambda),
                span,
            },
        },
        Err(error) => return Err(error),
    };
    writeln!(out, "{}", held.tree.node)
}

fn push_arguments(out: &mut String, args: &CallArgsP<AstNoPayload>) -> Result<(), AllocError> {
    let held = match args.clone() {
        Ok(args) => HeldArguments { trees: args.args },
        Err(error) => return Err(error),
    };
    for argument in &held.trees {
        writeln!(out, "{}", argument.node)?;
    }
    Ok(())
}
