//! Calls that take parts of a tree.
//!
//! A call is made on what the module's own statement is: a definition, a load, the value of an expression statement, or statements
//! one after another. A call that takes a tree is given a clone of it.
use crate::out::{push_refusal, push_span};
use starlark_checks::error::Error;
use starlark_checks::type_expr::type_str_literal_is_wildcard;
use starlark_lexer::codemap::{CodeMap, Span};
use starlark_module::module::AstModule;
use starlark_tree::ast::{AstExpr, AstLiteral, AstNoPayload, AstStmt, DefP, Expr, Load, Stmt};
use std::alloc::{AllocError, Global};

mod arguments;
mod assigned;
mod parameters;
mod texts;
mod types;

/// What the call returns, as text, or out of memory.
type Report = Result<String, AllocError>;

/// Appends what the call returns for a module.
pub fn push_unpacked(out: &mut String, call: &str, module: &AstModule) -> Result<(), AllocError> {
    let report = of_module(*out.allocator(), call, module)?;
    out.push_str(&report)?;
    if report.ends_with('\n') {
        return Ok(());
    }
    out.push('\n')
}

/// What the call returns for a module.
fn of_module(alloc: Global, call: &str, module: &AstModule) -> Report {
    let codemap = module.codemap();
    let statement = module.statement();
    match &statement.node {
        stmt if call == "Stmt::fmt" => texts::report_despite_faults(alloc, stmt),
        stmt if call == "Display::fmt" => texts::report_part(alloc, stmt),
        Stmt::Expression(value) => of_expression(alloc, call, codemap, value),
        Stmt::Statements(parts) if call == "statements" => {
            assigned::report_statements(alloc, parts, statement.span.end())
        }
        Stmt::Statements(parts) => of_statements(alloc, call, codemap, parts),
        Stmt::Def(def) => of_definition(alloc, call, codemap, def),
        Stmt::Load(load) => of_load(alloc, call, load),
        _ => no_call(alloc, call),
    }
}

/// What the call returns for an expression.
fn of_expression(alloc: Global, call: &str, codemap: &CodeMap, value: &AstExpr) -> Report {
    match (call, &value.node) {
        ("CallArgsUnpack::unpack", Expr::Call(_, args)) => arguments::report(alloc, codemap, args),
        ("ArgumentP::name", Expr::Call(_, args)) => arguments::named(alloc, &args.args),
        ("DefParams::unpack", Expr::Lambda(lambda)) => {
            parameters::unpacked(alloc, codemap, &lambda.params)
        }
        ("LambdaP::signature_span", Expr::Lambda(lambda)) => {
            report_place(alloc, lambda.signature_span())
        }
        ("TypeExprUnpackP::unpack", _) => types::report(alloc, codemap, value),
        ("type_str_literal_is_wildcard", Expr::Literal(literal)) => report_wildcard(alloc, literal),
        ("check_assign", _) => assigned::report_target(alloc, codemap, value),
        _ => no_call(alloc, call),
    }
}

/// What the call returns for statements one after another.
fn of_statements(alloc: Global, call: &str, codemap: &CodeMap, parts: &[AstStmt]) -> Report {
    match (call, parts) {
        ("check_assignment", [left, assignment]) => {
            assigned::report_assignment(alloc, codemap, &left.node, &assignment.node)
        }
        _ => no_call(alloc, call),
    }
}

/// What the call returns for a definition.
fn of_definition(alloc: Global, call: &str, codemap: &CodeMap, def: &DefP<AstNoPayload>) -> Report {
    match call {
        "DefParams::unpack" => parameters::unpacked(alloc, codemap, &def.params),
        "ParameterP::split" => parameters::split(alloc, &def.params),
        "ParameterP::ident_mut" => parameters::lettered(alloc, &def.params),
        "DefP::signature_span" => report_place(alloc, def.signature_span()),
        _ => no_call(alloc, call),
    }
}

/// What the call returns for a load: the span of each symbol, without and with the comma after it.
fn of_load(alloc: Global, call: &str, load: &Load) -> Report {
    if call != "LoadArgP::span" {
        return no_call(alloc, call);
    }
    let mut line = String::new(alloc);
    for symbol in &load.args {
        push_span(&mut line, symbol.span())?;
        line.push(' ')?;
        push_span(&mut line, symbol.span_with_trailing_comma())?;
        line.push_str("; ")?;
    }
    Ok(line)
}

fn no_call(alloc: Global, call: &str) -> Report {
    format!(in alloc; "no call on such a tree: {call}")
}

fn report_wildcard(alloc: Global, literal: &AstLiteral) -> Report {
    match literal {
        AstLiteral::String(text) => {
            let answer = type_str_literal_is_wildcard(text.node.as_str());
            format!(in alloc; "{answer}")
        }
        _ => String::from_str(alloc, "no string"),
    }
}

fn report_place(alloc: Global, span: Span) -> Report {
    let mut line = String::new(alloc);
    push_span(&mut line, span)?;
    Ok(line)
}

/// The position of a refusal, and its text.
fn refusal(alloc: Global, error: &Error) -> Report {
    let mut line = String::new(alloc);
    push_refusal(&mut line, error)?;
    Ok(line)
}
