//! The documentation of a file: its functions, what each accepts, and what each says about itself.
ghost use Rattle.std.specs.Prelude.{◌≡◌, ◌++◌, IfOk, OnOk, flat_map, map, option_map};
ghost use Rattle.starlark_examples.specs.Documentation.{docstring, documented, function_of, string_alone, text_of};
ghost use Rattle.starlark_syntax.specs.outline.Outline.{top_statements};
ghost use Rattle.starlark_syntax.specs.tree.Views.{form_seen, statement_of};

use crate::parsed;
use starlark_syntax::Error;
use starlark_syntax::codemap::CodeMap;
use starlark_syntax::syntax::AstModule;
use starlark_syntax::syntax::ast::{AstLiteral, AstNoPayload, AstStmt, Expr, Stmt};
use starlark_syntax::syntax::def::{DefParam, DefParamKind, DefParams, DefRegularParamMode};
use starlark_syntax::syntax::top_level_stmts::top_level_stmts;
use std::alloc::{AllocError, Global};
use std::fmt::Write;

/// A function at the top of a file.
#[derive(Drop)]
struct Function<'a> {
    name: &'a str,
    params: DefParams<'a, AstNoPayload>,
    /// The first statement of its body, if that is a string.
    docstring: Option<&'a str>,
}

/// The documentation of a text: of each function a line with its name, the first line of its docstring, and a line for
/// each parameter.
pub fn report(alloc: Global, text: &str) -> Result<String, Error> {
    let module = parsed(alloc, text)?;
    let mut out = String::new(alloc);
    for function in &functions(alloc, &module)? {
        writeln!(out, "{}", function.name)?;
        if let Some(text) = function.docstring {
            writeln!(out, "    {}", first_line(text))?;
        }
        for param in &function.params.params {
            add_parameter(&mut out, &param.node)?;
        }
    }
    Ok(out)
}

/// The functions at the top of a module, in order.
fn functions<'a>(alloc: Global, ast: &'a AstModule) -> Result<Vec<Function<'a>>, Error>
    ensures { IfOk result (λ found. map function_of found.items ≡ flat_map documented (top_statements (statement_of ast.now.statement))) }
{
    let mut found = Vec::new(alloc);
    for statement in &top_level_stmts(alloc, ast.statement())? {
        add_function(alloc, &mut found, statement, ast.codemap())?;
    }
    Ok(found)
}

/// Adds the function that a statement defines, if it is a definition.
fn add_function<'a>(
    alloc: Global,
    found: &mut Vec<Function<'a>>,
    statement: &'a AstStmt,
    codemap: &CodeMap,
) -> Result<(), Error>
    ensures { OnOk result (map function_of found.new.items ≡ map function_of found.old.items ++ documented (statement_of statement.now)) }
{
    match &statement.node {
        Stmt::Def(def) => {
            let params = DefParams::unpack(alloc, &def.params, codemap)?;
            found.push(Function {
                name: def.name.node.ident.as_str(),
                params,
                docstring: docstring(&def.body.node),
            })?;
            Ok(())
        }
        _ => Ok(()),
    }
}

/// The docstring of a function's body: its first statement, if that is a string.
fn docstring(body: &Stmt) -> Option<&str>
    ensures { option_map text_of result ≡ docstring (form_seen body.now) }
{
    match body {
        Stmt::Statements(parts) => string_alone(&parts.first()?.node),
        alone => string_alone(alone),
    }
}

/// The text of a statement that is a string.
fn string_alone(statement: &Stmt) -> Option<&str>
    ensures { option_map text_of result ≡ string_alone (form_seen statement.now) }
{
    match statement {
        Stmt::Expression(value) => match &value.node {
            Expr::Literal(AstLiteral::String(text)) => Some(text.node.as_str()),
            _ => None,
        },
        _ => None,
    }
}

/// The first line that is not blank, without the whitespace around it.
fn first_line(text: &str) -> &str {
    text.trim().lines().next().unwrap_or("").trim_end()
}

/// Adds the line of a parameter. Its type and its default value are as the tree prints them: the span of what is in
/// parentheses does not include these, so the file's own text would lack those of a tuple.
fn add_parameter(out: &mut String, param: &DefParam<'_, AstNoPayload>) -> Result<(), AllocError> {
    let stars = match &param.kind {
        DefParamKind::Regular(_, _) => "",
        DefParamKind::Args => "*",
        DefParamKind::Kwargs => "**",
    };
    write!(out, "    - {stars}{}", param.ident.node.ident)?;
    if let Some(ty) = param.ty {
        write!(out, ": {}", ty.node)?;
    }
    if let DefParamKind::Regular(mode, default) = &param.kind {
        if let Some(default) = default {
            write!(out, " = {}", default.node)?;
        }
        out.push_str(passed(*mode))?;
    }
    writeln!(out)
}

/// How an argument has to be passed, if there is only one way.
fn passed(mode: DefRegularParamMode) -> &'static str {
    match mode {
        DefRegularParamMode::PosOnly => ", by position",
        DefRegularParamMode::PosOrName => "",
        DefRegularParamMode::NameOnly => ", by name",
    }
}
