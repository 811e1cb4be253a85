//! Modules of texts, and the calls on them.
use crate::module::flags::dialect_of;
use crate::module::lexeme_lists::push_result;
use crate::module::out::{push_refusal, push_span, push_statement, span_of};
use starlark_lexer::dialect::Dialect;
use starlark_module::module::{AstModule, AstModuleFields};
use starlark_parse_held::statement::HeldStmt;
use std::alloc::{AllocError, Global};
use std::collections::HashMap;
use std::fmt::Write;

/// Appends the result for a text, and the result of the call on its module if it is one.
pub fn push_parsed(
    out: &mut String,
    (name, words): (&str, &str),
    text: &str,
) -> Result<(), AllocError> {
    let alloc = *out.allocator();
    let dialect = match name {
        "parse" => dialect_of(words),
        _ => Dialect::All,
    };
    let content = String::from_str(alloc, text)?;
    match AstModule::parse(alloc, "a.bzl", content, &dialect) {
        Ok(module) => push_of_module(out, (name, words), module),
        Err(error) => push_refusal(out, &error),
    }
}

/// Appends the result of the call on the module.
fn push_of_module(
    out: &mut String,
    (name, words): (&str, &str),
    module: AstModule,
) -> Result<(), AllocError> {
    match name {
        "parse" => push_statement(out, module.statement()),
        "replace" => push_replaced(out, words, module),
        "suppressed" => push_suppressed(out, words, &module),
        "module" => push_fields(out, &module),
        "into_parts" => push_parts(out, module),
        _ => out.push_str("no such call\n"),
    }
}

/// Appends the result for a text of the file and the dialect that the arguments name: its module, or the refusal's position in the file.
pub fn push_named(out: &mut String, words: &str, text: &str) -> Result<(), AllocError> {
    let alloc = *out.allocator();
    let (file, dialect) = words.split_once(' ').unwrap_or((words, ""));
    let content = String::from_str(alloc, text)?;
    let answer = AstModule::parse(alloc, file, content, &dialect_of(dialect));
    if let Err(error) = &answer {
        if let Some(place) = error.span() {
            write!(out, "{place} ")?;
        }
    }
    push_result(out, &answer)
}

/// Appends the print of the module with the operators replaced that the arguments list: `+ p, == eq`. A clone that was made before keeps
/// them. If memory runs out meanwhile, the print shows how many were replaced.
fn push_replaced(out: &mut String, words: &str, module: AstModule) -> Result<(), AllocError> {
    let alloc = *out.allocator();
    let functions = functions_of(alloc, words)?;
    let mut module = module;
    let kept = module.clone()?;
    let before = module.statement().node.to_string(alloc)?;
    if module.replace_binary_operators(alloc, &functions).is_err() {
        out.push_str("out of memory at ")?;
    }
    write!(out, "{}", module.statement().node)?;
    let of_clone = kept.statement().node.to_string(alloc)?;
    if of_clone != before {
        write!(out, "of the clone {of_clone}")?;
    }
    Ok(())
}

fn functions_of(alloc: Global, words: &str) -> Result<HashMap<String, String>, AllocError> {
    let mut functions = HashMap::new(alloc);
    for pair in words.split(", ") {
        if let Some((operator, function)) = pair.rsplit_once(' ') {
            let operator = String::from_str(alloc, operator)?;
            functions.insert(operator, String::from_str(alloc, function)?)?;
        }
    }
    Ok(functions)
}

/// Appends those of the positions after the issue's name at which a comment suppresses it.
fn push_suppressed(out: &mut String, words: &str, module: &AstModule) -> Result<(), AllocError> {
    let (issue, places) = words.split_once(' ').unwrap_or((words, ""));
    for place in places.split(' ') {
        if let Some(span) = span_of(place) {
            if module.is_suppressed(issue, span) {
                push_span(out, span)?;
                out.push(' ')?;
            }
        }
    }
    out.push('\n')
}

/// Appends what is seen of the module: its file, the spans of its tree and of its whole text, its comments, and whether its dialect is
/// that of the call.
fn push_fields(out: &mut String, module: &AstModule) -> Result<(), AllocError> {
    let codemap = module.codemap();
    let place = module.file_span(module.statement().span)?;
    let is_all = *module.dialect() == Dialect::All;
    write!(out, "{} {place} {is_all}", codemap.filename())?;
    for comment in module.comments() {
        out.push(' ')?;
        push_span(out, *comment)?;
    }
    writeln!(out, " {:?}", codemap.source())
}

/// Appends the parts of the module: its file, the span of its tree, whether its dialect is that of the call, and whether its text asks
/// for type checking.
fn push_parts(out: &mut String, module: AstModule) -> Result<(), AllocError> {
    let (codemap, tree, dialect, typecheck) = module.into_parts();
    let held = HeldStmt::new(*out.allocator(), tree)?;
    let is_all = dialect == Dialect::All;
    write!(out, "{} ", codemap.filename())?;
    push_span(out, held.tree.span)?;
    writeln!(out, " {is_all} {typecheck}")
}
