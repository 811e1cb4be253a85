//! The parameters of a function or lambda.
use crate::out::push_span;
use crate::unpacking::{Report, refusal};
use starlark_checks::def::{
    DefParam, DefParamIndices, DefParamKind, DefParams, DefRegularParamMode,
};
use starlark_lexer::codemap::{CodeMap, Spanned};
use starlark_parse_held::HeldParameter;
use starlark_tree::ast::{AstNoPayload, AstParameter, Expr, Parameter};
use std::alloc::{AllocError, Global};
use std::fmt::{Display, Write};

/// The parameters by how they are passed, and how they are divided, or the refusal.
pub fn unpacked(alloc: Global, codemap: &CodeMap, params: &[AstParameter]) -> Report {
    match DefParams::unpack(alloc, params, codemap) {
        Ok(params) => report_parts(alloc, &params),
        Err(error) => refusal(alloc, &error),
    }
}

fn report_parts(alloc: Global, params: &DefParams<'_, AstNoPayload>) -> Report {
    let mut line = String::new(alloc);
    for param in &params.params {
        push_span(&mut line, param.span)?;
        push_param(&mut line, &param.node)?;
    }
    push_indices(&mut line, &params.indices, params.params.len())?;
    Ok(line)
}

/// Appends the name, how it is passed, and what it has.
fn push_param(line: &mut String, param: &DefParam<'_, AstNoPayload>) -> Result<(), AllocError> {
    write!(line, " {} {}", param.ident.node, word(&param.kind))?;
    push_part(line, param.ty)?;
    if let DefParamKind::Regular(_, default) = &param.kind {
        push_part(line, *default)?;
    }
    line.push_str("; ")
}

/// How the parameter is passed.
fn word(kind: &DefParamKind<'_, AstNoPayload>) -> &'static str {
    match kind {
        DefParamKind::Regular(mode, _) => match mode {
            DefRegularParamMode::PosOnly => "by position",
            DefRegularParamMode::PosOrName => "by either",
            DefRegularParamMode::NameOnly => "by name",
        },
        DefParamKind::Args => "args",
        DefParamKind::Kwargs => "kwargs",
    }
}

/// Appends the part, or `-` if there is none.
fn push_part<T: Display>(line: &mut String, part: Option<&Spanned<T>>) -> Result<(), AllocError> {
    match part {
        Some(part) => write!(line, " {}", part.node),
        None => line.push_str(" -"),
    }
}

/// Appends the numbers, and the ranges of those that are passed by position, by either and by name.
fn push_indices(
    line: &mut String,
    indices: &DefParamIndices,
    count: usize,
) -> Result<(), AllocError> {
    let (positional, alone) = (indices.num_positional, indices.num_positional_only);
    let (args, kwargs) = (indices.args, indices.kwargs);
    write!(line, "{positional} {alone} {args:?} {kwargs:?}")?;
    for part in [
        indices.pos_only(),
        indices.pos_or_named(),
        indices.named_only(count),
    ] {
        write!(line, " {}..{}", part.start, part.end)?;
    }
    Ok(())
}

/// The name, the type and the default value of each entry.
pub fn split(alloc: Global, params: &[AstParameter]) -> Report {
    let mut line = String::new(alloc);
    for param in params {
        push_span(&mut line, param.span)?;
        let (_, ty, default) = param.node.split();
        push_part(&mut line, param.node.ident())?;
        push_part(&mut line, ty)?;
        push_part(&mut line, default)?;
        line.push_str("; ")?;
    }
    Ok(line)
}

/// A clone of each entry with a letter after its name, and after its type and default value if these are names.
pub fn lettered(alloc: Global, params: &[AstParameter]) -> Report {
    let mut line = String::new(alloc);
    for param in params {
        let mut held = held(param)?;
        push_letters(&mut held.tree.node)?;
        write!(line, "{}; ", held.tree.node)?;
    }
    Ok(line)
}

fn held(param: &AstParameter) -> Result<HeldParameter, AllocError> {
    let span = param.span;
    match param.node.clone() {
        Ok(node) => {
            let tree = Spanned { node, span };
            Ok(HeldParameter { tree })
        }
        Err(error) => Err(error),
    }
}

fn push_letters(param: &mut Parameter) -> Result<(), AllocError> {
    if let Some(name) = param.ident_mut() {
        name.node.ident.push('z')?;
    }
    if let Some(ty) = param.type_mut() {
        push_letter(&mut ty.node.expr.node)?;
    }
    if let Some(default) = param.default_mut() {
        push_letter(&mut default.node)?;
    }
    Ok(())
}

/// Appends a letter if the expression is a name.
fn push_letter(expr: &mut Expr) -> Result<(), AllocError> {
    match expr {
        Expr::Identifier(name) => name.node.ident.push('z'),
        _ => Ok(()),
    }
}
