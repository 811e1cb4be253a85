//! The arguments of a call by their kinds.
use crate::out::push_span;
use crate::unpacking::{Report, refusal};
use starlark_checks::call::CallArgsUnpack;
use starlark_lexer::codemap::CodeMap;
use starlark_tree::ast::{AstArgument, AstNoPayload, CallArgsP};
use std::alloc::{AllocError, Global};
use std::fmt::Write;

/// The arguments, each after the name of its kind, or the refusal.
pub fn report(alloc: Global, codemap: &CodeMap, args: &CallArgsP<AstNoPayload>) -> Report {
    match CallArgsUnpack::unpack(alloc, args, codemap) {
        Ok(parts) => report_parts(alloc, &parts),
        Err(error) => refusal(alloc, &error),
    }
}

fn report_parts(alloc: Global, parts: &CallArgsUnpack<'_, AstNoPayload>) -> Report {
    let mut line = String::new(alloc);
    push_arguments(&mut line, "positional", parts.pos)?;
    push_arguments(&mut line, "named", parts.named)?;
    if let Some(argument) = parts.star {
        push_argument(&mut line, "star", argument)?;
    }
    if let Some(argument) = parts.star_star {
        push_argument(&mut line, "star_star", argument)?;
    }
    Ok(line)
}

fn push_arguments(line: &mut String, word: &str, args: &[AstArgument]) -> Result<(), AllocError> {
    for argument in args {
        push_argument(line, word, argument)?;
    }
    Ok(())
}

/// Appends the name of the kind, the span of the argument, and its text.
fn push_argument(line: &mut String, word: &str, argument: &AstArgument) -> Result<(), AllocError> {
    write!(line, "{word} ")?;
    push_span(line, argument.span)?;
    write!(line, " {}; ", argument.node)
}

/// The name of each argument, or `-` if it has none, and its value.
pub fn named(alloc: Global, args: &[AstArgument]) -> Report {
    let mut line = String::new(alloc);
    for argument in args {
        let name = argument.node.name().unwrap_or("-");
        write!(line, "{name} {}; ", argument.node.expr().node)?;
    }
    Ok(line)
}
