//! The symbol of a load at a span.
use starlark_lexer::span::Span;
use starlark_passes::outline::top_level_stmts::top_level_stmts;
use starlark_tree::ast::{AstNoPayload, AstStmt, LoadP, StmtP};
use std::alloc::{AllocError, Global};

/// A name that is loaded.
#[derive(Clone, Copy)]
pub(crate) struct Loaded<'a> {
    /// Its name in the module.
    pub name: &'a str,
    /// The file that it is loaded from.
    pub file: &'a str,
}

/// The first symbol of a load at the top of the module that has this span.
pub(crate) fn loaded_at<'a>(
    alloc: Global,
    module: &'a AstStmt,
    span: Span,
) -> Result<Option<Loaded<'a>>, AllocError> {
    let statements = top_level_stmts(alloc, module)?;
    for statement in &statements {
        if let Some(loaded) = loaded_by(statement, span) {
            return Ok(Some(loaded));
        }
    }
    Ok(None)
}

/// The first symbol of the statement that has this span.
fn loaded_by(statement: &AstStmt, span: Span) -> Option<Loaded<'_>> {
    match &statement.node {
        StmtP::Load(load) => symbol_at(load, span),
        _ => None,
    }
}

/// The first symbol of the load that has this span.
fn symbol_at(load: &LoadP<AstNoPayload>, span: Span) -> Option<Loaded<'_>> {
    for symbol in &load.args {
        if symbol.span() == span {
            return Some(Loaded {
                name: symbol.local.node.ident.as_str(),
                file: load.module.node.as_str(),
            });
        }
    }
    None
}
