//! The first key of a dictionary that has the text of another.
use starlark_lexer::span::Span;
use starlark_tree::ast::{AstExpr, AstLiteral, AstStmt, ExprP};
use starlark_uniplate::uniplate::StmtPVisitAll;
use std::alloc::{AllocError, Global};

/// A key that is a string literal.
#[derive(Drop)]
pub(crate) struct Key {
    pub text: String,
    pub span: Span,
}

/// The first key with the text that the key at this span has, in the dictionary where that is.
pub(crate) fn first_key(
    alloc: Global,
    module: &AstStmt,
    span: Span,
) -> Result<Option<Key>, AllocError> {
    let mut found = None;
    let mut look = |expr: &AstExpr| -> Result<(), AllocError> {
        if found.is_none() {
            found = key_of(alloc, expr, span)?;
        }
        Ok(())
    };
    module.node.visit_all_exprs(&mut look)?;
    Ok(found)
}

/// The first key with the text that the key at this span has, if the expression is its dictionary.
fn key_of(alloc: Global, expr: &AstExpr, span: Span) -> Result<Option<Key>, AllocError> {
    match &expr.node {
        ExprP::Dict(pairs) => equal_key(alloc, pairs, span),
        _ => Ok(None),
    }
}

/// The first key with the text that the key at this span has, if there is one.
fn equal_key(
    alloc: Global,
    pairs: &[(AstExpr, AstExpr)],
    span: Span,
) -> Result<Option<Key>, AllocError> {
    let Some(text) = text_at(pairs, span) else {
        return Ok(None);
    };
    match first_with(pairs, text) {
        Some(span) => Ok(Some(Key {
            text: String::from_str(alloc, text)?,
            span,
        })),
        None => Ok(None),
    }
}

/// The text of the key at this span.
fn text_at(pairs: &[(AstExpr, AstExpr)], span: Span) -> Option<&str> {
    for pair in pairs {
        if pair.0.span == span {
            return string_text(&pair.0);
        }
    }
    None
}

/// Where the first key of this text is.
fn first_with(pairs: &[(AstExpr, AstExpr)], text: &str) -> Option<Span> {
    for pair in pairs {
        if string_text(&pair.0) == Some(text) {
            return Some(pair.0.span);
        }
    }
    None
}

/// The text of an expression that is a string literal.
fn string_text(expr: &AstExpr) -> Option<&str> {
    match &expr.node {
        ExprP::Literal(AstLiteral::String(text)) => Some(text.node.as_str()),
        _ => None,
    }
}
