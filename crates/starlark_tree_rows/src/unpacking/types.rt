//! Types that expressions are read as.
use crate::out::push_span;
use crate::unpacking::{Report, refusal};
use starlark_checks::type_expr::{TypeExprUnpackP, TypePathP};
use starlark_lexer::codemap::{CodeMap, Spanned};
use starlark_tree::ast::{AstExpr, AstNoPayload};
use std::alloc::{AllocError, Global};

/// A type of a tree without payload.
type Unpacked<'a> = Spanned<TypeExprUnpackP<'a, AstNoPayload>>;

/// The type that the expression is read as, or the refusal.
pub fn report(alloc: Global, codemap: &CodeMap, value: &AstExpr) -> Report {
    match TypeExprUnpackP::unpack(alloc, value, codemap) {
        Ok(ty) => report_type(alloc, &ty),
        Err(error) => refusal(alloc, &error),
    }
}

fn report_type(alloc: Global, ty: &Unpacked) -> Report {
    let mut line = String::new(alloc);
    push_type(&mut line, ty)?;
    Ok(line)
}

/// Appends the span of the type, and what it is.
#[cycle(show)]
fn push_type(line: &mut String, ty: &Unpacked) -> Result<(), AllocError> {
    push_span(line, ty.span)?;
    line.push(' ')?;
    match &ty.node {
        TypeExprUnpackP::Ellipsis => line.push_str("..."),
        TypeExprUnpackP::Path(path) => push_path(line, path),
        TypeExprUnpackP::Index(name, index) => {
            line.push_str(name.node.ident.as_str())?;
            line.push('[')?;
            push_type(line, index)?;
            line.push(']')
        }
        TypeExprUnpackP::Index2(path, first, second) => {
            push_path(line, &path.node)?;
            line.push('[')?;
            push_type(line, first)?;
            line.push_str(", ")?;
            push_type(line, second)?;
            line.push(']')
        }
        TypeExprUnpackP::List(items) => push_types(line, "List", items),
        TypeExprUnpackP::Union(items) => push_types(line, "Union", items),
        TypeExprUnpackP::Tuple(items) => push_types(line, "Tuple", items),
    }
}

/// Appends the name and the types.
#[cycle(show)]
fn push_types(line: &mut String, word: &str, items: &[Unpacked]) -> Result<(), AllocError> {
    line.push_str(word)?;
    for item in items {
        line.push_str(" <")?;
        push_type(line, item)?;
        line.push('>')?;
    }
    Ok(())
}

fn push_path(line: &mut String, path: &TypePathP<AstNoPayload>) -> Result<(), AllocError> {
    line.push_str(path.first.node.ident.as_str())?;
    for name in &path.rem {
        line.push('.')?;
        line.push_str(name.node)?;
    }
    Ok(())
}
