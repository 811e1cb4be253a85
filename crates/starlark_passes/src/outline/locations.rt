//! Where statements are.
ghost use Rattle.std.specs.Prelude.{◌≡◌, [], ◌∷◌, ◌++◌, IfOk, OnOk, map};
ghost use Rattle.starlark_lexer.specs.Tokens.{span_of};
ghost use Rattle.starlark_passes.specs.Outline.Outline.{locations};
ghost use Rattle.starlark_passes.specs.Outline.Listed.{in_file, file_and_span};
ghost use Rattle.starlark_tree.specs.Views.{statement_of};

use starlark_lexer::codemap::{CodeMap, FileSpan, Span};
use starlark_tree::ast::{AstStmt, Stmt};
use std::alloc::{AllocError, Global};

/// The spans, in byte offsets, of all statements except lists of statements, in order, each before what it contains.
///
/// Fails if an allocation fails, or the code map has too many clones to count.
pub fn stmt_locations(
    alloc: Global,
    codemap: &CodeMap,
    top: &AstStmt,
) -> Result<Vec<FileSpan>, AllocError>
    ensures { IfOk result (λ found. map file_and_span found.items ≡ map (in_file codemap.now) (locations (statement_of top.now))) }
{
    let mut found = Vec::new(alloc);
    add_locations(codemap, top, &mut found)?;
    Ok(found)
}

/// Adds the spans of a statement and of those in it.
fn add_locations(
    codemap: &CodeMap,
    statement: &AstStmt,
    found: &mut Vec<FileSpan>,
) -> Result<(), AllocError>
    ensures { OnOk result (map file_and_span found.new.items ≡ map file_and_span found.old.items
        ++ map (in_file codemap.now) (locations (statement_of statement.now))) }
{
    match &statement.node {
        Stmt::Statements(parts) => {
            for part in parts {
                add_locations(codemap, part, found)?;
            }
            Ok(())
        }
        Stmt::If(_, body) => {
            add_location(codemap, statement.span, found)?;
            add_locations(codemap, body, found)
        }
        Stmt::IfElse(_, branches) => {
            add_location(codemap, statement.span, found)?;
            add_locations(codemap, &branches.0, found)?;
            add_locations(codemap, &branches.1, found)
        }
        Stmt::For(part) => {
            add_location(codemap, statement.span, found)?;
            add_locations(codemap, &part.body, found)
        }
        Stmt::Def(part) => {
            add_location(codemap, statement.span, found)?;
            add_locations(codemap, &part.body, found)
        }
        _ => add_location(codemap, statement.span, found),
    }
}

/// Adds one span.
fn add_location(codemap: &CodeMap, span: Span, found: &mut Vec<FileSpan>) -> Result<(), AllocError>
    ensures { OnOk result (map file_and_span found.new.items ≡ map file_and_span found.old.items ++ in_file codemap.now (span_of span) ∷ []) }
{
    found.push(codemap.file_span(span)?)?;
    Ok(())
}
