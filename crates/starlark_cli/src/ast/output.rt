//! What each mode prints of a module.
ghost use Rattle.std.specs.Prelude.{◌≡◌, ◌++◌, IfOk, OnOk, codes, flat_map, map, string_bytes};
ghost use Rattle.starlark_lexer.specs.Tokens.{span_of};
ghost use Rattle.starlark_cli.specs.Ast.Output.{comment_line, issue_line, load_line, location_line, Writes, WritesIssues};
ghost use Rattle.starlark_module.specs.Comments.Building.{suppressions_in};
ghost use Rattle.starlark_passes.specs.Lint.Found.{issue_of};
ghost use Rattle.starlark_passes.specs.Outline.Listed.{listed};
ghost use Rattle.starlark_passes.specs.Outline.Outline.{loads, locations};
ghost use Rattle.starlark_tree.specs.Printing.{statement_text};
ghost use Rattle.starlark_tree.specs.Views.{statement_of};

use crate::ast::request::Mode;
use crate::ast::stop::Stop;
use crate::symbols::add_symbols;
use starlark_lexer::codemap::{CodeMap, FileSpan, Span};
use starlark_module::lint::{Issue, lint};
use starlark_module::module::AstModule;
use starlark_passes::outline::ast_load::AstLoad;
use starlark_tree::ast::Quoted;
use std::alloc::{AllocError, Global};
use std::fmt::Write;

/// What a mode prints of a module.
///
/// Fails if memory runs out, or if the module's file has too many clones to count.
pub fn output_of(alloc: Global, mode: Mode, ast: &AstModule) -> Result<String, Stop>
    ensures { IfOk result (λ text. Writes mode ast.now.codemap.text (map span_of ast.now.comments.items) (suppressions_in ast.now.suppressions)
        (statement_of ast.now.statement) (string_bytes text)) }
{
    match mode {
        Mode::Print => Ok(tree_text(alloc, ast)?),
        Mode::Locations => Ok(locations_text(alloc, ast)?),
        Mode::Loads => Ok(loads_text(alloc, ast)?),
        Mode::Comments => Ok(comments_text(alloc, ast)?),
        Mode::Lint => issues_text(alloc, ast),
    }
}

/// The text of the tree.
fn tree_text(alloc: Global, ast: &AstModule) -> Result<String, AllocError>
    ensures { IfOk result (λ text. string_bytes text ≡ statement_text 0 (statement_of ast.now.statement)) }
{
    let printed = ast.statement().node.to_string(alloc)?;
    Ok(printed)
}

/// The positions of the statements, one a line.
fn locations_text(alloc: Global, ast: &AstModule) -> Result<String, AllocError>
    ensures { IfOk result (λ text. string_bytes text ≡ flat_map (location_line ast.now.codemap.text) (locations (statement_of ast.now.statement))) }
{
    let mut text = String::new(alloc);
    let locations = ast.stmt_locations(alloc)?;
    for location in &locations {
        add_location(&mut text, location)?;
    }
    Ok(text)
}

fn add_location(text: &mut String, location: &FileSpan) -> Result<(), AllocError>
    ensures { OnOk result (string_bytes text.new ≡ string_bytes text.old ++ location_line location.now.file.text (span_of location.now.span)) }
{
    let place = location.resolve_span();
    writeln!(text, "{place}")
}

/// The loads, one a line.
fn loads_text(alloc: Global, ast: &AstModule) -> Result<String, AllocError>
    ensures { IfOk result (λ text. string_bytes text ≡ flat_map (load_line ast.now.codemap.text) (loads (statement_of ast.now.statement))) }
{
    let mut text = String::new(alloc);
    let loads = ast.loads(alloc)?;
    for load in &loads {
        add_load(&mut text, load)?;
    }
    Ok(text)
}

fn add_load(text: &mut String, load: &AstLoad) -> Result<(), AllocError>
    ensures { OnOk result (string_bytes text.new ≡ string_bytes text.old ++ load_line load.now.span.file.text (listed load.now).1) }
{
    let place = load.span.resolve_span();
    let module_id = Quoted(load.module_id);
    write!(text, "{place} {module_id}")?;
    add_symbols(text, load)?;
    writeln!(text)
}

/// The comments, one a line.
fn comments_text(alloc: Global, ast: &AstModule) -> Result<String, AllocError>
    ensures { IfOk result (λ text. string_bytes text ≡ flat_map (comment_line ast.now.codemap.text) (map span_of ast.now.comments.items)) }
{
    let mut text = String::new(alloc);
    for span in ast.comments() {
        add_comment(&mut text, ast.codemap(), *span)?;
    }
    Ok(text)
}

fn add_comment(text: &mut String, codemap: &CodeMap, span: Span) -> Result<(), AllocError>
    ensures { OnOk result (string_bytes text.new ≡ string_bytes text.old ++ comment_line codemap.now.text (span_of span)) }
{
    let place = codemap.resolve_span(span);
    let comment = codemap.source_span(span);
    writeln!(text, "{place} {comment}")
}

/// The issues, one a line.
fn issues_text(alloc: Global, ast: &AstModule) -> Result<String, Stop>
    ensures { IfOk result (λ text. WritesIssues ast.now.codemap.text (suppressions_in ast.now.suppressions) (statement_of ast.now.statement)
        (string_bytes text)) }
{
    let mut text = String::new(alloc);
    let issues = lint(alloc, ast)?;
    for issue in &issues {
        add_issue(&mut text, ast.codemap(), issue)?;
    }
    Ok(text)
}

fn add_issue(text: &mut String, codemap: &CodeMap, issue: &Issue) -> Result<(), AllocError>
    ensures { OnOk result (string_bytes text.new ≡ string_bytes text.old ++ issue_line codemap.now.text (issue_of issue.now)) }
{
    let place = codemap.resolve_span(issue.span);
    let name = issue.name;
    writeln!(text, "{place} {name}")
}
