//! The tree of a module as text, and its loads.
ghost use Rattle.std.specs.Prelude.{◌≡◌, ◌++◌, IfOk, OnOk, flat_map, map, string_bytes};
ghost use Rattle.starlark_passes.specs.Outline.Listed.{listed};
ghost use Rattle.starlark_passes.specs.Outline.Outline.{loads};
ghost use Rattle.starlark_cli.specs.Tool.Lists.{load_line};
ghost use Rattle.starlark_tree.specs.Printing.{statement_text};
ghost use Rattle.starlark_tree.specs.Views.{statement_of};

use crate::symbols::add_symbols;
use starlark_module::module::AstModule;
use starlark_passes::outline::ast_load::AstLoad;
use starlark_tree::ast::Quoted;
use std::alloc::{AllocError, Global};
use std::fmt::Write;

/// The text of the tree.
pub(crate) fn tree_text(alloc: Global, ast: &AstModule) -> Result<String, AllocError>
    ensures { IfOk result (λ text. string_bytes text ≡ statement_text 0 (statement_of ast.now.statement)) }
{
    let printed = ast.statement().node.to_string(alloc)?;
    Ok(printed)
}

/// The loads, one a line.
pub(crate) fn loads_text(alloc: Global, ast: &AstModule) -> Result<String, AllocError>
    ensures { IfOk result (λ text. string_bytes text ≡ flat_map (load_line ast.now.codemap) (loads (statement_of ast.now.statement))) }
{
    let mut text = String::new(alloc);
    let loads = ast.loads(alloc)?;
    for load in &loads {
        add_load(&mut text, load)?;
    }
    Ok(text)
}

fn add_load(text: &mut String, load: &AstLoad) -> Result<(), AllocError>
    ensures { OnOk result (string_bytes text.new ≡ string_bytes text.old ++ load_line load.now.span.file (listed load.now).1) }
{
    let place = &load.span;
    let module_id = Quoted(load.module_id);
    write!(text, "{place}: {module_id}")?;
    add_symbols(text, load)?;
    writeln!(text)
}
