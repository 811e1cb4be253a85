//! The load graph of several files: which file loads which module, and at which position.
ghost use Rattle.std.specs.Prelude.{◌≡◌, ◌++◌, IfOk, OnOk, flat_map, string_bytes};
ghost use Rattle.starlark_examples.specs.LoadGraph.{edge_line, edge_lines};
ghost use Rattle.starlark_syntax.specs.outline.Listed.{listed};

use crate::parts::parts;
use starlark_syntax::Error;
use starlark_syntax::syntax::ast_load::AstLoad;
use starlark_syntax::syntax::{AstModule, Dialect};
use std::alloc::{AllocError, Global};
use std::fmt::Write;

/// The load graph of the files of a text. A line `--- NAME` is before each of them.
pub fn report(alloc: Global, files: &str) -> Result<String, Error> {
    let mut modules = Vec::new(alloc);
    for (name, text) in parts(alloc, files, "--- ")? {
        modules.push(AstModule::parse(alloc, name, text, &Dialect::Standard)?)?;
    }
    Ok(load_graph(alloc, &modules)?)
}

/// A line for each load of each module, in order: its position, and the module that it loads.
fn load_graph(alloc: Global, modules: &[AstModule]) -> Result<String, AllocError>
    ensures { IfOk result (λ graph. string_bytes graph ≡ flat_map edge_lines modules.now) }
{
    let mut graph = String::new(alloc);
    for ast in modules {
        add_edges(alloc, &mut graph, ast)?;
    }
    Ok(graph)
}

/// Adds the lines of a module.
fn add_edges(alloc: Global, graph: &mut String, ast: &AstModule) -> Result<(), AllocError>
    ensures { OnOk result (string_bytes graph.new ≡ string_bytes graph.old ++ edge_lines ast.now) }
{
    for load in &ast.loads(alloc)? {
        add_edge(graph, load)?;
    }
    Ok(())
}

/// Adds the line of a load.
fn add_edge(graph: &mut String, load: &AstLoad) -> Result<(), AllocError>
    ensures { OnOk result (string_bytes graph.new ≡ string_bytes graph.old ++ edge_line load.now.span.file (listed load.now).1) }
{
    writeln!(graph, "{} loads {}", load.span, load.module_id)
}
