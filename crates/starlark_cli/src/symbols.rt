//! What both programs print of the symbols of a load.
ghost use Rattle.std.specs.Prelude.{◌≡◌, ◌++◌, OnOk, flat_map, map, string_bytes};
ghost use Rattle.starlark_cli.specs.Symbols.{symbol_text};
ghost use Rattle.starlark_passes.specs.Outline.Listed.{symbol};

use starlark_passes::outline::ast_load::AstLoad;
use starlark_tree::ast::Quoted;
use std::alloc::AllocError;
use std::fmt::Write;

/// Adds the symbols of a load, each as its local name and the name in the module that is loaded.
pub(crate) fn add_symbols(text: &mut String, load: &AstLoad) -> Result<(), AllocError>
    ensures { OnOk result (string_bytes text.new ≡ string_bytes text.old ++ flat_map symbol_text (map symbol load.now.symbols.entries)) }
{
    for (local, source) in load.symbols.iter() {
        add_symbol(text, local, source)?;
    }
    Ok(())
}

fn add_symbol(text: &mut String, local: &str, source: &str) -> Result<(), AllocError>
    ensures { OnOk result (string_bytes text.new ≡ string_bytes text.old ++ symbol_text (local.now, source.now)) }
{
    let source = Quoted(source);
    write!(text, ", {local} = {source}")
}
