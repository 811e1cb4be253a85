//! The loads of a module.
ghost use Rattle.std.specs.Prelude.{◌≡◌, ◌++◌, IfOk, OnOk, map, string_bytes};
ghost use Rattle.starlark_lexer.specs.Tokens.{span_of};
ghost use Rattle.starlark_passes.specs.Outline.Listed.{in_file, listed, symbol};
ghost use Rattle.starlark_passes.specs.Outline.Outline.{loads, symbols_of};
ghost use Rattle.starlark_tree.specs.Views.{load_arg_of, statement_of};

use indexmap::IndexMap;
use starlark_lexer::codemap::{CodeMap, FileSpan};
use starlark_tree::ast::{AstNoPayload, AstStmt, Load, LoadArgP, Stmt};
use std::alloc::{AllocError, Global};

/// A load statement, which loads symbols from another module.
#[derive(Debug, Drop)]
pub struct AstLoad<'a> {
    /// Where the other module is named: byte offsets.
    pub span: FileSpan,
    /// The module that is loaded.
    pub module_id: &'a str,
    /// The symbols loaded from that module, from local name to source, in order. A local name that comes twice keeps its
    /// first position and its last source.
    pub symbols: IndexMap<&'a str, &'a str>,
}

/// The loads at the top of a tree, in order (Starlark specification, "Load statements").
///
/// Fails if an allocation fails, or the code map has too many clones to count.
pub fn loads<'a>(
    alloc: Global,
    codemap: &CodeMap,
    top: &'a AstStmt,
) -> Result<Vec<AstLoad<'a>>, AllocError>
    ensures { IfOk result (λ found. map listed found.items ≡ map (in_file codemap.now) (loads (statement_of top.now))) }
{
    let mut found = Vec::new(alloc);
    add_loads(alloc, codemap, top, &mut found)?;
    Ok(found)
}

/// Adds the loads at the top of this statement.
fn add_loads<'a>(
    alloc: Global,
    codemap: &CodeMap,
    statement: &'a AstStmt,
    found: &mut Vec<AstLoad<'a>>,
) -> Result<(), AllocError>
    ensures { OnOk result (map listed found.new.items ≡ map listed found.old.items ++ map (in_file codemap.now) (loads (statement_of statement.now))) }
{
    match &statement.node {
        Stmt::Statements(parts) => {
            for part in parts {
                add_loads(alloc, codemap, part, found)?;
            }
        }
        Stmt::Load(load) => found.push(ast_load(alloc, codemap, load)?)?,
        _ => {}
    }
    Ok(())
}

/// What a load says about the other module.
fn ast_load<'a>(alloc: Global, codemap: &CodeMap, load: &'a Load) -> Result<AstLoad<'a>, AllocError>
    ensures { IfOk result (λ l. listed l ≡ in_file codemap.now
        (record {
          span = span_of load.now.module.span;
          module_id = string_bytes load.now.module.node;
          symbols = symbols_of
              (map load_arg_of load.now.args.items);
        })) }
{
    let symbols = loaded_symbols(alloc, load.args.as_slice())?;
    Ok(AstLoad {
        span: codemap.file_span(load.module.span)?,
        module_id: load.module.node.as_str(),
        symbols,
    })
}

/// The symbols of a load, from local name to source.
fn loaded_symbols<'a>(
    alloc: Global,
    args: &'a [LoadArgP<AstNoPayload>],
) -> Result<IndexMap<&'a str, &'a str>, AllocError>
    ensures { IfOk result (λ symbols. map symbol symbols.entries ≡ symbols_of (map load_arg_of args.now)) }
{
    let mut symbols = IndexMap::new(alloc);
    for arg in args {
        symbols.insert(arg.local.node.ident.as_str(), arg.their.node.as_str())?;
    }
    Ok(symbols)
}
