//! Names that are loaded and never read.
ghost use Rattle.std.specs.Prelude.{◌≡◌, ◌++◌, [], IfOk, OnOk, map, string_bytes};
ghost use Rattle.std.specs.List.{flat_map};
ghost use Rattle.std.specs.Str.{bytes_eq};
ghost use Rattle.indexmap.specs.IndexSet.{insert_all, insert_key};
ghost use Rattle.starlark_lexer.specs.Tokens.{span_of};
ghost use Rattle.starlark_passes.specs.Lint.LintIssues.{loaded, names_read, unused_loads, unused_symbol};
ghost use Rattle.starlark_passes.specs.Outline.Outline.{top_statements};
ghost use Rattle.starlark_tree.specs.Places.{behind};
ghost use Rattle.starlark_tree.specs.Views.{load_arg_of, statement_of};

use crate::outline::top_level_stmts::top_level_stmts;
use indexmap::IndexSet;
use starlark_lexer::codemap::Span;
use starlark_tree::ast::{AstIdent, AstNoPayload, AstStmt, LoadArgP, StmtP};
use starlark_uniplate::uniplate::StmtPVisit;
use std::alloc::{AllocError, Global};

/// Where the symbols of the loads at the top of a module are whose local names the module does not read.
pub(crate) fn unused_loads(alloc: Global, top: &AstStmt) -> Result<Vec<Span>, AllocError>
    ensures { IfOk result (λ found. map span_of found.items ≡ unused_loads (statement_of top.now)) }
{
    let names = names_read(alloc, top)?;
    let symbols = loaded_symbols(alloc, top)?;
    let mut found = Vec::new(alloc);
    add_unread(symbols.as_slice(), &names, &mut found)?;
    Ok(found)
}

/// Adds the symbols whose local names are not among those that are read.
fn add_unread(
    symbols: &[&LoadArgP<AstNoPayload>],
    names: &IndexSet<String>,
    found: &mut Vec<Span>,
) -> Result<(), AllocError>
    ensures { OnOk result (map span_of found.new.items ≡ map span_of found.old.items
        ++ flat_map (λ s. unused_symbol (map string_bytes names.now.keys) (load_arg_of s.now)) symbols.now) }
{
    for symbol in symbols {
        add_if_unread(symbol, names, found)?;
    }
    Ok(())
}

/// Adds a symbol of a load, unless its local name is one of those that are read.
fn add_if_unread(
    symbol: &LoadArgP<AstNoPayload>,
    names: &IndexSet<String>,
    found: &mut Vec<Span>,
) -> Result<(), AllocError>
    ensures { OnOk result (map span_of found.new.items ≡ map span_of found.old.items
        ++ unused_symbol (map string_bytes names.now.keys) (load_arg_of symbol.now)) }
{
    if !names.contains(symbol.local.node.ident.as_str()) {
        found.push(symbol.span())?;
    }
    Ok(())
}

/// The symbols of the loads at the top of a module, in order.
fn loaded_symbols<'a>(
    alloc: Global,
    top: &'a AstStmt,
) -> Result<Vec<&'a LoadArgP<AstNoPayload>>, AllocError>
    ensures { IfOk result (λ symbols. map (behind load_arg_of) symbols.items ≡ flat_map loaded (top_statements (statement_of top.now))) }
{
    let mut symbols = Vec::new(alloc);
    let statements = top_level_stmts(alloc, top)?;
    for statement in &statements {
        add_symbols(statement, &mut symbols)?;
    }
    Ok(symbols)
}

/// Adds the symbols of a statement that is a load.
fn add_symbols<'a>(
    statement: &'a AstStmt,
    symbols: &mut Vec<&'a LoadArgP<AstNoPayload>>,
) -> Result<(), AllocError>
    ensures { OnOk result (map (behind load_arg_of) symbols.new.items ≡ map (behind load_arg_of) symbols.old.items ++ loaded (statement_of statement.now)) }
{
    match &statement.node {
        StmtP::Load(load) => add_each(&load.args, symbols),
        _ => Ok(()),
    }
}

/// Adds each of the symbols.
fn add_each<'a>(
    loaded: &'a [LoadArgP<AstNoPayload>],
    symbols: &mut Vec<&'a LoadArgP<AstNoPayload>>,
) -> Result<(), AllocError>
    ensures { OnOk result (map (behind load_arg_of) symbols.new.items ≡ map (behind load_arg_of) symbols.old.items ++ map load_arg_of loaded.now) }
{
    for symbol in loaded {
        symbols.push(symbol)?;
    }
    Ok(())
}

/// The names that a module reads, each once.
fn names_read(alloc: Global, top: &AstStmt) -> Result<IndexSet<String>, AllocError>
    ensures { IfOk result (λ names. map string_bytes names.keys ≡ insert_all bytes_eq [] (names_read (statement_of top.now))) }
{
    let mut names = IndexSet::new(alloc);
    let mut add = |ident: &AstIdent| -> Result<(), AllocError>
        ensures { OnOk result (map string_bytes names.exit.keys ≡ insert_key bytes_eq (map string_bytes names.entry.keys) (string_bytes ident.now.node.ident)) }
    { add_name(alloc, ident.node.ident.as_str(), &mut names) };
    top.node.visit_ident(&mut add)?;
    Ok(names)
}

/// Adds a name, unless it is there.
fn add_name(alloc: Global, name: &str, names: &mut IndexSet<String>) -> Result<(), AllocError>
    ensures { OnOk result (map string_bytes names.new.keys ≡ insert_key bytes_eq (map string_bytes names.old.keys) name.now) }
{
    if !names.contains(name) {
        names.insert(String::from_str(alloc, name)?)?;
    }
    Ok(())
}
