//! Keys that a dictionary's literal has twice.
ghost use Rattle.std.specs.Prelude.{◌≡◌, ◌++◌, [], List, IfOk, OnOk, map, not, option_map, option_to_list};
ghost use Rattle.std.specs.List.{flat_map};
ghost use Rattle.std.specs.Str.{bytes_eq};
ghost use Rattle.indexmap.specs.IndexSet.{insert_key};
ghost use Rattle.starlark_passes.specs.Lint.Found.{text_of};
ghost use Rattle.starlark_passes.specs.Lint.LintIssues.{duplicate_keys, is_among, repeated_keys, repeats, string_key};
ghost use Rattle.starlark_lexer.specs.Tokens.{span_of};
ghost use Rattle.starlark_tree.specs.Ast as t;
ghost use Rattle.starlark_tree.specs.Ast.{Word};
ghost use Rattle.starlark_tree.specs.Inside.{inside};
ghost use Rattle.starlark_tree.specs.Views.{expression_of, literal_seen, statement_of, word_at};

use indexmap::IndexSet;
use starlark_lexer::codemap::Span;
use starlark_tree::ast::{AstExpr, AstLiteral, AstStmt, ExprP};
use starlark_uniplate::uniplate::{ExprPVisit, StmtPVisit};
use std::alloc::{AllocError, Global};

/// Where the repeated keys of the dictionaries of a module are.
pub(crate) fn duplicate_keys(alloc: Global, top: &AstStmt) -> Result<Vec<Span>, AllocError>
    ensures { IfOk result (λ found. map span_of found.items ≡ duplicate_keys (statement_of top.now)) }
{
    let mut found = Vec::new(alloc);
    let mut enter = |expr: &AstExpr| -> Result<(), AllocError>
        ensures { OnOk result (map span_of found.exit.items ≡ map span_of found.entry.items ++ flat_map repeated_keys (inside (expression_of expr.now))) }
    { add_keys_inside(alloc, expr, &mut found) };
    top.node.visit_expr_result(&mut enter)?;
    Ok(found)
}

/// Adds the repeated keys of the expression, if it is a dictionary, and then of the dictionaries inside it.
fn add_keys_inside(alloc: Global, expr: &AstExpr, found: &mut Vec<Span>) -> Result<(), AllocError>
    ensures { OnOk result (map span_of found.new.items ≡ map span_of found.old.items ++ flat_map repeated_keys (inside (expression_of expr.now))) }
{
    add_own_keys(alloc, expr, found)?;
    let mut enter = |child: &AstExpr| -> Result<(), AllocError>
        ensures { OnOk result (map span_of found.exit.now.items ≡ map span_of found.entry.now.items
            ++ flat_map repeated_keys (inside (expression_of child.now))) }
    { add_keys_inside(alloc, child, found) };
    expr.node.visit_expr_err(&mut enter)
}

/// Adds the repeated keys of the expression, if it is a dictionary.
fn add_own_keys(alloc: Global, expr: &AstExpr, found: &mut Vec<Span>) -> Result<(), AllocError>
    ensures { OnOk result (map span_of found.new.items ≡ map span_of found.old.items ++ repeated_keys (expression_of expr.now)) }
{
    match &expr.node {
        ExprP::Dict(pairs) => add_repeated(alloc, pairs, found),
        _ => Ok(()),
    }
}

/// Adds the repeated keys of a dictionary.
fn add_repeated(
    alloc: Global,
    pairs: &[(AstExpr, AstExpr)],
    found: &mut Vec<Span>,
) -> Result<(), AllocError>
    ensures { OnOk result (map span_of found.new.items ≡ map span_of found.old.items ++ repeats [] (flat_map (λ p. string_key (expression_of p.0)) pairs.now)) }
{
    let mut seen = IndexSet::new(alloc);
    for pair in pairs {
        add_if_repeated(&pair.0, &mut seen, found)?;
    }
    Ok(())
}

/// Adds a key that is a string literal whose text was seen before.
fn add_if_repeated<'a>(
    key: &'a AstExpr,
    seen: &mut IndexSet<&'a str>,
    found: &mut Vec<Span>,
) -> Result<(), AllocError>
    ensures { OnOk result ((later : List Word) → map span_of found.new.items ++ repeats (map text_of seen.new.keys) later ≡ map span_of found.old.items
        ++ repeats (map text_of seen.old.keys) (string_key (expression_of key.now) ++ later)) }
{
    if let Some(text) = string_text(key) {
        let is_new = see(text, seen)?;
        if !is_new {
            found.push(key.span)?;
        }
    }
    Ok(())
}

/// The text of an expression that is a string literal.
fn string_text(expr: &AstExpr) -> Option<&str>
    ensures { string_key (expression_of expr.now) ≡ option_to_list (option_map (λ text. word_at text.now (span_of expr.now.span)) result) }
{
    match &expr.node {
        ExprP::Literal(literal) => literal_text(literal),
        _ => None,
    }
}

/// The text of a string literal.
fn literal_text(literal: &AstLiteral) -> Option<&str>
    ensures { (span : _) → string_key {P = t.no_payload} (t.expression span (t.Constant (literal_seen literal.now)))
        ≡ option_to_list (option_map (λ text. word_at text.now span) result) }
{
    match literal {
        AstLiteral::String(text) => Some(text.node.as_str()),
        AstLiteral::Int(_) | AstLiteral::Float(_) | AstLiteral::Bytes(_) | AstLiteral::Ellipsis =>
            None,
    }
}

/// Records that a text was seen, and returns whether it is new.
fn see<'a>(text: &'a str, seen: &mut IndexSet<&'a str>) -> Result<bool, AllocError>
    ensures is_new { IfOk result (λ is_new. is_new ≡ not (is_among text.now (map text_of seen.old.keys))) }
    ensures seen { OnOk result (map text_of seen.new.keys ≡ insert_key bytes_eq (map text_of seen.old.keys) text.now) }
{
    let is_new = seen.insert(text)?;
    Ok(is_new)
}
