//! Renames the functions of a name at the top of a file, at their definitions and wherever the name is read.
//!
//! The text is edited at spans, so all else remains as it is written, comments too. Nothing is renamed if one of the two
//! names may mean something else in the file, as the name of a parameter or of an argument does.
ghost use Rattle.std.specs.Prelude.{◌≡◌, ◌++◌, IfOk, IfSome, OnOk, map, string_bytes};
ghost use Rattle.starlark_examples.specs.Rename.{IsRenamed, WithName, definition, reads, span_if, spans_of};
ghost use Rattle.starlark_syntax.specs.lexer.Tokens.{span_of};
ghost use Rattle.starlark_syntax.specs.tree.Views.{ident_word, statement_of, word_at};

use crate::parsed;
use starlark_syntax::Error;
use starlark_syntax::codemap::{FileSpan, Pos, Span};
use starlark_syntax::lexer::{Lexer, Token};
use starlark_syntax::syntax::ast::{AstIdent, AstStmt, Stmt};
use starlark_syntax::syntax::top_level_stmts::top_level_stmts;
use starlark_syntax::syntax::uniplate::StmtPVisit;
use starlark_syntax::syntax::{AstModule, Dialect};
use std::alloc::{AllocError, Global};

/// A text with the first of two names renamed to the second, or a line that says why it is not.
pub fn report(alloc: Global, words: &str, text: &str) -> Result<String, Error> {
    let (old, new) = words.split_once(' ').unwrap_or((words, words));
    let module = parsed(alloc, text)?;
    let spans = spans(alloc, module.statement(), old)?;
    if let Some(place) = other_meaning(alloc, &module, (old, new), &spans)? {
        return Ok(format!(in alloc; "{place}: this name may mean something else\n")?);
    }
    match renamed(alloc, &module, old, new)? {
        Some(text) => Ok(text),
        None => Ok(format!(in alloc; "{old} is at spans that overlap\n")?),
    }
}

/// The text of a module with the functions of a name renamed, or `None` if their spans overlap.
fn renamed(
    alloc: Global,
    ast: &AstModule,
    old: &str,
    new: &str,
) -> Result<Option<String>, AllocError>
    ensures { IfOk result (λ answer. IfSome answer (λ text. IsRenamed ast.now old.now new.now (string_bytes text))) }
{
    let mut spans = spans(alloc, ast.statement(), old)?;
    spans.sort_by_key(|span| span.begin())?;
    with_name(alloc, ast.codemap().source(), &spans, new)
}

/// The spans at which the name is read, and then those at which functions of the name are defined at the top.
fn spans(alloc: Global, top: &AstStmt, name: &str) -> Result<Vec<Span>, AllocError>
    ensures { IfOk result (λ spans. map span_of spans.items ≡ spans_of name.now (statement_of top.now)) }
{
    let mut spans = reads(alloc, top, name)?;
    for statement in &top_level_stmts(alloc, top)? {
        add_definition(&mut spans, statement, name)?;
    }
    Ok(spans)
}

/// The spans at which the name is read.
#[tactic(auto, using(crate::proofs::Always::may_always))]
fn reads(alloc: Global, top: &AstStmt, name: &str) -> Result<Vec<Span>, AllocError>
    ensures { IfOk result (λ spans. map span_of spans.items ≡ reads name.now (statement_of top.now)) }
{
    let mut spans = Vec::new(alloc);
    let mut add = |ident: &AstIdent| -> Result<(), AllocError>
        ensures { OnOk result (map span_of spans.exit.items ≡ map span_of spans.entry.items ++ span_if name.entry.now (ident_word ident.now)) }
    { add_if(&mut spans, ident.node.ident.as_str(), ident.span, name) };
    top.node.visit_ident(&mut add)?;
    Ok(spans)
}

/// Adds the span of the name, if a statement defines a function of it.
fn add_definition(spans: &mut Vec<Span>, statement: &AstStmt, name: &str) -> Result<(), AllocError>
    ensures { OnOk result (map span_of spans.new.items ≡ map span_of spans.old.items ++ definition name.now (statement_of statement.now)) }
{
    match &statement.node {
        Stmt::Def(def) => add_if(spans, def.name.node.ident.as_str(), def.name.span, name),
        _ => Ok(()),
    }
}

/// Adds the span of an identifier, if it is the name.
fn add_if(spans: &mut Vec<Span>, word: &str, span: Span, name: &str) -> Result<(), AllocError>
    ensures { OnOk result (map span_of spans.new.items ≡ map span_of spans.old.items ++ span_if name.now (word_at word.now (span_of span))) }
{
    if word == name {
        spans.push(span)?;
    }
    Ok(())
}

/// The text with the name instead of what is at the spans, or `None` if these are not in order and apart.
fn with_name(
    alloc: Global,
    text: &str,
    spans: &[Span],
    name: &str,
) -> Result<Option<String>, AllocError>
    ensures { IfOk result (λ answer. IfSome answer (λ out. WithName text.now name.now (map span_of spans.now) (string_bytes out))) }
{
    let mut out = String::new(alloc);
    let mut done = 0;
    for span in spans {
        let Some(kept) = text.get(done..span.begin().get() as usize) else {
            return Ok(None);
        };
        out.push_str(kept)?;
        out.push_str(name)?;
        done = span.end().get() as usize;
    }
    let Some(rest) = text.get(done..) else {
        return Ok(None);
    };
    out.push_str(rest)?;
    Ok(Some(out))
}

/// The first identifier of the text that is one of the names, unless it is an attribute or at one of the spans.
fn other_meaning(
    alloc: Global,
    module: &AstModule,
    (old, new): (&str, &str),
    spans: &[Span],
) -> Result<Option<FileSpan>, Error> {
    let codemap = module.codemap();
    let mut is_attribute = false;
    for lexeme in Lexer::new(alloc, codemap.source(), &Dialect::All) {
        let (begin, token, _) = match lexeme {
            Ok(lexeme) => lexeme,
            Err(error) => return Err(Error::from_lexer(error, codemap)?),
        };
        if let Token::Identifier(word) = &token {
            let Ok(begin) = u32::try_from(begin) else {
                return Err(Error::text_too_long());
            };
            let begin = Pos::new(begin);
            let is_edited = spans.iter().any(|span| span.begin() == begin);
            let is_name = word.as_str() == old || word.as_str() == new;
            if is_name && !is_edited && !is_attribute {
                return Ok(Some(codemap.file_span(Span::new(begin, begin))?));
            }
        }
        is_attribute = matches!(&token, Token::Dot);
    }
    Ok(None)
}
