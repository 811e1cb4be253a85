//! A module as JSON.
ghost use Rattle.std.specs.Prelude.{◌≡◌, codes, flat_map, IfOk, map, Some, string_bytes};
ghost use Rattle.json.specs.Print.{print};
ghost use Rattle.json.specs.Tree.{json_tokens};
ghost use Rattle.starlark_json.specs.Answers.{IsAnswer, module_json, code_span_tokens};
ghost use Rattle.starlark_json.specs.Parsed.{IsParsed, ReadsBack, content_of};
ghost use Rattle.starlark_json.specs.Reading.{ModuleFits, module_of_text};
ghost use Rattle.starlark_lexer.specs.Tokens.{span_of};
ghost use Rattle.starlark_tree.specs.Views.{statement_of};
ghost use Rattle.starlark_json.specs.Tree.Adds.{Adds};
ghost use Rattle.starlark_json.specs.Tree.Tokens.{array_field};

use crate::error::{error_to_json, write_version};
use crate::tree::leaf::{write_span, write_text};
use crate::tree::{text_of, write_statement};
use json::Writer;
use starlark_checks::error::Error;
use starlark_lexer::codemap::Span;
use starlark_module::module::AstModule;
use std::alloc::{AllocError, Global};

/// The result of a parse as JSON: the module or the error. The text of a module that was parsed from a text determines it.
///
/// Fails if an allocation fails.
pub fn answer_to_json(
    alloc: Global,
    answer: &Result<AstModule, Error>,
) -> Result<String, AllocError>
    ensures answer { IfOk result (λ text. IsAnswer answer.now (string_bytes text)) }
    ensures reads_back { IfOk result (λ text. ReadsBack answer.now (string_bytes text)) }
{
    match answer {
        Ok(module) => module_to_json(alloc, module),
        Err(error) => error_to_json(alloc, error),
    }
}

/// A module as JSON: its file's name, its comments and its tree, compact and with no line feed at its end.
///
/// The text determines these of each module that [`AstModule::parse`] returned, and of each other one that fits.
///
/// Fails if an allocation fails.
pub fn module_to_json(alloc: Global, parsed: &AstModule) -> Result<String, AllocError>
    ensures text { IfOk result (λ text. string_bytes text ≡ print (json_tokens (module_json parsed.now.codemap.name
        (map span_of parsed.now.comments.items) (statement_of parsed.now.statement)))) }
    ensures reads_back { IfOk result (λ text. ModuleFits (content_of parsed.now) → module_of_text (string_bytes text) ≡ Some (content_of parsed.now)) }
    ensures parsed_reads_back { IfOk result (λ text. IsParsed parsed.now → module_of_text (string_bytes text) ≡ Some (content_of parsed.now)) }
{
    let mut out = Writer::new(Vec::new(alloc));
    write_module(&mut out, parsed)?;
    text_of(out)
}

/// Writes a module.
fn write_module(out: &mut Writer, parsed: &AstModule) -> Result<(), AllocError>
    ensures { Adds result out.old out.new (json_tokens (module_json parsed.now.codemap.name
        (map span_of parsed.now.comments.items) (statement_of parsed.now.statement))) }
{
    write_version(out)?;
    write_text(out, "file", parsed.codemap().filename())?;
    write_comments(out, parsed.comments())?;
    out.key("statement")?;
    write_statement(out, parsed.statement())?;
    out.end_object()
}

/// The field of the comments' spans.
fn write_comments(out: &mut Writer, comments: &[Span]) -> Result<(), AllocError>
    ensures { Adds result out.old out.new (array_field (codes "comments") (flat_map code_span_tokens comments.now)) }
{
    out.key("comments")?;
    out.begin_array()?;
    for comment in comments {
        write_span(out, *comment)?;
    }
    out.end_array()
}
