//! A module, or an error.
ghost use Rattle.std.specs.Prelude.{◌≡◌, ◌++◌, flat_map, IfOk, map, Some};
ghost use Rattle.starlark_checks.specs.ErrorText.{error_text};
ghost use Rattle.starlark_checks.specs.Kinds.{kind_of};
ghost use Rattle.starlark_checks.specs.Refusals.{place, place_of};
ghost use Rattle.starlark_compact.specs.Adds.{Adds};
ghost use Rattle.starlark_compact.specs.Answers.{error_bytes, error_number as error_number_of, module_bytes, place_bytes, position_bytes};
ghost use Rattle.starlark_compact.specs.Answers.{spans_bytes};
ghost use Rattle.starlark_compact.specs.Code.{bytes_of_span};
ghost use Rattle.starlark_lexer.specs.ResolvedSpans.{place as resolved_place};
ghost use Rattle.starlark_lexer.specs.Tokens.{span_of};
ghost use Rattle.starlark_tree.specs.Views.{statement_of};

use crate::statement::write_statement;
use crate::write::{write_bytes, write_count, write_number, write_span};
use starlark_checks::error::{Error, ErrorKind};
use starlark_lexer::codemap::{FileSpan, ResolvedPos, Span};
use starlark_module::module::AstModule;
use std::alloc::{AllocError, Global};

/// The first number of each result.
const VERSION: u32 = 1;

/// The second number of a module.
const MODULE: u32 = 0;

/// A module as bytes: its comments and its tree.
///
/// Fails if an allocation fails.
pub fn module_to_compact(alloc: Global, parsed: &AstModule) -> Result<Vec<u8>, AllocError>
    ensures { IfOk result (λ bytes. bytes.items ≡ module_bytes (map span_of parsed.now.comments.items) (statement_of parsed.now.statement)) }
{
    let mut out = Vec::new(alloc);
    write_module(&mut out, parsed)?;
    Ok(out)
}

/// Writes a module.
fn write_module(out: &mut Vec<u8>, parsed: &AstModule) -> Result<(), AllocError>
    ensures { Adds result out.old out.new (module_bytes (map span_of parsed.now.comments.items) (statement_of parsed.now.statement)) }
{
    write_number(out, VERSION)?;
    write_number(out, MODULE)?;
    write_comments(out, parsed.comments())?;
    write_statement(out, parsed.statement())
}

/// The spans of comments, after their count.
fn write_comments(out: &mut Vec<u8>, comments: &[Span]) -> Result<(), AllocError>
    ensures { Adds result out.old out.new (spans_bytes (map span_of comments.now)) }
{
    write_count(out, comments.len())?;
    write_spans(out, comments)
}

/// Spans one after another.
fn write_spans(out: &mut Vec<u8>, spans: &[Span]) -> Result<(), AllocError>
    ensures { Adds result out.old out.new (flat_map bytes_of_span spans.now) }
{
    for span in spans {
        write_span(out, *span)?;
    }
    Ok(())
}

/// An error as bytes: its kind, its text and its position.
///
/// Fails if an allocation fails.
pub fn error_to_compact(alloc: Global, error: &Error) -> Result<Vec<u8>, AllocError>
    ensures { IfOk result (λ bytes. bytes.items ≡ error_bytes error.now) }
{
    let message = error.to_string(alloc)?;
    let mut out = Vec::new(alloc);
    write_error(&mut out, error, &message)?;
    Ok(out)
}

/// Writes an error, whose text this is.
fn write_error(out: &mut Vec<u8>, error: &Error, message: &str) -> Result<(), AllocError>
    requires { message.now ≡ error_text error.now.kind }
    ensures { Adds result out.old out.new (error_bytes error.now) }
{
    write_number(out, VERSION)?;
    write_number(out, error_number(error.kind()))?;
    write_bytes(out, message.as_bytes())?;
    write_where(out, error.span())
}

/// The position of an error.
fn write_where(out: &mut Vec<u8>, at: Option<&FileSpan>) -> Result<(), AllocError>
    ensures { Adds result out.old out.new (place_bytes (place at.entry)) }
{
    match at {
        Some(at) => write_place(out, at),
        None => write_number(out, 0),
    }
}

/// 1, and the byte offsets, and the lines and columns from 0.
fn write_place(out: &mut Vec<u8>, at: &FileSpan) -> Result<(), AllocError>
    ensures { Adds result out.old out.new (place_bytes (Some (place_of at.now))) }
{
    let resolved = at.resolve_span();
    write_number(out, 1)?;
    write_span(out, at.span)?;
    write_position(out, resolved.begin)?;
    write_position(out, resolved.end)
}

/// A line and a column, both from 0, the column in characters.
fn write_position(out: &mut Vec<u8>, at: ResolvedPos) -> Result<(), AllocError>
    ensures { Adds result out.old out.new (position_bytes (resolved_place at)) }
{
    write_number(out, at.line)?;
    write_number(out, at.column)
}

/// The number of a kind of error, never that of a module.
fn error_number(kind: &ErrorKind) -> u32
    ensures { result ≡ error_number_of (kind_of kind.now) }
{
    match kind {
        ErrorKind::TextTooLong => 1,
        ErrorKind::Memory => 2,
        ErrorKind::Lexer(_) => 3,
        ErrorKind::UnexpectedToken => 4,
        ErrorKind::UnexpectedEnd => 5,
        ErrorKind::Grammar(_) => 6,
        ErrorKind::Call(_) => 7,
        ErrorKind::Params(_) => 8,
        ErrorKind::TypeExpr(_) => 9,
        ErrorKind::Dialect(_) => 10,
        ErrorKind::Place(_) => 11,
    }
}
