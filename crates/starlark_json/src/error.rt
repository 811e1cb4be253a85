//! An error as JSON.
ghost use Rattle.std.specs.Prelude.{◌≡◌, ◌++◌, ◌∷◌, [], codes, decimal, IfOk, Some, None, string_bytes};
ghost use Rattle.json.specs.Print.{print};
ghost use Rattle.json.specs.Token.{begin_object, key, number};
ghost use Rattle.json.specs.Tree.{json_tokens, members_tokens};
ghost use Rattle.starlark_checks.specs.ErrorText.{error_text};
ghost use Rattle.starlark_checks.specs.Kinds.{kind_of};
ghost use Rattle.starlark_checks.specs.Refusals.{place, place_of};
ghost use Rattle.starlark_json.specs.Answers.{error_json, kind_name as kind_name_of, place_fields, position_json};
ghost use Rattle.starlark_lexer.specs.ResolvedSpans.{place as resolved_place};
ghost use Rattle.starlark_json.specs.Tree.Adds.{Adds};

use crate::tree::leaf::{write_span, write_text};
use crate::tree::text_of;
use json::Writer;
use starlark_checks::error::{Error, ErrorKind};
use starlark_lexer::codemap::{FileSpan, ResolvedPos};
use std::alloc::{AllocError, Global};

/// An error as JSON: its kind, its text and its position, compact and with no line feed at its end.
///
/// Fails if an allocation fails.
pub fn error_to_json(alloc: Global, error: &Error) -> Result<String, AllocError>
    ensures { IfOk result (λ text. string_bytes text ≡ print (json_tokens (error_json error.now))) }
{
    let message = error.to_string(alloc)?;
    let mut out = Writer::new(Vec::new(alloc));
    write_error(&mut out, error, &message)?;
    text_of(out)
}

/// Writes an error, whose text this is.
fn write_error(out: &mut Writer, error: &Error, message: &str) -> Result<(), AllocError>
    requires { message.now ≡ error_text error.now.kind }
    ensures { Adds result out.old out.new (json_tokens (error_json error.now)) }
{
    write_version(out)?;
    write_text(out, "error", kind_name(error.kind()))?;
    write_text(out, "message", message)?;
    write_fields(out, error.span())
}

/// The start of a result: the version of the schema.
pub(crate) fn write_version(out: &mut Writer) -> Result<(), AllocError>
    ensures { Adds result out.old out.new (begin_object ∷ key (codes "version") ∷ number (decimal 1) ∷ []) }
{
    out.begin_object()?;
    out.key("version")?;
    out.u64(1)
}

/// The fields of an error's position, and the end of its object.
fn write_fields(out: &mut Writer, at: Option<&FileSpan>) -> Result<(), AllocError>
    ensures { Adds result out.old out.new (members_tokens (place_fields (place at.entry))) }
{
    match at {
        Some(at) => write_place(out, at),
        None => write_nowhere(out),
    }
}

/// The same for an error without a position.
fn write_nowhere(out: &mut Writer) -> Result<(), AllocError>
    ensures { Adds result out.old out.new (members_tokens (place_fields None)) }
{
    out.key("file")?;
    out.null()?;
    out.end_object()
}

/// The file, the byte offsets, and the lines and columns from 0.
fn write_place(out: &mut Writer, at: &FileSpan) -> Result<(), AllocError>
    ensures { Adds result out.old out.new (members_tokens (place_fields (Some (place_of at.now)))) }
{
    let resolved = at.resolve_span();
    write_text(out, "file", at.file.filename())?;
    out.key("span")?;
    write_span(out, at.span)?;
    write_position(out, "begin", resolved.begin)?;
    write_position(out, "end", resolved.end)?;
    out.end_object()
}

/// A field that is a line and a column, both from 0, the column in characters.
fn write_position(out: &mut Writer, field: &str, at: ResolvedPos) -> Result<(), AllocError>
    ensures { Adds result out.old out.new (key field.now ∷ json_tokens (position_json (resolved_place at))) }
{
    out.key(field)?;
    out.begin_object()?;
    write_count(out, "line", at.line)?;
    write_count(out, "column", at.column)?;
    out.end_object()
}

/// A field that is a number.
fn write_count(out: &mut Writer, field: &str, count: u32) -> Result<(), AllocError>
    ensures { Adds result out.old out.new (key field.now ∷ number (decimal count) ∷ []) }
{
    out.key(field)?;
    out.u64(u64::from(count))
}

/// The name of a kind, that of its variant.
fn kind_name(kind: &ErrorKind) -> &'static str
    ensures { result.now ≡ kind_name_of (kind_of kind.now) }
{
    match kind {
        ErrorKind::TextTooLong => "TextTooLong",
        ErrorKind::Memory => "Memory",
        ErrorKind::Lexer(_) => "Lexer",
        ErrorKind::UnexpectedToken => "UnexpectedToken",
        ErrorKind::UnexpectedEnd => "UnexpectedEnd",
        ErrorKind::Grammar(_) => "Grammar",
        ErrorKind::Call(_) => "Call",
        ErrorKind::Params(_) => "Params",
        ErrorKind::TypeExpr(_) => "TypeExpr",
        ErrorKind::Dialect(_) => "Dialect",
        ErrorKind::Place(_) => "Place",
    }
}
