//! A diagnostic as JSON.
ghost use Rattle.std.specs.Prelude.{◌≡◌, ◌∷◌, IfOk, Some, codes, flat_map, map, option_map, string_bytes};
ghost use Rattle.json.specs.Json.{array};
ghost use Rattle.json.specs.Token.{key};
ghost use Rattle.json.specs.Tree.{json_tokens};
ghost use Rattle.starlark_lexer.specs.ResolvedSpans.{place};
ghost use Rattle.starlark_lexer.specs.Tokens.{span_of};
ghost use Rattle.starlark_diagnostics.specs.Adds.{Adds};
ghost use Rattle.starlark_diagnostics.specs.Ends.{file_of, resolved_ends};
ghost use Rattle.starlark_diagnostics.specs.Json as specs;
ghost use Rattle.starlark_diagnostics.specs.Json.{begin_json, diagnostic_json, each_json, end_json, note_json, position_json, span_json};
ghost use Rattle.starlark_diagnostics.specs.DiagnosticViews.{note_seen, seen};

use crate::diagnostic::{Diagnostic, Note};
use crate::emit::place::ends_of;
use crate::emit::writer::{text_of, write_count, write_text};
use json::Writer;
use starlark_lexer::codemap::{CodeMap, ResolvedPos, ResolvedSpan, Span};
use std::alloc::{AllocError, Global};

/// A diagnostic as a JSON object, and a line feed.
pub(crate) fn json_text(
    alloc: Global,
    path: &str,
    codemap: Option<&CodeMap>,
    diagnostic: &Diagnostic,
) -> Result<String, AllocError>
    ensures { IfOk result (λ text. string_bytes text ≡ specs.json_text path.now (file_of codemap.entry) (seen diagnostic.now)) }
{
    let mut out = Writer::new(Vec::new(alloc));
    write_diagnostic(&mut out, path, codemap, diagnostic)?;
    let text = text_of(out)?;
    format!(in alloc; "{text}\n")
}

/// Writes a diagnostic.
fn write_diagnostic(
    out: &mut Writer,
    path: &str,
    codemap: Option<&CodeMap>,
    diagnostic: &Diagnostic,
) -> Result<(), AllocError>
    ensures { Adds result out.old out.new (json_tokens (diagnostic_json path.now (file_of codemap.entry) (seen diagnostic.now))) }
{
    let ends = ends_of(codemap, diagnostic.span);
    out.begin_object()?;
    write_text(out, "code", diagnostic.code.name())?;
    write_text(out, "severity", diagnostic.severity.name())?;
    write_text(out, "message", diagnostic.message.as_str())?;
    write_text(out, "file", path)?;
    write_span(out, diagnostic.span)?;
    write_begin(out, ends)?;
    write_end(out, ends)?;
    write_notes(out, codemap, diagnostic.notes.as_slice())?;
    out.end_object()
}

/// Writes the field of the notes.
fn write_notes(
    out: &mut Writer,
    codemap: Option<&CodeMap>,
    notes: &[Note],
) -> Result<(), AllocError>
    ensures { Adds result out.old out.new (key (codes "notes")
        ∷ json_tokens (array (each_json (note_json (file_of codemap.entry)) (map note_seen notes.now)))) }
{
    out.key("notes")?;
    out.begin_array()?;
    write_each_note(out, codemap, notes)?;
    out.end_array()
}

/// Writes the notes one after another.
fn write_each_note(
    out: &mut Writer,
    codemap: Option<&CodeMap>,
    notes: &[Note],
) -> Result<(), AllocError>
    ensures { Adds result out.old out.new (flat_map (λ note. json_tokens (note_json (file_of codemap.entry) (note_seen note))) notes.now) }
{
    for note in notes {
        write_note(out, codemap, note)?;
    }
    Ok(())
}

/// Writes a note.
fn write_note(out: &mut Writer, codemap: Option<&CodeMap>, note: &Note) -> Result<(), AllocError>
    ensures { Adds result out.old out.new (json_tokens (note_json (file_of codemap.entry) (note_seen note.now))) }
{
    let ends = ends_of(codemap, note.span);
    out.begin_object()?;
    write_text(out, "message", note.message.as_str())?;
    write_span(out, note.span)?;
    write_begin(out, ends)?;
    write_end(out, ends)?;
    out.end_object()
}

/// Writes the field of the byte offsets.
fn write_span(out: &mut Writer, span: Option<Span>) -> Result<(), AllocError>
    ensures { Adds result out.old out.new (key (codes "span") ∷ json_tokens (span_json (option_map span_of span))) }
{
    out.key("span")?;
    write_offsets(out, span)
}

/// Writes `[begin,end]` or `null`.
fn write_offsets(out: &mut Writer, span: Option<Span>) -> Result<(), AllocError>
    ensures { Adds result out.old out.new (json_tokens (span_json (option_map span_of span))) }
{
    match span {
        Some(span) => write_both(out, span),
        None => out.null(),
    }
}

/// Writes `[begin,end]`.
fn write_both(out: &mut Writer, span: Span) -> Result<(), AllocError>
    ensures { Adds result out.old out.new (json_tokens (span_json (Some (span_of span)))) }
{
    out.begin_array()?;
    out.u64(u64::from(span.begin.byte))?;
    out.u64(u64::from(span.end.byte))?;
    out.end_array()
}

/// Writes the field of the line and column where a span begins.
fn write_begin(out: &mut Writer, ends: Option<ResolvedSpan>) -> Result<(), AllocError>
    ensures { Adds result out.old out.new (key (codes "begin") ∷ json_tokens (begin_json (option_map resolved_ends ends))) }
{
    out.key("begin")?;
    match ends {
        Some(ends) => write_position(out, ends.begin),
        None => out.null(),
    }
}

/// Writes the field of the line and column where it ends.
fn write_end(out: &mut Writer, ends: Option<ResolvedSpan>) -> Result<(), AllocError>
    ensures { Adds result out.old out.new (key (codes "end") ∷ json_tokens (end_json (option_map resolved_ends ends))) }
{
    out.key("end")?;
    match ends {
        Some(ends) => write_position(out, ends.end),
        None => out.null(),
    }
}

/// Writes a line and a column, both from 0.
fn write_position(out: &mut Writer, at: ResolvedPos) -> Result<(), AllocError>
    ensures { Adds result out.old out.new (json_tokens (position_json (place at))) }
{
    out.begin_object()?;
    write_count(out, "line", u64::from(at.line))?;
    write_count(out, "column", u64::from(at.column))?;
    out.end_object()
}
