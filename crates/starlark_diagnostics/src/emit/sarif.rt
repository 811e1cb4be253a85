//! A diagnostic as a result of SARIF.
ghost use Rattle.std.specs.Prelude.{◌≡◌, ◌∷◌, IfOk, Some, codes, flat_map, map, option_map, string_bytes};
ghost use Rattle.json.specs.Json.{array, item, no_items};
ghost use Rattle.json.specs.Print.{print};
ghost use Rattle.json.specs.Token.{key};
ghost use Rattle.json.specs.Tree.{json_tokens, members_tokens};
ghost use Rattle.starlark_lexer.specs.Tokens.{span_of};
ghost use Rattle.starlark_diagnostics.specs.Adds.{Adds};
ghost use Rattle.starlark_diagnostics.specs.Ends.{ends_of as ends_at, file_of, resolved_ends};
ghost use Rattle.starlark_diagnostics.specs.Json.{each_json};
ghost use Rattle.starlark_diagnostics.specs.Sarif as specs;
ghost use Rattle.starlark_diagnostics.specs.Sarif.{location_json, message_json, note_json, physical_json, region_field, region_json, result_json};
ghost use Rattle.starlark_diagnostics.specs.DiagnosticViews.{note_seen, seen};

use crate::diagnostic::{Diagnostic, Note};
use crate::emit::place::{column_number, ends_of, line_number};
use crate::emit::writer::{text_of, write_count, write_text};
use json::Writer;
use percent_encoding::{AsciiSet, NON_ALPHANUMERIC, ascii_set, utf8_percent_encode};
use starlark_lexer::codemap::{CodeMap, ResolvedSpan};
use std::alloc::{AllocError, Global};

/// The bytes of a path that are escaped in a URI: all but letters, digits, `-`, `.`, `_`, `~` and `/`.
const ESCAPED: AsciiSet = ascii_set!(
    NON_ALPHANUMERIC
        .remove(b'-')
        .remove(b'.')
        .remove(b'_')
        .remove(b'~')
        .remove(b'/')
);

/// A diagnostic as an object `result`.
pub(crate) fn sarif_text(
    alloc: Global,
    path: &str,
    codemap: Option<&CodeMap>,
    diagnostic: &Diagnostic,
) -> Result<String, AllocError>
    ensures { IfOk result (λ text. string_bytes text ≡ specs.sarif_text path.now (file_of codemap.entry) (seen diagnostic.now)) }
{
    let uri = uri_of(alloc, path)?;
    result_text(alloc, uri.as_str(), codemap, diagnostic)
}

/// A result of the file at this URI.
fn result_text(
    alloc: Global,
    uri: &str,
    codemap: Option<&CodeMap>,
    diagnostic: &Diagnostic,
) -> Result<String, AllocError>
    ensures { IfOk result (λ text. string_bytes text ≡ print (json_tokens (result_json uri.now (file_of codemap.entry) (seen diagnostic.now)))) }
{
    let mut out = Writer::new(Vec::new(alloc));
    write_result(&mut out, uri, codemap, diagnostic)?;
    text_of(out)
}

/// The path as a relative reference of a URI.
fn uri_of(alloc: Global, path: &str) -> Result<String, AllocError>
    ensures { IfOk result (λ uri. string_bytes uri ≡ specs.uri path.now) }
{
    let mut uri = String::new(alloc);
    utf8_percent_encode(path, ESCAPED).append_to(&mut uri)?;
    Ok(uri)
}

/// Writes a result.
fn write_result(
    out: &mut Writer,
    uri: &str,
    codemap: Option<&CodeMap>,
    diagnostic: &Diagnostic,
) -> Result<(), AllocError>
    ensures { Adds result out.old out.new (json_tokens (result_json uri.now (file_of codemap.entry) (seen diagnostic.now))) }
{
    let ends = ends_of(codemap, diagnostic.span);
    out.begin_object()?;
    write_text(out, "ruleId", diagnostic.code.name())?;
    write_text(out, "level", diagnostic.severity.name())?;
    write_message(out, diagnostic.message.as_str())?;
    write_locations(out, uri, ends)?;
    write_related(out, uri, codemap, diagnostic.notes.as_slice())?;
    out.end_object()
}

/// Writes the field of a message.
fn write_message(out: &mut Writer, message: &str) -> Result<(), AllocError>
    ensures { Adds result out.old out.new (key (codes "message") ∷ json_tokens (message_json message.now)) }
{
    out.key("message")?;
    out.begin_object()?;
    write_text(out, "text", message)?;
    out.end_object()
}

/// Writes the field of the one place.
fn write_locations(
    out: &mut Writer,
    uri: &str,
    ends: Option<ResolvedSpan>,
) -> Result<(), AllocError>
    ensures { Adds result out.old out.new (key (codes "locations")
        ∷ json_tokens (array (item (location_json uri.now (option_map resolved_ends ends)) no_items))) }
{
    out.key("locations")?;
    out.begin_array()?;
    write_location(out, uri, ends)?;
    out.end_array()
}

/// Writes a place.
fn write_location(out: &mut Writer, uri: &str, ends: Option<ResolvedSpan>) -> Result<(), AllocError>
    ensures { Adds result out.old out.new (json_tokens (location_json uri.now (option_map resolved_ends ends))) }
{
    out.begin_object()?;
    write_physical(out, uri, ends)?;
    out.end_object()
}

/// Writes the field of a place: the file, and the lines and columns from 1 if they are known.
fn write_physical(out: &mut Writer, uri: &str, ends: Option<ResolvedSpan>) -> Result<(), AllocError>
    ensures { Adds result out.old out.new (key (codes "physicalLocation") ∷ json_tokens (physical_json uri.now (option_map resolved_ends ends))) }
{
    out.key("physicalLocation")?;
    out.begin_object()?;
    out.key("artifactLocation")?;
    out.begin_object()?;
    write_text(out, "uri", uri)?;
    out.end_object()?;
    write_region(out, ends)
}

/// Writes the field of the lines and columns, if they are known, and ends the object.
fn write_region(out: &mut Writer, ends: Option<ResolvedSpan>) -> Result<(), AllocError>
    ensures { Adds result out.old out.new (members_tokens (region_field (option_map resolved_ends ends))) }
{
    match ends {
        Some(ends) => write_region_of(out, ends),
        None => out.end_object(),
    }
}

/// Writes the field of the lines and columns, and ends the object.
fn write_region_of(out: &mut Writer, ends: ResolvedSpan) -> Result<(), AllocError>
    ensures { Adds result out.old out.new (members_tokens (region_field (Some (resolved_ends ends)))) }
{
    out.key("region")?;
    write_ends(out, ends)?;
    out.end_object()
}

/// Writes the lines and columns.
fn write_ends(out: &mut Writer, ends: ResolvedSpan) -> Result<(), AllocError>
    ensures { Adds result out.old out.new (json_tokens (region_json (resolved_ends ends))) }
{
    out.begin_object()?;
    write_count(out, "startLine", line_number(ends.begin))?;
    write_count(out, "startColumn", column_number(ends.begin))?;
    write_count(out, "endLine", line_number(ends.end))?;
    write_count(out, "endColumn", column_number(ends.end))?;
    out.end_object()
}

/// Writes the field of the notes.
fn write_related(
    out: &mut Writer,
    uri: &str,
    codemap: Option<&CodeMap>,
    notes: &[Note],
) -> Result<(), AllocError>
    ensures { Adds result out.old out.new (key (codes "relatedLocations")
        ∷ json_tokens (array (each_json (note_json uri.now (file_of codemap.entry)) (map note_seen notes.now)))) }
{
    out.key("relatedLocations")?;
    out.begin_array()?;
    write_each_note(out, uri, codemap, notes)?;
    out.end_array()
}

/// Writes the notes one after another.
fn write_each_note(
    out: &mut Writer,
    uri: &str,
    codemap: Option<&CodeMap>,
    notes: &[Note],
) -> Result<(), AllocError>
    ensures { Adds result out.old out.new (flat_map (λ note. json_tokens (note_json uri.now (file_of codemap.entry) (note_seen note))) notes.now) }
{
    for note in notes {
        write_note(out, uri, codemap, note)?;
    }
    Ok(())
}

/// Writes a note: its message and its place. A note without a span is on the whole file.
fn write_note(
    out: &mut Writer,
    uri: &str,
    codemap: Option<&CodeMap>,
    note: &Note,
) -> Result<(), AllocError>
    ensures { Adds result out.old out.new (json_tokens (note_json uri.now (file_of codemap.entry) (note_seen note.now))) }
{
    out.begin_object()?;
    write_message(out, note.message.as_str())?;
    write_physical(out, uri, ends_of(codemap, note.span))?;
    out.end_object()
}
