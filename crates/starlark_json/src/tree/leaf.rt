//! Spans, names, and the start of a node.
ghost use Rattle.std.specs.Prelude.{◌++◌, codes};
ghost use Rattle.json.specs.Tree.{json_tokens};
ghost use Rattle.starlark_lexer.specs.Tokens.{span_of};
ghost use Rattle.starlark_tree.specs.Views.{word_at};
ghost use Rattle.starlark_json.specs.Tree.Adds.{Adds};
ghost use Rattle.starlark_json.specs.Tree.Fields.{span_json};
ghost use Rattle.starlark_json.specs.Tree.Tokens.{head, closing, text_field, word_field};

use json::Writer;
use starlark_lexer::codemap::Span;
use std::alloc::AllocError;

/// Writes `[begin,end]`, the byte offsets of a span.
///
/// Fails if an allocation fails, with some of the tokens written.
pub fn write_span(out: &mut Writer, span: Span) -> Result<(), AllocError>
    ensures { Adds result out.old out.new (json_tokens (span_json (span_of span))) }
{
    out.begin_array()?;
    out.u64(u64::from(span.begin.byte))?;
    out.u64(u64::from(span.end.byte))?;
    out.end_array()
}

/// The start of a node, up to its own fields: `{"expr":"Op","span":[0,5]`.
pub(crate) fn write_head(
    out: &mut Writer,
    family: &str,
    kind: &str,
    span: Span,
) -> Result<(), AllocError>
    ensures { Adds result out.old out.new (head family.now kind.now (span_of span)) }
{
    out.begin_object()?;
    out.key(family)?;
    out.string(kind)?;
    out.key("span")?;
    write_span(out, span)
}

/// A field that is a text.
pub fn write_text(out: &mut Writer, field: &str, text: &str) -> Result<(), AllocError>
    ensures { Adds result out.old out.new (text_field field.now text.now) }
{
    out.key(field)?;
    out.string(text)
}

/// A field that is a text with its span: `"attribute":{"span":[2,5],"text":"abc"}`.
pub(crate) fn write_word(
    out: &mut Writer,
    field: &str,
    text: &str,
    span: Span,
) -> Result<(), AllocError>
    ensures { Adds result out.old out.new (word_field field.now (word_at text.now (span_of span))) }
{
    out.key(field)?;
    out.begin_object()?;
    out.key("span")?;
    write_span(out, span)?;
    write_text(out, "text", text)?;
    out.end_object()
}

/// A node without fields of its own.
pub(crate) fn write_bare(
    out: &mut Writer,
    family: &str,
    kind: &str,
    span: Span,
) -> Result<(), AllocError>
    ensures { Adds result out.old out.new (head family.now kind.now (span_of span) ++ closing) }
{
    write_head(out, family, kind, span)?;
    out.end_object()
}

/// A node whose one field is its name.
pub(crate) fn write_name(
    out: &mut Writer,
    family: &str,
    name: &str,
    span: Span,
) -> Result<(), AllocError>
    ensures { Adds result out.old out.new (head family.now (codes "Identifier") (span_of span) ++ (text_field (codes "name") name.now ++ closing)) }
{
    write_head(out, family, "Identifier", span)?;
    write_text(out, "name", name)?;
    out.end_object()
}
