//! Numbers, texts, and the start of a node.
ghost use Rattle.std.specs.Prelude.{◌++◌};
ghost use Rattle.starlark_compact.specs.Adds.{Adds};
ghost use Rattle.starlark_compact.specs.Bytes.{number as number_bytes, count as count_bytes, sized, span_bytes, word_bytes, mark, node};
ghost use Rattle.starlark_lexer.specs.Tokens.{span_of};
ghost use Rattle.starlark_tree.specs.Views.{word_at};

use crate::kind::Kind;
use starlark_lexer::codemap::Span;
use std::alloc::AllocError;

/// Four bytes, the lowest first.
#[tactic(auto, unfolding(crate::specs::Bytes::number))]
pub(crate) fn write_number(out: &mut Vec<u8>, number: u32) -> Result<(), AllocError>
    ensures { Adds result out.old out.new (number_bytes number) }
{
    out.extend_from_slice(&number.to_le_bytes())
}

/// A count: eight bytes, the lowest first.
#[tactic(auto, unfolding(crate::specs::Bytes::count))]
pub(crate) fn write_count(out: &mut Vec<u8>, count: usize) -> Result<(), AllocError>
    ensures { Adds result out.old out.new (count_bytes count) }
{
    out.extend_from_slice(&count.to_le_bytes())
}

/// Bytes after their count.
pub(crate) fn write_bytes(out: &mut Vec<u8>, bytes: &[u8]) -> Result<(), AllocError>
    ensures { Adds result out.old out.new (sized bytes.now) }
{
    write_count(out, bytes.len())?;
    out.extend_from_slice(bytes)
}

/// The byte offsets of a span.
pub(crate) fn write_span(out: &mut Vec<u8>, span: Span) -> Result<(), AllocError>
    ensures { Adds result out.old out.new (span_bytes (span_of span)) }
{
    write_number(out, span.begin.byte)?;
    write_number(out, span.end.byte)
}

/// A text after its span.
pub(crate) fn write_word(out: &mut Vec<u8>, text: &str, span: Span) -> Result<(), AllocError>
    ensures { Adds result out.old out.new (word_bytes (word_at text.now (span_of span))) }
{
    write_span(out, span)?;
    write_bytes(out, text.as_bytes())
}

/// A node that has no span.
pub(crate) fn write_kind(out: &mut Vec<u8>, kind: Kind) -> Result<(), AllocError>
    ensures { Adds result out.old out.new (mark kind) }
{
    write_number(out, kind.number())
}

/// A node without fields of its own, or the start of one.
pub(crate) fn write_node(out: &mut Vec<u8>, kind: Kind, span: Span) -> Result<(), AllocError>
    ensures { Adds result out.old out.new (node kind (span_of span)) }
{
    write_kind(out, kind)?;
    write_span(out, span)
}

/// A node that has a count.
pub(crate) fn write_counted(
    out: &mut Vec<u8>,
    kind: Kind,
    span: Span,
    count: usize,
) -> Result<(), AllocError>
    ensures { Adds result out.old out.new (node kind (span_of span) ++ count_bytes count) }
{
    write_node(out, kind, span)?;
    write_count(out, count)
}

/// A node that has a number.
pub(crate) fn write_numbered(
    out: &mut Vec<u8>,
    kind: Kind,
    span: Span,
    number: u32,
) -> Result<(), AllocError>
    ensures { Adds result out.old out.new (node kind (span_of span) ++ number_bytes number) }
{
    write_node(out, kind, span)?;
    write_number(out, number)
}

/// A node that has bytes.
pub(crate) fn write_valued(
    out: &mut Vec<u8>,
    kind: Kind,
    span: Span,
    bytes: &[u8],
) -> Result<(), AllocError>
    ensures { Adds result out.old out.new (node kind (span_of span) ++ sized bytes.now) }
{
    write_node(out, kind, span)?;
    write_bytes(out, bytes)
}

/// A node that has a text with a span of its own.
pub(crate) fn write_named(
    out: &mut Vec<u8>,
    kind: Kind,
    span: Span,
    text: &str,
    at: Span,
) -> Result<(), AllocError>
    ensures { Adds result out.old out.new (node kind (span_of span) ++ word_bytes (word_at text.now (span_of at))) }
{
    write_node(out, kind, span)?;
    write_word(out, text, at)
}
