//! How string literals, bytes literals and f-strings open.
ghost use Rattle.std.specs.Prelude.{◌≡◌, ◌≤◌};
ghost use Rattle.starlark_lexer.specs.Openings as spec;

use crate::text::byte_at;

/// How a literal is read, according to its prefix and its opening quotes.
#[derive(Clone, Copy)]
pub(crate) struct Style {
    /// `'` or `"`.
    pub(crate) quote: u8,
    /// The quote is written three times.
    pub(crate) triple: bool,
    /// A `\` stays.
    pub(crate) raw: bool,
    /// The value is bytes.
    pub(crate) bytes: bool,
    /// It is an f-string.
    pub(crate) format: bool,
}

/// The letters before the opening quotes.
#[derive(Clone, Copy)]
struct Prefix {
    len: usize,
    raw: bool,
    bytes: bool,
    format: bool,
}

#[tactic(auto, unfolding(crate::specs::Openings::prefix))]
fn read_prefix(first: u8, second: u8) -> Prefix
    ensures prefix { result ≡ spec.prefix first second }
    ensures len { result.len ≤ 2 }
{
    let (len, raw, bytes, format) = match (first, second) {
        (b'r', b'b') => (2, true, true, false),
        (b'b', b'r') => (2, true, true, false),
        (b'f', b'r') => (2, true, false, true),
        (b'r', b'f') => (2, true, false, true),
        (b'r', _) => (1, true, false, false),
        (b'b', _) => (1, false, true, false),
        (b'f', _) => (1, false, false, true),
        _ => (0, false, false, false),
    };
    Prefix {
        len,
        raw,
        bytes,
        format,
    }
}

/// The length of the quotes.
pub(crate) fn quotes_len(triple: bool) -> usize
    ensures { result ≡ spec.quotes_len triple }
{
    if triple { 3 } else { 1 }
}

/// How the literal at the front is read, and the length of its prefix and its opening quotes. `None` if no literal begins.
#[tactic(auto, unfolding(crate::specs::Openings::opening))]
pub(crate) fn opening(rest: &[u8]) -> Option<(Style, usize)>
    ensures { result ≡ spec.opening rest.now }
{
    let first = byte_at(rest, 0);
    if first != b'"' && first != b'\'' && first != b'b' && first != b'f' && first != b'r' {
        return None;
    }
    let prefix = read_prefix(first, byte_at(rest, 1));
    let quote = byte_at(rest, prefix.len);
    if quote != b'"' && quote != b'\'' {
        return None;
    }
    let triple = byte_at(rest, prefix.len + 1) == quote && byte_at(rest, prefix.len + 2) == quote;
    let style = Style {
        quote,
        triple,
        raw: prefix.raw,
        bytes: prefix.bytes,
        format: prefix.format,
    };
    Some((style, prefix.len + quotes_len(triple)))
}
