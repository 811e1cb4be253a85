//! The formats of f-strings.
ghost use Rattle.std.specs.Prelude.{◌≡◌, ◌+◌, ◌<◌, ◌==◌, ◌&&◌, ◌^◌, length, slice_index};
ghost use Rattle.starlark_source.specs.Formats.{MarkFits, mark_of};

/// What is at a position of a format.
#[derive(Clone, Copy)]
pub(crate) enum Mark {
    /// A byte that is not a brace.
    Text,
    /// `{{` or `}}`: a brace of the text.
    Brace,
    /// `{}`: a hole for an expression.
    Hole,
    /// `{!r}`: the same, with its conversion.
    ReprHole,
    /// Any other brace.
    Broken,
}

/// The byte at `index`, or 0 past the end.
fn byte_at(bytes: &[u8], index: usize) -> u8
    ensures { result ≡ slice_index bytes.now index }
{
    if index < bytes.len() { bytes[index] } else { 0 }
}

/// What is at a position inside the format.
pub(crate) fn mark_at(format: &str, at: usize) -> Mark
    requires { at < length format.now }
    ensures mark { result ≡ mark_of (slice_index format.now at) (slice_index format.now (at + 1)) (slice_index format.now (at + 2))
        (slice_index format.now (at + 3)) }
    ensures fits { MarkFits format.now at result }
{
    let bytes = format.as_bytes();
    let first = byte_at(bytes, at);
    let second = byte_at(bytes, at + 1);
    if first == b'{' {
        if second == b'{' {
            Mark::Brace
        } else if second == b'}' {
            Mark::Hole
        } else if second == b'!' && ends_place(bytes, at + 2) {
            Mark::ReprHole
        } else {
            Mark::Broken
        }
    } else if first == b'}' {
        if second == b'}' {
            Mark::Brace
        } else {
            Mark::Broken
        }
    } else {
        Mark::Text
    }
}

/// Whether `r}` is at this position.
fn ends_place(bytes: &[u8], at: usize) -> bool
    requires { at < 2 ^ 63 }
    ensures { result ≡ (slice_index bytes.now at == 114 && slice_index bytes.now (at + 1) == 125) }
{
    byte_at(bytes, at) == b'r' && byte_at(bytes, at + 1) == b'}'
}
