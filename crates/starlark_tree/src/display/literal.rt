//! The text of literals (Starlark specification, "String literals").
ghost use Rattle.std.specs.Prelude.{◌≡◌, ◌∷◌, [], ◌++◌, ◌<◌, ◌≤◌, Some, codes, flat_map, length, IfSome, IfNone};
ghost use Rattle.std.specs.Fmt.{WritesOnOk};
ghost use Rattle.std.specs.List.{prefix_len};
ghost use Rattle.starlark_tree.specs.Literals.{escaped, escaped_byte, quoted, quoted_bytes, literal_text, hex_digit as hex_digit_of};
ghost use Rattle.starlark_tree.specs.Escapes as escapes;
ghost use Rattle.starlark_tree.specs.Views.{literal_seen};

use crate::ast::AstLiteral;
use std::fmt;

/// A text that is displayed as a string literal: in `"`, with line feed, tab, carriage return, the character 0, `"` and
/// `\` escaped and all other characters unchanged.
#[derive(Clone, Copy, Debug)]
pub struct Quoted<'a>(pub &'a str);

impl<'a> fmt::Display for Quoted<'a> {
    ghost output = { λ text. Some (quoted text.0.now) };

    fn fmt<W: fmt::Write>(&self, f: &mut fmt::Formatter<W>) -> fmt::Result {
        write_quoted(self.0, f)
    }
}

/// Numbers are displayed as they are written, integers of 32 bits in decimal. Bytes are displayed in `b".."`, with
/// `\x` and two digits for what is not printable ASCII.
impl fmt::Display for AstLiteral {
    ghost output = { λ literal. Some (literal_text (literal_seen literal)) };

    fn fmt<W: fmt::Write>(&self, f: &mut fmt::Formatter<W>) -> fmt::Result {
        match self {
            AstLiteral::Int(n) => n.node.fmt(f),
            AstLiteral::Float(text) => f.write_str(text.node.as_str()),
            AstLiteral::String(text) => write_quoted(text.node.as_str(), f),
            AstLiteral::Bytes(bytes) => write_quoted_bytes(&bytes.node, f),
            AstLiteral::Ellipsis => f.write_str("..."),
        }
    }
}

/// The escape of a byte, if it has one.
fn escape_of(byte: u8) -> Option<&'static str>
    ensures some { IfSome result (λ text. (text.now ≡ escaped byte) × (byte < 128)) }
    ensures none { IfNone result (escaped byte ≡ byte ∷ []) }
{
    match byte {
        b'\n' => Some("\\n"),
        b'\t' => Some("\\t"),
        b'\r' => Some("\\r"),
        0 => Some("\\0"),
        b'"' => Some("\\\""),
        b'\\' => Some("\\\\"),
        _ => None,
    }
}

/// A `.` for each byte that has no escape.
static PLAIN_BYTES: [u8; 256] = *b"\
    #........##..#..................\
    ..#.............................\
    ............................#...\
    ................................\
    ................................\
    ................................\
    ................................\
    ................................";

/// Whether a byte has no escape.
fn is_plain(byte: u8) -> bool
    ensures { result ≡ escapes.is_plain byte }
{
    PLAIN_BYTES[byte as usize] == b'.'
}

/// How many bytes at the front have no escape. Four bytes are compared per turn.
#[inline(never)]
fn plain_len(bytes: &[u8]) -> usize
    ensures len { result ≡ prefix_len escapes.is_plain bytes.now }
    ensures within { result ≤ length bytes.now }
{
    let mut at = 0;
    'fours: while bytes.len() - at >= 4 {
        if !is_plain(bytes[at]) {
            return at;
        }
        if !is_plain(bytes[at + 1]) {
            return at + 1;
        }
        if !is_plain(bytes[at + 2]) {
            return at + 2;
        }
        if !is_plain(bytes[at + 3]) {
            return at + 3;
        }
        at += 4;
    }
    'ones: while at < bytes.len() && is_plain(bytes[at]) {
        at += 1;
    }
    at
}

/// Writes the text, the part between two escapes in one piece.
fn write_escaped<W: fmt::Write>(s: &str, f: &mut fmt::Formatter<W>) -> fmt::Result
    ensures { WritesOnOk W.write_str_gives f.old result (flat_map escaped s.now) f.new }
{
    let mut rest = s;
    'pieces: loop {
        let plain = plain_len(rest.as_bytes());
        if plain == rest.len() {
            return f.write_str(rest);
        }
        if let Some(text) = escape_of(rest.as_bytes()[plain]) {
            f.write_str(&rest[..plain])?;
            f.write_str(text)?;
            rest = &rest[plain + 1..];
        }
    }
}

pub(crate) fn write_quoted<W: fmt::Write>(s: &str, f: &mut fmt::Formatter<W>) -> fmt::Result
    ensures { WritesOnOk W.write_str_gives f.old result (quoted s.now) f.new }
{
    f.write_str("\"")?;
    write_escaped(s, f)?;
    f.write_str("\"")
}

fn hex_digit(digit: u8) -> char
    requires { digit < 16 }
    ensures value { result ≡ hex_digit_of digit }
    ensures ascii { result < 128 }
{
    char::from(if digit < 10 {
        b'0' + digit
    } else {
        b'a' - 10 + digit
    })
}

fn write_escaped_byte<W: fmt::Write>(byte: u8, f: &mut fmt::Formatter<W>) -> fmt::Result
    ensures { WritesOnOk W.write_str_gives f.old result (escaped_byte byte) f.new }
{
    match byte {
        b'"' => f.write_str("\\\""),
        b'\\' => f.write_str("\\\\"),
        b'\n' => f.write_str("\\n"),
        b'\r' => f.write_str("\\r"),
        b'\t' => f.write_str("\\t"),
        32..=126 => f.write_char(char::from(byte)),
        _ => {
            f.write_str("\\x")?;
            f.write_char(hex_digit(byte / 16))?;
            f.write_char(hex_digit(byte % 16))
        }
    }
}

fn write_escaped_bytes<W: fmt::Write>(bytes: &[u8], f: &mut fmt::Formatter<W>) -> fmt::Result
    ensures { WritesOnOk W.write_str_gives f.old result (flat_map escaped_byte bytes.now) f.new }
{
    for byte in bytes {
        write_escaped_byte(*byte, f)?;
    }
    Ok(())
}

fn write_quoted_bytes<W: fmt::Write>(bytes: &[u8], f: &mut fmt::Formatter<W>) -> fmt::Result
    ensures { WritesOnOk W.write_str_gives f.old result (quoted_bytes bytes.now) f.new }
{
    f.write_str("b\"")?;
    write_escaped_bytes(bytes, f)?;
    f.write_str("\"")
}
