//! Escapes in strings and bytes literals.
ghost use Rattle.std.specs.Prelude.{◌≡◌, ℕ, ◌+◌, ◌<◌, ◌≤◌, length, drop, take, slice_index};
ghost use Rattle.std.specs.Str.Parse.{digits_value};
ghost use Rattle.starlark_lexer.specs.Escapes as spec;

use crate::lines::newline_len;
use crate::text::{Class, byte_at, front, run_len, skip_one};

/// What a piece of a literal adds to its value.
#[derive(Clone, Copy)]
pub(crate) enum Adds {
    /// The first bytes of the piece, unchanged; this many.
    Front(usize),
    Char(char),
    /// A byte in bytes literals; in strings, the character with this number.
    Byte(u8),
}

/// A piece of a literal: what it adds to the value, and its length in bytes.
#[derive(Clone, Copy)]
pub(crate) struct Piece {
    pub(crate) adds: Adds,
    pub(crate) len: usize,
}

/// Why the pieces of a literal end.
#[derive(Clone, Copy, PartialEq, Eq, Debug)]
pub(crate) enum Stop {
    /// At the closing quotes.
    Closed,
    /// At the end of the text, or before the newline that ends the line.
    Unfinished,
    /// At the `{` of an f-string's hole.
    Hole,
    /// At a `}` that closes no hole.
    LoneBrace,
    /// At an escape that denotes nothing: its `\` and what after it fits the escape are this many bytes.
    BadEscape(usize),
}

/// What is left after an ASCII byte other than 0.
pub(crate) fn after_byte(text: &str) -> &str
    requires some { 0 < slice_index text.now 0 }
    requires ascii { slice_index text.now 0 < 128 }
    ensures { result.now ≡ drop 1 text.now }
{
    skip_one(text)
}

fn simple_escape(letter: u8) -> Option<char>
    ensures { result ≡ spec.simple_escape letter }
{
    match letter {
        b'a' => Some('\u{7}'),
        b'b' => Some('\u{8}'),
        b'f' => Some('\u{c}'),
        b'n' => Some('\n'),
        b'r' => Some('\r'),
        b't' => Some('\t'),
        b'v' => Some('\u{b}'),
        b'\\' => Some('\\'),
        b'\'' => Some('\''),
        b'"' => Some('"'),
        _ => None,
    }
}

/// How many digits are at the front, of at most `most`, and the number that they denote.
fn digits(text: &str, base: u32, most: usize) -> (usize, u32)
    requires low { 2 ≤ base }
    requires high { base ≤ 16 }
    requires few { most ≤ 8 }
    ensures len { result.0 ≡ spec.digits_len base most text.now }
    ensures value { result.1 ≡ digits_value base (take result.0 text.now) }
    ensures few { result.0 ≤ most }
{
    let run = run_len(text.as_bytes(), Class::Base(base));
    let len = if run < most { run } else { most };
    let value = u32::from_str_radix(front(text, len, Class::Base(base)), base).unwrap_or(0);
    (len, value)
}

/// An escape by a number: that byte, or past 255 the character with this number, which does not fit a byte.
#[tactic(auto, unfolding(crate::specs::Escapes::numbered))]
fn numbered(number: u32, bytes: bool, len: usize) -> Result<Piece, Stop>
    ensures { result ≡ spec.numbered bytes number len }
{
    if number < 256 {
        return Ok(Piece {
            adds: Adds::Byte(number as u8),
            len,
        });
    }
    match char::from_u32(number) {
        Some(c) if !bytes => Ok(Piece {
            adds: Adds::Char(c),
            len,
        }),
        _ => Err(Stop::BadEscape(len)),
    }
}

#[tactic(auto, unfolding(crate::specs::Escapes::octal_escape))]
fn octal_escape(digits_and_rest: &str, bytes: bool) -> Result<Piece, Stop>
    ensures { result ≡ spec.octal_escape bytes digits_and_rest.now }
{
    let (len, number) = digits(digits_and_rest, 8, 3);
    numbered(number, bytes, 1 + len)
}

#[tactic(auto, unfolding(crate::specs::Escapes::hex_escape))]
fn hex_escape(digits_and_rest: &str, bytes: bool) -> Result<Piece, Stop>
    ensures { result ≡ spec.hex_escape bytes digits_and_rest.now }
{
    let (len, number) = digits(digits_and_rest, 16, 2);
    if len == 2 {
        numbered(number, bytes, 4)
    } else {
        Err(Stop::BadEscape(2 + len))
    }
}

#[tactic(auto, unfolding(crate::specs::Escapes::unicode_escape))]
fn unicode_escape(digits_and_rest: &str, count: usize) -> Result<Piece, Stop>
    requires { count ≤ 8 }
    ensures { result ≡ spec.unicode_escape count digits_and_rest.now }
{
    let (len, number) = digits(digits_and_rest, 16, count);
    match char::from_u32(number) {
        Some(c) if len == count => Ok(Piece {
            adds: Adds::Char(c),
            len: 2 + len,
        }),
        _ => Err(Stop::BadEscape(2 + len)),
    }
}

/// An escape of one letter, or a `\` that stays.
#[tactic(auto, unfolding(crate::specs::Escapes::letter_escape))]
fn letter_escape(letter: u8) -> Piece
    ensures { result ≡ spec.letter_escape letter }
{
    match simple_escape(letter) {
        Some(c) => Piece {
            adds: Adds::Char(c),
            len: 2,
        },
        None => Piece {
            adds: Adds::Front(1),
            len: 1,
        },
    }
}

/// The piece that begins with a `\`, in a literal that is not raw.
#[tactic(auto, unfolding(crate::specs::Escapes::escape))]
pub(crate) fn escape(rest: &str, bytes: bool) -> Result<Piece, Stop>
    requires { slice_index rest.now 0 ≡ 92 }
    ensures { result ≡ spec.escape bytes rest.now }
{
    let after = after_byte(rest);
    let joined = newline_len(after.as_bytes());
    if joined > 0 {
        return Ok(Piece {
            adds: Adds::Front(0),
            len: 1 + joined,
        });
    }
    match byte_at(after.as_bytes(), 0) {
        b'0'..=b'7' => octal_escape(after, bytes),
        b'x' => hex_escape(after_byte(after), bytes),
        b'u' => unicode_escape(after_byte(after), 4),
        b'U' => unicode_escape(after_byte(after), 8),
        letter => Ok(letter_escape(letter)),
    }
}
