//! The pieces of literals: runs of plain bytes, and what other bytes begin.
ghost use Rattle.std.specs.Prelude.{◌≡◌, ◌+◌, ◌<◌, ◌≤◌, true, length, drop, Ok};
ghost use Rattle.std.specs.List.{prefix_len};
ghost use Rattle.starlark_lexer.specs.Openings.{is_quote};
ghost use Rattle.starlark_lexer.specs.Pieces as spec;

use crate::string::escape::{Adds, Piece, Stop, escape};
use crate::string::opening::Style;
use crate::text::byte_at;

/// A `.` for each byte that denotes itself in every literal, unless it is the quote of the literal.
static PLAIN_BYTES: [u8; 256] = *b"\
    ..........#..#..................\
    ................................\
    ............................#...\
    ...........................#.#..\
    ................................\
    ................................\
    ................................\
    ................................";

/// Whether a byte denotes itself everywhere in the literal.
fn is_plain(style: Style, byte: u8) -> bool
    ensures { result ≡ spec.is_plain style byte }
{
    byte != style.quote
        && (PLAIN_BYTES[byte as usize] == b'.'
            || byte != b'\\'
                && (style.triple || byte != b'\n' && byte != b'\r')
                && (!style.format || byte != b'{' && byte != b'}'))
}

/// How many bytes at the front denote themselves everywhere. Four bytes are compared per turn.
#[inline(never)]
fn plain_len(style: Style, bytes: &[u8]) -> usize
    ensures len { result ≡ prefix_len (spec.is_plain style) bytes.now }
    ensures within { result ≤ length bytes.now }
{
    let mut at = 0;
    'fours: while bytes.len() - at >= 4 {
        if !is_plain(style, bytes[at]) {
            return at;
        }
        if !is_plain(style, bytes[at + 1]) {
            return at + 1;
        }
        if !is_plain(style, bytes[at + 2]) {
            return at + 2;
        }
        if !is_plain(style, bytes[at + 3]) {
            return at + 3;
        }
        at += 4;
    }
    'ones: while at < bytes.len() && is_plain(style, bytes[at]) {
        at += 1;
    }
    at
}

/// This many bytes, unchanged.
fn as_it_stands(len: usize) -> Piece
    ensures { result ≡ spec.as_it_stands len }
{
    Piece {
        adds: Adds::Front(len),
        len,
    }
}

#[tactic(auto, unfolding(crate::specs::Pieces::at_quote))]
fn at_quote(style: Style, bytes: &[u8]) -> Result<Piece, Stop>
    ensures { result ≡ spec.at_quote style bytes.now }
{
    if style.triple && !(byte_at(bytes, 1) == style.quote && byte_at(bytes, 2) == style.quote) {
        Ok(as_it_stands(1))
    } else {
        Err(Stop::Closed)
    }
}

#[tactic(auto, unfolding(crate::specs::Pieces::raw_backslash))]
fn raw_backslash(style: Style, bytes: &[u8]) -> Piece
    ensures { result ≡ spec.raw_backslash style bytes.now }
{
    let next = byte_at(bytes, 1);
    if next == style.quote || next == b'\\' {
        as_it_stands(2)
    } else {
        as_it_stands(1)
    }
}

/// A brace in the text of an f-string.
#[tactic(auto, unfolding(crate::specs::Pieces::at_brace))]
fn at_brace(bytes: &[u8], stop: Stop) -> Result<Piece, Stop>
    ensures { result ≡ spec.at_brace stop bytes.now }
{
    if byte_at(bytes, 1) == byte_at(bytes, 0) {
        Ok(Piece {
            adds: Adds::Front(1),
            len: 2,
        })
    } else {
        Err(stop)
    }
}

#[tactic(auto, unfolding(crate::specs::Pieces::at_newline))]
fn at_newline(bytes: &[u8]) -> Result<Piece, Stop>
    ensures { result ≡ spec.at_newline bytes.now }
{
    if byte_at(bytes, 0) == b'\r' && byte_at(bytes, 1) != b'\n' {
        Ok(as_it_stands(1))
    } else {
        Err(Stop::Unfinished)
    }
}

#[inline(always)]
#[tactic(auto, unfolding(crate::specs::Pieces::special))]
fn special(style: Style, rest: &str) -> Result<Piece, Stop>
    ensures { result ≡ spec.special style rest.now }
{
    let bytes = rest.as_bytes();
    let first = byte_at(bytes, 0);
    if first == style.quote {
        at_quote(style, bytes)
    } else if first == b'\\' {
        if style.raw {
            Ok(raw_backslash(style, bytes))
        } else {
            escape(rest, style.bytes)
        }
    } else if first == b'{' {
        at_brace(bytes, Stop::Hole)
    } else if first == b'}' {
        at_brace(bytes, Stop::LoneBrace)
    } else {
        at_newline(bytes)
    }
}

/// The piece at the front of what is left of a literal, or why there is none.
#[inline(always)]
#[tactic(auto, unfolding(crate::specs::Pieces::piece))]
pub(crate) fn next_piece(style: Style, rest: &str) -> Result<Piece, Stop>
    ensures { result ≡ spec.piece style rest.now }
{
    let plain = plain_len(style, rest.as_bytes());
    if plain > 0 {
        Ok(as_it_stands(plain))
    } else {
        special(style, rest)
    }
}

/// What is left after a piece.
pub(crate) fn after_piece(style: Style, rest: &str, found: Piece) -> &str
    requires quote { is_quote style.quote ≡ true }
    requires piece { spec.piece style rest.now ≡ Ok found }
    ensures rest { result.now ≡ drop found.len rest.now }
    ensures len { found.len + length result.now ≡ length rest.now }
    ensures some { 0 < found.len }
{
    &rest[found.len..]
}
