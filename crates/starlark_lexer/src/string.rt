//! String and bytes literals, and the text pieces of f-strings.
ghost use Rattle.std.specs.Prelude.{◌≡◌, ◌+◌, ◌++◌, true, false, take, drop, string_bytes, OnOk, IfOk, Some, Ok};
ghost use Rattle.std.specs.Str.{IsCharBoundary};
ghost use Rattle.starlark_lexer.specs.declared.string.escape.Adds.TheVariants.{Front};
ghost use Rattle.starlark_lexer.specs.Cutting.{Cuts};
ghost use Rattle.starlark_lexer.specs.Openings as openings;
ghost use Rattle.starlark_lexer.specs.Openings.{is_quote};
ghost use Rattle.starlark_lexer.specs.Pieces as pieces;
ghost use Rattle.starlark_lexer.specs.Strings as spec;
ghost use Rattle.starlark_lexer.specs.Tokens.{terminal};

pub(crate) mod escape;
pub(crate) mod opening;
mod piece;

use crate::cut::{Cut, refused, token};
use crate::string::escape::{Adds, Piece, Stop};
use crate::string::opening::{Style, quotes_len};
use crate::string::piece::{after_piece, next_piece};
use crate::token::{LexerErrorKind, Token};
use std::alloc::{AllocError, Global};

/// Whether a piece is the same in the value and in the text.
fn is_verbatim(found: Piece) -> bool
    ensures { result ≡ true → found.adds ≡ Front found.len }
{
    matches!(found.adds, Adds::Front(len) if len == found.len)
}

/// The length of a literal's pieces up to what stops them, and whether its value is the same text. Allocates nothing.
pub(crate) fn scan(style: Style, rest: &str) -> (usize, Stop, bool)
    requires { is_quote style.quote ≡ true }
    ensures len { result.0 ≡ (spec.run style rest.now).len }
    ensures stop { result.1 ≡ (spec.run style rest.now).stop }
    ensures there { spec.StopsAt style (drop result.0 rest.now) result.1 }
    ensures verbatim { result.2 ≡ true → (spec.run style rest.now).value ≡ take result.0 rest.now }
    ensures begin { IsCharBoundary rest.now result.0 }
    ensures end { IsCharBoundary rest.now (result.0 + spec.stop_len style result.1) }
{
    let mut len = 0;
    let mut verbatim = true;
    let mut left = rest;
    'pieces: loop {
        match next_piece(style, left) {
            Ok(found) => {
                left = after_piece(style, left, found);
                len += found.len;
                verbatim &= is_verbatim(found);
            }
            Err(stop) => return (len, stop, verbatim),
        }
    }
}

fn push_piece(value: &mut String, style: Style, rest: &str, found: Piece) -> Result<(), AllocError>
    requires quote { is_quote style.quote ≡ true }
    requires piece { pieces.piece style rest.now ≡ Ok found }
    ensures { OnOk result (string_bytes value.new ≡ string_bytes value.old ++ pieces.added false rest.now found.adds) }
{
    match found.adds {
        Adds::Front(len) => value.push_str(&rest[..len]),
        Adds::Char(c) => value.push(c),
        Adds::Byte(byte) => value.push(char::from(byte)),
    }
}

/// The value of a literal other than bytes, up to what stops its pieces. They are `len` bytes long and `verbatim`, as `scan` returned.
pub(crate) fn decode(
    alloc: Global,
    style: Style,
    rest: &str,
    len: usize,
    verbatim: bool,
) -> Result<String, AllocError>
    requires quote { is_quote style.quote ≡ true }
    requires text { style.bytes ≡ false }
    requires len { len ≡ (spec.run style rest.now).len }
    requires begin { IsCharBoundary rest.now len }
    requires verbatim { verbatim ≡ true → (spec.run style rest.now).value ≡ take len rest.now }
    ensures value { IfOk result (λ value. string_bytes value ≡ (spec.run style rest.now).value) }
    ensures raw { spec.IsVerbatim style → IfOk result (λ value. string_bytes value ≡ take len rest.now) }
{
    if verbatim {
        return String::from_str(alloc, &rest[..len]);
    }
    let mut value = String::with_capacity(alloc, len)?;
    let mut left = rest;
    'pieces: loop {
        let Ok(found) = next_piece(style, left) else {
            return Ok(value);
        };
        push_piece(&mut value, style, left, found)?;
        left = after_piece(style, left, found);
    }
}

fn push_byte_piece(
    value: &mut Vec<u8>,
    style: Style,
    rest: &str,
    found: Piece,
) -> Result<(), AllocError>
    requires quote { is_quote style.quote ≡ true }
    requires piece { pieces.piece style rest.now ≡ Ok found }
    ensures { OnOk result (value.new.items ≡ value.old.items ++ pieces.added true rest.now found.adds) }
{
    match found.adds {
        Adds::Front(len) => value.extend_from_slice(rest[..len].as_bytes()),
        Adds::Char(c) => {
            let mut buffer = [0; 4];
            value.extend_from_slice(c.encode_utf8(&mut buffer).as_bytes())
        }
        Adds::Byte(byte) => Ok(value.push(byte)?),
    }
}

/// The value of a bytes literal, up to what stops its pieces. They are `len` bytes long, as `scan` returned.
pub(crate) fn decode_bytes(
    alloc: Global,
    style: Style,
    rest: &str,
    len: usize,
) -> Result<Vec<u8>, AllocError>
    requires quote { is_quote style.quote ≡ true }
    requires bytes { style.bytes ≡ true }
    requires len { len ≡ (spec.run style rest.now).len }
    ensures value { IfOk result (λ value. value.items ≡ (spec.run style rest.now).value) }
    ensures raw { spec.IsVerbatim style → IfOk result (λ value. value.items ≡ take len rest.now) }
{
    let mut value = Vec::with_capacity(alloc, len)?;
    let mut left = rest;
    'pieces: loop {
        let Ok(found) = next_piece(style, left) else {
            return Ok(value);
        };
        push_byte_piece(&mut value, style, left, found)?;
        left = after_piece(style, left, found);
    }
}

/// The token of a closed literal, if the text between its quotes is `len` bytes long.
#[tactic(auto, unfolding(crate::specs::Strings::literal))]
fn literal(
    alloc: Global,
    style: Style,
    rest: &str,
    len: usize,
    verbatim: bool,
) -> Result<Token, AllocError>
    requires quote { is_quote style.quote ≡ true }
    requires len { len ≡ (spec.run style rest.now).len }
    requires begin { IsCharBoundary rest.now len }
    requires verbatim { verbatim ≡ true → (spec.run style rest.now).value ≡ take len rest.now }
    ensures { IfOk result (λ t. terminal t ≡ spec.literal style rest.now) }
{
    if style.bytes {
        Ok(Token::Bytes(decode_bytes(alloc, style, rest, len)?))
    } else {
        Ok(Token::String(decode(alloc, style, rest, len, verbatim)?))
    }
}

/// The literal at the front, which is not an f-string: its prefix and opening quotes are `opening_len` bytes long. Memory is
/// allocated only for a closed literal.
#[tactic(auto, unfolding(crate::specs::Strings::string_cut))]
pub(crate) fn string_cut(
    alloc: Global,
    style: Style,
    opening_len: usize,
    rest: &str,
) -> Result<Cut, AllocError>
    requires opening { openings.opening rest.now ≡ Some (style, opening_len) }
    requires format { style.format ≡ false }
    ensures { Cuts result (spec.string_cut style opening_len rest.now) }
{
    let inside = &rest[opening_len..];
    let (len, stop, verbatim) = scan(style, inside);
    match stop {
        Stop::Closed => {
            let what = literal(alloc, style, inside, len, verbatim)?;
            Ok(token(what, opening_len + len + quotes_len(style.triple)))
        }
        Stop::BadEscape(bad) => Ok(refused(LexerErrorKind::InvalidEscape, opening_len + len, bad)),
        _ => Ok(refused(LexerErrorKind::UnfinishedString, 0, opening_len + len)),
    }
}
