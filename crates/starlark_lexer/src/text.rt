//! Functions on bytes that allocate nothing.
ghost use Rattle.std.specs.Prelude.{◌≡◌, ◌+◌, ◌-◌, ◌<◌, ◌≤◌, length, drop, take, slice_index};
ghost use Rattle.std.specs.Char.{digit_value};
ghost use Rattle.std.specs.List.{prefix_len};
ghost use Rattle.std.specs.Str.{IsCharBoundary};
ghost use Rattle.starlark_lexer.specs.declared.text.Class.TheVariants.{Line};
ghost use Rattle.starlark_lexer.specs.Classes as classes;
ghost use Rattle.starlark_lexer.specs.Lexing as lexing;

use memchr::memchr;

/// The byte at `index`, or 0 past the end.
pub(crate) fn byte_at(bytes: &[u8], index: usize) -> u8
    ensures { result ≡ slice_index bytes.now index }
{
    if index < bytes.len() { bytes[index] } else { 0 }
}

/// A set of bytes.
#[derive(Clone, Copy)]
pub(crate) enum Class {
    Whitespace,
    /// The digits of a base.
    Base(u32),
    Name,
    /// A byte of a character after its first.
    CharRest,
    /// Any byte except a line feed.
    Line,
}

pub(crate) fn is_letter(byte: u8) -> bool
    ensures { result ≡ classes.is_letter byte }
{
    byte.is_ascii_alphabetic() || byte == b'_'
}

/// The value of a digit, or 36 if the byte is not a digit.
pub(crate) fn digit_value(byte: u8) -> u32
    ensures { result ≡ digit_value byte }
{
    (byte as char).to_digit(36).unwrap_or(36)
}

/// Whether the byte is a space or a tab.
pub(crate) fn is_whitespace(byte: u8) -> bool
    ensures { result ≡ classes.is_whitespace byte }
{
    byte == b' ' || byte == b'\t'
}

/// Each byte that may be in a name is at its own index; every other index has a `.`.
static NAME_BYTES: [u8; 256] = *b"\
    ................................\
    ................0123456789......\
    .ABCDEFGHIJKLMNOPQRSTUVWXYZ...._\
    .abcdefghijklmnopqrstuvwxyz.....\
    ................................\
    ................................\
    ................................\
    ................................";

fn is_name_byte(byte: u8) -> bool
    ensures { result ≡ classes.is_name_byte byte }
{
    NAME_BYTES[byte as usize] != b'.'
}

pub(crate) fn is_in(class: Class, byte: u8) -> bool
    ensures { result ≡ classes.class_test class byte }
{
    match class {
        Class::Whitespace => is_whitespace(byte),
        Class::Base(base) => digit_value(byte) < base,
        Class::Name => is_name_byte(byte),
        Class::CharRest => byte >= 0x80 && byte <= 0xbf,
        Class::Line => byte != b'\n',
    }
}

/// How many bytes at the front may be in a name. Four bytes are compared per turn, since names are long.
#[inline(never)]
fn name_len(bytes: &[u8]) -> usize
    ensures len { result ≡ prefix_len classes.is_name_byte bytes.now }
    ensures within { result ≤ length bytes.now }
{
    let mut at = 0;
    'fours: while bytes.len() - at >= 4 {
        if !is_name_byte(bytes[at]) {
            return at;
        }
        if !is_name_byte(bytes[at + 1]) {
            return at + 1;
        }
        if !is_name_byte(bytes[at + 2]) {
            return at + 2;
        }
        if !is_name_byte(bytes[at + 3]) {
            return at + 3;
        }
        at += 4;
    }
    'ones: while at < bytes.len() && is_name_byte(bytes[at]) {
        at += 1;
    }
    at
}

/// How many bytes are before the first line feed.
#[inline(always)]
fn line_len(bytes: &[u8]) -> usize
    ensures len { result ≡ prefix_len (classes.class_test Line) bytes.now }
    ensures within { result ≤ length bytes.now }
{
    match memchr(b'\n', bytes) {
        Some(at) => at,
        None => bytes.len(),
    }
}

/// How many bytes at the front are in the class.
#[inline(always)]
pub(crate) fn run_len(bytes: &[u8], class: Class) -> usize
    ensures len { result ≡ prefix_len (classes.class_test class) bytes.now }
    ensures within { result ≤ length bytes.now }
{
    match class {
        Class::Whitespace => bytes.iter().take_while(|b| is_whitespace(**b)).count(),
        Class::Name => name_len(bytes),
        Class::Line => line_len(bytes),
        _ => bytes.iter().take_while(|b| is_in(class, **b)).count(),
    }
}

/// How many bytes the first character has.
pub(crate) fn char_len(rest: &[u8]) -> usize
    requires { 0 < length rest.now }
    ensures { result ≡ lexing.char_len rest.now }
{
    1 + run_len(&rest[1..], Class::CharRest)
}

/// The first `n` bytes, all of them ASCII and in the class.
pub(crate) fn front(text: &str, n: usize, class: Class) -> &str
    requires ascii { classes.IsAsciiClass class }
    requires run { n ≤ prefix_len (classes.class_test class) text.now }
    ensures { result.now ≡ take n text.now }
{
    &text[..n]
}

/// How many bytes at the front are in the class, all of them ASCII, and what is left.
pub(crate) fn split_run(text: &str, class: Class) -> (usize, &str)
    requires { classes.IsAsciiClass class }
    ensures len { result.0 ≡ prefix_len (classes.class_test class) text.now }
    ensures rest { result.1.now ≡ drop result.0 text.now }
    ensures within { result.0 + length result.1.now ≡ length text.now }
{
    let len = run_len(text.as_bytes(), class);
    (len, &text[len..])
}

/// What is left after an ASCII byte.
pub(crate) fn skip_one(text: &str) -> &str
    requires some { 0 < length text.now }
    requires ascii { slice_index text.now 0 < 128 }
    ensures rest { result.now ≡ drop 1 text.now }
    ensures len { length result.now + 1 ≡ length text.now }
{
    &text[1..]
}

/// The first `n` bytes, when `after` is what is left.
pub(crate) fn until<'a>(text: &'a str, n: usize, after: &str) -> &'a str
    requires within { n ≤ length text.now }
    requires rest { after.now ≡ drop n text.now }
    ensures { result.now ≡ take n text.now }
{
    &text[..n]
}

/// What is left after the first `n` bytes, where a character begins.
pub(crate) fn after(text: &str, n: usize) -> &str
    requires { IsCharBoundary text.now n }
    ensures rest { result.now ≡ drop n text.now }
    ensures len { n + length result.now ≡ length text.now }
{
    &text[n..]
}
