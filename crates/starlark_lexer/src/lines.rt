//! Whitespace, newlines and indentation.
ghost use Rattle.std.specs.Prelude.{◌≡◌, ℕ, ◌+◌, ◌-◌, ◌<◌, ◌≤◌, ◌^◌, ◌==◌, true, false, length, drop};
ghost use Rattle.std.specs.List.{list_all, prefix_len, count_by};
ghost use Rattle.starlark_lexer.specs.Bytes.{tab};
ghost use Rattle.starlark_lexer.specs.Classes.{is_space, is_whitespace};
ghost use Rattle.starlark_lexer.specs.Newlines as newlines;
ghost use Rattle.starlark_lexer.specs.Lines as spec;

use crate::text::{Class, byte_at, run_len};

/// The length of the newline at the front, or 0.
pub(crate) fn newline_len(rest: &[u8]) -> usize
    ensures { result ≡ newlines.newline_len rest.now }
{
    let first = byte_at(rest, 0);
    if first == b'\n' {
        1
    } else if first == b'\r' && byte_at(rest, 1) == b'\n' {
        2
    } else {
        0
    }
}

fn skip_turn(quiet: bool, joined: bool, rest: &[u8]) -> Option<bool>
    requires { 0 < length rest.now }
    ensures { result ≡ spec.skip_turn quiet joined rest.now }
{
    match byte_at(rest, 0) {
        b' ' | b'\t' => Some(false),
        b'\n' if quiet || joined => Some(false),
        b'\r' if (quiet || joined) && byte_at(rest, 1) == b'\n' => Some(true),
        b'\\' if newline_len(&rest[1..]) > 0 => Some(true),
        _ => None,
    }
}

/// How many bytes are skipped before a token. Inside delimiters, when `quiet` is set, newlines are skipped too.
pub(crate) fn skip_len(rest: &[u8], quiet: bool) -> usize
    ensures len { result ≡ spec.skip_len quiet false rest.now }
    ensures within { result ≤ length rest.now }
{
    let mut joined = false;
    'bytes: for at in 0..rest.len() {
        match skip_turn(quiet, joined, &rest[at..]) {
            Some(state) => joined = state,
            None => return at,
        }
    }
    rest.len()
}

/// Whether a byte is a space.
fn is_whitespace_one(byte: u8) -> bool
    ensures { result ≡ is_space byte }
{
    byte == b' '
}

/// How many spaces are at the front. Four bytes are compared per turn, since most lines begin with some spaces.
fn spaces_len(rest: &[u8]) -> usize
    ensures len { result ≡ prefix_len is_space rest.now }
    ensures within { result ≤ length rest.now }
{
    let mut at = 0;
    'fours: while rest.len() - at >= 4 {
        if !is_whitespace_one(rest[at]) {
            return at;
        }
        if !is_whitespace_one(rest[at + 1]) {
            return at + 1;
        }
        if !is_whitespace_one(rest[at + 2]) {
            return at + 2;
        }
        if !is_whitespace_one(rest[at + 3]) {
            return at + 3;
        }
        at += 4;
    }
    'ones: while at < rest.len() && is_whitespace_one(rest[at]) {
        at += 1;
    }
    at
}

/// How many spaces and tabs are at the front, and how many spaces come before the first tab.
#[inline(always)]
fn margin(rest: &[u8]) -> (usize, usize)
    ensures whitespace { result.0 ≡ spec.whitespace_len rest.now }
    ensures spaces { result.1 ≡ prefix_len is_space rest.now }
    ensures within { result.0 ≤ length rest.now }
    ensures order { result.1 ≤ result.0 }
{
    let spaces = spaces_len(rest);
    (spaces + run_len(&rest[spaces..], Class::Whitespace), spaces)
}

/// How many bytes the blank lines at the front have; and after them, how many spaces and tabs, and how many spaces before the first tab.
pub(crate) fn blank_lines(rest: &[u8]) -> (usize, usize, usize)
    ensures len { result.0 ≡ spec.blank_lines_len rest.now }
    ensures whitespace { result.1 ≡ spec.whitespace_len (drop result.0 rest.now) }
    ensures spaces { result.2 ≡ prefix_len is_space (drop result.0 rest.now) }
    ensures within { result.0 + result.1 ≤ length rest.now }
    ensures order { result.2 ≤ result.1 }
{
    let mut at = 0;
    'lines: loop {
        let (whitespace, spaces) = margin(&rest[at..]);
        let end = newline_len(&rest[at + whitespace..]);
        if end == 0 {
            return (at, whitespace, spaces);
        }
        at += whitespace + end;
    }
}

fn tabs(whitespace: &[u8]) -> usize
    ensures count { result ≡ count_by (λ b. b == tab) whitespace.now }
    ensures within { result ≤ length whitespace.now }
{
    whitespace.iter().filter(|b| **b == b'\t').count()
}

/// The width of spaces and tabs: a space is one, a tab eight. The first `spaces` bytes are known not to be tabs.
pub(crate) fn indentation(whitespace: &[u8], spaces: usize) -> usize
    requires small { length whitespace.now < 2 ^ 32 }
    requires blank { list_all is_whitespace whitespace.now ≡ true }
    requires spaces { spaces ≤ prefix_len is_space whitespace.now }
    ensures { result ≡ spec.indentation whitespace.now }
{
    whitespace.len() + 7 * tabs(&whitespace[spaces..])
}
