//! Numbers.
ghost use Rattle.std.specs.Prelude.{◌≡◌, ℕ, ◌+◌, ◌-◌, ◌<◌, ◌≤◌, ◌^◌, ◌||◌, ◌==◌, true, length, drop, take, slice_index, MatchOption, MatchResult, pos};
ghost use Rattle.std.specs.List.{list_all};
ghost use Rattle.std.specs.Str.Parse.{digits_value};
ghost use Rattle.starlark_lexer.specs.Numbers as spec;
ghost use Rattle.starlark_lexer.specs.Classes.{is_digit_of};
ghost use Rattle.starlark_lexer.specs.Memory.{is_large};
ghost use Rattle.starlark_lexer.specs.Tokens.{number};
ghost use Rattle.starlark_lexer.specs.Cutting.{cut_of, Cuts};

use crate::cut::{Cut, refused, token};
use crate::text::{Class, byte_at, run_len, skip_one, split_run, until};
use crate::token::{LexerErrorKind, Token, TokenInt};
use std::alloc::{AllocError, Global};

fn base_of(letter: u8) -> u32
    ensures base { result ≡ spec.base_of letter }
    ensures low { 2 ≤ result }
    ensures high { result ≤ 16 }
{
    match letter {
        b'x' | b'X' => 16,
        b'o' | b'O' => 8,
        b'b' | b'B' => 2,
        _ => 10,
    }
}

/// The number that the digits denote, if it is below 2^31.
fn small_value(digits: &str, base: u32) -> Option<i32>
    requires low { 2 ≤ base }
    requires high { base ≤ 36 }
    requires some { 0 < length digits.now }
    requires all { list_all (is_digit_of base) digits.now ≡ true }
    ensures { MatchOption result (2 ^ 31 ≤ digits_value base digits.now)
        (λ n. (digits_value base digits.now < 2 ^ 31) × (n ≡ pos (digits_value base digits.now))) }
{
    match u32::from_str_radix(digits, base) {
        Ok(n) if n < 0x8000_0000 => Some(n as i32),
        _ => None,
    }
}

#[tactic(auto, unfolding(crate::specs::Numbers::integer))]
fn integer(alloc: Global, digits: &str, base: u32, text: &str) -> Result<TokenInt, AllocError>
    requires low { 2 ≤ base }
    requires high { base ≤ 36 }
    requires some { 0 < length digits.now }
    requires all { list_all (is_digit_of base) digits.now ≡ true }
    ensures { MatchResult result (λ n. number n ≡ spec.integer base digits.now text.now) (λ _. is_large (spec.integer base digits.now text.now) ≡ true) }
{
    match small_value(digits, base) {
        Some(n) => Ok(TokenInt::I32(n)),
        None => Ok(TokenInt::BigInt(String::from_str(alloc, text)?)),
    }
}

/// The length of the point and the digits at the front, and what is left.
fn split_fraction(text: &str) -> (usize, &str)
    ensures len { result.0 ≡ spec.fraction_len text.now }
    ensures rest { result.1.now ≡ drop result.0 text.now }
    ensures within { result.0 + length result.1.now ≡ length text.now }
{
    if byte_at(text.as_bytes(), 0) != b'.' {
        return (0, text);
    }
    let (digits, rest) = split_run(skip_one(text), Class::Base(10));
    (1 + digits, rest)
}

fn split_sign(text: &str) -> (usize, &str)
    ensures len { result.0 ≡ spec.sign_len text.now }
    ensures rest { result.1.now ≡ drop result.0 text.now }
    ensures within { result.0 + length result.1.now ≡ length text.now }
{
    let first = byte_at(text.as_bytes(), 0);
    if first == b'+' || first == b'-' {
        (1, skip_one(text))
    } else {
        (0, text)
    }
}

/// The length of the exponent at the front, and what is left.
fn split_exponent(text: &str) -> (usize, &str)
    ensures len { result.0 ≡ spec.exponent_len text.now }
    ensures rest { result.1.now ≡ drop result.0 text.now }
    ensures within { result.0 + length result.1.now ≡ length text.now }
{
    let first = byte_at(text.as_bytes(), 0);
    if first != b'e' && first != b'E' {
        return (0, text);
    }
    let (sign, after) = split_sign(skip_one(text));
    let (digits, rest) = split_run(after, Class::Base(10));
    if digits == 0 {
        return (0, text);
    }
    (1 + sign + digits, rest)
}

#[tactic(auto, unfolding(crate::specs::Numbers::integer_cut))]
fn integer_cut(alloc: Global, digits: &str) -> Result<Cut, AllocError>
    requires some { 0 < length digits.now }
    requires all { list_all (is_digit_of 10) digits.now ≡ true }
    ensures { Cuts result (spec.integer_cut digits.now) }
{
    let len = digits.len();
    if byte_at(digits.as_bytes(), 0) == b'0' && len > 1 {
        return Ok(refused(LexerErrorKind::InvalidNumber, 0, len));
    }
    Ok(token(Token::Int(integer(alloc, digits, 10, digits)?), len))
}

#[tactic(auto, unfolding(crate::specs::Numbers::decimal_cut))]
fn decimal_cut(alloc: Global, rest: &str) -> Result<Cut, AllocError>
    requires some { 0 < length rest.now }
    requires begins { spec.begins_number rest.now ≡ true }
    ensures { Cuts result (spec.decimal_cut rest.now) }
{
    let (digits, after) = split_run(rest, Class::Base(10));
    let (fraction, tail) = split_fraction(after);
    let (exponent, end) = split_exponent(tail);
    if fraction + exponent > 0 {
        let text = until(rest, digits + fraction + exponent, end);
        return Ok(token(
            Token::Float(String::from_str(alloc, text)?),
            digits + fraction + exponent,
        ));
    }
    integer_cut(alloc, until(rest, digits, after))
}

/// The digits of another base after `0` and a letter, or none.
fn prefixed(rest: &str) -> (usize, &str)
    ensures len { result.0 ≡ spec.prefixed_len rest.now }
    ensures rest { 0 < result.0 → result.1.now ≡ drop 2 rest.now }
    ensures two { 0 < result.0 → 2 + length result.1.now ≡ length rest.now }
{
    let bytes = rest.as_bytes();
    let base = base_of(byte_at(bytes, 1));
    if byte_at(bytes, 0) != b'0' || base == 10 || bytes.len() < 2 {
        return (0, rest);
    }
    let digits = skip_one(skip_one(rest));
    (run_len(digits.as_bytes(), Class::Base(base)), digits)
}

/// A number of another base, with `digits` as its digits.
fn prefixed_cut(alloc: Global, rest: &str, digits: &str, len: usize) -> Result<Cut, AllocError>
    requires some { 0 < len }
    requires len { len ≡ spec.digits_len (spec.base_of (slice_index rest.now 1)) digits.now }
    requires rest { digits.now ≡ drop 2 rest.now }
    requires two { 2 + length digits.now ≡ length rest.now }
    ensures { Cuts result (spec.prefixed_cut len rest.now) }
{
    let base = base_of(byte_at(rest.as_bytes(), 1));
    let (n, after) = split_run(digits, Class::Base(base));
    let text = until(rest, 2 + n, after);
    let number = integer(alloc, until(digits, n, after), base, text)?;
    Ok(token(Token::Int(number), 2 + n))
}

#[tactic(auto, unfolding(crate::specs::Numbers::number_cut))]
pub(crate) fn number_cut(alloc: Global, rest: &str) -> Result<Cut, AllocError>
    requires some { 0 < length rest.now }
    requires begins { spec.begins_number rest.now ≡ true }
    ensures { Cuts result (spec.number_cut rest.now) }
{
    let (len, digits) = prefixed(rest);
    if len > 0 {
        prefixed_cut(alloc, rest, digits, len)
    } else {
        decimal_cut(alloc, rest)
    }
}

pub(crate) fn begins_number(rest: &[u8]) -> bool
    ensures { result ≡ spec.begins_number rest.now }
{
    let first = byte_at(rest, 0);
    first.is_ascii_digit() || first == b'.' && byte_at(rest, 1).is_ascii_digit()
}
