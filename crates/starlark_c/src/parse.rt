//! Parsing, for C.
ghost use Rattle.std.specs.Prelude.{◌≡◌, ◌≢◌, ◌⊎◌, ◌≤◌, ◌<◌, ◌↔◌, IfOk, drop, length, map, take};
ghost use Rattle.std.specs.Str.{IsUtf8};
ghost use Rattle.starlark_c.specs.Formats.{AnswersInFormat, IsModuleIn, IsRefusalIn};
ghost use Rattle.starlark_c.specs.Results.{HasAnswerOf, IsAnswer, file_of};
ghost use Rattle.starlark_checks.specs.Refusals.{out_of_memory};
ghost use Rattle.starlark_json.specs.Texts.{IsErrorText, module_text};
ghost use Rattle.starlark_lexer.specs.Tokens.{span_of};
ghost use Rattle.starlark_tree.specs.Views.{statement_of};

use crate::dialect::dialect_of;
use starlark_checks::error::Error;
use starlark_compact::{error_to_compact, module_to_compact};
use starlark_json::{error_to_json, module_to_json};
use starlark_lexer::dialect::Dialect;
use starlark_module::module::AstModule;
use std::alloc::{AllocError, Global};

/// The result is in `out`.
const DONE: u32 = 0;
/// `out` is too small for the result.
const TOO_SMALL: u32 = 1;

const NO_MEMORY: u32 = 2;

const NOT_UTF8: u32 = 3;
/// The dialect or the format is unknown.
const UNKNOWN: u32 = 4;

/// The format of docs/JSON.md.
const JSON: u32 = 1;
/// The format of docs/COMPACT.md.
const COMPACT: u32 = 2;

/// The name of the file in results.
const FILE_NAME: &str = "input";

/// The limit on the depth of the tokens in `starlark_parse`.
const DEPTH: u32 = 250;

/// The version of the format.
#[unsafe(no_mangle)]
pub extern "C" fn starlark_version() -> u32
    ensures { result ≡ 1 }
{
    1
}

/// Parses a text and writes the result to `out`: the tree or the error. `len` is then its length in bytes, or 0 if there is none. A text
/// with a token that nests deeper than `DEPTH` is an error.
#[unsafe(no_mangle)]
pub extern "C" fn starlark_parse(
    alloc: Global,
    text: &[u8],
    dialect: u32,
    format: u32,
    out: &mut [u8],
    len: &mut usize,
) -> u32
    ensures done { result ≡ DONE → IsAnswer format DEPTH dialect text.now (take len.new out.new) }
    ensures room { result ≡ DONE → len.new ≤ length out.old }
    ensures rest { result ≡ DONE → drop len.new out.new ≡ drop len.new out.old }
    ensures small { result ≡ TOO_SMALL → (length out.old < len.new) × HasAnswerOf len.new format DEPTH dialect text.now }
    ensures unchanged { result ≢ DONE → out.new ≡ out.old }
    ensures none { result ≢ DONE → result ≢ TOO_SMALL → len.new ≡ 0 }
    ensures utf8 { result ≢ UNKNOWN → (result ≡ NOT_UTF8) ↔ (¬ IsUtf8 text.now) }
    ensures unknown { (result ≡ UNKNOWN) ↔ (((format ≢ JSON) × (format ≢ COMPACT)) ⊎ (384 ≤ dialect)) }
{
    parse_within(alloc, text, dialect, format, DEPTH, out, len)
}

/// The same with another limit on the depth of the tokens.
#[unsafe(no_mangle)]
pub extern "C" fn starlark_parse_limited(
    alloc: Global,
    text: &[u8],
    dialect: u32,
    format: u32,
    depth: u32,
    out: &mut [u8],
    len: &mut usize,
) -> u32
    ensures done { result ≡ DONE → IsAnswer format depth dialect text.now (take len.new out.new) }
    ensures room { result ≡ DONE → len.new ≤ length out.old }
    ensures rest { result ≡ DONE → drop len.new out.new ≡ drop len.new out.old }
    ensures small { result ≡ TOO_SMALL → (length out.old < len.new) × HasAnswerOf len.new format depth dialect text.now }
    ensures unchanged { result ≢ DONE → out.new ≡ out.old }
    ensures none { result ≢ DONE → result ≢ TOO_SMALL → len.new ≡ 0 }
    ensures utf8 { result ≢ UNKNOWN → (result ≡ NOT_UTF8) ↔ (¬ IsUtf8 text.now) }
    ensures unknown { (result ≡ UNKNOWN) ↔ (((format ≢ JSON) × (format ≢ COMPACT)) ⊎ (384 ≤ dialect)) }
{
    parse_within(alloc, text, dialect, format, depth, out, len)
}

/// The same, for both.
fn parse_within(
    alloc: Global,
    text: &[u8],
    dialect: u32,
    format: u32,
    depth: u32,
    out: &mut [u8],
    len: &mut usize,
) -> u32
    ensures done { result ≡ DONE → IsAnswer format depth dialect text.now (take len.new out.new) }
    ensures room { result ≡ DONE → len.new ≤ length out.old }
    ensures rest { result ≡ DONE → drop len.new out.new ≡ drop len.new out.old }
    ensures small { result ≡ TOO_SMALL → (length out.old < len.new) × HasAnswerOf len.new format depth dialect text.now }
    ensures unchanged { result ≢ DONE → out.new ≡ out.old }
    ensures none { result ≢ DONE → result ≢ TOO_SMALL → len.new ≡ 0 }
    ensures utf8 { result ≢ UNKNOWN → (result ≡ NOT_UTF8) ↔ (¬ IsUtf8 text.now) }
    ensures unknown { (result ≡ UNKNOWN) ↔ (((format ≢ JSON) × (format ≢ COMPACT)) ⊎ (384 ≤ dialect)) }
{
    *len = 0;
    if format != JSON && format != COMPACT {
        return UNKNOWN;
    }
    let Some(dialect) = dialect_of(dialect) else {
        return UNKNOWN;
    };
    let Ok(text) = str::from_utf8(text) else {
        return NOT_UTF8;
    };
    match answer(alloc, text, &dialect, format, depth) {
        Ok(answer) => put(&answer, out, len),
        Err(_) => NO_MEMORY,
    }
}

/// The result in a format for a text whose tokens may nest up to `depth`.
fn answer(
    alloc: Global,
    text: &str,
    dialect: &Dialect,
    format: u32,
    depth: u32,
) -> Result<Vec<u8>, AllocError>
    ensures { IfOk result (λ bytes. AnswersInFormat format depth dialect.now (file_of text.now) bytes.items) }
{
    let content = String::from_str(alloc, text)?;
    match AstModule::parse_limited(alloc, FILE_NAME, content, dialect, depth) {
        Ok(module) => module_in(alloc, &module, format),
        Err(error) => refusal(alloc, &error, format),
    }
}

/// A module in a format.
fn module_in(alloc: Global, parsed: &AstModule, format: u32) -> Result<Vec<u8>, AllocError>
    ensures { IfOk result (λ bytes. IsModuleIn format parsed.now.codemap.name (map span_of parsed.now.comments.items)
        (statement_of parsed.now.statement) bytes.items) }
{
    if format == COMPACT {
        module_to_compact(alloc, parsed)
    } else {
        module_json(alloc, parsed)
    }
}

/// A module as the bytes of JSON.
fn module_json(alloc: Global, parsed: &AstModule) -> Result<Vec<u8>, AllocError>
    ensures { IfOk result (λ bytes. bytes.items ≡ module_text parsed.now.codemap.name (map span_of parsed.now.comments.items)
        (statement_of parsed.now.statement)) }
{
    Ok(module_to_json(alloc, parsed)?.into_bytes())
}

/// The result in a format for a text that is refused. Out of memory is not a refusal.
fn refusal(alloc: Global, error: &Error, format: u32) -> Result<Vec<u8>, AllocError>
    ensures bytes { IfOk result (λ bytes. IsRefusalIn format error.now bytes.items) }
    ensures has_memory { IfOk result (λ _. error.now ≢ out_of_memory) }
{
    if error.is_out_of_memory() {
        return Err(AllocError);
    }
    error_in(alloc, error, format)
}

/// An error in a format.
fn error_in(alloc: Global, error: &Error, format: u32) -> Result<Vec<u8>, AllocError>
    ensures { IfOk result (λ bytes. IsRefusalIn format error.now bytes.items) }
{
    if format == COMPACT {
        error_to_compact(alloc, error)
    } else {
        error_json(alloc, error)
    }
}

/// An error as the bytes of JSON.
fn error_json(alloc: Global, error: &Error) -> Result<Vec<u8>, AllocError>
    ensures { IfOk result (λ bytes. IsErrorText error.now bytes.items) }
{
    Ok(error_to_json(alloc, error)?.into_bytes())
}

/// Copies the result, if there is room for it.
fn put(answer: &[u8], out: &mut [u8], len: &mut usize) -> u32
    ensures len { len.new ≡ length answer.now }
    ensures status { (result ≡ DONE) ⊎ (result ≡ TOO_SMALL) }
    ensures room { (result ≡ DONE) ↔ (length answer.now ≤ length out.old) }
    ensures done { result ≡ DONE → take (length answer.now) out.new ≡ answer.now }
    ensures rest { result ≡ DONE → drop (length answer.now) out.new ≡ drop (length answer.now) out.old }
    ensures unchanged { result ≢ DONE → out.new ≡ out.old }
{
    *len = answer.len();
    if answer.len() <= out.len() {
        out[..answer.len()].copy_from_slice(answer);
        DONE
    } else {
        TOO_SMALL
    }
}
