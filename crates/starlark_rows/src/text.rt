//! What the lexer and the code map, the libraries of source and of JSON, and the program `starlark` return for each row of `rows.txt`.
//!
//! A row is a line `=== CALL`, a text, and the end of a line. It is printed again, then a line `---` and the result of the call:
//!
//! - `tokens ..`, `equal tokens`, `words`, `following N`, `lines`, `file_span`, `spans`: lexemes, what is equal, what may follow, and
//!   positions, as `lexed` says.
//! - `diagnostics DIALECT`: the diagnostics of the text, as `diagnostics` says.
//! - `emit FORMAT FILE`: the diagnostics of the text as the format writes them, as `emitted` says.
//! - `to_json ..`: what is written as JSON, as `json` says.
//! - `to_source`, `same`, `change ..`: the source of the text's tree, or whether it parses back, as `source` says.
//! - `starlark ARGUMENTS`: the status of the program for these arguments, on the line of `---`, and what it writes.

mod changes;
mod diagnostics;
mod emitted;
mod equality;
mod following;
mod json;
mod lexed;
mod places;
mod program;
mod source;
mod tokens;

use crate::text::diagnostics::push_diagnostics;
use crate::text::emitted::push_emitted;
use crate::text::json::push_json;
use crate::text::lexed::push_lexed;
use crate::text::program::push_run;
use crate::text::source::push_tree;
use starlark_checks::error::Error;
use starlark_lexer::dialect::Dialect;
use starlark_module::module::AstModule;
use std::alloc::{AllocError, Global};
use std::fmt::Write;

/// The row, and below it the result of the call.
pub fn answer_row(rt: &HostRuntime, call: &str, text: &str) -> Result<String, AllocError> {
    let mut row = String::new(rt.alloc());
    write!(row, "=== {call}\n{text}\n---")?;
    let (kind, words) = call.split_once(' ').unwrap_or((call, ""));
    match kind {
        "tokens" | "equal" | "words" | "following" | "lines" | "file_span" | "spans" => {
            push_lexed(&mut row, call, text)?
        }
        "diagnostics" => push_diagnostics(&mut row, words, text)?,
        "emit" => push_emitted(&mut row, words, text)?,
        "to_json" => push_json(&mut row, words, text)?,
        "starlark" => push_run(rt, &mut row, words, text)?,
        _ => push_tree(&mut row, kind, words, text)?,
    }
    Ok(row)
}

/// What a text is parsed to.
fn parsed(
    alloc: Global,
    text: &str,
    dialect: &Dialect,
) -> Result<Result<AstModule, Error>, AllocError> {
    let content = String::from_str(alloc, text)?;
    Ok(AstModule::parse(alloc, "a.bzl", content, dialect))
}
