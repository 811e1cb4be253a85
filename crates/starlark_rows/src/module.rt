//! What the parser, the calls on modules and the program `starlark_ast` return for each row of `rows.txt`.
//!
//! A row is a line `=== CALL`, a text, and the end of a line. It is printed again, then a line `---` and the result of the call on the
//! text.

mod ends;
mod errors;
mod flags;
mod lexeme_lists;
mod modules;
mod out;
mod program;
mod variants;

use crate::module::lexeme_lists::push_list;
use crate::module::modules::{push_named, push_parsed};
use crate::module::program::{push_program, push_reprint};
use crate::module::variants::{push_broken, push_cut};
use std::alloc::{AllocError, Global};
use std::fmt::Write;

/// The row, and below it the result of the call.
pub fn answer_row(alloc: Global, call: &str, text: &str) -> Result<String, AllocError> {
    let mut out = String::new(alloc);
    write!(out, "=== {call}\n{text}\n---")?;
    let (name, words) = call.split_once(' ').unwrap_or((call, ""));
    match name {
        "all" | "bare" => push_program(&mut out, call, text)?,
        "run" => push_program(&mut out, words, text)?,
        _ => {
            out.push('\n')?;
            push_answer(&mut out, (name, words), text)?;
        }
    }
    Ok(out)
}

/// Appends the result of a call other than a run of the program.
fn push_answer(
    out: &mut String,
    (name, words): (&str, &str),
    text: &str,
) -> Result<(), AllocError> {
    match name {
        "broken" => push_broken(out, text),
        "broken_reader" => ends::push_broken_reader(out),
        "short_writer" => ends::push_short_writer(out, text),
        "cut" => push_cut(out, text),
        "errors" => errors::push_errors(out),
        "from_lexemes" => push_list(out, words, text),
        "named" => push_named(out, words, text),
        "printed_again" => push_reprint(out, text),
        _ => push_parsed(out, (name, words), text),
    }
}
