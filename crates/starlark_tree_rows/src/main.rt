//! The program `starlark_tree_rows`: what the calls on trees and parts of trees return for each row of `rows.txt`.
//!
//! A row is a line `=== CALL`, a text, and the end of a line. It is printed again, then a line `---` and the result of the call on the
//! text's module:
//!
//! - `walk WALK`: the positions that a visitor visits.
//! - `write WALK`: what a visitor that writes leaves.
//! - `unpack CALL`: the parts of calls, parameters and types; targets, assignments and statements that are made of parts; texts.
//! - `map TRAIT`, `payloads`: the payload map.
//! - `clone`, `names`: clones of parts of a tree, and which names are equal.
//!
//! The gate compares all of it with the file `stdout`, which has the expected result below each text. The status is 2 if the
//! rows cannot be read, if memory runs out, or if the output cannot be written: standard error then says which.
#![tactic(auto)]

mod clones;
mod maps;
mod out;
mod payloads;
mod unpacking;
mod walks;
mod writing;

use crate::clones::push_clone;
use crate::maps::push_mapped;
use crate::out::push_refusal;
use crate::payloads::{push_names, push_numbered};
use crate::unpacking::push_unpacked;
use crate::walks::push_walk;
use crate::writing::push_written_by;
use starlark_lexer::dialect::Dialect;
use starlark_module::module::AstModule;
use std::alloc::{AllocError, Global};
use std::fmt::Write;
use std::io::ErrorKind;
use std::process::ExitCode;
use std::{fs, io};

fn main(rt: HostRuntime) -> ExitCode {
    match run(&rt) {
        Ok(()) => ExitCode::from(0),
        Err(error) => {
            let _ = match error.kind() {
                ErrorKind::OutOfMemory => rt.eprintln("out of memory"),
                _ => eprintln!(rt; "cannot read rows.txt or print it: {error}"),
            };
            ExitCode::from(2)
        }
    }
}

fn run(rt: &HostRuntime) -> io::Result<()> {
    let file = fs::read_to_string(rt, "rows.txt")?;
    let rows = file.as_str();
    let rows = rows.strip_prefix("=== ").unwrap_or(rows);
    let rows = rows.strip_suffix("\n").unwrap_or(rows);
    for row in rows.split("\n=== ") {
        if let Some((call, text)) = row.split_once('\n') {
            rt.print(&answer_row(rt.alloc(), call, text)?)?;
        }
    }
    Ok(())
}

/// The row, and below it the result of the call.
fn answer_row(alloc: Global, call: &str, text: &str) -> Result<String, AllocError> {
    let mut out = String::new(alloc);
    write!(out, "=== {call}\n{text}\n---\n")?;
    let (name, words) = call.split_once(' ').unwrap_or((call, ""));
    match name {
        "names" => push_names(&mut out)?,
        _ => push_parsed(&mut out, (name, words), text)?,
    }
    Ok(out)
}

/// Appends the result of the call on the text's module, or what refuses the text.
fn push_parsed(
    out: &mut String,
    (name, words): (&str, &str),
    text: &str,
) -> Result<(), AllocError> {
    let alloc = *out.allocator();
    let content = String::from_str(alloc, text)?;
    match AstModule::parse(alloc, "a.bzl", content, &Dialect::All) {
        Ok(module) => push_of_module(out, (name, words), module),
        Err(error) => push_refusal(out, &error),
    }
}

/// Appends the result of the call on the module.
fn push_of_module(
    out: &mut String,
    (name, words): (&str, &str),
    module: AstModule,
) -> Result<(), AllocError> {
    match name {
        "clone" => push_clone(out, module.statement()),
        "map" => push_mapped(out, words, module.statement()),
        "payloads" => push_numbered(out, module),
        "unpack" => push_unpacked(out, words, &module),
        "walk" => push_walk(out, words, module.statement()),
        "write" => push_written_by(out, words, &module),
        _ => out.push_str("no such call\n"),
    }
}
