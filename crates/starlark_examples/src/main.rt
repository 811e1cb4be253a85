//! The program `starlark_examples`: five small tools over `starlark_syntax` alone, a module each, written to be copied.
//!
//! It reads rows from standard input. A row is a line `=== TOOL ARGUMENTS` and the text that the tool is run on. The
//! line is printed again, then what the tool prints for the text. A text that is refused is one line on standard error, and the
//! status is then 1.
#![tactic(auto)]

mod documentation;
mod load_graph;
mod parts;
mod rename;
mod types;
mod unused_names;

use crate::parts::parts;
use starlark_syntax::Error;
use starlark_syntax::syntax::{AstModule, Dialect};
use std::alloc::Global;
use std::io;
use std::process::ExitCode;

/// The module of a text, in the dialect that has all of Starlark.
fn parsed(alloc: Global, text: &str) -> Result<AstModule, Error> {
    AstModule::parse(
        alloc,
        "input",
        String::from_str(alloc, text)?,
        &Dialect::All,
    )
}

/// What a tool prints for a text.
fn report(alloc: Global, call: &str, text: &str) -> Result<String, Error> {
    let (tool, words) = call.split_once(' ').unwrap_or((call, ""));
    match tool {
        "documentation" => documentation::report(alloc, text),
        "load_graph" => load_graph::report(alloc, text),
        "rename" => rename::report(alloc, words, text),
        "types" => types::report(alloc, text),
        "unused_names" => unused_names::report(alloc, text),
        _ => Ok(format!(in alloc; "no tool {tool}\n")?),
    }
}

fn main(rt: HostRuntime) -> io::Result<ExitCode> {
    let input = io::read_to_string(rt.alloc(), rt.stdin())?;
    let mut status = 0;
    for (call, text) in &parts(rt.alloc(), &input, "=== ")? {
        println!(rt; "=== {call}")?;
        match report(rt.alloc(), call, text.as_str()) {
            Ok(lines) => print!(rt; "{lines}")?,
            Err(error) => {
                eprintln!(rt; "{}", error.line())?;
                status = 1;
            }
        }
    }
    Ok(ExitCode::from(status))
}
