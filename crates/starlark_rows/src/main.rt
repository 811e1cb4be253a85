//! The program `starlark_rows`: what the calls on texts return for each row of `rows.txt`.
//!
//! A row is a line `=== CALL`, a text, and the end of a line. It is printed again, then a line `---` and the result of the call. `text`
//! has the calls on the lexer and the code map, on source and on JSON, and those of the program `starlark`; `module` has the calls on
//! the parser and on modules, and those of the program `starlark_ast`.
//!
//! With the argument `text` or `module` it runs the rows of that module alone.
//!
//! The gate compares all of it with the file `stdout`, which has the expected result below each text. The status is 2 if the rows
//! cannot be read, if memory runs out, if the output cannot be written, or for other arguments: standard error then says which.
#![tactic(auto)]

mod module;
mod text;

use std::io::ErrorKind;
use std::process::ExitCode;
use std::{env, fs, io};

/// The modules whose rows are run.
#[derive(Clone, Copy)]
struct Selection {
    text: bool,
    module: bool,
}

fn main(rt: HostRuntime) -> ExitCode {
    match run(&rt) {
        Ok(true) => ExitCode::from(0),
        Ok(false) => {
            let _ = rt.eprintln("usage: starlark_rows [text|module]");
            ExitCode::from(2)
        }
        Err(error) => {
            let _ = match error.kind() {
                ErrorKind::OutOfMemory => rt.eprintln("out of memory"),
                _ => eprintln!(rt; "cannot read rows.txt or print it: {error}"),
            };
            ExitCode::from(2)
        }
    }
}

/// Prints the selected rows. Returns whether the arguments select any.
fn run(rt: &HostRuntime) -> io::Result<bool> {
    let Some(selection) = parse_arguments(rt)? else {
        return Ok(false);
    };
    let file = fs::read_to_string(rt, "rows.txt")?;
    let rows = file.as_str();
    let rows = rows.strip_prefix("=== ").unwrap_or(rows);
    let rows = rows.strip_suffix("\n").unwrap_or(rows);
    for row in rows.split("\n=== ") {
        if let Some((call, text)) = row.split_once('\n') {
            if is_of_text(call) {
                if selection.text {
                    rt.print(&text::answer_row(rt, call, text)?)?;
                }
            } else if selection.module {
                rt.print(&module::answer_row(rt.alloc(), call, text)?)?;
            }
        }
    }
    Ok(true)
}

/// The argument's module; without an argument, both; nothing if it names no module.
fn parse_arguments(rt: &HostRuntime) -> io::Result<Option<Selection>> {
    let mut words = env::args(rt)?.skip(1);
    let Some(word) = words.next() else {
        return Ok(Some(Selection {
            text: true,
            module: true,
        }));
    };
    let (text, module) = (word.as_str() == "text", word.as_str() == "module");
    if !text && !module {
        return Ok(None);
    }
    Ok(Some(Selection { text, module }))
}

/// Whether a call is one of those of `text`.
fn is_of_text(call: &str) -> bool {
    let (kind, _) = call.split_once(' ').unwrap_or((call, ""));
    matches!(
        kind,
        "change"
            | "diagnostics"
            | "emit"
            | "equal"
            | "file_span"
            | "following"
            | "lines"
            | "same"
            | "spans"
            | "starlark"
            | "to_json"
            | "to_source"
            | "tokens"
            | "words"
    )
}
