//! Rows of the program over files.
use starlark_cli::tool::request::{WordsError, request_of};
use starlark_cli::tool::run::run;
use std::alloc::{AllocError, Global};
use std::fmt::Write;

/// Appends the status of the program for the arguments in a line and a text on standard input, and what it writes to standard output and
/// then to standard error.
pub fn push_run(
    rt: &HostRuntime,
    row: &mut String,
    line: &str,
    text: &str,
) -> Result<(), AllocError> {
    let alloc = rt.alloc();
    let words = words_of(alloc, line)?;
    let (mut out, mut err) = (Vec::new(alloc), Vec::new(alloc));
    match request_of(alloc, &words) {
        Ok(request) => {
            let mut input = text.as_bytes();
            let status = run(rt, &request, &mut input, &mut out, &mut err);
            writeln!(row, " {status}")?;
            push_written(row, &out)?;
            push_written(row, &err)
        }
        Err(error) => push_error(row, &error),
    }
}

/// The arguments in a line.
fn words_of(alloc: Global, line: &str) -> Result<Vec<String>, AllocError> {
    let mut words = Vec::new(alloc);
    for word in line.split(' ') {
        if !word.is_empty() {
            words.push(String::from_str(alloc, word)?)?;
        }
    }
    Ok(words)
}

/// Appends the status for wrong arguments or for help, and its text.
fn push_error(row: &mut String, error: &WordsError) -> Result<(), AllocError> {
    write!(row, " {}\n{error}", error.status())
}

/// Appends what was written, which is UTF-8.
fn push_written(row: &mut String, written: &[u8]) -> Result<(), AllocError> {
    match str::from_utf8(written) {
        Ok(text) => row.push_str(text),
        Err(_) => row.push_str("no UTF-8\n"),
    }
}
