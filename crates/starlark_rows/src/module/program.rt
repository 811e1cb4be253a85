//! What the program writes, and its status.
use starlark_cli::ast::run::run;
use std::alloc::{AllocError, Global};
use std::fmt::Write;

/// What the program wrote, and its status.
#[derive(Drop)]
pub struct Written {
    pub status: u8,
    pub out: Vec<u8>,
    pub err: Vec<u8>,
}

/// Runs the program on the input, with its arguments in one line.
pub fn run_words(alloc: Global, words: &str, input: &[u8]) -> Result<Written, AllocError> {
    let words = words_of(alloc, words)?;
    let (mut out, mut err) = (Vec::new(alloc), Vec::new(alloc));
    let mut input = input;
    let status = run(alloc, &words, &mut input, &mut out, &mut err);
    Ok(Written { status, out, err })
}

/// The arguments in a line.
pub fn words_of(alloc: Global, line: &str) -> Result<Vec<String>, AllocError> {
    let mut words = Vec::new(alloc);
    for word in line.split(' ') {
        if !word.is_empty() {
            words.push(String::from_str(alloc, word)?)?;
        }
    }
    Ok(words)
}

/// Appends the status, and what was written.
pub fn push_program(out: &mut String, words: &str, text: &str) -> Result<(), AllocError> {
    let written = run_words(*out.allocator(), words, text.as_bytes())?;
    let status = written.status;
    writeln!(out, " {status}")?;
    push_written(out, &written.out)?;
    push_written(out, &written.err)
}

/// Appends what was written, which is UTF-8.
pub fn push_written(out: &mut String, written: &[u8]) -> Result<(), AllocError> {
    match str::from_utf8(written) {
        Ok(text) => out.push_str(text),
        Err(_) => out.push_str("no UTF-8\n"),
    }
}

/// Appends whether what the program prints is printed the same again, and else what it printed then.
pub fn push_reprint(out: &mut String, text: &str) -> Result<(), AllocError> {
    let alloc = *out.allocator();
    let first = run_words(alloc, "all print", text.as_bytes())?;
    let again = run_words(alloc, "all print", &first.out)?;
    if first.status == 0 && again.status == 0 && again.out == first.out {
        return out.push_str("the same\n");
    }
    push_written(out, &again.out)?;
    push_written(out, &again.err)
}
