//! The program `starlark COMMAND [OPTION].. [PATH]..`: the errors, issues, loads and trees of files of Starlark.
#![tactic(auto)]

use starlark_cli::tool::put::Failure;
use starlark_cli::tool::request::{WordsError, request_of};
use starlark_cli::tool::run::run;
use std::env;
use std::io::ErrorKind;
use std::process::ExitCode;

/// The status if the output could not be written.
const FAILED: u8 = 3;

/// The arguments without the program's name. Arguments that are not UTF-8 are wrong.
fn words(rt: &HostRuntime) -> Result<Vec<String>, WordsError> {
    let args = match env::args(rt) {
        Ok(args) => args,
        Err(error) if error.kind() == ErrorKind::OutOfMemory => return Err(WordsError::Memory),
        Err(_) => return Err(WordsError::NotUtf8),
    };
    let mut words = Vec::new(rt.alloc());
    for word in args.skip(1) {
        words.push(word)?;
    }
    Ok(words)
}

/// Prints the help that the arguments ask for, or why they ask for nothing, and returns the status.
fn explain(rt: &HostRuntime, error: &WordsError) -> u8 {
    if !error.is_help() {
        let _ = eprint!(rt; "{error}");
        return error.status();
    }
    match print!(rt; "{error}") {
        Ok(()) => error.status(),
        Err(_) => {
            let _ = eprintln!(rt; "{}", Failure::Write);
            FAILED
        }
    }
}

fn main(rt: HostRuntime) -> ExitCode {
    let words = match words(&rt) {
        Ok(words) => words,
        Err(error) => return ExitCode::from(explain(&rt, &error)),
    };
    let status = match request_of(rt.alloc(), words.as_slice()) {
        Ok(request) => run(
            &rt,
            &request,
            &mut rt.stdin(),
            &mut rt.stdout(),
            &mut rt.stderr(),
        ),
        Err(error) => explain(&rt, &error),
    };
    ExitCode::from(status)
}
