//! The program `starlark_ast DIALECT MODE`: it reads a text of Starlark from standard input and writes what the mode asks for.
#![tactic(auto)]

use starlark_cli::ast::run::run;
use starlark_cli::ast::stop::Stop;
use std::env;
use std::io::ErrorKind;
use std::process::ExitCode;

/// The arguments without the program's name. One that is not UTF-8 is refused, as any other wrong argument is.
fn words(rt: &HostRuntime) -> Result<Vec<String>, Stop> {
    let args = match env::args(rt) {
        Ok(args) => args,
        Err(error) if error.kind() == ErrorKind::OutOfMemory => return Err(Stop::Memory),
        Err(_) => return Err(Stop::Usage),
    };
    let mut words = Vec::new(rt.alloc());
    for word in args.skip(1) {
        words.push(word)?;
    }
    Ok(words)
}

fn main(rt: HostRuntime) -> ExitCode {
    let mut err = rt.stderr();
    let status = match words(&rt) {
        Ok(words) => run(
            rt.alloc(),
            words.as_slice(),
            &mut rt.stdin(),
            &mut rt.stdout(),
            &mut err,
        ),
        Err(stop) => stop.report(&mut err),
    };
    ExitCode::from(status)
}
