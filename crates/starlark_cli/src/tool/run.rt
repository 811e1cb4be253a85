//! What the program does with the files that it is given.
ghost use Rattle.std.specs.Prelude.{◌≡◌, ◌⊎◌, IfOk, MatchResult};
ghost use Rattle.starlark_cli.specs.Tool.PrintedFiles.{PrintsAll, PrintsFile, PrintsFiles, PrintsFound, PrintsSome};
ghost use Rattle.starlark_cli.specs.Tool.PrintedFiles.{closing_of, is_reporting, is_summed_up, name_of, opening_of};

use crate::tool::error::report_of_unread;
use crate::tool::folder::{Found, found_at};
use crate::tool::put::{Failure, put};
use crate::tool::report::{Counts, Finding, Report, report_of};
use crate::tool::request::Request;
use crate::tool::source::{read_file, read_input};
use crate::tool::tally::{Tally, summary};
use crate::tool::task::{Mode, Task, Turn};
use starlark_diagnostics::emit::{closing, opening};
use std::alloc::AllocError;
use std::io::{Read, Write};
use std::rt::Files;

const FAILED: u8 = 3;

/// Does what is asked with each file in order, whatever is found in those before it, and returns the status: 0 if there is nothing
/// to report, 1 if a file has an error or an issue, 3 if one could not be read, memory ran out or the output could not be written.
/// No further file is read once the output could not be written.
pub fn run<R: Files + AllocGlobal + Clone + Drop, I: Read, W: Write, E: Write>(
    rt: &R,
    request: &Request,
    input: &mut I,
    out: &mut W,
    err: &mut E,
) -> u8
    ensures { PrintsAll request.now (I.remaining input.old) (W.contents out.old) (W.contents out.new) (E.contents err.old) (E.contents err.new) result
        ⊎ ((result ≡ 3) × PrintsSome request.now (I.remaining input.old) (W.contents out.old) (W.contents out.new)) }
{
    match run_all(rt, request, input, out, err) {
        Ok(status) => status,
        Err(failure) => {
            let _ = writeln!(err, "{failure}");
            FAILED
        }
    }
}

/// Reports on all files, and returns the status.
fn run_all<R: Files + AllocGlobal + Clone + Drop, I: Read, W: Write, E: Write>(
    rt: &R,
    request: &Request,
    input: &mut I,
    out: &mut W,
    err: &mut E,
) -> Result<u8, Failure>
    ensures { MatchResult result
        (PrintsAll request.now (I.remaining input.old) (W.contents out.old) (W.contents out.new) (E.contents err.old) (E.contents err.new))
        (λ _. PrintsSome request.now (I.remaining input.old) (W.contents out.old) (W.contents out.new)) }
{
    let found = found_at(rt, &request.paths)?;
    put(out, opening_of(&request.task))?;
    let tally = print_files(rt, request, &found, input, out, err)?;
    put(out, closing_of(&request.task))?;
    if out.flush().is_err() {
        return Err(Failure::Write);
    }
    if is_summed_up(request, &tally) {
        let text = summary(rt.alloc(), &tally)?;
        put(err, &text)?;
    }
    Ok(tally.status)
}

/// Reports on each file, and counts them.
fn print_files<R: Files + AllocGlobal, I: Read, W: Write, E: Write>(
    rt: &R,
    request: &Request,
    found: &[Found],
    input: &mut I,
    out: &mut W,
    err: &mut E,
) -> Result<Tally, Failure>
    ensures { PrintsFiles request.now found.now (I.remaining input.old) (W.contents out.old) (W.contents out.new)
        (E.contents err.old) (E.contents err.new) result }
{
    let is_one_of_many = found.len() > 1;
    let mut tally = Tally::new();
    for file in found {
        let turn = Turn {
            follows: !tally.is_clean(),
            is_one_of_many,
        };
        let counts = print_file(rt, request, turn, file, input, out, err)?;
        tally = tally.with(counts);
    }
    Ok(tally)
}

/// Whether there is a summary.
fn is_summed_up(request: &Request, tally: &Tally) -> bool
    ensures { result ≡ is_summed_up request.now tally.now }
{
    reports(request.task.mode) && !request.is_quiet && !tally.is_clean()
}

/// Whether diagnostics are what the mode prints.
fn reports(mode: Mode) -> bool
    ensures { result ≡ is_reporting mode }
{
    matches!(mode, Mode::Check | Mode::Lint)
}

/// What is printed before all diagnostics.
fn opening_of(task: &Task) -> &'static str
    ensures { result.now ≡ opening_of task.now }
{
    if reports(task.mode) {
        opening(task.format)
    } else {
        ""
    }
}

/// What is printed after all diagnostics.
fn closing_of(task: &Task) -> &'static str
    ensures { result.now ≡ closing_of task.now }
{
    if reports(task.mode) {
        closing(task.format)
    } else {
        ""
    }
}

/// Reports on a file, and returns what is counted of it.
fn print_file<R: Files + AllocGlobal, I: Read, W: Write, E: Write>(
    rt: &R,
    request: &Request,
    turn: Turn,
    file: &Found,
    input: &mut I,
    out: &mut W,
    err: &mut E,
) -> Result<Counts, Failure>
    ensures { PrintsFile request.now turn file.now (I.remaining input.old) (I.remaining input.new) (W.contents out.old) (W.contents out.new)
        (E.contents err.old) (E.contents err.new) result }
{
    match report_of_file(rt, request, turn, file, input) {
        Ok(report) => {
            put(out, &report.out)?;
            put(err, &report.err)?;
            Ok(report.counts)
        }
        Err(_) => {
            put(err, name_of(request, file))?;
            put(err, ": out of memory\n")?;
            Ok(Counts {
                errors: 0,
                warnings: 0,
                finding: Finding::Failed,
            })
        }
    }
}

/// The name of a file in what is printed.
fn name_of<'a>(request: &Request<'a>, file: &'a Found) -> &'a str
    ensures { result.now ≡ name_of request.now file.now }
{
    match file {
        Found::Input => request.stdin_name,
        Found::File(path) | Found::Unread(path, _) => path.as_str(),
    }
}

/// What is printed of a file.
///
/// Fails if memory runs out.
fn report_of_file<R: Files + AllocGlobal, I: Read>(
    rt: &R,
    request: &Request,
    turn: Turn,
    file: &Found,
    input: &mut I,
) -> Result<Report, AllocError>
    ensures { IfOk result (PrintsFound request.now turn (I.remaining input.old) (I.remaining input.new) file.now) }
{
    let alloc = rt.alloc();
    let task = &request.task;
    match file {
        Found::Input => {
            let source = read_input(alloc, input)?;
            report_of(alloc, task, turn, request.stdin_name, source)
        }
        Found::File(path) => report_of(alloc, task, turn, path, read_file(rt, path)?),
        Found::Unread(path, reason) => report_of_unread(alloc, task, turn, path, reason),
    }
}
