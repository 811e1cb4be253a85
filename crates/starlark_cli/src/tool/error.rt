//! What is printed of a file with an error.
ghost use Rattle.std.specs.Prelude.{IfOk};
ghost use Rattle.starlark_diagnostics.specs.Ends.{file_of};
ghost use Rattle.starlark_diagnostics.specs.DiagnosticViews.{seen};
ghost use Rattle.starlark_cli.specs.Tool.Writing.{PrintsFault, PrintsUnread, WritesDiagnostic};

use crate::tool::diagnostics::push_text;
use crate::tool::fault::fault_json;
use crate::tool::report::{Finding, Report, with_error};
use crate::tool::task::{Mode, Task, Turn};
use starlark_diagnostics::diagnostic::Diagnostic;
use starlark_diagnostics::emit::{Format, diagnostic_text};
use starlark_diagnostics::file::unreadable;
use starlark_lexer::codemap::CodeMap;
use std::alloc::{AllocError, Global};

/// What is printed of an error, unless it is to be JSON: it is what `check` and `lint` are asked for, and else goes to standard error.
pub(crate) fn report_of_error(
    alloc: Global,
    task: &Task,
    turn: Turn,
    path: &str,
    codemap: Option<&CodeMap>,
    diagnostic: &Diagnostic,
    finding: Finding,
) -> Result<Report, AllocError>
    ensures { IfOk result (WritesDiagnostic task.now.mode task.now.format turn.follows path.now (file_of codemap.entry)
        (seen diagnostic.now) finding) }
{
    match task.mode {
        Mode::Check | Mode::Lint => {
            let mut out = String::new(alloc);
            push_text(
                alloc,
                &mut out,
                task.format,
                turn.follows,
                path,
                codemap,
                diagnostic,
            )?;
            Ok(with_error(out, String::new(alloc), finding))
        }
        _ => {
            let err = diagnostic_text(alloc, Format::Full, path, codemap, diagnostic)?;
            Ok(with_error(String::new(alloc), err, finding))
        }
    }
}

/// What is printed of a file without a text, whose error has the kind in JSON.
pub(crate) fn report_of_fault(
    alloc: Global,
    task: &Task,
    turn: Turn,
    path: &str,
    kind: &str,
    diagnostic: &Diagnostic,
    finding: Finding,
) -> Result<Report, AllocError>
    ensures { IfOk result (PrintsFault task.now turn path.now kind.now (seen diagnostic.now) finding) }
{
    if let Mode::Json = task.mode {
        let mut out = fault_json(alloc, kind, &diagnostic.message, path)?;
        out.push_str("\n")?;
        return Ok(with_error(out, String::new(alloc), finding));
    }
    report_of_error(alloc, task, turn, path, None, diagnostic, finding)
}

/// What is printed of a file or folder that could not be read.
pub(crate) fn report_of_unread(
    alloc: Global,
    task: &Task,
    turn: Turn,
    path: &str,
    reason: &str,
) -> Result<Report, AllocError>
    ensures { IfOk result (PrintsUnread task.now turn path.now reason.now) }
{
    let diagnostic = unreadable(alloc, reason)?;
    report_of_fault(
        alloc,
        task,
        turn,
        path,
        "Unreadable",
        &diagnostic,
        Finding::Failed,
    )
}
