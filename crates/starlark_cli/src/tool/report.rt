//! What is printed of what was read of a file.
ghost use Rattle.std.specs.Prelude.{◌≡◌, IfOk, string_bytes};
ghost use Rattle.starlark_cli.specs.Tool.Reports.{PrintsSource};
ghost use Rattle.starlark_cli.specs.Tool.Writing.{Writes, WritesText, counted_as, headed};

use crate::tool::error::{report_of_fault, report_of_unread};
use crate::tool::module::report_of_text;
use crate::tool::source::Source;
use crate::tool::task::{Task, Turn};
use starlark_diagnostics::file::not_utf8;
use std::alloc::{AllocError, Global};

/// How a file was found.
#[derive(Clone, Copy, Debug, PartialEq, Eq)]
pub enum Finding {
    /// There is nothing to report.
    Clean,
    /// It has an error or an issue.
    Faulty,
    /// It was not read, or memory ran out.
    Failed,
}

/// What is counted of a file.
#[derive(Clone, Copy)]
pub struct Counts {
    pub errors: usize,
    pub warnings: usize,
    pub finding: Finding,
}

/// What is printed of a file.
#[derive(Drop)]
pub struct Report {
    /// For standard output.
    pub out: String,
    /// For standard error.
    pub err: String,
    pub counts: Counts,
}

/// What is printed of what was read of a file.
///
/// Fails if memory runs out.
pub fn report_of(
    alloc: Global,
    task: &Task,
    turn: Turn,
    path: &str,
    source: Source,
) -> Result<Report, AllocError>
    ensures { IfOk result (PrintsSource task.now turn path.now source) }
{
    match source {
        Source::Text(text) => report_of_text(alloc, task, turn, path, text),
        Source::NotUtf8 => {
            let diagnostic = not_utf8(alloc)?;
            report_of_fault(
                alloc,
                task,
                turn,
                path,
                "NotUtf8",
                &diagnostic,
                Finding::Faulty,
            )
        }
        Source::Unread(reason) => report_of_unread(alloc, task, turn, path, reason.as_str()),
    }
}

/// What is printed of a file without an error or issue.
pub(crate) fn clean(alloc: Global, out: String) -> Report
    ensures { WritesText (string_bytes out) result }
{
    Report {
        out,
        err: String::new(alloc),
        counts: Counts {
            errors: 0,
            warnings: 0,
            finding: Finding::Clean,
        },
    }
}

/// The report on a file that is found like this, with an error.
pub(crate) fn with_error(out: String, err: String, finding: Finding) -> Report
    ensures { Writes (string_bytes out) (string_bytes err) (counted_as finding) result }
{
    Report {
        out,
        err,
        counts: Counts {
            errors: 1,
            warnings: 0,
            finding,
        },
    }
}

/// A text, after a line with its path if there are several files.
pub(crate) fn headed(
    alloc: Global,
    turn: Turn,
    path: &str,
    text: &str,
) -> Result<String, AllocError>
    ensures { IfOk result (λ t. string_bytes t ≡ headed turn path.now text.now) }
{
    let mut out = String::new(alloc);
    if turn.is_one_of_many {
        out.push_str("# ")?;
        out.push_str(path)?;
        out.push_str("\n")?;
    }
    out.push_str(text)?;
    Ok(out)
}
