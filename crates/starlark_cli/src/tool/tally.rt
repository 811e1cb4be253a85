//! The summary of `check` and `lint`, and the status.
ghost use Rattle.std.specs.Prelude.{◌≡◌, ◌++◌, IfOk, OnOk, string_bytes};
ghost use Rattle.starlark_cli.specs.Tool.Tallies.{counted, is_clean, no_files, status_of, summary, with_file};

use crate::tool::report::{Counts, Finding};
use std::alloc::{AllocError, Global};
use std::fmt::Write;

/// How many errors, warnings and files there have been, and the status of these.
#[derive(Clone, Copy)]
pub struct Tally {
    pub errors: usize,
    pub warnings: usize,
    pub files: usize,
    pub status: u8,
}

impl Tally {
    /// Of no files.
    pub fn new() -> Tally
        ensures { result ≡ no_files }
    {
        Tally {
            errors: 0,
            warnings: 0,
            files: 0,
            status: 0,
        }
    }

    /// Whether there has been no error or warning.
    pub fn is_clean(&self) -> bool
        ensures { result ≡ is_clean self.now }
    {
        self.errors == 0 && self.warnings == 0
    }

    /// With one more file, of which this is counted.
    pub fn with(self, counts: Counts) -> Tally
        ensures { result ≡ with_file self counts }
    {
        Tally {
            errors: self.errors.saturating_add(counts.errors),
            warnings: self.warnings.saturating_add(counts.warnings),
            files: self.files.saturating_add(1),
            status: self.status.max(status_of(counts.finding)),
        }
    }
}

/// The status of a file.
fn status_of(finding: Finding) -> u8
    ensures { result ≡ status_of finding }
{
    match finding {
        Finding::Clean => 0,
        Finding::Faulty => 1,
        Finding::Failed => 3,
    }
}

/// The summary, as `2 errors, 1 warning in 212 files`.
pub fn summary(alloc: Global, tally: &Tally) -> Result<String, AllocError>
    ensures { IfOk result (λ text. string_bytes text ≡ summary tally.now) }
{
    let mut text = String::new(alloc);
    add_count(&mut text, tally.errors, "error")?;
    text.push_str(", ")?;
    add_count(&mut text, tally.warnings, "warning")?;
    text.push_str(" in ")?;
    add_count(&mut text, tally.files, "file")?;
    text.push_str("\n")?;
    Ok(text)
}

/// Adds a number of things that are called this.
fn add_count(text: &mut String, count: usize, thing: &str) -> Result<(), AllocError>
    ensures { OnOk result (string_bytes text.new ≡ string_bytes text.old ++ counted count thing.now) }
{
    write!(text, "{count} {thing}")?;
    if count != 1 {
        text.push_str("s")?;
    }
    Ok(())
}
