//! Diagnostics.
ghost use Rattle.std.specs.Prelude.{◌≡◌};
ghost use Rattle.starlark_diagnostics.specs.Severities.{severity_name};

use crate::code::Code;
use starlark_lexer::span::Span;
use std::fmt;

/// How much a diagnostic matters.
#[derive(Clone, Copy, Debug, PartialEq, Eq)]
pub enum Severity {
    /// The text is refused.
    Error,
    /// The module is better off without it.
    Warning,
}

impl Severity {
    /// Its name: `error` or `warning`.
    pub fn name(self) -> &'static str
        ensures { result.now ≡ severity_name self }
    {
        match self {
            Severity::Error => "error",
            Severity::Warning => "warning",
        }
    }
}

/// Its name.
impl fmt::Display for Severity {
    ghost use Rattle.std.specs.Prelude.{Some};

    ghost output = { λ severity. Some (severity_name severity) };

    fn fmt<W: fmt::Write>(&self, f: &mut fmt::Formatter<W>) -> fmt::Result {
        f.write_str(self.name())
    }
}

/// What is said beside the message: of another place of the file, or, without a span, how to mend it.
#[derive(Debug, Drop)]
pub struct Note {
    /// One line.
    pub message: String,
    /// Where it is, in byte offsets of the file.
    pub span: Option<Span>,
}

/// An error or an issue of a file.
#[derive(Debug, Drop)]
pub struct Diagnostic {
    pub code: Code,
    pub severity: Severity,
    /// What is wrong: one line, without its place.
    pub message: String,
    /// Where it is, in byte offsets of the file. An error of the whole file has none.
    pub span: Option<Span>,
    pub notes: Vec<Note>,
}
