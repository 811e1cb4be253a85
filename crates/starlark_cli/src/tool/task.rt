//! What is done with each file.
use starlark_diagnostics::emit::Format;
use starlark_lexer::dialect::Dialect;

/// What is printed of each file.
#[derive(Clone, Copy, Debug, PartialEq, Eq)]
pub enum Mode {
    /// Its error.
    Check,
    /// Its error, or its issues.
    Lint,
    /// Its loads.
    Loads,
    /// Its tree or its error, as JSON.
    Json,
    /// Source of its tree.
    Source,
    /// Its tree.
    Print,
}

/// What is done with each file.
#[derive(Clone, Copy)]
pub struct Task {
    pub mode: Mode,
    pub dialect: Dialect,
    /// The limit on the depth of the tokens of a file.
    pub max_depth: u32,
    /// The format of the diagnostics of `check` and `lint`.
    pub format: Format,
}

/// What is around a file among those that are read.
#[derive(Clone, Copy)]
pub struct Turn {
    /// Whether a diagnostic was printed before.
    pub follows: bool,
    /// Whether there are other files: `source` and `print` write a line with the path before each.
    pub is_one_of_many: bool,
}
