//! Diagnostics: what is wrong with a text, as a message for its author.
pub use starlark_diagnostics::code::Code;
pub use starlark_diagnostics::diagnostic::{Diagnostic, Note, Severity};
pub use starlark_diagnostics::issue::issue_diagnostic;
pub use starlark_diagnostics::refusal::error_diagnostic;
