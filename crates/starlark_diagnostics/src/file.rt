//! The diagnostics of files that cannot be read as text.
ghost use Rattle.std.specs.Prelude.{◌≡◌, IfOk, string_bytes};
ghost use Rattle.starlark_diagnostics.specs.Files as specs;
ghost use Rattle.starlark_diagnostics.specs.Files.{file_error};
ghost use Rattle.starlark_diagnostics.specs.DiagnosticViews.{seen};

use crate::code::Code;
use crate::diagnostic::{Diagnostic, Severity};
use std::alloc::{AllocError, Global};

/// The diagnostic of a file that is not UTF-8.
///
/// Fails if an allocation fails.
pub fn not_utf8(alloc: Global) -> Result<Diagnostic, AllocError>
    ensures { IfOk result (λ d. seen d ≡ specs.not_utf8) }
{
    let message = String::from_str(alloc, "the file is not UTF-8")?;
    Ok(of_file(alloc, Code::NotUtf8, message))
}

/// The diagnostic of a file that cannot be read, for this reason.
///
/// Fails if an allocation fails.
pub fn unreadable(alloc: Global, reason: &str) -> Result<Diagnostic, AllocError>
    ensures { IfOk result (λ d. seen d ≡ specs.unreadable reason.now) }
{
    let message = format!(in alloc; "cannot read the file: {reason}")?;
    Ok(of_file(alloc, Code::Unreadable, message))
}

/// An error of a whole file.
fn of_file(alloc: Global, code: Code, message: String) -> Diagnostic
    ensures { seen result ≡ file_error code (string_bytes message) }
{
    Diagnostic {
        code,
        severity: Severity::Error,
        message,
        span: None,
        notes: Vec::new(alloc),
    }
}
