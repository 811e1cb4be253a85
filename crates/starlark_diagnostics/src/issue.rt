//! The diagnostic of an issue.
ghost use Rattle.std.specs.Prelude.{◌≡◌, IfOk, Some, string_bytes};
ghost use Rattle.starlark_diagnostics.specs.Issues.{issue_code};
ghost use Rattle.starlark_diagnostics.specs.declared.diagnostic.Severity.TheVariants as severities;

use crate::code::Code;
use crate::diagnostic::{Diagnostic, Note, Severity};
use crate::key::first_key;
use crate::load::loaded_at;
use crate::refusal::Explanation;
use starlark_lexer::span::Span;
use starlark_passes::lint::Issue;
use starlark_tree::ast::AstStmt;
use starlark_tree::display::literal::Quoted;
use std::alloc::{AllocError, Global};

/// The diagnostic of an issue of a module: of a name that is loaded and not read with the file that it is loaded from, and of a key
/// with the first one that is equal.
///
/// Fails if memory runs out.
pub fn issue_diagnostic(
    alloc: Global,
    issue: &Issue,
    module: &AstStmt,
) -> Result<Diagnostic, AllocError>
    ensures code { IfOk result (λ d. d.code ≡ issue_code issue.now.name.now) }
    ensures severity { IfOk result (λ d. d.severity ≡ severities.Warning) }
    ensures span { IfOk result (λ d. d.span ≡ Some issue.now.span) }
{
    let code = code_of(issue.name);
    let explanation = match code {
        Code::UnusedLoad => explain_load(alloc, issue.span, module)?,
        _ => explain_key(alloc, issue.span, module)?,
    };
    Ok(Diagnostic {
        code,
        severity: Severity::Warning,
        message: explanation.message,
        span: Some(issue.span),
        notes: explanation.notes,
    })
}

/// The code of the issue of this name.
fn code_of(name: &str) -> Code
    ensures { result ≡ issue_code name.now }
{
    if name == "unused-load" {
        Code::UnusedLoad
    } else {
        Code::DuplicateKey
    }
}

/// Explains that a name is loaded and not read.
fn explain_load(alloc: Global, span: Span, module: &AstStmt) -> Result<Explanation, AllocError> {
    let message = match loaded_at(alloc, module, span)? {
        Some(loaded) => {
            let (name, file) = (loaded.name, Quoted(loaded.file));
            format!(in alloc; "`{name}` is loaded from {file} and never used")?
        }
        None => String::from_str(alloc, "a name is loaded and never used")?,
    };
    Ok(Explanation {
        message,
        notes: Vec::new(alloc),
    })
}

/// Explains that a key has the text of an earlier one.
fn explain_key(alloc: Global, span: Span, module: &AstStmt) -> Result<Explanation, AllocError> {
    let mut notes = Vec::new(alloc);
    let message = match first_key(alloc, module, span)? {
        Some(first) => {
            notes.push(Note {
                message: String::from_str(alloc, "it is here first")?,
                span: Some(first.span),
            })?;
            let key = Quoted(&first.text);
            format!(in alloc; "the key {key} is repeated")?
        }
        None => String::from_str(alloc, "a key is repeated")?,
    };
    Ok(Explanation { message, notes })
}
