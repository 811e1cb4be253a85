//! The texts of diagnostics, one after another.
ghost use Rattle.std.specs.Prelude.{◌≡◌, ◌++◌, IfOk, OnOk, map, string_bytes};
ghost use Rattle.starlark_diagnostics.specs.Emit.{diagnostic_text, separator};
ghost use Rattle.starlark_diagnostics.specs.Ends.{file_of};
ghost use Rattle.starlark_diagnostics.specs.DiagnosticViews.{seen};
ghost use Rattle.starlark_cli.specs.Tool.Writing.{after, in_turn};

use starlark_diagnostics::diagnostic::Diagnostic;
use starlark_diagnostics::emit::{Format, diagnostic_text, separator};
use starlark_lexer::codemap::CodeMap;
use std::alloc::{AllocError, Global};

/// The texts of the diagnostics of a file, each after the separator of the format unless it is the first of all. `follows` says whether
/// a diagnostic was printed before.
///
/// Fails if memory runs out.
pub(crate) fn texts_of(
    alloc: Global,
    format: Format,
    follows: bool,
    path: &str,
    codemap: Option<&CodeMap>,
    diagnostics: &[Diagnostic],
) -> Result<String, AllocError>
    ensures { IfOk result (λ t. string_bytes t
        ≡ in_turn (separator format) follows (map (λ d. diagnostic_text format path.now (file_of codemap.entry) (seen d)) diagnostics.now)) }
{
    let mut texts = String::new(alloc);
    let mut follows = follows;
    for diagnostic in diagnostics {
        push_text(
            alloc, &mut texts, format, follows, path, codemap, diagnostic,
        )?;
        follows = true;
    }
    Ok(texts)
}

/// Appends the text of a diagnostic, after the separator if one follows another.
pub(crate) fn push_text(
    alloc: Global,
    texts: &mut String,
    format: Format,
    follows: bool,
    path: &str,
    codemap: Option<&CodeMap>,
    diagnostic: &Diagnostic,
) -> Result<(), AllocError>
    ensures { OnOk result (string_bytes texts.new ≡ string_bytes texts.old
        ++ after (separator format) follows (diagnostic_text format path.now (file_of codemap.entry) (seen diagnostic.now))) }
{
    if follows {
        texts.push_str(separator(format))?;
    }
    let text = diagnostic_text(alloc, format, path, codemap, diagnostic)?;
    texts.push_str(&text)?;
    Ok(())
}
