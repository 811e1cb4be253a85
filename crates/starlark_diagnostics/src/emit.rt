//! Diagnostics as text: for a terminal, for editors, as JSON, for GitHub and as SARIF.
mod full;
mod github;
mod object;
mod place;
mod row;
mod sarif;
mod short;
mod snippet;
mod writer;
mod written;

ghost use Rattle.std.specs.Prelude.{◌≡◌, ◌≢◌, IfOk, IfSome, IsNone, string_bytes};
ghost use Rattle.starlark_diagnostics.specs.Emit as specs;
ghost use Rattle.starlark_diagnostics.specs.Emit.{format_name};
ghost use Rattle.starlark_diagnostics.specs.Ends.{file_of};
ghost use Rattle.starlark_diagnostics.specs.DiagnosticViews.{seen};

use crate::diagnostic::Diagnostic;
use crate::emit::full::full_text;
use crate::emit::github::github_text;
use crate::emit::object::json_text;
use crate::emit::sarif::sarif_text;
use crate::emit::short::short_text;
use starlark_lexer::codemap::CodeMap;
use std::alloc::{AllocError, Global};
use std::fmt;

/// How diagnostics are written.
#[derive(Clone, Copy, Debug, PartialEq, Eq)]
pub enum Format {
    /// The short line, the lines of the span with carets below, and the notes.
    Full,
    /// A line for each: `file:line:col: error: message [code]`.
    Short,
    /// A JSON object a line.
    Json,
    /// A command of GitHub's workflows a line.
    Github,
    /// One SARIF document.
    Sarif,
}

impl Format {
    /// The format of this name.
    pub fn named(name: &str) -> Option<Format>
        ensures some { IfSome result (λ f. name.now ≡ format_name f) }
        ensures none { IsNone result → (f : Format) → name.now ≢ format_name f }
    {
        match name {
            "full" => Some(Format::Full),
            "short" => Some(Format::Short),
            "json" => Some(Format::Json),
            "github" => Some(Format::Github),
            "sarif" => Some(Format::Sarif),
            _ => None,
        }
    }

    /// Its name: `full`, `short`, `json`, `github` or `sarif`.
    pub fn name(self) -> &'static str
        ensures { result.now ≡ format_name self }
    {
        match self {
            Format::Full => "full",
            Format::Short => "short",
            Format::Json => "json",
            Format::Github => "github",
            Format::Sarif => "sarif",
        }
    }
}

/// Its name.
impl fmt::Display for Format {
    ghost use Rattle.std.specs.Prelude.{Some};

    ghost output = { λ format. Some (format_name format) };

    fn fmt<W: fmt::Write>(&self, f: &mut fmt::Formatter<W>) -> fmt::Result {
        f.write_str(self.name())
    }
}

/// A diagnostic of the file at `path`, as text. The file's text is in `codemap`: without it, as for a file that is not read, no line
/// and column are written.
///
/// Fails if an allocation fails.
pub fn diagnostic_text(
    alloc: Global,
    format: Format,
    path: &str,
    codemap: Option<&CodeMap>,
    diagnostic: &Diagnostic,
) -> Result<String, AllocError>
    ensures { IfOk result (λ text. string_bytes text ≡ specs.diagnostic_text format path.now (file_of codemap.entry) (seen diagnostic.now)) }
{
    match format {
        Format::Full => full_text(alloc, path, codemap, diagnostic),
        Format::Short => short_text(alloc, path, codemap, diagnostic),
        Format::Json => json_text(alloc, path, codemap, diagnostic),
        Format::Github => github_text(alloc, path, codemap, diagnostic),
        Format::Sarif => sarif_text(alloc, path, codemap, diagnostic),
    }
}

/// What is written before the first diagnostic: the start of the document of SARIF.
pub fn opening(format: Format) -> &'static str
    ensures { result.now ≡ specs.opening format }
{
    match format {
        Format::Sarif => {
            "{\"version\":\"2.1.0\",\"$schema\":\"https://json.schemastore.org/sarif-2.1.0.json\",\"runs\":[{\
             \"tool\":{\"driver\":{\"name\":\"starlark\"}},\"columnKind\":\"unicodeCodePoints\",\"results\":["
        }
        _ => "",
    }
}

/// What is written between two diagnostics.
pub fn separator(format: Format) -> &'static str
    ensures { result.now ≡ specs.separator format }
{
    match format {
        Format::Sarif => ",",
        _ => "",
    }
}

/// What is written after the last diagnostic: the end of the document of SARIF.
pub fn closing(format: Format) -> &'static str
    ensures { result.now ≡ specs.closing format }
{
    match format {
        Format::Sarif => "]}]}\n",
        _ => "",
    }
}
