//! What is printed of the text of a file.
ghost use Rattle.std.specs.Prelude.{◌≡◌, ◌≢◌, [], IfOk, Some, map, string_bytes};
ghost use Rattle.starlark_checks.specs.Refusals.{out_of_memory};
ghost use Rattle.starlark_diagnostics.specs.Emit.{diagnostic_text};
ghost use Rattle.starlark_diagnostics.specs.declared.emit.Format.TheVariants as formats;
ghost use Rattle.starlark_lexer.specs.Tokens.{span_of};
ghost use Rattle.starlark_module.specs.Comments.Building.{suppressions_in};
ghost use Rattle.starlark_passes.specs.Lint.Found.{issue_of};
ghost use Rattle.starlark_diagnostics.specs.DiagnosticViews.{seen};
ghost use Rattle.starlark_source.specs.Lines.{source_of};
ghost use Rattle.starlark_tree.specs.Views.{statement_of};
ghost use Rattle.starlark_cli.specs.Tool.Modules.{PrintsIssues, PrintsModule, PrintsRefusal, PrintsSaid, PrintsText};
ghost use Rattle.starlark_cli.specs.Tool.Modules.{finding_of, head_of, issue_counts, issue_head, not_source};
ghost use Rattle.starlark_cli.specs.Tool.Writing.{Writes, counted_as};
ghost use Rattle.starlark_cli.specs.declared.tool.report.Finding.TheVariants.{Faulty};

use crate::tool::diagnostics::texts_of;
use crate::tool::error::report_of_error;
use crate::tool::listing::{loads_text, tree_text};
use crate::tool::report::{Counts, Finding, Report, clean, headed, with_error};
use crate::tool::task::{Mode, Task, Turn};
use starlark_checks::error::Error;
use starlark_diagnostics::code::Code;
use starlark_diagnostics::diagnostic::{Diagnostic, Severity};
use starlark_diagnostics::emit::{Format, diagnostic_text};
use starlark_diagnostics::issue::issue_diagnostic;
use starlark_diagnostics::refusal::error_diagnostic;
use starlark_json::{error_to_json, module_to_json};
use starlark_lexer::codemap::{CodeMap, Span};
use starlark_module::lint::{Issue, lint};
use starlark_module::module::AstModule;
use starlark_source::error::SourceError;
use starlark_source::source::to_source;
use starlark_tree::ast::AstStmt;
use std::alloc::{AllocError, Global};

/// What is printed of the text of a file.
pub(crate) fn report_of_text(
    alloc: Global,
    task: &Task,
    turn: Turn,
    path: &str,
    text: String,
) -> Result<Report, AllocError>
    ensures { IfOk result (PrintsText task.now turn path.now (string_bytes text)) }
{
    match AstModule::parse_limited(alloc, path, text, &task.dialect, task.max_depth) {
        Ok(module) => report_of_module(alloc, task, turn, &module),
        Err(error) => report_of_refusal(alloc, task, turn, path, &error),
    }
}

/// What is printed of a module.
fn report_of_module(
    alloc: Global,
    task: &Task,
    turn: Turn,
    ast: &AstModule,
) -> Result<Report, AllocError>
    ensures { IfOk result (PrintsModule task.now turn ast.now.codemap (map span_of ast.now.comments.items) (suppressions_in ast.now.suppressions)
        (statement_of ast.now.statement)) }
{
    match task.mode {
        Mode::Check => Ok(clean(alloc, String::new(alloc))),
        Mode::Lint => report_of_issues(alloc, task.format, turn.follows, ast),
        Mode::Loads => Ok(clean(alloc, loads_text(alloc, ast)?)),
        Mode::Json => {
            let mut line = module_to_json(alloc, ast)?;
            line.push_str("\n")?;
            Ok(clean(alloc, line))
        }
        Mode::Source => report_of_source(alloc, turn, ast),
        Mode::Print => {
            let tree = tree_text(alloc, ast)?;
            Ok(clean(alloc, headed(alloc, turn, ast.codemap().filename(), &tree)?))
        }
    }
}

/// The issues of a module that no comment suppresses.
fn report_of_issues(
    alloc: Global,
    format: Format,
    follows: bool,
    ast: &AstModule,
) -> Result<Report, AllocError>
    ensures { IfOk result (PrintsIssues format follows ast.now.codemap (suppressions_in ast.now.suppressions) (statement_of ast.now.statement)) }
{
    let issues = match lint(alloc, ast) {
        Ok(issues) => issues,
        Err(_) => return Err(AllocError),
    };
    let diagnostics = diagnostics_of(alloc, &issues, ast.statement())?;
    let codemap = ast.codemap();
    let out = texts_of(
        alloc,
        format,
        follows,
        codemap.filename(),
        Some(codemap),
        &diagnostics,
    )?;
    Ok(warned(alloc, out, diagnostics.len()))
}

/// The diagnostics of issues of a module.
///
/// Fails if memory runs out.
fn diagnostics_of(
    alloc: Global,
    issues: &[Issue],
    module: &AstStmt,
) -> Result<Vec<Diagnostic>, AllocError>
    ensures { IfOk result (λ ds. map (λ d. head_of (seen d)) ds.items ≡ map (λ i. issue_head (issue_of i)) issues.now) }
{
    let mut diagnostics = Vec::new(alloc);
    for issue in issues {
        let diagnostic = issue_diagnostic(alloc, issue, module)?;
        diagnostics.push(diagnostic)?;
    }
    Ok(diagnostics)
}

/// The report on a file with so many issues.
fn warned(alloc: Global, out: String, issues: usize) -> Report
    ensures { Writes (string_bytes out) [] (issue_counts issues) result }
{
    Report {
        out,
        err: String::new(alloc),
        counts: Counts {
            errors: 0,
            warnings: issues,
            finding: finding_of(issues),
        },
    }
}

/// How a file with so many issues is found.
fn finding_of(issues: usize) -> Finding
    ensures { result ≡ finding_of issues }
{
    if issues == 0 {
        Finding::Clean
    } else {
        Finding::Faulty
    }
}

/// The source of a module, or the first part of it that no source says.
fn report_of_source(alloc: Global, turn: Turn, ast: &AstModule) -> Result<Report, AllocError>
    ensures { IfOk result (PrintsSaid turn ast.now.codemap (source_of (statement_of ast.now.statement))) }
{
    match to_source(alloc, ast.statement()) {
        Ok(source) => Ok(clean(
            alloc,
            headed(alloc, turn, ast.codemap().filename(), &source)?,
        )),
        Err(SourceError::NotSource(span)) => report_of_unsaid(alloc, ast.codemap(), span),
        Err(SourceError::Memory) => Err(AllocError),
    }
}

/// The report on a part of a tree that no source says.
fn report_of_unsaid(alloc: Global, codemap: &CodeMap, span: Span) -> Result<Report, AllocError>
    ensures { IfOk result (Writes [] (diagnostic_text formats.Full codemap.now.name (Some codemap.now) (not_source (span_of span))) (counted_as Faulty)) }
{
    let diagnostic = not_source(alloc, span)?;
    let err = diagnostic_text(
        alloc,
        Format::Full,
        codemap.filename(),
        Some(codemap),
        &diagnostic,
    )?;
    Ok(with_error(String::new(alloc), err, Finding::Faulty))
}

/// The diagnostic of a part of a tree that no source says.
///
/// Fails if memory runs out.
fn not_source(alloc: Global, span: Span) -> Result<Diagnostic, AllocError>
    ensures { IfOk result (λ d. seen d ≡ not_source (span_of span)) }
{
    Ok(Diagnostic {
        code: Code::NotSource,
        severity: Severity::Error,
        message: String::from_str(alloc, "no Starlark source says this")?,
        span: Some(span),
        notes: Vec::new(alloc),
    })
}

/// What is printed of an error. Out of memory is not one.
fn report_of_refusal(
    alloc: Global,
    task: &Task,
    turn: Turn,
    path: &str,
    error: &Error,
) -> Result<Report, AllocError>
    ensures has_memory { IfOk result (λ _. error.now ≢ out_of_memory) }
    ensures printed { IfOk result (PrintsRefusal task.now turn path.now error.now) }
{
    if error.is_out_of_memory() {
        return Err(AllocError);
    }
    if let Mode::Json = task.mode {
        let mut out = error_to_json(alloc, error)?;
        out.push_str("\n")?;
        return Ok(with_error(out, String::new(alloc), Finding::Faulty));
    }
    let diagnostic = error_diagnostic(alloc, error, &task.dialect)?;
    let codemap = match error.span() {
        Some(place) => Some(&place.file),
        None => None,
    };
    report_of_error(
        alloc,
        task,
        turn,
        path,
        codemap,
        &diagnostic,
        Finding::Faulty,
    )
}
