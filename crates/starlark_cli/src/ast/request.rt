//! What the arguments ask for.
ghost use Rattle.std.specs.Prelude.{◌≡◌, IfOk, IfSome, map, string_bytes};
ghost use Rattle.starlark_cli.specs.Ast.Output.{AsksFor, NamesDialect, mode_name};

use crate::ast::stop::Stop;
use starlark_lexer::dialect::Dialect;

/// What is printed of a module.
#[derive(Clone, Copy)]
pub enum Mode {
    /// Its text.
    Print,
    /// The positions of its statements.
    Locations,
    /// Its loads.
    Loads,
    /// Its comments.
    Comments,
    /// Its issues.
    Lint,
}

/// What the arguments ask for.
#[derive(Clone, Copy)]
pub struct Request {
    pub dialect: Dialect,
    pub mode: Mode,
}

/// What the arguments ask for, if there are two, which name a dialect and a mode.
pub fn request_of(words: &[String]) -> Result<Request, Stop>
    ensures { IfOk result (λ r. AsksFor (map string_bytes words.now) r.dialect r.mode) }
{
    let [dialect, mode] = words else {
        return Err(Stop::Usage);
    };
    let Some(mode) = mode_named(mode.as_str()) else {
        return Err(Stop::Usage);
    };
    match dialect_named(dialect.as_str()) {
        Some(dialect) => Ok(Request { dialect, mode }),
        None => Err(Stop::Usage),
    }
}

/// The mode of a name.
fn mode_named(name: &str) -> Option<Mode>
    ensures { IfSome result (λ m. name.now ≡ mode_name m) }
{
    match name {
        "print" => Some(Mode::Print),
        "locations" => Some(Mode::Locations),
        "loads" => Some(Mode::Loads),
        "comments" => Some(Mode::Comments),
        "lint" => Some(Mode::Lint),
        _ => None,
    }
}

/// The dialect of a name.
fn dialect_named(name: &str) -> Option<Dialect>
    ensures { IfSome result (λ d. NamesDialect name.now d) }
{
    match name {
        "all" => Some(Dialect::All),
        "bare" => Some(Dialect::Bare),
        _ => None,
    }
}
