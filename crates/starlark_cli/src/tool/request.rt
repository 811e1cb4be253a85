//! What the arguments ask for.
ghost use Rattle.std.specs.Prelude.{◌≡◌, ◌≢◌, ◌↔◌, ℕ, IfErr, IfOk, IfSome, IsNone, IsTrue, codes, map, option_map, string_bytes, true};
ghost use Rattle.clap.specs.Words.{first_of, found_of, rows_of, takes};
ghost use Rattle.starlark_diagnostics.specs.Emit.{format_name};
ghost use Rattle.starlark_diagnostics.specs.declared.emit.Format.{Format};
ghost use Rattle.starlark_lexer.specs.declared.dialect.Dialect.{Dialect};
ghost use Rattle.starlark_cli.specs.declared.tool.request.Request.{Request};
ghost use Rattle.starlark_cli.specs.declared.tool.task.Mode.{Mode};
ghost use Rattle.starlark_cli.specs.declared.tool.task.Task.{Task};
ghost use Rattle.starlark_cli.specs.Tool.Words.{AsksFor, Has, HasRequest, HasTask, IsOutOfMemory, NamesDepth, NamesDialect, is_on, mode_name, tool};

use crate::tool::command::tool;
use crate::tool::task::{Mode, Task};
use clap::ArgMatches;
use clap::error::ErrorKind;
use starlark_diagnostics::emit::Format;
use starlark_lexer::dialect::Dialect;
use std::alloc::{AllocError, AllocFailed, Global};
use std::fmt;

/// What the arguments ask for.
#[derive(Drop)]
pub struct Request<'a> {
    pub task: Task,
    /// Whether there is no summary.
    pub is_quiet: bool,
    /// The name of standard input in what is printed.
    pub stdin_name: &'a str,
    /// The files and folders in order; `-` is standard input.
    pub paths: Vec<&'a str>,
}

/// Why the arguments ask for nothing.
#[derive(Debug, Drop)]
pub enum WordsError {
    /// The command does not accept them, or they ask for its help or version.
    Command(clap::Error),
    /// No mode or dialect has this name.
    Name,
    /// No format has this name.
    FormatName,
    /// The depth is not a number below 2^32.
    Depth,
    /// They are not UTF-8.
    NotUtf8,
    Memory,
}

/// What the arguments, without the program's name, ask for.
pub fn request_of<'a>(alloc: Global, words: &'a [String]) -> Result<Request<'a>, WordsError>
    ensures asked { IfOk result (AsksFor (map string_bytes words.now)) }
    ensures taken { takes tool (map string_bytes words.now) ≡ true → (r : Request) → AsksFor (map string_bytes words.now) r
        → IfErr result IsOutOfMemory }
{
    let matches = tool(alloc)?.try_get_matches_from(words)?;
    match matches.subcommand() {
        Some((name, given)) => request_in(alloc, name, given),
        None => Err(WordsError::Name),
    }
}

/// What the arguments of a subcommand ask for.
fn request_in<'a>(
    alloc: Global,
    name: &str,
    given: &ArgMatches<'a>,
) -> Result<Request<'a>, WordsError>
    ensures asked { IfOk result (HasRequest name.now (rows_of (found_of given.now))) }
    ensures taken { (r : Request) → HasRequest name.now (rows_of (found_of given.now)) r → IfErr result IsOutOfMemory }
{
    let task = match task_in(name, given) {
        Ok(task) => task,
        Err(error) => return Err(error),
    };
    let Some(stdin_name) = value(given, "stdin-filename") else {
        return Err(WordsError::Name);
    };
    let Some(paths) = given.get_strs("path") else {
        return Err(WordsError::Name);
    };
    Ok(Request {
        task,
        is_quiet: is_on(given, "quiet"),
        stdin_name,
        paths: Vec::from_slice(alloc, paths)?,
    })
}

/// What the arguments of a subcommand ask to do with each file.
fn task_in(name: &str, given: &ArgMatches<'_>) -> Result<Task, WordsError>
    ensures asked { IfOk result (HasTask name.now (rows_of (found_of given.now))) }
    ensures taken { (t : Task) → HasTask name.now (rows_of (found_of given.now)) t → IfErr result IsOutOfMemory }
{
    let Some(mode) = mode_named(name) else {
        return Err(WordsError::Name);
    };
    let Some(dialect) = dialect_in(given) else {
        return Err(WordsError::Name);
    };
    let Some(max_depth) = depth_in(given) else {
        return Err(WordsError::Depth);
    };
    let Some(format) = format_in(given) else {
        return Err(WordsError::FormatName);
    };
    Ok(Task {
        mode,
        dialect,
        max_depth,
        format,
    })
}

/// The value of an option.
fn value<'a>(given: &ArgMatches<'a>, option: &str) -> Option<&'a str>
    ensures { option_map (λ s. s.now) result ≡ first_of option.now (rows_of (found_of given.now)) }
{
    given.get_str(option)
}

/// The dialect that is asked for.
fn dialect_in(given: &ArgMatches<'_>) -> Option<Dialect>
    ensures some { IfSome result (λ d. Has (codes "dialect") (rows_of (found_of given.now)) (λ word. NamesDialect word d)) }
    ensures none { IsNone result → (d : Dialect) → ¬ Has (codes "dialect") (rows_of (found_of given.now)) (λ word. NamesDialect word d) }
{
    match value(given, "dialect") {
        Some(name) => dialect_named(name),
        None => None,
    }
}

/// The limit on the depth that is asked for.
fn depth_in(given: &ArgMatches<'_>) -> Option<u32>
    ensures some { IfSome result (λ n. Has (codes "max-depth") (rows_of (found_of given.now)) (λ word. NamesDepth word n)) }
    ensures none { IsNone result → (n : ℕ) → ¬ Has (codes "max-depth") (rows_of (found_of given.now)) (λ word. NamesDepth word n) }
{
    match value(given, "max-depth") {
        Some(number) => depth_named(number),
        None => None,
    }
}

/// The format that is asked for.
fn format_in(given: &ArgMatches<'_>) -> Option<Format>
    ensures some { IfSome result (λ f. Has (codes "format") (rows_of (found_of given.now)) (λ word. word ≡ format_name f)) }
    ensures none { IsNone result → (f : Format) → ¬ Has (codes "format") (rows_of (found_of given.now)) (λ word. word ≡ format_name f) }
{
    match value(given, "format") {
        Some(name) => Format::named(name),
        None => None,
    }
}

/// Whether a flag is given.
fn is_on(given: &ArgMatches<'_>, flag: &str) -> bool
    ensures { result ≡ is_on flag.now (rows_of (found_of given.now)) }
{
    match value(given, flag) {
        Some(value) => value == "true",
        None => false,
    }
}

/// The mode of a name.
fn mode_named(name: &str) -> Option<Mode>
    ensures some { IfSome result (λ m. name.now ≡ mode_name m) }
    ensures none { IsNone result → (m : Mode) → name.now ≢ mode_name m }
{
    match name {
        "check" => Some(Mode::Check),
        "lint" => Some(Mode::Lint),
        "loads" => Some(Mode::Loads),
        "json" => Some(Mode::Json),
        "source" => Some(Mode::Source),
        "print" => Some(Mode::Print),
        _ => None,
    }
}

/// The dialect of a name.
fn dialect_named(name: &str) -> Option<Dialect>
    ensures some { IfSome result (NamesDialect name.now) }
    ensures none { IsNone result → (d : Dialect) → ¬ NamesDialect name.now d }
{
    match name {
        "all" => Some(Dialect::All),
        "standard" => Some(Dialect::Standard),
        "bare" => Some(Dialect::Bare),
        _ => None,
    }
}

/// The depth of a numeral.
fn depth_named(word: &str) -> Option<u32>
    ensures some { IfSome result (NamesDepth word.now) }
    ensures none { IsNone result → (n : ℕ) → ¬ NamesDepth word.now n }
{
    match word.parse::<u32>() {
        Ok(depth) => Some(depth),
        Err(_) => None,
    }
}

impl WordsError {
    /// Whether the arguments ask for the command's help or version, which is its text then.
    pub fn is_help(&self) -> bool {
        match self {
            WordsError::Command(error) => !error.use_stderr(),
            _ => false,
        }
    }

    /// The status of the program for these arguments: 0 if they ask for help or the version, 3 if memory ran out, else 2.
    pub fn status(&self) -> u8
        ensures { (result ≡ 3) ↔ IsOutOfMemory self.now }
    {
        if self.is_out_of_memory() {
            3
        } else if self.is_help() {
            0
        } else {
            2
        }
    }

    /// Whether memory ran out while they were read.
    pub fn is_out_of_memory(&self) -> bool
        ensures { IsTrue result ↔ IsOutOfMemory self.now }
    {
        match self {
            WordsError::Command(error) => error.kind() == ErrorKind::OutOfMemory,
            WordsError::Name | WordsError::FormatName | WordsError::Depth | WordsError::NotUtf8 =>
                false,
            WordsError::Memory => true,
        }
    }
}

impl fmt::Display for WordsError {
    fn fmt<W: fmt::Write>(&self, f: &mut fmt::Formatter<W>) -> fmt::Result {
        match self {
            WordsError::Command(error) => write!(f, "{error}"),
            WordsError::Name => f.write_str("error: the dialects are all, standard and bare\n"),
            WordsError::FormatName => f.write_str(
                "error: the formats are full, short, json, github and sarif\n",
            ),
            WordsError::Depth => f.write_str("error: the depth is not a number below 2^32\n"),
            WordsError::NotUtf8 => f.write_str("error: the arguments are not UTF-8\n"),
            WordsError::Memory => f.write_str("error: out of memory\n"),
        }
    }
}

impl From<clap::Error> for WordsError {
    ghost use Rattle.std.specs.Prelude.{◌≡◌};
    ghost use Rattle.starlark_cli.specs.declared.tool.request.WordsError.TheVariants.{Command};

    ghost from_gives = { λ error e. e ≡ Command error };

    fn from(error: clap::Error) -> WordsError {
        WordsError::Command(error)
    }
}

impl From<AllocError> for WordsError {
    ghost use Rattle.std.specs.Prelude.{◌≡◌};
    ghost use Rattle.starlark_cli.specs.declared.tool.request.WordsError.TheVariants.{Memory};

    ghost from_gives = { λ _ e. e ≡ Memory };

    fn from(_error: AllocError) -> WordsError {
        WordsError::Memory
    }
}

impl<T: Drop> From<AllocFailed<T>> for WordsError {
    ghost use Rattle.std.specs.Prelude.{◌≡◌};
    ghost use Rattle.starlark_cli.specs.declared.tool.request.WordsError.TheVariants.{Memory};

    ghost from_gives = { λ _ e. e ≡ Memory };

    fn from(_failed: AllocFailed<T>) -> WordsError {
        WordsError::Memory
    }
}
