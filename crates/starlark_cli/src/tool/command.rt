//! The command, as `clap` reads it.
ghost use Rattle.std.specs.Prelude.{◌≡◌, IfOk, codes, false, true};
ghost use Rattle.clap.specs.Words.{app_of, rule_of, shape_of, with_subcommand};
ghost use Rattle.clap.specs.declared.builder.command.Command.TheViews.{out-Command};
ghost use Rattle.starlark_cli.specs.Tool.Words.{flag_rule, mode_shape, option_rule, path_rule, tool};

use clap::{Arg, ArgAction, Command};
use std::alloc::{AllocError, Global};

/// The command `starlark`, with a subcommand for each mode.
pub(crate) fn tool<'a>(alloc: Global) -> Result<Command<'a>, AllocError>
    ensures { IfOk result (λ c. app_of c ≡ tool) }
{
    let command = Command::new(alloc, "starlark")
        .about("Checks, lints and reads files of Starlark")
        .no_binary_name(true)
        .subcommand_required(true);
    let command = command.version("0.1.0").bin_name("starlark")?;
    let command = with_mode(
        command,
        alloc,
        "check",
        "Reports the error of each file",
        true,
    )?;
    let command = with_mode(
        command,
        alloc,
        "lint",
        "Reports the error or the issues of each file",
        true,
    )?;
    let command = with_mode(
        command,
        alloc,
        "loads",
        "Lists the loads of each file",
        false,
    )?;
    let command = with_mode(
        command,
        alloc,
        "json",
        "Writes the tree or the error of each file as JSON, one a line",
        false,
    )?;
    let command = with_mode(
        command,
        alloc,
        "source",
        "Writes canonical source of each file",
        false,
    )?;
    with_mode(
        command,
        alloc,
        "print",
        "Prints the tree of each file",
        false,
    )
}

/// The command with the subcommand of a mode, whose paths may be left out or not.
fn with_mode<'a>(
    command: Command<'a>,
    alloc: Global,
    name: &'a str,
    about: &'a str,
    is_optional: bool,
) -> Result<Command<'a>, AllocError>
    ensures { IfOk result (λ c. app_of c ≡ with_subcommand (app_of command.entry) (mode_shape name.entry.now is_optional)) }
{
    command.subcommand(mode(alloc, name, about, is_optional)?)
}

/// The subcommand of a mode.
fn mode<'a>(
    alloc: Global,
    name: &'a str,
    about: &'a str,
    is_optional: bool,
) -> Result<Command<'a>, AllocError>
    ensures shape { IfOk result (λ c. shape_of c ≡ mode_shape name.entry.now is_optional) }
    ensures local { IfOk result (λ c. (out-Command c).has_globals ≡ false) }
{
    Command::new(alloc, name)
        .about(about)
        .arg(dialect(alloc))?
        .arg(max_depth(alloc))?
        .arg(format(alloc))?
        .arg(stdin_name(alloc))?
        .arg(quiet(alloc))?
        .arg(path(alloc, is_optional))
}

/// `--dialect DIALECT`.
fn dialect<'a>(alloc: Global) -> Arg<'a>
    ensures rule { rule_of result ≡ option_rule (codes "dialect") (codes "all") }
    ensures local { result.global ≡ false }
{
    Arg::new(alloc, "dialect")
        .long("dialect")
        .value_name("DIALECT")
        .default_value("all")
        .help("The syntax that is allowed: all, standard or bare")
}

/// `--max-depth DEPTH`.
fn max_depth<'a>(alloc: Global) -> Arg<'a>
    ensures rule { rule_of result ≡ option_rule (codes "max-depth") (codes "2000") }
    ensures local { result.global ≡ false }
{
    Arg::new(alloc, "max-depth")
        .long("max-depth")
        .value_name("DEPTH")
        .default_value("2000")
        .help("The limit on how deep delimiters, blocks and operators nest")
}

/// `--format FORMAT`.
fn format<'a>(alloc: Global) -> Arg<'a>
    ensures rule { rule_of result ≡ option_rule (codes "format") (codes "full") }
    ensures local { result.global ≡ false }
{
    Arg::new(alloc, "format")
        .long("format")
        .value_name("FORMAT")
        .default_value("full")
        .help("How check and lint report: full, short, json, github or sarif")
}

/// `--stdin-filename NAME`.
fn stdin_name<'a>(alloc: Global) -> Arg<'a>
    ensures rule { rule_of result ≡ option_rule (codes "stdin-filename") (codes "-") }
    ensures local { result.global ≡ false }
{
    Arg::new(alloc, "stdin-filename")
        .long("stdin-filename")
        .value_name("NAME")
        .default_value("-")
        .help("The name of standard input in what is printed")
}

/// `--quiet`.
fn quiet<'a>(alloc: Global) -> Arg<'a>
    ensures rule { rule_of result ≡ flag_rule (codes "quiet") }
    ensures local { result.global ≡ false }
{
    Arg::new(alloc, "quiet")
        .long("quiet")
        .action(ArgAction::SetTrue)
        .help("Leaves out the summary of check and lint")
}

/// `PATH..`, at least one: by default the current folder if it may be left out.
fn path<'a>(alloc: Global, is_optional: bool) -> Arg<'a>
    ensures rule { rule_of result ≡ path_rule is_optional }
    ensures local { result.global ≡ false }
{
    let paths = Arg::new(alloc, "path")
        .value_name("PATH")
        .num_args(1..)
        .help("A file, a folder, or - for standard input");
    if is_optional {
        paths.default_value(".")
    } else {
        paths.required(true)
    }
}
