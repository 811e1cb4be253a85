//! Whether the arguments of a call are allowed as they are (Starlark specification, "Function and method calls").
ghost use Rattle.std.specs.Prelude.{◌≡◌, [], None, true, false, map};
ghost use Rattle.std.specs.List.{list_any};
ghost use Rattle.starlark_tree.specs.Views.{argument_of};
ghost use Rattle.starlark_checks.specs.Calls as calls;
ghost use Rattle.starlark_checks.specs.Calls.{call_fault};
ghost use Rattle.starlark_validate.specs.KeptTreeFaults.{call_faults};
ghost use Rattle.starlark_validate.specs.Clean as clean;

use crate::context::Tests;
use starlark_tree::ast::{ArgumentP, AstArgument, AstNoPayload, CallArgsP};

/// The longest list of arguments whose entries are compared with each other, which does not allocate.
const FEW: usize = 32;

/// Whether no argument of a call is refused.
pub(super) fn are_clean_arguments(tests: &Tests, args: &CallArgsP<AstNoPayload>) -> bool
    ensures { result ≡ true → call_faults (map argument_of args.now.args.items) ≡ [] }
{
    if args.args.len() <= FEW && are_in_order(&args.args) {
        return true;
    }
    tests.arguments(args).is_ok()
}

/// Whether no argument clashes with one before it.
fn are_in_order(args: &[AstArgument]) -> bool
    ensures { result ≡ true → call_fault (map argument_of args.now) ≡ None }
{
    for at in 0..args.len() {
        if clashes_with_any(&args[at], &args[..at]) {
            return false;
        }
    }
    true
}

/// Whether an argument is not allowed after one of those before it.
fn clashes_with_any(argument: &AstArgument, before: &[AstArgument]) -> bool
    ensures { result ≡ false → list_any (clean.clashes (argument_of argument.now)) (map argument_of before.now) ≡ false }
{
    for other in before {
        if clashes(argument, other) {
            return true;
        }
    }
    false
}

/// Whether an argument is not allowed after this one before it: one that has to follow it, or that has its name.
fn clashes(argument: &AstArgument, before: &AstArgument) -> bool
    ensures { result ≡ clean.clashes (argument_of argument.now) (argument_of before.now) }
{
    match &argument.node {
        ArgumentP::Positional(_) => !is_positional(before),
        ArgumentP::Named(name, _) => is_unpacked(before) || has_name(name.node.as_str(), before),
        ArgumentP::Args(_) => is_unpacked(before),
        ArgumentP::KwArgs(_) => is_star_star(before),
    }
}

fn is_positional(argument: &AstArgument) -> bool
    ensures { result ≡ calls.is_positional (argument_of argument.now) }
{
    matches!(argument.node, ArgumentP::Positional(_))
}

/// `*e` or `**e`
fn is_unpacked(argument: &AstArgument) -> bool
    ensures { result ≡ calls.is_unpacked (argument_of argument.now) }
{
    matches!(argument.node, ArgumentP::Args(_) | ArgumentP::KwArgs(_))
}

/// `**e`
fn is_star_star(argument: &AstArgument) -> bool
    ensures { result ≡ calls.is_star_star (argument_of argument.now) }
{
    matches!(argument.node, ArgumentP::KwArgs(_))
}

fn has_name(name: &str, argument: &AstArgument) -> bool
    ensures { result ≡ calls.has_name name.now (argument_of argument.now) }
{
    match &argument.node {
        ArgumentP::Named(own, _) => own.node.as_str() == name,
        ArgumentP::Positional(_) | ArgumentP::Args(_) | ArgumentP::KwArgs(_) => false,
    }
}
