//! The arguments of a call by their kinds.
ghost use Rattle.std.specs.Prelude.{◌≡◌, ◌≤◌, ◌++◌, [], None, length, map, take, drop, option_copied, option_map, IfOk, IfErr, IfSome, OnOk};
ghost use Rattle.std.specs.List.{All};
ghost use Rattle.starlark_lexer.specs.Tokens.{span_of};
ghost use Rattle.starlark_tree.specs.Views.{argument_of};
ghost use Rattle.starlark_checks.specs.Calls as calls;
ghost use Rattle.starlark_checks.specs.Calls.{HasParts, IsOfKind, Splits, Stops, optional};
ghost use Rattle.starlark_checks.specs.Faults.{RefusesOutcome, first_fault, miscalled, refusal_of};
ghost use Rattle.starlark_checks.specs.Refusals.{out_of_memory};

use crate::error::{CallError, Error, ErrorKind};
use starlark_lexer::codemap::{CodeMap, Span};
use starlark_tree::ast::{ArgumentP, AstArgumentP, AstPayload, CallArgsP};
use std::alloc::{AllocError, Global};
use std::collections::HashSet;

/// The arguments of a call by their kinds (Starlark specification, "Function and method calls"), borrowed from the tree.
#[derive(Drop)]
pub struct CallArgsUnpack<'a, P: AstPayload> {
    /// The positional ones.
    pub pos: &'a [AstArgumentP<P>],
    /// The named ones, whose names are distinct.
    pub named: &'a [AstArgumentP<P>],
    /// `*e`
    pub star: Option<&'a AstArgumentP<P>>,
    /// `**e`
    pub star_star: Option<&'a AstArgumentP<P>>,
}

/// How an argument is passed.
#[derive(Clone, Copy, PartialEq, Eq)]
enum ArgumentKind {
    Positional,
    Named,
    Star,
    StarStar,
}

impl<'a, P: AstPayload> CallArgsUnpack<'a, P> {
    /// The arguments in four parts: positional ones, then named ones with distinct names, then at most one `*`,
    /// then at most one `**`.
    ///
    /// Fails at the first argument from the left that comes after one which it must precede, or whose name an
    /// earlier one has (then at the name); and if memory runs out or the code map has too many clones to count.
    pub fn unpack(
        alloc: Global,
        args: &'a CallArgsP<P>,
        codemap: &CodeMap,
    ) -> Result<CallArgsUnpack<'a, P>, Error>
        ensures ok { IfOk result (λ u. Splits args.now.args.items u.pos.now u.named.now (option_copied u.star) (option_copied u.star_star)) }
        ensures faultless { OnOk result (calls.call_fault (map argument_of args.now.args.items) ≡ None) }
        ensures err { IfErr result (λ e. RefusesOutcome codemap.now (calls.checked (map argument_of args.now.args.items)) e) }
        ensures only_memory { IfErr result (λ e. HasParts args.now.args.items → e ≡ out_of_memory) }
    {
        CallArgsUnpack::of_arguments(alloc, args.args.as_slice(), codemap)
    }

    /// The same for the list of arguments.
    fn of_arguments(
        alloc: Global,
        args: &'a [AstArgumentP<P>],
        codemap: &CodeMap,
    ) -> Result<CallArgsUnpack<'a, P>, Error>
        ensures ok { IfOk result (λ u. Splits args.now u.pos.now u.named.now (option_copied u.star) (option_copied u.star_star)) }
        ensures faultless { OnOk result (calls.call_fault (map argument_of args.now) ≡ None) }
        ensures err { IfErr result (λ e. RefusesOutcome codemap.now (calls.checked (map argument_of args.now)) e) }
        ensures only_memory { IfErr result (λ e. HasParts args.now → e ≡ out_of_memory) }
    {
        let (pos, rest) = args.split_at(leading(args, ArgumentKind::Positional));
        let (named, rest) = rest.split_at(leading(rest, ArgumentKind::Named));
        if let Some(name) = repeated_name(alloc, named)? {
            return Err(call_error(codemap, CallError::RepeatedName, name)?);
        }
        let (star, rest) = take_one(rest, ArgumentKind::Star);
        let (star_star, rest) = take_one(rest, ArgumentKind::StarStar);
        match rest.first() {
            None => Ok(CallArgsUnpack {
                pos,
                named,
                star,
                star_star,
            }),
            Some(argument) => Err(call_error(codemap, misplaced(argument), argument.span)?),
        }
    }
}

/// The error of a rule that an argument breaks.
fn call_error(codemap: &CodeMap, error: CallError, span: Span) -> Result<Error, AllocError>
    ensures { IfOk result (λ e. e ≡ refusal_of codemap.now (miscalled error (span_of span))) }
{
    Error::new_spanned(ErrorKind::Call(error), span, codemap)
}

/// How the argument is passed.
fn kind<P: AstPayload>(argument: &AstArgumentP<P>) -> ArgumentKind
    ensures { result ≡ calls.kind_of (argument_of argument.now) }
{
    match &argument.node {
        ArgumentP::Positional(_) => ArgumentKind::Positional,
        ArgumentP::Named(..) => ArgumentKind::Named,
        ArgumentP::Args(_) => ArgumentKind::Star,
        ArgumentP::KwArgs(_) => ArgumentKind::StarStar,
    }
}

/// The rule that the argument breaks if it comes after one which it must precede.
fn misplaced<P: AstPayload>(argument: &AstArgumentP<P>) -> CallError
    ensures { result ≡ calls.rule_of (argument_of argument.now) }
{
    match &argument.node {
        ArgumentP::Positional(_) => CallError::PositionalAfterNonPositional,
        ArgumentP::Named(..) => CallError::NamedAfterArgs,
        ArgumentP::Args(_) => CallError::ArgsAfterArgs,
        ArgumentP::KwArgs(_) => CallError::MultipleKwargs,
    }
}

/// How many arguments at the front are of the kind.
fn leading<P: AstPayload>(args: &[AstArgumentP<P>], of: ArgumentKind) -> usize
    ensures within { result ≤ length args.now }
    ensures all { All (IsOfKind of) (take result args.now) }
    ensures stops { Stops of (map argument_of (drop result args.now)) }
{
    let mut count = 0;
    for argument in args {
        if kind(argument) != of {
            return count;
        }
        count += 1;
    }
    count
}

/// The first argument if it is of the kind, and the others.
fn take_one<'a, P: AstPayload>(
    args: &'a [AstArgumentP<P>],
    of: ArgumentKind,
) -> (Option<&'a AstArgumentP<P>>, &'a [AstArgumentP<P>])
    ensures joined { args.now ≡ optional (option_copied result.0) ++ result.1.now }
    ensures of_kind { IfSome (option_copied result.0) (IsOfKind of) }
    ensures stops { option_copied result.0 ≡ None → Stops of (map argument_of result.1.now) }
{
    match args.split_first() {
        Some((first, rest)) if kind(first) == of => (Some(first), rest),
        _ => (None, args),
    }
}

/// Where the first name is, from the left, that an earlier argument has.
fn repeated_name<P: AstPayload>(
    alloc: Global,
    args: &[AstArgumentP<P>],
) -> Result<Option<Span>, AllocError>
    ensures { IfOk result (λ s. option_map (λ s. miscalled CallError.RepeatedName (span_of s)) s ≡ first_fault calls.repeated [] (map argument_of args.now)) }
{
    let mut names = HashSet::new(alloc);
    for argument in args {
        if let ArgumentP::Named(name, _) = &argument.node {
            if !names.insert(name.node.as_str())? {
                return Ok(Some(name.span));
            }
        }
    }
    Ok(None)
}
