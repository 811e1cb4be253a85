//! The parameters of a function or lambda by how they are passed.
ghost use Rattle.std.specs.Prelude.{◌≡◌, ◌<◌, ◌^◌, ◌&&◌, [], None, false, not, length, map, option_copied, option_map, IfOk, IfErr, OnOk};
ghost use Rattle.std.specs.List.{position_from};
ghost use Rattle.std.specs.Option.{option_or};
ghost use Rattle.starlark_lexer.specs.Tokens.{span_of};
ghost use Rattle.starlark_tree.specs.Views.{parameter_of};
ghost use Rattle.starlark_checks.specs.Faults.{RefusesOutcome, first_fault, refusal_of};
ghost use Rattle.starlark_checks.specs.Parameters as parameters;
ghost use Rattle.starlark_checks.specs.Refusals.{out_of_memory};
ghost use Rattle.starlark_checks.specs.Walks.Parameters as walks;

use crate::error::{Error, ErrorKind, ParamsError};
use starlark_lexer::codemap::{CodeMap, Span};
use starlark_lexer::span::Spanned;
use starlark_tree::ast::{
    AstAssignIdentP, AstExprP, AstParameterP, AstPayload, AstTypeExprP, ParameterP,
};
use std::alloc::{AllocError, Global};
use std::collections::HashSet;
use std::ops::Range;

/// How a parameter that takes one argument is passed (Starlark specification, "Function definitions").
#[derive(Clone, Copy, Debug, PartialEq, Eq)]
pub enum DefRegularParamMode {
    /// By position only: it is before a `/`.
    PosOnly,
    /// By position or by name.
    PosOrName,
    /// By name only: it comes after `*` or `*name`.
    NameOnly,
}

/// What a parameter accepts.
#[derive(Drop)]
pub enum DefParamKind<'a, P: AstPayload> {
    /// One argument, and its default value, if it has one.
    Regular(DefRegularParamMode, Option<&'a AstExprP<P>>),
    /// `*name`: the positional arguments that are left.
    Args,
    /// `**name`: the named arguments that are left.
    Kwargs,
}

/// A parameter that has a name.
#[derive(Drop)]
pub struct DefParam<'a, P: AstPayload> {
    pub ident: &'a AstAssignIdentP<P>,
    pub kind: DefParamKind<'a, P>,
    pub ty: Option<&'a AstTypeExprP<P>>,
}

/// How the list of the parameters that have a name is divided, with indices from 0.
#[derive(Clone, Copy, Debug, PartialEq, Eq, PartialOrd, Ord, Hash)]
pub struct DefParamIndices {
    /// How many may be passed by position: those before the first `*`, `*name` or `**name`.
    pub num_positional: u32,
    /// How many may be passed by position only: those before the `/`. At most `num_positional`.
    pub num_positional_only: u32,
    /// The index of `*name`, which is `num_positional`.
    pub args: Option<u32>,
    /// The index of `**name`, which is the last.
    pub kwargs: Option<u32>,
}

impl DefParamIndices {
    /// The indices of those that are passed by position only.
    pub fn pos_only(&self) -> Range<usize>
        ensures start { result.start ≡ 0 }
        ensures end { result.end ≡ self.now.num_positional_only }
    {
        0..self.num_positional_only as usize
    }

    /// The indices of those that are passed by position or by name.
    pub fn pos_or_named(&self) -> Range<usize>
        ensures start { result.start ≡ self.now.num_positional_only }
        ensures end { result.end ≡ self.now.num_positional }
    {
        self.num_positional_only as usize..self.num_positional as usize
    }

    /// The indices of those that are passed by name only, among `count` parameters in all.
    pub fn named_only(&self, count: usize) -> Range<usize>
        ensures start { result.start ≡ parameters.named_begin self.now }
        ensures end { result.end ≡ parameters.named_end self.now count }
    {
        let start = match self.args {
            Some(place) => place as usize + 1,
            None => self.num_positional as usize,
        };
        let end = match self.kwargs {
            Some(place) => place as usize,
            None => count,
        };
        start..end
    }
}

/// The parameters of a function or lambda that have a name, each with its span, and how they are divided.
#[derive(Drop)]
pub struct DefParams<'a, P: AstPayload> {
    pub params: Vec<Spanned<DefParam<'a, P>>>,
    pub indices: DefParamIndices,
}

impl<'a, P: AstPayload> DefParams<'a, P> {
    /// The parameters without `/` and `*`, in order, and how they are divided.
    ///
    /// Fails, in this order: at all of them if they are more than `u32::MAX`; at a `/` that is first; at the first
    /// from the left that has the name of an earlier one, or is not allowed after the earlier ones; at a `*` that is
    /// last, or at what follows a `*` and is not a plain parameter. Also fails if memory runs out or the code map has too
    /// many clones to count.
    #[tactic(auto, using(crate::proofs::ParameterFaults::known_none))]
    pub fn unpack(
        alloc: Global,
        params: &'a [AstParameterP<P>],
        codemap: &CodeMap,
    ) -> Result<DefParams<'a, P>, Error>
        ensures params { IfOk result (λ d. map parameters.named_of d.params.items ≡ parameters.named (map parameter_of params.now)) }
        ensures indices { IfOk result (λ d. d.indices ≡ parameters.indices (map parameter_of params.now)) }
        ensures parts { IfOk result (λ d. parameters.Parts d.indices (length d.params.items)) }
        ensures faultless { OnOk result (parameters.params_fault (map parameter_of params.now) ≡ None) }
        ensures err { IfErr result (λ e. RefusesOutcome codemap.now (parameters.checked (map parameter_of params.now)) e) }
        ensures only_memory { IfErr result (λ e. parameters.params_fault (map parameter_of params.now) ≡ None → e ≡ out_of_memory) }
    {
        if let Some(fault) = params_fault(alloc, params)? {
            return Err(params_error(codemap, fault)?);
        }
        let named = named(alloc, params)?;
        let indices = indices(params, &named);
        Ok(DefParams {
            params: named,
            indices,
        })
    }
}

/// What is refused in the list, and where.
#[derive(Clone, Copy)]
struct ParamsFault {
    error: ParamsError,
    span: Span,
}

/// The error of a fault.
fn params_error(codemap: &CodeMap, fault: ParamsFault) -> Result<Error, AllocError>
    ensures { IfOk result (λ e. e ≡ refusal_of codemap.now (walks.fault_of fault)) }
{
    Error::new_spanned(ErrorKind::Params(fault.error), fault.span, codemap)
}

/// The first fault of the list, in the order in which they are tested.
fn params_fault<P: AstPayload>(
    alloc: Global,
    params: &[AstParameterP<P>],
) -> Result<Option<ParamsFault>, AllocError>
    ensures { IfOk result (λ f. option_map walks.fault_of f ≡ parameters.params_fault (map parameter_of params.now)) }
{
    if let Some(fault) = too_many(params) {
        return Ok(Some(fault));
    }
    if let Some(fault) = slash_first(params) {
        return Ok(Some(fault));
    }
    if let Some(fault) = entry_fault(alloc, params)? {
        return Ok(Some(fault));
    }
    Ok(star_fault(params))
}

/// Refuses more entries than 32 bits count, at all of them.
fn too_many<P: AstPayload>(params: &[AstParameterP<P>]) -> Option<ParamsFault>
    ensures { option_map walks.fault_of result ≡ parameters.too_many (map parameter_of params.now) }
{
    match u32::try_from(params.len()) {
        Ok(_) => None,
        Err(_) => Some(ParamsFault {
            error: ParamsError::TooMany,
            span: whole(params),
        }),
    }
}

/// The smallest span over all entries.
fn whole<P: AstPayload>(params: &[AstParameterP<P>]) -> Span
    ensures { span_of result ≡ parameters.whole (map parameter_of params.now) }
{
    Span::merge_all(params.iter().map(|param| param.span))
}

/// Refuses a `/` that is the first entry.
fn slash_first<P: AstPayload>(params: &[AstParameterP<P>]) -> Option<ParamsFault>
    ensures { option_map walks.fault_of result ≡ parameters.slash_first (map parameter_of params.now) }
{
    let first = params.first()?;
    match &first.node {
        ParameterP::Slash => Some(ParamsFault {
            error: ParamsError::SlashFirst,
            span: first.span,
        }),
        _ => None,
    }
}

/// What is before an entry of the list.
#[derive(Clone, Copy)]
struct Before {
    /// `/`
    slash: bool,
    /// `*` or `*name`
    starred: bool,
    /// `**name`
    kwargs: bool,
    /// A default value.
    default: bool,
}

impl Before {
    /// Nothing is before the first entry.
    fn nothing() -> Self
        ensures { result ≡ record { slash = false; starred = false; kwargs = false; default = false } }
    {
        Before {
            slash: false,
            starred: false,
            kwargs: false,
            default: false,
        }
    }

    /// The same with an entry added.
    fn with<P: AstPayload>(self, param: &AstParameterP<P>) -> Self
        ensures { result ≡ walks.with self (parameter_of param.now) }
    {
        match &param.node {
            ParameterP::Slash => Before {
                slash: true,
                ..self
            },
            ParameterP::NoArgs => Before {
                starred: true,
                ..self
            },
            ParameterP::Args(..) => Before {
                starred: true,
                ..self
            },
            ParameterP::KwArgs(..) => Before {
                kwargs: true,
                ..self
            },
            ParameterP::Normal(_, _, default) => Before {
                default: default.is_some() || self.default,
                ..self
            },
        }
    }

    /// What is refused in an entry after these.
    fn misplaced<P: AstPayload>(self, param: &AstParameterP<P>) -> Option<ParamsError>
        ensures { option_map (λ error. parameters.misdeclared error (span_of param.now.span)) result ≡ walks.misplaced_after self (parameter_of param.now) }
    {
        match &param.node {
            ParameterP::Normal(_, _, default) => self.misplaced_plain(default.is_some()),
            ParameterP::NoArgs | ParameterP::Args(..) => {
                refused_if(self.starred || self.kwargs, ParamsError::ArgsAfterArgs)
            }
            ParameterP::Slash => refused_if(
                self.slash || self.starred || self.kwargs,
                ParamsError::MultipleSlash,
            ),
            ParameterP::KwArgs(..) => refused_if(self.kwargs, ParamsError::MultipleKwargs),
        }
    }

    /// What is refused in a plain parameter after these.
    fn misplaced_plain(self, has_default: bool) -> Option<ParamsError>
        ensures { result ≡ option_or (walks.error_if self.kwargs ParamsError.AfterKwargs)
            (walks.error_if (not has_default && (self.default && not self.starred)) ParamsError.PositionalAfterNonPositional) }
    {
        if self.kwargs {
            return Some(ParamsError::AfterKwargs);
        }
        refused_if(
            !has_default && self.default && !self.starred,
            ParamsError::PositionalAfterNonPositional,
        )
    }
}

/// The error if the rule is broken.
fn refused_if(broken: bool, error: ParamsError) -> Option<ParamsError>
    ensures { result ≡ walks.error_if broken error }
{
    if broken { Some(error) } else { None }
}

/// The first entry from the left that has the name of an earlier one, or is not allowed after the earlier ones.
fn entry_fault<P: AstPayload>(
    alloc: Global,
    params: &[AstParameterP<P>],
) -> Result<Option<ParamsFault>, AllocError>
    ensures { IfOk result (λ f. option_map walks.fault_of f ≡ first_fault parameters.entry_fault [] (map parameter_of params.now)) }
{
    let mut names = HashSet::new(alloc);
    let mut before = Before::nothing();
    for param in params {
        if let Some(name) = param.node.ident() {
            if !names.insert(name.node.ident.as_str())? {
                return Ok(Some(ParamsFault {
                    error: ParamsError::DuplicateName,
                    span: param.span,
                }));
            }
        }
        if let Some(error) = before.misplaced(param) {
            return Ok(Some(ParamsFault {
                error,
                span: param.span,
            }));
        }
        before = before.with(param);
    }
    Ok(None)
}

/// Refuses a `*` that is last, and what follows a `*` and is not a plain parameter.
fn star_fault<P: AstPayload>(params: &[AstParameterP<P>]) -> Option<ParamsFault>
    ensures { option_map walks.fault_of result ≡ parameters.star_fault (map parameter_of params.now) }
{
    for (i, param) in params.iter().enumerate() {
        if let Some(fault) = star_alone(param, params.get(i + 1)) {
            return Some(fault);
        }
    }
    None
}

/// Refuses a `*` that nothing follows, and what follows it and is not a plain parameter.
fn star_alone<P: AstPayload>(
    param: &AstParameterP<P>,
    next: Option<&AstParameterP<P>>,
) -> Option<ParamsFault>
    ensures { option_map walks.fault_of result ≡ parameters.star_alone (parameter_of param.now) (option_map parameter_of (option_copied next.entry)) }
{
    let ParameterP::NoArgs = &param.node else {
        return None;
    };
    let Some(next) = next else {
        return Some(ParamsFault {
            error: ParamsError::StarLast,
            span: param.span,
        });
    };
    match &next.node {
        ParameterP::Normal(..) => None,
        ParameterP::Slash | ParameterP::NoArgs | ParameterP::Args(..) | ParameterP::KwArgs(..) =>
            Some(ParamsFault {
                error: ParamsError::StarWithoutNamed,
                span: next.span,
            }),
    }
}

/// The parameters that have a name, in order, each with how it is passed.
fn named<'a, P: AstPayload>(
    alloc: Global,
    params: &'a [AstParameterP<P>],
) -> Result<Vec<Spanned<DefParam<'a, P>>>, AllocError>
    requires { first_fault parameters.entry_fault [] (map parameter_of params.now) ≡ None }
    ensures { IfOk result (λ v. map parameters.named_of v.items ≡ parameters.named (map parameter_of params.now)) }
{
    let mut named = Vec::new(alloc);
    let mut mode = first_mode(params);
    for param in params {
        mode = mode_after(mode, param);
        if let Some(param) = unmarked(mode, param) {
            named.push(param)?;
        }
    }
    Ok(named)
}

/// How plain parameters are passed before any `/` or star.
fn first_mode<P: AstPayload>(params: &[AstParameterP<P>]) -> DefRegularParamMode
    ensures { result ≡ parameters.mode [] (map parameter_of params.now) }
{
    for param in params {
        if let ParameterP::Slash = &param.node {
            return DefRegularParamMode::PosOnly;
        }
    }
    DefRegularParamMode::PosOrName
}

/// How plain parameters are passed after the entry.
fn mode_after<P: AstPayload>(
    mode: DefRegularParamMode,
    param: &AstParameterP<P>,
) -> DefRegularParamMode
    ensures { result ≡ walks.mode_after mode (parameter_of param.now) }
{
    match &param.node {
        ParameterP::Slash => DefRegularParamMode::PosOrName,
        ParameterP::NoArgs => DefRegularParamMode::NameOnly,
        ParameterP::Args(..) => DefRegularParamMode::NameOnly,
        ParameterP::KwArgs(..) => mode,
        ParameterP::Normal(..) => mode,
    }
}

/// The parameter, unless the entry is `/` or `*`.
fn unmarked<'a, P: AstPayload>(
    mode: DefRegularParamMode,
    param: &'a AstParameterP<P>,
) -> Option<Spanned<DefParam<'a, P>>>
    ensures { option_map parameters.named_of result ≡ parameters.unmarked mode (parameter_of param.now) }
{
    let span = param.span;
    match &param.node {
        ParameterP::Normal(ident, ty, default) => {
            let kind = DefParamKind::Regular(mode, default.as_deref());
            let ty = ty.as_deref();
            let node = DefParam { ident, kind, ty };
            Some(Spanned { node, span })
        }
        ParameterP::Args(ident, ty) => {
            let kind = DefParamKind::Args;
            let ty = ty.as_deref();
            let node = DefParam { ident, kind, ty };
            Some(Spanned { node, span })
        }
        ParameterP::KwArgs(ident, ty) => {
            let kind = DefParamKind::Kwargs;
            let ty = ty.as_deref();
            let node = DefParam { ident, kind, ty };
            Some(Spanned { node, span })
        }
        ParameterP::NoArgs => None,
        ParameterP::Slash => None,
    }
}

/// How the parameters are divided.
fn indices<P: AstPayload>(
    params: &[AstParameterP<P>],
    named: &[Spanned<DefParam<P>>],
) -> DefParamIndices
    requires fits { length params.now < 2 ^ 32 }
    requires named { map parameters.named_of named.now ≡ parameters.named (map parameter_of params.now) }
    ensures { result ≡ parameters.indices (map parameter_of params.now) }
{
    fit(params, named);
    DefParamIndices {
        num_positional: positional(params),
        num_positional_only: positional_only(params),
        args: args_place(named),
        kwargs: kwargs_place(named),
    }
}

/// The parameters that have a name are no more than the entries, so 32 bits count them too.
fn fit<P: AstPayload>(params: &[AstParameterP<P>], named: &[Spanned<DefParam<P>>])
    requires fits { length params.now < 2 ^ 32 }
    requires named { map parameters.named_of named.now ≡ parameters.named (map parameter_of params.now) }
    ensures { length named.now < 2 ^ 32 }
{}

/// How many plain parameters are before the first `*`, `*name` or `**name`.
fn positional<P: AstPayload>(params: &[AstParameterP<P>]) -> u32
    requires { length params.now < 2 ^ 32 }
    ensures { result ≡ parameters.positional (map parameter_of params.now) }
{
    let mut count = 0;
    for param in params {
        match &param.node {
            ParameterP::Normal(..) => count += 1,
            ParameterP::Slash => {}
            ParameterP::NoArgs | ParameterP::Args(..) | ParameterP::KwArgs(..) => return count,
        }
    }
    count
}

/// How many entries are before the `/`, or 0 without one.
fn positional_only<P: AstPayload>(params: &[AstParameterP<P>]) -> u32
    requires { length params.now < 2 ^ 32 }
    ensures { result ≡ parameters.positional_only (map parameter_of params.now) }
{
    let mut count = 0;
    for param in params {
        if let ParameterP::Slash = &param.node {
            return count;
        }
        count += 1;
    }
    0
}

/// The index of `*name`.
fn args_place<P: AstPayload>(params: &[Spanned<DefParam<P>>]) -> Option<u32>
    requires { length params.now < 2 ^ 32 }
    ensures { result ≡ position_from parameters.takes_args 0 (map parameters.named_of params.now) }
{
    let mut place = 0;
    for param in params {
        if let DefParamKind::Args = &param.node.kind {
            return Some(place);
        }
        place += 1;
    }
    None
}

/// The index of `**name`.
fn kwargs_place<P: AstPayload>(params: &[Spanned<DefParam<P>>]) -> Option<u32>
    requires { length params.now < 2 ^ 32 }
    ensures { result ≡ position_from parameters.takes_kwargs 0 (map parameters.named_of params.now) }
{
    let mut place = 0;
    for param in params {
        if let DefParamKind::Kwargs = &param.node.kind {
            return Some(place);
        }
        place += 1;
    }
    None
}
