//! Whether parameters are allowed as they are (Starlark specification, "Function definitions").
ghost use Rattle.std.specs.Prelude.{◌≡◌, [], None, true, false, map};
ghost use Rattle.std.specs.List.{list_all, list_any};
ghost use Rattle.starlark_tree.specs.Views.{parameter_of};
ghost use Rattle.starlark_checks.specs.Faults.{first_fault};
ghost use Rattle.starlark_checks.specs.Parameters.{entry_fault, is_plain};
ghost use Rattle.starlark_validate.specs.Validity.{params_faults};
ghost use Rattle.starlark_validate.specs.Clean.{misfits};

use crate::context::Tests;
use crate::parameters::test_parameters;
use starlark_tree::ast::{AstParameter, ParameterP};

/// The longest list of parameters whose entries are compared with each other, which does not allocate.
const FEW: usize = 32;

/// Whether no parameter is refused.
pub(super) fn are_clean_parameters(tests: &Tests, params: &[AstParameter]) -> bool
    ensures { result ≡ true → params_faults tests.now.dialect (map parameter_of params.now) ≡ [] }
{
    if params.len() <= FEW && are_plain(params) {
        return true;
    }
    test_parameters(tests, params).is_ok()
}

/// Whether all parameters are plain, with distinct names, and those without a default value are first.
fn are_plain(params: &[AstParameter]) -> bool
    ensures plain { result ≡ true → list_all is_plain (map parameter_of params.now) ≡ true }
    ensures fits { result ≡ true → first_fault entry_fault [] (map parameter_of params.now) ≡ None }
{
    for at in 0..params.len() {
        if !is_plain_after(&params[at], &params[..at]) {
            return false;
        }
    }
    true
}

/// Whether a parameter is plain and allowed after those before it.
fn is_plain_after(param: &AstParameter, before: &[AstParameter]) -> bool
    ensures plain { result ≡ true → is_plain (parameter_of param.now) ≡ true }
    ensures fits { result ≡ true → entry_fault (map parameter_of before.now) (parameter_of param.now) ≡ None }
{
    match &param.node {
        ParameterP::Normal(name, _, default) => {
            fits_all(name.node.ident.as_str(), default.is_some(), before)
        }
        ParameterP::Slash | ParameterP::NoArgs | ParameterP::Args(..) | ParameterP::KwArgs(..) =>
            false,
    }
}

/// Whether a plain parameter of this name, with a default value or not, is allowed after each of those before it.
fn fits_all(name: &str, has_default: bool, before: &[AstParameter]) -> bool
    ensures { result ≡ true → list_any (misfits name.now has_default) (map parameter_of before.now) ≡ false }
{
    for other in before {
        if !fits(name, has_default, other) {
            return false;
        }
    }
    true
}

/// Whether it is allowed after this one, which is plain.
fn fits(name: &str, has_default: bool, before: &AstParameter) -> bool
    ensures { result ≡ true → misfits name.now has_default (parameter_of before.now) ≡ false }
{
    match &before.node {
        ParameterP::Normal(other, _, default) => {
            other.node.ident.as_str() != name && (has_default || default.is_none())
        }
        ParameterP::Slash | ParameterP::NoArgs | ParameterP::Args(..) | ParameterP::KwArgs(..) =>
            false,
    }
}
