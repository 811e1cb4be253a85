//! The rules of parameters (Starlark specification, "Function definitions").
ghost use Rattle.std.specs.Prelude.{map, option_to_list};
ghost use Rattle.std.specs.List.{flat_map};
ghost use Rattle.starlark_tree.specs.Views.{parameter_of};
ghost use Rattle.starlark_checks.specs.Parameters.{params_fault};
ghost use Rattle.starlark_validate.specs.Validity.{params_faults, slash_faults, star_faults};
ghost use Rattle.starlark_validate.specs.TestResults.{Tested};

use crate::context::Tests;
use crate::refusal::refuse_left_out;
use starlark_checks::def::DefParams;
use starlark_checks::error::{DialectError, Error};
use starlark_tree::ast::{AstParameter, ParameterP};

/// Refuses each `*`, then each `/` that the dialect leaves out, then the first entry that is not allowed where it is.
pub(crate) fn test_parameters(tests: &Tests, params: &[AstParameter]) -> Result<(), Error>
    ensures { Tested tests.now.codemap.now (params_faults tests.now.dialect (map parameter_of params.now)) result }
{
    test_stars(tests, params)?;
    test_slashes(tests, params)?;
    test_order(tests, params)
}

/// Refuses each `*` if the dialect leaves it out.
fn test_stars(tests: &Tests, params: &[AstParameter]) -> Result<(), Error>
    ensures { Tested tests.now.codemap.now (flat_map (star_faults tests.now.dialect) (map parameter_of params.now)) result }
{
    for param in params {
        test_star(tests, param)?;
    }
    Ok(())
}

/// Refuses a `*` if the dialect leaves it out.
fn test_star(tests: &Tests, param: &AstParameter) -> Result<(), Error>
    ensures { Tested tests.now.codemap.now (star_faults tests.now.dialect (parameter_of param.now)) result }
{
    match &param.node {
        ParameterP::NoArgs => {
            let is_left_out = !tests.dialect.enable_keyword_only_arguments;
            refuse_left_out(tests, is_left_out, DialectError::KeywordOnly, param.span)
        }
        ParameterP::Slash
        | ParameterP::Normal(..)
        | ParameterP::Args(..)
        | ParameterP::KwArgs(..) => Ok(()),
    }
}

/// Refuses each `/` if the dialect leaves it out.
fn test_slashes(tests: &Tests, params: &[AstParameter]) -> Result<(), Error>
    ensures { Tested tests.now.codemap.now (flat_map (slash_faults tests.now.dialect) (map parameter_of params.now)) result }
{
    for param in params {
        test_slash(tests, param)?;
    }
    Ok(())
}

/// Refuses a `/` if the dialect leaves it out.
fn test_slash(tests: &Tests, param: &AstParameter) -> Result<(), Error>
    ensures { Tested tests.now.codemap.now (slash_faults tests.now.dialect (parameter_of param.now)) result }
{
    match &param.node {
        ParameterP::Slash => {
            let is_left_out = !tests.dialect.enable_positional_only_arguments;
            refuse_left_out(tests, is_left_out, DialectError::PositionalOnly, param.span)
        }
        ParameterP::NoArgs
        | ParameterP::Normal(..)
        | ParameterP::Args(..)
        | ParameterP::KwArgs(..) => Ok(()),
    }
}

/// Refuses the first entry that is not allowed where it is.
fn test_order(tests: &Tests, params: &[AstParameter]) -> Result<(), Error>
    ensures { Tested tests.now.codemap.now (option_to_list (params_fault (map parameter_of params.now))) result }
{
    DefParams::unpack(tests.alloc, params, tests.codemap)?;
    Ok(())
}
