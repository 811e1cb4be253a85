//! Refusals of a node because of its dialect and of its position.
ghost use Rattle.starlark_lexer.specs.Tokens.{span_of};
ghost use Rattle.starlark_spec.specs.Faults.{rule_fault as fault};
ghost use Rattle.starlark_spec.specs.Faults as rules;
ghost use Rattle.starlark_validate.specs.KeptTreeFaults.{listed_if};
ghost use Rattle.starlark_validate.specs.TestResults.{Tested};

use crate::context::Tests;
use starlark_checks::error::{DialectError, Error, ErrorKind, PlaceError};
use starlark_lexer::codemap::Span;

/// Refuses the span if it is something that the dialect leaves out.
pub(crate) fn refuse_left_out(
    tests: &Tests,
    is_left_out: bool,
    error: DialectError,
    span: Span,
) -> Result<(), Error>
    ensures { Tested tests.now.codemap.now (listed_if is_left_out (fault (rules.Dialect error) (span_of span))) result }
{
    if is_left_out {
        return Err(Error::new_spanned(ErrorKind::Dialect(error), span, tests.codemap)?);
    }
    Ok(())
}

/// Refuses the span if it is not allowed there.
pub(crate) fn refuse_misplaced(
    tests: &Tests,
    is_misplaced: bool,
    error: PlaceError,
    span: Span,
) -> Result<(), Error>
    ensures { Tested tests.now.codemap.now (listed_if is_misplaced (fault (rules.Place error) (span_of span))) result }
{
    if is_misplaced {
        return Err(Error::new_spanned(ErrorKind::Place(error), span, tests.codemap)?);
    }
    Ok(())
}
