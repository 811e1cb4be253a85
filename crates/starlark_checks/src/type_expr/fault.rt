//! The errors of expressions that are not types.
ghost use Rattle.std.specs.Prelude.{◌≡◌, ◌⊎◌};
ghost use Rattle.starlark_lexer.specs.Tokens.{span_of};
ghost use Rattle.starlark_checks.specs.Faults.{refusal_of};
ghost use Rattle.starlark_spec.specs.Faults.{type_fault_of};
ghost use Rattle.starlark_spec.specs.Faults as rules;
ghost use Rattle.starlark_checks.specs.Refusals.{out_of_memory};
ghost use Rattle.starlark_spec.specs.Types as types;

use crate::error::{Error, ErrorKind, TypeExprUnpackError};
use starlark_lexer::codemap::{CodeMap, Span};
use starlark_spec::error::NoTypeForm;

/// The error of an expression of a form that is not a type, or out of memory.
pub(super) fn invalid(codemap: &CodeMap, form: NoTypeForm, span: Span) -> Error
    ensures { (result ≡ refusal_of codemap.now (types.mistyped (rules.InvalidType (rules.form_text form)) (span_of span))) ⊎ (result ≡ out_of_memory) }
{
    type_error(codemap, TypeExprUnpackError::InvalidType(form.word()), span)
}

/// The error of a rule that a span of the file breaks, or out of memory.
pub(super) fn type_error(codemap: &CodeMap, error: TypeExprUnpackError, span: Span) -> Error
    ensures { (result ≡ refusal_of codemap.now (types.mistyped (type_fault_of error) (span_of span))) ⊎ (result ≡ out_of_memory) }
{
    match Error::new_spanned(ErrorKind::TypeExpr(error), span, codemap) {
        Ok(error) => error,
        Err(error) => Error::from(error),
    }
}
