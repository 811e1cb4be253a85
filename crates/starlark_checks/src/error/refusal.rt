//! The errors of what the parser refuses.
ghost use Rattle.std.specs.Prelude.{◌≡◌, IfOk};
ghost use Rattle.starlark_spec.specs.Faults.{type_fault_of, type_rule};
ghost use Rattle.starlark_spec.specs.Refusals.{refused};
ghost use Rattle.starlark_checks.specs.Faults.{Names, refusal_of};

use crate::error::kind::ErrorKind;
use crate::error::{DialectError, Error, TypeExprUnpackError};
use starlark_lexer::codemap::{CodeMap, Span};
use starlark_spec::refusal::Refusal;
use std::alloc::AllocError;

impl Error {
    /// The error in the code map's file for what the parser refuses.
    ///
    /// Fails if the parser ran out of memory, or the code map has too many clones to count.
    pub fn from_refusal(refusal: Refusal, codemap: &CodeMap) -> Result<Self, AllocError>
        ensures { IfOk result (Names codemap.now (refused refusal)) }
    {
        match refusal {
            Refusal::Memory => Err(AllocError),
            Refusal::Lexer(error) => Error::from_lexer(error, codemap),
            Refusal::UnexpectedToken(span) => {
                Error::new_spanned(ErrorKind::UnexpectedToken, span, codemap)
            }
            Refusal::UnexpectedEnd(span) => {
                Error::new_spanned(ErrorKind::UnexpectedEnd, span, codemap)
            }
            Refusal::Grammar(error, span) => {
                Error::new_spanned(ErrorKind::Grammar(error), span, codemap)
            }
            Refusal::Types(span) => {
                Error::new_spanned(ErrorKind::Dialect(DialectError::Types), span, codemap)
            }
            Refusal::InvalidType(form, span) => {
                of_type(TypeExprUnpackError::InvalidType(form.word()), span, codemap)
            }
            Refusal::EmptyListInType(span) => {
                of_type(TypeExprUnpackError::EmptyListInType, span, codemap)
            }
            Refusal::DotInType(span) => of_type(TypeExprUnpackError::DotInType, span, codemap),
            Refusal::ExpectingPath(span) => {
                of_type(TypeExprUnpackError::ExpectingPath, span, codemap)
            }
            Refusal::DotTypeBan(path) => {
                let (text, span) = Box::into_inner(path);
                of_type(TypeExprUnpackError::DotTypeBan(text), span, codemap)
            }
        }
    }
}

/// The error of a rule of types that a span of the file breaks.
///
/// Fails if the code map has too many clones to count.
fn of_type(error: TypeExprUnpackError, span: Span, codemap: &CodeMap) -> Result<Error, AllocError>
    ensures { IfOk result (λ e. e ≡ refusal_of codemap.now (type_rule (type_fault_of error) span)) }
{
    Error::new_spanned(ErrorKind::TypeExpr(error), span, codemap)
}
