//! The code of each kind of error.
ghost use Rattle.std.specs.Prelude.{◌≡◌};
ghost use Rattle.starlark_checks.specs.Kinds.{kind_of};
ghost use Rattle.starlark_spec.specs.Faults.{type_fault_of};
ghost use Rattle.starlark_diagnostics.specs.Codes as codes;

use crate::code::Code;
use starlark_checks::error::{
    CallError, DialectError, ErrorKind, GrammarError, ParamsError, PlaceError, TypeExprUnpackError,
};
use starlark_lexer::token::LexerErrorKind;

/// The code of a kind of error.
pub(crate) fn code_of(kind: &ErrorKind) -> Code
    ensures { result ≡ codes.code_of (kind_of kind.now) }
{
    match kind {
        ErrorKind::TextTooLong => Code::TextTooLong,
        ErrorKind::Memory => Code::OutOfMemory,
        ErrorKind::Lexer(error) => lexer_code(error.kind),
        ErrorKind::UnexpectedToken => Code::UnexpectedToken,
        ErrorKind::UnexpectedEnd => Code::UnexpectedEnd,
        ErrorKind::Grammar(error) => grammar_code(*error),
        ErrorKind::Call(error) => call_code(*error),
        ErrorKind::Params(error) => params_code(*error),
        ErrorKind::TypeExpr(error) => type_code(error),
        ErrorKind::Dialect(error) => dialect_code(*error),
        ErrorKind::Place(error) => place_code(*error),
    }
}

fn lexer_code(error: LexerErrorKind) -> Code
    ensures { result ≡ codes.lexer_code error }
{
    match error {
        LexerErrorKind::InvalidCharacter => Code::InvalidCharacter,
        LexerErrorKind::ReservedKeyword => Code::ReservedKeyword,
        LexerErrorKind::InvalidNumber => Code::InvalidNumber,
        LexerErrorKind::UnfinishedString => Code::UnfinishedString,
        LexerErrorKind::InvalidEscape => Code::InvalidEscape,
        LexerErrorKind::Indentation => Code::Indentation,
        LexerErrorKind::InvalidFString => Code::InvalidFString,
        LexerErrorKind::TooDeep => Code::TooDeep,
        LexerErrorKind::Memory => Code::OutOfMemory,
    }
}

fn grammar_code(error: GrammarError) -> Code
    ensures { result ≡ codes.grammar_code error }
{
    match error {
        GrammarError::InvalidLhs => Code::InvalidLhs,
        GrammarError::InvalidModifyLhs => Code::InvalidModifyLhs,
        GrammarError::TypeAnnotationOnAssignOp => Code::TypeAnnotationOnAssignOp,
        GrammarError::TypeAnnotationOnTupleAssign => Code::TypeAnnotationOnTupleAssign,
        GrammarError::LoadRequiresAtLeastTwoArguments => Code::LoadRequiresAtLeastTwoArguments,
        GrammarError::UnparenthesizedTupleTrailingComma => Code::UnparenthesizedTupleTrailingComma,
        GrammarError::LoadNameWithoutEqual => Code::LoadNameWithoutEqual,
        GrammarError::FStringConversion => Code::FStringConversion,
    }
}

fn call_code(error: CallError) -> Code
    ensures { result ≡ codes.call_code error }
{
    match error {
        CallError::PositionalAfterNonPositional => Code::CallPositionalAfterNonPositional,
        CallError::NamedAfterArgs => Code::CallNamedAfterArgs,
        CallError::RepeatedName => Code::CallRepeatedName,
        CallError::ArgsAfterArgs => Code::CallArgsAfterArgs,
        CallError::MultipleKwargs => Code::CallMultipleKwargs,
    }
}

fn params_code(error: ParamsError) -> Code
    ensures { result ≡ codes.params_code error }
{
    match error {
        ParamsError::TooMany => Code::ParamsTooMany,
        ParamsError::SlashFirst => Code::ParamsSlashFirst,
        ParamsError::DuplicateName => Code::ParamsDuplicateName,
        ParamsError::AfterKwargs => Code::ParamsAfterKwargs,
        ParamsError::PositionalAfterNonPositional => Code::ParamsPositionalAfterNonPositional,
        ParamsError::ArgsAfterArgs => Code::ParamsArgsAfterArgs,
        ParamsError::MultipleSlash => Code::ParamsMultipleSlash,
        ParamsError::MultipleKwargs => Code::ParamsMultipleKwargs,
        ParamsError::StarLast => Code::ParamsStarLast,
        ParamsError::StarWithoutNamed => Code::ParamsStarWithoutNamed,
    }
}

fn type_code(error: &TypeExprUnpackError) -> Code
    ensures { result ≡ codes.type_code (type_fault_of error.now) }
{
    match error {
        TypeExprUnpackError::InvalidType(_) => Code::InvalidType,
        TypeExprUnpackError::EmptyListInType => Code::EmptyListInType,
        TypeExprUnpackError::DotInType => Code::DotInType,
        TypeExprUnpackError::ExpectingPath => Code::ExpectingPath,
        TypeExprUnpackError::DotTypeBan(_) => Code::DotTypeBan,
    }
}

fn dialect_code(error: DialectError) -> Code
    ensures { result ≡ codes.dialect_code error }
{
    match error {
        DialectError::Types => Code::DialectTypes,
        DialectError::FStrings => Code::DialectFStrings,
        DialectError::KeywordOnly => Code::DialectKeywordOnly,
        DialectError::PositionalOnly => Code::DialectPositionalOnly,
        DialectError::Def => Code::DialectDef,
        DialectError::Load => Code::DialectLoad,
        DialectError::Ellipsis => Code::DialectEllipsis,
        DialectError::Lambda => Code::DialectLambda,
    }
}

fn place_code(error: PlaceError) -> Code
    ensures { result ≡ codes.place_code error }
{
    match error {
        PlaceError::ForAtTop => Code::ForAtTop,
        PlaceError::IfAtTop => Code::IfAtTop,
        PlaceError::BreakOutsideFor => Code::BreakOutsideFor,
        PlaceError::ContinueOutsideFor => Code::ContinueOutsideFor,
        PlaceError::ReturnOutsideDef => Code::ReturnOutsideDef,
        PlaceError::LoadNotAtTop => Code::LoadNotAtTop,
    }
}
