//! The messages of errors. A formatter's width and fill are ignored, and an error of the writer is returned.
ghost use Rattle.std.specs.Prelude.{Some};
ghost use Rattle.starlark_spec.specs.Faults.{type_fault_of};
ghost use Rattle.starlark_spec.specs.Texts as texts;

use crate::error::{
    CallError, DialectError, GrammarError, ParamsError, PlaceError, TypeExprUnpackError,
};
use std::{error, fmt};

impl fmt::Display for GrammarError {
    ghost output = { λ e. Some (texts.grammar_text e) };

    fn fmt<W: fmt::Write>(&self, f: &mut fmt::Formatter<W>) -> fmt::Result {
        f.write_str(match self {
            GrammarError::InvalidLhs => {
                "left-hand-side of assignment must take the form `a`, `a.b` or `a[b]`"
            }
            GrammarError::InvalidModifyLhs => {
                "left-hand-side of modifying assignment cannot be a list or tuple"
            }
            GrammarError::TypeAnnotationOnAssignOp => {
                "type annotations not allowed on augmented assignments"
            }
            GrammarError::TypeAnnotationOnTupleAssign => {
                "type annotations not allowed on multiple assignments"
            }
            GrammarError::LoadRequiresAtLeastTwoArguments => {
                "`load` statement requires at least two arguments"
            }
            GrammarError::UnparenthesizedTupleTrailingComma => {
                "unparenthesized tuple with trailing comma"
            }
            GrammarError::LoadNameWithoutEqual => {
                "Parse error: expected string literal in load statement"
            }
            GrammarError::FStringConversion => {
                "invalid f-string conversion specifier, expected 's' or 'r'"
            }
        })
    }
}

impl fmt::Display for CallError {
    ghost output = { λ e. Some (texts.call_text e) };

    fn fmt<W: fmt::Write>(&self, f: &mut fmt::Formatter<W>) -> fmt::Result {
        f.write_str(match self {
            CallError::PositionalAfterNonPositional => "positional argument after non positional",
            CallError::NamedAfterArgs => "named argument after *args or **kwargs",
            CallError::RepeatedName => "repeated named argument",
            CallError::ArgsAfterArgs => "Args array after another args or kwargs",
            CallError::MultipleKwargs => "Multiple kwargs dictionary in arguments",
        })
    }
}

impl fmt::Display for ParamsError {
    ghost output = { λ e. Some (texts.params_text e) };

    fn fmt<W: fmt::Write>(&self, f: &mut fmt::Formatter<W>) -> fmt::Result {
        f.write_str(match self {
            ParamsError::TooMany => "Too many parameters",
            ParamsError::SlashFirst => "`/` cannot be first parameter",
            ParamsError::DuplicateName => "duplicated parameter name",
            ParamsError::AfterKwargs => "Parameter after kwargs",
            ParamsError::PositionalAfterNonPositional => {
                "positional parameter after non positional"
            }
            ParamsError::ArgsAfterArgs => "Args parameter after another args or kwargs parameter",
            ParamsError::MultipleSlash => "Multiple `/` in parameters",
            ParamsError::MultipleKwargs => "Multiple kwargs dictionary in parameters",
            ParamsError::StarLast => "`*` parameter must not be last",
            ParamsError::StarWithoutNamed => "`*` must be followed by named parameter",
        })
    }
}

impl fmt::Display for DialectError {
    ghost output = { λ e. Some (texts.dialect_text e) };

    fn fmt<W: fmt::Write>(&self, f: &mut fmt::Formatter<W>) -> fmt::Result {
        f.write_str(match self {
            DialectError::Types => "type annotations are not allowed in this dialect",
            DialectError::FStrings => "Your Starlark dialect must enable f-strings to use them",
            DialectError::KeywordOnly => "* keyword-only-arguments is not allowed in this dialect",
            DialectError::PositionalOnly => {
                "/ positional-only-arguments is not allowed in this dialect"
            }
            DialectError::Def => "`def` is not allowed in this dialect",
            DialectError::Load => "`load` is not allowed in this dialect",
            DialectError::Ellipsis => "`...` is not allowed in this dialect",
            DialectError::Lambda => "`lambda` is not allowed in this dialect",
        })
    }
}

impl fmt::Display for PlaceError {
    ghost output = { λ e. Some (texts.place_error_text e) };

    fn fmt<W: fmt::Write>(&self, f: &mut fmt::Formatter<W>) -> fmt::Result {
        f.write_str(match self {
            PlaceError::ForAtTop => "`for` cannot be used outside `def` in this dialect",
            PlaceError::IfAtTop => "`if` cannot be used outside `def` in this dialect",
            PlaceError::BreakOutsideFor => "`break` cannot be used outside of a `for` loop",
            PlaceError::ContinueOutsideFor => "`continue` cannot be used outside of a `for` loop",
            PlaceError::ReturnOutsideDef => "`return` cannot be used outside of a `def` function",
            PlaceError::LoadNotAtTop => "`load` must only occur at the top of a module",
        })
    }
}

impl fmt::Display for TypeExprUnpackError {
    ghost output = { λ e. Some (texts.type_text (type_fault_of e)) };

    fn fmt<W: fmt::Write>(&self, f: &mut fmt::Formatter<W>) -> fmt::Result {
        match self {
            TypeExprUnpackError::InvalidType(form) => {
                write!(f, "{form} expression is not allowed in type expression")
            }
            TypeExprUnpackError::EmptyListInType => {
                f.write_str("Empty list is not allowed in type expression")
            }
            TypeExprUnpackError::DotInType => f.write_str(
                "Only dot expression of form `ident.ident` is allowed in type expression",
            ),
            TypeExprUnpackError::ExpectingPath => f.write_str("Expecting path like `a.b.c`"),
            TypeExprUnpackError::DotTypeBan(path) => write!(
                f,
                "`{path}.type` is not allowed in type expression, use `{path}` instead"
            ),
        }
    }
}

impl error::Error for GrammarError {}

impl error::Error for CallError {}

impl error::Error for ParamsError {}

impl error::Error for DialectError {}

impl error::Error for PlaceError {}

impl error::Error for TypeExprUnpackError {}
