//! The texts of errors. A writer's width and fill are ignored, and an error of the writer is returned.
ghost use Rattle.std.specs.Prelude.{Some};
ghost use Rattle.starlark_checks.specs.ErrorText as texts;
ghost use Rattle.starlark_checks.specs.Kinds.{kind_of};

use crate::error::Error;
use crate::error::kind::ErrorKind;
use std::{error, fmt};

impl fmt::Display for ErrorKind {
    ghost output = { λ kind. Some (texts.error_text (kind_of kind)) };

    fn fmt<W: fmt::Write>(&self, f: &mut fmt::Formatter<W>) -> fmt::Result {
        match self {
            ErrorKind::TextTooLong => f.write_str("text is longer than 4294967295 bytes"),
            ErrorKind::Memory => f.write_str("out of memory"),
            ErrorKind::Lexer(error) => write!(f, "{error}"),
            ErrorKind::UnexpectedToken => f.write_str("Parse error: unexpected token"),
            ErrorKind::UnexpectedEnd => f.write_str("Parse error: unexpected end of file"),
            ErrorKind::Grammar(error) => write!(f, "{error}"),
            ErrorKind::Call(error) => write!(f, "{error}"),
            ErrorKind::Params(error) => write!(f, "{error}"),
            ErrorKind::TypeExpr(error) => write!(f, "{error}"),
            ErrorKind::Dialect(error) => write!(f, "{error}"),
            ErrorKind::Place(error) => write!(f, "{error}"),
        }
    }
}

/// The text of its kind.
impl fmt::Display for Error {
    ghost output = { λ error. Some (texts.error_text error.kind) };

    fn fmt<W: fmt::Write>(&self, f: &mut fmt::Formatter<W>) -> fmt::Result {
        let kind = &self.kind;
        write!(f, "{kind}")
    }
}

impl error::Error for ErrorKind {}

impl error::Error for Error {}
