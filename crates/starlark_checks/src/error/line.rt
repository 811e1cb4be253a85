//! Errors as lines of text.
use crate::error::Error;
use std::fmt;

/// An error as one line of text, without a newline: see [`Error::line`].
#[derive(Debug, Drop)]
pub struct ErrorLine<'a> {
    pub(crate) error: &'a Error,
}

impl fmt::Display for ErrorLine<'_> {
    ghost use Rattle.std.specs.Prelude.{Some};
    ghost use Rattle.starlark_checks.specs.ErrorText.{line_text};

    ghost output = { λ line. Some (line_text line.error.now) };

    fn fmt<W: fmt::Write>(&self, f: &mut fmt::Formatter<W>) -> fmt::Result {
        let error = self.error;
        match error.span() {
            Some(place) => write!(f, "{place}: {error}"),
            None => write!(f, "{error}"),
        }
    }
}
