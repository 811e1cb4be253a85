//! The displayed text of the tree. A formatter's width and fill are ignored, and an error of the writer is returned.
ghost use Rattle.std.specs.Prelude.{Some, string_bytes};

use crate::ast::{AssignIdentP, AstPayload};
use std::fmt;

pub(crate) mod expression;
mod ident;
pub mod literal;
mod load;
mod operator;
mod statement;

/// The name.
impl<P: AstPayload> fmt::Display for AssignIdentP<P> {
    ghost output = { λ name. Some (string_bytes name.ident) };

    fn fmt<W: fmt::Write>(&self, f: &mut fmt::Formatter<W>) -> fmt::Result {
        f.write_str(self.ident.as_str())
    }
}
