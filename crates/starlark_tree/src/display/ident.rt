//! The text of names that are read.
ghost use Rattle.std.specs.Prelude.{Some, string_bytes};

use crate::ast::{AstPayload, IdentP};
use std::fmt;

/// The name.
impl<P: AstPayload> fmt::Display for IdentP<P> {
    ghost output = { λ name. Some (string_bytes name.ident) };

    fn fmt<W: fmt::Write>(&self, f: &mut fmt::Formatter<W>) -> fmt::Result {
        f.write_str(self.ident.as_str())
    }
}
