//! Writing.
ghost use Rattle.starlark_cli.specs.Tool.Cuts.{Puts};

use std::alloc::{AllocError, AllocFailed};
use std::fmt;
use std::io::{ErrorKind, Write};

/// Why the program stops before its end.
#[derive(Clone, Copy, Debug, PartialEq, Eq)]
pub enum Failure {
    /// Memory ran out for what is not of one file.
    Memory,
    /// Something could not be written.
    Write,
}

impl fmt::Display for Failure {
    fn fmt<W: fmt::Write>(&self, f: &mut fmt::Formatter<W>) -> fmt::Result {
        f.write_str(match self {
            Failure::Memory => "error: out of memory",
            Failure::Write => "error: the output could not be written",
        })
    }
}

impl From<AllocError> for Failure {
    fn from(_error: AllocError) -> Failure {
        Failure::Memory
    }
}

impl<T: Drop> From<AllocFailed<T>> for Failure {
    fn from(_failed: AllocFailed<T>) -> Failure {
        Failure::Memory
    }
}

/// Writes a text. If that fails, a part from its start may be written.
pub(crate) fn put<W: Write>(out: &mut W, text: &str) -> Result<(), Failure>
    ensures { Puts (W.contents out.old) (W.contents out.new) text.now result }
{
    let mut rest = text.as_bytes();
    for _ in 0..u64::MAX {
        if rest.is_empty() {
            return Ok(());
        }
        match out.write(rest) {
            Ok(0) => return Err(Failure::Write),
            Ok(count) => rest = &rest[count..],
            Err(error) => {
                if error.kind() != ErrorKind::Interrupted {
                    return Err(Failure::Write);
                }
            }
        }
    }
    Err(Failure::Write)
}
