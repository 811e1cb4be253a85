//! Why the program stops before its output is written.
ghost use Rattle.std.specs.Prelude.{◌≢◌};

use starlark_checks::error::Error;
use std::alloc::{AllocError, AllocFailed};
use std::fmt;
use std::io::Write;

/// Why the program stops: one line on standard error, and a status.
#[derive(Debug, Drop)]
pub enum Stop {
    /// The program does not know the arguments.
    Usage,
    /// The input is not UTF-8.
    NotUtf8,
    ReadFailed,
    WriteFailed,
    Memory,
    /// The text has an error.
    Refused(Error),
}

impl Stop {
    /// Writes its line, if that can be written, and returns its status.
    pub fn report<E: Write>(&self, err: &mut E) -> u8
        ensures { result ≢ 0 }
    {
        let _ = writeln!(err, "{self}");
        self.status()
    }

    /// 1 if the text has an error or memory runs out, 2 for wrong arguments and input that is not UTF-8, 3 if reading or
    /// writing fails.
    fn status(&self) -> u8
        ensures { result ≢ 0 }
    {
        match self {
            Stop::Refused(_) | Stop::Memory => 1,
            Stop::Usage | Stop::NotUtf8 => 2,
            Stop::ReadFailed | Stop::WriteFailed => 3,
        }
    }
}

/// The line without its newline. The position of an error, if it has one, comes before its text.
impl fmt::Display for Stop {
    fn fmt<W: fmt::Write>(&self, f: &mut fmt::Formatter<W>) -> fmt::Result {
        match self {
            Stop::Usage => f.write_str(
                "usage: starlark_ast all|bare print|locations|loads|comments|lint",
            ),
            Stop::NotUtf8 => f.write_str("input is not UTF-8"),
            Stop::ReadFailed => f.write_str("read failed"),
            Stop::WriteFailed => f.write_str("write failed"),
            Stop::Memory => f.write_str("out of memory"),
            Stop::Refused(error) => write!(f, "{}", error.line()),
        }
    }
}

impl From<Error> for Stop {
    fn from(error: Error) -> Stop {
        Stop::Refused(error)
    }
}

impl From<AllocError> for Stop {
    fn from(_error: AllocError) -> Stop {
        Stop::Memory
    }
}

impl<T: Drop> From<AllocFailed<T>> for Stop {
    fn from(_failed: AllocFailed<T>) -> Stop {
        Stop::Memory
    }
}
