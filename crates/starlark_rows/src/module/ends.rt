//! The program when its reader or one of its writers fails.
use crate::module::program::{push_written, words_of};
use starlark_cli::ast::run::run;
use std::alloc::AllocError;
use std::fmt::Write as _;
use std::io;
use std::io::{Read, Write};

/// A reader that gives a number of bytes and then fails.
#[derive(Drop)]
struct Broken {
    left: usize,
}

impl Read for Broken {
    fn read(&mut self, buf: &mut [u8]) -> io::Result<usize> {
        if self.left == 0 || buf.is_empty() {
            return Err(io::Error::from(io::ErrorKind::BrokenPipe));
        }
        self.left -= 1;
        buf[0] = b'x';
        Ok(1)
    }
}

/// A writer that takes a number of bytes and then fails.
#[derive(Drop)]
struct Short {
    left: usize,
}

impl Write for Short {
    fn write(&mut self, buf: &[u8]) -> io::Result<usize> {
        if self.left == 0 {
            return Err(io::Error::from(io::ErrorKind::BrokenPipe));
        }
        let count = buf.len().min(self.left);
        self.left -= count;
        Ok(count)
    }

    fn flush(&mut self) -> io::Result<()> {
        Ok(())
    }
}

/// Appends the status and what is written if the reader gives three bytes.
pub fn push_broken_reader(out: &mut String) -> Result<(), AllocError> {
    let alloc = *out.allocator();
    let (mut given, mut written) = (Vec::new(alloc), Vec::new(alloc));
    let words = words_of(alloc, "all print")?;
    let status = run(
        alloc,
        &words,
        &mut Broken { left: 3 },
        &mut given,
        &mut written,
    );
    writeln!(out, "{status}")?;
    push_written(out, &given)?;
    push_written(out, &written)
}

/// Appends the status and what is written if the output takes three bytes, and the status if no writer takes any.
pub fn push_short_writer(out: &mut String, text: &str) -> Result<(), AllocError> {
    let alloc = *out.allocator();
    let mut written = Vec::new(alloc);
    let words = words_of(alloc, "all print")?;
    let mut input = text.as_bytes();
    let status = run(
        alloc,
        &words,
        &mut input,
        &mut Short { left: 3 },
        &mut written,
    );
    let mut input = text.as_bytes();
    let silent = run(
        alloc,
        &words,
        &mut input,
        &mut Short { left: 0 },
        &mut Short { left: 0 },
    );
    writeln!(out, "{status} {silent}")?;
    push_written(out, &written)
}
