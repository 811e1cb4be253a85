//! The texts of files.
ghost use Rattle.std.specs.Prelude.{◌≡◌, IfOk};
ghost use Rattle.starlark_cli.specs.Tool.Sources.{HasRead, IsSourceOf, IsUnread};

use std::alloc::{AllocError, Global};
use std::io::{ErrorKind, Read};
use std::rt::Files;
use std::{fs, io};

/// What reading a file gave.
#[derive(Drop)]
pub enum Source {
    /// All of it, as text.
    Text(String),
    /// It is not UTF-8.
    NotUtf8,
    /// It could not be read, for this reason.
    Unread(String),
}

/// Reads a file.
///
/// Fails if memory runs out.
pub fn read_file<R: Files + AllocGlobal>(rt: &R, path: &str) -> Result<Source, AllocError> {
    match fs::read(rt, path) {
        Ok(bytes) => Ok(source_of(bytes)),
        Err(error) => unread(rt.alloc(), &error),
    }
}

/// Reads all that the input still has.
///
/// Fails if memory runs out.
pub fn read_input<I: Read>(alloc: Global, input: &mut I) -> Result<Source, AllocError>
    ensures { IfOk result (HasRead (I.remaining input.old) (I.remaining input.new)) }
{
    let mut bytes = Vec::new(alloc);
    match input.read_to_end(&mut bytes) {
        Ok(_) => Ok(source_of(bytes)),
        Err(error) => unread(alloc, &error),
    }
}

/// The bytes as text, if they are UTF-8.
fn source_of(bytes: Vec<u8>) -> Source
    ensures { IsSourceOf bytes.items result }
{
    match String::from_utf8(bytes) {
        Ok(text) => Source::Text(text),
        Err(_) => Source::NotUtf8,
    }
}

/// Why a file could not be read, unless memory ran out.
pub(crate) fn unread(alloc: Global, error: &io::Error) -> Result<Source, AllocError>
    ensures { IfOk result IsUnread }
{
    Ok(Source::Unread(reason_of(alloc, error)?))
}

/// Why a file or a folder could not be read.
///
/// Fails if it was for memory, or if memory runs out.
pub(crate) fn reason_of(alloc: Global, error: &io::Error) -> Result<String, AllocError> {
    match error.kind() {
        ErrorKind::OutOfMemory => Err(AllocError),
        _ => Ok(error.to_string(alloc)?),
    }
}
