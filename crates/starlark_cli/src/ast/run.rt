//! What the program does, over arguments, a reader and two writers.
ghost use Rattle.std.specs.Prelude.{◌≡◌, IfSome, IfOk, OnOk, map, string_bytes};
ghost use Rattle.starlark_cli.specs.Ast.Output.{WritesAnswer};

use crate::ast::output::output_of;
use crate::ast::request::request_of;
use crate::ast::stop::Stop;
use starlark_module::module::AstModule;
use std::alloc::Global;
use std::io::{ErrorKind, Read, Write};

/// The file name in the positions of errors.
const FILE_NAME: &str = "stdin";

/// Does what the arguments ask for, and returns the status: 0 if the output is written, else 1 to 3 with one line on `err`.
/// The arguments are tested before the input is read. If the line cannot be written the status is the same.
pub fn run<R: Read, W: Write, E: Write>(
    alloc: Global,
    words: &[String],
    input: &mut R,
    out: &mut W,
    err: &mut E,
) -> u8
    ensures { result ≡ 0 → IfSome (R.remaining input.old) (λ text. WritesAnswer (map string_bytes words.now) text (W.contents out.old) (W.contents out.new)) }
{
    match answer(alloc, words, input, out) {
        Ok(()) => 0,
        Err(stop) => stop.report(err),
    }
}

/// Writes what the arguments ask for of the input.
fn answer<R: Read, W: Write>(
    alloc: Global,
    words: &[String],
    input: &mut R,
    out: &mut W,
) -> Result<(), Stop>
    ensures { OnOk result (IfSome (R.remaining input.old) (λ text. WritesAnswer (map string_bytes words.now) text (W.contents out.old) (W.contents out.new))) }
{
    let request = request_of(words)?;
    let text = read_text(alloc, input)?;
    let module = AstModule::parse(alloc, FILE_NAME, text, &request.dialect)?;
    let output = output_of(alloc, request.mode, &module)?;
    if out.write_all(output.as_bytes()).is_err() || out.flush().is_err() {
        return Err(Stop::WriteFailed);
    }
    Ok(())
}

/// All of the input, as text.
fn read_text<R: Read>(alloc: Global, input: &mut R) -> Result<String, Stop>
    ensures { IfOk result (λ t. IfSome (R.remaining input.old) (λ text. string_bytes t ≡ text)) }
{
    let mut bytes = Vec::new(alloc);
    if let Err(error) = input.read_to_end(&mut bytes) {
        return Err(match error.kind() {
            ErrorKind::OutOfMemory => Stop::Memory,
            _ => Stop::ReadFailed,
        });
    }
    match String::from_utf8(bytes) {
        Ok(text) => Ok(text),
        Err(_) => Err(Stop::NotUtf8),
    }
}
