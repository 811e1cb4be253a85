//! The JSON of a file that could not be read as text.
ghost use Rattle.std.specs.Prelude.{◌≡◌, IfOk, string_bytes};
ghost use Rattle.json.specs.Tree.{json_tokens};
ghost use Rattle.starlark_cli.specs.Tool.Writing.{fault_json, fault_text};
ghost use Rattle.starlark_json.specs.Tree.Adds.{Adds};

use json::Writer;
use starlark_json::tree::leaf::write_text;
use starlark_json::tree::text_of;
use std::alloc::{AllocError, Global};

/// A file that has no text to parse, as JSON: the kind of the error, its message and the path.
///
/// Fails if memory runs out.
pub(crate) fn fault_json(
    alloc: Global,
    kind: &str,
    message: &str,
    path: &str,
) -> Result<String, AllocError>
    ensures { IfOk result (λ text. string_bytes text ≡ fault_text kind.now message.now path.now) }
{
    let mut out = Writer::new(Vec::new(alloc));
    write_fault(&mut out, kind, message, path)?;
    text_of(out)
}

/// Writes the object.
fn write_fault(out: &mut Writer, kind: &str, message: &str, path: &str) -> Result<(), AllocError>
    ensures { Adds result out.old out.new (json_tokens (fault_json kind.now message.now path.now)) }
{
    out.begin_object()?;
    out.key("version")?;
    out.u64(1)?;
    write_text(out, "error", kind)?;
    write_text(out, "message", message)?;
    write_text(out, "file", path)?;
    out.end_object()
}
