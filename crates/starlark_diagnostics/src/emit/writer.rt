//! Fields of JSON objects.
ghost use Rattle.std.specs.Prelude.{◌≡◌, ◌∷◌, [], IfOk, IsOk, decimal, string_bytes};
ghost use Rattle.json.specs.Print.{print};
ghost use Rattle.json.specs.Token.{key, number, string};
ghost use Rattle.starlark_diagnostics.specs.Adds.{Adds};

use json::Writer;
use std::alloc::AllocError;

/// Writes a field that is a text.
pub(crate) fn write_text(out: &mut Writer, field: &str, text: &str) -> Result<(), AllocError>
    ensures { Adds result out.old out.new (key field.now ∷ string text.now ∷ []) }
{
    out.key(field)?;
    out.string(text)
}

/// Writes a field that is a number.
pub(crate) fn write_count(out: &mut Writer, field: &str, count: u64) -> Result<(), AllocError>
    ensures { Adds result out.old out.new (key field.now ∷ number (decimal count) ∷ []) }
{
    out.key(field)?;
    out.u64(count)
}

/// What a writer that began with nothing has written.
///
/// It never fails: what a writer writes is UTF-8.
pub(crate) fn text_of(out: Writer) -> Result<String, AllocError>
    ensures text { out.before ≡ [] → IfOk result (λ text. string_bytes text ≡ print out.tokens) }
    ensures succeeds { out.before ≡ [] → IsOk result }
{
    match String::from_utf8(out.into_inner()) {
        Ok(text) => Ok(text),
        Err(_) => Err(AllocError),
    }
}
