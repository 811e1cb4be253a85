//! Tokens as messages name them.
ghost use Rattle.std.specs.Prelude.{◌≡◌, IfOk, string_bytes};
ghost use Rattle.starlark_diagnostics.specs.Messages as messages;
ghost use Rattle.starlark_diagnostics.specs.Tokens as specs;

use starlark_lexer::kind::Kind;
use std::alloc::{AllocError, Global};

/// A longer text is not repeated in a message.
const LONG: usize = 30;

/// A token of the kind that is written so.
pub(crate) fn token_name(alloc: Global, kind: Kind, text: &str) -> Result<String, AllocError>
    ensures { IfOk result (λ name. string_bytes name ≡ specs.token_name kind text.now) }
{
    match kind {
        Kind::Newline => newline_name(alloc, text),
        Kind::Indent => String::from_str(alloc, "indentation"),
        Kind::Dedent => String::from_str(alloc, "end of the block"),
        Kind::String | Kind::Bytes => string_name(alloc, text),
        Kind::FStringStart => String::from_str(alloc, "string"),
        Kind::FStringText => String::from_str(alloc, "text of the string"),
        Kind::FStringEnd => String::from_str(alloc, "end of the string"),
        Kind::Identifier => format!(in alloc; "name `{text}`"),
        Kind::Int | Kind::Float => format!(in alloc; "number `{text}`"),
        _ => format!(in alloc; "`{text}`"),
    }
}

/// The end of a line, or of the file if nothing is written for it.
fn newline_name(alloc: Global, text: &str) -> Result<String, AllocError>
    ensures { IfOk result (λ name. string_bytes name ≡ specs.newline_name text.now) }
{
    if text.is_empty() {
        String::from_str(alloc, "end of file")
    } else {
        String::from_str(alloc, "new line")
    }
}

/// A string, as it is written if that is short.
fn string_name(alloc: Global, text: &str) -> Result<String, AllocError>
    ensures { IfOk result (λ name. string_bytes name ≡ specs.string_name text.now) }
{
    if is_short(text) {
        format!(in alloc; "string {text}")
    } else {
        String::from_str(alloc, "string")
    }
}

/// Whether a message repeats the text: it is short, and of one line.
pub(crate) fn is_short(text: &str) -> bool
    ensures { result ≡ messages.is_short text.now }
{
    text.len() <= LONG && !has_newline(text)
}

fn has_newline(text: &str) -> bool
    ensures { result ≡ messages.has_newline text.now }
{
    text.as_bytes().contains(&b'\n')
}
