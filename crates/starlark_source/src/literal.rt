//! Names and literals (Starlark specification, "Lexical elements").
ghost use Rattle.std.specs.Prelude.{◌≡◌, ◌∷◌, [], ◌<◌, true, flat_map, string_bytes, IfSome, IfNone};
ghost use Rattle.std.specs.List.{list_all};
ghost use Rattle.starlark_lexer.specs.Tokens.{Identifier, Float, Int, Number, large, number, span_of};
ghost use Rattle.starlark_tree.specs.Views.{literal_seen};
ghost use Rattle.starlark_source.specs.Pages.{Wrote, say};
ghost use Rattle.starlark_source.specs.Drafts.{draft};
ghost use Rattle.starlark_source.specs.Readings.{is_name, is_float, is_large_int};
ghost use Rattle.starlark_source.specs.Literals as literals;
ghost use Rattle.starlark_source.specs.Literals.{is_byte, sayable};
ghost use Rattle.starlark_source.specs.Pieces.{escaped, quoted};

use crate::page::Page;
use crate::reading::{Reading, read_alone};
use starlark_lexer::span::Span;
use starlark_lexer::token::TokenInt;
use starlark_tree::ast::AstLiteral;

/// Writes a name, which is rejected if it is invalid.
pub(crate) fn write_name(page: &mut Page, name: &str, span: Span)
    ensures { Wrote page.old (draft (sayable (is_name name.now) (Identifier name.now) (span_of span))) page.new }
{
    match read_alone(page.allocator(), name) {
        Ok(Reading::Name) => page.put(name),
        Ok(_) => page.refuse(span),
        Err(_) => page.report_out_of_memory(),
    }
}

/// Writes the text of a float, which is rejected if it is invalid.
fn write_float(page: &mut Page, text: &str, span: Span)
    ensures { Wrote page.old (draft (sayable (is_float text.now) (Float text.now) (span_of span))) page.new }
{
    match read_alone(page.allocator(), text) {
        Ok(Reading::Float) => page.put(text),
        Ok(_) => page.refuse(span),
        Err(_) => page.report_out_of_memory(),
    }
}

/// Writes the text of an integer that does not fit 32 bits, which is rejected if it is invalid.
fn write_large(page: &mut Page, text: &str, span: Span)
    ensures { Wrote page.old (draft (sayable (is_large_int text.now) (Int (large text.now)) (span_of span))) page.new }
{
    match read_alone(page.allocator(), text) {
        Ok(Reading::LargeInt) => page.put(text),
        Ok(_) => page.refuse(span),
        Err(_) => page.report_out_of_memory(),
    }
}

/// Writes an integer, which is rejected if it is negative.
fn write_int(page: &mut Page, value: &TokenInt, span: Span)
    ensures { Wrote page.old (draft (literals.int (span_of span) (number value.now))) page.new }
{
    match value {
        TokenInt::I32(small) => {
            if *small < 0 {
                page.refuse(span);
            } else {
                match value.to_string(page.allocator()) {
                    Ok(text) => page.put(&text),
                    Err(_) => page.report_out_of_memory(),
                }
            }
        }
        TokenInt::BigInt(text) => write_large(page, text.as_str(), span),
    }
}

/// Writes a literal.
pub(crate) fn write_literal(page: &mut Page, literal: &AstLiteral)
    ensures { Wrote page.old (draft (literals.literal (literal_seen literal.now))) page.new }
{
    match literal {
        AstLiteral::Int(number) => write_int(page, &number.node, number.span),
        AstLiteral::Float(text) => write_float(page, text.node.as_str(), text.span),
        AstLiteral::String(text) => write_quoted(page, text.node.as_str()),
        AstLiteral::Bytes(bytes) => {
            read_bytes(bytes.node.as_slice());
            match literal.to_string(page.allocator()) {
                Ok(text) => page.put(&text),
                Err(_) => page.report_out_of_memory(),
            }
        }
        AstLiteral::Ellipsis => page.put("..."),
    }
}

/// Reads each byte, which shows that it is below 256, as `literals.literal` requires of a bytes literal.
fn read_bytes(bytes: &[u8])
    ensures { list_all is_byte bytes.now ≡ true }
{
    for at in 0..bytes.len() {
        let _byte = bytes[at];
    }
}

/// Writes a string literal.
pub(crate) fn write_quoted(page: &mut Page, text: &str)
    ensures { Wrote page.old (say (quoted text.now)) page.new }
{
    page.put("\"");
    write_escaped(page, text);
    page.put("\"");
}

/// The escape of a byte, if it has one: bytes that would end the literal, and bytes that are hard to see, have one.
fn escape_of(byte: u8) -> Option<&'static str>
    ensures some { IfSome result (λ text. (text.now ≡ escaped byte) × (byte < 128)) }
    ensures none { IfNone result (escaped byte ≡ byte ∷ []) }
{
    match byte {
        b'\n' => Some("\\n"),
        b'\t' => Some("\\t"),
        b'\r' => Some("\\r"),
        0 => Some("\\x00"),
        b'"' => Some("\\\""),
        b'\\' => Some("\\\\"),
        _ => None,
    }
}

/// Writes the text inside a literal's quotes, the part between two escapes in one piece.
pub(crate) fn write_escaped(page: &mut Page, text: &str)
    ensures { Wrote page.old (say (flat_map escaped text.now)) page.new }
{
    let bytes = text.as_bytes();
    let mut start = 0;
    for at in 0..bytes.len() {
        match escape_of(bytes[at]) {
            Some(escape) => {
                page.put(&text[start..at]);
                page.put(escape);
                start = at + 1;
            }
            None => {}
        }
    }
    page.put(&text[start..]);
}
