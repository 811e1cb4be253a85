//! The format of an f-string.
ghost use Rattle.std.specs.Prelude.{◌≡◌, ◌≤◌, ◌<◌, true, false, ◌++◌, ◌∷◌, [], IfOk, OnOk, string_bytes};
ghost use Rattle.starlark_parse_held.specs.Held.{expression_of, expressions_in};
ghost use Rattle.starlark_lexer.specs.Tokens.{from_to};
ghost use Rattle.starlark_spec.specs.Trees.{doubled, doubled_byte, placeholder, conversion_of as conversion_named, f_string};
ghost use Rattle.starlark_parse_build.specs.Suffixes.{format_of};

use starlark_lexer::span::{Pos, Span, Spanned};
use starlark_lexer::token::FStringConv;
use starlark_parse_held::{HeldExpr, HeldExprs};
use starlark_tree::ast::{Expr, FStringP};
use std::alloc::{AllocError, Global};

/// The text of a format, with a placeholder for each value, and the values.
pub struct Format {
    pub text: String,
    pub values: HeldExprs,
}

impl Drop for Format {
    fn drop(self) {
        let Format { text, values } = self;
        drop(text);
        drop(values);
    }
}

impl Format {
    fn into_parts(self) -> (String, HeldExprs)
        ensures { (result.0 ≡ self.text) × (result.1 ≡ self.values) }
    {
        let Format { text, values } = self;
        (text, values)
    }

    /// A format without text and values.
    pub fn new(alloc: Global) -> Format
        ensures text { string_bytes result.text ≡ [] }
        ensures values { expressions_in result.values ≡ [] }
    {
        Format {
            text: String::new(alloc),
            values: HeldExprs::new(alloc),
        }
    }

    /// Adds a text. Its braces are doubled, since a single one begins or ends a placeholder.
    pub fn push_text(&mut self, text: &str) -> Result<(), AllocError>
        ensures text { OnOk result (string_bytes self.new.text ≡ string_bytes self.old.text ++ doubled text.now) }
        ensures values { self.new.values ≡ self.old.values }
    {
        push_doubled(&mut self.text, text)
    }

    /// Adds a value, and its placeholder.
    pub fn push_value(&mut self, value: HeldExpr, conversion: FStringConv) -> Result<(), AllocError>
        ensures text { OnOk result (string_bytes self.new.text ≡ string_bytes self.old.text ++ placeholder conversion) }
        ensures values { OnOk result (expressions_in self.new.values ≡ expressions_in self.old.values ++ expression_of value ∷ []) }
    {
        self.values.push(value)?;
        self.text.push_str(place_for(conversion))
    }
}

/// The placeholder of a value.
fn place_for(conversion: FStringConv) -> &'static str
    ensures { result.now ≡ placeholder conversion }
{
    match conversion {
        FStringConv::Repr => "{!r}",
        FStringConv::None | FStringConv::Str => "{}",
    }
}

fn is_brace(byte: u8) -> bool
    ensures yes { result ≡ true → (doubled_byte byte ≡ byte ∷ byte ∷ []) × (byte < 128) }
    ensures no { result ≡ false → doubled_byte byte ≡ byte ∷ [] }
{
    byte == b'{' || byte == b'}'
}

/// Adds a text with its braces doubled: each piece that ends with a brace is added, and the next one starts at that brace.
fn push_doubled(format: &mut String, text: &str) -> Result<(), AllocError>
    ensures { OnOk result (string_bytes format.new ≡ string_bytes format.old ++ doubled text.now) }
{
    let bytes = text.as_bytes();
    let mut start = 0;
    for at in 0..bytes.len() {
        if is_brace(bytes[at]) {
            format.push_str(&text[start..at + 1])?;
            start = at;
        }
    }
    format.push_str(&text[start..])
}

/// The conversion that a name denotes: `s` or `r`.
pub fn conversion_of(name: &str) -> Option<FStringConv>
    ensures { result ≡ conversion_named name.now }
{
    match name.as_bytes() {
        [b's'] => Some(FStringConv::Str),
        [b'r'] => Some(FStringConv::Repr),
        _ => None,
    }
}

/// An f-string, from `begin` to `end`. Its format has the same span.
pub fn formatted(
    alloc: Global,
    format: Format,
    begin: Pos,
    end: Pos,
) -> Result<HeldExpr, AllocError>
    requires { begin.byte ≤ end.byte }
    ensures { IfOk result (λ e. expression_of e ≡ f_string (from_to begin.byte end.byte) (format_of format)) }
{
    let (text, values) = format.into_parts();
    let span = Span::new(begin, end);
    let format = Spanned { node: text, span };
    let node = FStringP {
        format,
        expressions: values.into_trees(),
    };
    let node = Expr::FString(Spanned { node, span });
    HeldExpr::new(alloc, Spanned { node, span })
}
