//! F-strings that are open.
ghost use Rattle.std.specs.Prelude.{◌≡◌, ℕ, ◌+◌, ◌-◌, ◌<◌, ◌≤◌, ◌^◌, IfSome};
ghost use Rattle.starlark_lexer.specs.Lexemes as spec;

use crate::string::escape::Stop;
use crate::string::opening::Style;
use crate::token::FStringQuote;

/// An f-string whose closing quotes have not been read yet.
#[derive(Clone, Copy)]
pub(crate) struct FString {
    pub(crate) style: Style,
    /// The byte at which it begins, including its prefix.
    pub(crate) begin: usize,
    /// How many delimiters and holes are open around it.
    pub(crate) depth: usize,
}

/// The quotes of an f-string.
pub(crate) fn f_string_quote(style: Style) -> FStringQuote
    ensures { result ≡ spec.f_string_quote style }
{
    match (style.quote == b'\'', style.triple) {
        (true, true) => FStringQuote::TripleSingle,
        (true, false) => FStringQuote::Single,
        (false, true) => FStringQuote::TripleDouble,
        (false, false) => FStringQuote::Double,
    }
}

/// Whether the text of an f-string ends: its closing quotes or a hole come next.
pub(crate) fn is_end(stop: Stop) -> bool
    ensures { result ≡ spec.is_end stop }
{
    matches!(stop, Stop::Closed | Stop::Hole)
}

/// The depth below which closing delimiters do not go.
pub(crate) fn floor(innermost: Option<FString>) -> usize
    requires { IfSome innermost (λ f. f.depth < 2 ^ 32) }
    ensures { result ≡ spec.floor innermost }
{
    match innermost {
        Some(f) => f.depth + 1,
        None => 0,
    }
}

/// Whether the lexer is in the innermost f-string's hole, with no delimiter open in it.
pub(crate) fn is_at_hole(depth: usize, innermost: Option<FString>) -> bool
    requires { IfSome innermost (λ f. f.depth < 2 ^ 32) }
    ensures { result ≡ spec.is_at_hole depth innermost }
{
    match innermost {
        Some(f) => depth == f.depth + 1,
        None => false,
    }
}

/// How many delimiters and holes are open after a token that begins with this byte.
#[inline(always)]
pub(crate) fn bracket_depth(low: usize, first: u8, depth: usize) -> usize
    requires { depth < 2 ^ 32 }
    ensures depth { result ≡ spec.bracket_depth low first depth }
    ensures bound { result ≤ depth + 1 }
{
    match first {
        b'(' | b'[' | b'{' => depth + 1,
        b')' | b']' | b'}' if depth > low => depth - 1,
        _ => depth,
    }
}
