//! Equality of tokens: by kind and content.
ghost use Rattle.std.specs.Prelude.{◌≡◌};
ghost use Rattle.starlark_lexer.specs.Tokens.{number, terminal};
ghost use Rattle.starlark_lexer.specs.TokenKey as keys;

use crate::kind::kind_of;
use crate::token::{FStringQuote, Token, TokenInt};

/// What a token contains besides its kind: a number for its form, the value of a small integer or 0, and the text or none.
type Content<'a> = (u8, i32, &'a [u8]);

impl PartialEq for TokenInt {
    ghost use Rattle.std.specs.Prelude.{◌≡◌, ◌↔◌, IsTrue};
    ghost use Rattle.std.specs.Ordering.{on};
    ghost use Rattle.std.specs.Cmp.{on_equiv, partial_equiv_from_equiv};
    ghost use Rattle.starlark_lexer.specs.Tokens.{number};
    ghost use Rattle.starlark_lexer.specs.TokenKey.{number_content, same_content, same_content-equivalence};

    ghost eq = { on (λ n. number_content (number n)) same_content };

    ghost laws = { partial_equiv_from_equiv (on_equiv (λ n. number_content (number n)) same_content-equivalence) };

    /// Whether the values or the texts are equal.
    fn eq(&self, other: &TokenInt) -> bool
        ensures { IsTrue result ↔ (number self.now ≡ number other.now) }
    {
        same_content(number_content(self), number_content(other))
    }
}

impl Eq for TokenInt {
    ghost use Rattle.std.specs.Cmp.{on_equiv};
    ghost use Rattle.starlark_lexer.specs.Tokens.{number};
    ghost use Rattle.starlark_lexer.specs.TokenKey.{number_content, same_content-equivalence};

    ghost laws = { on_equiv (λ n. number_content (number n)) same_content-equivalence };
}

impl PartialEq for Token {
    ghost use Rattle.std.specs.Prelude.{◌≡◌, ◌↔◌, IsTrue};
    ghost use Rattle.std.specs.Ordering.{on};
    ghost use Rattle.std.specs.Cmp.{on_equiv, partial_equiv_from_equiv};
    ghost use Rattle.starlark_lexer.specs.Tokens.{terminal};
    ghost use Rattle.starlark_lexer.specs.TokenKey.{key_of, same_key, same_key-equivalence};

    ghost eq = { on (λ t. key_of (terminal t)) same_key };

    ghost laws = { partial_equiv_from_equiv (on_equiv (λ t. key_of (terminal t)) same_key-equivalence) };

    /// Whether the kinds and the contents are equal.
    fn eq(&self, other: &Token) -> bool
        ensures { IsTrue result ↔ (terminal self.now ≡ terminal other.now) }
    {
        kind_of(self) == kind_of(other) && same_content(content(self), content(other))
    }
}

impl Eq for Token {
    ghost use Rattle.std.specs.Cmp.{on_equiv};
    ghost use Rattle.starlark_lexer.specs.Tokens.{terminal};
    ghost use Rattle.starlark_lexer.specs.TokenKey.{key_of, same_key-equivalence};

    ghost laws = { on_equiv (λ t. key_of (terminal t)) same_key-equivalence };
}

fn same_content(a: Content, b: Content) -> bool
    ensures { result ≡ keys.same_content (a.entry.0, a.entry.1, a.entry.2.now) (b.entry.0, b.entry.1, b.entry.2.now) }
{
    a.0 == b.0 && a.1 == b.1 && a.2 == b.2
}

fn number_content(int: &TokenInt) -> Content
    ensures { (result.0, result.1, result.2.now) ≡ keys.number_content (number int.now) }
{
    match int {
        TokenInt::I32(n) => (0, *n, b""),
        TokenInt::BigInt(text) => (1, 0, text.as_bytes()),
    }
}

fn content(token: &Token) -> Content
    ensures { (result.0, result.1, result.2.now) ≡ keys.content_of (terminal token.now) }
{
    match token {
        Token::Identifier(text)
        | Token::Float(text)
        | Token::String(text)
        | Token::Comment(text)
        | Token::FStringText(text) => (0, 0, text.as_bytes()),
        Token::Bytes(text) => (0, 0, text.as_slice()),
        Token::Int(number) => number_content(number),
        Token::FStringStart(FStringQuote::Single) => (0, 0, b""),
        Token::FStringStart(FStringQuote::Double) => (1, 0, b""),
        Token::FStringStart(FStringQuote::TripleSingle) => (2, 0, b""),
        Token::FStringStart(FStringQuote::TripleDouble) => (3, 0, b""),
        _ => (0, 0, b""),
    }
}
