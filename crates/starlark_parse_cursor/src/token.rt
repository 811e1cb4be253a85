//! Tokens that are required.
ghost use Rattle.std.specs.Prelude.{◌≡◌, true, MatchResult, string_bytes};
ghost use Rattle.starlark_lexer.specs.Tokens.{terminal, Identifier as name_token, String as string_token};
ghost use Rattle.starlark_lexer.specs.declared.kind.Kind.TheVariants as kinds;
ghost use Rattle.starlark_lexer.specs.Kinds.{is_plain, kind_of};
ghost use Rattle.starlark_parse_cursor.specs.Reading.{at, Ready};
ghost use Rattle.starlark_parse_cursor.specs.Contract.{Expects, MovesOn, TakesName, TakesString};

use crate::cursor::Cursor;
use starlark_lexer::kind::Kind;
use starlark_lexer::span::{Span, Spanned};
use starlark_lexer::token::{Lexeme, Token};
use starlark_spec::refusal::Refusal;
use starlark_tree::ast::AstString;

/// Consumes a required token of this kind, which has to be the kind of a token without contents.
pub fn expect<I: Iterator<Item = Lexeme>>(
    cursor: &mut Cursor<I>,
    kind: Kind,
) -> Result<Span, Refusal>
    requires plain { is_plain kind ≡ true }
    requires ready { Ready I.can_next I.remaining I.next_gives (at cursor.old) }
    ensures moves { MovesOn I.can_next I.remaining I.next_gives cursor.old result cursor.new }
    ensures expects { Expects I.next_gives kind (at cursor.old) result (at cursor.new) }
{
    match cursor.take_if(kind) {
        Some(span) => Ok(span),
        None => Err(cursor.refusal()),
    }
}

/// The name in a token.
fn name_of(token: Token, span: Span) -> Result<AstString, Refusal>
    requires { kind_of (terminal token) ≡ kinds.Identifier }
    ensures { MatchResult result (λ name. (terminal token ≡ name_token (string_bytes name.node)) × (name.span ≡ span)) (λ e. ⊥) }
{
    match token {
        Token::Identifier(node) => Ok(Spanned { node, span }),
        _ => Err(Refusal::UnexpectedToken(span)),
    }
}

/// Consumes a required name.
pub fn take_name<I: Iterator<Item = Lexeme>>(cursor: &mut Cursor<I>) -> Result<AstString, Refusal>
    requires ready { Ready I.can_next I.remaining I.next_gives (at cursor.old) }
    ensures moves { MovesOn I.can_next I.remaining I.next_gives cursor.old result cursor.new }
    ensures takes { TakesName I.next_gives (at cursor.old) result (at cursor.new) }
{
    if !cursor.at(Kind::Identifier) {
        return Err(cursor.refusal());
    }
    match cursor.take() {
        Some((token, span)) => name_of(token, span),
        None => Err(cursor.refusal()),
    }
}

/// The text of a string.
fn string_of(token: Token, span: Span) -> Result<AstString, Refusal>
    requires { kind_of (terminal token) ≡ kinds.String }
    ensures { MatchResult result (λ text. (terminal token ≡ string_token (string_bytes text.node)) × (text.span ≡ span)) (λ e. ⊥) }
{
    match token {
        Token::String(node) => Ok(Spanned { node, span }),
        _ => Err(Refusal::UnexpectedToken(span)),
    }
}

/// Consumes a required string.
pub fn take_string<I: Iterator<Item = Lexeme>>(cursor: &mut Cursor<I>) -> Result<AstString, Refusal>
    requires ready { Ready I.can_next I.remaining I.next_gives (at cursor.old) }
    ensures moves { MovesOn I.can_next I.remaining I.next_gives cursor.old result cursor.new }
    ensures takes { TakesString I.next_gives (at cursor.old) result (at cursor.new) }
{
    if !cursor.at(Kind::String) {
        return Err(cursor.refusal());
    }
    match cursor.take() {
        Some((token, span)) => string_of(token, span),
        None => Err(cursor.refusal()),
    }
}
