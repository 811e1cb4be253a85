//! The keywords, reserved words, operators and punctuation of the language.
ghost use Rattle.std.specs.Prelude.{◌≡◌, ◌↔◌, IsTrue, ℕ, ◌||◌, false, List, [], ◌∷◌, Some, None, IfSome, option_map};
ghost use Rattle.starlark_lexer.specs.Lexemes.{opens, closes};
ghost use Rattle.starlark_lexer.specs.Tokens.{terminal};
ghost use Rattle.starlark_lexer.specs.Words as spec;

use crate::text::byte_at;
use crate::token::Token;

/// The length in bytes of the longest keywords and reserved words.
const LONGEST_WORD: usize = 8;

/// The keyword with this text. After a table lookup on the first byte, one or two keywords are left to compare.
#[tactic(auto, unfolding(crate::specs::Words::keyword))]
pub(crate) fn keyword(name: &str) -> Option<Token>
    ensures { option_map terminal result ≡ spec.keyword name.now }
{
    if name.len() > LONGEST_WORD {
        return None;
    }
    match byte_at(name.as_bytes(), 0) {
        b'a' if is_word(name, "and") => Some(Token::And),
        b'b' if is_word(name, "break") => Some(Token::Break),
        b'c' if is_word(name, "continue") => Some(Token::Continue),
        b'd' if is_word(name, "def") => Some(Token::Def),
        b'e' if is_word(name, "elif") => Some(Token::Elif),
        b'e' if is_word(name, "else") => Some(Token::Else),
        b'f' if is_word(name, "for") => Some(Token::For),
        b'i' if is_word(name, "if") => Some(Token::If),
        b'i' if is_word(name, "in") => Some(Token::In),
        b'l' if is_word(name, "lambda") => Some(Token::Lambda),
        b'l' if is_word(name, "load") => Some(Token::Load),
        b'n' if is_word(name, "not") => Some(Token::Not),
        b'o' if is_word(name, "or") => Some(Token::Or),
        b'p' if is_word(name, "pass") => Some(Token::Pass),
        b'r' if is_word(name, "return") => Some(Token::Return),
        _ => None,
    }
}

/// Whether the text is a reserved word. After a table lookup on the first byte, one or two words are left to compare.
#[tactic(auto, unfolding(crate::specs::Words::is_reserved))]
pub(crate) fn is_reserved(name: &str) -> bool
    ensures { result ≡ spec.is_reserved name.now }
{
    if name.len() > LONGEST_WORD {
        return false;
    }
    match byte_at(name.as_bytes(), 0) {
        b'a' => is_word(name, "as"),
        b'c' => is_word(name, "class"),
        b'd' => is_word(name, "del"),
        b'e' => is_word(name, "except"),
        b'f' => is_word(name, "finally") || is_word(name, "from"),
        b'g' => is_word(name, "global"),
        b'i' => is_word(name, "import") || is_word(name, "is"),
        b'n' => is_word(name, "nonlocal"),
        b'r' => is_word(name, "raise"),
        b't' => is_word(name, "try"),
        b'w' => is_word(name, "while") || is_word(name, "with"),
        b'y' => is_word(name, "yield"),
        _ => false,
    }
}

/// Whether the name is `word`. Their lengths are compared first, which needs no call.
#[inline(always)]
fn is_word(name: &str, word: &str) -> bool
    ensures { IsTrue result ↔ (name.now ≡ word.now) }
{
    name.len() == word.len() && name == word
}

/// The token of one byte with which no longer operator begins.
#[inline(always)]
#[tactic(auto, unfolding(crate::specs::Words::sign))]
pub(crate) fn lone_sign(byte: u8) -> Option<Token>
    ensures one { IfSome result (λ t. Some (terminal t) ≡ spec.sign (byte ∷ [])) }
    ensures two { IfSome result (λ t. (b : ℕ) → None ≡ spec.sign (byte ∷ b ∷ [])) }
    ensures three { IfSome result (λ t. (b c : ℕ) → None ≡ spec.sign (byte ∷ b ∷ c ∷ [])) }
    ensures bracket { result ≡ None → (opens byte || closes byte) ≡ false }
{
    match byte {
        b',' => Some(Token::Comma),
        b';' => Some(Token::Semicolon),
        b':' => Some(Token::Colon),
        b'(' => Some(Token::OpeningRound),
        b')' => Some(Token::ClosingRound),
        b'[' => Some(Token::OpeningSquare),
        b']' => Some(Token::ClosingSquare),
        b'{' => Some(Token::OpeningCurly),
        b'}' => Some(Token::ClosingCurly),
        b'~' => Some(Token::Tilde),
        _ => None,
    }
}

/// The operator, punctuation or delimiter of one byte.
#[inline(always)]
#[tactic(auto, unfolding(crate::specs::Words::sign))]
pub(crate) fn sign_of_one(byte: u8) -> Option<Token>
    ensures { option_map terminal result ≡ spec.sign (byte ∷ []) }
{
    match byte {
        b',' => Some(Token::Comma),
        b';' => Some(Token::Semicolon),
        b':' => Some(Token::Colon),
        b'.' => Some(Token::Dot),
        b'(' => Some(Token::OpeningRound),
        b')' => Some(Token::ClosingRound),
        b'[' => Some(Token::OpeningSquare),
        b']' => Some(Token::ClosingSquare),
        b'{' => Some(Token::OpeningCurly),
        b'}' => Some(Token::ClosingCurly),
        b'+' => Some(Token::Plus),
        b'-' => Some(Token::Minus),
        b'*' => Some(Token::Star),
        b'/' => Some(Token::Slash),
        b'%' => Some(Token::Percent),
        b'&' => Some(Token::Ampersand),
        b'|' => Some(Token::Pipe),
        b'^' => Some(Token::Caret),
        b'~' => Some(Token::Tilde),
        b'<' => Some(Token::LessThan),
        b'>' => Some(Token::GreaterThan),
        b'=' => Some(Token::Equal),
        _ => None,
    }
}

/// The operator of a byte and an `=`.
#[tactic(auto, unfolding(crate::specs::Words::sign))]
fn sign_with_equal(byte: u8) -> Option<Token>
    ensures { option_map terminal result ≡ spec.sign (byte ∷ 61 ∷ []) }
{
    match byte {
        b'<' => Some(Token::LessEqual),
        b'>' => Some(Token::GreaterEqual),
        b'=' => Some(Token::EqualEqual),
        b'!' => Some(Token::BangEqual),
        b'+' => Some(Token::PlusEqual),
        b'-' => Some(Token::MinusEqual),
        b'*' => Some(Token::StarEqual),
        b'/' => Some(Token::SlashEqual),
        b'%' => Some(Token::PercentEqual),
        b'&' => Some(Token::AmpersandEqual),
        b'|' => Some(Token::PipeEqual),
        b'^' => Some(Token::CaretEqual),
        _ => None,
    }
}

/// The operator of two bytes.
#[inline(always)]
#[tactic(auto, unfolding(crate::specs::Words::sign))]
pub(crate) fn sign_of_two(first: u8, second: u8) -> Option<Token>
    ensures { option_map terminal result ≡ spec.sign (first ∷ second ∷ []) }
{
    match (first, second) {
        (_, b'=') => sign_with_equal(first),
        (b'-', b'>') => Some(Token::MinusGreater),
        (b'/', b'/') => Some(Token::SlashSlash),
        (b'*', b'*') => Some(Token::StarStar),
        (b'<', b'<') => Some(Token::LessLess),
        (b'>', b'>') => Some(Token::GreaterGreater),
        _ => None,
    }
}

/// The operator or punctuation of three bytes.
#[inline(always)]
#[tactic(auto, unfolding(crate::specs::Words::sign))]
pub(crate) fn sign_of_three(first: u8, second: u8, third: u8) -> Option<Token>
    ensures { option_map terminal result ≡ spec.sign (first ∷ second ∷ third ∷ []) }
{
    match (first, second, third) {
        (b'.', b'.', b'.') => Some(Token::Ellipsis),
        (b'/', b'/', b'=') => Some(Token::SlashSlashEqual),
        (b'<', b'<', b'=') => Some(Token::LessLessEqual),
        (b'>', b'>', b'=') => Some(Token::GreaterGreaterEqual),
        _ => None,
    }
}
