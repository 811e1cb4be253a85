//! What holds of the lexemes of every text.
ghost use Rattle.std.specs.Prelude.{ℕ, List};
ghost use Rattle.std.specs.Str.{IsUtf8};
ghost use Rattle.starlark_lexer.specs.Lexemes.{lexemes};
ghost use Rattle.starlark_lexer.specs.Order.{AreLaidOut};

/// The lexemes of a text are in order and on character boundaries, with only whitespace, `\` and newlines between them. The text at an
/// identifier, a keyword, an operator or punctuation is the token's spelling. Without an error there is a last token, and it ends where the
/// text does; an error is the last lexeme.
pub fn lexemes_are_laid_out()
    ensures { (text : List ℕ) → IsUtf8 text → AreLaidOut text (lexemes text) }
{}
