//! Lexemes that are in a list.
ghost use Rattle.std.specs.Prelude.{◌≡◌, ◌≤◌, true, false, IfSome, IfNone};
ghost use Rattle.std.specs.Str.{IsCharBoundary};
ghost use Rattle.std.specs.Iterator.{YieldsFirst, item_count};
ghost use Rattle.starlark_parse_cursor.specs.Order.{ComesInOrder};
ghost use Rattle.starlark_module.specs.LexemeLists.{AreInText, lexemes_left};

use starlark_lexer::codemap::CodeMap;
use starlark_lexer::token::Lexeme;
use std::vec::IntoIter;

/// The lexemes of a list, from its first on.
#[derive(Drop)]
pub struct LexemeList {
    rest: IntoIter<Lexeme>,
}

impl Iterator for LexemeList {
    type Item = Lexeme;

    ghost next_gives = { YieldsFirst lexemes_left };

    ghost remaining = { item_count lexemes_left };

    fn next(&mut self) -> Option<Lexeme> {
        self.rest.next()
    }
}

impl LexemeList {
    /// The lexemes of a list whose tokens come in order, in the code map's text and on the bounds of its characters.
    ///
    /// Any other list gives `None` and is dropped.
    pub fn new(codemap: &CodeMap, list: Vec<Lexeme>) -> Option<LexemeList>
        ensures list { IfSome result (λ l. lexemes_left l ≡ list.items) }
        ensures in_text { IfSome result (λ _. AreInText codemap.now.text 0 list.items) }
        ensures ordered { IfSome result (λ l. ComesInOrder (YieldsFirst lexemes_left) l 0) }
        ensures none { IfNone result (AreInText codemap.now.text 0 list.items → ⊥) }
    {
        if are_in_text(codemap.source(), &list) {
            Some(LexemeList {
                rest: list.into_iter(),
            })
        } else {
            None
        }
    }
}

fn are_in_text(text: &str, list: &Vec<Lexeme>) -> bool
    ensures all { result ≡ true → AreInText text.now 0 list.now.items }
    ensures not_all { result ≡ false → AreInText text.now 0 list.now.items → ⊥ }
{
    let mut from = 0;
    for lexeme in list {
        if let Ok((begin, _, end)) = lexeme {
            if !is_next(text, from, *begin, *end) {
                return false;
            }
            from = *end;
        }
    }
    true
}

/// Returns whether a token may be there, after another that ends at `from`.
fn is_next(text: &str, from: usize, begin: usize, end: usize) -> bool
    ensures yes { result ≡ true → (from ≤ begin) × (begin ≤ end) × IsCharBoundary text.now begin × IsCharBoundary text.now end }
    ensures no { result ≡ false → (from ≤ begin) × (begin ≤ end) × IsCharBoundary text.now begin × IsCharBoundary text.now end → ⊥ }
{
    from <= begin && begin <= end && text.is_char_boundary(begin) && text.is_char_boundary(end)
}
