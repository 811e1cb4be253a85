//! Lists of lexemes, which count how often they are asked.
ghost use Rattle.std.specs.Iterator.{YieldsFirst, item_count};
ghost use Rattle.starlark_module.specs.LexemeLists.{lexemes_left};

use starlark_lexer::token::{Lexeme, Token};
use starlark_module::module::LexemeList;

/// The lexemes of a list, and how often one was asked for, the end too, comments aside.
#[derive(Drop)]
pub struct Counted {
    pub lexemes: LexemeList,
    pub asked: u64,
}

impl Iterator for Counted {
    type Item = Lexeme;

    ghost next_gives = { λ old given new. YieldsFirst lexemes_left old.lexemes given new.lexemes };

    ghost remaining = { λ counted. item_count lexemes_left counted.lexemes };

    fn next(&mut self) -> Option<Lexeme> {
        let lexeme = self.lexemes.next();
        if !matches!(&lexeme, Some(Ok((_, Token::Comment(_), _)))) {
            self.asked = self.asked.saturating_add(1);
        }
        lexeme
    }
}
