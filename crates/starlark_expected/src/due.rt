//! What is due after the tokens that were consumed.
ghost use Rattle.std.specs.Prelude.{◌≡◌, reverse, false, [], ◌∷◌, IfOk};
ghost use Rattle.starlark_expected.specs.declared.word.Word.TheVariants as words;
ghost use Rattle.starlark_expected.specs.Words.{outcome, named_by};
ghost use Rattle.starlark_expected.specs.MayFollow.{IsSaid, TakesAt};

use crate::kinds::is;
use crate::reply::{Step, reply};
use crate::word::Word;
use starlark_lexer::kind::Kind;
use std::alloc::{AllocError, Global};

/// What the words that are due do at a kind of token.
#[derive(Clone, Copy)]
pub enum Says {
    /// It is consumed.
    Takes,
    /// It is refused.
    Refuses,
    /// Nothing required is due.
    Whole,
}

/// The words that are due, the next last.
#[derive(Drop)]
pub struct Due {
    pub words: Vec<Word>,
    /// Whether an argument began with the last token, a name.
    pub named: bool,
}

impl Due {
    /// What is due before any token is consumed.
    ///
    /// Fails if memory runs out.
    pub fn new(alloc: Global) -> Result<Due, AllocError>
        ensures words { IfOk result (λ due. due.words.items ≡ words.ModuleTail ∷ []) }
        ensures named { IfOk result (λ due. due.named ≡ false) }
    {
        let mut words = Vec::new(alloc);
        words.push(Word::ModuleTail)?;
        Ok(Due {
            words,
            named: false,
        })
    }

    /// Consumes a token of the kind, if it continues some program, and returns whether it does. Otherwise what is due is lost.
    ///
    /// Fails if memory runs out.
    pub fn take(&mut self, kind: Kind) -> Result<bool, AllocError>
        ensures { IfOk result (λ taken. TakesAt self.old.words.items self.old.named kind taken self.new.words.items self.new.named) }
    {
        while let Some(word) = self.words.pop() {
            match reply(&mut self.words, word, self.named, kind)? {
                Step::Takes(argument) => {
                    self.named = is_named(argument, kind);
                    return Ok(true);
                }
                Step::Passes => {}
                Step::Refuses => return Ok(false),
            }
        }
        Ok(false)
    }
}

/// Whether an argument is a name so far, if its first token is consumed.
fn is_named(argument: bool, kind: Kind) -> bool
    ensures { result ≡ named_by argument kind }
{
    argument && is(kind, Kind::Identifier)
}

/// What these words, the next last, do at a kind of token. `scratch` is overwritten.
///
/// Fails if memory runs out.
pub fn ask(
    words: &[Word],
    named: bool,
    kind: Kind,
    scratch: &mut Vec<Word>,
) -> Result<Says, AllocError>
    ensures { IfOk result (λ says. IsSaid (outcome (reverse words.now) named kind) says) }
{
    let mut rest = words;
    while let Some((word, others)) = rest.split_last() {
        scratch.clear();
        match reply(scratch, *word, named, kind)? {
            Step::Takes(_) => return Ok(Says::Takes),
            Step::Passes => rest = others,
            Step::Refuses => return Ok(Says::Refuses),
        }
    }
    Ok(Says::Whole)
}
