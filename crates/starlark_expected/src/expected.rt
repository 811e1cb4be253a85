//! The kinds of tokens that may follow.
ghost use Rattle.std.specs.Prelude.{◌≡◌, reverse, IfOk, IfSome, IfNone};
ghost use Rattle.starlark_spec.specs.Program.{BeginsProgram};
ghost use Rattle.starlark_expected.specs.Words.{outcome};
ghost use Rattle.starlark_expected.specs.MayFollow.{Decides, IsExpected, IsTook, Chosen, takes_so, whole_so, seen_of, seen_by, tokens_of};

use crate::due::{Due, Says, ask};
pub use crate::set::Expected;
use crate::word::Word;
use starlark_lexer::kind::{Kind, kind_of};
use starlark_lexer::token::Lexeme;
use std::alloc::{AllocError, Global};

/// What may follow the tokens of the lexemes up to the first error, ignoring comments. It is exact: a kind is in it exactly if some
/// program begins with the tokens and then a token of that kind, whatever its contents; and the end exactly if they are a program.
///
/// `None` if no program begins with the tokens. Fails if memory runs out.
pub fn expected(alloc: Global, lexemes: &[Lexeme]) -> Result<Option<Expected>, AllocError>
    ensures exact { IfOk result (λ found. IfSome found (λ e. IsExpected (tokens_of lexemes.now) e.kinds.items e.is_end)) }
    ensures none { IfOk result (λ found. IfNone found (¬ BeginsProgram (tokens_of lexemes.now))) }
{
    let due = match read(alloc, lexemes)? {
        Some(due) => due,
        None => return Ok(None),
    };
    let mut scratch = Vec::new(alloc);
    let kinds = following(alloc, &due, &KINDS, &mut scratch)?;
    let is_end = is_whole(ask(&due.words, due.named, Kind::End, &mut scratch)?);
    Ok(Some(Expected { kinds, is_end }))
}

/// What is due after the tokens.
fn read(alloc: Global, lexemes: &[Lexeme]) -> Result<Option<Due>, AllocError>
    ensures decides { IfOk result (λ read. IfSome read (λ due. Decides (tokens_of lexemes.now) (reverse due.words.items) due.named)) }
    ensures none { IfOk result (λ read. IfNone read (¬ BeginsProgram (tokens_of lexemes.now))) }
{
    let mut due = Due::new(alloc)?;
    for lexeme in lexemes {
        match seen(lexeme) {
            Sort::Error => return Ok(Some(due)),
            Sort::Comment => {}
            Sort::Token(kind) => {
                if !due.take(kind)? {
                    return Ok(None);
                }
            }
        }
    }
    Ok(Some(due))
}

/// What is seen of a lexeme.
#[derive(Clone, Copy)]
enum Sort {
    /// A token of the kind.
    Token(Kind),
    Comment,
    Error,
}

fn seen(lexeme: &Lexeme) -> Sort
    ensures { result ≡ seen_of lexeme.now }
{
    match lexeme {
        Err(_) => Sort::Error,
        Ok((_, token, _)) => seen_kind(kind_of(token)),
    }
}

fn seen_kind(kind: Kind) -> Sort
    ensures { result ≡ seen_by kind }
{
    match kind {
        Kind::Comment => Sort::Comment,
        _ => Sort::Token(kind),
    }
}

/// Those of these kinds of which a token is consumed.
fn following(
    alloc: Global,
    due: &Due,
    all: &[Kind],
    scratch: &mut Vec<Word>,
) -> Result<Vec<Kind>, AllocError>
    ensures { IfOk result (λ kinds. Chosen (λ kind. IsTook (outcome (reverse due.now.words.items) due.now.named kind)) all.now kinds.items) }
{
    let mut kinds = Vec::new(alloc);
    for kind in all {
        if takes(ask(&due.words, due.named, *kind, scratch)?) {
            kinds.push(*kind)?;
        }
    }
    Ok(kinds)
}

fn is_whole(says: Says) -> bool
    ensures { result ≡ whole_so says }
{
    matches!(says, Says::Whole)
}

fn takes(says: Says) -> bool
    ensures { result ≡ takes_so says }
{
    matches!(says, Says::Takes)
}

/// All kinds, in their order.
const KINDS: [Kind; 75] = [
    Kind::Identifier,
    Kind::Int,
    Kind::Float,
    Kind::String,
    Kind::Bytes,
    Kind::Comment,
    Kind::Newline,
    Kind::Indent,
    Kind::Dedent,
    Kind::FStringStart,
    Kind::FStringText,
    Kind::FStringExprStart,
    Kind::FStringBang,
    Kind::FStringExprEnd,
    Kind::FStringEnd,
    Kind::And,
    Kind::Break,
    Kind::Continue,
    Kind::Def,
    Kind::Elif,
    Kind::Else,
    Kind::For,
    Kind::If,
    Kind::In,
    Kind::Lambda,
    Kind::Load,
    Kind::Not,
    Kind::Or,
    Kind::Pass,
    Kind::Return,
    Kind::Comma,
    Kind::Semicolon,
    Kind::Colon,
    Kind::Dot,
    Kind::Ellipsis,
    Kind::MinusGreater,
    Kind::OpeningRound,
    Kind::ClosingRound,
    Kind::OpeningSquare,
    Kind::ClosingSquare,
    Kind::OpeningCurly,
    Kind::ClosingCurly,
    Kind::Plus,
    Kind::Minus,
    Kind::Star,
    Kind::Slash,
    Kind::SlashSlash,
    Kind::Percent,
    Kind::StarStar,
    Kind::Ampersand,
    Kind::Pipe,
    Kind::Caret,
    Kind::Tilde,
    Kind::LessLess,
    Kind::GreaterGreater,
    Kind::LessThan,
    Kind::GreaterThan,
    Kind::LessEqual,
    Kind::GreaterEqual,
    Kind::EqualEqual,
    Kind::BangEqual,
    Kind::Equal,
    Kind::PlusEqual,
    Kind::MinusEqual,
    Kind::StarEqual,
    Kind::SlashEqual,
    Kind::SlashSlashEqual,
    Kind::PercentEqual,
    Kind::AmpersandEqual,
    Kind::PipeEqual,
    Kind::CaretEqual,
    Kind::LessLessEqual,
    Kind::GreaterGreaterEqual,
    Kind::Fault,
    Kind::End,
];
