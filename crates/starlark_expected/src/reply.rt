//! What a word does at a kind of token.
ghost use Rattle.std.specs.Prelude.{◌≡◌, ◌∷◌, [], if◌then◌else◌, IfOk, false, is_some};
ghost use Rattle.starlark_lexer.specs.Kinds.{is as is_kind};
ghost use Rattle.starlark_spec.specs.Machine.Firsts.{starts_test, assign_at};
ghost use Rattle.starlark_expected.specs.declared.reply.Step.TheVariants as steps;
ghost use Rattle.starlark_expected.specs.declared.word.Word.TheVariants as words;
ghost use Rattle.starlark_expected.specs.Words.{Does, Passes, takes, reply as reply_of, list_reply, block_reply, required_step};

use crate::kinds::{
    compares, is, is_assignment, is_comparison, is_element, is_operand, is_operator, is_small,
    is_test,
};
use crate::start::{
    assignment, begun, clause, element, entry, not_test, operands, simple, statement, test, unary,
};
use crate::word::{Level, Listed, Word};
use starlark_lexer::kind::Kind;
use std::alloc::AllocError;

/// What a word does.
#[derive(Clone, Copy)]
pub enum Step {
    /// The token is consumed. Whether an argument begins with it.
    Takes(bool),
    /// The word is skipped, since it may be empty.
    Passes,
    /// The token is refused.
    Refuses,
}

/// What the word does, which was the last. If it consumes the token, it pushes what is due in its place, the next word last.
///
/// `named` says that an argument began with the last token, a name. Fails if memory runs out.
pub fn reply(out: &mut Vec<Word>, word: Word, named: bool, kind: Kind) -> Result<Step, AllocError>
    ensures { IfOk result (λ step. Does (reply_of word named kind) step out.old.items out.new.items) }
{
    match word {
        Word::Token(wanted) => token(kind, wanted),
        Word::ModuleTail => module_tail(out, kind),
        Word::Statement => required(statement(out, kind)),
        Word::Suite => suite(out, kind),
        Word::NewlinesTail => optional(out, kind, Kind::Newline, Word::NewlinesTail),
        Word::BlockTail => block_tail(out, kind),
        Word::IfTail => if_tail(out, kind),
        Word::ReturnTypeTail => optional(out, kind, Kind::MinusGreater, Word::Test),
        Word::TypeTail => optional(out, kind, Kind::Colon, Word::Test),
        Word::DefaultTail => optional(out, kind, Kind::Equal, Word::Test),
        Word::StarTail => optional(out, kind, Kind::Identifier, Word::TypeTail),
        Word::LambdaStarTail => optional_token(kind, Kind::Identifier),
        Word::LineEnd => line_end(out, kind),
        Word::AfterSemicolon => after_semicolon(out, kind),
        Word::ReturnTail => tuple(out, kind),
        Word::StatementTail => statement_tail(out, kind),
        Word::Assignment => required(assignment(out, kind)),
        Word::AssignSign => assign_sign(kind),
        Word::TupleTail => optional(out, kind, Kind::Comma, Word::AfterTupleComma),
        Word::AfterTupleComma => tuple(out, kind),
        Word::SymbolsTail => optional(out, kind, Kind::Comma, Word::ListTail(Listed::Symbols)),
        Word::SymbolTail => optional(out, kind, Kind::Equal, Word::Token(Kind::String)),
        Word::Test => required(test(out, kind)),
        Word::ChoiceTail => choice_tail(out, kind),
        Word::Operands(level) => required(operands(out, level, kind)),
        Word::OperatorTail(level) => operator_tail(out, level, kind),
        Word::NotTest => required(not_test(out, kind)),
        Word::ComparisonTail => comparison_tail(out, kind),
        Word::Compared => Ok(unless(compares(kind))),
        Word::Unary => required(unary(out, kind)),
        Word::SuffixTail => suffix_tail(out, kind),
        Word::Subscript => subscript(out, kind),
        Word::SubscriptTail => subscript_tail(out, kind),
        Word::SliceTail => optional(out, kind, Kind::Colon, Word::BoundTail),
        Word::BoundTail => bound_tail(out, kind),
        Word::ListTail(list) => list_tail(out, list, kind),
        Word::CommaTail(list) => optional(out, kind, Kind::Comma, Word::AfterComma(list)),
        Word::AfterComma(list) => list_tail(out, list, kind),
        Word::NamedTail => named_tail(out, named, kind),
        Word::Square => square(out, kind),
        Word::SquareRest => square_rest(out, kind),
        Word::Curly => curly(out, kind),
        Word::CurlyRest => curly_rest(out, kind),
        Word::PartsTail => parts_tail(out, kind),
        Word::ConversionTail => optional(out, kind, Kind::FStringBang, Word::ConversionNameTail),
        Word::ConversionNameTail => optional_token(kind, Kind::Identifier),
        Word::VariablesTail => optional(out, kind, Kind::Comma, Word::AfterVariablesComma),
        Word::AfterVariablesComma => after_variables_comma(out, kind),
        Word::ClausesTail => clauses_tail(out, kind),
    }
}

/// A required part.
fn must(begins: bool) -> Step
    ensures { result ≡ (if begins then steps.Takes false else steps.Refuses) }
{
    if begins {
        Step::Takes(false)
    } else {
        Step::Refuses
    }
}

/// A part that must not come.
fn unless(comes: bool) -> Step
    ensures { result ≡ (if comes then steps.Refuses else steps.Passes) }
{
    if comes { Step::Refuses } else { Step::Passes }
}

/// A part that comes, and these words are due in its place.
fn take(out: &mut Vec<Word>, words: &[Word]) -> Result<Step, AllocError>
    ensures { IfOk result (λ step. Does (takes words.now) step out.old.items out.new.items) }
{
    begun(out, words)?;
    Ok(Step::Takes(false))
}

/// An optional part.
fn tail(out: &mut Vec<Word>, comes: bool, words: &[Word]) -> Result<Step, AllocError>
    ensures { IfOk result (λ step. Does (if comes then takes words.now else Passes) step out.old.items out.new.items) }
{
    if comes {
        take(out, words)
    } else {
        Ok(Step::Passes)
    }
}

/// An optional part that is one token of this kind. Then this word is due in its place.
fn optional(out: &mut Vec<Word>, kind: Kind, wanted: Kind, word: Word) -> Result<Step, AllocError>
    ensures { IfOk result (λ step. Does (if is_kind kind wanted then takes (word ∷ []) else Passes) step out.old.items out.new.items) }
{
    if is(kind, wanted) {
        out.push(word)?;
        return Ok(Step::Takes(false));
    }
    Ok(Step::Passes)
}

/// The same if nothing is due in its place.
fn optional_token(kind: Kind, wanted: Kind) -> Result<Step, AllocError>
    ensures { IfOk result (λ step. step ≡ (if is_kind kind wanted then steps.Takes false else steps.Passes)) }
{
    if is(kind, wanted) {
        Ok(Step::Takes(false))
    } else {
        Ok(Step::Passes)
    }
}

/// A token of this kind.
fn token(kind: Kind, wanted: Kind) -> Result<Step, AllocError>
    ensures { IfOk result (λ step. step ≡ (if is_kind kind wanted then steps.Takes false else steps.Refuses)) }
{
    Ok(must(is(kind, wanted)))
}

/// The operator of an assignment.
fn assign_sign(kind: Kind) -> Result<Step, AllocError>
    ensures { IfOk result (λ step. step ≡ (if is_some (assign_at kind) then steps.Takes false else steps.Refuses)) }
{
    Ok(must(is_assignment(kind)))
}

/// A required part that begins there or not.
fn required(begins: Result<bool, AllocError>) -> Result<Step, AllocError>
    ensures { result ≡ required_step begins }
{
    match begins {
        Ok(begins) => Ok(must(begins)),
        Err(error) => Err(error),
    }
}

/// What is due if an argument is named.
fn named_tail(out: &mut Vec<Word>, named: bool, kind: Kind) -> Result<Step, AllocError>
    ensures { IfOk result (λ step. Does (reply_of words.NamedTail named kind) step out.old.items out.new.items) }
{
    if named {
        return optional(out, kind, Kind::Equal, Word::Test);
    }
    Ok(Step::Passes)
}

fn module_tail(out: &mut Vec<Word>, kind: Kind) -> Result<Step, AllocError>
    ensures { IfOk result (λ step. Does (reply_of words.ModuleTail false kind) step out.old.items out.new.items) }
{
    if is(kind, Kind::End) {
        return Ok(Step::Passes);
    }
    if is(kind, Kind::Newline) {
        return take(out, &[Word::ModuleTail]);
    }
    out.push(Word::ModuleTail)?;
    required(statement(out, kind))
}

fn suite(out: &mut Vec<Word>, kind: Kind) -> Result<Step, AllocError>
    ensures { IfOk result (λ step. Does (reply_of words.Suite false kind) step out.old.items out.new.items) }
{
    if is(kind, Kind::Newline) {
        return take(
            out,
            &[
                Word::BlockTail,
                Word::Statement,
                Word::NewlinesTail,
                Word::Token(Kind::Indent),
                Word::NewlinesTail,
            ],
        );
    }
    required(simple(out, kind))
}

fn block_tail(out: &mut Vec<Word>, kind: Kind) -> Result<Step, AllocError>
    ensures { IfOk result (λ step. Does (block_reply kind) step out.old.items out.new.items) }
{
    match kind {
        Kind::Newline => take(out, &[Word::BlockTail]),
        Kind::Dedent => Ok(Step::Takes(false)),
        Kind::End => Ok(Step::Passes),
        _ => {
            out.push(Word::BlockTail)?;
            Ok(must(statement(out, kind)?))
        }
    }
}

fn if_tail(out: &mut Vec<Word>, kind: Kind) -> Result<Step, AllocError>
    ensures { IfOk result (λ step. Does (reply_of words.IfTail false kind) step out.old.items out.new.items) }
{
    if is(kind, Kind::Elif) {
        return take(
            out,
            &[
                Word::IfTail,
                Word::Suite,
                Word::Token(Kind::Colon),
                Word::Test,
            ],
        );
    }
    tail(
        out,
        is(kind, Kind::Else),
        &[Word::Suite, Word::Token(Kind::Colon)],
    )
}

fn line_end(out: &mut Vec<Word>, kind: Kind) -> Result<Step, AllocError>
    ensures { IfOk result (λ step. Does (reply_of words.LineEnd false kind) step out.old.items out.new.items) }
{
    if is(kind, Kind::Semicolon) {
        return take(out, &[Word::AfterSemicolon]);
    }
    Ok(must(is(kind, Kind::Newline)))
}

fn after_semicolon(out: &mut Vec<Word>, kind: Kind) -> Result<Step, AllocError>
    ensures { IfOk result (λ step. Does (reply_of words.AfterSemicolon false kind) step out.old.items out.new.items) }
{
    if is_small(kind) {
        return required(simple(out, kind));
    }
    Ok(must(is(kind, Kind::Newline)))
}

/// Expressions without delimiters around them, or nothing.
fn tuple(out: &mut Vec<Word>, kind: Kind) -> Result<Step, AllocError>
    ensures { IfOk result (λ step. Does (reply_of words.ReturnTail false kind) step out.old.items out.new.items) }
{
    if is_test(kind) {
        out.push(Word::TupleTail)?;
        return required(test(out, kind));
    }
    Ok(Step::Passes)
}

fn statement_tail(out: &mut Vec<Word>, kind: Kind) -> Result<Step, AllocError>
    ensures { IfOk result (λ step. Does (reply_of words.StatementTail false kind) step out.old.items out.new.items) }
{
    if is(kind, Kind::Comma) {
        return take(out, &[Word::Assignment, Word::AfterTupleComma]);
    }
    if is(kind, Kind::Colon) {
        return take(
            out,
            &[Word::TupleTail, Word::Test, Word::AssignSign, Word::Test],
        );
    }
    tail(out, is_assignment(kind), &[Word::TupleTail, Word::Test])
}

fn choice_tail(out: &mut Vec<Word>, kind: Kind) -> Result<Step, AllocError>
    ensures { IfOk result (λ step. Does (reply_of words.ChoiceTail false kind) step out.old.items out.new.items) }
{
    tail(
        out,
        is(kind, Kind::If),
        &[
            Word::Test,
            Word::Token(Kind::Else),
            Word::Operands(Level::Or),
        ],
    )
}

fn operator_tail(out: &mut Vec<Word>, level: Level, kind: Kind) -> Result<Step, AllocError>
    ensures { IfOk result (λ step. Does (reply_of (words.OperatorTail level) false kind) step out.old.items out.new.items) }
{
    let operand = match level {
        Level::Or => Word::Operands(Level::And),
        Level::And => Word::NotTest,
        Level::BitOr => Word::Operands(Level::Xor),
        Level::Xor => Word::Operands(Level::BitAnd),
        Level::BitAnd => Word::Operands(Level::Shift),
        Level::Shift => Word::Operands(Level::Add),
        Level::Add => Word::Operands(Level::Multiply),
        Level::Multiply => Word::Unary,
    };
    tail(
        out,
        is_operator(level, kind),
        &[Word::OperatorTail(level), operand],
    )
}

fn comparison_tail(out: &mut Vec<Word>, kind: Kind) -> Result<Step, AllocError>
    ensures { IfOk result (λ step. Does (reply_of words.ComparisonTail false kind) step out.old.items out.new.items) }
{
    if is_comparison(kind) {
        return take(out, &[Word::Compared, Word::Operands(Level::BitOr)]);
    }
    tail(
        out,
        is(kind, Kind::Not),
        &[
            Word::Compared,
            Word::Operands(Level::BitOr),
            Word::Token(Kind::In),
        ],
    )
}

fn suffix_tail(out: &mut Vec<Word>, kind: Kind) -> Result<Step, AllocError>
    ensures { IfOk result (λ step. Does (reply_of words.SuffixTail false kind) step out.old.items out.new.items) }
{
    if is(kind, Kind::Dot) {
        return take(out, &[Word::SuffixTail, Word::Token(Kind::Identifier)]);
    }
    if is(kind, Kind::OpeningSquare) {
        return take(
            out,
            &[
                Word::SuffixTail,
                Word::Token(Kind::ClosingSquare),
                Word::Subscript,
            ],
        );
    }
    tail(
        out,
        is(kind, Kind::OpeningRound),
        &[
            Word::SuffixTail,
            Word::Token(Kind::ClosingRound),
            Word::ListTail(Listed::Arguments),
        ],
    )
}

fn subscript(out: &mut Vec<Word>, kind: Kind) -> Result<Step, AllocError>
    ensures { IfOk result (λ step. Does (reply_of words.Subscript false kind) step out.old.items out.new.items) }
{
    if is_test(kind) {
        out.push(Word::SubscriptTail)?;
        return required(test(out, kind));
    }
    if is(kind, Kind::Colon) {
        return take(out, &[Word::SliceTail, Word::BoundTail]);
    }
    Ok(Step::Refuses)
}

fn subscript_tail(out: &mut Vec<Word>, kind: Kind) -> Result<Step, AllocError>
    ensures { IfOk result (λ step. Does (reply_of words.SubscriptTail false kind) step out.old.items out.new.items) }
{
    if is(kind, Kind::Comma) {
        return take(out, &[Word::Test]);
    }
    tail(
        out,
        is(kind, Kind::Colon),
        &[Word::SliceTail, Word::BoundTail],
    )
}

fn bound_tail(out: &mut Vec<Word>, kind: Kind) -> Result<Step, AllocError>
    ensures { IfOk result (λ step. Does (reply_of words.BoundTail false kind) step out.old.items out.new.items) }
{
    if is_test(kind) {
        return required(test(out, kind));
    }
    Ok(Step::Passes)
}

/// Elements of a list, or nothing.
fn list_tail(out: &mut Vec<Word>, list: Listed, kind: Kind) -> Result<Step, AllocError>
    ensures { IfOk result (λ step. Does (list_reply list kind) step out.old.items out.new.items) }
{
    if !is_element(list, kind) {
        return Ok(Step::Passes);
    }
    out.push(Word::CommaTail(list))?;
    if element(out, list, kind)? {
        Ok(Step::Takes(matches!(list, Listed::Arguments)))
    } else {
        Ok(Step::Refuses)
    }
}

fn square(out: &mut Vec<Word>, kind: Kind) -> Result<Step, AllocError>
    ensures { IfOk result (λ step. Does (reply_of words.Square false kind) step out.old.items out.new.items) }
{
    if is_test(kind) {
        out.push(Word::SquareRest)?;
        return required(test(out, kind));
    }
    Ok(must(is(kind, Kind::ClosingSquare)))
}

fn square_rest(out: &mut Vec<Word>, kind: Kind) -> Result<Step, AllocError>
    ensures { IfOk result (λ step. Does (reply_of words.SquareRest false kind) step out.old.items out.new.items) }
{
    if is(kind, Kind::Comma) {
        return take(
            out,
            &[
                Word::Token(Kind::ClosingSquare),
                Word::AfterComma(Listed::Elements),
            ],
        );
    }
    if is(kind, Kind::For) {
        begun(out, &[Word::Token(Kind::ClosingSquare), Word::ClausesTail])?;
        return required(clause(out, kind));
    }
    Ok(must(is(kind, Kind::ClosingSquare)))
}

fn curly(out: &mut Vec<Word>, kind: Kind) -> Result<Step, AllocError>
    ensures { IfOk result (λ step. Does (reply_of words.Curly false kind) step out.old.items out.new.items) }
{
    if is_test(kind) {
        out.push(Word::CurlyRest)?;
        return required(entry(out, kind));
    }
    Ok(must(is(kind, Kind::ClosingCurly)))
}

fn curly_rest(out: &mut Vec<Word>, kind: Kind) -> Result<Step, AllocError>
    ensures { IfOk result (λ step. Does (reply_of words.CurlyRest false kind) step out.old.items out.new.items) }
{
    if is(kind, Kind::Comma) {
        return take(
            out,
            &[
                Word::Token(Kind::ClosingCurly),
                Word::AfterComma(Listed::Entries),
            ],
        );
    }
    if is(kind, Kind::For) {
        begun(out, &[Word::Token(Kind::ClosingCurly), Word::ClausesTail])?;
        return required(clause(out, kind));
    }
    Ok(must(is(kind, Kind::ClosingCurly)))
}

fn parts_tail(out: &mut Vec<Word>, kind: Kind) -> Result<Step, AllocError>
    ensures { IfOk result (λ step. Does (reply_of words.PartsTail false kind) step out.old.items out.new.items) }
{
    if is(kind, Kind::FStringText) {
        return take(out, &[Word::PartsTail]);
    }
    tail(
        out,
        is(kind, Kind::FStringExprStart),
        &[
            Word::PartsTail,
            Word::Token(Kind::FStringExprEnd),
            Word::ConversionTail,
            Word::Test,
        ],
    )
}

fn after_variables_comma(out: &mut Vec<Word>, kind: Kind) -> Result<Step, AllocError>
    ensures { IfOk result (λ step. Does (reply_of words.AfterVariablesComma false kind) step out.old.items out.new.items) }
{
    if is_operand(kind) {
        out.push(Word::VariablesTail)?;
        return required(operands(out, Level::BitOr, kind));
    }
    Ok(unless(is(kind, Kind::Not)))
}

fn clauses_tail(out: &mut Vec<Word>, kind: Kind) -> Result<Step, AllocError>
    ensures { IfOk result (λ step. Does (reply_of words.ClausesTail false kind) step out.old.items out.new.items) }
{
    if is(kind, Kind::For) {
        out.push(Word::ClausesTail)?;
        return required(clause(out, kind));
    }
    tail(
        out,
        is(kind, Kind::If),
        &[Word::ClausesTail, Word::Operands(Level::Or)],
    )
}
