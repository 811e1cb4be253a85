//! What is due once the first token of a part of a program is consumed.
//!
//! Each function pushes that, the next word last, and returns whether the part begins with a token of the kind. If it does not, what was
//! pushed is meaningless.
ghost use Rattle.std.specs.Prelude.{◌≡◌, ◌++◌, true, IfOk};
ghost use Rattle.starlark_lexer.specs.declared.kind.Kind.TheVariants as kinds;
ghost use Rattle.starlark_expected.specs.Words.{Begins, atom_start, primary_start, unary_start, not_start, test_start};
ghost use Rattle.starlark_expected.specs.Words.{operands_start, level, argument_start, entry_start, lambda_param_start, symbol_start};
ghost use Rattle.starlark_expected.specs.Words.{def_param_start, element_start, elements_of, clause_start, small_start, simple_start};
ghost use Rattle.starlark_expected.specs.Words.{statement_start, assign_start, operator_tails, loose};

use crate::kinds::{is, is_assignment};
use crate::word::{Level, Listed, Word};
use starlark_lexer::kind::Kind;
use std::alloc::AllocError;

/// Pushes words.
pub fn begun(out: &mut Vec<Word>, words: &[Word]) -> Result<bool, AllocError>
    ensures begins { IfOk result (λ begins. begins ≡ true) }
    ensures pushes { IfOk result (λ _. out.new.items ≡ out.old.items ++ words.now) }
{
    out.extend_from_slice(words)?;
    Ok(true)
}

fn atom(out: &mut Vec<Word>, kind: Kind) -> Result<bool, AllocError>
    ensures { IfOk result (λ begins. Begins (atom_start kind) begins out.old.items out.new.items) }
{
    match kind {
        Kind::Identifier | Kind::Int | Kind::Float | Kind::String | Kind::Bytes | Kind::Ellipsis =>
            Ok(true),
        Kind::OpeningRound => begun(
            out,
            &[
                Word::Token(Kind::ClosingRound),
                Word::ListTail(Listed::Elements),
            ],
        ),
        Kind::OpeningSquare => begun(out, &[Word::Square]),
        Kind::OpeningCurly => begun(out, &[Word::Curly]),
        Kind::FStringStart => begun(out, &[Word::Token(Kind::FStringEnd), Word::PartsTail]),
        _ => Ok(false),
    }
}

/// An operand with its suffixes.
fn primary(out: &mut Vec<Word>, kind: Kind) -> Result<bool, AllocError>
    ensures { IfOk result (λ begins. Begins (primary_start kind) begins out.old.items out.new.items) }
{
    out.push(Word::SuffixTail)?;
    atom(out, kind)
}

/// An operand with the unary operators before it.
pub fn unary(out: &mut Vec<Word>, kind: Kind) -> Result<bool, AllocError>
    ensures { IfOk result (λ begins. Begins (unary_start kind) begins out.old.items out.new.items) }
{
    match kind {
        Kind::Plus | Kind::Minus | Kind::Tilde => begun(out, &[Word::Unary]),
        _ => primary(out, kind),
    }
}

/// What may come after an operand of the level, the outermost first, up to an operand that may begin with `not` or a unary operator.
fn tails(of: Level) -> &'static [Word]
    ensures { result.now ≡ operator_tails of }
{
    match of {
        Level::Or => &[
            Word::OperatorTail(Level::Or),
            Word::OperatorTail(Level::And),
        ],
        Level::And => &[Word::OperatorTail(Level::And)],
        Level::BitOr => &[
            Word::OperatorTail(Level::BitOr),
            Word::OperatorTail(Level::Xor),
            Word::OperatorTail(Level::BitAnd),
            Word::OperatorTail(Level::Shift),
            Word::OperatorTail(Level::Add),
            Word::OperatorTail(Level::Multiply),
        ],
        Level::Xor => &[
            Word::OperatorTail(Level::Xor),
            Word::OperatorTail(Level::BitAnd),
            Word::OperatorTail(Level::Shift),
            Word::OperatorTail(Level::Add),
            Word::OperatorTail(Level::Multiply),
        ],
        Level::BitAnd => &[
            Word::OperatorTail(Level::BitAnd),
            Word::OperatorTail(Level::Shift),
            Word::OperatorTail(Level::Add),
            Word::OperatorTail(Level::Multiply),
        ],
        Level::Shift => &[
            Word::OperatorTail(Level::Shift),
            Word::OperatorTail(Level::Add),
            Word::OperatorTail(Level::Multiply),
        ],
        Level::Add => &[
            Word::OperatorTail(Level::Add),
            Word::OperatorTail(Level::Multiply),
        ],
        Level::Multiply => &[Word::OperatorTail(Level::Multiply)],
    }
}

/// A comparison, with the `not`s before it.
pub fn not_test(out: &mut Vec<Word>, kind: Kind) -> Result<bool, AllocError>
    ensures { IfOk result (λ begins. Begins (not_start kind) begins out.old.items out.new.items) }
{
    if is(kind, Kind::Not) {
        return begun(out, &[Word::NotTest]);
    }
    out.push(Word::ComparisonTail)?;
    begun(out, tails(Level::BitOr))?;
    unary(out, kind)
}

/// Operands with the binary operators of this level between them.
pub fn operands(out: &mut Vec<Word>, of: Level, kind: Kind) -> Result<bool, AllocError>
    ensures { IfOk result (λ begins. Begins (operands_start (level of) kind) begins out.old.items out.new.items) }
{
    begun(out, tails(of))?;
    if is_loose(of) {
        not_test(out, kind)
    } else {
        unary(out, kind)
    }
}

/// Whether the level binds more loosely than `not`.
fn is_loose(of: Level) -> bool
    ensures { result ≡ loose of }
{
    matches!(of, Level::Or | Level::And)
}

/// An expression.
pub fn test(out: &mut Vec<Word>, kind: Kind) -> Result<bool, AllocError>
    ensures { IfOk result (λ begins. Begins (test_start kind) begins out.old.items out.new.items) }
{
    if is(kind, Kind::Lambda) {
        return begun(
            out,
            &[
                Word::Test,
                Word::Token(Kind::Colon),
                Word::ListTail(Listed::LambdaParameters),
            ],
        );
    }
    out.push(Word::ChoiceTail)?;
    operands(out, Level::Or, kind)
}

fn argument(out: &mut Vec<Word>, kind: Kind) -> Result<bool, AllocError>
    ensures { IfOk result (λ begins. Begins (argument_start kind) begins out.old.items out.new.items) }
{
    if is(kind, Kind::Star) {
        return begun(out, &[Word::Test]);
    }
    if is(kind, Kind::StarStar) {
        return begun(out, &[Word::Test]);
    }
    out.push(Word::NamedTail)?;
    test(out, kind)
}

/// A key and a value of a dictionary.
pub fn entry(out: &mut Vec<Word>, kind: Kind) -> Result<bool, AllocError>
    ensures { IfOk result (λ begins. Begins (entry_start kind) begins out.old.items out.new.items) }
{
    begun(out, &[Word::Test, Word::Token(Kind::Colon)])?;
    test(out, kind)
}

fn lambda_parameter(out: &mut Vec<Word>, kind: Kind) -> Result<bool, AllocError>
    ensures { IfOk result (λ begins. Begins (lambda_param_start kind) begins out.old.items out.new.items) }
{
    match kind {
        Kind::Slash => Ok(true),
        Kind::Star => begun(out, &[Word::LambdaStarTail]),
        Kind::StarStar => begun(out, &[Word::Token(Kind::Identifier)]),
        Kind::Identifier => begun(out, &[Word::DefaultTail]),
        _ => Ok(false),
    }
}

/// What a `load` loads.
fn symbol(out: &mut Vec<Word>, kind: Kind) -> Result<bool, AllocError>
    ensures { IfOk result (λ begins. Begins (symbol_start kind) begins out.old.items out.new.items) }
{
    match kind {
        Kind::String => Ok(true),
        Kind::Identifier => begun(out, &[Word::SymbolTail]),
        _ => Ok(false),
    }
}

fn def_parameter(out: &mut Vec<Word>, kind: Kind) -> Result<bool, AllocError>
    ensures { IfOk result (λ begins. Begins (def_param_start kind) begins out.old.items out.new.items) }
{
    match kind {
        Kind::Slash => Ok(true),
        Kind::Star => begun(out, &[Word::StarTail]),
        Kind::StarStar => begun(out, &[Word::TypeTail, Word::Token(Kind::Identifier)]),
        Kind::Identifier => begun(out, &[Word::DefaultTail, Word::TypeTail]),
        _ => Ok(false),
    }
}

/// An element of a list of this kind.
pub fn element(out: &mut Vec<Word>, list: Listed, kind: Kind) -> Result<bool, AllocError>
    ensures { IfOk result (λ begins. Begins (element_start (elements_of list) kind) begins out.old.items out.new.items) }
{
    match list {
        Listed::Elements => test(out, kind),
        Listed::Arguments => argument(out, kind),
        Listed::Entries => entry(out, kind),
        Listed::LambdaParameters => lambda_parameter(out, kind),
        Listed::Symbols => symbol(out, kind),
        Listed::DefParameters => def_parameter(out, kind),
    }
}

/// A `for` of a comprehension.
pub fn clause(out: &mut Vec<Word>, kind: Kind) -> Result<bool, AllocError>
    ensures { IfOk result (λ begins. Begins (clause_start kind) begins out.old.items out.new.items) }
{
    if is(kind, Kind::For) {
        begun(
            out,
            &[
                Word::Operands(Level::Or),
                Word::Token(Kind::In),
                Word::VariablesTail,
                Word::Operands(Level::BitOr),
            ],
        )
    } else {
        Ok(false)
    }
}

fn small(out: &mut Vec<Word>, kind: Kind) -> Result<bool, AllocError>
    ensures { IfOk result (λ begins. Begins (small_start kind) begins out.old.items out.new.items) }
{
    match kind {
        Kind::Return => begun(out, &[Word::ReturnTail]),
        Kind::Break | Kind::Continue | Kind::Pass => Ok(true),
        Kind::Load => begun(
            out,
            &[
                Word::Token(Kind::ClosingRound),
                Word::SymbolsTail,
                Word::Token(Kind::String),
                Word::Token(Kind::OpeningRound),
            ],
        ),
        _ => {
            out.push(Word::StatementTail)?;
            test(out, kind)
        }
    }
}

/// A line of small statements.
pub fn simple(out: &mut Vec<Word>, kind: Kind) -> Result<bool, AllocError>
    ensures { IfOk result (λ begins. Begins (simple_start kind) begins out.old.items out.new.items) }
{
    out.push(Word::LineEnd)?;
    small(out, kind)
}

/// What comes after `def`.
fn signature(out: &mut Vec<Word>) -> Result<bool, AllocError>
    ensures { IfOk result (λ begins. Begins (statement_start kinds.Def) begins out.old.items out.new.items) }
{
    begun(
        out,
        &[Word::Suite, Word::Token(Kind::Colon), Word::ReturnTypeTail],
    )?;
    begun(
        out,
        &[
            Word::Token(Kind::ClosingRound),
            Word::ListTail(Listed::DefParameters),
            Word::Token(Kind::OpeningRound),
            Word::Token(Kind::Identifier),
        ],
    )
}

/// A statement.
pub fn statement(out: &mut Vec<Word>, kind: Kind) -> Result<bool, AllocError>
    ensures { IfOk result (λ begins. Begins (statement_start kind) begins out.old.items out.new.items) }
{
    match kind {
        Kind::Def => signature(out),
        Kind::If => begun(
            out,
            &[
                Word::IfTail,
                Word::Suite,
                Word::Token(Kind::Colon),
                Word::Test,
            ],
        ),
        Kind::For => begun(
            out,
            &[
                Word::Suite,
                Word::Token(Kind::Colon),
                Word::Test,
                Word::Token(Kind::In),
                Word::VariablesTail,
                Word::Operands(Level::BitOr),
            ],
        ),
        _ => simple(out, kind),
    }
}

/// The type of a target and the operator of an assignment, or only the operator.
pub fn assignment(out: &mut Vec<Word>, kind: Kind) -> Result<bool, AllocError>
    ensures { IfOk result (λ begins. Begins (assign_start kind) begins out.old.items out.new.items) }
{
    if is(kind, Kind::Colon) {
        begun(
            out,
            &[Word::TupleTail, Word::Test, Word::AssignSign, Word::Test],
        )
    } else if is_assignment(kind) {
        begun(out, &[Word::TupleTail, Word::Test])
    } else {
        Ok(false)
    }
}
