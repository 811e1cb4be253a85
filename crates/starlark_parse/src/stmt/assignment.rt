//! Expressions as statements, and assignments (Starlark specification, "Assignments", "Augmented assignments").
ghost use Rattle.std.specs.Prelude.{◌≡◌, ◌≤◌, ◌++◌, ◌∷◌, [], true, OnOk};
ghost use Rattle.starlark_lexer.specs.Kinds.{is};
ghost use Rattle.starlark_lexer.specs.declared.kind.Kind.TheVariants as kinds;
ghost use Rattle.starlark_tree.specs.Views.{expression_of, word};
ghost use Rattle.starlark_parse_held.specs.Held.{statements_in};
ghost use Rattle.starlark_spec.specs.Machine.Firsts.{is_leaf};
ghost use Rattle.starlark_spec.specs.Machine.Sight.{look_at};
ghost use Rattle.starlark_parse_cursor.specs.Reading.{at, begin_at, Ready};
ghost use Rattle.starlark_parse_cursor.specs.Contract.{MayMove, MovesOn};
ghost use Rattle.starlark_parse.specs.Stmt.Lines as lines;
ghost use Rattle.starlark_parse.specs.Stmt.Lines.{ParsesAssigned, ParsesAssignment, ParsesSmallFrom, ParsesStatementEnd, TakesAssignOperator};
ghost use Rattle.starlark_parse.specs.Stmt.Lines.{assigned_to, small_list_due};

use crate::expr::atom::{leaf_of, leaf_tree};
use crate::stmt::annotation::annotation;
use crate::stmt::test_list::{TestList, test_list, test_list_after};
use starlark_lexer::kind::Kind;
use starlark_lexer::span::{Pos, Span, Spanned};
use starlark_lexer::token::Lexeme;
use starlark_parse_build::check::assignment::add_assignment;
use starlark_parse_build::expression::identifier;
use starlark_parse_build::parameter::assigned;
use starlark_parse_build::statement::expression_statement;
use starlark_parse_cursor::cursor::Cursor;
use starlark_parse_cursor::token::take_name;
use starlark_parse_held::{HeldExpr, HeldStmts};
use starlark_spec::refusal::Refusal;
use starlark_tree::ast::{AssignOp, AssignP, AssignTarget, AstExpr, AstString, Stmt};
use std::alloc::{AllocError, Global};

/// Adds an expression as a statement, or an assignment.
pub fn expression_or_assignment<I: Iterator<Item = Lexeme>>(
    alloc: Global,
    cursor: &mut Cursor<I>,
    statements: &mut HeldStmts,
) -> Result<(), Refusal>
    requires ready { Ready I.can_next I.remaining I.next_gives (at cursor.old) }
    ensures moves { MovesOn I.can_next I.remaining I.next_gives cursor.old result cursor.new }
    ensures parses { ParsesSmallFrom I.next_gives small_list_due (begin_at (at cursor.old)) statements.old statements.new (at cursor.old) result
        (at cursor.new) }
{
    if cursor.at(Kind::Identifier) {
        return name_first(alloc, cursor, statements);
    }
    let begin = cursor.begin();
    let list = test_list(alloc, cursor)?;
    after_list(alloc, cursor, statements, list, begin)
}

/// Adds an expression as a statement, or an assignment, that begins with a name: `=` after it makes that the target.
#[inline(never)]
fn name_first<I: Iterator<Item = Lexeme>>(
    alloc: Global,
    cursor: &mut Cursor<I>,
    statements: &mut HeldStmts,
) -> Result<(), Refusal>
    requires name { is (look_at (at cursor.old).sight).kind kinds.Identifier ≡ true }
    requires ready { Ready I.can_next I.remaining I.next_gives (at cursor.old) }
    ensures moves { MovesOn I.can_next I.remaining I.next_gives cursor.old result cursor.new }
    ensures parses { ParsesSmallFrom I.next_gives small_list_due (begin_at (at cursor.old)) statements.old statements.new (at cursor.old) result
        (at cursor.new) }
{
    let name = take_name(cursor)?;
    let begin = name.span.begin();
    if let Some(_sign) = cursor.take_if(Kind::Equal) {
        return assigned_to_name(alloc, cursor, statements, name);
    }
    let atom = identifier(alloc, name)?;
    let list = test_list_after(alloc, cursor, atom, begin)?;
    after_list(alloc, cursor, statements, list, begin)
}

/// Adds the assignment of what comes after a name and `=`.
#[inline(never)]
fn assigned_to_name<I: Iterator<Item = Lexeme>>(
    alloc: Global,
    cursor: &mut Cursor<I>,
    statements: &mut HeldStmts,
    name: AstString,
) -> Result<(), Refusal>
    requires begins { name.span.begin.byte ≤ cursor.old.end.byte }
    requires ready { Ready I.can_next I.remaining I.next_gives (at cursor.old) }
    ensures moves { MovesOn I.can_next I.remaining I.next_gives cursor.old result cursor.new }
    ensures parses { ParsesAssigned I.next_gives (word name) statements.old statements.new (at cursor.old) result (at cursor.new) }
{
    if cursor.at_leaf() {
        return leaf_assigned(alloc, cursor, statements, name);
    }
    let right = test_list(alloc, cursor)?;
    Ok(add_assigned(statements, name, right.expression.into_tree(), cursor.end)?)
}

/// The same when an atom of one token comes: usually it is the value, and its line ends.
#[inline(never)]
fn leaf_assigned<I: Iterator<Item = Lexeme>>(
    alloc: Global,
    cursor: &mut Cursor<I>,
    statements: &mut HeldStmts,
    name: AstString,
) -> Result<(), Refusal>
    requires leaf { is_leaf (look_at (at cursor.old).sight).kind ≡ true }
    requires begins { name.span.begin.byte ≤ cursor.old.end.byte }
    requires ready { Ready I.can_next I.remaining I.next_gives (at cursor.old) }
    ensures moves { MovesOn I.can_next I.remaining I.next_gives cursor.old result cursor.new }
    ensures parses { ParsesAssigned I.next_gives (word name) statements.old statements.new (at cursor.old) result (at cursor.new) }
{
    let Some((token, span)) = cursor.take() else {
        return Err(cursor.refusal());
    };
    if cursor.at(Kind::Newline) {
        let value = leaf_tree(token, span)?;
        return Ok(add_assigned(statements, name, value.into_tree(), cursor.end)?);
    }
    let atom = leaf_of(alloc, token, span)?;
    let right = test_list_after(alloc, cursor, atom, span.begin())?;
    Ok(add_assigned(statements, name, right.expression.into_tree(), cursor.end)?)
}

/// Adds the assignment of a value to a name, which ends at `end`.
#[inline(always)]
fn add_assigned(
    statements: &mut HeldStmts,
    name: AstString,
    value: AstExpr,
    end: Pos,
) -> Result<(), AllocError>
    requires { name.span.begin.byte ≤ end.byte }
    ensures { OnOk result (statements_in statements.new ≡ statements_in statements.old ++ assigned_to (word name) end.byte (expression_of value) ∷ []) }
{
    let span = name.span;
    let lhs = Spanned {
        node: AssignTarget::Identifier(assigned(name)),
        span,
    };
    let node = Stmt::Assign(AssignP {
        lhs,
        ty: None,
        rhs: value,
    });
    statements.add(node, Span::new(span.begin(), end))
}

/// Adds the result of a list that began at `begin`: an expression as a statement, or the left side of an assignment, which follows.
fn after_list<I: Iterator<Item = Lexeme>>(
    alloc: Global,
    cursor: &mut Cursor<I>,
    statements: &mut HeldStmts,
    list: TestList,
    begin: Pos,
) -> Result<(), Refusal>
    requires begins { begin.byte ≤ cursor.old.end.byte }
    requires ready { Ready I.can_next I.remaining I.next_gives (at cursor.old) }
    ensures moves { MayMove I.can_next I.remaining I.next_gives cursor.old result cursor.new }
    ensures parses { ParsesStatementEnd I.next_gives list begin.byte statements.old statements.new (at cursor.old) result (at cursor.new) }
{
    if assigns(cursor.kind()) {
        return assignment_to(alloc, cursor, statements, list.expression, begin);
    }
    if list.several {
        return Err(cursor.refusal());
    }
    Ok(expression_statement(statements, list.expression, begin, cursor.end)?)
}

/// Adds an assignment, whose left side is followed by an optional type, the operator, and the right side.
#[inline(never)]
fn assignment_to<I: Iterator<Item = Lexeme>>(
    alloc: Global,
    cursor: &mut Cursor<I>,
    statements: &mut HeldStmts,
    left: HeldExpr,
    begin: Pos,
) -> Result<(), Refusal>
    requires comes { lines.assigns (look_at (at cursor.old).sight).kind ≡ true }
    requires begins { begin.byte ≤ cursor.old.end.byte }
    requires ready { Ready I.can_next I.remaining I.next_gives (at cursor.old) }
    ensures moves { MayMove I.can_next I.remaining I.next_gives cursor.old result cursor.new }
    ensures parses { ParsesAssignment I.next_gives left begin.byte statements.old statements.new (at cursor.old) result (at cursor.new) }
{
    let annotation = annotation(alloc, cursor)?;
    let operator = take_assign_operator(cursor)?;
    let right = test_list(alloc, cursor)?;
    match add_assignment(
        alloc,
        statements,
        left,
        annotation,
        operator,
        right.expression,
        begin,
        cursor.end,
    ) {
        Ok(()) => Ok(()),
        Err(error) => Err(cursor.unless_out_of_memory(error)),
    }
}

/// Whether a token of the kind continues an assignment after its left side: with a type or with the operator.
fn assigns(kind: Kind) -> bool
    ensures { result ≡ lines.assigns kind }
{
    kind == Kind::Colon || kind == Kind::Equal || augmented(kind).is_some()
}

/// The operator of an augmented assignment, if a token of the kind is one.
fn augmented(kind: Kind) -> Option<AssignOp>
    ensures { result ≡ lines.augmented kind }
{
    match kind {
        Kind::PlusEqual => Some(AssignOp::Add),
        Kind::MinusEqual => Some(AssignOp::Subtract),
        Kind::StarEqual => Some(AssignOp::Multiply),
        Kind::SlashEqual => Some(AssignOp::Divide),
        Kind::SlashSlashEqual => Some(AssignOp::FloorDivide),
        Kind::PercentEqual => Some(AssignOp::Percent),
        Kind::AmpersandEqual => Some(AssignOp::BitAnd),
        Kind::PipeEqual => Some(AssignOp::BitOr),
        Kind::CaretEqual => Some(AssignOp::BitXor),
        Kind::LessLessEqual => Some(AssignOp::LeftShift),
        Kind::GreaterGreaterEqual => Some(AssignOp::RightShift),
        _ => None,
    }
}

/// Consumes the operator of an assignment, which is due: `=`, or an augmented one.
fn take_assign_operator<I: Iterator<Item = Lexeme>>(
    cursor: &mut Cursor<I>,
) -> Result<Option<AssignOp>, Refusal>
    requires ready { Ready I.can_next I.remaining I.next_gives (at cursor.old) }
    ensures moves { MovesOn I.can_next I.remaining I.next_gives cursor.old result cursor.new }
    ensures takes { TakesAssignOperator I.next_gives (at cursor.old) result (at cursor.new) }
{
    if let Some(_equal) = cursor.take_if(Kind::Equal) {
        return Ok(None);
    }
    let Some(operator) = augmented(cursor.kind()) else {
        return Err(cursor.refusal());
    };
    let Some(_sign) = cursor.skip() else {
        return Err(cursor.refusal());
    };
    Ok(Some(operator))
}
