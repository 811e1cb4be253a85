//! Assignments (Starlark specification, "Assignments", "Augmented assignments").
ghost use Rattle.std.specs.Prelude.{◌≡◌, ◌≤◌, ◌++◌, ◌∷◌, [], IfOk, OnOk, Ok, Some};
ghost use Rattle.starlark_lexer.specs.Tokens.{from_to, span_of};
ghost use Rattle.starlark_tree.specs.Ast.{statement};
ghost use Rattle.starlark_tree.specs.Views.{maybe_type_of, shape_seen};
ghost use Rattle.starlark_spec.specs.Assignments as assignments;
ghost use Rattle.starlark_spec.specs.Faults.{grammar_fault};
ghost use Rattle.starlark_spec.specs.Trees.{target_of as target_in};
ghost use Rattle.starlark_spec.specs.Machine.Faults.{fault_of};
ghost use Rattle.starlark_parse_held.specs.Held.{annotation_of, expression_of, statement_of, statements_in, target_of};
ghost use Rattle.starlark_parse_build.specs.Check.Checks.{Finds, Names};

use crate::check::place::{add_spanned, spanned};
use crate::check::target::target;
use starlark_lexer::span::{Pos, Span};
use starlark_parse_held::{HeldExpr, HeldStmt, HeldStmts, HeldTarget, HeldType};
use starlark_spec::error::GrammarError;
use starlark_spec::refusal::Refusal;
use starlark_tree::ast::{AssignOp, AssignP, AssignTarget, AstTypeExpr, Expr, Stmt};
use std::alloc::Global;

/// The assignment of a value to what is to the left of its operator: an augmented one, or `=`, then with the type that the target is
/// given. It is from `begin` to `end`.
///
/// Fails, in this order, at a list or tuple to the left of an augmented operator, at a part that is not a target, at a type beside such an
/// operator, and at a type of a list or tuple; and if memory runs out. The parts are then dropped.
#[tactic(auto, using(crate::proofs::CheckLemmas::AssignmentLemmas::assigned_target_is))]
pub fn assignment(
    alloc: Global,
    left: HeldExpr,
    annotation: Option<HeldType>,
    operator: Option<AssignOp>,
    right: HeldExpr,
    begin: Pos,
    end: Pos,
) -> Result<HeldStmt, Refusal>
    requires { begin.byte ≤ end.byte }
    ensures means { IfOk result (λ s. statement_of s
        ≡ statement (from_to begin.byte end.byte) (assignments.assigned (annotation_of annotation) operator (expression_of right)
        (target_in (expression_of left)))) }
    ensures finds { Finds (fault_of (assignments.assigned_target (expression_of left) (annotation_of annotation) operator)) result }
{
    let lhs = assigned_target(alloc, left, &annotation, operator)?;
    match operator {
        None => {
            let node = Stmt::Assign(AssignP {
                lhs: lhs.into_tree(),
                ty: type_tree(annotation),
                rhs: right.into_tree(),
            });
            Ok(spanned(alloc, node, begin, end)?)
        }
        Some(operator) => {
            let right = right.into_box();
            let node = Stmt::AssignModify(lhs.into_tree(), operator, right);
            Ok(spanned(alloc, node, begin, end)?)
        }
    }
}

/// Adds the assignment of a value to what is to the left of its operator to the statements: an augmented one, or `=`, then with the type
/// that the target is given. It is from `begin` to `end`.
///
/// Fails as [`assignment`] does.
pub fn add_assignment(
    alloc: Global,
    statements: &mut HeldStmts,
    left: HeldExpr,
    annotation: Option<HeldType>,
    operator: Option<AssignOp>,
    right: HeldExpr,
    begin: Pos,
    end: Pos,
) -> Result<(), Refusal>
    requires { begin.byte ≤ end.byte }
    ensures means { OnOk result (statements_in statements.new ≡ statements_in statements.old
        ++ statement (from_to begin.byte end.byte) (assignments.assigned (annotation_of annotation) operator (expression_of right)
        (target_in (expression_of left))) ∷ []) }
    ensures finds { Finds (fault_of (assignments.assigned_target (expression_of left) (annotation_of annotation) operator)) result }
{
    let lhs = assigned_target(alloc, left, &annotation, operator)?;
    match operator {
        None => {
            let node = Stmt::Assign(AssignP {
                lhs: lhs.into_tree(),
                ty: type_tree(annotation),
                rhs: right.into_tree(),
            });
            Ok(add_spanned(statements, node, begin, end)?)
        }
        Some(operator) => {
            let right = right.into_box();
            let node = Stmt::AssignModify(lhs.into_tree(), operator, right);
            Ok(add_spanned(statements, node, begin, end)?)
        }
    }
}

/// An optional type, as in trees.
fn type_tree(annotation: Option<HeldType>) -> Option<AstTypeExpr>
    ensures { maybe_type_of result ≡ annotation_of annotation }
{
    match annotation {
        None => None,
        Some(annotation) => Some(annotation.into_tree()),
    }
}

/// The target of an assignment with this type and operator.
fn assigned_target(
    alloc: Global,
    left: HeldExpr,
    annotation: &Option<HeldType>,
    operator: Option<AssignOp>,
) -> Result<HeldTarget, Refusal>
    ensures ok { IfOk result (λ x. assignments.assigned_target (expression_of left) (annotation_of annotation.now) operator ≡ Ok (target_of x)) }
    ensures finds { Finds (fault_of (assignments.assigned_target (expression_of left) (annotation_of annotation.now) operator)) result }
{
    check_left(&left, operator)?;
    let target = target(alloc, left)?;
    check_type(&target, annotation, operator)?;
    Ok(target)
}

/// Refuses a list or tuple to the left of an augmented operator.
fn check_left(left: &HeldExpr, operator: Option<AssignOp>) -> Result<(), Refusal>
    ensures { Finds (fault_of (assignments.refuse_sequence (expression_of left.now) operator)) result }
{
    if operator.is_some() && is_sequence(&left.tree.node) {
        return Err(grammar_error(GrammarError::InvalidModifyLhs, left.tree.span));
    }
    Ok(())
}

/// The error of a rule that a span of the text breaks.
fn grammar_error(error: GrammarError, span: Span) -> Refusal
    ensures { Names (Some (grammar_fault error (span_of span))) result }
{
    Refusal::Grammar(error, span)
}

/// Whether the expression is a list or a tuple.
fn is_sequence(node: &Expr) -> bool
    ensures { result ≡ assignments.is_sequence (shape_seen node.now) }
{
    match node {
        Expr::Tuple(_) => true,
        Expr::List(_) => true,
        _ => false,
    }
}

/// Refuses the type of a tuple's parts, and a type beside an augmented operator.
fn check_type(
    target: &HeldTarget,
    annotation: &Option<HeldType>,
    operator: Option<AssignOp>,
) -> Result<(), Refusal>
    ensures { Finds (fault_of (assignments.refuse_annotation (target_of target.now) (annotation_of annotation.now) operator)) result }
{
    let Some(annotation) = annotation else {
        return Ok(());
    };
    let span = annotation.tree.span;
    if operator.is_some() {
        return Err(grammar_error(GrammarError::TypeAnnotationOnAssignOp, span));
    }
    match &target.tree.node {
        AssignTarget::Tuple(_) => Err(grammar_error(
            GrammarError::TypeAnnotationOnTupleAssign,
            span,
        )),
        AssignTarget::Index(_) | AssignTarget::Dot(..) | AssignTarget::Identifier(_) => Ok(()),
    }
}
