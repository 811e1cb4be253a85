//! Parts of statements: what is assigned to, the assignment itself, and statements one after another.
ghost use Rattle.std.specs.Prelude.{◌≡◌, ◌≤◌, ◌<◌, ◌^◌, Ok, map, IfOk, IfErr};
ghost use Rattle.starlark_tree.specs.Views as seen;
ghost use Rattle.starlark_spec.specs.Targets as targets;
ghost use Rattle.starlark_spec.specs.Assignments as assignments;
ghost use Rattle.starlark_checks.specs.Faults.{RefusesOutcome};
ghost use Rattle.starlark_parse_held.specs.Held.{annotation_of, expression_of};

use crate::error::Error;
use starlark_lexer::codemap::CodeMap;
use starlark_lexer::span::Spanned;
use starlark_lexer::token::FStringConv;
use starlark_parse_build::check::assignment::assignment;
use starlark_parse_build::check::target::target;
use starlark_parse_held::{HeldExpr, HeldStmts, HeldTree, HeldType};
use starlark_tree::ast::{
    AssignOp, AstAssignTarget, AstExpr, AstStmt, AstString, AstTypeExpr, Stmt, StmtP, ToAst,
};
use std::alloc::Global;

/// A part of an f-string: text, or an expression and how its value becomes text.
#[derive(Debug)]
pub enum FStringElement {
    Text(AstString),
    Expr(AstExpr, FStringConv),
}

impl Drop for FStringElement {
    #[inline(never)]
    fn drop(self) {
        match self {
            FStringElement::Text(text) => drop(text),
            FStringElement::Expr(tree, _) => drop(HeldTree { tree }),
        }
    }
}

/// The only statement if there is just one, otherwise the statements in sequence from `begin` to `end`, byte offsets.
pub fn statements(xs: Vec<AstStmt>, begin: usize, end: usize) -> AstStmt
    requires order { begin ≤ end }
    requires fits { end < 2 ^ 32 }
    ensures { seen.statement_of result ≡ assignments.statements (map seen.statement_of xs.items) begin end }
{
    let held = HeldStmts { trees: xs };
    match held.only() {
        Ok(tree) => tree,
        Err(held) => StmtP::Statements(held.into_trees()).ast(begin, end),
    }
}

/// The target that the expression is (Starlark specification, "Assignments"): tuples and lists by parts.
///
/// Fails at the first part from the left that is not a target, if memory runs out, and if the code map has too many
/// clones to count. The expression is then dropped.
pub fn check_assign(alloc: Global, codemap: &CodeMap, x: AstExpr) -> Result<AstAssignTarget, Error>
    ensures ok { IfOk result (λ t. targets.target (seen.expression_of x) ≡ Ok (seen.target_of t)) }
    ensures err { IfErr result (λ e. RefusesOutcome codemap.now (targets.target (seen.expression_of x)) e) }
{
    let held = HeldExpr::new(alloc, x)?;
    match target(alloc, held) {
        Ok(made) => Ok(made.into_tree()),
        Err(refusal) => Err(Error::from_refusal(refusal, codemap)?),
    }
}

/// The assignment of a value to what is to the left of its operator: an augmented one, or `=`, then with the
/// type that the target is given (Starlark specification, "Assignments", "Augmented assignments").
///
/// Fails, in this order, at a list or tuple to the left of an augmented operator, at a part that is not a target, at a type
/// beside such an operator, and at a type of a list or tuple; and if memory runs out or the code map has too many clones to
/// count. The parts are then dropped.
pub fn check_assignment(
    alloc: Global,
    codemap: &CodeMap,
    lhs: AstExpr,
    ty: Option<Box<AstTypeExpr>>,
    op: Option<AssignOp>,
    rhs: AstExpr,
) -> Result<Stmt, Error>
    ensures ok { IfOk result (λ s. assignments.assignment (seen.expression_of lhs) (seen.boxed_type_of ty) op (seen.expression_of rhs)
        ≡ Ok (seen.form_seen s)) }
    ensures err { IfErr result (λ e. RefusesOutcome codemap.now (assignments.assignment (seen.expression_of lhs) (seen.boxed_type_of ty) op
        (seen.expression_of rhs)) e) }
{
    // All of them are held before anything may fail.
    let annotation = held_type(ty);
    let rhs = HeldTree { tree: rhs };
    let left = HeldExpr::new(alloc, lhs)?;
    let right = HeldExpr::new(alloc, rhs.into_tree())?;
    assigned(alloc, codemap, left, annotation, op, right)
}

/// The assignment of parts that are held.
fn assigned(
    alloc: Global,
    codemap: &CodeMap,
    left: HeldExpr,
    annotation: Option<HeldType>,
    op: Option<AssignOp>,
    right: HeldExpr,
) -> Result<Stmt, Error>
    ensures ok { IfOk result (λ s. assignments.assignment (expression_of left) (annotation_of annotation) op (expression_of right)
        ≡ Ok (seen.form_seen s)) }
    ensures err { IfErr result (λ e. RefusesOutcome codemap.now (assignments.assignment (expression_of left) (annotation_of annotation) op
        (expression_of right)) e) }
{
    // Only the statement without its span is used, so any position will do.
    let place = left.begin();
    match assignment(alloc, left, annotation, op, right, place, place) {
        Ok(made) => {
            let Spanned { node, span: _span } = made.into_tree();
            Ok(node)
        }
        Err(refusal) => Err(Error::from_refusal(refusal, codemap)?),
    }
}

/// The type, held.
fn held_type(ty: Option<Box<AstTypeExpr>>) -> Option<HeldType>
    ensures { annotation_of result ≡ seen.boxed_type_of ty }
{
    match ty {
        Some(tree) => Some(HeldType { tree }),
        None => None,
    }
}
