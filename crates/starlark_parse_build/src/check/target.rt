//! Targets: the expressions that are assigned to (Starlark specification, "Assignments").
ghost use Rattle.std.specs.Prelude.{◌≡◌, ◌≤◌, IfOk, Ok, Some};
ghost use Rattle.starlark_lexer.specs.Tokens.{from_to, span_of};
ghost use Rattle.starlark_tree.specs.Ast.{For, expressions_of, for_in, statement, targets_of};
ghost use Rattle.starlark_tree.specs.Views.{assign_word, ident_word};
ghost use Rattle.starlark_spec.specs.Faults.{grammar_fault};
ghost use Rattle.starlark_spec.specs.Targets as targets;
ghost use Rattle.starlark_spec.specs.Trees.{target_of as target_in};
ghost use Rattle.starlark_spec.specs.Machine.Faults.{fault_of};
ghost use Rattle.starlark_parse_held.specs.Held.{expression_of, expressions_in, for_in_of, statement_of, target_of, targets_in, unboxed_of};
ghost use Rattle.starlark_parse_build.specs.Check.Checks.{Finds, Names};

use crate::check::place::spanned;
use starlark_lexer::span::{Pos, Spanned};
use starlark_parse_held::{
    HeldExpr, HeldExprs, HeldForClause, HeldStmt, HeldTarget, HeldTargets, HeldTree,
};
use starlark_spec::error::GrammarError;
use starlark_spec::refusal::Refusal;
use starlark_tree::ast::{
    AssignIdentP, AssignTarget, AstAssignIdent, AstIdent, Expr, ForClauseP, ForP, IdentP, Stmt,
};
use std::alloc::Global;

/// The target that the expression is: tuples and lists by parts.
///
/// Fails at the first part from the left that is not a target, and if memory runs out. The expression is then dropped.
pub fn target(alloc: Global, value: HeldExpr) -> Result<HeldTarget, Refusal>
    ensures ok { IfOk result (λ x. targets.target (expression_of value) ≡ Ok (target_of x)) }
    ensures finds { Finds (fault_of (targets.target (expression_of value))) result }
{
    let tree = value.into_tree();
    tree_target(alloc, HeldTree { tree })
}

/// The target that a held expression is.
#[cycle(targets)]
fn tree_target(alloc: Global, value: HeldTree) -> Result<HeldTarget, Refusal>
    ensures ok { IfOk result (λ x. targets.target (unboxed_of value) ≡ Ok (target_of x)) }
    ensures finds { Finds (fault_of (targets.target (unboxed_of value))) result }
{
    let Spanned { node, span } = value.into_tree();
    let node = match node {
        Expr::Tuple(trees) => AssignTarget::Tuple(parts(alloc, HeldExprs { trees })?.into_trees()),
        Expr::List(trees) => AssignTarget::Tuple(parts(alloc, HeldExprs { trees })?.into_trees()),
        Expr::Dot(object, name) => AssignTarget::Dot(object, name),
        Expr::Index(parts) => AssignTarget::Index(parts),
        Expr::Identifier(name) => AssignTarget::Identifier(bound(name)),
        node => {
            return Err(no_target(HeldTree {
                tree: Spanned { node, span },
            }));
        }
    };
    Ok(HeldTarget {
        tree: Spanned { node, span },
    })
}

/// The targets that the expressions are, in order.
#[cycle(targets)]
fn parts(alloc: Global, values: HeldExprs) -> Result<HeldTargets, Refusal>
    ensures ok { IfOk result (λ xs. targets.parts (expressions_of (expressions_in values)) ≡ Ok (targets_of (targets_in xs))) }
    ensures finds { Finds (fault_of (targets.parts (expressions_of (expressions_in values)))) result }
{
    let mut targets = HeldTargets::new(alloc);
    let mut rest = values.into_rest();
    'parts: while let Some(tree) = rest.next() {
        targets.push(tree_target(alloc, HeldTree { tree })?)?;
    }
    Ok(targets)
}

/// The error of an expression that is not a target, which is dropped.
fn no_target(value: HeldTree) -> Refusal
    ensures { Names (Some (grammar_fault GrammarError.InvalidLhs (span_of value.tree.span))) result }
{
    Refusal::Grammar(GrammarError::InvalidLhs, value.tree.span)
}

/// The name that is read, as a name that is bound.
fn bound(name: AstIdent) -> AstAssignIdent
    ensures { assign_word result ≡ ident_word name }
{
    let Spanned { node, span } = name;
    let IdentP { ident, payload: () } = node;
    Spanned {
        node: AssignIdentP { ident, payload: () },
        span,
    }
}

/// A clause `for variables in over` of a comprehension.
///
/// Fails if the variables are not targets, and if memory runs out. The parts are then dropped.
#[tactic(auto, using(crate::proofs::CheckLemmas::TargetLemmas::target_is))]
pub fn for_clause(
    alloc: Global,
    variables: HeldExpr,
    over: HeldExpr,
) -> Result<HeldForClause, Refusal>
    ensures means { IfOk result (λ c. for_in_of c ≡ for_in (target_in (expression_of variables)) (expression_of over)) }
    ensures finds { Finds (fault_of (targets.target (expression_of variables))) result }
{
    let var = target(alloc, variables)?;
    Ok(HeldForClause {
        tree: ForClauseP {
            var: var.into_tree(),
            over: over.into_tree(),
        },
    })
}

/// A `for` statement, from `begin` to `end`.
///
/// Fails if the variables are not targets, and if memory runs out. The parts are then dropped.
#[tactic(auto, using(crate::proofs::CheckLemmas::TargetLemmas::target_is))]
pub fn for_statement(
    alloc: Global,
    variables: HeldExpr,
    over: HeldExpr,
    body: HeldStmt,
    begin: Pos,
    end: Pos,
) -> Result<HeldStmt, Refusal>
    requires { begin.byte ≤ end.byte }
    ensures means { IfOk result (λ s. statement_of s
        ≡ statement (from_to begin.byte end.byte) (For (target_in (expression_of variables)) (expression_of over) (statement_of body))) }
    ensures finds { Finds (fault_of (targets.target (expression_of variables))) result }
{
    let var = target(alloc, variables)?;
    let node = Stmt::For(ForP {
        var: var.into_tree(),
        over: over.into_tree(),
        body: body.into_box(),
    });
    Ok(spanned(alloc, node, begin, end)?)
}
