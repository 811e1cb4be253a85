//! Walks over all that is inside an expression or a statement: each node before those inside it.
ghost use Rattle.std.specs.Prelude.{length};
ghost use Rattle.starlark_tree.specs.Inside.{inside};
ghost use Rattle.starlark_tree.specs.Views.{expression_of, statement_of};
ghost use Rattle.starlark_tree.specs.Walks.{MayWalkBy, WalkBy};
ghost use Rattle.starlark_uniplate.specs.Entering.{EntersInside, inside_calls};
ghost use Rattle.starlark_uniplate.specs.Statements.{exprs_below_stmt, statement_inside};

use crate::uniplate::at::{AtExpr, AtStmt};
use crate::uniplate::block::{walk_stmt, walk_stmts};
use crate::uniplate::children::walk_children;
use crate::uniplate::deep::walk_all_exprs;
use crate::uniplate::enter::Enter;
use crate::uniplate::one::walk_one;
use starlark_tree::ast::{AstExprP, AstPayload, AstStmtP, StmtP};
use std::marker::PhantomData;

/// What is done at each node, together with a mark of its error type, which no other argument of a walk names.
#[derive(Clone, Copy)]
pub(super) struct Marked<G, M> {
    pub(super) visit: G,
    pub(super) error: M,
}

/// Visits an expression, then walks into its children.
#[tactic(auto, using(crate::proofs::Entered::enters))]
pub(super) fn walk_and_enter<P: AstPayload, S, E, G: AtExpr<P, S, E>, H: AtExpr<P, S, E>>(
    expr: &AstExprP<P>,
    state: &mut S,
    visit: &G,
    enter: &H,
) -> Result<(), E>
    requires may { MayWalkBy G.calls state.old (inside (expression_of expr.now)) }
    requires enters { EntersInside inside G.calls H.calls (length (inside (expression_of expr.now))) }
    ensures { WalkBy G.calls state.old (inside (expression_of expr.now)) result state.new }
{
    match walk_one(expr, state, visit) {
        Ok(()) => walk_children(&expr.node, state, enter),
        Err(error) => Err(error),
    }
}

/// Visits an expression and all inside it.
#[cycle(expressions)]
pub(super) fn walk_inside<P: AstPayload, S, E, G: AtExpr<P, S, E> + Copy>(
    expr: &AstExprP<P>,
    state: &mut S,
    mark: Marked<G, PhantomData<E>>,
) -> Result<(), E>
    requires { MayWalkBy G.calls state.old (inside (expression_of expr.now)) }
    ensures { WalkBy G.calls state.old (inside (expression_of expr.now)) result state.new }
{
    let function = walk_inside::<P, S, E, G>;
    let visit = mark.visit;
    walk_and_enter(expr, state, &visit, &Enter { function, mark })
}

/// Visits a statement, then walks into the statements in it.
#[tactic(auto, using(crate::proofs::Entered::enters))]
pub(super) fn walk_and_enter_stmts<P: AstPayload, S, E, G: AtStmt<P, S, E>, H: AtStmt<P, S, E>>(
    stmt: &AstStmtP<P>,
    state: &mut S,
    visit: &G,
    enter: &H,
) -> Result<(), E>
    requires may { MayWalkBy G.calls state.old (statement_inside (statement_of stmt.now)) }
    requires enters { EntersInside statement_inside G.calls H.calls (length (statement_inside (statement_of stmt.now))) }
    ensures { WalkBy G.calls state.old (statement_inside (statement_of stmt.now)) result state.new }
{
    match walk_stmt(stmt, state, visit) {
        Ok(()) => walk_stmts(&stmt.node, state, enter),
        Err(error) => Err(error),
    }
}

/// Visits a statement and all statements in it.
#[cycle(statements)]
pub(super) fn walk_stmts_inside<P: AstPayload, S, E, G: AtStmt<P, S, E> + Copy>(
    stmt: &AstStmtP<P>,
    state: &mut S,
    mark: Marked<G, PhantomData<E>>,
) -> Result<(), E>
    requires { MayWalkBy G.calls state.old (statement_inside (statement_of stmt.now)) }
    ensures { WalkBy G.calls state.old (statement_inside (statement_of stmt.now)) result state.new }
{
    let function = walk_stmts_inside::<P, S, E, G>;
    let visit = mark.visit;
    walk_and_enter_stmts(stmt, state, &visit, &Enter { function, mark })
}

/// Visits an expression and all inside it, or a statement and all statements in it.
#[derive(Clone, Copy)]
pub(super) struct Inside<G> {
    pub(super) visit: G,
}

impl<P: AstPayload, S, E, G: AtExpr<P, S, E> + Copy> AtExpr<P, S, E> for Inside<G> {
    ghost calls = { inside_calls inside G.calls };

    fn call(&self, expr: &AstExprP<P>, state: &mut S) -> Result<(), E> {
        walk_inside(
            expr,
            state,
            Marked {
                visit: self.visit,
                error: PhantomData,
            },
        )
    }
}

impl<P: AstPayload, S, E, G: AtStmt<P, S, E> + Copy> AtStmt<P, S, E> for Inside<G> {
    ghost calls = { inside_calls statement_inside G.calls };

    #[tactic(auto, unfolding(crate::specs::Held::statement_at))]
    fn call(&self, stmt: &AstStmtP<P>, state: &mut S) -> Result<(), E> {
        walk_stmts_inside(
            stmt,
            state,
            Marked {
                visit: self.visit,
                error: PhantomData,
            },
        )
    }
}

/// Visits all expressions of a statement, including those of the statements in it.
#[tactic(auto, using(crate::proofs::Entered::forms))]
pub(super) fn walk_exprs_inside<P: AstPayload, S, E, G: AtExpr<P, S, E> + Copy>(
    stmt: &StmtP<P>,
    state: &mut S,
    visit: G,
) -> Result<(), E>
    requires { MayWalkBy G.calls state.old (exprs_below_stmt stmt.now) }
    ensures { WalkBy G.calls state.old (exprs_below_stmt stmt.now) result state.new }
{
    walk_all_exprs(stmt, state, Inside { visit })
}
