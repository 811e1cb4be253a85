//! Walks over the children of a statement, its expressions and its statements.
ghost use Rattle.std.specs.Prelude.{map};
ghost use Rattle.starlark_tree.specs.Children.{Child, children_of_def, children_of_stmt, expr, stmt};
ghost use Rattle.starlark_tree.specs.Places.{children};
ghost use Rattle.starlark_tree.specs.Views.{payloads};
ghost use Rattle.starlark_uniplate.specs.Held.{child_at};
ghost use Rattle.starlark_uniplate.specs.Parents.{children_of_parent};
ghost use Rattle.starlark_uniplate.specs.Shown.{OnShown};
ghost use Rattle.starlark_uniplate.specs.Visited.{CallsOn, child_of, children_of_visit};
ghost use Rattle.starlark_tree.specs.Walks.{
  Calls,
  CallsSeen,
  MayVisit,
  MayVisitUntilErr,
  MayWalkBy,
  TakesSeen,
  Visits,
  VisitsUntilErr,
  WalkBy,
};

use crate::uniplate::at::{AtExpr, AtStmt, Call, CallErr};
use crate::uniplate::block::{walk_stmt, walk_stmts};
use crate::uniplate::children::walk_children;
use crate::uniplate::statement::{walk_def, walk_exprs};
use starlark_tree::ast::{AstExprP, AstPayload, AstStmtP, DefP, ExprP, StmtP};
use std::convert::Infallible;

/// What a walk over children visits: a reference to the child, which is copied without allocation.
#[derive_where(Clone, Copy)]
pub enum Visit<'a, P: AstPayload> {
    Stmt(&'a AstStmtP<P>),
    Expr(&'a AstExprP<P>),
}

/// What has the children that are visited.
pub(super) enum Parent<'a, P: AstPayload> {
    Stmt(&'a StmtP<P>),
    Expr(&'a ExprP<P>),
    Def(&'a DefP<P>),
}

/// Called at a child.
pub(super) trait AtChild<P: AstPayload, S, E> {
    // In which states it may be called at which children, and the effect of a call.
    ghost calls: { Calls S (Child (payloads P.LoadPayload P.IdentPayload P.IdentAssignPayload P.DefPayload P.TypeExprPayload)) E };

    fn call(&self, shown: Visit<'_, P>, state: &mut S) -> Result<(), E>
        requires { calls.may state.old (child_at shown) }
        ensures { calls.call state.old (child_at shown.entry) result state.new };
}

impl<P: AstPayload, F: FnMut(Visit<'_, P>)> AtChild<P, F, Infallible> for Call {
    ghost calls = { record { may = TakesSeen child_of F.FnMut; call = CallsOn child_of F.FnMut } };

    #[tactic(auto, unfolding(crate::specs::Held::child_at))]
    fn call(&self, shown: Visit<'_, P>, state: &mut F) -> Result<(), Infallible>
        requires { TakesSeen child_of F.FnMut state.old (child_at shown) }
        ensures { CallsOn child_of F.FnMut state.old (child_at shown.entry) result state.new }
    {
        state(shown);
        Ok(())
    }
}

impl<P: AstPayload, E, F: FnMut(Visit<'_, P>) -> Result<(), E>> AtChild<P, F, E> for CallErr {
    ghost calls = { record { may = TakesSeen child_of F.FnMut; call = CallsSeen child_of F.FnMut } };

    #[tactic(auto, unfolding(crate::specs::Held::child_at))]
    fn call(&self, shown: Visit<'_, P>, state: &mut F) -> Result<(), E>
        requires { TakesSeen child_of F.FnMut state.old (child_at shown) }
        ensures { CallsSeen child_of F.FnMut state.old (child_at shown.entry) result state.new }
    {
        state(shown)
    }
}

/// Passes an expression or a statement on as a child.
struct Show<V> {
    visit: V,
}

impl<P: AstPayload, S, E, V: AtChild<P, S, E>> AtExpr<P, S, E> for Show<V> {
    ghost calls = { record { may = λ s e. V.calls.may s (expr e); call = OnShown expr V.calls.call } };

    #[tactic(auto, unfolding(crate::specs::Held::child_at))]
    fn call(&self, shown: &AstExprP<P>, state: &mut S) -> Result<(), E> {
        self.visit.call(Visit::Expr(shown), state)
    }
}

impl<P: AstPayload, S, E, V: AtChild<P, S, E>> AtStmt<P, S, E> for Show<V> {
    ghost calls = { record { may = λ s x. V.calls.may s (stmt x); call = OnShown stmt V.calls.call } };

    #[tactic(auto, unfolding(crate::specs::Held::child_at, crate::specs::Held::statement_at))]
    fn call(&self, shown: &AstStmtP<P>, state: &mut S) -> Result<(), E> {
        self.visit.call(Visit::Stmt(shown), state)
    }
}

/// Visits the children of a statement: its expressions, then the statements in it.
#[tactic(auto, using(crate::proofs::Shown::shows))]
fn walk_parts<P: AstPayload, S, E, V: AtChild<P, S, E>>(
    parent: &StmtP<P>,
    state: &mut S,
    show: &Show<V>,
) -> Result<(), E>
    requires { MayWalkBy V.calls state.old (children_of_stmt parent.now) }
    ensures { WalkBy V.calls state.old (children_of_stmt parent.now) result state.new }
{
    match walk_exprs(parent, state, show) {
        Ok(()) => walk_stmts(parent, state, show),
        Err(error) => Err(error),
    }
}

/// Visits the children of a definition: the expressions of its parameters and of its return type, then its body.
#[tactic(auto, using(crate::proofs::Shown::shows))]
fn walk_def_parts<P: AstPayload, S, E, V: AtChild<P, S, E>>(
    parent: &DefP<P>,
    state: &mut S,
    show: &Show<V>,
) -> Result<(), E>
    requires { MayWalkBy V.calls state.old (children_of_def parent.now) }
    ensures { WalkBy V.calls state.old (children_of_def parent.now) result state.new }
{
    match walk_def(parent, state, show) {
        Ok(()) => walk_stmt(&parent.body, state, show),
        Err(error) => Err(error),
    }
}

/// Visits the children of an expression.
#[tactic(auto, using(crate::proofs::Shown::shows))]
fn walk_expr_parts<P: AstPayload, S, E, V: AtChild<P, S, E>>(
    parent: &ExprP<P>,
    state: &mut S,
    show: &Show<V>,
) -> Result<(), E>
    requires { MayWalkBy V.calls state.old (map expr (children parent.now)) }
    ensures { WalkBy V.calls state.old (map expr (children parent.now)) result state.new }
{
    walk_children(parent, state, show)
}

/// Visits the children of a parent.
fn walk_parent<P: AstPayload, S, E, V: AtChild<P, S, E>>(
    parent: Parent<'_, P>,
    state: &mut S,
    show: &Show<V>,
) -> Result<(), E>
    requires { MayWalkBy V.calls state.old (children_of_parent parent) }
    ensures { WalkBy V.calls state.old (children_of_parent parent.entry) result state.new }
{
    match parent {
        Parent::Stmt(parent) => walk_parts(parent, state, show),
        Parent::Expr(parent) => walk_expr_parts(parent, state, show),
        Parent::Def(parent) => walk_def_parts(parent, state, show),
    }
}

/// Passes the children of a parent to a closure.
fn show_children<P: AstPayload, F: FnMut(Visit<'_, P>)>(parent: Parent<'_, P>, f: &mut F)
    requires { MayVisit child_of F.FnMut f.old (children_of_parent parent) }
    ensures { Visits child_of F.FnMut f.old (children_of_parent parent.entry) f.new }
{
    match walk_parent(parent, f, &Show { visit: Call }) {
        Ok(()) => {}
        Err(never) => match never {},
    }
}

/// Passes the children of a parent to a closure, up to the first `Err`, which is returned.
pub(super) fn show_children_err<P: AstPayload, E, F: FnMut(Visit<'_, P>) -> Result<(), E>>(
    parent: Parent<'_, P>,
    f: &mut F,
) -> Result<(), E>
    requires { MayVisitUntilErr child_of F.FnMut f.old (children_of_parent parent) }
    ensures { VisitsUntilErr child_of F.FnMut f.old (children_of_parent parent.entry) result f.new }
{
    walk_parent(parent, f, &Show { visit: CallErr })
}

/// Calls `f` at each child of a statement: its expressions, then the statements in it.
pub fn visit_children<P: AstPayload, F: FnMut(Visit<'_, P>)>(stmt: &StmtP<P>, f: &mut F)
    requires { MayVisit child_of F.FnMut f.old (children_of_stmt stmt.now) }
    ensures { Visits child_of F.FnMut f.old (children_of_stmt stmt.now) f.new }
{
    show_children(Parent::Stmt(stmt), f)
}

/// Calls `f` at each child of a statement, in the order of `visit_children`, up to the first `Err`, which is returned.
pub fn visit_children_err<P: AstPayload, E, F: FnMut(Visit<'_, P>) -> Result<(), E>>(
    stmt: &StmtP<P>,
    f: &mut F,
) -> Result<(), E>
    requires { MayVisitUntilErr child_of F.FnMut f.old (children_of_stmt stmt.now) }
    ensures { VisitsUntilErr child_of F.FnMut f.old (children_of_stmt stmt.now) result f.new }
{
    show_children_err(Parent::Stmt(stmt), f)
}

impl<P: AstPayload> Visit<'_, P> {
    /// Calls `f` at each child of the statement or expression.
    pub fn visit_children<F: FnMut(Visit<'_, P>)>(&self, f: &mut F)
        requires { MayVisit child_of F.FnMut f.old (children_of_visit self.now) }
        ensures { Visits child_of F.FnMut f.old (children_of_visit self.now) f.new }
    {
        match self {
            Visit::Stmt(parent) => show_children(Parent::Stmt(&parent.node), f),
            Visit::Expr(parent) => show_children(Parent::Expr(&parent.node), f),
        }
    }

    /// Calls `f` at each child of the statement or expression, up to the first `Err`, which is returned.
    pub fn visit_children_err<E, F: FnMut(Visit<'_, P>) -> Result<(), E>>(
        &self,
        f: &mut F,
    ) -> Result<(), E>
        requires { MayVisitUntilErr child_of F.FnMut f.old (children_of_visit self.now) }
        ensures { VisitsUntilErr child_of F.FnMut f.old (children_of_visit self.now) result f.new }
    {
        match self {
            Visit::Stmt(parent) => show_children_err(Parent::Stmt(&parent.node), f),
            Visit::Expr(parent) => show_children_err(Parent::Expr(&parent.node), f),
        }
    }
}
