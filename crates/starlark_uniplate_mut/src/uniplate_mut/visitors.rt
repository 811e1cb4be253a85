//! The mutable visitors: traits for the types of the tree.
ghost use Rattle.std.specs.Prelude.{◌≡◌, List, Ok};
ghost use Rattle.starlark_tree.specs.Ast.{Expression, Statement, Word};
ghost use Rattle.starlark_tree.specs.Children.{Child, children_of_stmt, exprs_in_stmt, stmts_of_stmt};
ghost use Rattle.starlark_tree.specs.Names.{lvalues_of, name_of};
ghost use Rattle.starlark_tree.specs.Places.{children, clause_exprs, exprs_in_parameter, exprs_in_target, for_exprs};
ghost use Rattle.starlark_tree.specs.Views.{clause_seen, expression_of, for_in_of, payloads, statement_of};
ghost use Rattle.starlark_tree.specs.Walks.{MayWrite, MayWriteBy, MayWriteUntilErr, WriteBy, Writes, WritesUntilErr};
ghost use Rattle.starlark_uniplate_mut.specs.FormFrames.{children_frame_of, entered_frame_of, stmts_frame_of};
ghost use Rattle.starlark_uniplate_mut.specs.Frames.{clause_frame_of, for_frame_of, frame_of, parameter_frame_of, target_frame_of, unnamed_of};
ghost use Rattle.starlark_uniplate_mut.specs.WrittenChildren.{child_calls};

use crate::uniplate_mut::at::{Call, CallErr};
use crate::uniplate_mut::block::write_stmts;
use crate::uniplate_mut::children::write_children;
use crate::uniplate_mut::clause::{write_clause, write_for};
use crate::uniplate_mut::deep::write_all_exprs;
use crate::uniplate_mut::lvalue::write_lvalues;
use crate::uniplate_mut::parameter::write_parameter;
use crate::uniplate_mut::statement::write_exprs;
use crate::uniplate_mut::target::write_target;
use crate::uniplate_mut::visit_mut::{Hand, VisitMut};
use starlark_tree::ast::{
    AssignTargetP, AstAssignIdentP, AstExprP, AstPayload, AstStmtP, ClauseP, ExprP, ForClauseP,
    ParameterP, StmtP,
};
use std::convert::Infallible;

/// A mutable walk over the expressions of a part of the tree.
pub trait VisitExprMut<P: AstPayload> {
    // The expressions, in the order of a walk.
    ghost exprs: { Self → List (Expression (payloads P.LoadPayload P.IdentPayload P.IdentAssignPayload P.DefPayload P.TypeExprPayload)) };

    // Whether all but the expressions is equal.
    ghost same_rest: { Self → Self → Type 0 };

    /// Calls `f` at each expression that `visit_expr` visits, in its order; `f` may leave another one there. The rest
    /// is unchanged.
    fn visit_expr_mut<F: FnMut(&mut AstExprP<P>)>(&mut self, f: &mut F)
        requires { MayWrite expression_of F.FnMut f.old (exprs self.old) }
        ensures calls { Writes expression_of F.FnMut f.old (exprs self.old) (exprs self.new) f.new }
        ensures rest { same_rest self.old self.new };
}

impl<P: AstPayload> VisitExprMut<P> for ExprP<P> {
    ghost exprs = { children };

    ghost same_rest = { λ old new. frame_of new ≡ frame_of old };

    #[tactic(auto, using(crate::proofs::Handed::hand))]
    fn visit_expr_mut<F: FnMut(&mut AstExprP<P>)>(&mut self, f: &mut F) {
        match write_children(self, f, &Call) {
            Ok(()) => {}
            Err(never) => match never {},
        }
    }
}

impl<P: AstPayload> VisitExprMut<P> for AssignTargetP<P> {
    ghost exprs = { exprs_in_target };

    ghost same_rest = { λ old new. target_frame_of new ≡ target_frame_of old };

    #[tactic(auto, using(crate::proofs::Handed::hand))]
    fn visit_expr_mut<F: FnMut(&mut AstExprP<P>)>(&mut self, f: &mut F) {
        match write_target(self, f, &Call) {
            Ok(()) => {}
            Err(never) => match never {},
        }
    }
}

impl<P: AstPayload> VisitExprMut<P> for ForClauseP<P> {
    ghost exprs = { λ c. for_exprs (for_in_of c) };

    ghost same_rest = { λ old new. for_frame_of new ≡ for_frame_of old };

    #[tactic(auto, using(crate::proofs::Handed::hand))]
    fn visit_expr_mut<F: FnMut(&mut AstExprP<P>)>(&mut self, f: &mut F) {
        match write_for(self, f, &Call) {
            Ok(()) => {}
            Err(never) => match never {},
        }
    }
}

impl<P: AstPayload> VisitExprMut<P> for ClauseP<P> {
    ghost exprs = { λ c. clause_exprs (clause_seen c) };

    ghost same_rest = { λ old new. clause_frame_of new ≡ clause_frame_of old };

    #[tactic(auto, using(crate::proofs::Handed::hand))]
    fn visit_expr_mut<F: FnMut(&mut AstExprP<P>)>(&mut self, f: &mut F) {
        match write_clause(self, f, &Call) {
            Ok(()) => {}
            Err(never) => match never {},
        }
    }
}

impl<P: AstPayload> VisitExprMut<P> for ParameterP<P> {
    ghost exprs = { exprs_in_parameter };

    ghost same_rest = { λ old new. parameter_frame_of new ≡ parameter_frame_of old };

    #[tactic(auto, using(crate::proofs::Handed::hand))]
    fn visit_expr_mut<F: FnMut(&mut AstExprP<P>)>(&mut self, f: &mut F) {
        match write_parameter(self, f, &Call) {
            Ok(()) => {}
            Err(never) => match never {},
        }
    }
}

impl<P: AstPayload> VisitExprMut<P> for StmtP<P> {
    ghost exprs = { exprs_in_stmt };

    ghost same_rest = { λ old new. entered_frame_of new ≡ entered_frame_of old };

    #[tactic(auto, using(crate::proofs::Handed::hand))]
    fn visit_expr_mut<F: FnMut(&mut AstExprP<P>)>(&mut self, f: &mut F) {
        match write_all_exprs(self, f, &Call) {
            Ok(()) => {}
            Err(never) => match never {},
        }
    }
}

/// A mutable walk over an expression's children, with a closure that may fail.
pub trait ExprPVisitMut<P: AstPayload> {
    // The children, in the order of a walk.
    ghost children: { Self → List (Expression (payloads P.LoadPayload P.IdentPayload P.IdentAssignPayload P.DefPayload P.TypeExprPayload)) };

    // Whether all but the children is equal.
    ghost same_rest: { Self → Self → Type 0 };

    /// Calls `f` at each child of the expression, in the order of `visit_expr_mut`, up to the first `Err`, which is
    /// returned; the children after it are unchanged.
    fn visit_expr_err_mut<E, F: FnMut(&mut AstExprP<P>) -> Result<(), E>>(
        &mut self,
        f: &mut F,
    ) -> Result<(), E>
        requires { MayWriteUntilErr expression_of F.FnMut f.old (children self.old) }
        ensures calls { WritesUntilErr expression_of F.FnMut f.old (children self.old) (children self.new) result f.new }
        ensures rest { same_rest self.old self.new };
}

impl<P: AstPayload> ExprPVisitMut<P> for ExprP<P> {
    ghost children = { children };

    ghost same_rest = { λ old new. frame_of new ≡ frame_of old };

    fn visit_expr_err_mut<E, F: FnMut(&mut AstExprP<P>) -> Result<(), E>>(
        &mut self,
        f: &mut F,
    ) -> Result<(), E> {
        write_children(self, f, &CallErr)
    }
}

/// A mutable walk over the names that a target binds.
pub trait AssignTargetPVisitMut<P: AstPayload> {
    // The names that the target binds, each with its payload.
    ghost lvalues: { Self → List (Word × P.IdentAssignPayload) };

    // Whether all but the names is equal.
    ghost same_rest: { Self → Self → Type 0 };

    /// Calls `f` at each name that the target binds, from left to right; an element or an attribute binds none. The rest
    /// is unchanged.
    fn visit_lvalue_mut<F: FnMut(&mut AstAssignIdentP<P>)>(&mut self, f: &mut F)
        requires { MayWrite name_of F.FnMut f.old (lvalues self.old) }
        ensures calls { Writes name_of F.FnMut f.old (lvalues self.old) (lvalues self.new) f.new }
        ensures rest { same_rest self.old self.new };

    /// Calls `f` at each name that the target binds, in the order of `visit_lvalue_mut`, up to the first `Err`, which is
    /// returned; the names after it and all else are unchanged.
    fn visit_lvalue_err_mut<E, F: FnMut(&mut AstAssignIdentP<P>) -> Result<(), E>>(
        &mut self,
        f: &mut F,
    ) -> Result<(), E>
        requires { MayWriteUntilErr name_of F.FnMut f.old (lvalues self.old) }
        ensures calls { WritesUntilErr name_of F.FnMut f.old (lvalues self.old) (lvalues self.new) result f.new }
        ensures rest { same_rest self.old self.new };
}

impl<P: AstPayload> AssignTargetPVisitMut<P> for AssignTargetP<P> {
    ghost lvalues = { lvalues_of };

    ghost same_rest = { λ old new. unnamed_of new ≡ unnamed_of old };

    #[tactic(auto, using(crate::proofs::Handed::hand))]
    fn visit_lvalue_mut<F: FnMut(&mut AstAssignIdentP<P>)>(&mut self, f: &mut F) {
        match write_lvalues(self, f, &Call) {
            Ok(()) => {}
            Err(never) => match never {},
        }
    }

    fn visit_lvalue_err_mut<E, F: FnMut(&mut AstAssignIdentP<P>) -> Result<(), E>>(
        &mut self,
        f: &mut F,
    ) -> Result<(), E> {
        write_lvalues(self, f, &CallErr)
    }
}

/// Mutable walks over a statement.
pub trait StmtPVisitMut<P: AstPayload> {
    // The statements directly in the statement.
    ghost stmts: { Self → List (Statement (payloads P.LoadPayload P.IdentPayload P.IdentAssignPayload P.DefPayload P.TypeExprPayload)) };

    // The children, in the order of a walk.
    ghost children: { Self → List (Child (payloads P.LoadPayload P.IdentPayload P.IdentAssignPayload P.DefPayload P.TypeExprPayload)) };

    // Whether all but the statements in it is equal.
    ghost same_but_stmts: { Self → Self → Type 0 };

    // Whether all but the children is equal.
    ghost same_but_children: { Self → Self → Type 0 };

    /// Calls `f` at each statement directly in this one, in order; `f` may leave another one there.
    fn visit_stmt_mut<F: FnMut(&mut AstStmtP<P>)>(&mut self, f: &mut F)
        requires { MayWrite statement_of F.FnMut f.old (stmts self.old) }
        ensures calls { Writes statement_of F.FnMut f.old (stmts self.old) (stmts self.new) f.new }
        ensures rest { same_but_stmts self.old self.new };

    /// Passes each child to the visitor, which may change it: the expressions of the statement, then the statements in it.
    fn visit_children_mut<V: VisitMut<P, Infallible>>(&mut self, visitor: &mut V)
        requires { MayWriteBy (child_calls V.stmt_calls V.expr_calls) visitor.old (children self.old) }
        ensures calls { WriteBy (child_calls V.stmt_calls V.expr_calls) visitor.old (children self.old) (children self.new) (Ok tt) visitor.new }
        ensures rest { same_but_children self.old self.new };

    /// Passes each child to the visitor, in the order of `visit_children_mut`, up to the first `Err`, which is returned.
    /// What was changed before it stays changed.
    fn visit_children_err_mut<E, V: VisitMut<P, E>>(&mut self, visitor: &mut V) -> Result<(), E>
        requires { MayWriteBy (child_calls V.stmt_calls V.expr_calls) visitor.old (children self.old) }
        ensures calls { WriteBy (child_calls V.stmt_calls V.expr_calls) visitor.old (children self.old) (children self.new) result visitor.new }
        ensures rest { same_but_children self.old self.new };
}

impl<P: AstPayload> StmtPVisitMut<P> for StmtP<P> {
    ghost stmts = { stmts_of_stmt };

    ghost children = { children_of_stmt };

    ghost same_but_stmts = { λ old new. stmts_frame_of new ≡ stmts_frame_of old };

    ghost same_but_children = { λ old new. children_frame_of new ≡ children_frame_of old };

    #[tactic(auto, using(crate::proofs::Handed::hand))]
    fn visit_stmt_mut<F: FnMut(&mut AstStmtP<P>)>(&mut self, f: &mut F) {
        match write_stmts(self, f, &Call) {
            Ok(()) => {}
            Err(never) => match never {},
        }
    }

    fn visit_children_mut<V: VisitMut<P, Infallible>>(&mut self, visitor: &mut V) {
        match self.visit_children_err_mut(visitor) {
            Ok(()) => {}
            Err(never) => match never {},
        }
    }

    #[tactic(auto, using(crate::proofs::StatementParts::children))]
    fn visit_children_err_mut<E, V: VisitMut<P, E>>(&mut self, visitor: &mut V) -> Result<(), E> {
        write_exprs(self, visitor, &Hand)?;
        write_stmts(self, visitor, &Hand)
    }
}

/// Calls `f` at each statement directly in a statement, in order, up to the first `Err`, which is returned; the
/// statements after it are unchanged.
pub fn visit_stmt_result_mut<P: AstPayload, E, F: FnMut(&mut AstStmtP<P>) -> Result<(), E>>(
    stmt: &mut StmtP<P>,
    f: &mut F,
) -> Result<(), E>
    requires { MayWriteUntilErr statement_of F.FnMut f.old (stmts_of_stmt stmt.old) }
    ensures calls { WritesUntilErr statement_of F.FnMut f.old (stmts_of_stmt stmt.old) (stmts_of_stmt stmt.new) result f.new }
    ensures rest { stmts_frame_of stmt.new ≡ stmts_frame_of stmt.old }
{
    write_stmts(stmt, f, &CallErr)
}

/// Calls `f` at the expressions of a statement, in the order of `visit_expr_mut`, up to the first `Err`, which is
/// returned; the expressions after it are unchanged.
pub fn visit_expr_result_mut<P: AstPayload, E, F: FnMut(&mut AstExprP<P>) -> Result<(), E>>(
    stmt: &mut StmtP<P>,
    f: &mut F,
) -> Result<(), E>
    requires { MayWriteUntilErr expression_of F.FnMut f.old (exprs_in_stmt stmt.old) }
    ensures calls { WritesUntilErr expression_of F.FnMut f.old (exprs_in_stmt stmt.old) (exprs_in_stmt stmt.new) result f.new }
    ensures rest { entered_frame_of stmt.new ≡ entered_frame_of stmt.old }
{
    write_all_exprs(stmt, f, &CallErr)
}
