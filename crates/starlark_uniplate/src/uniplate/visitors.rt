//! The visitors: traits for the types of the tree.
ghost use Rattle.std.specs.Prelude.{List};
ghost use Rattle.starlark_tree.specs.Ast.{Expression, Statement, Word};
ghost use Rattle.starlark_tree.specs.Places.{behind, children, clause_exprs, exprs_in_parameter, exprs_in_target, for_exprs};
ghost use Rattle.starlark_tree.specs.Views.{clause_seen, expression_of, for_in_of, payloads, statement_of};
ghost use Rattle.starlark_tree.specs.Walks.{MayVisit, MayVisitUntilErr, Visits, VisitsUntilErr};
ghost use Rattle.starlark_tree.specs.Children.{Child, children_of_def, exprs_in_stmt, stmts_of_stmt};
ghost use Rattle.starlark_uniplate.specs.Idents.{ident_of, idents_in_stmt};
ghost use Rattle.starlark_tree.specs.Names.{lvalues_of, name_of};
ghost use Rattle.starlark_uniplate.specs.Statements.{exprs_below_expr, exprs_below_stmt, stmts_below_stmt};
ghost use Rattle.starlark_uniplate.specs.Types.{TypeExpression, type_seen, types_in_stmt};
ghost use Rattle.starlark_uniplate.specs.Visited.{child_of};

use crate::uniplate::at::{Call, CallErr};
use crate::uniplate::block::walk_stmts;
use crate::uniplate::children::walk_children;
use crate::uniplate::clause::{walk_clause, walk_for};
use crate::uniplate::deep::walk_all_exprs;
use crate::uniplate::ident::AtIdent;
use crate::uniplate::inside::{Inside, walk_exprs_inside};
use crate::uniplate::lvalue::walk_lvalues;
use crate::uniplate::parameter::walk_parameter;
use crate::uniplate::target::walk_target;
use crate::uniplate::types::walk_all_types;
use crate::uniplate::visit::{Parent, Visit, show_children_err};
use starlark_tree::ast::{
    AssignTargetP, AstAssignIdentP, AstExprP, AstIdentP, AstPayload, AstStmtP, AstTypeExprP,
    ClauseP, DefP, ExprP, ForClauseP, ParameterP, StmtP,
};

/// A walk over the expressions of a part of the tree.
pub trait VisitExpr<P: AstPayload> {
    // The expressions, in the order of a walk.
    ghost exprs: { Self → List (Expression (payloads P.LoadPayload P.IdentPayload P.IdentAssignPayload P.DefPayload P.TypeExprPayload)) };

    /// Calls `f` at each expression of the node, from left to right.
    ///
    /// For an expression these are its children; a comprehension's clauses come before its value. For a statement they are
    /// all of its expressions, and those of the statements in it. For a parameter they are the type and the default value.
    fn visit_expr<F: FnMut(&AstExprP<P>)>(&self, f: &mut F)
        requires { MayVisit (behind expression_of) F.FnMut f.old (exprs self.now) }
        ensures { Visits (behind expression_of) F.FnMut f.old (exprs self.now) f.new };
}

impl<P: AstPayload> VisitExpr<P> for ExprP<P> {
    ghost exprs = { children };

    fn visit_expr<F: FnMut(&AstExprP<P>)>(&self, f: &mut F) {
        match walk_children(self, f, &Call) {
            Ok(()) => {}
            Err(never) => match never {},
        }
    }
}

impl<P: AstPayload> VisitExpr<P> for StmtP<P> {
    ghost exprs = { exprs_in_stmt };

    fn visit_expr<F: FnMut(&AstExprP<P>)>(&self, f: &mut F) {
        match walk_all_exprs(self, f, Call) {
            Ok(()) => {}
            Err(never) => match never {},
        }
    }
}

impl<P: AstPayload> VisitExpr<P> for AssignTargetP<P> {
    ghost exprs = { exprs_in_target };

    fn visit_expr<F: FnMut(&AstExprP<P>)>(&self, f: &mut F) {
        match walk_target(self, f, &Call) {
            Ok(()) => {}
            Err(never) => match never {},
        }
    }
}

impl<P: AstPayload> VisitExpr<P> for ForClauseP<P> {
    ghost exprs = { λ c. for_exprs (for_in_of c) };

    fn visit_expr<F: FnMut(&AstExprP<P>)>(&self, f: &mut F) {
        match walk_for(self, f, &Call) {
            Ok(()) => {}
            Err(never) => match never {},
        }
    }
}

impl<P: AstPayload> VisitExpr<P> for ClauseP<P> {
    ghost exprs = { λ c. clause_exprs (clause_seen c) };

    fn visit_expr<F: FnMut(&AstExprP<P>)>(&self, f: &mut F) {
        match walk_clause(self, f, &Call) {
            Ok(()) => {}
            Err(never) => match never {},
        }
    }
}

impl<P: AstPayload> VisitExpr<P> for ParameterP<P> {
    ghost exprs = { exprs_in_parameter };

    fn visit_expr<F: FnMut(&AstExprP<P>)>(&self, f: &mut F) {
        match walk_parameter(self, f, &Call) {
            Ok(()) => {}
            Err(never) => match never {},
        }
    }
}

/// Walks over an expression, with closures that may fail.
pub trait ExprPVisit<P: AstPayload> {
    // The children, in the order of a walk.
    ghost children: { Self → List (Expression (payloads P.LoadPayload P.IdentPayload P.IdentAssignPayload P.DefPayload P.TypeExprPayload)) };

    // All expressions in the expression, each before those inside it.
    ghost all_exprs: { Self → List (Expression (payloads P.LoadPayload P.IdentPayload P.IdentAssignPayload P.DefPayload P.TypeExprPayload)) };

    /// Calls `f` at each child of the expression, in the order of `visit_expr`, up to the first `Err`, which is returned.
    fn visit_expr_err<E, F: FnMut(&AstExprP<P>) -> Result<(), E>>(&self, f: &mut F) -> Result<(), E>
        requires { MayVisitUntilErr (behind expression_of) F.FnMut f.old (children self.now) }
        ensures { VisitsUntilErr (behind expression_of) F.FnMut f.old (children self.now) result f.new };

    /// Calls `f` at all expressions in the expression, each before those inside it and otherwise in the order of
    /// `visit_expr`, up to the first `Err`, which is returned. This includes types and default values.
    fn visit_all_exprs<E, F: FnMut(&AstExprP<P>) -> Result<(), E>>(
        &self,
        f: &mut F,
    ) -> Result<(), E>
        requires { MayVisitUntilErr (behind expression_of) F.FnMut f.old (all_exprs self.now) }
        ensures { VisitsUntilErr (behind expression_of) F.FnMut f.old (all_exprs self.now) result f.new };
}

impl<P: AstPayload> ExprPVisit<P> for ExprP<P> {
    ghost children = { children };

    ghost all_exprs = { exprs_below_expr };

    fn visit_expr_err<E, F: FnMut(&AstExprP<P>) -> Result<(), E>>(
        &self,
        f: &mut F,
    ) -> Result<(), E> {
        walk_children(self, f, &CallErr)
    }

    #[tactic(auto, using(crate::proofs::Entered::in_children))]
    fn visit_all_exprs<E, F: FnMut(&AstExprP<P>) -> Result<(), E>>(
        &self,
        f: &mut F,
    ) -> Result<(), E> {
        walk_children(self, f, &Inside { visit: CallErr })
    }
}

/// A walk over the names that a target binds.
pub trait AssignTargetPVisit<P: AstPayload> {
    // The names that the target binds, each with its payload.
    ghost lvalues: { Self → List (Word × P.IdentAssignPayload) };

    /// Calls `f` at each name that the target binds, from left to right; an element or an attribute binds none.
    fn visit_lvalue<F: FnMut(&AstAssignIdentP<P>)>(&self, f: &mut F)
        requires { MayVisit (behind name_of) F.FnMut f.old (lvalues self.now) }
        ensures { Visits (behind name_of) F.FnMut f.old (lvalues self.now) f.new };
}

impl<P: AstPayload> AssignTargetPVisit<P> for AssignTargetP<P> {
    ghost lvalues = { lvalues_of };

    fn visit_lvalue<F: FnMut(&AstAssignIdentP<P>)>(&self, f: &mut F) {
        match walk_lvalues(self, f, &Call) {
            Ok(()) => {}
            Err(never) => match never {},
        }
    }
}

/// A walk over the children of a function definition.
pub trait DefPVisit<P: AstPayload> {
    // The children, in the order of a walk.
    ghost children: { Self → List (Child (payloads P.LoadPayload P.IdentPayload P.IdentAssignPayload P.DefPayload P.TypeExprPayload)) };

    /// Calls `f` at the expressions of the parameters and of the return type, then at the body, up to the first `Err`,
    /// which is returned.
    fn visit_children_err<E, F: FnMut(Visit<'_, P>) -> Result<(), E>>(
        &self,
        f: &mut F,
    ) -> Result<(), E>
        requires { MayVisitUntilErr child_of F.FnMut f.old (children self.now) }
        ensures { VisitsUntilErr child_of F.FnMut f.old (children self.now) result f.new };
}

impl<P: AstPayload> DefPVisit<P> for DefP<P> {
    ghost children = { children_of_def };

    fn visit_children_err<E, F: FnMut(Visit<'_, P>) -> Result<(), E>>(
        &self,
        f: &mut F,
    ) -> Result<(), E> {
        show_children_err(Parent::Def(self), f)
    }
}

/// Walks over a statement.
pub trait StmtPVisit<P: AstPayload> {
    // The expressions of the statement and of the statements in it.
    ghost exprs: { Self → List (Expression (payloads P.LoadPayload P.IdentPayload P.IdentAssignPayload P.DefPayload P.TypeExprPayload)) };

    // The statements directly in the statement.
    ghost stmts: { Self → List (Statement (payloads P.LoadPayload P.IdentPayload P.IdentAssignPayload P.DefPayload P.TypeExprPayload)) };

    // The identifiers in the expressions, each with its payload.
    ghost idents: { Self → List (Word × P.IdentPayload) };

    /// Calls `f` at each statement directly in this one, in order.
    fn visit_stmt<F: FnMut(&AstStmtP<P>)>(&self, f: &mut F)
        requires { MayVisit (behind statement_of) F.FnMut f.old (stmts self.now) }
        ensures { Visits (behind statement_of) F.FnMut f.old (stmts self.now) f.new };

    /// Calls `f` at each statement directly in this one, in order, up to the first `Err`, which is returned.
    fn visit_stmt_result<E, F: FnMut(&AstStmtP<P>) -> Result<(), E>>(
        &self,
        f: &mut F,
    ) -> Result<(), E>
        requires { MayVisitUntilErr (behind statement_of) F.FnMut f.old (stmts self.now) }
        ensures { VisitsUntilErr (behind statement_of) F.FnMut f.old (stmts self.now) result f.new };

    /// Calls `f` at the expressions of `visit_expr`, in its order, up to the first `Err`, which is returned.
    fn visit_expr_result<E, F: FnMut(&AstExprP<P>) -> Result<(), E>>(
        &self,
        f: &mut F,
    ) -> Result<(), E>
        requires { MayVisitUntilErr (behind expression_of) F.FnMut f.old (exprs self.now) }
        ensures { VisitsUntilErr (behind expression_of) F.FnMut f.old (exprs self.now) result f.new };

    /// Calls `f` at each identifier in the expressions of `visit_expr`, in its order, each expression before those inside
    /// it, up to the first `Err`, which is returned. This includes types and default values, but not names that are
    /// bound.
    fn visit_ident<E, F: FnMut(&AstIdentP<P>) -> Result<(), E>>(&self, f: &mut F) -> Result<(), E>
        requires { MayVisitUntilErr (behind ident_of) F.FnMut f.old (idents self.now) }
        ensures { VisitsUntilErr (behind ident_of) F.FnMut f.old (idents self.now) result f.new };
}

impl<P: AstPayload> StmtPVisit<P> for StmtP<P> {
    ghost exprs = { exprs_in_stmt };

    ghost stmts = { stmts_of_stmt };

    ghost idents = { idents_in_stmt };

    fn visit_stmt<F: FnMut(&AstStmtP<P>)>(&self, f: &mut F) {
        match walk_stmts(self, f, &Call) {
            Ok(()) => {}
            Err(never) => match never {},
        }
    }

    fn visit_stmt_result<E, F: FnMut(&AstStmtP<P>) -> Result<(), E>>(
        &self,
        f: &mut F,
    ) -> Result<(), E> {
        walk_stmts(self, f, &CallErr)
    }

    fn visit_expr_result<E, F: FnMut(&AstExprP<P>) -> Result<(), E>>(
        &self,
        f: &mut F,
    ) -> Result<(), E> {
        walk_all_exprs(self, f, CallErr)
    }

    #[tactic(auto, using(crate::proofs::Entered::in_idents))]
    fn visit_ident<E, F: FnMut(&AstIdentP<P>) -> Result<(), E>>(&self, f: &mut F) -> Result<(), E> {
        walk_exprs_inside(self, f, AtIdent)
    }
}

/// Walks over all that is in a statement.
pub trait StmtPVisitAll<P: AstPayload> {
    // All expressions of the statement and of the statements in it, each before those inside it.
    ghost all_exprs: { Self → List (Expression (payloads P.LoadPayload P.IdentPayload P.IdentAssignPayload P.DefPayload P.TypeExprPayload)) };

    // All statements in the statement, each before those inside it.
    ghost all_stmts: { Self → List (Statement (payloads P.LoadPayload P.IdentPayload P.IdentAssignPayload P.DefPayload P.TypeExprPayload)) };

    /// Calls `f` at all expressions of the statement and of the statements in it, in the order of `visit_expr` and each
    /// before those inside it, up to the first `Err`, which is returned. This includes types and default values.
    fn visit_all_exprs<E, F: FnMut(&AstExprP<P>) -> Result<(), E>>(
        &self,
        f: &mut F,
    ) -> Result<(), E>
        requires { MayVisitUntilErr (behind expression_of) F.FnMut f.old (all_exprs self.now) }
        ensures { VisitsUntilErr (behind expression_of) F.FnMut f.old (all_exprs self.now) result f.new };

    /// Calls `f` at all statements in this one, in order and each before those inside it, up to the first `Err`, which
    /// is returned.
    fn visit_all_stmts<E, F: FnMut(&AstStmtP<P>) -> Result<(), E>>(
        &self,
        f: &mut F,
    ) -> Result<(), E>
        requires { MayVisitUntilErr (behind statement_of) F.FnMut f.old (all_stmts self.now) }
        ensures { VisitsUntilErr (behind statement_of) F.FnMut f.old (all_stmts self.now) result f.new };
}

impl<P: AstPayload> StmtPVisitAll<P> for StmtP<P> {
    ghost all_exprs = { exprs_below_stmt };

    ghost all_stmts = { stmts_below_stmt };

    fn visit_all_exprs<E, F: FnMut(&AstExprP<P>) -> Result<(), E>>(
        &self,
        f: &mut F,
    ) -> Result<(), E> {
        walk_exprs_inside(self, f, CallErr)
    }

    #[tactic(auto, using(crate::proofs::Entered::in_stmts))]
    fn visit_all_stmts<E, F: FnMut(&AstStmtP<P>) -> Result<(), E>>(
        &self,
        f: &mut F,
    ) -> Result<(), E> {
        walk_stmts(self, f, &Inside { visit: CallErr })
    }
}

/// A walk over the types in a statement.
pub trait StmtPVisitTypes<P: AstPayload> {
    // All types of the statement and of the statements in it, in the order of a walk.
    ghost types: { Self → List (TypeExpression (payloads P.LoadPayload P.IdentPayload P.IdentAssignPayload P.DefPayload P.TypeExprPayload)) };

    /// Calls `f` at the types of each statement before those of the statements in it: at those of a definition's parameters,
    /// then at its return type, or at that of an assignment; then at those in the statement's expressions, the types of a
    /// lambda's parameters before what is in it. Stops at the first `Err`, which is returned.
    fn visit_type_expr_err<E, F: FnMut(&AstTypeExprP<P>) -> Result<(), E>>(
        &self,
        f: &mut F,
    ) -> Result<(), E>
        requires { MayVisitUntilErr (behind type_seen) F.FnMut f.old (types self.now) }
        ensures { VisitsUntilErr (behind type_seen) F.FnMut f.old (types self.now) result f.new };
}

impl<P: AstPayload> StmtPVisitTypes<P> for StmtP<P> {
    ghost types = { types_in_stmt };

    fn visit_type_expr_err<E, F: FnMut(&AstTypeExprP<P>) -> Result<(), E>>(
        &self,
        f: &mut F,
    ) -> Result<(), E> {
        walk_all_types(self, f, CallErr)
    }
}
