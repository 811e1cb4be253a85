//! `clone` of each part of a tree: an equal value, or `AllocError` if allocation fails.
//! A clone has the same shape, names, literals and spans, and each payload is a clone of its source.
ghost use Rattle.std.specs.Prelude.{◌≡◌, IfOk, map, string_bytes};
ghost use Rattle.std.specs.List.{AllZip};
ghost use Rattle.starlark_lexer.specs.Tokens.{Span as Place};
ghost use Rattle.starlark_tree.specs.Clones.{ClonesArgument, ClonesClause, ClonesExpression, ClonesForIn, ClonesForm, ClonesLoadArg};
ghost use Rattle.starlark_tree.specs.Clones.{ClonesParameter, ClonesShape, ClonesTarget, IsExact, cloning};
ghost use Rattle.starlark_tree.specs.Views.{argument_of, argument_seen, assign_of, clause_seen, expression_of, for_in_of, form_seen};
ghost use Rattle.starlark_tree.specs.Views.{literal_seen, load_arg_of, parameter_seen, shape_seen, target_seen, word};
ghost use Rattle.starlark_tree.specs.declared.ast.ExprP;
ghost use Rattle.starlark_tree.specs.declared.ast.StmtP;

mod expr;
mod leaf;
mod load;
mod node;
mod stmt;

use crate::ast::{
    ArgumentP, AssignIdentP, AssignP, AssignTargetP, AstLiteral, AstPayload, CallArgsP, ClauseP,
    DefP, ExprP, FStringP, ForClauseP, ForP, IdentP, LambdaP, LoadArgP, LoadP, ParameterP, StmtP,
    TypeExprP,
};
use std::alloc::AllocError;

impl AstLiteral {
    /// Returns the same literal, in memory of its own.
    pub fn clone(&self) -> Result<Self, AllocError>
        ensures { IfOk result (λ copy. literal_seen copy ≡ literal_seen self.now) }
    {
        leaf::clone_literal(self)
    }
}

impl<P: AstPayload> IdentP<P> {
    /// Returns the same name, with a clone of its payload.
    pub fn clone(&self) -> Result<Self, AllocError>
        ensures ident { IfOk result (λ copy. string_bytes copy.ident ≡ string_bytes self.now.ident) }
        ensures payload { IfOk result (λ copy. P.IdentPayload.is_clone self.now.payload copy.payload) }
    {
        let ident = self.ident.clone()?;
        let payload = self.payload.clone()?;
        Ok(IdentP { ident, payload })
    }
}

impl<P: AstPayload> AssignIdentP<P> {
    /// Returns the same name, with a clone of its payload.
    pub fn clone(&self) -> Result<Self, AllocError>
        ensures ident { IfOk result (λ copy. string_bytes copy.ident ≡ string_bytes self.now.ident) }
        ensures payload { IfOk result (λ copy. P.IdentAssignPayload.is_clone self.now.payload copy.payload) }
    {
        let ident = self.ident.clone()?;
        let payload = self.payload.clone()?;
        Ok(AssignIdentP { ident, payload })
    }
}

impl<P: AstPayload> LoadArgP<P> {
    /// Returns the same name, with clones of its payloads.
    pub fn clone(&self) -> Result<Self, AllocError>
        ensures clones { IfOk result (λ copy. ClonesLoadArg
            (cloning P.LoadPayload.is_clone P.IdentPayload.is_clone P.IdentAssignPayload.is_clone P.DefPayload.is_clone P.TypeExprPayload.is_clone)
            (load_arg_of self.now) (load_arg_of copy)) }
        ensures equal_if_exact { IfOk result (λ copy. IsExact
            (cloning P.LoadPayload.is_clone P.IdentPayload.is_clone P.IdentAssignPayload.is_clone P.DefPayload.is_clone P.TypeExprPayload.is_clone)
            → load_arg_of copy ≡ load_arg_of self.now) }
    {
        load::clone_load_arg(self)
    }
}

impl<P: AstPayload> LoadP<P> {
    /// Returns the same load, with clones of its payloads.
    pub fn clone(&self) -> Result<Self, AllocError>
        ensures clones { IfOk result (λ copy. ClonesForm
            (cloning P.LoadPayload.is_clone P.IdentPayload.is_clone P.IdentAssignPayload.is_clone P.DefPayload.is_clone P.TypeExprPayload.is_clone)
            (form_seen (StmtP.Load self.now)) (form_seen (StmtP.Load copy))) }
        ensures equal_if_exact { IfOk result (λ copy. IsExact
            (cloning P.LoadPayload.is_clone P.IdentPayload.is_clone P.IdentAssignPayload.is_clone P.DefPayload.is_clone P.TypeExprPayload.is_clone)
            → form_seen (StmtP.Load copy) ≡ form_seen (StmtP.Load self.now)) }
    {
        load::clone_load(self)
    }
}

impl<P: AstPayload> ExprP<P> {
    /// Returns the same expression, with clones of its payloads.
    pub fn clone(&self) -> Result<Self, AllocError>
        ensures clones { IfOk result (λ copy. ClonesShape
            (cloning P.LoadPayload.is_clone P.IdentPayload.is_clone P.IdentAssignPayload.is_clone P.DefPayload.is_clone P.TypeExprPayload.is_clone)
            (shape_seen self.now) (shape_seen copy)) }
        ensures equal_if_exact { IfOk result (λ copy. IsExact
            (cloning P.LoadPayload.is_clone P.IdentPayload.is_clone P.IdentAssignPayload.is_clone P.DefPayload.is_clone P.TypeExprPayload.is_clone)
            → shape_seen copy ≡ shape_seen self.now) }
    {
        expr::clone_expr(self)
    }
}

impl<P: AstPayload> TypeExprP<P> {
    /// Returns the same type annotation, with clones of its payloads.
    pub fn clone(&self) -> Result<Self, AllocError>
        ensures clones { IfOk result (λ copy. ClonesExpression
            (cloning P.LoadPayload.is_clone P.IdentPayload.is_clone P.IdentAssignPayload.is_clone P.DefPayload.is_clone P.TypeExprPayload.is_clone)
            (expression_of self.now.expr) (expression_of copy.expr)) }
        ensures payload { IfOk result (λ copy. P.TypeExprPayload.is_clone self.now.payload copy.payload) }
        ensures equal_if_exact { IfOk result (λ copy. IsExact
            (cloning P.LoadPayload.is_clone P.IdentPayload.is_clone P.IdentAssignPayload.is_clone P.DefPayload.is_clone P.TypeExprPayload.is_clone)
            → expression_of copy.expr ≡ expression_of self.now.expr) }
    {
        expr::clone_type(self)
    }
}

impl<P: AstPayload> AssignTargetP<P> {
    /// Returns the same target, with clones of its payloads.
    pub fn clone(&self) -> Result<Self, AllocError>
        ensures clones { IfOk result (λ copy. (at : Place) → ClonesTarget
            (cloning P.LoadPayload.is_clone P.IdentPayload.is_clone P.IdentAssignPayload.is_clone P.DefPayload.is_clone P.TypeExprPayload.is_clone)
            (target_seen at self.now) (target_seen at copy)) }
        ensures equal_if_exact { IfOk result (λ copy. IsExact
            (cloning P.LoadPayload.is_clone P.IdentPayload.is_clone P.IdentAssignPayload.is_clone P.DefPayload.is_clone P.TypeExprPayload.is_clone)
            → (at : Place) → target_seen at copy ≡ target_seen at self.now) }
    {
        expr::clone_target(self)
    }
}

impl<P: AstPayload> ArgumentP<P> {
    /// Returns the same argument, with clones of its payloads.
    pub fn clone(&self) -> Result<Self, AllocError>
        ensures clones { IfOk result (λ copy. (at : Place) → ClonesArgument
            (cloning P.LoadPayload.is_clone P.IdentPayload.is_clone P.IdentAssignPayload.is_clone P.DefPayload.is_clone P.TypeExprPayload.is_clone)
            (argument_seen at self.now) (argument_seen at copy)) }
        ensures equal_if_exact { IfOk result (λ copy. IsExact
            (cloning P.LoadPayload.is_clone P.IdentPayload.is_clone P.IdentAssignPayload.is_clone P.DefPayload.is_clone P.TypeExprPayload.is_clone)
            → (at : Place) → argument_seen at copy ≡ argument_seen at self.now) }
    {
        expr::clone_argument(self)
    }
}

impl<P: AstPayload> ParameterP<P> {
    /// Returns the same parameter, with clones of its payloads.
    pub fn clone(&self) -> Result<Self, AllocError>
        ensures clones { IfOk result (λ copy. (at : Place) → ClonesParameter
            (cloning P.LoadPayload.is_clone P.IdentPayload.is_clone P.IdentAssignPayload.is_clone P.DefPayload.is_clone P.TypeExprPayload.is_clone)
            (parameter_seen at self.now) (parameter_seen at copy)) }
        ensures equal_if_exact { IfOk result (λ copy. IsExact
            (cloning P.LoadPayload.is_clone P.IdentPayload.is_clone P.IdentAssignPayload.is_clone P.DefPayload.is_clone P.TypeExprPayload.is_clone)
            → (at : Place) → parameter_seen at copy ≡ parameter_seen at self.now) }
    {
        expr::clone_parameter(self)
    }
}

impl<P: AstPayload> LambdaP<P> {
    /// Returns the same lambda, with clones of its payloads.
    pub fn clone(&self) -> Result<Self, AllocError>
        ensures clones { IfOk result (λ copy. ClonesShape
            (cloning P.LoadPayload.is_clone P.IdentPayload.is_clone P.IdentAssignPayload.is_clone P.DefPayload.is_clone P.TypeExprPayload.is_clone)
            (shape_seen (ExprP.Lambda self.now)) (shape_seen (ExprP.Lambda copy))) }
        ensures equal_if_exact { IfOk result (λ copy. IsExact
            (cloning P.LoadPayload.is_clone P.IdentPayload.is_clone P.IdentAssignPayload.is_clone P.DefPayload.is_clone P.TypeExprPayload.is_clone)
            → shape_seen (ExprP.Lambda copy) ≡ shape_seen (ExprP.Lambda self.now)) }
    {
        expr::clone_lambda(self)
    }
}

impl<P: AstPayload> CallArgsP<P> {
    /// Returns the same arguments, with clones of their payloads.
    pub fn clone(&self) -> Result<Self, AllocError>
        ensures clones { IfOk result (λ copy. AllZip (λ x y. ClonesArgument
            (cloning P.LoadPayload.is_clone P.IdentPayload.is_clone P.IdentAssignPayload.is_clone P.DefPayload.is_clone P.TypeExprPayload.is_clone)
            (argument_of x) (argument_of y)) self.now.args.items copy.args.items) }
        ensures equal_if_exact { IfOk result (λ copy. IsExact
            (cloning P.LoadPayload.is_clone P.IdentPayload.is_clone P.IdentAssignPayload.is_clone P.DefPayload.is_clone P.TypeExprPayload.is_clone)
            → map argument_of copy.args.items ≡ map argument_of self.now.args.items) }
    {
        let args = expr::clone_arguments(&self.args)?;
        Ok(CallArgsP { args })
    }
}

impl<P: AstPayload> ForClauseP<P> {
    /// Returns the same clause, with clones of its payloads.
    pub fn clone(&self) -> Result<Self, AllocError>
        ensures clones { IfOk result (λ copy. ClonesForIn
            (cloning P.LoadPayload.is_clone P.IdentPayload.is_clone P.IdentAssignPayload.is_clone P.DefPayload.is_clone P.TypeExprPayload.is_clone)
            (for_in_of self.now) (for_in_of copy)) }
        ensures equal_if_exact { IfOk result (λ copy. IsExact
            (cloning P.LoadPayload.is_clone P.IdentPayload.is_clone P.IdentAssignPayload.is_clone P.DefPayload.is_clone P.TypeExprPayload.is_clone)
            → for_in_of copy ≡ for_in_of self.now) }
    {
        expr::clone_for(self)
    }
}

impl<P: AstPayload> ClauseP<P> {
    /// Returns the same clause, with clones of its payloads.
    pub fn clone(&self) -> Result<Self, AllocError>
        ensures clones { IfOk result (λ copy. ClonesClause
            (cloning P.LoadPayload.is_clone P.IdentPayload.is_clone P.IdentAssignPayload.is_clone P.DefPayload.is_clone P.TypeExprPayload.is_clone)
            (clause_seen self.now) (clause_seen copy)) }
        ensures equal_if_exact { IfOk result (λ copy. IsExact
            (cloning P.LoadPayload.is_clone P.IdentPayload.is_clone P.IdentAssignPayload.is_clone P.DefPayload.is_clone P.TypeExprPayload.is_clone)
            → clause_seen copy ≡ clause_seen self.now) }
    {
        expr::clone_clause(self)
    }
}

impl<P: AstPayload> FStringP<P> {
    /// Returns the same f-string, with clones of its payloads.
    pub fn clone(&self) -> Result<Self, AllocError>
        ensures clones { IfOk result (λ copy. AllZip (λ x y. ClonesExpression
            (cloning P.LoadPayload.is_clone P.IdentPayload.is_clone P.IdentAssignPayload.is_clone P.DefPayload.is_clone P.TypeExprPayload.is_clone)
            (expression_of x) (expression_of y)) self.now.expressions.items copy.expressions.items) }
        ensures format { IfOk result (λ copy. word copy.format ≡ word self.now.format) }
        ensures equal_if_exact { IfOk result (λ copy. IsExact
            (cloning P.LoadPayload.is_clone P.IdentPayload.is_clone P.IdentAssignPayload.is_clone P.DefPayload.is_clone P.TypeExprPayload.is_clone)
            → map expression_of copy.expressions.items ≡ map expression_of self.now.expressions.items) }
    {
        expr::clone_format(self)
    }
}

impl<P: AstPayload> AssignP<P> {
    /// Returns the same assignment, with clones of its payloads.
    pub fn clone(&self) -> Result<Self, AllocError>
        ensures clones { IfOk result (λ copy. ClonesForm
            (cloning P.LoadPayload.is_clone P.IdentPayload.is_clone P.IdentAssignPayload.is_clone P.DefPayload.is_clone P.TypeExprPayload.is_clone)
            (assign_of self.now) (assign_of copy)) }
        ensures equal_if_exact { IfOk result (λ copy. IsExact
            (cloning P.LoadPayload.is_clone P.IdentPayload.is_clone P.IdentAssignPayload.is_clone P.DefPayload.is_clone P.TypeExprPayload.is_clone)
            → assign_of copy ≡ assign_of self.now) }
    {
        stmt::clone_assign(self)
    }
}

impl<P: AstPayload> ForP<P> {
    /// Returns the same `for` statement, with clones of its payloads.
    pub fn clone(&self) -> Result<Self, AllocError>
        ensures clones { IfOk result (λ copy. ClonesForm
            (cloning P.LoadPayload.is_clone P.IdentPayload.is_clone P.IdentAssignPayload.is_clone P.DefPayload.is_clone P.TypeExprPayload.is_clone)
            (form_seen (StmtP.For self.now)) (form_seen (StmtP.For copy))) }
        ensures equal_if_exact { IfOk result (λ copy. IsExact
            (cloning P.LoadPayload.is_clone P.IdentPayload.is_clone P.IdentAssignPayload.is_clone P.DefPayload.is_clone P.TypeExprPayload.is_clone)
            → form_seen (StmtP.For copy) ≡ form_seen (StmtP.For self.now)) }
    {
        stmt::clone_for(self)
    }
}

impl<P: AstPayload> DefP<P> {
    /// Returns the same function definition, with clones of its payloads.
    pub fn clone(&self) -> Result<Self, AllocError>
        ensures clones { IfOk result (λ copy. ClonesForm
            (cloning P.LoadPayload.is_clone P.IdentPayload.is_clone P.IdentAssignPayload.is_clone P.DefPayload.is_clone P.TypeExprPayload.is_clone)
            (form_seen (StmtP.Def self.now)) (form_seen (StmtP.Def copy))) }
        ensures equal_if_exact { IfOk result (λ copy. IsExact
            (cloning P.LoadPayload.is_clone P.IdentPayload.is_clone P.IdentAssignPayload.is_clone P.DefPayload.is_clone P.TypeExprPayload.is_clone)
            → form_seen (StmtP.Def copy) ≡ form_seen (StmtP.Def self.now)) }
    {
        stmt::clone_def(self)
    }
}

impl<P: AstPayload> StmtP<P> {
    /// Returns the same statement, with clones of its payloads.
    pub fn clone(&self) -> Result<Self, AllocError>
        ensures clones { IfOk result (λ copy. ClonesForm
            (cloning P.LoadPayload.is_clone P.IdentPayload.is_clone P.IdentAssignPayload.is_clone P.DefPayload.is_clone P.TypeExprPayload.is_clone)
            (form_seen self.now) (form_seen copy)) }
        ensures equal_if_exact { IfOk result (λ copy. IsExact
            (cloning P.LoadPayload.is_clone P.IdentPayload.is_clone P.IdentAssignPayload.is_clone P.DefPayload.is_clone P.TypeExprPayload.is_clone)
            → form_seen copy ≡ form_seen self.now) }
    {
        stmt::clone_stmt(self)
    }
}
