//! Walks over the types of parameters, expressions and statements.
ghost use Rattle.std.specs.Prelude.{[], ◌∷◌, ◌++◌, Result};
ghost use Rattle.std.specs.List.{flat_map};
ghost use Rattle.starlark_tree.specs.declared.ast.ExprP;
ghost use Rattle.starlark_tree.specs.declared.ast.StmtP;
ghost use Rattle.starlark_tree.specs.Places.{behind};
ghost use Rattle.starlark_tree.specs.Views.{boxed_type_of, maybe_type_of, payloads};
ghost use Rattle.starlark_tree.specs.Walks.{Calls, CallsSeen, MayWalkBy, TakesSeen, WalkBy};
ghost use Rattle.starlark_uniplate.specs.Entering.{calls_at};
ghost use Rattle.starlark_uniplate.specs.Types.{TypeExpression, expr_types, form_types_of, own_types_of_stmt, type_seen};
ghost use Rattle.starlark_uniplate.specs.Types.{types_in_parameter, types_in_stmt, types_of, types_of_expr, types_of_statement};

use crate::uniplate::at::{AtExpr, AtStmt, CallErr};
use crate::uniplate::block::walk_stmts;
use crate::uniplate::inside::Inside;
use crate::uniplate::listed::{def_parameters, lambda_parameters};
use crate::uniplate::statement::walk_exprs;
use starlark_tree::ast::{
    AstExprP, AstParameterP, AstPayload, AstStmtP, AstTypeExprP, DefP, ExprP, LambdaP, ParameterP,
    StmtP,
};

/// Called at a type.
pub(super) trait AtType<P: AstPayload, S, E> {
    // In which states it may be called at which types, and the effect of a call.
    ghost calls: { Calls S (TypeExpression (payloads P.LoadPayload P.IdentPayload P.IdentAssignPayload P.DefPayload P.TypeExprPayload)) E };

    fn call(&self, ty: &AstTypeExprP<P>, state: &mut S) -> Result<(), E>
        requires { calls.may state.old (type_seen ty.now) }
        ensures { calls.call state.old (type_seen ty.now) result state.new };
}

impl<P: AstPayload, E, F: FnMut(&AstTypeExprP<P>) -> Result<(), E>> AtType<P, F, E> for CallErr {
    ghost calls = { record { may = TakesSeen (behind type_seen) F.FnMut; call = CallsSeen (behind type_seen) F.FnMut } };

    fn call(&self, ty: &AstTypeExprP<P>, state: &mut F) -> Result<(), E> {
        state(ty)
    }
}

/// Visits a type.
#[tactic(auto, using(starlark_tree::proofs::Steps::walk_one))]
fn walk_type<P: AstPayload, S, E, G: AtType<P, S, E>>(
    ty: &AstTypeExprP<P>,
    state: &mut S,
    visit: &G,
) -> Result<(), E>
    requires { MayWalkBy G.calls state.old (type_seen ty.now ∷ []) }
    ensures { WalkBy G.calls state.old (type_seen ty.now ∷ []) result state.new }
{
    visit.call(ty, state)
}

/// Visits a type in a box, if there is one.
fn walk_boxed_type<P: AstPayload, S, E, G: AtType<P, S, E>>(
    ty: &Option<Box<AstTypeExprP<P>>>,
    state: &mut S,
    visit: &G,
) -> Result<(), E>
    requires { MayWalkBy G.calls state.old (types_of (boxed_type_of ty.now)) }
    ensures { WalkBy G.calls state.old (types_of (boxed_type_of ty.now)) result state.new }
{
    match ty {
        Some(ty) => walk_type(ty, state, visit),
        None => Ok(()),
    }
}

/// Visits the type of a parameter, if it has one.
fn walk_parameter_type<P: AstPayload, S, E, G: AtType<P, S, E>>(
    parameter: &ParameterP<P>,
    state: &mut S,
    visit: &G,
) -> Result<(), E>
    requires { MayWalkBy G.calls state.old (types_in_parameter parameter.now) }
    ensures { WalkBy G.calls state.old (types_in_parameter parameter.now) result state.new }
{
    match parameter {
        ParameterP::Slash | ParameterP::NoArgs => Ok(()),
        ParameterP::Normal(_, ty, _) => walk_boxed_type(ty, state, visit),
        ParameterP::Args(_, ty) => walk_boxed_type(ty, state, visit),
        ParameterP::KwArgs(_, ty) => walk_boxed_type(ty, state, visit),
    }
}

/// Visits the types of parameters.
#[tactic(auto, using(crate::proofs::Calls::items))]
fn walk_parameter_types<P: AstPayload, S, E, G: AtType<P, S, E>>(
    parameters: &[AstParameterP<P>],
    state: &mut S,
    visit: &G,
) -> Result<(), E>
    requires { MayWalkBy G.calls state.old (flat_map (λ p. types_in_parameter p.node) parameters.now) }
    ensures { WalkBy G.calls state.old (flat_map (λ p. types_in_parameter p.node) parameters.now) result state.new }
{
    for parameter in parameters {
        walk_parameter_type(&parameter.node, state, visit)?;
    }
    Ok(())
}

/// Visits the types of a lambda's parameters.
fn walk_lambda_types<P: AstPayload, S, E, G: AtType<P, S, E>>(
    lambda: &LambdaP<P>,
    state: &mut S,
    visit: &G,
) -> Result<(), E>
    requires { MayWalkBy G.calls state.old (types_of_expr (ExprP.Lambda lambda.now)) }
    ensures { WalkBy G.calls state.old (types_of_expr (ExprP.Lambda lambda.now)) result state.new }
{
    walk_parameter_types(lambda_parameters(lambda), state, visit)
}

/// Visits the types of an expression itself: those of a lambda's parameters.
fn walk_expr_types<P: AstPayload, S, E, G: AtType<P, S, E>>(
    expr: &ExprP<P>,
    state: &mut S,
    visit: &G,
) -> Result<(), E>
    requires { MayWalkBy G.calls state.old (types_of_expr expr.now) }
    ensures { WalkBy G.calls state.old (types_of_expr expr.now) result state.new }
{
    match expr {
        ExprP::Lambda(lambda) => walk_lambda_types(lambda, state, visit),
        ExprP::Tuple(_)
        | ExprP::Dot(_, _)
        | ExprP::Call(_, _)
        | ExprP::Index(_)
        | ExprP::Index2(_)
        | ExprP::Slice(_, _, _, _)
        | ExprP::Identifier(_)
        | ExprP::Literal(_)
        | ExprP::Not(_)
        | ExprP::Minus(_)
        | ExprP::Plus(_)
        | ExprP::BitNot(_)
        | ExprP::Op(_, _, _)
        | ExprP::If(_)
        | ExprP::List(_)
        | ExprP::Dict(_)
        | ExprP::ListComprehension(_, _, _)
        | ExprP::DictComprehension(_, _, _)
        | ExprP::FString(_) => Ok(()),
    }
}

/// Visits the type of an assignment, if it has one.
fn walk_assigned_type<P: AstPayload, S, E, G: AtType<P, S, E>>(
    ty: &Option<AstTypeExprP<P>>,
    state: &mut S,
    visit: &G,
) -> Result<(), E>
    requires { MayWalkBy G.calls state.old (types_of (maybe_type_of ty.now)) }
    ensures { WalkBy G.calls state.old (types_of (maybe_type_of ty.now)) result state.new }
{
    match ty {
        Some(ty) => walk_type(ty, state, visit),
        None => Ok(()),
    }
}

/// Visits the types of parameters, then the return type.
#[tactic(auto, using(crate::proofs::Calls::parts))]
fn walk_signature_types<P: AstPayload, S, E, G: AtType<P, S, E>>(
    parameters: &[AstParameterP<P>],
    return_type: &Option<Box<AstTypeExprP<P>>>,
    state: &mut S,
    visit: &G,
) -> Result<(), E>
    requires { MayWalkBy G.calls state.old (flat_map (λ p. types_in_parameter p.node) parameters.now
        ++ types_of (boxed_type_of return_type.now)) }
    ensures { WalkBy G.calls state.old (flat_map (λ p. types_in_parameter p.node) parameters.now
        ++ types_of (boxed_type_of return_type.now)) result state.new }
{
    match walk_parameter_types(parameters, state, visit) {
        Ok(()) => walk_boxed_type(return_type, state, visit),
        Err(error) => Err(error),
    }
}

/// Visits the types of a definition.
fn walk_def_types<P: AstPayload, S, E, G: AtType<P, S, E>>(
    def: &DefP<P>,
    state: &mut S,
    visit: &G,
) -> Result<(), E>
    requires { MayWalkBy G.calls state.old (form_types_of (StmtP.Def def.now)) }
    ensures { WalkBy G.calls state.old (form_types_of (StmtP.Def def.now)) result state.new }
{
    walk_signature_types(def_parameters(def), &def.return_type, state, visit)
}

/// Visits the types of a statement itself.
fn walk_form_types<P: AstPayload, S, E, G: AtType<P, S, E>>(
    stmt: &StmtP<P>,
    state: &mut S,
    visit: &G,
) -> Result<(), E>
    requires { MayWalkBy G.calls state.old (form_types_of stmt.now) }
    ensures { WalkBy G.calls state.old (form_types_of stmt.now) result state.new }
{
    match stmt {
        StmtP::Assign(assign) => walk_assigned_type(&assign.ty, state, visit),
        StmtP::Def(def) => walk_def_types(def, state, visit),
        StmtP::Break
        | StmtP::Continue
        | StmtP::Pass
        | StmtP::Return(_)
        | StmtP::Expression(_)
        | StmtP::AssignModify(_, _, _)
        | StmtP::Statements(_)
        | StmtP::If(_, _)
        | StmtP::IfElse(_, _)
        | StmtP::For(_)
        | StmtP::Load(_) => Ok(()),
    }
}

/// Visits the types of an expression or of a statement, without those of what is in the statement.
#[derive(Clone, Copy)]
struct AtTypes<G> {
    visit: G,
}

impl<P: AstPayload, S, E, G: AtType<P, S, E>> AtExpr<P, S, E> for AtTypes<G> {
    ghost calls = { calls_at expr_types G.calls };

    fn call(&self, expr: &AstExprP<P>, state: &mut S) -> Result<(), E> {
        walk_expr_types(&expr.node, state, &self.visit)
    }
}

/// Visits the types of a statement itself, then those in its expressions.
#[tactic(auto, using(crate::proofs::Entered::types))]
fn walk_own_types<P: AstPayload, S, E, G: AtType<P, S, E> + Copy>(
    stmt: &StmtP<P>,
    state: &mut S,
    visit: G,
) -> Result<(), E>
    requires { MayWalkBy G.calls state.old (own_types_of_stmt stmt.now) }
    ensures { WalkBy G.calls state.old (own_types_of_stmt stmt.now) result state.new }
{
    match walk_form_types(stmt, state, &visit) {
        Ok(()) => {
            let visit = AtTypes { visit };
            walk_exprs(stmt, state, &Inside { visit })
        }
        Err(error) => Err(error),
    }
}

impl<P: AstPayload, S, E, G: AtType<P, S, E> + Copy> AtStmt<P, S, E> for AtTypes<G> {
    ghost calls = { calls_at types_of_statement G.calls };

    #[tactic(auto, unfolding(crate::specs::Held::statement_at))]
    fn call(&self, stmt: &AstStmtP<P>, state: &mut S) -> Result<(), E> {
        walk_own_types(&stmt.node, state, self.visit)
    }
}

/// Visits all types of a statement: its own and those in its expressions, then those of the statements in it.
#[tactic(auto, using(crate::proofs::Entered::then_stmts))]
pub(super) fn walk_all_types<P: AstPayload, S, E, G: AtType<P, S, E> + Copy>(
    stmt: &StmtP<P>,
    state: &mut S,
    visit: G,
) -> Result<(), E>
    requires { MayWalkBy G.calls state.old (types_in_stmt stmt.now) }
    ensures { WalkBy G.calls state.old (types_in_stmt stmt.now) result state.new }
{
    match walk_own_types(stmt, state, visit) {
        Ok(()) => {
            let visit = AtTypes { visit };
            walk_stmts(stmt, state, &Inside { visit })
        }
        Err(error) => Err(error),
    }
}
