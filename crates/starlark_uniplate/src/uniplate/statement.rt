//! Walks over the expressions of a statement.
ghost use Rattle.starlark_tree.specs.declared.ast.StmtP;
ghost use Rattle.std.specs.Prelude.{[], ◌∷◌, ◌++◌, option_map, option_to_list};
ghost use Rattle.std.specs.List.{flat_map};
ghost use Rattle.starlark_tree.specs.Children.{exprs_of_stmt};
ghost use Rattle.starlark_tree.specs.Places.{exprs_in_parameter, exprs_in_target, type_exprs};
ghost use Rattle.starlark_tree.specs.Views.{boxed_type_of, expression_of, maybe_type_of};
ghost use Rattle.starlark_tree.specs.Walks.{MayWalkBy, WalkBy};

use crate::uniplate::at::AtExpr;
use crate::uniplate::listed::def_parameters;
use crate::uniplate::one::{walk_one, walk_two};
use crate::uniplate::parameter::{walk_parameters, walk_type};
use crate::uniplate::target::walk_target;
use starlark_tree::ast::{
    AssignP, AstAssignTargetP, AstExprP, AstParameterP, AstPayload, AstTypeExprP, DefP, StmtP,
};

/// Visits an expression, if there is one.
fn walk_optional<P: AstPayload, S, E, G: AtExpr<P, S, E>>(
    expr: &Option<AstExprP<P>>,
    state: &mut S,
    visit: &G,
) -> Result<(), E>
    requires { MayWalkBy G.calls state.old (option_to_list (option_map expression_of expr.now)) }
    ensures { WalkBy G.calls state.old (option_to_list (option_map expression_of expr.now)) result state.new }
{
    match expr {
        Some(expr) => walk_one(expr, state, visit),
        None => Ok(()),
    }
}

/// Visits the expressions of a target, and what is assigned or iterated over.
#[tactic(auto, using(crate::proofs::Sequel::one_more))]
fn walk_binding<P: AstPayload, S, E, G: AtExpr<P, S, E>>(
    target: &AstAssignTargetP<P>,
    value: &AstExprP<P>,
    state: &mut S,
    visit: &G,
) -> Result<(), E>
    requires { MayWalkBy G.calls state.old (exprs_in_target target.now.node ++ expression_of value.now ∷ []) }
    ensures { WalkBy G.calls state.old (exprs_in_target target.now.node ++ expression_of value.now ∷ []) result state.new }
{
    match walk_target(&target.node, state, visit) {
        Ok(()) => walk_one(value, state, visit),
        Err(error) => Err(error),
    }
}

/// Visits a type's expression, if there is a type, and the value.
fn walk_typed<P: AstPayload, S, E, G: AtExpr<P, S, E>>(
    ty: &Option<AstTypeExprP<P>>,
    value: &AstExprP<P>,
    state: &mut S,
    visit: &G,
) -> Result<(), E>
    requires { MayWalkBy G.calls state.old (type_exprs (maybe_type_of ty.now) ++ expression_of value.now ∷ []) }
    ensures { WalkBy G.calls state.old (type_exprs (maybe_type_of ty.now) ++ expression_of value.now ∷ []) result state.new }
{
    match ty {
        Some(ty) => walk_two(&ty.node.expr, value, state, visit),
        None => walk_one(value, state, visit),
    }
}

/// Visits the expressions of an assignment.
#[tactic(auto, using(crate::proofs::Sequel::plain))]
fn walk_assign<P: AstPayload, S, E, G: AtExpr<P, S, E>>(
    assign: &AssignP<P>,
    state: &mut S,
    visit: &G,
) -> Result<(), E>
    requires { MayWalkBy G.calls state.old (exprs_in_target assign.now.lhs.node
        ++ (type_exprs (maybe_type_of assign.now.ty) ++ expression_of assign.now.rhs ∷ [])) }
    ensures { WalkBy G.calls state.old (exprs_in_target assign.now.lhs.node
        ++ (type_exprs (maybe_type_of assign.now.ty) ++ expression_of assign.now.rhs ∷ [])) result state.new }
{
    match walk_target(&assign.lhs.node, state, visit) {
        Ok(()) => walk_typed(&assign.ty, &assign.rhs, state, visit),
        Err(error) => Err(error),
    }
}

/// Visits the expressions of parameters, and that of the return type.
#[tactic(auto, using(crate::proofs::Calls::parts))]
fn walk_signature<P: AstPayload, S, E, G: AtExpr<P, S, E>>(
    parameters: &[AstParameterP<P>],
    return_type: &Option<Box<AstTypeExprP<P>>>,
    state: &mut S,
    visit: &G,
) -> Result<(), E>
    requires { MayWalkBy G.calls state.old (flat_map (λ p. exprs_in_parameter p.node) parameters.now ++ type_exprs (boxed_type_of return_type.now)) }
    ensures { WalkBy G.calls state.old (flat_map (λ p. exprs_in_parameter p.node) parameters.now ++ type_exprs (boxed_type_of return_type.now)) result
        state.new }
{
    match walk_parameters(parameters, state, visit) {
        Ok(()) => walk_type(return_type, state, visit),
        Err(error) => Err(error),
    }
}

/// Visits the expressions of a definition, without those of its body.
pub(super) fn walk_def<P: AstPayload, S, E, G: AtExpr<P, S, E>>(
    def: &DefP<P>,
    state: &mut S,
    visit: &G,
) -> Result<(), E>
    requires { MayWalkBy G.calls state.old (exprs_of_stmt (StmtP.Def def.now)) }
    ensures { WalkBy G.calls state.old (exprs_of_stmt (StmtP.Def def.now)) result state.new }
{
    walk_signature(def_parameters(def), &def.return_type, state, visit)
}

/// Visits the expressions of a statement, without those of the statements in it.
#[tactic(auto, using(crate::proofs::Calls::forms))]
pub(super) fn walk_exprs<P: AstPayload, S, E, G: AtExpr<P, S, E>>(
    stmt: &StmtP<P>,
    state: &mut S,
    visit: &G,
) -> Result<(), E>
    requires { MayWalkBy G.calls state.old (exprs_of_stmt stmt.now) }
    ensures { WalkBy G.calls state.old (exprs_of_stmt stmt.now) result state.new }
{
    match stmt {
        StmtP::Break | StmtP::Continue | StmtP::Pass | StmtP::Statements(_) | StmtP::Load(_) => Ok(
            (),
        ),
        StmtP::Return(value) => walk_optional(value, state, visit),
        StmtP::Expression(value) => walk_one(value, state, visit),
        StmtP::Assign(assign) => walk_assign(assign, state, visit),
        StmtP::AssignModify(target, _, value) => walk_binding(target, value, state, visit),
        StmtP::If(condition, _) => walk_one(condition, state, visit),
        StmtP::IfElse(condition, _) => walk_one(condition, state, visit),
        StmtP::For(repeated) => walk_binding(&repeated.var, &repeated.over, state, visit),
        StmtP::Def(def) => walk_def(def, state, visit),
    }
}
