//! Mutable walks over the types in a statement and in the statements in it.
ghost use Rattle.std.specs.Prelude.{◌≡◌, ◌++◌, IfOk, length, map};
ghost use Rattle.std.specs.List.{flat_map};
ghost use Rattle.starlark_tree.specs.Children.{exprs_of_stmt, stmts_of_stmt};
ghost use Rattle.starlark_tree.specs.Views.{boxed_type_of, maybe_type_of, parameter_of};
ghost use Rattle.starlark_tree.specs.Walks.{MayWriteBy, WriteBy, WritesIn};
ghost use Rattle.starlark_uniplate_mut.specs.Types.IntoCalls.{into_calls};
ghost use Rattle.starlark_uniplate_mut.specs.Forms.{forms_of, nesting_of};
ghost use Rattle.starlark_uniplate.specs.Types.{form_types_of, types_in_parameter, types_of};
ghost use Rattle.starlark_uniplate_mut.specs.Types.Types.{IntoForm, MayWriteTypes, form_calls, type_calls, untyped_form_of, untyped_parameter};
ghost use Rattle.starlark_uniplate_mut.specs.FormFrames.{stmts_frame_of};

use crate::types::into::write_types;
use crate::types::types::{write_parameter_types, write_type_if_there};
use crate::uniplate_mut::at::AtExprMut;
use crate::uniplate_mut::statement::write_exprs;
use crate::uniplate_mut::statements::{AtOwnMut, write_statement};
use starlark_tree::ast::{AstExprP, AstParameterP, AstPayload, AstTypeExprP, StmtP};

/// Visits the type of an assignment, if it has one.
fn write_assigned_type<P: AstPayload, E, F: FnMut(&mut AstTypeExprP<P>) -> Result<(), E>>(
    ty: &mut Option<AstTypeExprP<P>>,
    f: &mut F,
) -> Result<(), E>
    requires { MayWriteBy (type_calls F.FnMut) f.old (types_of (maybe_type_of ty.old)) }
    ensures { WriteBy (type_calls F.FnMut) f.old (types_of (maybe_type_of ty.old)) (types_of (maybe_type_of ty.new)) result f.new }
{
    match ty {
        Some(ty) => f(ty),
        None => Ok(()),
    }
}

/// Visits the types of parameters, then the return type.
#[tactic(auto, using(crate::proofs::TypesLemmas::MayParts::before))]
fn write_signature_types<P: AstPayload, E, F: FnMut(&mut AstTypeExprP<P>) -> Result<(), E>>(
    parameters: &mut [AstParameterP<P>],
    return_type: &mut Option<Box<AstTypeExprP<P>>>,
    f: &mut F,
) -> Result<(), E>
    requires { MayWriteBy (type_calls F.FnMut) f.old (flat_map (λ p. types_in_parameter p.node) parameters.old ++ types_of (boxed_type_of return_type.old)) }
    ensures calls { WriteBy (type_calls F.FnMut) f.old (flat_map (λ p. types_in_parameter p.node) parameters.old ++ types_of (boxed_type_of return_type.old))
        (flat_map (λ p. types_in_parameter p.node) parameters.new ++ types_of (boxed_type_of return_type.new)) result f.new }
    ensures parameters { map (λ p. untyped_parameter (parameter_of p)) parameters.new ≡ map (λ p. untyped_parameter (parameter_of p)) parameters.old }
    ensures return_type { length (types_of (boxed_type_of return_type.new)) ≡ length (types_of (boxed_type_of return_type.old)) }
{
    match write_parameter_types(parameters, f) {
        Ok(()) => write_type_if_there(return_type, f),
        Err(error) => Err(error),
    }
}

/// Visits the types of a statement itself.
#[tactic(auto, using(crate::proofs::TypesLemmas::MayTypes::at_exprs))]
fn write_own_types<P: AstPayload, E, F: FnMut(&mut AstTypeExprP<P>) -> Result<(), E>>(
    stmt: &mut StmtP<P>,
    f: &mut F,
) -> Result<(), E>
    requires { MayWriteTypes (type_calls F.FnMut) f.old }
    ensures own { WritesIn form_types_of untyped_form_of (type_calls F.FnMut) f.old stmt.old stmt.new result f.new }
    ensures then_exprs { IfOk result (λ done. MayWriteBy (into_calls (type_calls F.FnMut)) f.new (exprs_of_stmt stmt.new)) }
{
    match stmt {
        StmtP::Assign(assign) => write_assigned_type(&mut assign.ty, f),
        StmtP::Def(def) => write_signature_types(&mut def.params, &mut def.return_type, f),
        StmtP::Break
        | StmtP::Continue
        | StmtP::Pass
        | StmtP::Return(_)
        | StmtP::Expression(_)
        | StmtP::AssignModify(_, _, _)
        | StmtP::Statements(_)
        | StmtP::If(_, _)
        | StmtP::IfElse(_, _)
        | StmtP::For(_)
        | StmtP::Load(_) => Ok(()),
    }
}

/// Walks into an expression.
#[derive(Drop)]
struct AtTypes;

impl<P: AstPayload, E, F: FnMut(&mut AstTypeExprP<P>) -> Result<(), E>> AtExprMut<P, F, E>
    for AtTypes {
    ghost calls = { into_calls (type_calls F.FnMut) };

    fn call(&self, expr: &mut AstExprP<P>, state: &mut F) -> Result<(), E> {
        write_types(expr, state)
    }
}

/// Visits the types of a statement itself, then walks into its expressions.
fn write_types_and_enter<P: AstPayload, E, F: FnMut(&mut AstTypeExprP<P>) -> Result<(), E>>(
    stmt: &mut StmtP<P>,
    f: &mut F,
) -> Result<(), E>
    requires { MayWriteTypes (type_calls F.FnMut) f.old }
    ensures calls { IntoForm (type_calls F.FnMut) f.old (stmts_frame_of stmt.old) (stmts_frame_of stmt.new) result f.new }
    ensures rest { stmts_of_stmt stmt.new ≡ stmts_of_stmt stmt.old }
{
    match write_own_types(stmt, f) {
        Ok(()) => write_exprs(stmt, f, &AtTypes),
        Err(error) => Err(error),
    }
}

/// Visits the types of a statement itself, then walks into its expressions.
#[derive(Drop)]
struct AtOwnTypes;

impl<P: AstPayload, E, F: FnMut(&mut AstTypeExprP<P>) -> Result<(), E>> AtOwnMut<P, F, E>
    for AtOwnTypes {
    ghost calls = { form_calls (type_calls F.FnMut) };

    fn call(&self, stmt: &mut StmtP<P>, state: &mut F) -> Result<(), E> {
        write_types_and_enter(stmt, state)
    }
}

/// Calls `f` at the types of a statement, then walks into its expressions and the statements in it, as `f` has left them,
/// up to the first `Err`, which is returned.
#[tactic(auto, using(crate::proofs::TypesLemmas::MayTypes::at_forms))]
pub fn write_all_types<P: AstPayload, E, F: FnMut(&mut AstTypeExprP<P>) -> Result<(), E>>(
    stmt: &mut StmtP<P>,
    f: &mut F,
) -> Result<(), E>
    requires { MayWriteTypes (type_calls F.FnMut) f.old }
    ensures { WritesIn forms_of nesting_of (form_calls (type_calls F.FnMut)) f.old stmt.old stmt.new result f.new }
{
    write_statement(stmt, f, &AtOwnTypes)
}
