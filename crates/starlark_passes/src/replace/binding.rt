//! The operators in what statements bind, declare and return.
ghost use Rattle.std.specs.Prelude.{map, option_map};
ghost use Rattle.starlark_tree.specs.Ast.{Return as ReturnForm};
ghost use Rattle.starlark_tree.specs.Views.{assign_of, boxed_type_of, expression_of, maybe_type_of, parameter_of, target_of};
ghost use Rattle.starlark_passes.specs.Replace.Parts.{Replaces, a_form, a_parameter, a_target, a_type, an_expression, both, each};
ghost use Rattle.starlark_passes.specs.Replace.Replacing.{table_of};

use crate::replace::expression::replace_expression;
use crate::replace::rules::Rules;
use starlark_tree::ast::{
    AssignP, AstAssignTarget, AstExpr, AstNoPayload, AstParameter, AstTypeExpr,
};
use std::alloc::{AllocError, Global};
use std::collections::HashMap;

/// Replaces the operators in a target.
fn replace_target(
    alloc: Global,
    target: &mut AstAssignTarget,
    replacements: &HashMap<String, String>,
) -> Result<(), AllocError>
    ensures { let table = table_of replacements.now in Replaces table (a_target table) result (target_of target.old) (target_of target.new) }
{
    Rules {
        alloc,
        replacements,
        enter: replace_expression,
    }
    .target(target)
}

/// Replaces the operators in parameters.
fn replace_parameters(
    alloc: Global,
    parameters: &mut [AstParameter],
    replacements: &HashMap<String, String>,
) -> Result<(), AllocError>
    ensures { let table = table_of replacements.now in Replaces table (each table (a_parameter table)) result (map parameter_of parameters.old)
        (map parameter_of parameters.new) }
{
    Rules {
        alloc,
        replacements,
        enter: replace_expression,
    }
    .parameters(parameters)
}

/// Replaces the operators of a type, if there is one.
fn replace_return_type(
    alloc: Global,
    ty: &mut Option<Box<AstTypeExpr>>,
    replacements: &HashMap<String, String>,
) -> Result<(), AllocError>
    ensures { let table = table_of replacements.now in Replaces table (a_type table) result (boxed_type_of ty.old) (boxed_type_of ty.new) }
{
    match ty {
        Some(ty) => replace_expression(alloc, &mut ty.node.expr, replacements),
        None => Ok(()),
    }
}

/// Replaces the operators of the type of what is assigned to, if there is one.
fn replace_type(
    alloc: Global,
    ty: &mut Option<AstTypeExpr>,
    replacements: &HashMap<String, String>,
) -> Result<(), AllocError>
    ensures { let table = table_of replacements.now in Replaces table (a_type table) result (maybe_type_of ty.old) (maybe_type_of ty.new) }
{
    match ty {
        Some(ty) => replace_expression(alloc, &mut ty.node.expr, replacements),
        None => Ok(()),
    }
}

/// Replaces the operators of what is returned, if there is something.
pub(crate) fn replace_returned(
    alloc: Global,
    value: &mut Option<AstExpr>,
    replacements: &HashMap<String, String>,
) -> Result<(), AllocError>
    ensures { let table = table_of replacements.now in Replaces table (a_form table) result (ReturnForm (option_map expression_of value.old))
        (ReturnForm (option_map expression_of value.new)) }
{
    match value {
        Some(value) => replace_expression(alloc, value, replacements),
        None => Ok(()),
    }
}

/// Replaces the operators in a target, then those of what it gets its value from.
pub(crate) fn replace_binding(
    alloc: Global,
    target: &mut AstAssignTarget,
    value: &mut AstExpr,
    replacements: &HashMap<String, String>,
) -> Result<(), AllocError>
    ensures { let table = table_of replacements.now in Replaces table (both table (a_target table) (an_expression table)) result
        (target_of target.old, expression_of value.old) (target_of target.new, expression_of value.new) }
{
    replace_target(alloc, target, replacements)?;
    replace_expression(alloc, value, replacements)
}

/// Replaces the operators of an assignment.
pub(crate) fn replace_assign(
    alloc: Global,
    assign: &mut AssignP<AstNoPayload>,
    replacements: &HashMap<String, String>,
) -> Result<(), AllocError>
    ensures { let table = table_of replacements.now in Replaces table (a_form table) result (assign_of assign.old) (assign_of assign.new) }
{
    replace_target(alloc, &mut assign.lhs, replacements)?;
    replace_type(alloc, &mut assign.ty, replacements)?;
    replace_expression(alloc, &mut assign.rhs, replacements)
}

/// Replaces the operators in parameters, then those of the return type.
pub(crate) fn replace_signature(
    alloc: Global,
    parameters: &mut [AstParameter],
    return_type: &mut Option<Box<AstTypeExpr>>,
    replacements: &HashMap<String, String>,
) -> Result<(), AllocError>
    ensures { let table = table_of replacements.now in Replaces table (both table (each table (a_parameter table)) (a_type table)) result
        (map parameter_of parameters.old, boxed_type_of return_type.old) (map parameter_of parameters.new, boxed_type_of return_type.new) }
{
    replace_parameters(alloc, parameters, replacements)?;
    replace_return_type(alloc, return_type, replacements)
}
