//! The expressions directly in a node, in the order of the tree or in that of the text.
ghost use Rattle.std.specs.Prelude.{◌≡◌, ◌∷◌, ◌++◌, [], IfOk, map, option_map, option_to_list};
ghost use Rattle.std.specs.List.{flat_map};
ghost use Rattle.starlark_tree.specs.Parts.{argument_expression};
ghost use Rattle.starlark_tree.specs.Places.{behind, children, clause_exprs, exprs_in_parameter, exprs_in_target, for_exprs, maybe_exprs, type_exprs};
ghost use Rattle.starlark_tree.specs.Views.{boxed_type_of, clause_seen, expression_of, for_in_of, form_seen, maybe_of, maybe_type_of, shape_seen};
ghost use Rattle.starlark_validate.specs.Walks.Children.{Adds};
ghost use Rattle.starlark_validate.specs.Walks.InText as text;

use starlark_tree::ast::{
    AssignTarget, AssignTargetP, AstArgument, AstExpr, AstParameter, AstTypeExpr, Clause, ClauseP,
    Expr, ExprP, ForClause, Parameter, ParameterP, Stmt, StmtP,
};
use std::alloc::{AllocError, Global};

/// Adds an expression.
fn add_one<'a>(expr: &'a AstExpr, found: &mut Vec<&'a AstExpr>) -> Result<(), AllocError>
    ensures { Adds found.old.items found.new.items (expression_of expr.now ∷ []) result }
{
    found.push(expr)?;
    Ok(())
}

/// Adds two expressions.
fn add_two<'a>(
    first: &'a AstExpr,
    second: &'a AstExpr,
    found: &mut Vec<&'a AstExpr>,
) -> Result<(), AllocError>
    ensures { Adds found.old.items found.new.items (expression_of first.now ∷ expression_of second.now ∷ []) result }
{
    add_one(first, found)?;
    add_one(second, found)
}

/// Adds three expressions.
fn add_three<'a>(
    first: &'a AstExpr,
    second: &'a AstExpr,
    third: &'a AstExpr,
    found: &mut Vec<&'a AstExpr>,
) -> Result<(), AllocError>
    ensures { Adds found.old.items found.new.items (expression_of first.now ∷ expression_of second.now ∷ expression_of third.now ∷ []) result }
{
    add_one(first, found)?;
    add_two(second, third, found)
}

/// Adds each of the expressions.
fn add_each<'a>(items: &'a [AstExpr], found: &mut Vec<&'a AstExpr>) -> Result<(), AllocError>
    ensures { Adds found.old.items found.new.items (map expression_of items.now) result }
{
    for item in items {
        add_one(item, found)?;
    }
    Ok(())
}

/// Adds the expression, if there is one.
fn add_maybe<'a>(
    expr: &'a Option<Box<AstExpr>>,
    found: &mut Vec<&'a AstExpr>,
) -> Result<(), AllocError>
    ensures { Adds found.old.items found.new.items (maybe_exprs (maybe_of expr.now)) result }
{
    match expr {
        Some(expr) => add_one(expr, found),
        None => Ok(()),
    }
}

/// Adds the expression of a type, if there is one.
pub(crate) fn add_type<'a>(
    ty: &'a Option<Box<AstTypeExpr>>,
    found: &mut Vec<&'a AstExpr>,
) -> Result<(), AllocError>
    ensures { Adds found.old.items found.new.items (type_exprs (boxed_type_of ty.now)) result }
{
    match ty {
        Some(ty) => add_one(&ty.node.expr, found),
        None => Ok(()),
    }
}

/// Adds the start, the stop and the step of a slice.
fn add_bounds<'a>(
    start: &'a Option<Box<AstExpr>>,
    stop: &'a Option<Box<AstExpr>>,
    step: &'a Option<Box<AstExpr>>,
    found: &mut Vec<&'a AstExpr>,
) -> Result<(), AllocError>
    ensures { Adds found.old.items found.new.items (maybe_exprs (maybe_of start.now)
        ++ (maybe_exprs (maybe_of stop.now) ++ maybe_exprs (maybe_of step.now))) result }
{
    add_maybe(start, found)?;
    add_maybe(stop, found)?;
    add_maybe(step, found)
}

/// Adds the expressions of arguments.
fn add_arguments<'a>(
    args: &'a [AstArgument],
    found: &mut Vec<&'a AstExpr>,
) -> Result<(), AllocError>
    ensures { Adds found.old.items found.new.items (map (λ a. expression_of (argument_expression a.node)) args.now) result }
{
    for arg in args {
        add_one(arg.node.expr(), found)?;
    }
    Ok(())
}

/// Adds the type and the default value of a parameter.
fn add_parameter<'a>(
    parameter: &'a Parameter,
    found: &mut Vec<&'a AstExpr>,
) -> Result<(), AllocError>
    ensures { Adds found.old.items found.new.items (exprs_in_parameter parameter.now) result }
{
    match parameter {
        ParameterP::Slash => Ok(()),
        ParameterP::Normal(_, ty, default) => {
            add_type(ty, found)?;
            add_maybe(default, found)
        }
        ParameterP::NoArgs => Ok(()),
        ParameterP::Args(_, ty) => add_type(ty, found),
        ParameterP::KwArgs(_, ty) => add_type(ty, found),
    }
}

/// Adds the types and default values of parameters.
pub(crate) fn add_parameters<'a>(
    parameters: &'a [AstParameter],
    found: &mut Vec<&'a AstExpr>,
) -> Result<(), AllocError>
    ensures { Adds found.old.items found.new.items (flat_map (λ p. exprs_in_parameter p.node) parameters.now) result }
{
    for parameter in parameters {
        add_parameter(&parameter.node, found)?;
    }
    Ok(())
}

/// Adds the expressions of a target.
pub(crate) fn add_target<'a>(
    target: &'a AssignTarget,
    found: &mut Vec<&'a AstExpr>,
) -> Result<(), AllocError>
    ensures { Adds found.old.items found.new.items (exprs_in_target target.now) result }
{
    match target {
        AssignTargetP::Tuple(parts) => {
            for part in parts {
                add_target(&part.node, found)?;
            }
            Ok(())
        }
        AssignTargetP::Index(parts) => add_two(&parts.0, &parts.1, found),
        AssignTargetP::Dot(object, _) => add_one(object, found),
        AssignTargetP::Identifier(_) => Ok(()),
    }
}

/// Adds the expressions of a `for` clause.
fn add_for<'a>(clause: &'a ForClause, found: &mut Vec<&'a AstExpr>) -> Result<(), AllocError>
    ensures { Adds found.old.items found.new.items (for_exprs (for_in_of clause.now)) result }
{
    add_target(&clause.var.node, found)?;
    add_one(&clause.over, found)
}

/// Adds the expressions of a clause.
fn add_clause<'a>(clause: &'a Clause, found: &mut Vec<&'a AstExpr>) -> Result<(), AllocError>
    ensures { Adds found.old.items found.new.items (clause_exprs (clause_seen clause.now)) result }
{
    match clause {
        ClauseP::For(clause) => add_for(clause, found),
        ClauseP::If(condition) => add_one(condition, found),
    }
}

/// Adds the expressions of a comprehension's clauses.
pub(crate) fn add_clauses<'a>(
    first: &'a ForClause,
    others: &'a [Clause],
    found: &mut Vec<&'a AstExpr>,
) -> Result<(), AllocError>
    ensures { Adds found.old.items found.new.items (for_exprs (for_in_of first.now) ++ flat_map (λ k. clause_exprs (clause_seen k)) others.now) result }
{
    add_for(first, found)?;
    for clause in others {
        add_clause(clause, found)?;
    }
    Ok(())
}

/// Adds the keys and values of a dictionary.
fn add_pairs<'a>(
    pairs: &'a [(AstExpr, AstExpr)],
    found: &mut Vec<&'a AstExpr>,
) -> Result<(), AllocError>
    ensures { Adds found.old.items found.new.items (flat_map (λ p. expression_of p.0 ∷ expression_of p.1 ∷ []) pairs.now) result }
{
    for pair in pairs {
        add_two(&pair.0, &pair.1, found)?;
    }
    Ok(())
}

/// Adds the children of an expression.
pub(crate) fn add_children<'a>(
    expr: &'a Expr,
    found: &mut Vec<&'a AstExpr>,
) -> Result<(), AllocError>
    ensures { Adds found.old.items found.new.items (children expr.now) result }
{
    match expr {
        ExprP::Tuple(items) => add_each(items, found),
        ExprP::Dot(object, _) => add_one(object, found),
        ExprP::Call(callee, args) => {
            add_one(callee, found)?;
            add_arguments(&args.args, found)
        }
        ExprP::Index(parts) => add_two(&parts.0, &parts.1, found),
        ExprP::Index2(parts) => add_three(&parts.0, &parts.1, &parts.2, found),
        ExprP::Slice(array, start, stop, step) => {
            add_one(array, found)?;
            add_bounds(start, stop, step, found)
        }
        ExprP::Identifier(_) => Ok(()),
        ExprP::Lambda(lambda) => {
            add_parameters(&lambda.params, found)?;
            add_one(&lambda.body, found)
        }
        ExprP::Literal(_) => Ok(()),
        ExprP::Not(operand) => add_one(operand, found),
        ExprP::Minus(operand) => add_one(operand, found),
        ExprP::Plus(operand) => add_one(operand, found),
        ExprP::BitNot(operand) => add_one(operand, found),
        ExprP::Op(left, _, right) => add_two(left, right, found),
        ExprP::If(parts) => add_three(&parts.0, &parts.1, &parts.2, found),
        ExprP::List(items) => add_each(items, found),
        ExprP::Dict(pairs) => add_pairs(pairs, found),
        ExprP::ListComprehension(element, first, others) => {
            add_clauses(first, others, found)?;
            add_one(element, found)
        }
        ExprP::DictComprehension(pair, first, others) => {
            add_clauses(first, others, found)?;
            add_two(&pair.0, &pair.1, found)
        }
        ExprP::FString(f_string) => add_each(&f_string.node.expressions, found),
    }
}

/// The expressions directly in an expression, in the order of the tree: the condition of a conditional expression
/// before its values, and the clauses of a comprehension before its element.
pub(crate) fn children<'a>(alloc: Global, expr: &'a AstExpr) -> Result<Vec<&'a AstExpr>, AllocError>
    ensures { IfOk result (λ v. map (behind expression_of) v.items ≡ children expr.now.node) }
{
    let mut found = Vec::new(alloc);
    add_children(&expr.node, &mut found)?;
    Ok(found)
}

/// Adds the children of an expression in the order of the text.
fn add_children_in_text<'a>(expr: &'a Expr, found: &mut Vec<&'a AstExpr>) -> Result<(), AllocError>
    ensures { Adds found.old.items found.new.items (text.children_in_text (shape_seen expr.now)) result }
{
    match expr {
        ExprP::If(parts) => add_three(&parts.1, &parts.0, &parts.2, found),
        ExprP::ListComprehension(element, first, others) => {
            add_one(element, found)?;
            add_clauses(first, others, found)
        }
        ExprP::DictComprehension(pair, first, others) => {
            add_two(&pair.0, &pair.1, found)?;
            add_clauses(first, others, found)
        }
        _ => add_children(expr, found),
    }
}

/// The expressions directly in an expression, in the order of the text: the value of a conditional expression
/// before its condition, and the element of a comprehension before its clauses.
pub(crate) fn children_in_text<'a>(
    alloc: Global,
    expr: &'a AstExpr,
) -> Result<Vec<&'a AstExpr>, AllocError>
    ensures { IfOk result (λ v. map (behind expression_of) v.items ≡ text.children_in_text (shape_seen expr.now.node)) }
{
    let mut found = Vec::new(alloc);
    add_children_in_text(&expr.node, &mut found)?;
    Ok(found)
}

/// Adds what a `return` returns, if it returns anything.
fn add_returned<'a>(
    expr: &'a Option<AstExpr>,
    found: &mut Vec<&'a AstExpr>,
) -> Result<(), AllocError>
    ensures { Adds found.old.items found.new.items (option_to_list (option_map expression_of expr.now)) result }
{
    match expr {
        Some(expr) => add_one(expr, found),
        None => Ok(()),
    }
}

/// Adds the expression of an assignment's type, if there is one.
fn add_annotation<'a>(
    ty: &'a Option<AstTypeExpr>,
    found: &mut Vec<&'a AstExpr>,
) -> Result<(), AllocError>
    ensures { Adds found.old.items found.new.items (type_exprs (maybe_type_of ty.now)) result }
{
    match ty {
        Some(ty) => add_one(&ty.node.expr, found),
        None => Ok(()),
    }
}

/// Adds the expressions directly in a statement.
pub(crate) fn add_exprs_in_stmt<'a>(
    stmt: &'a Stmt,
    found: &mut Vec<&'a AstExpr>,
) -> Result<(), AllocError>
    ensures { Adds found.old.items found.new.items (text.form_exprs (form_seen stmt.now)) result }
{
    match stmt {
        StmtP::Break => Ok(()),
        StmtP::Continue => Ok(()),
        StmtP::Pass => Ok(()),
        StmtP::Return(expr) => add_returned(expr, found),
        StmtP::Expression(expr) => add_one(expr, found),
        StmtP::Assign(assign) => {
            add_target(&assign.lhs.node, found)?;
            add_annotation(&assign.ty, found)?;
            add_one(&assign.rhs, found)
        }
        StmtP::AssignModify(target, _, expr) => {
            add_target(&target.node, found)?;
            add_one(expr, found)
        }
        StmtP::Statements(_) => Ok(()),
        StmtP::If(condition, _) => add_one(condition, found),
        StmtP::IfElse(condition, _) => add_one(condition, found),
        StmtP::For(repeated) => {
            add_target(&repeated.var.node, found)?;
            add_one(&repeated.over, found)
        }
        StmtP::Def(def) => {
            add_parameters(&def.params, found)?;
            add_type(&def.return_type, found)
        }
        StmtP::Load(_) => Ok(()),
    }
}

/// The expressions directly in a statement, from left to right: each is before the statements in it.
pub(crate) fn exprs_in_stmt<'a>(
    alloc: Global,
    stmt: &'a Stmt,
) -> Result<Vec<&'a AstExpr>, AllocError>
    ensures { IfOk result (λ v. map (behind expression_of) v.items ≡ text.form_exprs (form_seen stmt.now)) }
{
    let mut found = Vec::new(alloc);
    add_exprs_in_stmt(stmt, &mut found)?;
    Ok(found)
}
