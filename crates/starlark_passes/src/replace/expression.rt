//! The operators inside an expression.
ghost use Rattle.std.specs.Prelude.{◌≡◌, ◌++◌, map};
ghost use Rattle.std.specs.List.{flat_map};
ghost use Rattle.starlark_tree.specs.Inside.{argument_inside, below, inside, maybe_inside, parameter_inside};
ghost use Rattle.starlark_tree.specs.Views.{argument_of, expression_of, maybe_of, pair_of, parameter_of, shape_seen};
ghost use Rattle.starlark_passes.specs.Replace.Entering.{Enters};
ghost use Rattle.starlark_passes.specs.Replace.Parts.{Replaces, a_maybe, a_parameter, an_argument, an_expression, below_shape, both, each};
ghost use Rattle.starlark_passes.specs.Replace.Replacing.{table_of};
ghost use Rattle.starlark_passes.specs.Replace.Calls.{node_replaced, shape_of};

use crate::replace::node::replace_operation;
use crate::replace::rules::Rules;
use starlark_tree::ast::{
    AstArgument, AstExpr, AstFString, AstNoPayload, CallArgsP, Expr, LambdaP,
};
use std::alloc::{AllocError, Global};
use std::collections::HashMap;

impl<F: Fn(Global, &mut AstExpr, &HashMap<String, String>) -> Result<(), AllocError>> Rules<'_, F> {
    /// Replaces the operators of an argument.
    fn argument(&self, argument: &mut AstArgument) -> Result<(), AllocError>
        requires { Enters (argument_inside (argument_of argument.old)) (F.pre self.now.enter) (F.post self.now.enter) }
        ensures { let table = table_of self.now.replacements.now in Replaces table (an_argument table) result (argument_of argument.old)
            (argument_of argument.new) }
    {
        self.one(argument.node.expr_mut())
    }

    /// Replaces the operators of arguments.
    fn arguments(&self, arguments: &mut [AstArgument]) -> Result<(), AllocError>
        requires { Enters (flat_map argument_inside (map argument_of arguments.old)) (F.pre self.now.enter) (F.post self.now.enter) }
        ensures { let table = table_of self.now.replacements.now in Replaces table (each table (an_argument table)) result (map argument_of arguments.old)
            (map argument_of arguments.new) }
    {
        for argument in arguments.iter_mut() {
            self.argument(argument)?;
        }
        Ok(())
    }

    /// Replaces the operators of a call.
    fn call(
        &self,
        callee: &mut AstExpr,
        arguments: &mut CallArgsP<AstNoPayload>,
    ) -> Result<(), AllocError>
        requires { Enters (inside (expression_of callee.old) ++ flat_map argument_inside (map argument_of arguments.old.args.items)) (F.pre self.now.enter)
            (F.post self.now.enter) }
        ensures { let table = table_of self.now.replacements.now in Replaces table (both table (an_expression table) (each table (an_argument table)))
            result (expression_of callee.old, map argument_of arguments.old.args.items) (expression_of callee.new, map argument_of arguments.new.args.items) }
    {
        self.one(callee)?;
        self.arguments(&mut arguments.args)
    }

    /// Replaces the operators of a slice.
    fn slice(
        &self,
        array: &mut AstExpr,
        start: &mut Option<Box<AstExpr>>,
        stop: &mut Option<Box<AstExpr>>,
        step: &mut Option<Box<AstExpr>>,
    ) -> Result<(), AllocError>
        requires { Enters (inside (expression_of array.old)
            ++ (maybe_inside (maybe_of start.old) ++ (maybe_inside (maybe_of stop.old) ++ maybe_inside (maybe_of step.old)))) (F.pre self.now.enter)
            (F.post self.now.enter) }
        ensures { let table = table_of self.now.replacements.now in Replaces table
            (both table (an_expression table) (both table (a_maybe table) (both table (a_maybe table) (a_maybe table)))) result
            (expression_of array.old, (maybe_of start.old, (maybe_of stop.old, maybe_of step.old)))
            (expression_of array.new, (maybe_of start.new, (maybe_of stop.new, maybe_of step.new))) }
    {
        self.one(array)?;
        self.maybe(start)?;
        self.maybe(stop)?;
        self.maybe(step)
    }

    /// Replaces the operators of a lambda.
    fn lambda(&self, lambda: &mut LambdaP<AstNoPayload>) -> Result<(), AllocError>
        requires { Enters (flat_map parameter_inside (map parameter_of lambda.old.params.items) ++ inside (expression_of lambda.old.body.value))
            (F.pre self.now.enter) (F.post self.now.enter) }
        ensures { let table = table_of self.now.replacements.now in Replaces table (both table (each table (a_parameter table)) (an_expression table))
            result (map parameter_of lambda.old.params.items, expression_of lambda.old.body.value)
            (map parameter_of lambda.new.params.items, expression_of lambda.new.body.value) }
    {
        self.parameters(&mut lambda.params)?;
        self.one(&mut lambda.body)
    }

    /// Replaces the operators of the entries of a dict.
    fn entries(&self, entries: &mut [(AstExpr, AstExpr)]) -> Result<(), AllocError>
        requires { Enters (flat_map (λ p. inside p.0 ++ inside p.1) (map pair_of entries.old)) (F.pre self.now.enter) (F.post self.now.enter) }
        ensures { let table = table_of self.now.replacements.now in Replaces table (each table (both table (an_expression table) (an_expression table)))
            result (map pair_of entries.old) (map pair_of entries.new) }
    {
        for entry in entries.iter_mut() {
            self.pair(entry)?;
        }
        Ok(())
    }

    /// Replaces the operators of an f-string.
    fn format(&self, string: &mut AstFString) -> Result<(), AllocError>
        requires { Enters (flat_map inside (map expression_of string.old.node.expressions.items)) (F.pre self.now.enter) (F.post self.now.enter) }
        ensures replaced { let table = table_of self.now.replacements.now in Replaces table (each table (an_expression table)) result
            (map expression_of string.old.node.expressions.items) (map expression_of string.new.node.expressions.items) }
        ensures format { string.new.node.format ≡ string.old.node.format }
        ensures span { string.new.span ≡ string.old.span }
    {
        self.each(&mut string.node.expressions)
    }

    /// Replaces the operators inside an expression, but not the one of an operation.
    pub(crate) fn below(&self, expr: &mut Expr) -> Result<(), AllocError>
        requires { Enters (below (shape_seen expr.old)) (F.pre self.now.enter) (F.post self.now.enter) }
        ensures { let table = table_of self.now.replacements.now in Replaces table (below_shape table) result (shape_seen expr.old) (shape_seen expr.new) }
    {
        match expr {
            Expr::Tuple(items) => self.each(items),
            Expr::Dot(object, _) => self.one(object),
            Expr::Call(callee, arguments) => self.call(callee, arguments),
            Expr::Index(parts) => self.pair(parts),
            Expr::Index2(parts) => self.triple(parts),
            Expr::Slice(array, start, stop, step) => self.slice(array, start, stop, step),
            Expr::Identifier(_) => Ok(()),
            Expr::Lambda(lambda) => self.lambda(lambda),
            Expr::Literal(_) => Ok(()),
            Expr::Not(operand) => self.one(operand),
            Expr::Minus(operand) => self.one(operand),
            Expr::Plus(operand) => self.one(operand),
            Expr::BitNot(operand) => self.one(operand),
            Expr::Op(left, _, right) => self.two(left, right),
            Expr::If(parts) => self.triple(parts),
            Expr::List(items) => self.each(items),
            Expr::Dict(entries) => self.entries(entries),
            Expr::ListComprehension(element, first, clauses) => {
                self.list_comprehension(element, first, clauses)
            }
            Expr::DictComprehension(entry, first, clauses) => {
                self.dict_comprehension(entry, first, clauses)
            }
            Expr::FString(string) => self.format(string),
        }
    }

    /// Replaces the operators of an expression: first that of an operation, then those of what is below it.
    pub(crate) fn expression(&self, expr: &mut AstExpr) -> Result<(), AllocError>
        requires { Enters (below (shape_of (node_replaced (table_of self.now.replacements.now) (expression_of expr.old)))) (F.pre self.now.enter)
            (F.post self.now.enter) }
        ensures { let table = table_of self.now.replacements.now in Replaces table (an_expression table) result (expression_of expr.old)
            (expression_of expr.new) }
    {
        replace_operation(self.alloc, expr, self.replacements)?;
        self.below(&mut expr.node)
    }
}

/// Replaces the operators of an expression.
#[tactic(auto, using(crate::proofs::ReplaceLemmas::EnteredNode::falls_below))]
pub(crate) fn replace_expression(
    alloc: Global,
    expr: &mut AstExpr,
    replacements: &HashMap<String, String>,
) -> Result<(), AllocError>
    ensures { let table = table_of replacements.now in Replaces table (an_expression table) result (expression_of expr.old) (expression_of expr.new) }
{
    Rules {
        alloc,
        replacements,
        enter: replace_expression,
    }
    .expression(expr)
}
