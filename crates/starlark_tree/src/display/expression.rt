//! The text of expressions and of all that is in them (Starlark specification, "Expressions").
ghost use Rattle.std.specs.Prelude.{◌++◌, Some, codes, flat_map, string_bytes};
ghost use Rattle.std.specs.Fmt.{WritesOnOk};
ghost use Rattle.starlark_tree.specs.Joined.{comma_separated, tuple_parts};
ghost use Rattle.starlark_tree.specs.Printed.{printed_expr, printed_type, printed_argument, printed_parameter, printed_target, printed_for};
ghost use Rattle.starlark_tree.specs.Printed.{printed_clause, printed_if_there, printed_type_if_there, printed_target_type};

use crate::ast::{
    Argument, ArgumentP, AssignTarget, AssignTargetP, AstArgument, AstAssignTarget, AstExpr,
    AstNoPayload, AstParameter, AstString, AstTypeExpr, Clause, ClauseP, Expr, ExprP, FStringP,
    ForClause, LambdaP, Parameter, ParameterP, TypeExpr,
};
use std::fmt;
use std::fmt::Display;

/// `.` and the name of an attribute.
fn write_attribute<W: fmt::Write>(name: &AstString, f: &mut fmt::Formatter<W>) -> fmt::Result
    ensures { WritesOnOk W.write_str_gives f.old result (codes "." ++ string_bytes name.now.node) f.new }
{
    f.write_str(".")?;
    f.write_str(name.node.as_str())
}

/// Writes the expression.
#[cycle(write)]
#[tactic(auto, using(crate::proofs::PrintedLemmas::expressions))]
pub(crate) fn write_expr<W: fmt::Write>(e: &Expr, f: &mut fmt::Formatter<W>) -> fmt::Result
    ensures { WritesOnOk W.write_str_gives f.old result (printed_expr e.now) f.new }
{
    match e {
        ExprP::Tuple(items) => write_tuple(items, f),
        ExprP::Dot(object, name) => {
            write_expr(&object.node, f)?;
            write_attribute(name, f)
        }
        ExprP::Call(callee, args) => {
            write_expr(&callee.node, f)?;
            f.write_str("(")?;
            write_arguments(&args.args, f)?;
            f.write_str(")")
        }
        ExprP::Index(parts) => write_index(parts, f),
        ExprP::Index2(parts) => write_index2(parts, f),
        ExprP::Slice(array, start, stop, step) => {
            write_expr(&array.node, f)?;
            f.write_str("[]")?;
            write_if_there("", start, f)?;
            f.write_str(":")?;
            write_if_there("", stop, f)?;
            write_if_there(":", step, f)
        }
        ExprP::Identifier(name) => name.node.fmt(f),
        ExprP::Lambda(lambda) => write_lambda(lambda, f),
        ExprP::Literal(literal) => literal.fmt(f),
        ExprP::Not(operand) => {
            write_after("(not ", &operand.node, f)?;
            f.write_str(")")
        }
        ExprP::Minus(operand) => write_after("-", &operand.node, f),
        ExprP::Plus(operand) => write_after("+", &operand.node, f),
        ExprP::BitNot(operand) => write_after("~", &operand.node, f),
        ExprP::Op(left, operator, right) => {
            write_after("(", &left.node, f)?;
            operator.fmt(f)?;
            write_expr(&right.node, f)?;
            f.write_str(")")
        }
        ExprP::If(parts) => write_conditional(parts, f),
        ExprP::List(items) => write_list(items, f),
        ExprP::Dict(pairs) => write_dict(pairs, f),
        ExprP::ListComprehension(element, first, clauses) => {
            write_after("[", &element.node, f)?;
            write_for_clause(first, f)?;
            write_clauses(clauses, f)?;
            f.write_str("]")
        }
        ExprP::DictComprehension(pair, first, clauses) => {
            f.write_str("{")?;
            write_pair(pair, f)?;
            write_for_clause(first, f)?;
            write_clauses(clauses, f)?;
            f.write_str("}")
        }
        ExprP::FString(text) => write_f_string(&text.node, f),
    }
}

/// Writes the expression after another text.
#[cycle(write)]
fn write_after<W: fmt::Write>(before: &str, e: &Expr, f: &mut fmt::Formatter<W>) -> fmt::Result
    ensures { WritesOnOk W.write_str_gives f.old result (before.now ++ printed_expr e.now) f.new }
{
    f.write_str(before)?;
    write_expr(e, f)
}

/// Writes the expressions, separated by commas.
#[cycle(write)]
fn write_exprs<W: fmt::Write>(items: &[AstExpr], f: &mut fmt::Formatter<W>) -> fmt::Result
    ensures { WritesOnOk W.write_str_gives f.old result (comma_separated (λ e. printed_expr e.node) items.now) f.new }
{
    match items {
        [] => Ok(()),
        [first, rest @ ..] => {
            write_expr(&first.node, f)?;
            for item in rest {
                write_after(", ", &item.node, f)?;
            }
            Ok(())
        }
    }
}

/// Writes a tuple: a comma follows a single element.
#[cycle(write)]
fn write_tuple<W: fmt::Write>(items: &[AstExpr], f: &mut fmt::Formatter<W>) -> fmt::Result
    ensures { WritesOnOk W.write_str_gives f.old result (codes "(" ++ tuple_parts (λ e. printed_expr e.node) items.now ++ codes ")") f.new }
{
    f.write_str("(")?;
    match items {
        [only] => {
            write_expr(&only.node, f)?;
            f.write_str(",)")
        }
        _ => {
            write_exprs(items, f)?;
            f.write_str(")")
        }
    }
}

#[cycle(write)]
fn write_list<W: fmt::Write>(items: &[AstExpr], f: &mut fmt::Formatter<W>) -> fmt::Result
    ensures { WritesOnOk W.write_str_gives f.old result (codes "[" ++ comma_separated (λ e. printed_expr e.node) items.now ++ codes "]") f.new }
{
    f.write_str("[")?;
    write_exprs(items, f)?;
    f.write_str("]")
}

#[cycle(write)]
fn write_index<W: fmt::Write>(parts: &(AstExpr, AstExpr), f: &mut fmt::Formatter<W>) -> fmt::Result
    ensures { WritesOnOk W.write_str_gives f.old result (printed_expr parts.now.0.node ++ codes "[" ++ printed_expr parts.now.1.node ++ codes "]") f.new }
{
    write_expr(&parts.0.node, f)?;
    write_after("[", &parts.1.node, f)?;
    f.write_str("]")
}

#[cycle(write)]
fn write_index2<W: fmt::Write>(
    parts: &(AstExpr, AstExpr, AstExpr),
    f: &mut fmt::Formatter<W>,
) -> fmt::Result
    ensures { WritesOnOk W.write_str_gives f.old result (printed_expr parts.now.0.node ++ codes "[" ++ printed_expr parts.now.1.node ++ codes ", "
        ++ printed_expr parts.now.2.node ++ codes "]") f.new }
{
    write_expr(&parts.0.node, f)?;
    write_after("[", &parts.1.node, f)?;
    write_after(", ", &parts.2.node, f)?;
    f.write_str("]")
}

/// Writes `value if condition else other`; `parts` are the condition, the value and the other value.
#[cycle(write)]
fn write_conditional<W: fmt::Write>(
    parts: &(AstExpr, AstExpr, AstExpr),
    f: &mut fmt::Formatter<W>,
) -> fmt::Result
    ensures { WritesOnOk W.write_str_gives f.old result (codes "(" ++ printed_expr parts.now.1.node ++ codes " if " ++ printed_expr parts.now.0.node
        ++ codes " else " ++ printed_expr parts.now.2.node ++ codes ")") f.new }
{
    write_after("(", &parts.1.node, f)?;
    write_after(" if ", &parts.0.node, f)?;
    write_after(" else ", &parts.2.node, f)?;
    f.write_str(")")
}

#[cycle(write)]
fn write_pair<W: fmt::Write>(pair: &(AstExpr, AstExpr), f: &mut fmt::Formatter<W>) -> fmt::Result
    ensures { WritesOnOk W.write_str_gives f.old result (printed_expr pair.now.0.node ++ codes ": " ++ printed_expr pair.now.1.node) f.new }
{
    write_expr(&pair.0.node, f)?;
    write_after(": ", &pair.1.node, f)
}

#[cycle(write)]
fn write_pairs<W: fmt::Write>(
    items: &[(AstExpr, AstExpr)],
    f: &mut fmt::Formatter<W>,
) -> fmt::Result
    ensures { WritesOnOk W.write_str_gives f.old result (comma_separated (λ pair. printed_expr pair.0.node ++ codes ": " ++ printed_expr pair.1.node)
        items.now) f.new }
{
    match items {
        [] => Ok(()),
        [first, rest @ ..] => {
            write_expr(&first.0.node, f)?;
            write_after(": ", &first.1.node, f)?;
            for item in rest {
                write_after(", ", &item.0.node, f)?;
                write_after(": ", &item.1.node, f)?;
            }
            Ok(())
        }
    }
}

#[cycle(write)]
fn write_dict<W: fmt::Write>(items: &[(AstExpr, AstExpr)], f: &mut fmt::Formatter<W>) -> fmt::Result
    ensures { WritesOnOk W.write_str_gives f.old result (codes "{"
        ++ comma_separated (λ pair. printed_expr pair.0.node ++ codes ": " ++ printed_expr pair.1.node) items.now ++ codes "}") f.new }
{
    f.write_str("{")?;
    write_pairs(items, f)?;
    f.write_str("}")
}

/// Writes `before` and the expression, if there is one.
#[cycle(write)]
#[tactic(auto, using(crate::proofs::PrintedLemmas::options))]
pub(crate) fn write_if_there<W: fmt::Write>(
    before: &str,
    e: &Option<Box<AstExpr>>,
    f: &mut fmt::Formatter<W>,
) -> fmt::Result
    ensures { WritesOnOk W.write_str_gives f.old result (printed_if_there before.now e.now) f.new }
{
    match e {
        Some(e) => write_after(before, &e.node, f),
        None => Ok(()),
    }
}

/// Writes `before` and the type, if there is one.
#[cycle(write)]
#[tactic(auto, using(crate::proofs::PrintedLemmas::options))]
pub(crate) fn write_type_if_there<W: fmt::Write>(
    before: &str,
    ty: &Option<Box<AstTypeExpr>>,
    f: &mut fmt::Formatter<W>,
) -> fmt::Result
    ensures { WritesOnOk W.write_str_gives f.old result (printed_type_if_there before.now ty.now) f.new }
{
    match ty {
        Some(ty) => write_after(before, &ty.node.expr.node, f),
        None => Ok(()),
    }
}

#[cycle(write)]
#[tactic(auto, using(crate::proofs::PrintedLemmas::lambdas))]
fn write_lambda<W: fmt::Write>(
    lambda: &LambdaP<AstNoPayload>,
    f: &mut fmt::Formatter<W>,
) -> fmt::Result
    ensures { WritesOnOk W.write_str_gives f.old result (printed_expr (ExprP.Lambda lambda.now)) f.new }
{
    f.write_str("(lambda ")?;
    write_parameters(&lambda.params, f)?;
    write_after(": ", &lambda.body.node, f)?;
    f.write_str(")")
}

#[cycle(write)]
#[tactic(auto, using(crate::proofs::PrintedLemmas::lambdas))]
fn write_f_string<W: fmt::Write>(
    text: &FStringP<AstNoPayload>,
    f: &mut fmt::Formatter<W>,
) -> fmt::Result
    ensures { WritesOnOk W.write_str_gives f.old result (string_bytes text.now.format.node ++ codes ".format("
        ++ comma_separated (λ e. printed_expr e.node) text.now.expressions.items ++ codes ")") f.new }
{
    f.write_str(text.format.node.as_str())?;
    f.write_str(".format(")?;
    write_exprs(&text.expressions, f)?;
    f.write_str(")")
}

#[cycle(write)]
#[tactic(auto, using(crate::proofs::PrintedLemmas::arguments))]
fn write_argument<W: fmt::Write>(a: &Argument, f: &mut fmt::Formatter<W>) -> fmt::Result
    ensures { WritesOnOk W.write_str_gives f.old result (printed_argument a.now) f.new }
{
    match a {
        ArgumentP::Positional(e) => write_expr(&e.node, f),
        ArgumentP::Named(name, e) => {
            f.write_str(name.node.as_str())?;
            write_after(" = ", &e.node, f)
        }
        ArgumentP::Args(e) => write_after("*", &e.node, f),
        ArgumentP::KwArgs(e) => write_after("**", &e.node, f),
    }
}

#[cycle(write)]
fn write_arguments<W: fmt::Write>(items: &[AstArgument], f: &mut fmt::Formatter<W>) -> fmt::Result
    ensures { WritesOnOk W.write_str_gives f.old result (comma_separated (λ a. printed_argument a.node) items.now) f.new }
{
    match items {
        [] => Ok(()),
        [first, rest @ ..] => {
            write_argument(&first.node, f)?;
            for item in rest {
                f.write_str(", ")?;
                write_argument(&item.node, f)?;
            }
            Ok(())
        }
    }
}

#[cycle(write)]
#[tactic(auto, using(crate::proofs::PrintedLemmas::parameters))]
fn write_parameter<W: fmt::Write>(p: &Parameter, f: &mut fmt::Formatter<W>) -> fmt::Result
    ensures { WritesOnOk W.write_str_gives f.old result (printed_parameter p.now) f.new }
{
    match p {
        ParameterP::Slash => f.write_str("/"),
        ParameterP::Normal(name, ty, default) => {
            name.node.fmt(f)?;
            write_type_if_there(": ", ty, f)?;
            write_if_there(" = ", default, f)
        }
        ParameterP::NoArgs => f.write_str("*"),
        ParameterP::Args(name, ty) => {
            f.write_str("*")?;
            name.node.fmt(f)?;
            write_type_if_there(": ", ty, f)
        }
        ParameterP::KwArgs(name, ty) => {
            f.write_str("**")?;
            name.node.fmt(f)?;
            write_type_if_there(": ", ty, f)
        }
    }
}

/// Writes the parameters, separated by commas.
#[cycle(write)]
pub(crate) fn write_parameters<W: fmt::Write>(
    items: &[AstParameter],
    f: &mut fmt::Formatter<W>,
) -> fmt::Result
    ensures { WritesOnOk W.write_str_gives f.old result (comma_separated (λ p. printed_parameter p.node) items.now) f.new }
{
    match items {
        [] => Ok(()),
        [first, rest @ ..] => {
            write_parameter(&first.node, f)?;
            for item in rest {
                f.write_str(", ")?;
                write_parameter(&item.node, f)?;
            }
            Ok(())
        }
    }
}

#[cycle(write)]
#[tactic(auto, using(crate::proofs::PrintedLemmas::clauses))]
fn write_for_clause<W: fmt::Write>(c: &ForClause, f: &mut fmt::Formatter<W>) -> fmt::Result
    ensures { WritesOnOk W.write_str_gives f.old result (printed_for c.now) f.new }
{
    f.write_str(" for ")?;
    write_target(&c.var.node, f)?;
    write_after(" in ", &c.over.node, f)
}

#[cycle(write)]
#[tactic(auto, using(crate::proofs::PrintedLemmas::clauses))]
fn write_clause<W: fmt::Write>(c: &Clause, f: &mut fmt::Formatter<W>) -> fmt::Result
    ensures { WritesOnOk W.write_str_gives f.old result (printed_clause c.now) f.new }
{
    match c {
        ClauseP::For(c) => write_for_clause(c, f),
        ClauseP::If(e) => write_after(" if ", &e.node, f),
    }
}

#[cycle(write)]
fn write_clauses<W: fmt::Write>(items: &[Clause], f: &mut fmt::Formatter<W>) -> fmt::Result
    ensures { WritesOnOk W.write_str_gives f.old result (flat_map printed_clause items.now) f.new }
{
    for item in items {
        write_clause(item, f)?;
    }
    Ok(())
}

/// Writes the target of an assignment.
#[cycle(write)]
#[tactic(auto, using(crate::proofs::PrintedLemmas::targets))]
pub(crate) fn write_target<W: fmt::Write>(
    target: &AssignTarget,
    f: &mut fmt::Formatter<W>,
) -> fmt::Result
    ensures { WritesOnOk W.write_str_gives f.old result (printed_target target.now) f.new }
{
    match target {
        AssignTargetP::Tuple(items) => write_target_tuple(items, f),
        AssignTargetP::Index(parts) => write_index(parts, f),
        AssignTargetP::Dot(object, name) => {
            write_expr(&object.node, f)?;
            write_attribute(name, f)
        }
        AssignTargetP::Identifier(name) => name.node.fmt(f),
    }
}

#[cycle(write)]
fn write_targets<W: fmt::Write>(items: &[AstAssignTarget], f: &mut fmt::Formatter<W>) -> fmt::Result
    ensures { WritesOnOk W.write_str_gives f.old result (comma_separated (λ x. printed_target x.node) items.now) f.new }
{
    match items {
        [] => Ok(()),
        [first, rest @ ..] => {
            write_target(&first.node, f)?;
            for item in rest {
                f.write_str(", ")?;
                write_target(&item.node, f)?;
            }
            Ok(())
        }
    }
}

/// Writes a tuple: a comma follows a single element.
#[cycle(write)]
fn write_target_tuple<W: fmt::Write>(
    items: &[AstAssignTarget],
    f: &mut fmt::Formatter<W>,
) -> fmt::Result
    ensures { WritesOnOk W.write_str_gives f.old result (codes "(" ++ tuple_parts (λ x. printed_target x.node) items.now ++ codes ")") f.new }
{
    f.write_str("(")?;
    match items {
        [only] => {
            write_target(&only.node, f)?;
            f.write_str(",)")
        }
        _ => {
            write_targets(items, f)?;
            f.write_str(")")
        }
    }
}

/// Writes ` : ` and the type of an assignment's target, if there is one.
#[tactic(auto, using(crate::proofs::PrintedLemmas::options))]
pub(crate) fn write_target_type<W: fmt::Write>(
    ty: &Option<AstTypeExpr>,
    f: &mut fmt::Formatter<W>,
) -> fmt::Result
    ensures { WritesOnOk W.write_str_gives f.old result (printed_target_type ty.now) f.new }
{
    match ty {
        Some(ty) => write_after(" : ", &ty.node.expr.node, f),
        None => Ok(()),
    }
}

/// Operations, conditionals and lambdas are written in parentheses, and a comma follows the single element of a tuple.
/// A slice is displayed as `e[]`, its start, `:`, its stop, and `:` and its step if there is one; an f-string as its
/// format, `.format(`, its expressions and `)`.
impl fmt::Display for Expr {
    ghost output = { λ e. Some (printed_expr e) };

    fn fmt<W: fmt::Write>(&self, f: &mut fmt::Formatter<W>) -> fmt::Result {
        write_expr(self, f)
    }
}

/// The type's expression.
impl fmt::Display for TypeExpr {
    ghost output = { λ ty. Some (printed_type ty) };

    fn fmt<W: fmt::Write>(&self, f: &mut fmt::Formatter<W>) -> fmt::Result {
        write_expr(&self.expr.node, f)
    }
}

/// Displayed as the expression that reads it.
impl fmt::Display for AssignTarget {
    ghost output = { λ target. Some (printed_target target) };

    fn fmt<W: fmt::Write>(&self, f: &mut fmt::Formatter<W>) -> fmt::Result {
        write_target(self, f)
    }
}

/// `e`, `name = e`, `*e` or `**e`.
impl fmt::Display for Argument {
    ghost output = { λ a. Some (printed_argument a) };

    fn fmt<W: fmt::Write>(&self, f: &mut fmt::Formatter<W>) -> fmt::Result {
        write_argument(self, f)
    }
}

/// `/` or `*`, or the name after its stars, followed by `: ` and the type, and ` = ` and the default value, if there
/// are any.
impl fmt::Display for Parameter {
    ghost output = { λ p. Some (printed_parameter p) };

    fn fmt<W: fmt::Write>(&self, f: &mut fmt::Formatter<W>) -> fmt::Result {
        write_parameter(self, f)
    }
}

/// ` for `, the target, ` in ` and the source.
impl fmt::Display for ForClause {
    ghost output = { λ c. Some (printed_for c) };

    fn fmt<W: fmt::Write>(&self, f: &mut fmt::Formatter<W>) -> fmt::Result {
        write_for_clause(self, f)
    }
}

/// A `for` clause, or ` if ` and the condition.
impl fmt::Display for Clause {
    ghost output = { λ c. Some (printed_clause c) };

    fn fmt<W: fmt::Write>(&self, f: &mut fmt::Formatter<W>) -> fmt::Result {
        write_clause(self, f)
    }
}
