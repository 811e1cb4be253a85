//! The source of expressions, and of all that is in them (Starlark specification, "Expressions").
ghost use Rattle.std.specs.Prelude.{◌≡◌, ◌++◌, codes, drop, flat_map, if◌then◌else◌, string_bytes, false, true};
ghost use Rattle.starlark_lexer.specs.Tokens.{span_of};
ghost use Rattle.starlark_tree.specs.Views.{shape_seen};
ghost use Rattle.starlark_tree.specs.Operators.{operator_text};
ghost use Rattle.starlark_source.specs.Pages.{Wrote, say};
ghost use Rattle.starlark_source.specs.Drafts.{drafts};
ghost use Rattle.starlark_source.specs.Drafted.{bare_drafts, drafted_argument, drafted_at, drafted_clause, drafted_expr, drafted_filled};
ghost use Rattle.starlark_source.specs.Drafted.{drafted_for, drafted_hole, drafted_if_there, drafted_lambda_parameter, drafted_list};
ghost use Rattle.starlark_source.specs.Drafted.{drafted_no_type, drafted_pair, drafted_parameter, drafted_target, drafted_targets};
ghost use Rattle.starlark_source.specs.Drafted.{drafted_type_if_there, lambda_drafts, tuple_drafts};
ghost use Rattle.starlark_source.specs.Source.{shape_begins_with_brace};

use crate::format::{Mark, mark_at};
use crate::level::{Level, left_of, level_of_operator, needs_brackets, right_of};
use crate::literal::{write_escaped, write_literal, write_name};
use crate::page::Page;
use starlark_lexer::span::Span;
use starlark_tree::ast::{
    Argument, ArgumentP, AssignTarget, AssignTargetP, AstArgument, AstAssignTarget, AstExpr,
    AstNoPayload, AstParameter, AstTypeExpr, BinOp, Clause, ClauseP, Expr, ExprP, FStringP,
    ForClause, LambdaP, Parameter, ParameterP,
};
use std::fmt::Display;

/// Writes the expression where one of this level is allowed: in parentheses if it binds less tightly.
#[cycle(write)]
pub(crate) fn write_at(page: &mut Page, e: &Expr, level: Level)
    ensures { Wrote page.old (drafted_at level e.now) page.new }
{
    let loose = needs_brackets(e, level);
    if loose {
        page.put("(");
        write_expr(page, e);
        page.put(")");
    } else {
        write_expr(page, e);
    }
}

/// Writes the expression.
#[cycle(write)]
pub(crate) fn write_expr(page: &mut Page, e: &Expr)
    ensures { Wrote page.old (drafted_expr e.now) page.new }
{
    match e {
        ExprP::Tuple(items) => write_tuple(page, items),
        ExprP::Dot(object, name) => {
            write_at(page, &object.node, Level::Primary);
            page.put(".");
            write_name(page, name.node.as_str(), name.span);
        }
        ExprP::Call(callee, args) => {
            write_at(page, &callee.node, Level::Number);
            page.put("(");
            write_arguments(page, &args.args);
            page.put(")");
        }
        ExprP::Index(parts) => write_index(page, parts),
        ExprP::Index2(parts) => write_index2(page, parts),
        ExprP::Slice(array, start, stop, step) => {
            write_at(page, &array.node, Level::Number);
            page.put("[");
            write_if_there(page, "", start);
            page.put(":");
            write_if_there(page, "", stop);
            write_if_there(page, ":", step);
            page.put("]");
        }
        ExprP::Identifier(name) => write_name(page, name.node.ident.as_str(), name.span),
        ExprP::Lambda(lambda) => write_lambda(page, lambda),
        ExprP::Literal(literal) => write_literal(page, literal),
        ExprP::Not(operand) => write_after_at(page, "not ", &operand.node, Level::Not),
        ExprP::Minus(operand) => write_after_at(page, "-", &operand.node, Level::Unary),
        ExprP::Plus(operand) => write_after_at(page, "+", &operand.node, Level::Unary),
        ExprP::BitNot(operand) => write_after_at(page, "~", &operand.node, Level::Unary),
        ExprP::Op(left, operator, right) => {
            let level = level_of_operator(*operator);
            write_at(page, &left.node, left_of(level));
            write_operator(page, operator);
            write_at(page, &right.node, right_of(level));
        }
        ExprP::If(parts) => write_conditional(page, parts),
        ExprP::List(items) => {
            page.put("[");
            write_exprs(page, items);
            page.put("]");
        }
        ExprP::Dict(pairs) => {
            page.put("{");
            write_pairs(page, pairs);
            page.put("}");
        }
        ExprP::ListComprehension(element, first, clauses) => {
            write_after(page, "[", &element.node);
            write_for_clause(page, first);
            write_clauses(page, clauses);
            page.put("]");
        }
        ExprP::DictComprehension(pair, first, clauses) => {
            page.put("{");
            write_pair(page, pair);
            write_for_clause(page, first);
            write_clauses(page, clauses);
            page.put("}");
        }
        ExprP::FString(text) => write_f_string(page, &text.node, text.span),
    }
}

/// Writes the operator, with a space before it and after it.
fn write_operator(page: &mut Page, operator: &BinOp)
    ensures { Wrote page.old (say (operator_text operator.now)) page.new }
{
    match operator.to_string(page.allocator()) {
        Ok(text) => page.put(&text),
        Err(_) => page.report_out_of_memory(),
    }
}

/// Writes `before` and then the expression.
#[cycle(write)]
fn write_after(page: &mut Page, before: &str, e: &Expr)
    ensures { Wrote page.old (say before.now ++ drafted_expr e.now) page.new }
{
    page.put(before);
    write_expr(page, e);
}

/// Writes `before` and then the expression, where one of this level is allowed.
#[cycle(write)]
fn write_after_at(page: &mut Page, before: &str, e: &Expr, level: Level)
    ensures { Wrote page.old (say before.now ++ drafted_at level e.now) page.new }
{
    page.put(before);
    write_at(page, e, level);
}

/// Writes the expressions, separated by commas.
#[cycle(write)]
fn write_exprs(page: &mut Page, items: &[AstExpr])
    ensures { Wrote page.old (drafts (λ e. drafted_expr e.node) (codes ", ") items.now) page.new }
{
    match items {
        [] => {}
        [first, rest @ ..] => {
            write_expr(page, &first.node);
            for item in rest {
                write_after(page, ", ", &item.node);
            }
        }
    }
}

/// Writes a tuple in parentheses: a comma follows a single element.
#[cycle(write)]
fn write_tuple(page: &mut Page, items: &[AstExpr])
    ensures { Wrote page.old (say (codes "(") ++ (tuple_drafts (λ e. drafted_expr e.node) items.now ++ say (codes ")"))) page.new }
{
    page.put("(");
    match items {
        [only] => {
            write_expr(page, &only.node);
            page.put(",)");
        }
        _ => {
            write_exprs(page, items);
            page.put(")");
        }
    }
}

/// Writes the expression where a list of them is allowed: a tuple of two elements or more needs no parentheses there.
pub(crate) fn write_list(page: &mut Page, e: &Expr)
    ensures { Wrote page.old (drafted_list e.now) page.new }
{
    match e {
        ExprP::Tuple(items) => {
            if items.len() >= 2 {
                write_exprs(page, items);
            } else {
                write_tuple(page, items);
            }
        }
        _ => write_expr(page, e),
    }
}

#[cycle(write)]
fn write_index(page: &mut Page, parts: &(AstExpr, AstExpr))
    ensures { Wrote page.old (drafted_at Level.Number parts.now.0.node ++ (say (codes "[") ++ (drafted_expr parts.now.1.node ++ say (codes "]")))) page.new }
{
    write_at(page, &parts.0.node, Level::Number);
    write_after(page, "[", &parts.1.node);
    page.put("]");
}

#[cycle(write)]
fn write_index2(page: &mut Page, parts: &(AstExpr, AstExpr, AstExpr))
    ensures { Wrote page.old (drafted_at Level.Number parts.now.0.node
        ++ (say (codes "[") ++ ((drafted_expr parts.now.1.node ++ (say (codes ", ") ++ drafted_expr parts.now.2.node)) ++ say (codes "]")))) page.new }
{
    write_at(page, &parts.0.node, Level::Number);
    write_after(page, "[", &parts.1.node);
    write_after(page, ", ", &parts.2.node);
    page.put("]");
}

/// Writes `value if condition else other`; `parts` are the condition, the value and the other value.
#[cycle(write)]
fn write_conditional(page: &mut Page, parts: &(AstExpr, AstExpr, AstExpr))
    ensures { Wrote page.old (drafted_at Level.Or parts.now.1.node
        ++ (say (codes " if ") ++ (drafted_at Level.Or parts.now.0.node ++ (say (codes " else ") ++ drafted_expr parts.now.2.node)))) page.new }
{
    write_at(page, &parts.1.node, Level::Or);
    write_after_at(page, " if ", &parts.0.node, Level::Or);
    write_after(page, " else ", &parts.2.node);
}

#[cycle(write)]
fn write_pair(page: &mut Page, pair: &(AstExpr, AstExpr))
    ensures { Wrote page.old (drafted_pair pair.now) page.new }
{
    write_expr(page, &pair.0.node);
    write_after(page, ": ", &pair.1.node);
}

#[cycle(write)]
fn write_pairs(page: &mut Page, items: &[(AstExpr, AstExpr)])
    ensures { Wrote page.old (drafts drafted_pair (codes ", ") items.now) page.new }
{
    match items {
        [] => {}
        [first, rest @ ..] => {
            write_expr(page, &first.0.node);
            write_after(page, ": ", &first.1.node);
            for item in rest {
                write_after(page, ", ", &item.0.node);
                write_after(page, ": ", &item.1.node);
            }
        }
    }
}

/// Writes `before` and the expression, if there is one.
#[cycle(write)]
fn write_if_there(page: &mut Page, before: &str, e: &Option<Box<AstExpr>>)
    ensures { Wrote page.old (drafted_if_there before.now e.now) page.new }
{
    match e {
        Some(e) => write_after(page, before, &e.node),
        None => {}
    }
}

/// Writes `before` and the type, if there is one.
pub(crate) fn write_type_if_there(page: &mut Page, before: &str, ty: &Option<Box<AstTypeExpr>>)
    ensures { Wrote page.old (drafted_type_if_there before.now ty.now) page.new }
{
    match ty {
        Some(ty) => write_after(page, before, &ty.node.expr.node),
        None => {}
    }
}

#[cycle(write)]
fn write_lambda(page: &mut Page, lambda: &LambdaP<AstNoPayload>)
    ensures { Wrote page.old (drafted_expr (ExprP.Lambda lambda.now)) page.new }
{
    page.put("lambda");
    write_lambda_parameters(page, &lambda.params);
    write_after(page, ": ", &lambda.body.node);
}

/// Writes a space and the parameters of a lambda, if there are any.
#[cycle(write)]
fn write_lambda_parameters(page: &mut Page, items: &[AstParameter])
    ensures { Wrote page.old (lambda_drafts items.now) page.new }
{
    match items {
        [] => {}
        [first, rest @ ..] => {
            page.put(" ");
            write_lambda_parameter(page, &first.node);
            for item in rest {
                page.put(", ");
                write_lambda_parameter(page, &item.node);
            }
        }
    }
}

/// Rejects the type of a lambda's parameter, if there is one.
fn refuse_type(page: &mut Page, ty: &Option<Box<AstTypeExpr>>)
    ensures { Wrote page.old (drafted_no_type ty.now) page.new }
{
    match ty {
        Some(ty) => page.refuse(ty.span),
        None => {}
    }
}

#[cycle(write)]
fn write_lambda_parameter(page: &mut Page, p: &Parameter)
    ensures { Wrote page.old (drafted_lambda_parameter p.now) page.new }
{
    match p {
        ParameterP::Slash => page.put("/"),
        ParameterP::Normal(name, ty, default) => {
            write_name(page, name.node.ident.as_str(), name.span);
            refuse_type(page, ty);
            write_if_there(page, " = ", default);
        }
        ParameterP::NoArgs => page.put("*"),
        ParameterP::Args(name, ty) => {
            page.put("*");
            write_name(page, name.node.ident.as_str(), name.span);
            refuse_type(page, ty);
        }
        ParameterP::KwArgs(name, ty) => {
            page.put("**");
            write_name(page, name.node.ident.as_str(), name.span);
            refuse_type(page, ty);
        }
    }
}

fn write_parameter(page: &mut Page, p: &Parameter)
    ensures { Wrote page.old (drafted_parameter p.now) page.new }
{
    match p {
        ParameterP::Slash => page.put("/"),
        ParameterP::Normal(name, ty, default) => {
            write_name(page, name.node.ident.as_str(), name.span);
            write_type_if_there(page, ": ", ty);
            write_if_there(page, " = ", default);
        }
        ParameterP::NoArgs => page.put("*"),
        ParameterP::Args(name, ty) => {
            page.put("*");
            write_name(page, name.node.ident.as_str(), name.span);
            write_type_if_there(page, ": ", ty);
        }
        ParameterP::KwArgs(name, ty) => {
            page.put("**");
            write_name(page, name.node.ident.as_str(), name.span);
            write_type_if_there(page, ": ", ty);
        }
    }
}

/// Writes the parameters of a definition, separated by commas.
pub(crate) fn write_parameters(page: &mut Page, items: &[AstParameter])
    ensures { Wrote page.old (drafts (λ p. drafted_parameter p.node) (codes ", ") items.now) page.new }
{
    match items {
        [] => {}
        [first, rest @ ..] => {
            write_parameter(page, &first.node);
            for item in rest {
                page.put(", ");
                write_parameter(page, &item.node);
            }
        }
    }
}

#[cycle(write)]
fn write_argument(page: &mut Page, a: &Argument)
    ensures { Wrote page.old (drafted_argument a.now) page.new }
{
    match a {
        ArgumentP::Positional(e) => write_expr(page, &e.node),
        ArgumentP::Named(name, e) => {
            write_name(page, name.node.as_str(), name.span);
            write_after(page, " = ", &e.node);
        }
        ArgumentP::Args(e) => write_after(page, "*", &e.node),
        ArgumentP::KwArgs(e) => write_after(page, "**", &e.node),
    }
}

#[cycle(write)]
fn write_arguments(page: &mut Page, items: &[AstArgument])
    ensures { Wrote page.old (drafts (λ a. drafted_argument a.node) (codes ", ") items.now) page.new }
{
    match items {
        [] => {}
        [first, rest @ ..] => {
            write_argument(page, &first.node);
            for item in rest {
                page.put(", ");
                write_argument(page, &item.node);
            }
        }
    }
}

#[cycle(write)]
fn write_for_clause(page: &mut Page, c: &ForClause)
    ensures { Wrote page.old (drafted_for c.now) page.new }
{
    page.put(" for ");
    write_target_list(page, &c.var.node);
    write_after_at(page, " in ", &c.over.node, Level::Or);
}

#[cycle(write)]
fn write_clause(page: &mut Page, c: &Clause)
    ensures { Wrote page.old (drafted_clause c.now) page.new }
{
    match c {
        ClauseP::For(c) => write_for_clause(page, c),
        ClauseP::If(e) => write_after_at(page, " if ", &e.node, Level::Or),
    }
}

#[cycle(write)]
fn write_clauses(page: &mut Page, items: &[Clause])
    ensures { Wrote page.old (flat_map drafted_clause items.now) page.new }
{
    for item in items {
        write_clause(page, item);
    }
}

/// Writes the target of an assignment.
#[cycle(write)]
fn write_target(page: &mut Page, target: &AssignTarget)
    ensures { Wrote page.old (drafted_target target.now) page.new }
{
    match target {
        AssignTargetP::Tuple(items) => write_target_tuple(page, items),
        AssignTargetP::Index(parts) => write_index(page, parts),
        AssignTargetP::Dot(object, name) => {
            write_at(page, &object.node, Level::Primary);
            page.put(".");
            write_name(page, name.node.as_str(), name.span);
        }
        AssignTargetP::Identifier(name) => write_name(page, name.node.ident.as_str(), name.span),
    }
}

/// Writes the targets, separated by commas.
#[cycle(write)]
fn write_targets(page: &mut Page, items: &[AstAssignTarget])
    ensures { Wrote page.old (drafts (λ x. drafted_target x.node) (codes ", ") items.now) page.new }
{
    match items {
        [] => {}
        [first, rest @ ..] => {
            write_target(page, &first.node);
            for item in rest {
                page.put(", ");
                write_target(page, &item.node);
            }
        }
    }
}

/// Writes a tuple of targets in parentheses: a comma follows a single element.
#[cycle(write)]
fn write_target_tuple(page: &mut Page, items: &[AstAssignTarget])
    ensures { Wrote page.old (say (codes "(") ++ (tuple_drafts (λ x. drafted_target x.node) items.now ++ say (codes ")"))) page.new }
{
    page.put("(");
    match items {
        [only] => {
            write_target(page, &only.node);
            page.put(",)");
        }
        _ => {
            write_targets(page, items);
            page.put(")");
        }
    }
}

/// Writes the target where a list of them is allowed: a tuple of two elements or more needs no parentheses there.
#[cycle(write)]
pub(crate) fn write_target_list(page: &mut Page, target: &AssignTarget)
    ensures { Wrote page.old (drafted_targets target.now) page.new }
{
    match target {
        AssignTargetP::Tuple(items) => {
            if items.len() >= 2 {
                write_targets(page, items);
            } else {
                write_target_tuple(page, items);
            }
        }
        _ => write_target(page, target),
    }
}

/// Writes an f-string: its format, with the expressions in its holes.
#[cycle(write)]
fn write_f_string(page: &mut Page, text: &FStringP<AstNoPayload>, span: Span)
    ensures { Wrote page.old (say (codes "f\"")
        ++ (drafted_filled (span_of span) (string_bytes text.now.format.node) text.now.expressions.items ++ say (codes "\""))) page.new }
{
    page.put("f\"");
    write_filled(page, text, span);
    page.put("\"");
}

/// Writes the format of an f-string, with the expressions in its holes. It is rejected if the number of holes is not the number of
/// expressions, or if a brace is neither part of a hole nor doubled.
#[cycle(write)]
fn write_filled(page: &mut Page, text: &FStringP<AstNoPayload>, span: Span)
    ensures { Wrote page.old (drafted_filled (span_of span) (string_bytes text.now.format.node) text.now.expressions.items) page.new }
{
    let format = text.format.node.as_str();
    let values = text.expressions.as_slice();
    let mut start = 0;
    let mut at = 0;
    let mut used = 0;
    'marks: while at < format.len() {
        match mark_at(format, at) {
            Mark::Text => at += 1,
            Mark::Brace => at += 2,
            Mark::Hole => {
                write_escaped(page, &format[start..at]);
                write_hole(page, values, used, "}", span);
                used += 1;
                at += 2;
                start = at;
            }
            Mark::ReprHole => {
                write_escaped(page, &format[start..at]);
                write_hole(page, values, used, "!r}", span);
                used += 1;
                at += 4;
                start = at;
            }
            Mark::Broken => {
                write_escaped(page, &format[start..at]);
                page.refuse(span);
                return;
            }
        }
    }
    write_escaped(page, &format[start..]);
    if used < values.len() {
        page.refuse(span);
    }
}

/// Writes the expression of a hole. A hole without an expression is rejected.
#[cycle(write)]
fn write_hole(page: &mut Page, values: &[AstExpr], at: usize, end: &str, span: Span)
    ensures { Wrote page.old (drafted_hole (span_of span) end.now (drop at values.now)) page.new }
{
    if at < values.len() {
        let value = &values[at];
        page.put(opening(&value.node));
        write_expr(page, &value.node);
        page.put(end);
    } else {
        page.refuse(span);
    }
}

/// What is written before the expression of a hole.
fn opening(e: &Expr) -> &'static str
    ensures { result.now ≡ (if shape_begins_with_brace (shape_seen e.now) then codes "{ " else codes "{") }
{
    if begins_with_brace(e) { "{ " } else { "{" }
}

/// Whether the text of the expression, without parentheses, begins with a dict: a brace after that of a hole would be
/// text.
#[cycle(begins)]
fn begins_with_brace(e: &Expr) -> bool
    ensures { result ≡ shape_begins_with_brace (shape_seen e.now) }
{
    match e {
        ExprP::Dict(_) => true,
        ExprP::DictComprehension(..) => true,
        ExprP::Dot(object, _) => begins_with_brace(&object.node),
        ExprP::Call(callee, _) => begins_with_brace(&callee.node),
        ExprP::Index(parts) => begins_with_brace(&parts.0.node),
        ExprP::Index2(parts) => begins_with_brace(&parts.0.node),
        ExprP::Slice(array, ..) => begins_with_brace(&array.node),
        ExprP::Op(left, ..) => begins_with_brace(&left.node),
        ExprP::If(parts) => begins_with_brace(&parts.1.node),
        _ => false,
    }
}
