//! Expressions, and all that is in them.
ghost use Rattle.std.specs.Prelude.{◌++◌, flat_map, length};
ghost use Rattle.starlark_compact.specs.Adds.{Adds};
ghost use Rattle.starlark_compact.specs.Bytes.{count, node, word_bytes};
ghost use Rattle.starlark_compact.specs.Code.{bytes_of_expr, bytes_of_maybe, bytes_of_boxed_type, bytes_of_argument, bytes_of_parameter, bytes_of_for};
ghost use Rattle.starlark_compact.specs.Code.{bytes_of_clause, bytes_of_target, bytes_of_expression, bytes_of_pair, bytes_of_arg};
ghost use Rattle.starlark_compact.specs.Code.{bytes_of_param, bytes_of_spanned_target};
ghost use Rattle.starlark_compact.specs.Trees.{expression_bytes};
ghost use Rattle.starlark_compact.specs.declared.kind.Kind.TheVariants as kind_of;
ghost use Rattle.starlark_lexer.specs.Tokens.{span_of};
ghost use Rattle.starlark_tree.specs.Views.{word, assign_word, expression_of};
ghost use Rattle.starlark_tree.specs.declared.ast.ExprP;

use crate::kind::Kind;
use crate::literal::{operator_number, write_literal};
use crate::write::{
    write_count, write_counted, write_kind, write_named, write_node, write_numbered, write_valued,
};
use starlark_lexer::codemap::Span;
use starlark_tree::ast::{
    Argument, ArgumentP, AssignTarget, AssignTargetP, AstArgument, AstAssignIdent, AstAssignTarget,
    AstExpr, AstNoPayload, AstParameter, AstString, AstTypeExpr, Clause, ClauseP, Expr, ExprP,
    FStringP, ForClause, LambdaP, Parameter, ParameterP,
};
use std::alloc::AllocError;

/// Writes an expression: its parts, and then itself.
///
/// Fails if an allocation fails, with some of the bytes written.
#[tactic(auto, unfolding(crate::specs::Code::bytes_of_expr))]
pub fn write_expression(out: &mut Vec<u8>, expression: &AstExpr) -> Result<(), AllocError>
    ensures { Adds result out.old out.new (expression_bytes (expression_of expression.now)) }
{
    write_expr(out, &expression.node, expression.span)
}

/// Writes the expression that is at a span.
#[cycle(write)]
fn write_expr(out: &mut Vec<u8>, e: &Expr, span: Span) -> Result<(), AllocError>
    ensures { Adds result out.old out.new (bytes_of_expr e.now (span_of span)) }
{
    match e {
        ExprP::Tuple(items) => write_items(out, Kind::Tuple, span, items),
        ExprP::Dot(object, name) => {
            write_dot(out, Kind::Dot, span, &object.node, object.span, name)
        }
        ExprP::Call(callee, args) => {
            write_expr(out, &callee.node, callee.span)?;
            write_arguments(out, &args.args)?;
            write_counted(out, Kind::Call, span, args.args.len())
        }
        ExprP::Index(parts) => write_index(out, Kind::Index, span, parts),
        ExprP::Index2(parts) => write_three(out, Kind::Index2, span, parts),
        ExprP::Slice(array, start, stop, step) => {
            write_expr(out, &array.node, array.span)?;
            write_maybe(out, start)?;
            write_maybe(out, stop)?;
            write_maybe(out, step)?;
            write_node(out, Kind::Slice, span)
        }
        ExprP::Identifier(name) => {
            write_valued(
                out,
                Kind::Identifier,
                span,
                name.node.ident.as_str().as_bytes(),
            )
        }
        ExprP::Lambda(lambda) => write_lambda(out, span, lambda),
        ExprP::Literal(literal) => write_literal(out, literal, span),
        ExprP::Not(operand) => write_unary(out, Kind::Not, span, &operand.node, operand.span),
        ExprP::Minus(operand) => write_unary(out, Kind::Minus, span, &operand.node, operand.span),
        ExprP::Plus(operand) => write_unary(out, Kind::Plus, span, &operand.node, operand.span),
        ExprP::BitNot(operand) => write_unary(out, Kind::BitNot, span, &operand.node, operand.span),
        ExprP::Op(left, operator, right) => {
            write_expr(out, &left.node, left.span)?;
            write_expr(out, &right.node, right.span)?;
            write_numbered(out, Kind::Op, span, operator_number(*operator))
        }
        ExprP::If(parts) => write_three(out, Kind::Conditional, span, parts),
        ExprP::List(items) => write_items(out, Kind::List, span, items),
        ExprP::Dict(pairs) => write_dict(out, span, pairs),
        ExprP::ListComprehension(element, first, clauses) => {
            write_expr(out, &element.node, element.span)?;
            write_for(out, first)?;
            write_more_clauses(out, clauses)?;
            write_counted(out, Kind::ListComprehension, span, clauses.len())
        }
        ExprP::DictComprehension(pair, first, clauses) => {
            write_expr(out, &pair.0.node, pair.0.span)?;
            write_expr(out, &pair.1.node, pair.1.span)?;
            write_for(out, first)?;
            write_more_clauses(out, clauses)?;
            write_counted(out, Kind::DictComprehension, span, clauses.len())
        }
        ExprP::FString(text) => write_f_string(out, span, &text.node),
    }
}

/// An optional expression.
#[cycle(write)]
#[tactic(auto, using(crate::proofs::Nodes::options))]
fn write_maybe(out: &mut Vec<u8>, e: &Option<Box<AstExpr>>) -> Result<(), AllocError>
    ensures { Adds result out.old out.new (bytes_of_maybe e.now) }
{
    match e {
        Some(e) => {
            write_expr(out, &e.node, e.span)?;
            write_kind(out, Kind::Present)
        }
        None => write_kind(out, Kind::Absent),
    }
}

/// A type with its span.
#[cycle(write)]
pub(crate) fn write_type(
    out: &mut Vec<u8>,
    e: &Expr,
    at: Span,
    span: Span,
) -> Result<(), AllocError>
    ensures { Adds result out.old out.new (bytes_of_expr e.now (span_of at) ++ node kind_of.TypeExpr (span_of span)) }
{
    write_expr(out, e, at)?;
    write_node(out, Kind::TypeExpr, span)
}

/// An optional type.
#[cycle(write)]
#[tactic(auto, using(crate::proofs::Nodes::options))]
pub(crate) fn write_maybe_type(
    out: &mut Vec<u8>,
    ty: &Option<Box<AstTypeExpr>>,
) -> Result<(), AllocError>
    ensures { Adds result out.old out.new (bytes_of_boxed_type ty.now) }
{
    match ty {
        Some(ty) => write_type(out, &ty.node.expr.node, ty.node.expr.span, ty.span),
        None => write_kind(out, Kind::NoType),
    }
}

/// Expressions one after another.
#[cycle(write)]
fn write_exprs(out: &mut Vec<u8>, items: &[AstExpr]) -> Result<(), AllocError>
    ensures { Adds result out.old out.new (flat_map bytes_of_expression items.now) }
{
    for item in items {
        write_expr(out, &item.node, item.span)?;
    }
    Ok(())
}

/// A tuple or a list.
#[cycle(write)]
fn write_items(
    out: &mut Vec<u8>,
    kind: Kind,
    span: Span,
    items: &[AstExpr],
) -> Result<(), AllocError>
    ensures { Adds result out.old out.new (flat_map bytes_of_expression items.now ++ (node kind (span_of span) ++ count (length items.now))) }
{
    write_exprs(out, items)?;
    write_counted(out, kind, span, items.len())
}

/// An operation on one operand.
#[cycle(write)]
fn write_unary(
    out: &mut Vec<u8>,
    kind: Kind,
    span: Span,
    operand: &Expr,
    at: Span,
) -> Result<(), AllocError>
    ensures { Adds result out.old out.new (bytes_of_expr operand.now (span_of at) ++ node kind (span_of span)) }
{
    write_expr(out, operand, at)?;
    write_node(out, kind, span)
}

/// An attribute: an expression, or what is assigned to.
#[cycle(write)]
fn write_dot(
    out: &mut Vec<u8>,
    kind: Kind,
    span: Span,
    object: &Expr,
    at: Span,
    name: &AstString,
) -> Result<(), AllocError>
    ensures { Adds result out.old out.new (bytes_of_expr object.now (span_of at) ++ (node kind (span_of span) ++ word_bytes (word name.now))) }
{
    write_expr(out, object, at)?;
    write_named(out, kind, span, name.node.as_str(), name.span)
}

/// An index: an expression, or what is assigned to.
#[cycle(write)]
fn write_index(
    out: &mut Vec<u8>,
    kind: Kind,
    span: Span,
    parts: &(AstExpr, AstExpr),
) -> Result<(), AllocError>
    ensures { Adds result out.old out.new (bytes_of_expression parts.now.0 ++ (bytes_of_expression parts.now.1 ++ node kind (span_of span))) }
{
    write_expr(out, &parts.0.node, parts.0.span)?;
    write_expr(out, &parts.1.node, parts.1.span)?;
    write_node(out, kind, span)
}

/// An expression of three parts.
#[cycle(write)]
fn write_three(
    out: &mut Vec<u8>,
    kind: Kind,
    span: Span,
    parts: &(AstExpr, AstExpr, AstExpr),
) -> Result<(), AllocError>
    ensures { Adds result out.old out.new (bytes_of_expression parts.now.0
        ++ (bytes_of_expression parts.now.1 ++ (bytes_of_expression parts.now.2 ++ node kind (span_of span)))) }
{
    write_expr(out, &parts.0.node, parts.0.span)?;
    write_expr(out, &parts.1.node, parts.1.span)?;
    write_expr(out, &parts.2.node, parts.2.span)?;
    write_node(out, kind, span)
}

#[cycle(write)]
fn write_dict(out: &mut Vec<u8>, span: Span, pairs: &[(AstExpr, AstExpr)]) -> Result<(), AllocError>
    ensures { Adds result out.old out.new (flat_map bytes_of_pair pairs.now ++ (node kind_of.Dict (span_of span) ++ count (length pairs.now))) }
{
    write_entries(out, pairs)?;
    write_counted(out, Kind::Dict, span, pairs.len())
}

/// Each key and its value.
#[cycle(write)]
fn write_entries(out: &mut Vec<u8>, pairs: &[(AstExpr, AstExpr)]) -> Result<(), AllocError>
    ensures { Adds result out.old out.new (flat_map bytes_of_pair pairs.now) }
{
    for pair in pairs {
        write_expr(out, &pair.0.node, pair.0.span)?;
        write_expr(out, &pair.1.node, pair.1.span)?;
    }
    Ok(())
}

#[cycle(write)]
fn write_f_string(
    out: &mut Vec<u8>,
    span: Span,
    text: &FStringP<AstNoPayload>,
) -> Result<(), AllocError>
    ensures { Adds result out.old out.new (flat_map bytes_of_expression text.now.expressions.items
        ++ ((node kind_of.FString (span_of span) ++ word_bytes (word text.now.format)) ++ count (length text.now.expressions.items))) }
{
    write_exprs(out, &text.expressions)?;
    write_named(
        out,
        Kind::FString,
        span,
        text.format.node.as_str(),
        text.format.span,
    )?;
    write_count(out, text.expressions.len())
}

/// The arguments of a call.
#[cycle(write)]
fn write_arguments(out: &mut Vec<u8>, args: &[AstArgument]) -> Result<(), AllocError>
    ensures { Adds result out.old out.new (flat_map bytes_of_arg args.now) }
{
    for arg in args {
        write_argument(out, &arg.node, arg.span)?;
    }
    Ok(())
}

#[cycle(write)]
fn write_argument(out: &mut Vec<u8>, arg: &Argument, span: Span) -> Result<(), AllocError>
    ensures { Adds result out.old out.new (bytes_of_argument arg.now (span_of span)) }
{
    match arg {
        ArgumentP::Positional(e) => write_unary(out, Kind::Positional, span, &e.node, e.span),
        ArgumentP::Named(name, e) => write_dot(out, Kind::Named, span, &e.node, e.span, name),
        ArgumentP::Args(e) => write_unary(out, Kind::Args, span, &e.node, e.span),
        ArgumentP::KwArgs(e) => write_unary(out, Kind::KwArgs, span, &e.node, e.span),
    }
}

#[cycle(write)]
fn write_lambda(
    out: &mut Vec<u8>,
    span: Span,
    lambda: &LambdaP<AstNoPayload>,
) -> Result<(), AllocError>
    ensures { Adds result out.old out.new (bytes_of_expr (ExprP.Lambda lambda.now) (span_of span)) }
{
    write_parameters(out, &lambda.params)?;
    write_expr(out, &lambda.body.node, lambda.body.span)?;
    write_counted(out, Kind::Lambda, span, lambda.params.len())
}

/// Parameters one after another.
#[cycle(write)]
pub(crate) fn write_parameters(out: &mut Vec<u8>, params: &[AstParameter]) -> Result<(), AllocError>
    ensures { Adds result out.old out.new (flat_map bytes_of_param params.now) }
{
    for param in params {
        write_parameter(out, &param.node, param.span)?;
    }
    Ok(())
}

/// A parameter that takes what is left.
#[cycle(write)]
fn write_rest(
    out: &mut Vec<u8>,
    kind: Kind,
    span: Span,
    name: &AstAssignIdent,
    ty: &Option<Box<AstTypeExpr>>,
) -> Result<(), AllocError>
    ensures { Adds result out.old out.new (bytes_of_boxed_type ty.now ++ (node kind (span_of span) ++ word_bytes (assign_word name.now))) }
{
    write_maybe_type(out, ty)?;
    write_named(out, kind, span, name.node.ident.as_str(), name.span)
}

#[cycle(write)]
fn write_parameter(out: &mut Vec<u8>, param: &Parameter, span: Span) -> Result<(), AllocError>
    ensures { Adds result out.old out.new (bytes_of_parameter param.now (span_of span)) }
{
    match param {
        ParameterP::Slash => write_node(out, Kind::Slash, span),
        ParameterP::Normal(name, ty, default) => {
            write_maybe_type(out, ty)?;
            write_maybe(out, default)?;
            write_named(out, Kind::Normal, span, name.node.ident.as_str(), name.span)
        }
        ParameterP::NoArgs => write_node(out, Kind::NoArgs, span),
        ParameterP::Args(name, ty) => write_rest(out, Kind::ArgsParameter, span, name, ty),
        ParameterP::KwArgs(name, ty) => write_rest(out, Kind::KwArgsParameter, span, name, ty),
    }
}

/// The clauses after the first.
#[cycle(write)]
fn write_more_clauses(out: &mut Vec<u8>, clauses: &[Clause]) -> Result<(), AllocError>
    ensures { Adds result out.old out.new (flat_map bytes_of_clause clauses.now) }
{
    for clause in clauses {
        write_clause(out, clause)?;
    }
    Ok(())
}

#[cycle(write)]
fn write_for(out: &mut Vec<u8>, clause: &ForClause) -> Result<(), AllocError>
    ensures { Adds result out.old out.new (bytes_of_for clause.now) }
{
    write_target(out, &clause.var.node, clause.var.span)?;
    write_expr(out, &clause.over.node, clause.over.span)?;
    write_kind(out, Kind::ForClause)
}

#[cycle(write)]
fn write_clause(out: &mut Vec<u8>, clause: &Clause) -> Result<(), AllocError>
    ensures { Adds result out.old out.new (bytes_of_clause clause.now) }
{
    match clause {
        ClauseP::For(clause) => write_for(out, clause),
        ClauseP::If(e) => {
            write_expr(out, &e.node, e.span)?;
            write_kind(out, Kind::IfClause)
        }
    }
}

/// Writes what is assigned to.
#[cycle(write)]
pub(crate) fn write_target(
    out: &mut Vec<u8>,
    target: &AssignTarget,
    span: Span,
) -> Result<(), AllocError>
    ensures { Adds result out.old out.new (bytes_of_target target.now (span_of span)) }
{
    match target {
        AssignTargetP::Tuple(items) => write_targets(out, span, items),
        AssignTargetP::Index(parts) => write_index(out, Kind::IndexTarget, span, parts),
        AssignTargetP::Dot(object, name) => {
            write_dot(out, Kind::DotTarget, span, &object.node, object.span, name)
        }
        AssignTargetP::Identifier(name) => {
            write_valued(
                out,
                Kind::IdentifierTarget,
                span,
                name.node.ident.as_str().as_bytes(),
            )
        }
    }
}

#[cycle(write)]
fn write_targets(out: &mut Vec<u8>, span: Span, items: &[AstAssignTarget]) -> Result<(), AllocError>
    ensures { Adds result out.old out.new (flat_map bytes_of_spanned_target items.now
        ++ (node kind_of.TupleTarget (span_of span) ++ count (length items.now))) }
{
    write_target_items(out, items)?;
    write_counted(out, Kind::TupleTarget, span, items.len())
}

/// What is assigned to by parts.
#[cycle(write)]
fn write_target_items(out: &mut Vec<u8>, items: &[AstAssignTarget]) -> Result<(), AllocError>
    ensures { Adds result out.old out.new (flat_map bytes_of_spanned_target items.now) }
{
    for item in items {
        write_target(out, &item.node, item.span)?;
    }
    Ok(())
}
