//! Expressions, and all that is in them.
ghost use Rattle.std.specs.Prelude.{◌++◌, ◌∷◌, [], codes, flat_map};
ghost use Rattle.json.specs.Token.{key, begin_array, end_array};
ghost use Rattle.json.specs.Tree.{json_tokens};
ghost use Rattle.starlark_lexer.specs.Tokens.{span_of};
ghost use Rattle.starlark_tree.specs.Views.{word, assign_word, expression_of};
ghost use Rattle.starlark_tree.specs.declared.ast.ExprP;
ghost use Rattle.starlark_json.specs.Tree.Adds.{Adds};
ghost use Rattle.starlark_json.specs.Tree.Trees.{expression_json};
ghost use Rattle.starlark_json.specs.Tree.Tokens.{head, type_head, closing, word_field, array_field, expression_field, first_clause};
ghost use Rattle.starlark_json.specs.Tree.Tokens.{expr_tokens, maybe_tokens, boxed_type_tokens, argument_tokens};
ghost use Rattle.starlark_json.specs.Tree.Tokens.{parameter_tokens, for_tokens, clause_tokens, target_tokens};
ghost use Rattle.starlark_json.specs.Tree.Tokens.{expression_tokens, pair_tokens, spanned_argument_tokens, spanned_parameter_tokens, spanned_target_tokens};

use crate::tree::leaf::{write_bare, write_head, write_name, write_span, write_text, write_word};
use crate::tree::literal::{operator_name, write_literal};
use json::Writer;
use starlark_lexer::codemap::Span;
use starlark_tree::ast::{
    Argument, ArgumentP, AssignTarget, AssignTargetP, AstArgument, AstAssignIdent, AstAssignTarget,
    AstExpr, AstNoPayload, AstParameter, AstString, AstTypeExpr, Clause, ClauseP, Expr, ExprP,
    FStringP, ForClause, LambdaP, Parameter, ParameterP,
};
use std::alloc::AllocError;

/// Writes an expression.
///
/// Fails if an allocation fails, with some of the tokens written.
#[tactic(auto, unfolding(crate::specs::Tree::Tokens::expr_tokens))]
pub fn write_expression(out: &mut Writer, expression: &AstExpr) -> Result<(), AllocError>
    ensures { Adds result out.old out.new (json_tokens (expression_json (expression_of expression.now))) }
{
    write_expr(out, &expression.node, expression.span)
}

/// A field that is a text of the tree.
pub(crate) fn write_string(
    out: &mut Writer,
    field: &str,
    text: &AstString,
) -> Result<(), AllocError>
    ensures { Adds result out.old out.new (word_field field.now (word text.now)) }
{
    write_word(out, field, text.node.as_str(), text.span)
}

/// A field that is a name that is bound.
pub(crate) fn write_bound(
    out: &mut Writer,
    field: &str,
    name: &AstAssignIdent,
) -> Result<(), AllocError>
    ensures { Adds result out.old out.new (word_field field.now (assign_word name.now)) }
{
    write_word(out, field, name.node.ident.as_str(), name.span)
}

/// Writes the expression that is at a span.
#[cycle(write)]
fn write_expr(out: &mut Writer, e: &Expr, span: Span) -> Result<(), AllocError>
    ensures { Adds result out.old out.new (expr_tokens e.now (span_of span)) }
{
    match e {
        ExprP::Tuple(items) => write_items(out, "Tuple", span, items),
        ExprP::Dot(object, name) => write_dot(out, "expr", span, &object.node, object.span, name),
        ExprP::Call(callee, args) => {
            write_head(out, "expr", "Call", span)?;
            write_field(out, "callee", &callee.node, callee.span)?;
            write_arguments(out, &args.args)?;
            out.end_object()
        }
        ExprP::Index(parts) => write_index(out, "expr", span, parts),
        ExprP::Index2(parts) => write_index2(out, span, parts),
        ExprP::Slice(array, start, stop, step) => {
            write_head(out, "expr", "Slice", span)?;
            write_field(out, "array", &array.node, array.span)?;
            write_maybe(out, "start", start)?;
            write_maybe(out, "stop", stop)?;
            write_maybe(out, "step", step)?;
            out.end_object()
        }
        ExprP::Identifier(name) => write_name(out, "expr", name.node.ident.as_str(), span),
        ExprP::Lambda(lambda) => write_lambda(out, span, lambda),
        ExprP::Literal(literal) => write_literal(out, literal, span),
        ExprP::Not(operand) => write_unary(out, "Not", span, &operand.node, operand.span),
        ExprP::Minus(operand) => write_unary(out, "Minus", span, &operand.node, operand.span),
        ExprP::Plus(operand) => write_unary(out, "Plus", span, &operand.node, operand.span),
        ExprP::BitNot(operand) => write_unary(out, "BitNot", span, &operand.node, operand.span),
        ExprP::Op(left, operator, right) => {
            write_head(out, "expr", "Op", span)?;
            write_text(out, "op", operator_name(*operator))?;
            write_field(out, "left", &left.node, left.span)?;
            write_field(out, "right", &right.node, right.span)?;
            out.end_object()
        }
        ExprP::If(parts) => write_conditional(out, span, parts),
        ExprP::List(items) => write_items(out, "List", span, items),
        ExprP::Dict(pairs) => write_dict(out, span, pairs),
        ExprP::ListComprehension(element, first, clauses) => {
            write_head(out, "expr", "ListComprehension", span)?;
            write_field(out, "element", &element.node, element.span)?;
            write_first_clause(out, first)?;
            write_more_clauses(out, clauses)?;
            out.end_array()?;
            out.end_object()
        }
        ExprP::DictComprehension(pair, first, clauses) => {
            write_head(out, "expr", "DictComprehension", span)?;
            write_field(out, "key", &pair.0.node, pair.0.span)?;
            write_field(out, "value", &pair.1.node, pair.1.span)?;
            write_first_clause(out, first)?;
            write_more_clauses(out, clauses)?;
            out.end_array()?;
            out.end_object()
        }
        ExprP::FString(text) => write_f_string(out, span, &text.node),
    }
}

/// A field that is an expression.
#[cycle(write)]
pub(crate) fn write_field(
    out: &mut Writer,
    field: &str,
    e: &Expr,
    span: Span,
) -> Result<(), AllocError>
    ensures { Adds result out.old out.new (key field.now ∷ expr_tokens e.now (span_of span)) }
{
    out.key(field)?;
    write_expr(out, e, span)
}

/// A field that is an expression, or `null`.
#[cycle(write)]
#[tactic(auto, using(crate::proofs::TreeLemmas::Nodes::options))]
fn write_maybe(out: &mut Writer, field: &str, e: &Option<Box<AstExpr>>) -> Result<(), AllocError>
    ensures { Adds result out.old out.new (key field.now ∷ maybe_tokens e.now) }
{
    out.key(field)?;
    match e {
        Some(e) => write_expr(out, &e.node, e.span),
        None => out.null(),
    }
}

/// A type with its span.
#[cycle(write)]
pub(crate) fn write_type(out: &mut Writer, e: &Expr, at: Span, span: Span) -> Result<(), AllocError>
    ensures { Adds result out.old out.new (type_head (span_of span) ++ (key (codes "expr") ∷ (expr_tokens e.now (span_of at) ++ closing))) }
{
    out.begin_object()?;
    out.key("span")?;
    write_span(out, span)?;
    write_field(out, "expr", e, at)?;
    out.end_object()
}

/// A field that is a type, or `null`.
#[cycle(write)]
#[tactic(auto, using(crate::proofs::TreeLemmas::Nodes::options))]
pub(crate) fn write_maybe_type(
    out: &mut Writer,
    field: &str,
    ty: &Option<Box<AstTypeExpr>>,
) -> Result<(), AllocError>
    ensures { Adds result out.old out.new (key field.now ∷ boxed_type_tokens ty.now) }
{
    out.key(field)?;
    match ty {
        Some(ty) => write_type(out, &ty.node.expr.node, ty.node.expr.span, ty.span),
        None => out.null(),
    }
}

/// A field that is an array of expressions.
#[cycle(write)]
fn write_exprs(out: &mut Writer, field: &str, items: &[AstExpr]) -> Result<(), AllocError>
    ensures { Adds result out.old out.new (array_field field.now (flat_map expression_tokens items.now)) }
{
    out.key(field)?;
    out.begin_array()?;
    for item in items {
        write_expr(out, &item.node, item.span)?;
    }
    out.end_array()
}

/// A tuple or a list.
#[cycle(write)]
fn write_items(
    out: &mut Writer,
    kind: &str,
    span: Span,
    items: &[AstExpr],
) -> Result<(), AllocError>
    ensures { Adds result out.old out.new (head (codes "expr") kind.now (span_of span)
        ++ (array_field (codes "items") (flat_map expression_tokens items.now) ++ closing)) }
{
    write_head(out, "expr", kind, span)?;
    write_exprs(out, "items", items)?;
    out.end_object()
}

/// An operation on one operand.
#[cycle(write)]
fn write_unary(
    out: &mut Writer,
    kind: &str,
    span: Span,
    operand: &Expr,
    at: Span,
) -> Result<(), AllocError>
    ensures { Adds result out.old out.new (head (codes "expr") kind.now (span_of span)
        ++ ((key (codes "operand") ∷ expr_tokens operand.now (span_of at)) ++ closing)) }
{
    write_head(out, "expr", kind, span)?;
    write_field(out, "operand", operand, at)?;
    out.end_object()
}

/// An attribute: an expression, or what is assigned to.
#[cycle(write)]
fn write_dot(
    out: &mut Writer,
    family: &str,
    span: Span,
    object: &Expr,
    at: Span,
    name: &AstString,
) -> Result<(), AllocError>
    ensures { Adds result out.old out.new (head family.now (codes "Dot") (span_of span)
        ++ ((key (codes "object") ∷ expr_tokens object.now (span_of at)) ++ (word_field (codes "attribute") (word name.now) ++ closing))) }
{
    write_head(out, family, "Dot", span)?;
    write_field(out, "object", object, at)?;
    write_string(out, "attribute", name)?;
    out.end_object()
}

/// An index: an expression, or what is assigned to.
#[cycle(write)]
fn write_index(
    out: &mut Writer,
    family: &str,
    span: Span,
    parts: &(AstExpr, AstExpr),
) -> Result<(), AllocError>
    ensures { Adds result out.old out.new (head family.now (codes "Index") (span_of span)
        ++ (expression_field (codes "array") parts.now.0 ++ (expression_field (codes "index") parts.now.1 ++ closing))) }
{
    write_head(out, family, "Index", span)?;
    write_field(out, "array", &parts.0.node, parts.0.span)?;
    write_field(out, "index", &parts.1.node, parts.1.span)?;
    out.end_object()
}

#[cycle(write)]
fn write_index2(
    out: &mut Writer,
    span: Span,
    parts: &(AstExpr, AstExpr, AstExpr),
) -> Result<(), AllocError>
    ensures { Adds result out.old out.new (head (codes "expr") (codes "Index2") (span_of span)
        ++ (expression_field (codes "array") parts.now.0 ++ (expression_field (codes "index0") parts.now.1
        ++ (expression_field (codes "index1") parts.now.2 ++ closing)))) }
{
    write_head(out, "expr", "Index2", span)?;
    write_field(out, "array", &parts.0.node, parts.0.span)?;
    write_field(out, "index0", &parts.1.node, parts.1.span)?;
    write_field(out, "index1", &parts.2.node, parts.2.span)?;
    out.end_object()
}

#[cycle(write)]
fn write_conditional(
    out: &mut Writer,
    span: Span,
    parts: &(AstExpr, AstExpr, AstExpr),
) -> Result<(), AllocError>
    ensures { Adds result out.old out.new (head (codes "expr") (codes "If") (span_of span)
        ++ (expression_field (codes "condition") parts.now.0
        ++ (expression_field (codes "then") parts.now.1 ++ (expression_field (codes "else") parts.now.2 ++ closing)))) }
{
    write_head(out, "expr", "If", span)?;
    write_field(out, "condition", &parts.0.node, parts.0.span)?;
    write_field(out, "then", &parts.1.node, parts.1.span)?;
    write_field(out, "else", &parts.2.node, parts.2.span)?;
    out.end_object()
}

#[cycle(write)]
fn write_dict(out: &mut Writer, span: Span, pairs: &[(AstExpr, AstExpr)]) -> Result<(), AllocError>
    ensures { Adds result out.old out.new (head (codes "expr") (codes "Dict") (span_of span)
        ++ (array_field (codes "entries") (flat_map pair_tokens pairs.now) ++ closing)) }
{
    write_head(out, "expr", "Dict", span)?;
    write_entries(out, pairs)?;
    out.end_object()
}

/// The field of a dict's entries, each an array of its key and its value.
#[cycle(write)]
fn write_entries(out: &mut Writer, pairs: &[(AstExpr, AstExpr)]) -> Result<(), AllocError>
    ensures { Adds result out.old out.new (array_field (codes "entries") (flat_map pair_tokens pairs.now)) }
{
    out.key("entries")?;
    out.begin_array()?;
    for pair in pairs {
        write_entry_key(out, &pair.0.node, pair.0.span)?;
        write_entry_value(out, &pair.1.node, pair.1.span)?;
    }
    out.end_array()
}

/// The start of an entry, and its key.
#[cycle(write)]
fn write_entry_key(out: &mut Writer, e: &Expr, span: Span) -> Result<(), AllocError>
    ensures { Adds result out.old out.new (begin_array ∷ expr_tokens e.now (span_of span)) }
{
    out.begin_array()?;
    write_expr(out, e, span)
}

/// The value of an entry, and its end.
#[cycle(write)]
fn write_entry_value(out: &mut Writer, e: &Expr, span: Span) -> Result<(), AllocError>
    ensures { Adds result out.old out.new (expr_tokens e.now (span_of span) ++ end_array ∷ []) }
{
    write_expr(out, e, span)?;
    out.end_array()
}

#[cycle(write)]
fn write_f_string(
    out: &mut Writer,
    span: Span,
    text: &FStringP<AstNoPayload>,
) -> Result<(), AllocError>
    ensures { Adds result out.old out.new (head (codes "expr") (codes "FString") (span_of span)
        ++ (word_field (codes "format") (word text.now.format)
        ++ (array_field (codes "expressions") (flat_map expression_tokens text.now.expressions.items) ++ closing))) }
{
    write_head(out, "expr", "FString", span)?;
    write_string(out, "format", &text.format)?;
    write_exprs(out, "expressions", &text.expressions)?;
    out.end_object()
}

/// The field of a call's arguments.
#[cycle(write)]
fn write_arguments(out: &mut Writer, args: &[AstArgument]) -> Result<(), AllocError>
    ensures { Adds result out.old out.new (array_field (codes "args") (flat_map spanned_argument_tokens args.now)) }
{
    out.key("args")?;
    out.begin_array()?;
    for arg in args {
        write_argument(out, &arg.node, arg.span)?;
    }
    out.end_array()
}

/// An argument that has no name.
#[cycle(write)]
fn write_unnamed(
    out: &mut Writer,
    kind: &str,
    span: Span,
    value: &Expr,
    at: Span,
) -> Result<(), AllocError>
    ensures { Adds result out.old out.new (head (codes "argument") kind.now (span_of span)
        ++ ((key (codes "value") ∷ expr_tokens value.now (span_of at)) ++ closing)) }
{
    write_head(out, "argument", kind, span)?;
    write_field(out, "value", value, at)?;
    out.end_object()
}

#[cycle(write)]
fn write_argument(out: &mut Writer, arg: &Argument, span: Span) -> Result<(), AllocError>
    ensures { Adds result out.old out.new (argument_tokens arg.now (span_of span)) }
{
    match arg {
        ArgumentP::Positional(e) => write_unnamed(out, "Positional", span, &e.node, e.span),
        ArgumentP::Named(name, e) => {
            write_head(out, "argument", "Named", span)?;
            write_string(out, "name", name)?;
            write_field(out, "value", &e.node, e.span)?;
            out.end_object()
        }
        ArgumentP::Args(e) => write_unnamed(out, "Args", span, &e.node, e.span),
        ArgumentP::KwArgs(e) => write_unnamed(out, "KwArgs", span, &e.node, e.span),
    }
}

#[cycle(write)]
fn write_lambda(
    out: &mut Writer,
    span: Span,
    lambda: &LambdaP<AstNoPayload>,
) -> Result<(), AllocError>
    ensures { Adds result out.old out.new (expr_tokens (ExprP.Lambda lambda.now) (span_of span)) }
{
    write_head(out, "expr", "Lambda", span)?;
    write_parameters(out, &lambda.params)?;
    write_field(out, "body", &lambda.body.node, lambda.body.span)?;
    out.end_object()
}

/// The field of parameters.
#[cycle(write)]
pub(crate) fn write_parameters(out: &mut Writer, params: &[AstParameter]) -> Result<(), AllocError>
    ensures { Adds result out.old out.new (array_field (codes "params") (flat_map spanned_parameter_tokens params.now)) }
{
    out.key("params")?;
    out.begin_array()?;
    for param in params {
        write_parameter(out, &param.node, param.span)?;
    }
    out.end_array()
}

/// A parameter that takes what is left.
#[cycle(write)]
fn write_rest(
    out: &mut Writer,
    kind: &str,
    span: Span,
    name: &AstAssignIdent,
    ty: &Option<Box<AstTypeExpr>>,
) -> Result<(), AllocError>
    ensures { Adds result out.old out.new (head (codes "parameter") kind.now (span_of span)
        ++ (word_field (codes "name") (assign_word name.now) ++ ((key (codes "type") ∷ boxed_type_tokens ty.now) ++ closing))) }
{
    write_head(out, "parameter", kind, span)?;
    write_bound(out, "name", name)?;
    write_maybe_type(out, "type", ty)?;
    out.end_object()
}

#[cycle(write)]
fn write_parameter(out: &mut Writer, param: &Parameter, span: Span) -> Result<(), AllocError>
    ensures { Adds result out.old out.new (parameter_tokens param.now (span_of span)) }
{
    match param {
        ParameterP::Slash => write_bare(out, "parameter", "Slash", span),
        ParameterP::Normal(name, ty, default) => {
            write_head(out, "parameter", "Normal", span)?;
            write_bound(out, "name", name)?;
            write_maybe_type(out, "type", ty)?;
            write_maybe(out, "default", default)?;
            out.end_object()
        }
        ParameterP::NoArgs => write_bare(out, "parameter", "NoArgs", span),
        ParameterP::Args(name, ty) => write_rest(out, "Args", span, name, ty),
        ParameterP::KwArgs(name, ty) => write_rest(out, "KwArgs", span, name, ty),
    }
}

/// The field of a comprehension's clauses, up to the first of them.
#[cycle(write)]
fn write_first_clause(out: &mut Writer, first: &ForClause) -> Result<(), AllocError>
    ensures { Adds result out.old out.new (first_clause first.now) }
{
    out.key("clauses")?;
    out.begin_array()?;
    write_for(out, first)
}

/// The clauses after the first.
#[cycle(write)]
fn write_more_clauses(out: &mut Writer, clauses: &[Clause]) -> Result<(), AllocError>
    ensures { Adds result out.old out.new (flat_map clause_tokens clauses.now) }
{
    for clause in clauses {
        write_clause(out, clause)?;
    }
    Ok(())
}

#[cycle(write)]
fn write_for(out: &mut Writer, clause: &ForClause) -> Result<(), AllocError>
    ensures { Adds result out.old out.new (for_tokens clause.now) }
{
    out.begin_object()?;
    write_text(out, "clause", "For")?;
    out.key("var")?;
    write_target(out, &clause.var.node, clause.var.span)?;
    write_field(out, "over", &clause.over.node, clause.over.span)?;
    out.end_object()
}

#[cycle(write)]
fn write_clause(out: &mut Writer, clause: &Clause) -> Result<(), AllocError>
    ensures { Adds result out.old out.new (clause_tokens clause.now) }
{
    match clause {
        ClauseP::For(clause) => write_for(out, clause),
        ClauseP::If(e) => {
            out.begin_object()?;
            write_text(out, "clause", "If")?;
            write_field(out, "condition", &e.node, e.span)?;
            out.end_object()
        }
    }
}

/// Writes what is assigned to.
#[cycle(write)]
pub(crate) fn write_target(
    out: &mut Writer,
    target: &AssignTarget,
    span: Span,
) -> Result<(), AllocError>
    ensures { Adds result out.old out.new (target_tokens target.now (span_of span)) }
{
    match target {
        AssignTargetP::Tuple(items) => write_targets(out, span, items),
        AssignTargetP::Index(parts) => write_index(out, "target", span, parts),
        AssignTargetP::Dot(object, name) => {
            write_dot(out, "target", span, &object.node, object.span, name)
        }
        AssignTargetP::Identifier(name) => {
            write_name(out, "target", name.node.ident.as_str(), span)
        }
    }
}

#[cycle(write)]
fn write_targets(out: &mut Writer, span: Span, items: &[AstAssignTarget]) -> Result<(), AllocError>
    ensures { Adds result out.old out.new (head (codes "target") (codes "Tuple") (span_of span)
        ++ (array_field (codes "items") (flat_map spanned_target_tokens items.now) ++ closing)) }
{
    write_head(out, "target", "Tuple", span)?;
    write_target_items(out, items)?;
    out.end_object()
}

/// The field of what is assigned to by parts.
#[cycle(write)]
fn write_target_items(out: &mut Writer, items: &[AstAssignTarget]) -> Result<(), AllocError>
    ensures { Adds result out.old out.new (array_field (codes "items") (flat_map spanned_target_tokens items.now)) }
{
    out.key("items")?;
    out.begin_array()?;
    for item in items {
        write_target(out, &item.node, item.span)?;
    }
    out.end_array()
}
