//! Statements.
ghost use Rattle.std.specs.Prelude.{◌++◌, ◌∷◌, codes, flat_map};
ghost use Rattle.json.specs.Token.{key};
ghost use Rattle.json.specs.Tree.{json_tokens};
ghost use Rattle.starlark_lexer.specs.Tokens.{span_of};
ghost use Rattle.starlark_tree.specs.Views.{statement_of};
ghost use Rattle.starlark_tree.specs.declared.ast.StmtP;
ghost use Rattle.starlark_json.specs.Tree.Adds.{Adds};
ghost use Rattle.starlark_json.specs.Tree.Fields.{assign_operator_name as assign_operator_name_of};
ghost use Rattle.starlark_json.specs.Tree.Trees.{statement_json};
ghost use Rattle.starlark_json.specs.Tree.Tokens.{head, closing, text_field, array_field, expression_field};
ghost use Rattle.starlark_json.specs.Tree.Tokens.{returned_tokens, maybe_type_tokens, comma_tokens, load_arg_tokens, stmt_tokens};
ghost use Rattle.starlark_json.specs.Tree.Tokens.{spanned_target_tokens, statement_field, statement_tokens};

use crate::tree::expression::{
    write_bound, write_expression, write_field, write_maybe_type, write_parameters, write_string,
    write_target, write_type,
};
use crate::tree::leaf::{write_bare, write_head, write_span, write_text};
use crate::tree::literal::assign_operator_name;
use json::Writer;
use starlark_lexer::codemap::{Span, Spanned};
use starlark_tree::ast::{
    AssignOp, AssignP, AstAssignTarget, AstExpr, AstNoPayload, AstStmt, AstTypeExpr, Comma, DefP,
    ForP, Load, LoadArgP, Stmt, StmtP,
};
use std::alloc::AllocError;

/// Writes a statement.
///
/// Fails if an allocation fails, with some of the tokens written.
#[tactic(auto, unfolding(crate::specs::Tree::Tokens::stmt_tokens))]
pub fn write_statement(out: &mut Writer, statement: &AstStmt) -> Result<(), AllocError>
    ensures { Adds result out.old out.new (json_tokens (statement_json (statement_of statement.now))) }
{
    write_stmt(out, &statement.node, statement.span)
}

/// Writes the statement that is at a span.
#[cycle(write)]
fn write_stmt(out: &mut Writer, statement: &Stmt, span: Span) -> Result<(), AllocError>
    ensures { Adds result out.old out.new (stmt_tokens statement.now (span_of span)) }
{
    match statement {
        StmtP::Break => write_bare(out, "stmt", "Break", span),
        StmtP::Continue => write_bare(out, "stmt", "Continue", span),
        StmtP::Pass => write_bare(out, "stmt", "Pass", span),
        StmtP::Return(value) => write_return(out, span, value),
        StmtP::Expression(value) => write_value(out, span, value),
        StmtP::Assign(assign) => write_assign(out, span, assign),
        StmtP::AssignModify(target, operator, value) => {
            write_assign_modify(out, span, target, *operator, value)
        }
        StmtP::Statements(parts) => write_block(out, span, parts),
        StmtP::If(condition, body) => {
            write_head(out, "stmt", "If", span)?;
            write_field(out, "condition", &condition.node, condition.span)?;
            write_part(out, "then", &body.node, body.span)?;
            out.end_object()
        }
        StmtP::IfElse(condition, blocks) => {
            write_head(out, "stmt", "IfElse", span)?;
            write_field(out, "condition", &condition.node, condition.span)?;
            write_blocks(out, blocks)?;
            out.end_object()
        }
        StmtP::For(each) => write_for(out, span, each),
        StmtP::Def(def) => write_def(out, span, def),
        StmtP::Load(load) => write_load(out, span, load),
    }
}

/// A field that is a statement.
#[cycle(write)]
fn write_part(out: &mut Writer, field: &str, statement: &Stmt, span: Span) -> Result<(), AllocError>
    ensures { Adds result out.old out.new (key field.now ∷ stmt_tokens statement.now (span_of span)) }
{
    out.key(field)?;
    write_stmt(out, statement, span)
}

/// The fields of the two blocks of a conditional.
#[cycle(write)]
fn write_blocks(out: &mut Writer, blocks: &(AstStmt, AstStmt)) -> Result<(), AllocError>
    ensures { Adds result out.old out.new (statement_field (codes "then") blocks.now.0 ++ statement_field (codes "else") blocks.now.1) }
{
    write_part(out, "then", &blocks.0.node, blocks.0.span)?;
    write_part(out, "else", &blocks.1.node, blocks.1.span)
}

/// Statements one after another.
#[cycle(write)]
fn write_block(out: &mut Writer, span: Span, parts: &[AstStmt]) -> Result<(), AllocError>
    ensures { Adds result out.old out.new (head (codes "stmt") (codes "Statements") (span_of span)
        ++ (array_field (codes "statements") (flat_map statement_tokens parts.now) ++ closing)) }
{
    write_head(out, "stmt", "Statements", span)?;
    write_parts(out, parts)?;
    out.end_object()
}

/// The field of the statements.
#[cycle(write)]
fn write_parts(out: &mut Writer, parts: &[AstStmt]) -> Result<(), AllocError>
    ensures { Adds result out.old out.new (array_field (codes "statements") (flat_map statement_tokens parts.now)) }
{
    out.key("statements")?;
    out.begin_array()?;
    for part in parts {
        write_stmt(out, &part.node, part.span)?;
    }
    out.end_array()
}

#[cycle(write)]
fn write_for(out: &mut Writer, span: Span, each: &ForP<AstNoPayload>) -> Result<(), AllocError>
    ensures { Adds result out.old out.new (stmt_tokens (StmtP.For each.now) (span_of span)) }
{
    write_head(out, "stmt", "For", span)?;
    write_target_field(out, "var", &each.var)?;
    write_field(out, "over", &each.over.node, each.over.span)?;
    write_part(out, "body", &each.body.node, each.body.span)?;
    out.end_object()
}

#[cycle(write)]
fn write_def(out: &mut Writer, span: Span, def: &DefP<AstNoPayload>) -> Result<(), AllocError>
    ensures { Adds result out.old out.new (stmt_tokens (StmtP.Def def.now) (span_of span)) }
{
    write_head(out, "stmt", "Def", span)?;
    write_bound(out, "name", &def.name)?;
    write_parameters(out, &def.params)?;
    write_maybe_type(out, "return_type", &def.return_type)?;
    write_part(out, "body", &def.body.node, def.body.span)?;
    out.end_object()
}

fn write_return(out: &mut Writer, span: Span, value: &Option<AstExpr>) -> Result<(), AllocError>
    ensures { Adds result out.old out.new (stmt_tokens (StmtP.Return value.now) (span_of span)) }
{
    write_head(out, "stmt", "Return", span)?;
    write_returned(out, value)?;
    out.end_object()
}

/// The field of the value that is returned, or `null`.
#[tactic(auto, using(crate::proofs::TreeLemmas::Statements::options))]
fn write_returned(out: &mut Writer, value: &Option<AstExpr>) -> Result<(), AllocError>
    ensures { Adds result out.old out.new (key (codes "value") ∷ returned_tokens value.now) }
{
    out.key("value")?;
    match value {
        Some(value) => write_expression(out, value),
        None => out.null(),
    }
}

fn write_value(out: &mut Writer, span: Span, value: &AstExpr) -> Result<(), AllocError>
    ensures { Adds result out.old out.new (stmt_tokens (StmtP.Expression value.now) (span_of span)) }
{
    write_head(out, "stmt", "Expression", span)?;
    write_field(out, "value", &value.node, value.span)?;
    out.end_object()
}

/// A field that is what is assigned to.
fn write_target_field(
    out: &mut Writer,
    field: &str,
    target: &AstAssignTarget,
) -> Result<(), AllocError>
    ensures { Adds result out.old out.new (key field.now ∷ spanned_target_tokens target.now) }
{
    out.key(field)?;
    write_target(out, &target.node, target.span)
}

/// The field of the type of an assignment's target.
#[tactic(auto, using(crate::proofs::TreeLemmas::Statements::options))]
fn write_target_type(out: &mut Writer, ty: &Option<AstTypeExpr>) -> Result<(), AllocError>
    ensures { Adds result out.old out.new (key (codes "type") ∷ maybe_type_tokens ty.now) }
{
    out.key("type")?;
    match ty {
        Some(ty) => write_type(out, &ty.node.expr.node, ty.node.expr.span, ty.span),
        None => out.null(),
    }
}

fn write_assign(
    out: &mut Writer,
    span: Span,
    assign: &AssignP<AstNoPayload>,
) -> Result<(), AllocError>
    ensures { Adds result out.old out.new (stmt_tokens (StmtP.Assign assign.now) (span_of span)) }
{
    write_head(out, "stmt", "Assign", span)?;
    write_target_field(out, "lhs", &assign.lhs)?;
    write_target_type(out, &assign.ty)?;
    write_field(out, "rhs", &assign.rhs.node, assign.rhs.span)?;
    out.end_object()
}

fn write_assign_modify(
    out: &mut Writer,
    span: Span,
    target: &AstAssignTarget,
    operator: AssignOp,
    value: &AstExpr,
) -> Result<(), AllocError>
    ensures { Adds result out.old out.new (head (codes "stmt") (codes "AssignModify") (span_of span)
        ++ ((key (codes "lhs") ∷ spanned_target_tokens target.now)
        ++ (text_field (codes "op") (assign_operator_name_of operator) ++ (expression_field (codes "rhs") value.now ++ closing)))) }
{
    write_head(out, "stmt", "AssignModify", span)?;
    write_target_field(out, "lhs", target)?;
    write_text(out, "op", assign_operator_name(operator))?;
    write_field(out, "rhs", &value.node, value.span)?;
    out.end_object()
}

fn write_load(out: &mut Writer, span: Span, load: &Load) -> Result<(), AllocError>
    ensures { Adds result out.old out.new (stmt_tokens (StmtP.Load load.now) (span_of span)) }
{
    write_head(out, "stmt", "Load", span)?;
    write_string(out, "module", &load.module)?;
    write_load_args(out, &load.args)?;
    out.end_object()
}

/// The field of the names that a load brings in.
fn write_load_args(out: &mut Writer, args: &[LoadArgP<AstNoPayload>]) -> Result<(), AllocError>
    ensures { Adds result out.old out.new (array_field (codes "args") (flat_map load_arg_tokens args.now)) }
{
    out.key("args")?;
    out.begin_array()?;
    for arg in args {
        write_load_arg(out, arg)?;
    }
    out.end_array()
}

fn write_load_arg(out: &mut Writer, arg: &LoadArgP<AstNoPayload>) -> Result<(), AllocError>
    ensures { Adds result out.old out.new (load_arg_tokens arg.now) }
{
    out.begin_object()?;
    write_bound(out, "local", &arg.local)?;
    write_string(out, "their", &arg.their)?;
    write_comma(out, &arg.comma)?;
    out.end_object()
}

/// The field of the span of a comma, or `null`.
#[tactic(auto, using(crate::proofs::TreeLemmas::Statements::options))]
fn write_comma(out: &mut Writer, comma: &Option<Spanned<Comma>>) -> Result<(), AllocError>
    ensures { Adds result out.old out.new (key (codes "comma") ∷ comma_tokens comma.now) }
{
    out.key("comma")?;
    match comma {
        Some(comma) => write_span(out, comma.span),
        None => out.null(),
    }
}
