//! Statements.
ghost use Rattle.std.specs.Prelude.{◌++◌, flat_map, length};
ghost use Rattle.starlark_compact.specs.Adds.{Adds};
ghost use Rattle.starlark_compact.specs.Bytes.{count, node};
ghost use Rattle.starlark_compact.specs.Bytes.{number as number_bytes};
ghost use Rattle.starlark_compact.specs.Code.{bytes_of_comma, bytes_of_type, bytes_of_returned, bytes_of_load_arg, bytes_of_stmt, bytes_of_statement};
ghost use Rattle.starlark_compact.specs.Code.{bytes_of_spanned_target};
ghost use Rattle.starlark_compact.specs.Kinds.{assign_operator_number as assign_operator_number_of};
ghost use Rattle.starlark_compact.specs.Trees.{expression_bytes, statement_bytes};
ghost use Rattle.starlark_compact.specs.declared.kind.Kind.TheVariants as kind;
ghost use Rattle.starlark_lexer.specs.Tokens.{span_of};
ghost use Rattle.starlark_tree.specs.Views.{expression_of, statement_of};
ghost use Rattle.starlark_tree.specs.declared.ast.StmtP;

use crate::expression::{
    write_expression, write_maybe_type, write_parameters, write_target, write_type,
};
use crate::kind::Kind;
use crate::literal::assign_operator_number;
use crate::write::{
    write_count, write_counted, write_kind, write_named, write_node, write_number, write_numbered,
    write_span, write_word,
};
use starlark_lexer::codemap::{Span, Spanned};
use starlark_tree::ast::{
    AssignOp, AssignP, AstAssignTarget, AstExpr, AstNoPayload, AstStmt, AstTypeExpr, Comma, DefP,
    ForP, Load, LoadArgP, Stmt, StmtP,
};
use std::alloc::AllocError;

/// Writes a statement: its parts, and then itself.
///
/// Fails if an allocation fails, with some of the bytes written.
#[tactic(auto, unfolding(crate::specs::Code::bytes_of_stmt))]
pub fn write_statement(out: &mut Vec<u8>, statement: &AstStmt) -> Result<(), AllocError>
    ensures { Adds result out.old out.new (statement_bytes (statement_of statement.now)) }
{
    write_stmt(out, &statement.node, statement.span)
}

/// Writes the statement that is at a span.
#[cycle(write)]
fn write_stmt(out: &mut Vec<u8>, statement: &Stmt, span: Span) -> Result<(), AllocError>
    ensures { Adds result out.old out.new (bytes_of_stmt statement.now (span_of span)) }
{
    match statement {
        StmtP::Break => write_node(out, Kind::Break, span),
        StmtP::Continue => write_node(out, Kind::Continue, span),
        StmtP::Pass => write_node(out, Kind::Pass, span),
        StmtP::Return(value) => write_return(out, span, value),
        StmtP::Expression(value) => {
            write_expression(out, value)?;
            write_node(out, Kind::Expression, span)
        }
        StmtP::Assign(assign) => write_assign(out, span, assign),
        StmtP::AssignModify(target, operator, value) => {
            write_assign_modify(out, span, target, *operator, value)
        }
        StmtP::Statements(parts) => write_block(out, span, parts),
        StmtP::If(condition, body) => {
            write_expression(out, condition)?;
            write_stmt(out, &body.node, body.span)?;
            write_node(out, Kind::If, span)
        }
        StmtP::IfElse(condition, blocks) => {
            write_expression(out, condition)?;
            write_stmt(out, &blocks.0.node, blocks.0.span)?;
            write_stmt(out, &blocks.1.node, blocks.1.span)?;
            write_node(out, Kind::IfElse, span)
        }
        StmtP::For(each) => write_for(out, span, each),
        StmtP::Def(def) => write_def(out, span, def),
        StmtP::Load(load) => write_load(out, span, load),
    }
}

#[cycle(write)]
fn write_block(out: &mut Vec<u8>, span: Span, parts: &[AstStmt]) -> Result<(), AllocError>
    ensures { Adds result out.old out.new (flat_map bytes_of_statement parts.now ++ (node kind.Statements (span_of span) ++ count (length parts.now))) }
{
    write_parts(out, parts)?;
    write_counted(out, Kind::Statements, span, parts.len())
}

/// Statements one after another.
#[cycle(write)]
fn write_parts(out: &mut Vec<u8>, parts: &[AstStmt]) -> Result<(), AllocError>
    ensures { Adds result out.old out.new (flat_map bytes_of_statement parts.now) }
{
    for part in parts {
        write_stmt(out, &part.node, part.span)?;
    }
    Ok(())
}

#[cycle(write)]
fn write_for(out: &mut Vec<u8>, span: Span, each: &ForP<AstNoPayload>) -> Result<(), AllocError>
    ensures { Adds result out.old out.new (bytes_of_stmt (StmtP.For each.now) (span_of span)) }
{
    write_target(out, &each.var.node, each.var.span)?;
    write_expression(out, &each.over)?;
    write_stmt(out, &each.body.node, each.body.span)?;
    write_node(out, Kind::For, span)
}

#[cycle(write)]
fn write_def(out: &mut Vec<u8>, span: Span, def: &DefP<AstNoPayload>) -> Result<(), AllocError>
    ensures { Adds result out.old out.new (bytes_of_stmt (StmtP.Def def.now) (span_of span)) }
{
    write_parameters(out, &def.params)?;
    write_maybe_type(out, &def.return_type)?;
    write_stmt(out, &def.body.node, def.body.span)?;
    write_named(
        out,
        Kind::Def,
        span,
        def.name.node.ident.as_str(),
        def.name.span,
    )?;
    write_count(out, def.params.len())
}

fn write_return(out: &mut Vec<u8>, span: Span, value: &Option<AstExpr>) -> Result<(), AllocError>
    ensures { Adds result out.old out.new (bytes_of_stmt (StmtP.Return value.now) (span_of span)) }
{
    write_returned(out, value)?;
    write_node(out, Kind::Return, span)
}

/// The value that is returned, if there is one.
#[tactic(auto, using(crate::proofs::Statements::options))]
fn write_returned(out: &mut Vec<u8>, value: &Option<AstExpr>) -> Result<(), AllocError>
    ensures { Adds result out.old out.new (bytes_of_returned value.now) }
{
    match value {
        Some(value) => {
            write_expression(out, value)?;
            write_kind(out, Kind::Present)
        }
        None => write_kind(out, Kind::Absent),
    }
}

/// The optional type of an assignment's target.
#[tactic(auto, using(crate::proofs::Statements::options))]
fn write_target_type(out: &mut Vec<u8>, ty: &Option<AstTypeExpr>) -> Result<(), AllocError>
    ensures { Adds result out.old out.new (bytes_of_type ty.now) }
{
    match ty {
        Some(ty) => write_type(out, &ty.node.expr.node, ty.node.expr.span, ty.span),
        None => write_kind(out, Kind::NoType),
    }
}

fn write_assign(
    out: &mut Vec<u8>,
    span: Span,
    assign: &AssignP<AstNoPayload>,
) -> Result<(), AllocError>
    ensures { Adds result out.old out.new (bytes_of_stmt (StmtP.Assign assign.now) (span_of span)) }
{
    write_target(out, &assign.lhs.node, assign.lhs.span)?;
    write_target_type(out, &assign.ty)?;
    write_expression(out, &assign.rhs)?;
    write_node(out, Kind::Assign, span)
}

fn write_assign_modify(
    out: &mut Vec<u8>,
    span: Span,
    target: &AstAssignTarget,
    operator: AssignOp,
    value: &AstExpr,
) -> Result<(), AllocError>
    ensures { Adds result out.old out.new (bytes_of_spanned_target target.now
        ++ (expression_bytes (expression_of value.now) ++ (node kind.AssignModify (span_of span) ++ number_bytes (assign_operator_number_of operator)))) }
{
    write_target(out, &target.node, target.span)?;
    write_expression(out, value)?;
    write_numbered(
        out,
        Kind::AssignModify,
        span,
        assign_operator_number(operator),
    )
}

fn write_load(out: &mut Vec<u8>, span: Span, load: &Load) -> Result<(), AllocError>
    ensures { Adds result out.old out.new (bytes_of_stmt (StmtP.Load load.now) (span_of span)) }
{
    write_named(
        out,
        Kind::Load,
        span,
        load.module.node.as_str(),
        load.module.span,
    )?;
    write_count(out, load.args.len())?;
    write_load_args(out, &load.args)
}

/// The names that a load brings in.
fn write_load_args(out: &mut Vec<u8>, args: &[LoadArgP<AstNoPayload>]) -> Result<(), AllocError>
    ensures { Adds result out.old out.new (flat_map bytes_of_load_arg args.now) }
{
    for arg in args {
        write_load_arg(out, arg)?;
    }
    Ok(())
}

/// A name that a load brings in.
fn write_load_arg(out: &mut Vec<u8>, arg: &LoadArgP<AstNoPayload>) -> Result<(), AllocError>
    ensures { Adds result out.old out.new (bytes_of_load_arg arg.now) }
{
    write_word(out, arg.local.node.ident.as_str(), arg.local.span)?;
    write_word(out, arg.their.node.as_str(), arg.their.span)?;
    write_comma(out, &arg.comma)
}

/// The span of a comma after 1, or 0.
#[tactic(auto, using(crate::proofs::Statements::options))]
fn write_comma(out: &mut Vec<u8>, comma: &Option<Spanned<Comma>>) -> Result<(), AllocError>
    ensures { Adds result out.old out.new (bytes_of_comma comma.now) }
{
    match comma {
        Some(comma) => {
            write_number(out, 1)?;
            write_span(out, comma.span)
        }
        None => write_number(out, 0),
    }
}
