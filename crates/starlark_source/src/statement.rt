//! The source of statements (Starlark specification, "Statements"). Each line ends with a line feed, and is indented by
//! four spaces for each block around it.
ghost use Rattle.std.specs.Prelude.{◌≡◌, ◌++◌, codes, flat_map};
ghost use Rattle.starlark_tree.specs.Operators.{assign_operator_text};
ghost use Rattle.starlark_tree.specs.Views.{assign_word, statement_of};
ghost use Rattle.starlark_source.specs.Pages.{Wrote, say};
ghost use Rattle.starlark_source.specs.Drafts.{draft, drafts};
ghost use Rattle.starlark_source.specs.Drafted.{drafted_expr, drafted_list};
ghost use Rattle.starlark_source.specs.DraftedLines.{drafted_assign, drafted_block, drafted_def, drafted_lines, drafted_load, drafted_load_arg};
ghost use Rattle.starlark_source.specs.DraftedLines.{drafted_loop, drafted_margin, drafted_modified, drafted_return, drafted_small};
ghost use Rattle.starlark_source.specs.DraftedLines.{drafted_small_line, drafted_suite, drafted_target_type, drafted_top};
ghost use Rattle.starlark_source.specs.Literals.{name};
ghost use Rattle.starlark_source.specs.Lines.{as_block, as_line, as_rest, module_source};

use crate::expression::{
    write_at, write_expr, write_list, write_parameters, write_target_list, write_type_if_there,
};
use crate::level::Level;
use crate::literal::{write_name, write_quoted};
use crate::page::Page;
use starlark_lexer::span::Span;
use starlark_tree::ast::{
    AssignOp, AssignP, AssignTarget, AssignTargetP, AstAssignTarget, AstExpr, AstNoPayload,
    AstStmt, AstTypeExpr, DefP, Load, LoadArgP, StmtP,
};
use std::fmt::Display;

/// Writes the lines of a module. An empty module has none.
pub(crate) fn write_module(page: &mut Page, statement: &AstStmt)
    ensures { Wrote page.old (draft (module_source (statement_of statement.now))) page.new }
{
    match &statement.node {
        StmtP::Statements(parts) => write_top(page, parts, statement.span),
        _ => write_lines(page, statement, 0),
    }
}

/// Writes the statements of a module.
fn write_top(page: &mut Page, parts: &[AstStmt], span: Span)
    ensures { Wrote page.old (drafted_top span parts.now) page.new }
{
    match parts {
        [] => {}
        _ => write_block(page, parts, span, 0),
    }
}

/// Writes four spaces for each block around a line.
fn write_margin(page: &mut Page, depth: usize)
    ensures { Wrote page.old (drafted_margin depth) page.new }
{
    for _ in 0..depth {
        page.put("    ");
    }
}

/// Writes the lines of a statement inside this many blocks.
#[cycle(write)]
fn write_lines(page: &mut Page, statement: &AstStmt, depth: usize)
    ensures { Wrote page.old (drafted_lines as_line depth statement.now.span statement.now.node) page.new }
{
    match &statement.node {
        StmtP::Statements(parts) => {
            write_margin(page, depth);
            write_small_line(page, parts, statement.span);
            page.put("\n");
        }
        StmtP::If(condition, body) => {
            write_margin(page, depth);
            write_test(page, "if ", condition);
            write_suite(page, body, depth);
        }
        StmtP::IfElse(condition, blocks) => {
            write_margin(page, depth);
            write_test(page, "if ", condition);
            write_suite(page, &blocks.0, depth);
            write_else(page, &blocks.1, depth);
        }
        StmtP::For(each) => {
            write_margin(page, depth);
            write_for(page, &each.var, &each.over);
            write_suite(page, &each.body, depth);
        }
        StmtP::Def(def) => {
            write_margin(page, depth);
            write_def(page, def);
            write_suite(page, &def.body, depth);
        }
        _ => {
            write_margin(page, depth);
            write_small(page, statement);
            page.put("\n");
        }
    }
}

/// Writes the keyword that begins a block, and the condition.
fn write_test(page: &mut Page, word: &str, condition: &AstExpr)
    ensures { Wrote page.old (say word.now ++ drafted_expr condition.now.node) page.new }
{
    page.put(word);
    write_expr(page, &condition.node);
}

/// Writes what is after the block of an `if`: an `elif` if the rest is another `if`.
#[cycle(write)]
fn write_else(page: &mut Page, rest: &AstStmt, depth: usize)
    ensures { Wrote page.old (drafted_lines as_rest depth rest.now.span rest.now.node) page.new }
{
    write_margin(page, depth);
    match &rest.node {
        StmtP::If(condition, body) => {
            write_test(page, "elif ", condition);
            write_suite(page, body, depth);
        }
        StmtP::IfElse(condition, blocks) => {
            write_test(page, "elif ", condition);
            write_suite(page, &blocks.0, depth);
            write_else(page, &blocks.1, depth);
        }
        _ => {
            page.put("else");
            write_suite(page, rest, depth);
        }
    }
}

/// Writes the colon and the block after it.
#[cycle(write)]
fn write_suite(page: &mut Page, body: &AstStmt, depth: usize)
    ensures { Wrote page.old (drafted_suite depth body.now) page.new }
{
    page.put(":\n");
    if depth < usize::MAX {
        write_body(page, body, depth + 1);
    } else {
        page.report_out_of_memory();
    }
}

/// Writes the lines of a block.
#[cycle(write)]
fn write_body(page: &mut Page, body: &AstStmt, depth: usize)
    ensures { Wrote page.old (drafted_lines as_block depth body.now.span body.now.node) page.new }
{
    match &body.node {
        StmtP::Statements(parts) => write_block(page, parts, body.span, depth),
        _ => write_lines(page, body, depth),
    }
}

/// Writes the statements of a block, which is `pass` if it is empty. A single statement is not a block, and is rejected.
#[cycle(write)]
fn write_block(page: &mut Page, parts: &[AstStmt], span: Span, depth: usize)
    ensures { Wrote page.old (drafted_block depth span parts.now) page.new }
{
    match parts {
        [] => {
            write_margin(page, depth);
            page.put("pass\n");
        }
        [_] => page.refuse(span),
        _ => write_all(page, parts, depth),
    }
}

/// Writes the lines of the statements, one after another.
#[cycle(write)]
fn write_all(page: &mut Page, parts: &[AstStmt], depth: usize)
    ensures { Wrote page.old (flat_map (λ s. drafted_lines as_line depth s.span s.node) parts.now) page.new }
{
    for part in parts {
        write_lines(page, part, depth);
    }
}

/// Writes small statements in one line. Fewer than two are rejected.
fn write_small_line(page: &mut Page, parts: &[AstStmt], span: Span)
    ensures { Wrote page.old (drafted_small_line span parts.now) page.new }
{
    match parts {
        [] => page.refuse(span),
        [_] => page.refuse(span),
        _ => write_smalls(page, parts),
    }
}

/// Writes small statements, separated by semicolons.
fn write_smalls(page: &mut Page, parts: &[AstStmt])
    ensures { Wrote page.old (drafts (λ s. drafted_small s.span s.node) (codes "; ") parts.now) page.new }
{
    match parts {
        [] => {}
        [first, rest @ ..] => {
            write_small(page, first);
            for part in rest {
                page.put("; ");
                write_small(page, part);
            }
        }
    }
}

/// Writes a statement within a line. One that has blocks, or consists of several, is rejected.
fn write_small(page: &mut Page, statement: &AstStmt)
    ensures { Wrote page.old (drafted_small statement.now.span statement.now.node) page.new }
{
    match &statement.node {
        StmtP::Break => page.put("break"),
        StmtP::Continue => page.put("continue"),
        StmtP::Pass => page.put("pass"),
        StmtP::Return(value) => write_return(page, value),
        StmtP::Expression(value) => write_expr(page, &value.node),
        StmtP::Assign(assign) => write_assign(page, assign),
        StmtP::AssignModify(target, operator, value) => {
            write_assign_modify(page, target, operator, value)
        }
        StmtP::Load(load) => write_load(page, load, statement.span),
        _ => page.refuse(statement.span),
    }
}

fn write_return(page: &mut Page, value: &Option<AstExpr>)
    ensures { Wrote page.old (drafted_return value.now) page.new }
{
    match value {
        Some(value) => {
            page.put("return ");
            write_list(page, &value.node);
        }
        None => page.put("return"),
    }
}

fn write_assign(page: &mut Page, assign: &AssignP<AstNoPayload>)
    ensures { Wrote page.old (drafted_assign assign.now) page.new }
{
    write_target_list(page, &assign.lhs.node);
    write_target_type(page, &assign.lhs.node, &assign.ty);
    page.put(" = ");
    write_list(page, &assign.rhs.node);
}

/// Writes the type of a target, if there is one. A tuple has none.
fn write_target_type(page: &mut Page, target: &AssignTarget, ty: &Option<AstTypeExpr>)
    ensures { Wrote page.old (drafted_target_type target.now ty.now) page.new }
{
    match ty {
        Some(ty) => match target {
            AssignTargetP::Tuple(_) => page.refuse(ty.span),
            _ => {
                page.put(": ");
                write_expr(page, &ty.node.expr.node);
            }
        },
        None => {}
    }
}

/// Writes an augmented assignment.
fn write_assign_modify(
    page: &mut Page,
    target: &AstAssignTarget,
    operator: &AssignOp,
    value: &Box<AstExpr>,
)
    ensures { Wrote page.old (drafted_modified target.now ++ (say (assign_operator_text operator.now) ++ drafted_list value.now.value.node)) page.new }
{
    write_modified(page, target);
    write_assign_operator(page, operator);
    write_list(page, &value.node);
}

/// Writes the target of an augmented assignment. A tuple is rejected.
fn write_modified(page: &mut Page, target: &AstAssignTarget)
    ensures { Wrote page.old (drafted_modified target.now) page.new }
{
    match &target.node {
        AssignTargetP::Tuple(_) => page.refuse(target.span),
        _ => write_target_list(page, &target.node),
    }
}

/// Writes the operator, with a space before and after it.
fn write_assign_operator(page: &mut Page, operator: &AssignOp)
    ensures { Wrote page.old (say (assign_operator_text operator.now)) page.new }
{
    match operator.to_string(page.allocator()) {
        Ok(text) => page.put(&text),
        Err(_) => page.report_out_of_memory(),
    }
}

fn write_for(page: &mut Page, target: &AstAssignTarget, over: &AstExpr)
    ensures { Wrote page.old (drafted_loop target.now.node over.now.node) page.new }
{
    page.put("for ");
    write_target_list(page, &target.node);
    page.put(" in ");
    write_expr(page, &over.node);
}

fn write_def(page: &mut Page, def: &DefP<AstNoPayload>)
    ensures { Wrote page.old (drafted_def (draft (name (assign_word def.now.name))) def.now.params.items def.now.return_type) page.new }
{
    page.put("def ");
    write_name(page, def.name.node.ident.as_str(), def.name.span);
    page.put("(");
    write_parameters(page, &def.params);
    page.put(")");
    write_type_if_there(page, " -> ", &def.return_type);
}

/// Writes a load. One without names is rejected.
fn write_load(page: &mut Page, load: &Load, span: Span)
    ensures { Wrote page.old (drafted_load span load.now) page.new }
{
    if load.args.is_empty() {
        page.refuse(span);
    } else {
        page.put("load(");
        write_quoted(page, load.module.node.as_str());
        write_load_args(page, &load.args);
        page.put(")");
    }
}

/// Writes the names that are loaded, each after a comma.
fn write_load_args(page: &mut Page, args: &[LoadArgP<AstNoPayload>])
    ensures { Wrote page.old (flat_map (λ arg. say (codes ", ") ++ drafted_load_arg arg) args.now) page.new }
{
    for arg in args {
        page.put(", ");
        write_load_arg(page, arg);
    }
}

/// Writes a name that is loaded: as one string if both names are the same.
fn write_load_arg(page: &mut Page, arg: &LoadArgP<AstNoPayload>)
    ensures { Wrote page.old (drafted_load_arg arg.now) page.new }
{
    let same = arg.local.node.ident.as_str() == arg.their.node.as_str();
    if same {
        write_quoted(page, arg.their.node.as_str());
    } else {
        write_name(page, arg.local.node.ident.as_str(), arg.local.span);
        page.put(" = ");
        write_quoted(page, arg.their.node.as_str());
    }
}
