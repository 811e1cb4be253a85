//! The text of statements (Starlark specification, "Statements"). Each line ends with a line feed, and is indented by
//! two spaces for each block around it.
ghost use Rattle.std.specs.Prelude.{◌++◌, Some, codes, flat_map, string_bytes};
ghost use Rattle.std.specs.Fmt.{WritesOnOk};
ghost use Rattle.starlark_tree.specs.Printing.{indent, line};
ghost use Rattle.starlark_tree.specs.Printed.{printed_expr, printed_signature, printed_stmt, printed_target};
ghost use Rattle.starlark_tree.specs.declared.ast.StmtP;

use crate::ast::{
    AssignOp, AssignP, AssignTarget, AstAssignTarget, AstExpr, AstNoPayload, AstParameter, AstStmt,
    AstTypeExpr, DefP, Load, Stmt, StmtP,
};
use crate::display::expression::{
    write_expr, write_parameters, write_target, write_target_type, write_type_if_there,
};
use crate::display::load::write_load;
use std::fmt::{self, Display};

/// A block is indented by two spaces more, and an `elif` is displayed as an `if` inside `else:`.
impl Display for Stmt {
    ghost output = { λ statement. Some (printed_stmt 0 statement) };

    fn fmt<W: fmt::Write>(&self, f: &mut fmt::Formatter<W>) -> fmt::Result {
        write_stmt(self, 0, f)
    }
}

/// Writes two spaces for each block.
#[tactic(auto, using(crate::proofs::StatementTexts::indenting))]
fn write_indent<W: fmt::Write>(depth: usize, f: &mut fmt::Formatter<W>) -> fmt::Result
    ensures { WritesOnOk W.write_str_gives f.old result (indent depth) f.new }
{
    for _ in 0..depth {
        f.write_str("  ")?;
    }
    Ok(())
}

/// Writes a line that is one constant text.
fn write_line<W: fmt::Write>(text: &str, depth: usize, f: &mut fmt::Formatter<W>) -> fmt::Result
    ensures { WritesOnOk W.write_str_gives f.old result (line depth text.now) f.new }
{
    write_indent(depth, f)?;
    f.write_str(text)?;
    f.write_str("\n")
}

#[tactic(auto, using(crate::proofs::StatementTexts::returning))]
fn write_return<W: fmt::Write>(
    value: &Option<AstExpr>,
    depth: usize,
    f: &mut fmt::Formatter<W>,
) -> fmt::Result
    ensures { WritesOnOk W.write_str_gives f.old result (printed_stmt depth (StmtP.Return value.now)) f.new }
{
    match value {
        Some(value) => {
            write_indent(depth, f)?;
            f.write_str("return ")?;
            write_expr(&value.node, f)?;
            f.write_str("\n")
        }
        None => write_line("return", depth, f),
    }
}

#[tactic(auto, using(crate::proofs::StatementTexts::evaluating))]
fn write_expression<W: fmt::Write>(
    value: &AstExpr,
    depth: usize,
    f: &mut fmt::Formatter<W>,
) -> fmt::Result
    ensures { WritesOnOk W.write_str_gives f.old result (printed_stmt depth (StmtP.Expression value.now)) f.new }
{
    write_indent(depth, f)?;
    write_expr(&value.node, f)?;
    f.write_str("\n")
}

#[tactic(auto, using(crate::proofs::StatementTexts::assigning))]
fn write_assign<W: fmt::Write>(
    assign: &AssignP<AstNoPayload>,
    depth: usize,
    f: &mut fmt::Formatter<W>,
) -> fmt::Result
    ensures { WritesOnOk W.write_str_gives f.old result (printed_stmt depth (StmtP.Assign assign.now)) f.new }
{
    write_indent(depth, f)?;
    write_target(&assign.lhs.node, f)?;
    write_target_type(&assign.ty, f)?;
    f.write_str(" = ")?;
    write_expr(&assign.rhs.node, f)?;
    f.write_str("\n")
}

#[tactic(auto, using(crate::proofs::StatementTexts::modifying))]
fn write_assign_modify<W: fmt::Write>(
    target: &AstAssignTarget,
    operator: &AssignOp,
    value: &Box<AstExpr>,
    depth: usize,
    f: &mut fmt::Formatter<W>,
) -> fmt::Result
    ensures { WritesOnOk W.write_str_gives f.old result (printed_stmt depth (StmtP.AssignModify target.now operator.now value.now)) f.new }
{
    write_indent(depth, f)?;
    write_target(&target.node, f)?;
    operator.fmt(f)?;
    write_expr(&value.node, f)?;
    f.write_str("\n")
}

#[tactic(auto, using(crate::proofs::StatementTexts::loading))]
fn write_load_line<W: fmt::Write>(
    load: &Load,
    depth: usize,
    f: &mut fmt::Formatter<W>,
) -> fmt::Result
    ensures { WritesOnOk W.write_str_gives f.old result (printed_stmt depth (StmtP.Load load.now)) f.new }
{
    write_indent(depth, f)?;
    write_load(load, f)?;
    f.write_str("\n")
}

fn write_if<W: fmt::Write>(
    condition: &AstExpr,
    depth: usize,
    f: &mut fmt::Formatter<W>,
) -> fmt::Result
    ensures { WritesOnOk W.write_str_gives f.old result (line depth (codes "if " ++ printed_expr condition.now.node ++ codes ":")) f.new }
{
    write_indent(depth, f)?;
    f.write_str("if ")?;
    write_expr(&condition.node, f)?;
    f.write_str(":\n")
}

fn write_for<W: fmt::Write>(
    target: &AstAssignTarget,
    over: &AstExpr,
    depth: usize,
    f: &mut fmt::Formatter<W>,
) -> fmt::Result
    ensures { WritesOnOk W.write_str_gives f.old result (line depth (codes "for " ++ printed_target target.now.node ++ codes " in "
        ++ printed_expr over.now.node ++ codes ":")) f.new }
{
    write_indent(depth, f)?;
    f.write_str("for ")?;
    write_target(&target.node, f)?;
    f.write_str(" in ")?;
    write_expr(&over.node, f)?;
    f.write_str(":\n")
}

/// Writes the parameters and the return type of a definition.
#[tactic(auto, unfolding(crate::specs::Printed::printed_signature))]
fn write_signature<W: fmt::Write>(
    params: &Vec<AstParameter>,
    return_type: &Option<Box<AstTypeExpr>>,
    f: &mut fmt::Formatter<W>,
) -> fmt::Result
    ensures { WritesOnOk W.write_str_gives f.old result (printed_signature params.now.items return_type.now) f.new }
{
    f.write_str("(")?;
    write_parameters(params, f)?;
    f.write_str(")")?;
    write_type_if_there(" -> ", return_type, f)
}

fn write_def<W: fmt::Write>(
    def: &DefP<AstNoPayload>,
    depth: usize,
    f: &mut fmt::Formatter<W>,
) -> fmt::Result
    ensures { WritesOnOk W.write_str_gives f.old result (line depth (codes "def " ++ string_bytes def.now.name.node.ident
        ++ printed_signature def.now.params.items def.now.return_type ++ codes ":")) f.new }
{
    write_indent(depth, f)?;
    f.write_str("def ")?;
    f.write_str(def.name.node.ident.as_str())?;
    write_signature(&def.params, &def.return_type, f)?;
    f.write_str(":\n")
}

#[cycle(write)]
#[tactic(auto, using(crate::proofs::StatementTexts::showing))]
fn write_stmt<W: fmt::Write>(
    statement: &Stmt,
    depth: usize,
    f: &mut fmt::Formatter<W>,
) -> fmt::Result
    ensures { WritesOnOk W.write_str_gives f.old result (printed_stmt depth statement.now) f.new }
{
    match statement {
        StmtP::Break => write_line("break", depth, f),
        StmtP::Continue => write_line("continue", depth, f),
        StmtP::Pass => write_line("pass", depth, f),
        StmtP::Return(value) => write_return(value, depth, f),
        StmtP::Expression(value) => write_expression(value, depth, f),
        StmtP::Assign(assign) => write_assign(assign, depth, f),
        StmtP::AssignModify(target, operator, value) => {
            write_assign_modify(target, operator, value, depth, f)
        }
        StmtP::Statements(parts) => write_stmts(parts, depth, f),
        StmtP::If(condition, body) => {
            let deeper = depth.checked_add(1).ok_or(fmt::Error)?;
            write_if(condition, depth, f)?;
            write_stmt(&body.node, deeper, f)
        }
        StmtP::IfElse(condition, blocks) => {
            let (body, other) = &**blocks;
            let deeper = depth.checked_add(1).ok_or(fmt::Error)?;
            write_if(condition, depth, f)?;
            write_stmt(&body.node, deeper, f)?;
            write_line("else:", depth, f)?;
            write_stmt(&other.node, deeper, f)
        }
        StmtP::For(each) => {
            let deeper = depth.checked_add(1).ok_or(fmt::Error)?;
            write_for(&each.var, &each.over, depth, f)?;
            write_stmt(&each.body.node, deeper, f)
        }
        StmtP::Def(def) => {
            let deeper = depth.checked_add(1).ok_or(fmt::Error)?;
            write_def(def, depth, f)?;
            write_stmt(&def.body.node, deeper, f)
        }
        StmtP::Load(load) => write_load_line(load, depth, f),
    }
}

#[cycle(write)]
fn write_stmts<W: fmt::Write>(
    statements: &[AstStmt],
    depth: usize,
    f: &mut fmt::Formatter<W>,
) -> fmt::Result
    ensures { WritesOnOk W.write_str_gives f.old result (flat_map (λ s. printed_stmt depth s.node) statements.now) f.new }
{
    for statement in statements {
        write_stmt(&statement.node, depth, f)?;
    }
    Ok(())
}
