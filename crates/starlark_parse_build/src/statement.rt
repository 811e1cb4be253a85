//! Statements over the parts that were read.
ghost use Rattle.std.specs.Prelude.{◌≡◌, ◌≤◌, ◌++◌, ◌∷◌, [], IfOk, OnOk, None, Some};
ghost use Rattle.starlark_lexer.specs.Tokens.{from_to, span_of};
ghost use Rattle.starlark_tree.specs.Ast.{Block, Break, Continue, Def, Evaluate, Load, Pass, Return, parameters_of, statement, statements_of};
ghost use Rattle.starlark_tree.specs.Views.{form_seen, word};
ghost use Rattle.starlark_spec.specs.Trees.{if_form, one_or_block};
ghost use Rattle.starlark_parse_held.specs.Held.{annotation_of, expression_of, load_args_in, other_of, parameters_in, statement_of, statements_in};

use crate::optional::type_tree;
use crate::parameter::assigned;
use starlark_lexer::span::{Pos, Span, Spanned};
use starlark_parse_held::{HeldExpr, HeldParameters, HeldStmt, HeldStmts, HeldSymbols, HeldType};
use starlark_tree::ast::{AstString, DefP, LoadP, Stmt};
use std::alloc::{AllocError, Global};

/// Adds `break` to the statements.
pub fn break_statement(statements: &mut HeldStmts, span: Span) -> Result<(), AllocError>
    ensures { OnOk result (statements_in statements.new ≡ statements_in statements.old ++ statement (span_of span) Break ∷ []) }
{
    let node = Stmt::Break;
    statements.add(node, span)
}

/// Adds `continue` to the statements.
pub fn continue_statement(statements: &mut HeldStmts, span: Span) -> Result<(), AllocError>
    ensures { OnOk result (statements_in statements.new ≡ statements_in statements.old ++ statement (span_of span) Continue ∷ []) }
{
    let node = Stmt::Continue;
    statements.add(node, span)
}

/// Adds `pass` to the statements.
pub fn pass_statement(statements: &mut HeldStmts, span: Span) -> Result<(), AllocError>
    ensures { OnOk result (statements_in statements.new ≡ statements_in statements.old ++ statement (span_of span) Pass ∷ []) }
{
    let node = Stmt::Pass;
    statements.add(node, span)
}

/// Adds `return` without a value to the statements.
pub fn return_statement(statements: &mut HeldStmts, span: Span) -> Result<(), AllocError>
    ensures { OnOk result (statements_in statements.new ≡ statements_in statements.old ++ statement (span_of span) (Return None) ∷ []) }
{
    let node = Stmt::Return(None);
    statements.add(node, span)
}

/// A statement, from `begin` to `end`.
fn spanned(alloc: Global, node: Stmt, begin: Pos, end: Pos) -> Result<HeldStmt, AllocError>
    requires { begin.byte ≤ end.byte }
    ensures { IfOk result (λ s. statement_of s ≡ statement (from_to begin.byte end.byte) (form_seen node)) }
{
    let span = Span::new(begin, end);
    HeldStmt::new(alloc, Spanned { node, span })
}

/// Adds a statement to the statements, from `begin` to `end`.
#[inline(always)]
fn add_spanned(
    statements: &mut HeldStmts,
    node: Stmt,
    begin: Pos,
    end: Pos,
) -> Result<(), AllocError>
    requires { begin.byte ≤ end.byte }
    ensures { OnOk result (statements_in statements.new
        ≡ statements_in statements.old ++ statement (from_to begin.byte end.byte) (form_seen node) ∷ []) }
{
    statements.add(node, Span::new(begin, end))
}

/// Adds `return` with a value to the statements, from `begin` to `end`.
pub fn return_value(
    statements: &mut HeldStmts,
    value: HeldExpr,
    begin: Pos,
    end: Pos,
) -> Result<(), AllocError>
    requires { begin.byte ≤ end.byte }
    ensures { OnOk result (statements_in statements.new
        ≡ statements_in statements.old ++ statement (from_to begin.byte end.byte) (Return (Some (expression_of value))) ∷ []) }
{
    add_spanned(
        statements,
        Stmt::Return(Some(value.into_tree())),
        begin,
        end,
    )
}

/// Adds an expression as a statement to the statements, from `begin` to `end`.
pub fn expression_statement(
    statements: &mut HeldStmts,
    expression: HeldExpr,
    begin: Pos,
    end: Pos,
) -> Result<(), AllocError>
    requires { begin.byte ≤ end.byte }
    ensures { OnOk result (statements_in statements.new
        ≡ statements_in statements.old ++ statement (from_to begin.byte end.byte) (Evaluate (expression_of expression)) ∷ []) }
{
    add_spanned(
        statements,
        Stmt::Expression(expression.into_tree()),
        begin,
        end,
    )
}

/// Adds a load of names from a module to the statements, from `begin` to `end`.
pub fn load_statement(
    statements: &mut HeldStmts,
    from: AstString,
    symbols: HeldSymbols,
    begin: Pos,
    end: Pos,
) -> Result<(), AllocError>
    requires { begin.byte ≤ end.byte }
    ensures { OnOk result (statements_in statements.new
        ≡ statements_in statements.old ++ statement (from_to begin.byte end.byte) (Load (word from) (load_args_in symbols) tt) ∷ []) }
{
    let args = symbols.into_trees();
    let node = Stmt::Load(LoadP {
        module: from,
        args,
        payload: (),
    });
    add_spanned(statements, node, begin, end)
}

/// One statement is itself; several, or none, are a block from `begin` to `end`.
#[inline(never)]
pub fn joined(
    alloc: Global,
    statements: HeldStmts,
    begin: Pos,
    end: Pos,
) -> Result<HeldStmt, AllocError>
    requires { begin.byte ≤ end.byte }
    ensures { IfOk result (λ s. statement_of s ≡ one_or_block (from_to begin.byte end.byte) (statements_in statements)) }
{
    match statements.only() {
        Ok(statement) => HeldStmt::new(alloc, statement),
        Err(statements) => block(alloc, statements, begin, end),
    }
}

/// A block, from `begin` to `end`.
fn block(alloc: Global, statements: HeldStmts, begin: Pos, end: Pos) -> Result<HeldStmt, AllocError>
    requires { begin.byte ≤ end.byte }
    ensures { IfOk result (λ s. statement_of s ≡ statement (from_to begin.byte end.byte) (Block (statements_of (statements_in statements)))) }
{
    spanned(alloc, Stmt::Statements(statements.into_trees()), begin, end)
}

/// An `if`, from `begin` to `end`, with the statement after its `else` or from its `elif` on, if there is one.
pub fn if_statement(
    alloc: Global,
    condition: HeldExpr,
    body: HeldStmt,
    other: Option<HeldStmt>,
    begin: Pos,
    end: Pos,
) -> Result<HeldStmt, AllocError>
    requires { begin.byte ≤ end.byte }
    ensures { IfOk result (λ s. statement_of s ≡ statement (from_to begin.byte end.byte)
        (if_form (expression_of condition) (statement_of body) (other_of other))) }
{
    match other {
        None => {
            let node = Stmt::If(condition.into_tree(), body.into_box());
            spanned(alloc, node, begin, end)
        }
        Some(other) => {
            let bodies = body.paired(alloc, other)?;
            let node = Stmt::IfElse(condition.into_tree(), bodies.into_trees());
            spanned(alloc, node, begin, end)
        }
    }
}

/// The definition of a function, from `begin` to `end`.
pub fn definition(
    alloc: Global,
    name: AstString,
    params: HeldParameters,
    return_type: Option<HeldType>,
    body: HeldStmt,
    begin: Pos,
    end: Pos,
) -> Result<HeldStmt, AllocError>
    requires { begin.byte ≤ end.byte }
    ensures { IfOk result (λ s. statement_of s ≡ statement (from_to begin.byte end.byte)
        (Def (word name) tt (parameters_of (parameters_in params)) (annotation_of return_type) (statement_of body) tt)) }
{
    let node = Stmt::Def(DefP {
        name: assigned(name),
        params: params.into_trees(),
        return_type: type_tree(return_type),
        body: body.into_box(),
        payload: (),
    });
    spanned(alloc, node, begin, end)
}
