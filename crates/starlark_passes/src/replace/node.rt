//! An operation that becomes a call.
ghost use Rattle.std.specs.Prelude.{◌≡◌, ◌≤◌, ◌<◌, ◌+◌, ◌++◌, ◌∷◌, [], IfOk, IsTrue, OnErr, OnOk, vec_capacity, vec_len};
ghost use Rattle.starlark_lexer.specs.Tokens.{span_of};
ghost use Rattle.starlark_tree.specs.Ast.{expression, Identifier};
ghost use Rattle.starlark_tree.specs.Views.{argument_of, expression_of, shape_seen, word_at};
ghost use Rattle.starlark_passes.specs.Replace.Replacing.{is_named, operand as as_argument, table_of};
ghost use Rattle.starlark_passes.specs.Replace.Calls.{is_operation, node_replaced, call_expression};

use crate::replace::operator::operator_name;
use starlark_lexer::span::{Span, Spanned};
use starlark_parse_held::{HeldArgument, HeldArguments, HeldExpr, HeldTree};
use starlark_tree::ast::{ArgumentP, AstArgument, AstExpr, AstLiteral, CallArgsP, Expr, IdentP};
use std::alloc::{AllocError, Global};
use std::collections::HashMap;
use std::mem;

/// The name of a function, in memory of its own.
fn callee(alloc: Global, function: &str, span: Span) -> Result<HeldExpr, AllocError>
    ensures { IfOk result (λ b. expression_of b.tree.value ≡ expression (span_of span) (Identifier (word_at function.now (span_of span)) tt)) }
{
    let ident = String::from_str(alloc, function)?;
    let node = Expr::Identifier(Spanned {
        node: IdentP { ident, payload: () },
        span,
    });
    HeldExpr::new(alloc, Spanned { node, span })
}

/// An operand as an argument.
fn argument(operand: Box<AstExpr>) -> AstArgument
    ensures { argument_of result ≡ as_argument (expression_of operand.value) }
{
    let operand = Box::into_inner(operand);
    Spanned {
        span: operand.span,
        node: ArgumentP::Positional(operand),
    }
}

/// Adds an argument, for which there is room.
fn push(arguments: &mut Vec<AstArgument>, argument: AstArgument)
    requires { vec_len arguments.old < vec_capacity arguments.old }
    ensures items { arguments.new.items ≡ arguments.old.items ++ argument ∷ [] }
    ensures len { vec_len arguments.new ≡ vec_len arguments.old + 1 }
    ensures capacity { vec_capacity arguments.old ≤ vec_capacity arguments.new }
{
    if let Err(refused) = arguments.push(argument) {
        drop(HeldArgument {
            tree: refused.value,
        });
    }
}

/// The call that replaces an operation, whose operands become its arguments. There is room for them.
fn call(operation: AstExpr, callee: HeldExpr, mut arguments: Vec<AstArgument>) -> AstExpr
    requires operation { IsTrue (is_operation (expression_of operation)) }
    requires empty { arguments.items ≡ [] }
    requires room { 2 ≤ vec_capacity arguments }
    ensures { expression_of result ≡ call_expression (expression_of callee.tree.value) (expression_of operation) }
{
    let Spanned { node, span } = operation;
    match node {
        Expr::Op(left, _, right) => {
            push(&mut arguments, argument(left));
            push(&mut arguments, argument(right));
            let args = CallArgsP { args: arguments };
            let node = Expr::Call(callee.into_box(), args);
            Spanned { node, span }
        }
        node => {
            drop(HeldArguments { trees: arguments });
            Spanned { node, span }
        }
    }
}

/// A placeholder for an expression while it is rebuilt.
fn placeholder(span: Span) -> AstExpr {
    Spanned {
        node: Expr::Literal(AstLiteral::Ellipsis),
        span,
    }
}

/// Turns an operation whose operator is replaced into a call. Any other expression is unchanged.
///
/// Fails if an allocation fails, and then leaves the operation unchanged.
pub(crate) fn replace_operation(
    alloc: Global,
    expr: &mut AstExpr,
    replacements: &HashMap<String, String>,
) -> Result<(), AllocError>
    ensures done { OnOk result (expression_of expr.new ≡ node_replaced (table_of replacements.now) (expression_of expr.old)) }
    ensures kept { OnErr result (expr.new ≡ expr.old) }
    ensures named { OnErr result (IsTrue (is_named (table_of replacements.now) (expression_of expr.old))) }
{
    let Expr::Op(_, operator, _) = &expr.node else {
        return Ok(());
    };
    let Some(function) = replacements.get(operator_name(*operator)) else {
        return Ok(());
    };
    let callee = callee(alloc, function.as_str(), expr.span)?;
    let arguments = Vec::with_capacity(alloc, 2)?;
    let operation = mem::replace(expr, placeholder(expr.span));
    let placeholder = mem::replace(expr, call(operation, callee, arguments));
    drop(HeldTree { tree: placeholder });
    Ok(())
}
