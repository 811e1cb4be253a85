//! Binary operators that become calls of functions.
ghost use Rattle.std.specs.Prelude.{◌≡◌, ◌<◌, ℕ, Ok, OnErr, OnOk};
ghost use Rattle.std.specs.HashMap.{IsEmpty};
ghost use Rattle.starlark_tree.specs.Views.{statement_of};
ghost use Rattle.starlark_passes.specs.Replace.Replacing.{all_operators_replaced, operators, table_of, with_replaced};

use crate::replace::statement::replace_statement;
use starlark_tree::ast::AstStmt;
use std::alloc::{AllocError, Global};
use std::collections::HashMap;

mod binding;
mod clause;
mod expression;
mod node;
mod operator;
mod parameter;
mod rules;
mod statement;
mod target;

/// Turns the operations whose operators are replaced into calls. `replacements` has the name of a function for an operator's
/// text without the spaces around it, such as `==` or `not in`; the call's arguments are the operands (Starlark
/// specification, "Binary operators" and "Function and method calls"). The call and the function's name have the span of
/// the operation, and each argument has that of its operand. An operation is replaced before its operands are looked at.
/// The operator of an augmented assignment is unchanged.
///
/// Fails if the allocation of a call fails. The operations before it are then replaced, and the rest is unchanged. An empty
/// table leaves the statement unchanged, and so does one that names none of its operators.
pub fn replace_binary_operators(
    alloc: Global,
    statement: &mut AstStmt,
    replacements: &HashMap<String, String>,
) -> Result<(), AllocError>
    ensures all { OnOk result (statement_of statement.new ≡ all_operators_replaced (table_of replacements.now) (statement_of statement.old)) }
    ensures some { OnErr result ((k : ℕ) × (k < operators (table_of replacements.now) (statement_of statement.old))
        × (statement_of statement.new ≡ with_replaced (table_of replacements.now) k (statement_of statement.old))) }
    ensures unnamed { operators (table_of replacements.now) (statement_of statement.old) ≡ 0
        → (result ≡ Ok tt) × (statement_of statement.new ≡ statement_of statement.old) }
    ensures empty { IsEmpty replacements.now → (result ≡ Ok tt) × (statement_of statement.new ≡ statement_of statement.old) }
{
    replace_statement(alloc, statement, replacements)
}
