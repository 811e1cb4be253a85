//! The rules that are tested on the whole tree (Starlark specification, "Statements" and "Expressions").
#![tactic(auto)]

ghost use Rattle.starlark_tree.specs.Views.{statement_of};
ghost use Rattle.starlark_validate.specs.Faults.{faults_in};
ghost use Rattle.starlark_validate.specs.TestResults.{Tested};

mod children;
mod clean;
mod context;
mod expressions;
mod kept;
pub mod laws;
mod parameters;
mod parts;
mod refusal;
mod statements;

use crate::clean::is_clean;
use crate::context::Tests;
use crate::expressions::test_expressions;
use crate::kept::kept;
use crate::statements::{Around, test_statement};
use starlark_checks::error::Error;
use starlark_lexer::codemap::CodeMap;
use starlark_lexer::dialect::Dialect;
use starlark_tree::ast::AstStmt;
use std::alloc::Global;

/// Tests the rules of a module's tree that no token breaks by itself.
///
/// Fails at the first fault of calls, f-strings and loads in the order of the text; otherwise at the first of statements
/// and of parameters of a `def`; otherwise at the first of expressions and of parameters of a `lambda`. Also fails if
/// memory runs out or the code map has too many clones to count.
pub fn validate(
    alloc: Global,
    statement: &AstStmt,
    dialect: &Dialect,
    codemap: &CodeMap,
) -> Result<(), Error>
    ensures { Tested codemap.now (faults_in dialect.now (statement_of statement.now)) result }
{
    let tests = Tests {
        alloc,
        dialect: *dialect,
        codemap,
    };
    if is_clean(&tests, statement)? {
        return Ok(());
    }
    kept(&tests, statement)?;
    test_statement(&tests, Around::top(), statement)?;
    test_expressions(&tests, statement)
}
