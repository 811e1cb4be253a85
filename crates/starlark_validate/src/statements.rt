//! The rules of statements: where they are allowed, and which of them the dialect leaves out.
ghost use Rattle.std.specs.Prelude.{◌≡◌, ◌++◌, not, map};
ghost use Rattle.starlark_lexer.specs.Tokens.{span_of};
ghost use Rattle.starlark_tree.specs.Views.{form_seen, parameter_of, statement_of};
ghost use Rattle.starlark_spec.specs.Faults.{rule_fault as fault};
ghost use Rattle.starlark_spec.specs.Faults as rules;
ghost use Rattle.starlark_validate.specs.KeptTreeFaults.{listed_if};
ghost use Rattle.starlark_validate.specs.Validity as validity;
ghost use Rattle.starlark_validate.specs.Validity.{params_faults, statement_faults};
ghost use Rattle.starlark_validate.specs.Walks.Statements.{around_in, around_of, own_statement_faults, top_faults};
ghost use Rattle.starlark_validate.specs.TestResults.{Tested};

use crate::context::Tests;
use crate::parameters::test_parameters;
use crate::parts::statements_in;
use crate::refusal::{refuse_left_out, refuse_misplaced};
use starlark_checks::error::{DialectError, Error, PlaceError};
use starlark_lexer::codemap::Span;
use starlark_tree::ast::{AstParameter, AstStmt, StmtP};

/// Where a statement is.
#[derive(Clone, Copy)]
pub(crate) struct Around {
    /// In no other statement but blocks of the module.
    pub(crate) at_top: bool,
    /// In a `for` of the same function.
    pub(crate) in_for: bool,
    /// In a `def`.
    pub(crate) in_def: bool,
}

impl Around {
    /// Where a module is.
    pub(crate) fn top() -> Self
        ensures { around_of result ≡ validity.top }
    {
        Around {
            at_top: true,
            in_for: false,
            in_def: false,
        }
    }

    /// Where the statements are that are directly in a statement which is here.
    pub(crate) fn within(self, statement: &AstStmt) -> Self
        ensures { around_of result ≡ around_in (around_of self) (form_seen statement.now.node) }
    {
        match &statement.node {
            StmtP::If(..) | StmtP::IfElse(..) => Around {
                at_top: false,
                ..self
            },
            StmtP::For(_) => Around {
                at_top: false,
                in_for: true,
                ..self
            },
            StmtP::Def(_) => Around {
                at_top: false,
                in_for: false,
                in_def: true,
            },
            StmtP::Break
            | StmtP::Continue
            | StmtP::Pass
            | StmtP::Return(_)
            | StmtP::Expression(_)
            | StmtP::Assign(_)
            | StmtP::AssignModify(..)
            | StmtP::Statements(_)
            | StmtP::Load(_) => self,
        }
    }
}

/// Tests a statement, and then those in it.
pub(crate) fn test_statement(
    tests: &Tests,
    around: Around,
    statement: &AstStmt,
) -> Result<(), Error>
    ensures { Tested tests.now.codemap.now (statement_faults tests.now.dialect (around_of around) (statement_of statement.now)) result }
{
    test_alone(tests, around, statement)?;
    let parts = statements_in(tests.alloc, statement)?;
    for part in &parts {
        test_statement(tests, around.within(statement), part)?;
    }
    Ok(())
}

/// Tests a statement without those in it.
fn test_alone(tests: &Tests, around: Around, statement: &AstStmt) -> Result<(), Error>
    ensures { Tested tests.now.codemap.now (own_statement_faults tests.now.dialect (around_of around) (statement_of statement.now)) result }
{
    let span = statement.span;
    match &statement.node {
        StmtP::Break => {
            refuse_misplaced(tests, !around.in_for, PlaceError::BreakOutsideFor, span)
        }
        StmtP::Continue => {
            refuse_misplaced(tests, !around.in_for, PlaceError::ContinueOutsideFor, span)
        }
        StmtP::Return(_) => {
            refuse_misplaced(tests, !around.in_def, PlaceError::ReturnOutsideDef, span)
        }
        StmtP::If(..) => refuse_at_top(tests, around, PlaceError::IfAtTop, span),
        StmtP::IfElse(..) => refuse_at_top(tests, around, PlaceError::IfAtTop, span),
        StmtP::For(_) => refuse_at_top(tests, around, PlaceError::ForAtTop, span),
        StmtP::Def(def) => test_def(tests, &def.params, span),
        StmtP::Load(_) => test_load(tests, around, span),
        StmtP::Pass
        | StmtP::Expression(_)
        | StmtP::Assign(_)
        | StmtP::AssignModify(..)
        | StmtP::Statements(_) => Ok(()),
    }
}

/// Refuses a statement at the top of a module if the dialect wants it in a function.
fn refuse_at_top(tests: &Tests, around: Around, error: PlaceError, span: Span) -> Result<(), Error>
    ensures { Tested tests.now.codemap.now (top_faults tests.now.dialect (around_of around) error (span_of span)) result }
{
    let is_misplaced = around.at_top && !tests.dialect.enable_top_level_stmt;
    refuse_misplaced(tests, is_misplaced, error, span)
}

/// Refuses a `def` if the dialect leaves it out, and tests its parameters.
fn test_def(tests: &Tests, params: &[AstParameter], span: Span) -> Result<(), Error>
    ensures { Tested tests.now.codemap.now (listed_if (not tests.now.dialect.enable_def) (fault (rules.Dialect DialectError.Def) (span_of span))
        ++ params_faults tests.now.dialect (map parameter_of params.now)) result }
{
    refuse_left_out(tests, !tests.dialect.enable_def, DialectError::Def, span)?;
    test_parameters(tests, params)
}

/// Refuses a load that is not at the top of a module, or if the dialect leaves it out.
fn test_load(tests: &Tests, around: Around, span: Span) -> Result<(), Error>
    ensures { Tested tests.now.codemap.now (listed_if (not around.at_top) (fault (rules.Place PlaceError.LoadNotAtTop) (span_of span))
        ++ listed_if (not tests.now.dialect.enable_load) (fault (rules.Dialect DialectError.Load) (span_of span))) result }
{
    refuse_misplaced(tests, !around.at_top, PlaceError::LoadNotAtTop, span)?;
    refuse_left_out(tests, !tests.dialect.enable_load, DialectError::Load, span)
}
