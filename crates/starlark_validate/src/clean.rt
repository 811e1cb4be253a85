//! Whether a module has no fault at all: one walk in any order, before the tests that name the first fault.
ghost use Rattle.std.specs.Prelude.{◌≡◌, ◌∷◌, ◌++◌, [], true, map, IfOk};
ghost use Rattle.std.specs.List.{flat_map};
ghost use Rattle.starlark_tree.specs.Ast as t;
ghost use Rattle.starlark_tree.specs.Places.{behind};
ghost use Rattle.starlark_tree.specs.Views.{expression_of, form_seen, literal_seen, shape_seen, statement_of};
ghost use Rattle.starlark_validate.specs.Faults.{faults_in};
ghost use Rattle.starlark_validate.specs.Validity.{own_faults};
ghost use Rattle.starlark_validate.specs.Clean.{all_in, form_parts, own_load, placed_of, placed_there};
ghost use Rattle.starlark_validate.specs.Walks.InText.{own_kept};
ghost use Rattle.starlark_validate.specs.Walks.Statements.{around_of, own_statement_faults};

mod arguments;
mod parameters;

use crate::children::{add_children, add_exprs_in_stmt};
use crate::clean::arguments::are_clean_arguments;
use crate::clean::parameters::are_clean_parameters;
use crate::context::Tests;
use crate::expressions::are_disabled;
use crate::statements::Around;
use starlark_tree::ast::{AstExpr, AstLiteral, AstStmt, ExprP, StmtP};
use std::alloc::AllocError;

/// A statement, and where it is.
#[derive(Clone, Copy)]
struct Placed<'a> {
    around: Around,
    statement: &'a AstStmt,
}

/// Whether a module's statement and all in it has no fault. Fails if memory runs out.
pub(crate) fn is_clean(tests: &Tests, statement: &AstStmt) -> Result<bool, AllocError>
    ensures { IfOk result (λ clean. clean ≡ true → faults_in tests.now.dialect (statement_of statement.now) ≡ []) }
{
    let mut exprs = Vec::new(tests.alloc);
    let mut statements = Vec::new(tests.alloc);
    statements.push(Placed {
        around: Around::top(),
        statement,
    })?;
    while let Some(placed) = statements.pop() {
        if !is_clean_alone(tests, placed.around, placed.statement) {
            return Ok(false);
        }
        add_exprs_in_stmt(&placed.statement.node, &mut exprs)?;
        let exprs_are_clean = are_clean(tests, &mut exprs)?;
        if !exprs_are_clean {
            return Ok(false);
        }
        add_parts(placed.around, placed.statement, &mut statements)?;
    }
    Ok(true)
}

/// Whether a statement has no fault without those in it.
fn is_clean_alone(tests: &Tests, around: Around, statement: &AstStmt) -> bool
    ensures own { result ≡ true → own_statement_faults tests.now.dialect (around_of around) (statement_of statement.now) ≡ [] }
    ensures load { result ≡ true → own_load (form_seen statement.now.node) ≡ [] }
{
    match &statement.node {
        StmtP::Break => around.in_for,
        StmtP::Continue => around.in_for,
        StmtP::Return(_) => around.in_def,
        StmtP::If(..) => !around.at_top || tests.dialect.enable_top_level_stmt,
        StmtP::IfElse(..) => !around.at_top || tests.dialect.enable_top_level_stmt,
        StmtP::For(_) => !around.at_top || tests.dialect.enable_top_level_stmt,
        StmtP::Def(def) => tests.dialect.enable_def && are_clean_parameters(tests, &def.params),
        StmtP::Load(load) => { around.at_top && tests.dialect.enable_load && !load.args.is_empty() }
        StmtP::Pass
        | StmtP::Expression(_)
        | StmtP::Assign(_)
        | StmtP::AssignModify(..)
        | StmtP::Statements(_) => true,
    }
}

/// Adds the statements directly in a statement that is here.
fn add_parts<'a>(
    around: Around,
    statement: &'a AstStmt,
    found: &mut Vec<Placed<'a>>,
) -> Result<(), AllocError>
    ensures { IfOk result (λ _. map placed_of found.new.items ≡ map placed_of found.old.items ++ form_parts (around_of around) (form_seen statement.now.node)) }
{
    let around = around.within(statement);
    match &statement.node {
        StmtP::Statements(parts) => add_each(around, parts, found),
        StmtP::If(_, body) => add_one(around, body, found),
        StmtP::IfElse(_, branches) => {
            add_one(around, &branches.0, found)?;
            add_one(around, &branches.1, found)
        }
        StmtP::For(repeated) => add_one(around, &repeated.body, found),
        StmtP::Def(def) => add_one(around, &def.body, found),
        StmtP::Break
        | StmtP::Continue
        | StmtP::Pass
        | StmtP::Return(_)
        | StmtP::Expression(_)
        | StmtP::Assign(_)
        | StmtP::AssignModify(..)
        | StmtP::Load(_) => Ok(()),
    }
}

/// Adds a statement that is here.
fn add_one<'a>(
    around: Around,
    statement: &'a AstStmt,
    found: &mut Vec<Placed<'a>>,
) -> Result<(), AllocError>
    ensures { IfOk result (λ _. map placed_of found.new.items ≡ map placed_of found.old.items ++ placed_there around statement.now ∷ []) }
{
    found.push(Placed { around, statement })?;
    Ok(())
}

/// Adds each of the statements, which are here.
fn add_each<'a>(
    around: Around,
    statements: &'a [AstStmt],
    found: &mut Vec<Placed<'a>>,
) -> Result<(), AllocError>
    ensures { IfOk result (λ _. map placed_of found.new.items ≡ map placed_of found.old.items ++ map (placed_there around) statements.now) }
{
    for statement in statements {
        add_one(around, statement, found)?;
    }
    Ok(())
}

/// Whether the expressions and all in them have no fault. Removes them, and what is in them, as far as it looks.
fn are_clean(tests: &Tests, exprs: &mut Vec<&AstExpr>) -> Result<bool, AllocError>
    ensures { IfOk result (λ clean. clean ≡ true → flat_map (all_in tests.now.dialect) (map (behind expression_of) exprs.old.items) ≡ []) }
{
    while let Some(expr) = exprs.pop() {
        if !is_clean_expr(tests, expr) {
            return Ok(false);
        }
        add_children(&expr.node, exprs)?;
    }
    Ok(true)
}

/// Whether an expression has no fault without those in it.
fn is_clean_expr(tests: &Tests, expr: &AstExpr) -> bool
    ensures kept { result ≡ true → own_kept tests.now.dialect (shape_seen expr.now.node) ≡ [] }
    ensures own { result ≡ true → own_faults tests.now.dialect (expression_of expr.now) ≡ [] }
{
    match &expr.node {
        ExprP::Literal(literal) => is_clean_literal(tests, literal),
        ExprP::Call(_, args) => are_clean_arguments(tests, args),
        ExprP::Lambda(lambda) => {
            tests.dialect.enable_lambda && are_clean_parameters(tests, &lambda.params)
        }
        ExprP::FString(_) => tests.dialect.enable_f_strings,
        _ => true,
    }
}

/// Whether the dialect has the literal.
fn is_clean_literal(tests: &Tests, literal: &AstLiteral) -> bool
    ensures { result ≡ true → (span : _) → own_faults {P = t.no_payload} tests.now.dialect (t.expression span (t.Constant (literal_seen literal.now))) ≡ [] }
{
    match literal {
        AstLiteral::Ellipsis => !are_disabled(tests.dialect.enable_types),
        AstLiteral::Int(_) | AstLiteral::Float(_) | AstLiteral::String(_) | AstLiteral::Bytes(_) =>
            true,
    }
}
