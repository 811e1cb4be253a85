//! Walks over the statements directly in a statement.
ghost use Rattle.starlark_tree.specs.declared.ast.StmtP;
ghost use Rattle.std.specs.Prelude.{[], ◌∷◌};
ghost use Rattle.starlark_tree.specs.Children.{stmts_of_stmt};
ghost use Rattle.starlark_tree.specs.Views.{statement_of};
ghost use Rattle.starlark_tree.specs.Walks.{MayWalkBy, WalkBy};

use crate::uniplate::at::AtStmt;
use starlark_tree::ast::{AstPayload, AstStmtP, StmtP};

/// Visits a statement.
#[tactic(auto, using(starlark_tree::proofs::Steps::walk_one), unfolding(crate::specs::Held::statement_at))]
pub(super) fn walk_stmt<P: AstPayload, S, E, G: AtStmt<P, S, E>>(
    stmt: &AstStmtP<P>,
    state: &mut S,
    visit: &G,
) -> Result<(), E>
    requires { MayWalkBy G.calls state.old (statement_of stmt.now ∷ []) }
    ensures { WalkBy G.calls state.old (statement_of stmt.now ∷ []) result state.new }
{
    visit.call(stmt, state)
}

/// Visits two statements.
fn walk_two_stmts<P: AstPayload, S, E, G: AtStmt<P, S, E>>(
    first: &AstStmtP<P>,
    second: &AstStmtP<P>,
    state: &mut S,
    visit: &G,
) -> Result<(), E>
    requires { MayWalkBy G.calls state.old (statement_of first.now ∷ statement_of second.now ∷ []) }
    ensures { WalkBy G.calls state.old (statement_of first.now ∷ statement_of second.now ∷ []) result state.new }
{
    match walk_stmt(first, state, visit) {
        Ok(()) => walk_stmt(second, state, visit),
        Err(error) => Err(error),
    }
}

/// Visits the statements of a block.
fn walk_block<P: AstPayload, S, E, G: AtStmt<P, S, E>>(
    parts: &Vec<AstStmtP<P>>,
    state: &mut S,
    visit: &G,
) -> Result<(), E>
    requires { MayWalkBy G.calls state.old (stmts_of_stmt (StmtP.Statements parts.now)) }
    ensures { WalkBy G.calls state.old (stmts_of_stmt (StmtP.Statements parts.now)) result state.new }
{
    for part in parts {
        walk_stmt(part, state, visit)?;
    }
    Ok(())
}

/// Visits the statements directly in a statement.
pub(super) fn walk_stmts<P: AstPayload, S, E, G: AtStmt<P, S, E>>(
    stmt: &StmtP<P>,
    state: &mut S,
    visit: &G,
) -> Result<(), E>
    requires { MayWalkBy G.calls state.old (stmts_of_stmt stmt.now) }
    ensures { WalkBy G.calls state.old (stmts_of_stmt stmt.now) result state.new }
{
    match stmt {
        StmtP::Break
        | StmtP::Continue
        | StmtP::Pass
        | StmtP::Return(_)
        | StmtP::Expression(_)
        | StmtP::Assign(_)
        | StmtP::AssignModify(_, _, _)
        | StmtP::Load(_) => Ok(()),
        StmtP::Statements(parts) => walk_block(parts, state, visit),
        StmtP::If(_, body) => walk_stmt(body, state, visit),
        StmtP::IfElse(_, parts) => walk_two_stmts(&parts.0, &parts.1, state, visit),
        StmtP::For(repeated) => walk_stmt(&repeated.body, state, visit),
        StmtP::Def(def) => walk_stmt(&def.body, state, visit),
    }
}
