//! Mutable walks over the statements directly in a statement.
ghost use Rattle.starlark_tree.specs.declared.ast.StmtP;
ghost use Rattle.std.specs.Prelude.{[], ◌∷◌};
ghost use Rattle.starlark_tree.specs.Children.{stmts_of_stmt};
ghost use Rattle.starlark_uniplate_mut.specs.FormFrames.{stmts_frame_of};
ghost use Rattle.starlark_tree.specs.Views.{statement_of};
ghost use Rattle.starlark_tree.specs.Walks.{MayWriteBy, WriteBy, WritesIn};

use crate::uniplate_mut::at_stmt::AtStmtMut;
use starlark_tree::ast::{AstPayload, AstStmtP, DefP, ForP, StmtP};

/// Visits a statement.
fn write_stmt<P: AstPayload, S, E, G: AtStmtMut<P, S, E>>(
    stmt: &mut AstStmtP<P>,
    state: &mut S,
    visit: &G,
) -> Result<(), E>
    requires { MayWriteBy G.calls state.old (statement_of stmt.old ∷ []) }
    ensures { WriteBy G.calls state.old (statement_of stmt.old ∷ []) (statement_of stmt.new ∷ []) result state.new }
{
    visit.call(stmt, state)
}

/// Visits two statements.
fn write_two_stmts<P: AstPayload, S, E, G: AtStmtMut<P, S, E>>(
    first: &mut AstStmtP<P>,
    second: &mut AstStmtP<P>,
    state: &mut S,
    visit: &G,
) -> Result<(), E>
    requires { MayWriteBy G.calls state.old (statement_of first.old ∷ statement_of second.old ∷ []) }
    ensures { WriteBy G.calls state.old (statement_of first.old ∷ statement_of second.old ∷ []) (statement_of first.new ∷ statement_of second.new ∷ [])
        result state.new }
{
    write_stmt(first, state, visit)?;
    write_stmt(second, state, visit)
}

/// Visits a statement in a box.
fn write_body<P: AstPayload, S, E, G: AtStmtMut<P, S, E>>(
    body: &mut Box<AstStmtP<P>>,
    state: &mut S,
    visit: &G,
) -> Result<(), E>
    requires { MayWriteBy G.calls state.old (statement_of body.old.value ∷ []) }
    ensures { WriteBy G.calls state.old (statement_of body.old.value ∷ []) (statement_of body.new.value ∷ []) result state.new }
{
    write_stmt(body, state, visit)
}

/// Visits both branches of a condition.
fn write_branches<P: AstPayload, S, E, G: AtStmtMut<P, S, E>>(
    branches: &mut Box<(AstStmtP<P>, AstStmtP<P>)>,
    state: &mut S,
    visit: &G,
) -> Result<(), E>
    requires { MayWriteBy G.calls state.old (statement_of branches.old.value.0 ∷ statement_of branches.old.value.1 ∷ []) }
    ensures { WriteBy G.calls state.old (statement_of branches.old.value.0 ∷ statement_of branches.old.value.1 ∷ [])
        (statement_of branches.new.value.0 ∷ statement_of branches.new.value.1 ∷ []) result state.new }
{
    let (then, other) = &mut **branches;
    write_two_stmts(then, other, state, visit)
}

/// Visits the statements of a block.
fn write_block<P: AstPayload, S, E, G: AtStmtMut<P, S, E>>(
    parts: &mut Vec<AstStmtP<P>>,
    state: &mut S,
    visit: &G,
) -> Result<(), E>
    requires { MayWriteBy G.calls state.old (stmts_of_stmt (StmtP.Statements parts.old)) }
    ensures { WritesIn stmts_of_stmt stmts_frame_of G.calls state.old (StmtP.Statements parts.old) (StmtP.Statements parts.new) result state.new }
{
    for part in parts.iter_mut() {
        write_stmt(part, state, visit)?;
    }
    Ok(())
}

/// Visits the body of a loop.
fn write_loop_body<P: AstPayload, S, E, G: AtStmtMut<P, S, E>>(
    repeated: &mut ForP<P>,
    state: &mut S,
    visit: &G,
) -> Result<(), E>
    requires { MayWriteBy G.calls state.old (stmts_of_stmt (StmtP.For repeated.old)) }
    ensures { WritesIn stmts_of_stmt stmts_frame_of G.calls state.old (StmtP.For repeated.old) (StmtP.For repeated.new) result state.new }
{
    write_body(&mut repeated.body, state, visit)
}

/// Visits the body of a definition.
fn write_def_body<P: AstPayload, S, E, G: AtStmtMut<P, S, E>>(
    def: &mut DefP<P>,
    state: &mut S,
    visit: &G,
) -> Result<(), E>
    requires { MayWriteBy G.calls state.old (stmts_of_stmt (StmtP.Def def.old)) }
    ensures { WritesIn stmts_of_stmt stmts_frame_of G.calls state.old (StmtP.Def def.old) (StmtP.Def def.new) result state.new }
{
    write_body(&mut def.body, state, visit)
}

/// Visits the statements directly in a statement.
#[tactic(auto, using(crate::proofs::ByKind::in_found))]
pub(super) fn write_stmts<P: AstPayload, S, E, G: AtStmtMut<P, S, E>>(
    stmt: &mut StmtP<P>,
    state: &mut S,
    visit: &G,
) -> Result<(), E>
    requires { MayWriteBy G.calls state.old (stmts_of_stmt stmt.old) }
    ensures { WritesIn stmts_of_stmt stmts_frame_of G.calls state.old stmt.old stmt.new result state.new }
{
    match stmt {
        StmtP::Break
        | StmtP::Continue
        | StmtP::Pass
        | StmtP::Return(_)
        | StmtP::Expression(_)
        | StmtP::Assign(_)
        | StmtP::AssignModify(_, _, _)
        | StmtP::Load(_) => Ok(()),
        StmtP::Statements(parts) => write_block(parts, state, visit),
        StmtP::If(_, body) => write_body(body, state, visit),
        StmtP::IfElse(_, branches) => write_branches(branches, state, visit),
        StmtP::For(repeated) => write_loop_body(repeated, state, visit),
        StmtP::Def(def) => write_def_body(def, state, visit),
    }
}
