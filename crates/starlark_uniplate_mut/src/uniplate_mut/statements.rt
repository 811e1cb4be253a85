//! Mutable walks over a statement and the statements in it: each, apart from the statements in it, before these.
ghost use Rattle.starlark_tree.specs.declared.ast.StmtP;
ghost use Rattle.std.specs.Prelude.{◌≡◌, ◌++◌, Result};
ghost use Rattle.starlark_tree.specs.Ast.{Form};
ghost use Rattle.starlark_tree.specs.Children.{stmts_of_stmt};
ghost use Rattle.starlark_tree.specs.Views.{payloads};
ghost use Rattle.starlark_tree.specs.Walks.{MayWriteBy, WriteBy, WritesIn, Writing};
ghost use Rattle.starlark_uniplate_mut.specs.Forms.{forms_of, later_forms_of, nesting_of, own_and_nesting_of};
ghost use Rattle.starlark_uniplate_mut.specs.FormFrames.{stmts_frame_of};

use starlark_tree::ast::{AstPayload, AstStmtP, StmtP};

/// Called at a statement, which it may change apart from the statements in it.
pub trait AtOwnMut<P: AstPayload, S, E> {
    // In which states it may be called at which statements, and what it may leave there: these have gaps for the statements in them.
    ghost calls: { Writing S (Form (payloads P.LoadPayload P.IdentPayload P.IdentAssignPayload P.DefPayload P.TypeExprPayload)) E };

    fn call(&self, stmt: &mut StmtP<P>, state: &mut S) -> Result<(), E>
        requires { calls.may state.old (stmts_frame_of stmt.old) }
        ensures calls { calls.call state.old (stmts_frame_of stmt.old) (stmts_frame_of stmt.new) result state.new }
        ensures rest { stmts_of_stmt stmt.new ≡ stmts_of_stmt stmt.old };
}

/// Visits the statements of a block, and the statements in each.
#[cycle(statements)]
fn write_block<P: AstPayload, S, E, G: AtOwnMut<P, S, E>>(
    parts: &mut Vec<AstStmtP<P>>,
    state: &mut S,
    own: &G,
) -> Result<(), E>
    requires { MayWriteBy G.calls state.old (later_forms_of (StmtP.Statements parts.old)) }
    ensures { WritesIn later_forms_of own_and_nesting_of G.calls state.old (StmtP.Statements parts.old) (StmtP.Statements parts.new) result state.new }
{
    for part in parts.iter_mut() {
        write_statement(&mut part.node, state, own)?;
    }
    Ok(())
}

/// Visits two statements, and the statements in each.
#[cycle(statements)]
#[tactic(auto, using(crate::proofs::May::parts))]
fn write_both<P: AstPayload, S, E, G: AtOwnMut<P, S, E>>(
    first: &mut StmtP<P>,
    second: &mut StmtP<P>,
    state: &mut S,
    own: &G,
) -> Result<(), E>
    requires { MayWriteBy G.calls state.old (forms_of first.old ++ forms_of second.old) }
    ensures calls { WriteBy G.calls state.old (forms_of first.old ++ forms_of second.old) (forms_of first.new ++ forms_of second.new) result state.new }
    ensures first { nesting_of first.new ≡ nesting_of first.old }
    ensures second { nesting_of second.new ≡ nesting_of second.old }
{
    write_statement(first, state, own)?;
    write_statement(second, state, own)
}

/// Visits the statements in a statement.
#[cycle(statements)]
fn write_later<P: AstPayload, S, E, G: AtOwnMut<P, S, E>>(
    stmt: &mut StmtP<P>,
    state: &mut S,
    own: &G,
) -> Result<(), E>
    requires { MayWriteBy G.calls state.old (later_forms_of stmt.old) }
    ensures { WritesIn later_forms_of own_and_nesting_of G.calls state.old stmt.old stmt.new result state.new }
{
    match stmt {
        StmtP::Break
        | StmtP::Continue
        | StmtP::Pass
        | StmtP::Return(_)
        | StmtP::Expression(_)
        | StmtP::Assign(_)
        | StmtP::AssignModify(_, _, _)
        | StmtP::Load(_) => Ok(()),
        StmtP::Statements(parts) => write_block(parts, state, own),
        StmtP::If(_, body) => write_statement(&mut body.node, state, own),
        StmtP::IfElse(_, parts) => {
            let (then, other) = &mut **parts;
            write_both(&mut then.node, &mut other.node, state, own)
        }
        StmtP::For(repeated) => write_statement(&mut repeated.body.node, state, own),
        StmtP::Def(def) => write_statement(&mut def.body.node, state, own),
    }
}

/// Visits a statement, then the statements in it.
#[cycle(statements)]
#[tactic(auto, using(crate::proofs::Nested::at_own))]
pub fn write_statement<P: AstPayload, S, E, G: AtOwnMut<P, S, E>>(
    stmt: &mut StmtP<P>,
    state: &mut S,
    own: &G,
) -> Result<(), E>
    requires { MayWriteBy G.calls state.old (forms_of stmt.old) }
    ensures { WritesIn forms_of nesting_of G.calls state.old stmt.old stmt.new result state.new }
{
    own.call(stmt, state)?;
    write_later(stmt, state, own)
}
