//! The mutable visitor of types: a trait for the type of the tree.
ghost use Rattle.std.specs.Prelude.{List};
ghost use Rattle.starlark_tree.specs.Ast.{Form};
ghost use Rattle.starlark_tree.specs.Views.{payloads};
ghost use Rattle.starlark_tree.specs.Walks.{WritesIn};
ghost use Rattle.starlark_uniplate_mut.specs.Forms.{forms_of, nesting_of};
ghost use Rattle.starlark_uniplate_mut.specs.Types.Types.{MayWriteTypes, form_calls, type_calls};

use crate::types::stmt_types::write_all_types;
use starlark_tree::ast::{AstPayload, AstTypeExprP, StmtP};

/// A mutable walk over the types in a statement.
pub trait StmtPVisitTypesMut<P: AstPayload> {
    // The statement and those in it, each before those inside it and with gaps for these.
    ghost forms: { Self → List (Form (payloads P.LoadPayload P.IdentPayload P.IdentAssignPayload P.DefPayload P.TypeExprPayload)) };

    // The statements in it, and where they are.
    ghost nesting: { Self → Form (payloads P.LoadPayload P.IdentPayload P.IdentAssignPayload P.DefPayload P.TypeExprPayload) };

    /// Calls `f` at the types of each statement before those of the statements in it: at those of a definition's
    /// parameters, then at its return type, or at that of an assignment; then at those in the statement's expressions, as
    /// `f` has left them, the types of a lambda's parameters before what is in it. Stops at the first `Err`, which is returned.
    fn visit_type_expr_err_mut<E, F: FnMut(&mut AstTypeExprP<P>) -> Result<(), E>>(
        &mut self,
        f: &mut F,
    ) -> Result<(), E>
        requires { MayWriteTypes (type_calls F.FnMut) f.old }
        ensures { WritesIn forms nesting (form_calls (type_calls F.FnMut)) f.old self.old self.new result f.new };
}

impl<P: AstPayload> StmtPVisitTypesMut<P> for StmtP<P> {
    ghost forms = { forms_of };

    ghost nesting = { nesting_of };

    fn visit_type_expr_err_mut<E, F: FnMut(&mut AstTypeExprP<P>) -> Result<(), E>>(
        &mut self,
        f: &mut F,
    ) -> Result<(), E> {
        write_all_types(self, f)
    }
}
