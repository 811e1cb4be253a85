//! The identifier at an expression, and the law of those in a statement.
ghost use Rattle.std.specs.Prelude.{◌≡◌};
ghost use Rattle.starlark_tree.specs.Places.{behind};
ghost use Rattle.starlark_tree.specs.Views.{expression_of};
ghost use Rattle.starlark_tree.specs.Walks.{MayVisitUntilErr, VisitsUntilErr};
ghost use Rattle.starlark_uniplate.specs.Identifiers.{identifiers_of_stmt};
ghost use Rattle.starlark_uniplate.specs.Idents.{ident_of, idents_in_stmt, own_ident};

use crate::uniplate::at::AtExpr;
use starlark_tree::ast::{AstExprP, AstIdentP, AstPayload, ExprP, StmtP};

/// Visits the identifier that the expression is, if it is one.
fn walk_own_ident<P: AstPayload, E, F: FnMut(&AstIdentP<P>) -> Result<(), E>>(
    expr: &AstExprP<P>,
    f: &mut F,
) -> Result<(), E>
    requires { MayVisitUntilErr (behind ident_of) F.FnMut f.old (own_ident (expression_of expr.now)) }
    ensures { VisitsUntilErr (behind ident_of) F.FnMut f.old (own_ident (expression_of expr.now)) result f.new }
{
    match &expr.node {
        ExprP::Identifier(ident) => f(ident),
        _ => Ok(()),
    }
}

/// Calls the closure that is the state at the identifier of an expression, if it is one.
#[derive(Clone, Copy)]
pub(super) struct AtIdent;

impl<P: AstPayload, E, F: FnMut(&AstIdentP<P>) -> Result<(), E>> AtExpr<P, F, E> for AtIdent {
    ghost calls = { record {
      may = λ f e. MayVisitUntilErr (behind ident_of) F.FnMut f (own_ident e);
      call = λ f e. VisitsUntilErr (behind ident_of) F.FnMut f (own_ident e);
    } };

    fn call(&self, expr: &AstExprP<P>, state: &mut F) -> Result<(), E> {
        walk_own_ident(expr, state)
    }
}

/// The identifiers that `visit_ident` visits are those of the statement by recursion over the tree: each one, once.
pub fn idents_are_identifiers<P: AstPayload>(stmt: &StmtP<P>)
    ensures { idents_in_stmt stmt.now ≡ identifiers_of_stmt stmt.now }
{}
