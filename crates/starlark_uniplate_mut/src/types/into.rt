//! Walks into an expression: the closure is called at the types of the expression itself, then its children are
//! entered as the closure has left them.
//!
//! A call may leave a larger expression, so the walk terminates for two reasons: if an expression has types of its own,
//! fewer are in each child; if it has none, its children are smaller. Each case has a function of its own, and the one
//! for the second calls the first.
ghost use Rattle.std.specs.Prelude.{◌+◌, ◌<◌, length};
ghost use Rattle.starlark_tree.specs.Inside.{inside};
ghost use Rattle.starlark_tree.specs.Views.{expression_of};
ghost use Rattle.starlark_uniplate_mut.specs.Types.Entering.{EntersMut, EntersSmaller, EntersTyped, MayEnterMut, inside_calls};
ghost use Rattle.starlark_uniplate_mut.specs.Types.IntoCalls.{typed_calls};
ghost use Rattle.starlark_uniplate.specs.Types.{expr_types};
ghost use Rattle.starlark_uniplate_mut.specs.Types.Types.{IntoExpr, MayWriteTypes, type_calls, types_in};

use crate::types::types::{has_types, write_expr_types};
use crate::uniplate_mut::at::AtExprMut;
use crate::uniplate_mut::children::write_children;
use starlark_tree::ast::{AstExprP, AstPayload, AstTypeExprP};
use std::marker::PhantomData;

/// Enters an expression by a function that is passed by name and has the mark as its last argument.
#[derive(Clone, Copy)]
pub struct Enter<H, M> {
    pub function: H,
    pub mark: M,
}

impl<P: AstPayload, S, E, M: Copy, H: Fn(&mut AstExprP<P>, &mut S, M) -> Result<(), E>> AtExprMut<
    P,
    S,
    E,
> for Enter<H, M> {
    ghost calls = { record { may = MayEnterMut expression_of H.Fn; call = EntersMut expression_of H.Fn } };

    fn call(&self, expr: &mut AstExprP<P>, state: &mut S) -> Result<(), E> {
        (self.function)(expr, state, self.mark)
    }
}

/// What enters the expressions that have types of their own, together with a mark.
#[derive(Clone, Copy)]
pub struct Typed<G, M> {
    pub typed: G,
    pub mark: M,
}

/// Passes an expression that has types of its own to `typed`, and enters the children of any other by `enter`.
#[tactic(auto, using(crate::proofs::TypesLemmas::MayEnter::by))]
pub fn walk_into_by<
    P: AstPayload,
    E,
    F: FnMut(&mut AstTypeExprP<P>) -> Result<(), E>,
    G: AtExprMut<P, F, E>,
    H: AtExprMut<P, F, E>,
>(expr: &mut AstExprP<P>, f: &mut F, typed: &G, enter: &H) -> Result<(), E>
    requires typed { EntersTyped (type_calls F.FnMut) G.calls f.old (types_in (expression_of expr.old) + 1) }
    requires smaller { EntersSmaller (type_calls F.FnMut) H.calls f.old (types_in (expression_of expr.old) + 1) (length (inside (expression_of expr.old))) }
    ensures { IntoExpr (type_calls F.FnMut) f.old (expression_of expr.old) (expression_of expr.new) result f.new }
{
    if has_types(expr) {
        typed.call(expr, f)
    } else {
        write_children(&mut expr.node, f, enter)
    }
}

/// Walks into an expression, by `typed` if it or one in it has types of its own.
#[cycle(walk_into)]
pub fn walk_into<
    P: AstPayload,
    E,
    F: FnMut(&mut AstTypeExprP<P>) -> Result<(), E>,
    G: AtExprMut<P, F, E> + Copy,
>(expr: &mut AstExprP<P>, f: &mut F, mark: Typed<G, PhantomData<E>>) -> Result<(), E>
    requires { EntersTyped (type_calls F.FnMut) G.calls f.old (types_in (expression_of expr.old) + 1) }
    ensures { IntoExpr (type_calls F.FnMut) f.old (expression_of expr.old) (expression_of expr.new) result f.new }
{
    let function = walk_into::<P, E, F, G>;
    let typed = mark.typed;
    let enter = Enter { function, mark };
    walk_into_by(expr, f, &typed, &enter)
}

/// Enters an expression, by `typed` if it or one in it has types of its own.
#[derive(Clone, Copy)]
pub struct Inside<G> {
    pub typed: G,
}

impl<
    P: AstPayload,
    E,
    F: FnMut(&mut AstTypeExprP<P>) -> Result<(), E>,
    G: AtExprMut<P, F, E> + Copy,
> AtExprMut<P, F, E> for Inside<G> {
    ghost calls = { inside_calls (type_calls F.FnMut) G.calls };

    fn call(&self, expr: &mut AstExprP<P>, state: &mut F) -> Result<(), E> {
        walk_into(
            expr,
            state,
            Typed {
                typed: self.typed,
                mark: PhantomData,
            },
        )
    }
}

/// Visits the types of an expression itself, then walks into its children.
pub fn write_and_enter<
    P: AstPayload,
    E,
    F: FnMut(&mut AstTypeExprP<P>) -> Result<(), E>,
    G: AtExprMut<P, F, E> + Copy,
>(expr: &mut AstExprP<P>, f: &mut F, typed: G) -> Result<(), E>
    requires some { 0 < length (expr_types (expression_of expr.old)) }
    requires may { MayWriteTypes (type_calls F.FnMut) f.old }
    requires typed { EntersTyped (type_calls F.FnMut) G.calls f.old (types_in (expression_of expr.old)) }
    ensures { IntoExpr (type_calls F.FnMut) f.old (expression_of expr.old) (expression_of expr.new) result f.new }
{
    match write_expr_types(expr, f) {
        Ok(()) => write_children(&mut expr.node, f, &Inside { typed }),
        Err(error) => Err(error),
    }
}

/// Walks into an expression that has types of its own.
#[cycle(walk_typed)]
fn walk_typed<P: AstPayload, E, F: FnMut(&mut AstTypeExprP<P>) -> Result<(), E>>(
    expr: &mut AstExprP<P>,
    f: &mut F,
    mark: PhantomData<E>,
) -> Result<(), E>
    requires some { 0 < length (expr_types (expression_of expr.old)) }
    requires may { MayWriteTypes (type_calls F.FnMut) f.old }
    ensures { IntoExpr (type_calls F.FnMut) f.old (expression_of expr.old) (expression_of expr.new) result f.new }
{
    let function = walk_typed::<P, E, F>;
    write_and_enter(expr, f, Enter { function, mark })
}

/// Walks into an expression that has types of its own.
#[derive(Clone, Copy)]
struct AtTyped;

impl<P: AstPayload, E, F: FnMut(&mut AstTypeExprP<P>) -> Result<(), E>> AtExprMut<P, F, E>
    for AtTyped {
    ghost calls = { typed_calls (type_calls F.FnMut) };

    fn call(&self, expr: &mut AstExprP<P>, state: &mut F) -> Result<(), E> {
        walk_typed(expr, state, PhantomData)
    }
}

/// Walks into an expression.
#[tactic(auto, using(crate::proofs::TypesLemmas::MayTypes::at_typed))]
pub fn write_types<P: AstPayload, E, F: FnMut(&mut AstTypeExprP<P>) -> Result<(), E>>(
    expr: &mut AstExprP<P>,
    f: &mut F,
) -> Result<(), E>
    requires { MayWriteTypes (type_calls F.FnMut) f.old }
    ensures { IntoExpr (type_calls F.FnMut) f.old (expression_of expr.old) (expression_of expr.new) result f.new }
{
    walk_into(
        expr,
        f,
        Typed {
            typed: AtTyped,
            mark: PhantomData,
        },
    )
}
