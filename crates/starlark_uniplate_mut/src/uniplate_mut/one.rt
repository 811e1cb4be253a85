//! Mutable walks over single expressions: a function is called with a state at each of them, up to the first `Err`.
ghost use Rattle.std.specs.Prelude.{◌≡◌, [], ◌∷◌, Ok, map};
ghost use Rattle.starlark_tree.specs.Views.{expression_of};
ghost use Rattle.starlark_tree.specs.Walks.{MayWriteBy, WriteBy};

use crate::uniplate_mut::at::AtExprMut;
use starlark_tree::ast::{AstExprP, AstPayload};

/// Visits an expression.
pub(super) fn write_one<P: AstPayload, S, E, G: AtExprMut<P, S, E>>(
    expr: &mut AstExprP<P>,
    state: &mut S,
    visit: &G,
) -> Result<(), E>
    requires { MayWriteBy G.calls state.old (expression_of expr.old ∷ []) }
    ensures { WriteBy G.calls state.old (expression_of expr.old ∷ []) (expression_of expr.new ∷ []) result state.new }
{
    visit.call(expr, state)
}

/// Visits an expression; others are visited after it.
pub(super) fn write_first<P: AstPayload, S, E, G: AtExprMut<P, S, E>>(
    expr: &mut AstExprP<P>,
    state: &mut S,
    visit: &G,
) -> Result<(), E>
    requires { MayWriteBy G.calls state.old (expression_of expr.old ∷ []) }
    ensures calls { WriteBy G.calls state.old (expression_of expr.old ∷ []) (expression_of expr.new ∷ []) result state.new }
    ensures others { (ys : _) → MayWriteBy G.calls state.old (expression_of expr.old ∷ ys) → result ≡ Ok tt → MayWriteBy G.calls state.new ys }
{
    write_one(expr, state, visit)
}

/// Visits two expressions; a third is visited after them.
fn write_first_two<P: AstPayload, S, E, G: AtExprMut<P, S, E>>(
    first: &mut AstExprP<P>,
    second: &mut AstExprP<P>,
    state: &mut S,
    visit: &G,
) -> Result<(), E>
    requires { MayWriteBy G.calls state.old (expression_of first.old ∷ expression_of second.old ∷ []) }
    ensures calls { WriteBy G.calls state.old (expression_of first.old ∷ expression_of second.old ∷ [])
        (expression_of first.new ∷ expression_of second.new ∷ []) result state.new }
    ensures third { (y : _) → MayWriteBy G.calls state.old (expression_of first.old ∷ expression_of second.old ∷ y ∷ []) → result ≡ Ok tt
        → G.calls.may state.new y }
{
    write_two(first, second, state, visit)
}

/// Visits two expressions.
pub(super) fn write_two<P: AstPayload, S, E, G: AtExprMut<P, S, E>>(
    first: &mut AstExprP<P>,
    second: &mut AstExprP<P>,
    state: &mut S,
    visit: &G,
) -> Result<(), E>
    requires { MayWriteBy G.calls state.old (expression_of first.old ∷ expression_of second.old ∷ []) }
    ensures { WriteBy G.calls state.old (expression_of first.old ∷ expression_of second.old ∷ []) (expression_of first.new ∷ expression_of second.new ∷ [])
        result state.new }
{
    write_one(first, state, visit)?;
    write_one(second, state, visit)
}

/// Visits three expressions.
pub(super) fn write_three<P: AstPayload, S, E, G: AtExprMut<P, S, E>>(
    first: &mut AstExprP<P>,
    second: &mut AstExprP<P>,
    third: &mut AstExprP<P>,
    state: &mut S,
    visit: &G,
) -> Result<(), E>
    requires { MayWriteBy G.calls state.old (expression_of first.old ∷ expression_of second.old ∷ expression_of third.old ∷ []) }
    ensures { WriteBy G.calls state.old (expression_of first.old ∷ expression_of second.old ∷ expression_of third.old ∷ [])
        (expression_of first.new ∷ expression_of second.new ∷ expression_of third.new ∷ []) result state.new }
{
    match write_first_two(first, second, state, visit) {
        Ok(()) => write_one(third, state, visit),
        Err(error) => Err(error),
    }
}

/// Visits both expressions of a pair.
pub(super) fn write_pair<P: AstPayload, S, E, G: AtExprMut<P, S, E>>(
    pair: &mut (AstExprP<P>, AstExprP<P>),
    state: &mut S,
    visit: &G,
) -> Result<(), E>
    requires { MayWriteBy G.calls state.old (expression_of pair.old.0 ∷ expression_of pair.old.1 ∷ []) }
    ensures { WriteBy G.calls state.old (expression_of pair.old.0 ∷ expression_of pair.old.1 ∷ [])
        (expression_of pair.new.0 ∷ expression_of pair.new.1 ∷ []) result state.new }
{
    let (first, second) = pair;
    write_two(first, second, state, visit)
}

/// Visits the three expressions of a triple.
pub(super) fn write_triple<P: AstPayload, S, E, G: AtExprMut<P, S, E>>(
    triple: &mut (AstExprP<P>, AstExprP<P>, AstExprP<P>),
    state: &mut S,
    visit: &G,
) -> Result<(), E>
    requires { MayWriteBy G.calls state.old (expression_of triple.old.0 ∷ expression_of triple.old.1 ∷ expression_of triple.old.2 ∷ []) }
    ensures { WriteBy G.calls state.old (expression_of triple.old.0 ∷ expression_of triple.old.1 ∷ expression_of triple.old.2 ∷ [])
        (expression_of triple.new.0 ∷ expression_of triple.new.1 ∷ expression_of triple.new.2 ∷ []) result state.new }
{
    let (first, second, third) = triple;
    write_three(first, second, third, state, visit)
}

/// Visits each of the expressions.
#[tactic(auto, using(crate::proofs::Spots::at_spot))]
pub(super) fn write_each<P: AstPayload, S, E, G: AtExprMut<P, S, E>>(
    items: &mut [AstExprP<P>],
    state: &mut S,
    visit: &G,
) -> Result<(), E>
    requires { MayWriteBy G.calls state.old (map expression_of items.old) }
    ensures { WriteBy G.calls state.old (map expression_of items.old) (map expression_of items.new) result state.new }
{
    for item in items.iter_mut() {
        write_one(item, state, visit)?;
    }
    Ok(())
}

/// Visits an expression in a box.
pub(super) fn write_boxed<P: AstPayload, S, E, G: AtExprMut<P, S, E>>(
    expr: &mut Box<AstExprP<P>>,
    state: &mut S,
    visit: &G,
) -> Result<(), E>
    requires { MayWriteBy G.calls state.old (expression_of expr.old.value ∷ []) }
    ensures { WriteBy G.calls state.old (expression_of expr.old.value ∷ []) (expression_of expr.new.value ∷ []) result state.new }
{
    write_one(expr, state, visit)
}

/// Visits two expressions, each in a box.
pub(super) fn write_operands<P: AstPayload, S, E, G: AtExprMut<P, S, E>>(
    left: &mut Box<AstExprP<P>>,
    right: &mut Box<AstExprP<P>>,
    state: &mut S,
    visit: &G,
) -> Result<(), E>
    requires { MayWriteBy G.calls state.old (expression_of left.old.value ∷ expression_of right.old.value ∷ []) }
    ensures { WriteBy G.calls state.old (expression_of left.old.value ∷ expression_of right.old.value ∷ [])
        (expression_of left.new.value ∷ expression_of right.new.value ∷ []) result state.new }
{
    write_two(left, right, state, visit)
}

/// Visits both expressions of a pair in a box.
pub(super) fn write_boxed_pair<P: AstPayload, S, E, G: AtExprMut<P, S, E>>(
    pair: &mut Box<(AstExprP<P>, AstExprP<P>)>,
    state: &mut S,
    visit: &G,
) -> Result<(), E>
    requires { MayWriteBy G.calls state.old (expression_of pair.old.value.0 ∷ expression_of pair.old.value.1 ∷ []) }
    ensures { WriteBy G.calls state.old (expression_of pair.old.value.0 ∷ expression_of pair.old.value.1 ∷ [])
        (expression_of pair.new.value.0 ∷ expression_of pair.new.value.1 ∷ []) result state.new }
{
    write_pair(pair, state, visit)
}

/// Visits the three expressions of a triple in a box.
pub(super) fn write_boxed_triple<P: AstPayload, S, E, G: AtExprMut<P, S, E>>(
    triple: &mut Box<(AstExprP<P>, AstExprP<P>, AstExprP<P>)>,
    state: &mut S,
    visit: &G,
) -> Result<(), E>
    requires { MayWriteBy G.calls state.old (expression_of triple.old.value.0 ∷ expression_of triple.old.value.1 ∷ expression_of triple.old.value.2 ∷ []) }
    ensures { WriteBy G.calls state.old (expression_of triple.old.value.0 ∷ expression_of triple.old.value.1 ∷ expression_of triple.old.value.2 ∷ [])
        (expression_of triple.new.value.0 ∷ expression_of triple.new.value.1 ∷ expression_of triple.new.value.2 ∷ []) result state.new }
{
    write_triple(triple, state, visit)
}
