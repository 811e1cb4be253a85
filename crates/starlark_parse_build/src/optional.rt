//! Optional parts, as in trees.
ghost use Rattle.std.specs.Prelude.{◌≡◌};
ghost use Rattle.starlark_tree.specs.Views.{boxed_type_of, maybe_of as tree_of};
ghost use Rattle.starlark_parse_held.specs.Held.{annotation_of, maybe_of};

use starlark_parse_held::{HeldExpr, HeldType};
use starlark_tree::ast::{AstExpr, AstTypeExpr};

/// An optional expression, as in trees.
pub(crate) fn boxed_tree(value: Option<HeldExpr>) -> Option<Box<AstExpr>>
    ensures { tree_of result ≡ maybe_of value }
{
    match value {
        None => None,
        Some(value) => Some(value.into_box()),
    }
}

/// An optional type, as in trees.
pub(crate) fn type_tree(annotation: Option<HeldType>) -> Option<Box<AstTypeExpr>>
    ensures { boxed_type_of result ≡ annotation_of annotation }
{
    match annotation {
        None => None,
        Some(annotation) => Some(annotation.into_box()),
    }
}
