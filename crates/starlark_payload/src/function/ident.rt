//! Names with their payloads mapped.
ghost use Rattle.std.specs.Prelude.{◌≡◌, string_bytes};
ghost use Rattle.starlark_tree.specs.Views.{assign_word, ident_word};

use crate::function::function::AstPayloadFunction;
use starlark_lexer::span::Spanned;
use starlark_tree::ast::{AssignIdentP, AstAssignIdentP, AstIdentP, AstPayload, IdentP};

/// A name that is read.
pub fn map_ident<A: AstPayload, B: AstPayload, F: AstPayloadFunction<A, B>>(
    name: IdentP<A>,
    f: &mut F,
) -> IdentP<B>
    ensures ident { string_bytes result.ident ≡ string_bytes name.ident }
    ensures payload { F.calls.ident name.payload result.payload f.old f.new }
{
    let IdentP { ident, payload } = name;
    let payload = f.map_ident(payload);
    IdentP { ident, payload }
}

/// A name that is bound.
pub fn map_assign_ident<A: AstPayload, B: AstPayload, F: AstPayloadFunction<A, B>>(
    name: AssignIdentP<A>,
    f: &mut F,
) -> AssignIdentP<B>
    ensures ident { string_bytes result.ident ≡ string_bytes name.ident }
    ensures payload { F.calls.assign name.payload result.payload f.old f.new }
{
    let AssignIdentP { ident, payload } = name;
    let payload = f.map_ident_assign(payload);
    AssignIdentP { ident, payload }
}

/// A name that is read, with its span.
pub fn map_spanned_ident<A: AstPayload, B: AstPayload, F: AstPayloadFunction<A, B>>(
    name: AstIdentP<A>,
    f: &mut F,
) -> AstIdentP<B>
    ensures word { ident_word result ≡ ident_word name }
    ensures payload { F.calls.ident name.node.payload result.node.payload f.old f.new }
{
    let Spanned { node, span } = name;
    let node = map_ident(node, f);
    Spanned { node, span }
}

/// A name that is bound, with its span.
pub fn map_spanned_assign_ident<A: AstPayload, B: AstPayload, F: AstPayloadFunction<A, B>>(
    name: AstAssignIdentP<A>,
    f: &mut F,
) -> AstAssignIdentP<B>
    ensures word { assign_word result ≡ assign_word name }
    ensures payload { F.calls.assign name.node.payload result.node.payload f.old f.new }
{
    let Spanned { node, span } = name;
    let node = map_assign_ident(node, f);
    Spanned { node, span }
}
