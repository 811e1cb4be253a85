//! Load statements with their payloads mapped.
ghost use Rattle.std.specs.Prelude.{IfOk};
ghost use Rattle.starlark_payload.specs.Function.Mapped.{MapsForm, MapsLoadArg};
ghost use Rattle.starlark_payload.specs.Function.Steps.{Each};
ghost use Rattle.starlark_tree.specs.Views.{form_seen, load_arg_of};
ghost use Rattle.starlark_tree.specs.declared.ast.StmtP;

use crate::function::function::AstPayloadFunction;
use crate::function::ident::map_spanned_assign_ident;
use crate::function::made::{Made, Mapping};
use starlark_tree::ast::{AstPayload, LoadArgP, LoadP};
use std::alloc::Global;

/// A name that a load binds.
pub fn map_load_arg<A: AstPayload, B: AstPayload, F: AstPayloadFunction<A, B>>(
    arg: LoadArgP<A>,
    f: &mut F,
) -> LoadArgP<B>
    ensures { MapsLoadArg F.calls (load_arg_of arg) (load_arg_of result) f.old f.new }
{
    let LoadArgP {
        local,
        their,
        comma,
    } = arg;
    let local = map_spanned_assign_ident(local, f);
    LoadArgP {
        local,
        their,
        comma,
    }
}

fn map_load_args<A: AstPayload, B: AstPayload, F: AstPayloadFunction<A, B>>(
    alloc: Global,
    items: Vec<LoadArgP<A>>,
    f: &mut F,
) -> Made<Vec<LoadArgP<B>>>
    ensures { IfOk result (λ mapped. Each (λ x y. MapsLoadArg F.calls (load_arg_of x) (load_arg_of y)) items.items mapped.items f.old f.new) }
{
    let mut mapping = Mapping::begin(alloc, items)?;
    while let Some(item) = mapping.next() {
        mapping = mapping.push(Ok(map_load_arg(item, f)))?;
    }
    Ok(mapping.finish())
}

/// A load statement: its payload is mapped before its names.
pub fn map_load<A: AstPayload, B: AstPayload, F: AstPayloadFunction<A, B>>(
    alloc: Global,
    load: LoadP<A>,
    f: &mut F,
) -> Made<LoadP<B>>
    ensures { IfOk result (λ mapped. MapsForm F.calls (form_seen (StmtP.Load load)) (form_seen (StmtP.Load mapped)) f.old f.new) }
{
    let LoadP {
        module,
        args,
        payload,
    } = load;
    let payload = f.map_load(&module.node, payload);
    let args = map_load_args(alloc, args, f)?;
    Ok(LoadP {
        module,
        args,
        payload,
    })
}
