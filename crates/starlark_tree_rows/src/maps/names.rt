//! Names that are read and that are bound, and names that a load brings in.
use crate::maps::Calls;
use starlark_lexer::codemap::Spanned;
use starlark_payload::payload_map::{
    AssignIdentPExt, AssignIdentPMap, IdentPExt, IdentPMap, LoadArgPMap,
};
use starlark_tree::ast::{AstAssignIdent, AstIdent, AstNoPayload, LoadArgP};
use std::alloc::AllocError;

/// Appends what the call returns for a name that is read.
pub fn push_ident(out: &mut String, name: &str, ident: &AstIdent) -> Result<(), AllocError> {
    let mut calls = Calls::new(*out.allocator());
    let (alloc, span, node) = (calls.alloc, ident.span, ident.node.clone()?);
    let mapped = match name {
        "IdentPMap" => node.into_map_payload(alloc, &mut calls)?,
        _ => Spanned { node, span }
            .into_map_payload(alloc, &mut calls)?
            .node,
    };
    calls.push(out, &mapped)
}

/// Appends what the call returns for a name that is bound.
pub fn push_assign_ident(
    out: &mut String,
    name: &str,
    ident: &AstAssignIdent,
) -> Result<(), AllocError> {
    let mut calls = Calls::new(*out.allocator());
    let (alloc, span, node) = (calls.alloc, ident.span, ident.node.clone()?);
    let mapped = match name {
        "AssignIdentPMap" => node.into_map_payload(alloc, &mut calls)?,
        _ => Spanned { node, span }
            .into_map_payload(alloc, &mut calls)?
            .node,
    };
    calls.push(out, &mapped)
}

/// Appends what the call returns for a name that a load brings in.
pub fn push_symbol(out: &mut String, symbol: &LoadArgP<AstNoPayload>) -> Result<(), AllocError> {
    let mut calls = Calls::new(*out.allocator());
    let mapped = symbol.clone()?.into_map_payload(calls.alloc, &mut calls)?;
    calls.push(out, &mapped.local.node)
}
