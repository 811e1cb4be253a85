//! The types that a file states of parameters, results and variables.
ghost use Rattle.std.specs.Prelude.{◌≡◌, [], ◌∷◌, ◌++◌, IfOk, OnOk, map};
ghost use Rattle.starlark_examples.specs.Types.{stated, stated_of, stated_types};
ghost use Rattle.starlark_syntax.specs.tree.Views.{statement_of};
ghost use Rattle.starlark_syntax.specs.uniplate.Types.{type_seen};

use crate::parsed;
use starlark_syntax::Error;
use starlark_syntax::codemap::Span;
use starlark_syntax::syntax::ast::{AstStmt, AstTypeExpr};
use starlark_syntax::syntax::uniplate::StmtPVisitTypes;
use std::alloc::{AllocError, Global};
use std::fmt::Write;

/// A type that is stated: its span and its text.
#[derive(Drop)]
struct StatedType {
    span: Span,
    text: String,
}

/// A line for each type that a text states.
pub fn report(alloc: Global, text: &str) -> Result<String, Error> {
    let module = parsed(alloc, text)?;
    let mut out = String::new(alloc);
    for ty in &stated_types(alloc, module.statement())? {
        writeln!(out, "{}: {}", module.file_span(ty.span)?, ty.text)?;
    }
    Ok(out)
}

/// The types that are stated in a statement, in the order of a walk: those of a statement before those in it.
#[tactic(auto, using(crate::proofs::Always::may_always))]
fn stated_types(alloc: Global, top: &AstStmt) -> Result<Vec<StatedType>, AllocError>
    ensures { IfOk result (λ types. map stated_of types.items ≡ stated_types (statement_of top.now)) }
{
    let mut types = Vec::new(alloc);
    let mut add = |ty: &AstTypeExpr| -> Result<(), AllocError>
        ensures { OnOk result (map stated_of types.exit.items ≡ map stated_of types.entry.items ++ stated (type_seen ty.now) ∷ []) }
    { add_type(alloc, ty, &mut types) };
    top.node.visit_type_expr_err(&mut add)?;
    Ok(types)
}

/// Adds a type. Its text is as the tree prints it.
#[tactic(auto, unfolding(crate::proofs::Printed::printed_expr))]
fn add_type(alloc: Global, ty: &AstTypeExpr, types: &mut Vec<StatedType>) -> Result<(), AllocError>
    ensures { OnOk result (map stated_of types.new.items ≡ map stated_of types.old.items ++ stated (type_seen ty.now) ∷ []) }
{
    types.push(StatedType {
        span: ty.span,
        text: ty.node.to_string(alloc)?,
    })?;
    Ok(())
}
