//! The payload map on each type of the tree: the calls that it makes of its function, in order, and the text of what was mapped.
//!
//! A call is made on a clone of the module's own statement, on what its load, assignment or loop is or contains, on each parameter of its
//! definition, or on the value of an expression statement and what that is or contains.
ghost use Rattle.std.specs.Prelude.{⊤};

mod expressions;
mod names;
mod statements;

use crate::maps::expressions::push_expr;
use crate::maps::names::{push_assign_ident, push_ident, push_symbol};
use crate::maps::statements::{push_parameter, push_stmt, push_target, push_type};
use starlark_payload::payload_map::AstPayloadFunction;
use starlark_tree::ast::{AssignP, AssignTarget, AstNoPayload, AstStmt, Expr, Stmt};
use std::alloc::{AllocError, Global};
use std::fmt::{Display, Write};

/// The calls of a map, whose results are payloads without contents.
#[derive(Drop)]
pub struct Calls {
    pub alloc: Global,
    text: String,
    is_out_of_memory: bool,
}

impl Calls {
    fn new(alloc: Global) -> Calls {
        Calls {
            alloc,
            text: String::new(alloc),
            is_out_of_memory: false,
        }
    }

    /// Records a call.
    fn add(&mut self, call: &str, path: &str) {
        if write!(self.text, "{call}{path} ").is_err() {
            self.is_out_of_memory = true;
        }
    }

    /// Appends the calls, and the text of what was mapped.
    fn push<T: Display>(&self, out: &mut String, mapped: &T) -> Result<(), AllocError> {
        if self.is_out_of_memory {
            return Err(AllocError);
        }
        writeln!(out, "{}| {mapped}", self.text)
    }
}

impl AstPayloadFunction<AstNoPayload, AstNoPayload> for Calls {
    ghost calls = { record { load = λ path a b s t. ⊤; ident = λ a b s t. ⊤; assign = λ a b s t. ⊤; def = λ a b s t. ⊤; type = λ a b s t. ⊤ } };

    fn map_load(&mut self, import_path: &str, _: ()) {
        self.add("load ", import_path)
    }

    fn map_ident(&mut self, _: ()) {
        self.add("ident", "")
    }

    fn map_ident_assign(&mut self, _: ()) {
        self.add("assign", "")
    }

    fn map_def(&mut self, _: ()) {
        self.add("def", "")
    }

    fn map_type_expr(&mut self, _: ()) {
        self.add("type", "")
    }
}

/// Appends a line for each part of the statement on which the call of that name is made.
pub fn push_mapped(out: &mut String, name: &str, statement: &AstStmt) -> Result<(), AllocError> {
    match (name, &statement.node) {
        ("StmtPMap" | "StmtPExt" | "map_stmt_to_itself", _) => push_stmt(out, name, statement),
        ("LoadArgPMap", Stmt::Load(load)) => {
            for symbol in &load.args {
                push_symbol(out, symbol)?;
            }
            Ok(())
        }
        ("ParameterPMap" | "ParameterPExt", Stmt::Def(def)) => {
            for param in &def.params {
                push_parameter(out, name, param)?;
            }
            Ok(())
        }
        ("IdentPMap" | "IdentPExt", Stmt::Expression(value)) => match &value.node {
            Expr::Identifier(ident) => push_ident(out, name, ident),
            _ => out.push_str("no name\n"),
        },
        (_, Stmt::Assign(assign)) if name != "AssignPMap" => push_of_assignment(out, name, assign),
        (_, Stmt::Expression(value)) => push_expr(out, name, value),
        _ => push_stmt(out, name, statement),
    }
}

/// Appends what the call returns for the target of an assignment, its name or its type.
fn push_of_assignment(
    out: &mut String,
    name: &str,
    assign: &AssignP<AstNoPayload>,
) -> Result<(), AllocError> {
    match (&assign.lhs.node, &assign.ty) {
        (AssignTarget::Identifier(ident), _) if name.starts_with("AssignIdent") => {
            push_assign_ident(out, name, ident)
        }
        (_, Some(ty)) if name.starts_with("Type") => push_type(out, name, ty),
        _ => push_target(out, name, &assign.lhs),
    }
}
