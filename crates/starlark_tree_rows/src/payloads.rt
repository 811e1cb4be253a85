//! Payload maps: each payload of a module is mapped to how many were mapped before it, and these numbers are listed in the order of the
//! tree's fields, each after its name, if it has one.
ghost use Rattle.std.specs.Prelude.{⊤};

use starlark_lexer::codemap::Spanned;
use starlark_module::module::{AstModule, AstModuleFields};
use starlark_parse_held::statement::HeldStmt;
use starlark_payload::payload_map::{AstPayloadFunction, StmtPExt};
use starlark_tree::ast::{AssignIdentP, AstNoPayload, AstPayload, AstStmt, AstStmtP, IdentP};
use std::alloc::{AllocError, Global};
use std::fmt::Write;

/// Appends the payloads of the module, which are numbered.
pub fn push_numbered(out: &mut String, module: AstModule) -> Result<(), AllocError> {
    let (_codemap, statement, _dialect, _typecheck) = module.into_parts();
    let (tree, clone) = shown(*out.allocator(), statement)?;
    push_listed(out, tree.as_str())?;
    if clone != tree {
        out.push_str("a clone has other payloads: ")?;
        push_listed(out, clone.as_str())?;
    }
    Ok(())
}

/// The tree with its payloads numbered, and its clone, as they are shown for debugging.
fn shown(alloc: Global, statement: AstStmt) -> Result<(String, String), AllocError> {
    let mut numbering = Numbering::new(alloc);
    let numbered = statement.into_map_payload(alloc, &mut numbering)?;
    let span = numbered.span;
    let clone = match numbered.node.clone() {
        Ok(node) => shown_once(alloc, Spanned { node, span }),
        Err(error) => Err(error),
    };
    let tree = shown_once(alloc, numbered)?;
    if numbering.is_out_of_memory {
        return Err(AllocError);
    }
    Ok((tree, clone?))
}

/// The tree, as it is shown for debugging. Its payloads are removed again.
fn shown_once(alloc: Global, numbered: AstStmtP<Numbers>) -> Result<String, AllocError> {
    let shown = format!(in alloc; "{numbered:?}");
    let tree = numbered.into_map_payload(alloc, &mut Forgetting)?;
    let _held = HeldStmt::new(alloc, tree)?;
    shown
}

/// Appends whether names with payloads are equal to one of the first text and payload: names that are read, and names that are bound.
pub fn push_names(out: &mut String) -> Result<(), AllocError> {
    let alloc = *out.allocator();
    for (text, payload) in [("a", 1), ("b", 1), ("a", 2)] {
        let is_equal = read(alloc, "a", 1)? == read(alloc, text, payload)?;
        let is_equal_bound = bound(alloc, "a", 1)? == bound(alloc, text, payload)?;
        writeln!(out, "{text} {payload} {is_equal} {is_equal_bound}")?;
    }
    Ok(())
}

fn read(alloc: Global, text: &str, payload: u32) -> Result<IdentP<Numbers>, AllocError> {
    Ok(IdentP {
        ident: String::from_str(alloc, text)?,
        payload: format!(in alloc; "{payload}")?,
    })
}

fn bound(alloc: Global, text: &str, payload: u32) -> Result<AssignIdentP<Numbers>, AllocError> {
    Ok(AssignIdentP {
        ident: String::from_str(alloc, text)?,
        payload,
    })
}

/// Appends the payloads of a tree that is shown for debugging.
fn push_listed(out: &mut String, tree: &str) -> Result<(), AllocError> {
    let mut before = "";
    for part in tree.split("payload: ") {
        if let Some((number, _)) = part.split_once(" }") {
            if !before.is_empty() {
                let name = name_of(before);
                let number = number.trim_matches('"');
                write!(out, "{name}={number} ")?;
            }
        }
        before = part;
    }
    out.push('\n')
}

/// The name that a payload is after.
fn name_of(before: &str) -> &str {
    match before.strip_suffix("\", ") {
        Some(named) => match named.rsplit_once('"') {
            Some((_, name)) => name,
            None => "",
        },
        None => "",
    }
}

/// Payloads that are numbers, those of names that are read as texts, which own memory.
#[derive(Clone, Copy, Debug)]
struct Numbers;

impl AstPayload for Numbers {
    type LoadPayload = u32;

    type IdentPayload = String;

    type IdentAssignPayload = u32;

    type DefPayload = u32;

    type TypeExprPayload = u32;
}

/// How many payloads were mapped.
#[derive(Drop)]
struct Numbering {
    alloc: Global,
    calls: u32,
    /// Whether a number was left out of a payload, since the allocation of its text failed.
    is_out_of_memory: bool,
}

impl Numbering {
    /// Of no payload yet.
    fn new(alloc: Global) -> Numbering {
        Numbering {
            alloc,
            calls: 0,
            is_out_of_memory: false,
        }
    }

    /// The number of the next payload.
    fn next(&mut self) -> u32 {
        let number = self.calls;
        self.calls = number.saturating_add(1);
        number
    }
}

impl AstPayloadFunction<AstNoPayload, Numbers> for Numbering {
    ghost calls = { record { load = λ path a b s t. ⊤; ident = λ a b s t. ⊤; assign = λ a b s t. ⊤; def = λ a b s t. ⊤; type = λ a b s t. ⊤ } };

    fn map_load(&mut self, _import_path: &str, _: ()) -> u32 {
        self.next()
    }

    fn map_ident(&mut self, _: ()) -> String {
        let number = self.next();
        let mut text = String::new(self.alloc);
        if write!(text, "{number}").is_err() {
            self.is_out_of_memory = true;
        }
        text
    }

    fn map_ident_assign(&mut self, _: ()) -> u32 {
        self.next()
    }

    fn map_def(&mut self, _: ()) -> u32 {
        self.next()
    }

    fn map_type_expr(&mut self, _: ()) -> u32 {
        self.next()
    }
}

/// Removes numbers.
#[derive(Drop)]
struct Forgetting;

impl AstPayloadFunction<Numbers, AstNoPayload> for Forgetting {
    ghost calls = { record { load = λ path a b s t. ⊤; ident = λ a b s t. ⊤; assign = λ a b s t. ⊤; def = λ a b s t. ⊤; type = λ a b s t. ⊤ } };

    fn map_load(&mut self, _import_path: &str, _: u32) {}

    fn map_ident(&mut self, _: String) {}

    fn map_ident_assign(&mut self, _: u32) {}

    fn map_def(&mut self, _: u32) {}

    fn map_type_expr(&mut self, _: u32) {}
}
