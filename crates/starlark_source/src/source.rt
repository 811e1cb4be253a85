//! The source of a statement.
ghost use Rattle.std.specs.Prelude.{◌≡◌, IfErr, IfOk, Ok, string_bytes};
ghost use Rattle.starlark_tree.specs.Views.{statement_of};
ghost use Rattle.starlark_source.specs.Lines.{FaultIs, source_of};
ghost use Rattle.starlark_source.specs.ReadsBack.{IsOrderly, ReadsBack};
ghost use Rattle.starlark_source.specs.Parsed.{IsParsed, ParsesBack};
ghost use Rattle.starlark_source.specs.declared.error.SourceError.TheVariants.{Memory};

use crate::error::SourceError;
use crate::page::Page;
use crate::statement::write_module;
use starlark_tree::ast::AstStmt;
use std::alloc::Global;

/// The canonical source of a module's statement: a line ends with a line feed, a block is four spaces deeper, and there are
/// parentheses only if precedence requires them. An `if` that is all of an `else` is an `elif`, and an empty block is `pass`.
/// The source of an empty module is empty.
///
/// The source of a valid module parses, under the same dialect, to the same statement apart from spans, and the source of that is
/// the same text. For any other statement the tokens of the source derive the same statement apart from spans, unless a block
/// inside it is empty.
///
/// Fails at the first part of the tree, in the order of the text, that cannot be written, and if allocation fails. The statement
/// of a module that was parsed from a text can be written, so that only allocation fails.
pub fn to_source(alloc: Global, statement: &AstStmt) -> Result<String, SourceError>
    ensures source { IfOk result (λ text. source_of (statement_of statement.now) ≡ Ok (string_bytes text)) }
    ensures reads_back { IfOk result (λ text. IsOrderly (statement_of statement.now) → ReadsBack (statement_of statement.now)) }
    ensures parses { IfOk result (λ text. ParsesBack (string_bytes text) (statement_of statement.now)) }
    ensures has_source { IsParsed (statement_of statement.now) → IfErr result (λ failure. failure ≡ Memory) }
    ensures not_source { IfErr result (FaultIs (source_of (statement_of statement.now))) }
{
    let mut page = Page::new(alloc);
    write_module(&mut page, statement);
    page.finish()
}
