//! Rows of source.
use crate::text::changes::change;
use crate::text::parsed;
use starlark_lexer::dialect::Dialect;
use starlark_module::module::AstModule;
use starlark_source::error::SourceError;
use starlark_source::source::to_source;
use std::alloc::{AllocError, Global};
use std::fmt::Write;

/// Appends the result for the tree of a text:
///
/// - `to_source`: its source, and then as `same`.
/// - `same`: whether the source is parsed to a tree that prints the same.
/// - `change HOW`: the same as `to_source` for the tree that is made of the text's, as `changes` says.
pub fn push_tree(row: &mut String, call: &str, words: &str, text: &str) -> Result<(), AllocError> {
    row.push('\n')?;
    match parsed(*row.allocator(), text, &Dialect::All)? {
        Ok(module) => push_answer(row, call, words, module),
        Err(_) => row.push_str("the text is refused\n"),
    }
}

/// Appends the result of a call for a module.
fn push_answer(
    out: &mut String,
    call: &str,
    words: &str,
    mut module: AstModule,
) -> Result<(), AllocError> {
    let is_made = match call {
        "change" => change(*out.allocator(), words, module.statement_mut())?,
        _ => matches!(call, "to_source" | "same"),
    };
    if is_made {
        push_source(out, call != "same", &module)
    } else {
        out.push_str("no such call\n")
    }
}

/// Appends the source, if it is asked for, and whether it parses back; or the span of a node that no source can express.
fn push_source(out: &mut String, is_asked: bool, module: &AstModule) -> Result<(), AllocError> {
    let source = match to_source(*out.allocator(), module.statement()) {
        Ok(source) => source,
        Err(SourceError::NotSource(span)) => {
            return writeln!(
                out,
                "no source at {}..{}",
                span.begin().get(),
                span.end().get()
            );
        }
        Err(SourceError::Memory) => return Err(AllocError),
    };
    if is_asked {
        out.push_str(&source)?;
    }
    push_comparison(out, module, &source)
}

/// Appends whether the source of a module parses back.
fn push_comparison(out: &mut String, module: &AstModule, source: &str) -> Result<(), AllocError> {
    let alloc = *out.allocator();
    match parsed(alloc, source, &Dialect::All)? {
        Err(_) => out.push_str("its source is refused\n"),
        Ok(again) => {
            if printed(alloc, module)? == printed(alloc, &again)? {
                out.push_str("the same\n")
            } else {
                out.push_str("its source says another tree\n")
            }
        }
    }
}

fn printed(alloc: Global, module: &AstModule) -> Result<String, AllocError> {
    module.statement().node.to_string(alloc)
}
