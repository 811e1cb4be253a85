//! The parser layer of Starlark: from a text to its syntax tree, and what tools do with a tree. Names and modules are those of the Rust
//! crate `starlark_syntax`. Spans are byte offsets.
//!
//! The loads of a module, and what the linter finds:
//!
//! ```
//! let module = AstModule::parse(alloc, "a.bzl", text, &Dialect::Standard)?;
//! for load in &module.loads(alloc)? {
//!     let place = load.span.resolve_span();
//!     let name = load.module_id;
//!     writeln!(out, "{place} {name}")?;
//! }
//! for issue in &lint(alloc, &module)? {
//!     let place = module.codemap().resolve_span(issue.span);
//!     let name = issue.name;
//!     writeln!(out, "{place} {name}")?;
//! }
//! ```
//!
//! Each name that is read in a statement, by a visitor. Its trait has to be imported, and it takes its closure by `&mut`:
//!
//! ```
//! use starlark_syntax::syntax::uniplate::StmtPVisit;
//!
//! let mut names: Vec<Span> = Vec::new(alloc);
//! let mut add = |name: &AstIdent| names.push(name.span);
//! module.statement().node.visit_ident(&mut add)?;
//! ```
//!
//! A tree with its `+` replaced by calls of `plus`, as source:
//!
//! ```
//! use starlark_syntax::syntax::source::to_source;
//!
//! let mut functions = HashMap::new(alloc);
//! functions.insert(String::from_str(alloc, "+")?, String::from_str(alloc, "plus")?)?;
//! module.replace_binary_operators(alloc, &functions)?;
//! let text = to_source(alloc, module.statement())?;
//! ```
//!
//! Whatever allocates takes `alloc` first and returns a `Result`. An `Error` prints its message; `error.span()` prints as
//! `file:line:column`.
#![tactic(auto)]

pub mod codemap;
pub mod lexer;
pub mod syntax;

pub use starlark_checks::error::Error;
