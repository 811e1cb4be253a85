//! The parser of statements and of modules (Starlark specification, "Statements"), which is proved against the
//! language's definitions.
//!
//! `simple` reads a line of small statements, `compound` the statements that contain others, `module` a whole text.
mod annotation;
mod assignment;
mod compound;
mod load;
pub mod module;
mod parameter;
mod simple;
mod small;
mod test_list;
