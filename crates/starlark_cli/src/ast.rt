//! What the program `starlark_ast` does, over arguments, a reader and two writers.
mod output;
mod request;
pub mod run;
pub mod stop;
