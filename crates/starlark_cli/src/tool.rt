//! The program `starlark`: what its arguments ask for, and what it does with files, over a runtime, a reader and two writers.
mod command;
mod diagnostics;
mod error;
mod fault;
pub mod folder;
mod listing;
mod module;
pub mod put;
pub mod report;
pub mod request;
pub mod run;
pub mod source;
pub mod tally;
pub mod task;
