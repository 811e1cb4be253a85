//! The mutable walk over the type expressions of a statement.
mod into;
mod stmt_types;
mod types;
mod visit_types;

pub use crate::types::visit_types::StmtPVisitTypesMut;
