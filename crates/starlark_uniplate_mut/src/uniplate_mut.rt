//! Mutable walks: a closure is called with a `&mut` to each node of a list, and may leave another value there.
//! The lists are those of the walks that read, and the rest of the tree is unchanged (`specs/Frames.antt`).

pub mod at;
mod at_stmt;
mod block;
pub mod children;
mod clause;
mod comprehension;
mod deep;
mod expression;
mod lvalue;
mod node;
mod one;
mod parameter;
mod places;
pub mod statement;
pub mod statements;
mod target;
pub mod visit_mut;
pub mod visitors;

pub use crate::uniplate_mut::visit_mut::VisitMut;
pub use crate::uniplate_mut::visitors::{
    AssignTargetPVisitMut, ExprPVisitMut, StmtPVisitMut, VisitExprMut, visit_expr_result_mut,
    visit_stmt_result_mut,
};
