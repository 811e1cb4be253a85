//! Walks over the tree: a closure is called at each node of a list. The lists and their orders are those of the tree's
//! `specs/Places.antt`, `Children.antt` and `Names.antt`; its `specs/Walks.antt` defines what a walk does.

mod at;
mod block;
mod children;
mod clause;
mod deep;
mod enter;
mod expression;
pub mod ident;
mod inside;
mod listed;
mod lvalue;
mod node;
mod one;
mod parameter;
mod statement;
mod target;
mod types;
pub mod visit;
pub mod visitors;

pub use crate::uniplate::visit::{Visit, visit_children, visit_children_err};
pub use crate::uniplate::visitors::{
    AssignTargetPVisit, DefPVisit, ExprPVisit, StmtPVisit, StmtPVisitAll, StmtPVisitTypes,
    VisitExpr,
};
