//! Visitors of the tree, those that read and those that write.
pub use starlark_uniplate::uniplate::{
    AssignTargetPVisit, DefPVisit, ExprPVisit, StmtPVisit, StmtPVisitAll, StmtPVisitTypes, Visit,
    VisitExpr, visit_children, visit_children_err,
};
pub use starlark_uniplate_mut::types::StmtPVisitTypesMut;
pub use starlark_uniplate_mut::uniplate_mut::{
    AssignTargetPVisitMut, ExprPVisitMut, StmtPVisitMut, VisitExprMut, VisitMut,
    visit_expr_result_mut, visit_stmt_result_mut,
};
