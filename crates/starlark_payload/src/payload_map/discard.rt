//! What a statement keeps while another part of it may fail to be allocated, discarded.
//!
//! Each is a function of one family of payloads alone: from a recursion a call of such a function costs less of a proof than a call with a bound.
use starlark_tree::ast::{
    AstAssignTargetP, AstExprP, AstParameterP, AstPayload, AstStmtP, AstTypeExprP,
};
use starlark_tree::discard::Discard;

/// A statement.
pub(super) fn discard_statement<P: AstPayload>(stmt: AstStmtP<P>) {
    stmt.discard();
}

/// A statement in a box.
pub(super) fn discard_body<P: AstPayload>(body: Box<AstStmtP<P>>) {
    discard_statement(Box::into_inner(body));
}

/// The branches of an `if` with `else`.
pub(super) fn discard_branches<P: AstPayload>(branches: Box<(AstStmtP<P>, AstStmtP<P>)>) {
    let (first, second) = Box::into_inner(branches);
    discard_statement(first);
    discard_statement(second);
}

/// The expression on which a statement depends.
pub(super) fn discard_head<P: AstPayload>(head: AstExprP<P>) {
    head.discard();
}

/// The variable of a loop.
pub(super) fn discard_variable<P: AstPayload>(variable: AstAssignTargetP<P>) {
    variable.discard();
}

/// The parameters and the return type of a definition.
pub(super) fn discard_signature<P: AstPayload>(
    signature: (Vec<AstParameterP<P>>, Option<Box<AstTypeExprP<P>>>),
) {
    signature.discard();
}
