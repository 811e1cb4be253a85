//! The operators that tokens are.
ghost use Rattle.std.specs.Prelude.{◌≡◌, true, IfOk};
ghost use Rattle.starlark_lexer.specs.Tokens.{span_of};
ghost use Rattle.starlark_parse_held.specs.Held.{expression_of};
ghost use Rattle.starlark_spec.specs.Machine.Firsts as firsts;
ghost use Rattle.starlark_parse.specs.Expr.Operators as spec;
ghost use Rattle.starlark_parse.specs.Expr.Operators.{after_operator};

use starlark_lexer::kind::Kind;
use starlark_lexer::span::Span;
use starlark_parse_build::expression::{bit_not, minus, plus};
use starlark_parse_held::HeldExpr;
use starlark_tree::ast::BinOp;
use std::alloc::{AllocError, Global};

/// Whether a token of the kind is an operator before an operand.
#[inline(always)]
pub fn is_unary_operator(kind: Kind) -> bool
    ensures { result ≡ firsts.is_sign kind }
{
    matches!(kind, Kind::Plus | Kind::Minus | Kind::Tilde)
}

/// An operand after the operator that a token of the kind is.
pub fn with_operator(
    alloc: Global,
    operator: Kind,
    operand: HeldExpr,
    span: Span,
) -> Result<HeldExpr, AllocError>
    requires { firsts.is_sign operator ≡ true }
    ensures means { IfOk result (λ e. expression_of e ≡ after_operator operator (span_of span) (expression_of operand)) }
    ensures spans { IfOk result (λ e. e.tree.value.span ≡ span) }
{
    match operator {
        Kind::Plus => plus(alloc, operand, span),
        Kind::Minus => minus(alloc, operand, span),
        _ => bit_not(alloc, operand, span),
    }
}

/// The binary operator that a token of the kind is; `not` begins `not in`.
pub fn binary_operator(kind: Kind) -> Option<BinOp>
    ensures { result ≡ spec.binary_operator kind }
{
    match kind {
        Kind::Or => Some(BinOp::Or),
        Kind::And => Some(BinOp::And),
        Kind::EqualEqual => Some(BinOp::Equal),
        Kind::BangEqual => Some(BinOp::NotEqual),
        Kind::LessThan => Some(BinOp::Less),
        Kind::GreaterThan => Some(BinOp::Greater),
        Kind::LessEqual => Some(BinOp::LessOrEqual),
        Kind::GreaterEqual => Some(BinOp::GreaterOrEqual),
        Kind::In => Some(BinOp::In),
        Kind::Not => Some(BinOp::NotIn),
        Kind::Pipe => Some(BinOp::BitOr),
        Kind::Caret => Some(BinOp::BitXor),
        Kind::Ampersand => Some(BinOp::BitAnd),
        Kind::LessLess => Some(BinOp::LeftShift),
        Kind::GreaterGreater => Some(BinOp::RightShift),
        Kind::Plus => Some(BinOp::Add),
        Kind::Minus => Some(BinOp::Subtract),
        Kind::Star => Some(BinOp::Multiply),
        Kind::Slash => Some(BinOp::Divide),
        Kind::SlashSlash => Some(BinOp::FloorDivide),
        Kind::Percent => Some(BinOp::Percent),
        _ => None,
    }
}

/// The binary operator that a token of the kind is, if it binds more tightly than comparisons.
pub fn tight_operator(kind: Kind) -> Option<BinOp>
    ensures { result ≡ spec.tight_operator kind }
{
    match kind {
        Kind::Pipe => Some(BinOp::BitOr),
        Kind::Caret => Some(BinOp::BitXor),
        Kind::Ampersand => Some(BinOp::BitAnd),
        Kind::LessLess => Some(BinOp::LeftShift),
        Kind::GreaterGreater => Some(BinOp::RightShift),
        Kind::Plus => Some(BinOp::Add),
        Kind::Minus => Some(BinOp::Subtract),
        Kind::Star => Some(BinOp::Multiply),
        Kind::Slash => Some(BinOp::Divide),
        Kind::SlashSlash => Some(BinOp::FloorDivide),
        Kind::Percent => Some(BinOp::Percent),
        _ => None,
    }
}
