//! Literals, and the numbers of operators.
ghost use Rattle.std.specs.Prelude.{◌≡◌};
ghost use Rattle.starlark_compact.specs.Adds.{Adds};
ghost use Rattle.starlark_compact.specs.Kinds.{operator_number as operator_number_of, assign_operator_number as assign_operator_number_of};
ghost use Rattle.starlark_compact.specs.Trees.{literal_bytes, number_bytes};
ghost use Rattle.starlark_lexer.specs.Tokens.{span_of, number as number_of};
ghost use Rattle.starlark_tree.specs.Views.{literal_seen};

use crate::kind::Kind;
use crate::write::{write_node, write_numbered, write_valued};
use starlark_lexer::codemap::Span;
use starlark_lexer::token::TokenInt;
use starlark_tree::ast::{AssignOp, AstLiteral, BinOp};
use std::alloc::AllocError;

/// A literal, at the span of its expression.
pub(crate) fn write_literal(
    out: &mut Vec<u8>,
    literal: &AstLiteral,
    span: Span,
) -> Result<(), AllocError>
    ensures { Adds result out.old out.new (literal_bytes (span_of span) (literal_seen literal.now)) }
{
    match literal {
        AstLiteral::Int(number) => write_int(out, &number.node, span),
        AstLiteral::Float(text) => {
            write_valued(out, Kind::Float, span, text.node.as_str().as_bytes())
        }
        AstLiteral::String(text) => {
            write_valued(out, Kind::String, span, text.node.as_str().as_bytes())
        }
        AstLiteral::Bytes(bytes) => write_valued(out, Kind::Bytes, span, &bytes.node),
        AstLiteral::Ellipsis => write_node(out, Kind::Ellipsis, span),
    }
}

/// A whole number of 32 bits in two's complement, a larger one as its source text.
fn write_int(out: &mut Vec<u8>, number: &TokenInt, span: Span) -> Result<(), AllocError>
    ensures { Adds result out.old out.new (number_bytes (span_of span) (number_of number.now)) }
{
    match number {
        TokenInt::I32(value) => write_numbered(out, Kind::Int, span, value.cast_unsigned()),
        TokenInt::BigInt(text) => {
            write_valued(out, Kind::BigInt, span, text.as_str().as_bytes())
        }
    }
}

/// The number of an operator.
pub(crate) fn operator_number(operator: BinOp) -> u32
    ensures { result ≡ operator_number_of operator }
{
    operator as u32
}

/// The number of the operator of an augmented assignment.
pub(crate) fn assign_operator_number(operator: AssignOp) -> u32
    ensures { result ≡ assign_operator_number_of operator }
{
    operator as u32
}
