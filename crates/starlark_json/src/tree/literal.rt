//! Literals, and the names of operators.
ghost use Rattle.std.specs.Prelude.{◌≡◌, codes, flat_map};
ghost use Rattle.json.specs.Json.{string, array};
ghost use Rattle.json.specs.Tree.{json_tokens, members_tokens};
ghost use Rattle.starlark_lexer.specs.Tokens.{span_of, number as number_of};
ghost use Rattle.starlark_tree.specs.Views.{literal_seen};
ghost use Rattle.starlark_json.specs.Tree.Adds.{Adds};
ghost use Rattle.starlark_json.specs.Tree.Fields.{node, valued, literal_fields, number_fields, numbers_json, operator_name as operator_name_of};
ghost use Rattle.starlark_json.specs.Tree.Fields.{assign_operator_name as assign_operator_name_of};
ghost use Rattle.starlark_json.specs.Tree.Tokens.{number_tokens};

use crate::tree::leaf::{write_head, write_text};
use json::Writer;
use starlark_lexer::codemap::Span;
use starlark_lexer::token::TokenInt;
use starlark_tree::ast::{AssignOp, AstLiteral, BinOp};
use std::alloc::AllocError;

/// A literal, at the span of its expression.
pub(crate) fn write_literal(
    out: &mut Writer,
    literal: &AstLiteral,
    span: Span,
) -> Result<(), AllocError>
    ensures { Adds result out.old out.new (json_tokens (node (codes "expr") (codes "Literal") (span_of span) (literal_fields (literal_seen literal.now)))) }
{
    write_head(out, "expr", "Literal", span)?;
    write_fields(out, literal)
}

/// The fields of a literal, and the end of its node.
fn write_fields(out: &mut Writer, literal: &AstLiteral) -> Result<(), AllocError>
    ensures { Adds result out.old out.new (members_tokens (literal_fields (literal_seen literal.now))) }
{
    match literal {
        AstLiteral::Int(number) => write_int(out, &number.node),
        AstLiteral::Float(text) => write_value(out, "Float", text.node.as_str()),
        AstLiteral::String(text) => write_value(out, "String", text.node.as_str()),
        AstLiteral::Bytes(bytes) => write_bytes(out, &bytes.node),
        AstLiteral::Ellipsis => {
            write_text(out, "literal", "Ellipsis")?;
            out.end_object()
        }
    }
}

/// A literal's kind and its value as a text, and the end of its node.
fn write_value(out: &mut Writer, kind: &str, text: &str) -> Result<(), AllocError>
    ensures { Adds result out.old out.new (members_tokens (valued kind.now (string text.now))) }
{
    write_text(out, "literal", kind)?;
    write_text(out, "value", text)?;
    out.end_object()
}

/// A whole number of 32 bits as a number, a larger one as its source text, and the end of its node.
fn write_int(out: &mut Writer, number: &TokenInt) -> Result<(), AllocError>
    ensures { Adds result out.old out.new (members_tokens (number_fields (number_of number.now))) }
{
    match number {
        TokenInt::I32(value) => {
            write_text(out, "literal", "Int")?;
            out.key("value")?;
            out.i64(i64::from(*value))?;
            out.end_object()
        }
        TokenInt::BigInt(text) => write_value(out, "BigInt", text.as_str()),
    }
}

/// Bytes as an array of numbers, and the end of their node.
fn write_bytes(out: &mut Writer, bytes: &[u8]) -> Result<(), AllocError>
    ensures { Adds result out.old out.new (members_tokens (valued (codes "Bytes") (array (numbers_json bytes.now)))) }
{
    write_text(out, "literal", "Bytes")?;
    out.key("value")?;
    out.begin_array()?;
    write_numbers(out, bytes)?;
    out.end_array()?;
    out.end_object()
}

/// The items of an array of numbers.
fn write_numbers(out: &mut Writer, bytes: &[u8]) -> Result<(), AllocError>
    ensures { Adds result out.old out.new (flat_map number_tokens bytes.now) }
{
    for byte in bytes {
        out.u64(u64::from(*byte))?;
    }
    Ok(())
}

/// The name of an operator, that of its variant.
pub(crate) fn operator_name(operator: BinOp) -> &'static str
    ensures { result.now ≡ operator_name_of operator }
{
    match operator {
        BinOp::Or => "Or",
        BinOp::And => "And",
        BinOp::Equal => "Equal",
        BinOp::NotEqual => "NotEqual",
        BinOp::Less => "Less",
        BinOp::Greater => "Greater",
        BinOp::LessOrEqual => "LessOrEqual",
        BinOp::GreaterOrEqual => "GreaterOrEqual",
        BinOp::In => "In",
        BinOp::NotIn => "NotIn",
        BinOp::Subtract => "Subtract",
        BinOp::Add => "Add",
        BinOp::Multiply => "Multiply",
        BinOp::Percent => "Percent",
        BinOp::Divide => "Divide",
        BinOp::FloorDivide => "FloorDivide",
        BinOp::BitAnd => "BitAnd",
        BinOp::BitOr => "BitOr",
        BinOp::BitXor => "BitXor",
        BinOp::LeftShift => "LeftShift",
        BinOp::RightShift => "RightShift",
    }
}

/// The name of the operator of an augmented assignment, that of its variant.
pub(crate) fn assign_operator_name(operator: AssignOp) -> &'static str
    ensures { result.now ≡ assign_operator_name_of operator }
{
    match operator {
        AssignOp::Add => "Add",
        AssignOp::Subtract => "Subtract",
        AssignOp::Multiply => "Multiply",
        AssignOp::Divide => "Divide",
        AssignOp::FloorDivide => "FloorDivide",
        AssignOp::Percent => "Percent",
        AssignOp::BitAnd => "BitAnd",
        AssignOp::BitOr => "BitOr",
        AssignOp::BitXor => "BitXor",
        AssignOp::LeftShift => "LeftShift",
        AssignOp::RightShift => "RightShift",
    }
}
