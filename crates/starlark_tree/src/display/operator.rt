//! The text of operators, with the spaces around them.
ghost use Rattle.std.specs.Prelude.{Some};
ghost use Rattle.starlark_tree.specs.Operators.{operator_text, assign_operator_text};

use crate::ast::{AssignOp, BinOp};
use std::fmt;

/// The operator between two spaces (Starlark specification, "Binary operators").
impl fmt::Display for BinOp {
    ghost output = { λ operator. Some (operator_text operator) };

    fn fmt<W: fmt::Write>(&self, f: &mut fmt::Formatter<W>) -> fmt::Result {
        f.write_str(match self {
            BinOp::Or => " or ",
            BinOp::And => " and ",
            BinOp::Equal => " == ",
            BinOp::NotEqual => " != ",
            BinOp::Less => " < ",
            BinOp::Greater => " > ",
            BinOp::LessOrEqual => " <= ",
            BinOp::GreaterOrEqual => " >= ",
            BinOp::In => " in ",
            BinOp::NotIn => " not in ",
            BinOp::Subtract => " - ",
            BinOp::Add => " + ",
            BinOp::Multiply => " * ",
            BinOp::Percent => " % ",
            BinOp::Divide => " / ",
            BinOp::FloorDivide => " // ",
            BinOp::BitAnd => " & ",
            BinOp::BitOr => " | ",
            BinOp::BitXor => " ^ ",
            BinOp::LeftShift => " << ",
            BinOp::RightShift => " >> ",
        })
    }
}

/// The operator with its `=`, between two spaces (Starlark specification, "Augmented assignments").
impl fmt::Display for AssignOp {
    ghost output = { λ operator. Some (assign_operator_text operator) };

    fn fmt<W: fmt::Write>(&self, f: &mut fmt::Formatter<W>) -> fmt::Result {
        f.write_str(match self {
            AssignOp::Add => " += ",
            AssignOp::Subtract => " -= ",
            AssignOp::Multiply => " *= ",
            AssignOp::Divide => " /= ",
            AssignOp::FloorDivide => " //= ",
            AssignOp::Percent => " %= ",
            AssignOp::BitAnd => " &= ",
            AssignOp::BitOr => " |= ",
            AssignOp::BitXor => " ^= ",
            AssignOp::LeftShift => " <<= ",
            AssignOp::RightShift => " >>= ",
        })
    }
}
