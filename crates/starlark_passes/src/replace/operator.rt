//! The names of operators.
ghost use Rattle.std.specs.Prelude.{◌≡◌};
ghost use Rattle.starlark_passes.specs.Replace.Replacing.{operator_name as name_of};

use starlark_tree::ast::BinOp;

/// The operator as it is written, without spaces around it.
pub(crate) fn operator_name(operator: BinOp) -> &'static str
    ensures { result.now ≡ name_of operator }
{
    match operator {
        BinOp::Or => "or",
        BinOp::And => "and",
        BinOp::Equal => "==",
        BinOp::NotEqual => "!=",
        BinOp::Less => "<",
        BinOp::Greater => ">",
        BinOp::LessOrEqual => "<=",
        BinOp::GreaterOrEqual => ">=",
        BinOp::In => "in",
        BinOp::NotIn => "not in",
        BinOp::Subtract => "-",
        BinOp::Add => "+",
        BinOp::Multiply => "*",
        BinOp::Percent => "%",
        BinOp::Divide => "/",
        BinOp::FloorDivide => "//",
        BinOp::BitAnd => "&",
        BinOp::BitOr => "|",
        BinOp::BitXor => "^",
        BinOp::LeftShift => "<<",
        BinOp::RightShift => ">>",
    }
}
