//! How tightly expressions bind (Starlark specification, "Binary operators").
ghost use Rattle.std.specs.Prelude.{◌≡◌};
ghost use Rattle.starlark_tree.specs.Views.{shape_seen};
ghost use Rattle.starlark_source.specs.Levels as levels;

use starlark_tree::ast::{AstLiteral, BinOp, Expr};

/// How tightly an expression binds, from loose to tight.
#[derive(Clone, Copy)]
pub(crate) enum Level {
    /// A lambda or a conditional expression.
    Test,
    Or,
    And,
    Not,
    Comparison,
    BitOr,
    Xor,
    BitAnd,
    Shift,
    Add,
    Multiply,
    /// A unary operator and its operand.
    Unary,
    /// A number: a dot after it would be part of it.
    Number,
    /// An operand that a dot may follow.
    Primary,
}

impl Level {
    fn rank(self) -> u8
        ensures { result ≡ levels.rank self }
    {
        match self {
            Level::Test => 0,
            Level::Or => 1,
            Level::And => 2,
            Level::Not => 3,
            Level::Comparison => 4,
            Level::BitOr => 5,
            Level::Xor => 6,
            Level::BitAnd => 7,
            Level::Shift => 8,
            Level::Add => 9,
            Level::Multiply => 10,
            Level::Unary => 11,
            Level::Number => 12,
            Level::Primary => 13,
        }
    }

    /// Whether this level binds less tightly than another.
    fn is_looser(self, than: Level) -> bool
        ensures { result ≡ levels.is_looser self than }
    {
        self.rank() < than.rank()
    }
}

/// Whether the expression needs parentheses where one of this level is allowed.
pub(crate) fn needs_brackets(e: &Expr, level: Level) -> bool
    ensures { result ≡ levels.is_looser (levels.level_of (shape_seen e.now)) level }
{
    level_of(e).is_looser(level)
}

/// The level of an expression.
fn level_of(e: &Expr) -> Level
    ensures { result ≡ levels.level_of (shape_seen e.now) }
{
    match e {
        Expr::Lambda(_) => Level::Test,
        Expr::If(_) => Level::Test,
        Expr::Op(_, operator, _) => level_of_operator(*operator),
        Expr::Not(_) => Level::Not,
        Expr::Minus(_) => Level::Unary,
        Expr::Plus(_) => Level::Unary,
        Expr::BitNot(_) => Level::Unary,
        Expr::Literal(AstLiteral::Int(_)) => Level::Number,
        Expr::Literal(AstLiteral::Float(_)) => Level::Number,
        _ => Level::Primary,
    }
}

/// The level of an operation with this operator.
pub(crate) fn level_of_operator(operator: BinOp) -> Level
    ensures { result ≡ levels.level_of_operator operator }
{
    match operator {
        BinOp::Or => Level::Or,
        BinOp::And => Level::And,
        BinOp::Equal => Level::Comparison,
        BinOp::NotEqual => Level::Comparison,
        BinOp::Less => Level::Comparison,
        BinOp::Greater => Level::Comparison,
        BinOp::LessOrEqual => Level::Comparison,
        BinOp::GreaterOrEqual => Level::Comparison,
        BinOp::In => Level::Comparison,
        BinOp::NotIn => Level::Comparison,
        BinOp::BitOr => Level::BitOr,
        BinOp::BitXor => Level::Xor,
        BinOp::BitAnd => Level::BitAnd,
        BinOp::LeftShift => Level::Shift,
        BinOp::RightShift => Level::Shift,
        BinOp::Add => Level::Add,
        BinOp::Subtract => Level::Add,
        BinOp::Multiply => Level::Multiply,
        BinOp::Percent => Level::Multiply,
        BinOp::Divide => Level::Multiply,
        BinOp::FloorDivide => Level::Multiply,
    }
}

/// The level allowed to the left of an operator of a level: comparisons do not chain, and all others associate to the left.
pub(crate) fn left_of(level: Level) -> Level
    ensures { result ≡ levels.left_of level }
{
    match level {
        Level::Comparison => Level::BitOr,
        other => other,
    }
}

/// The level allowed to the right of an operator of a level: what binds more tightly.
pub(crate) fn right_of(level: Level) -> Level
    ensures { result ≡ levels.right_of level }
{
    match level {
        Level::Test => Level::Or,
        Level::Or => Level::And,
        Level::And => Level::Not,
        Level::Not => Level::Comparison,
        Level::Comparison => Level::BitOr,
        Level::BitOr => Level::Xor,
        Level::Xor => Level::BitAnd,
        Level::BitAnd => Level::Shift,
        Level::Shift => Level::Add,
        Level::Add => Level::Multiply,
        Level::Multiply => Level::Unary,
        Level::Unary => Level::Number,
        Level::Number => Level::Primary,
        Level::Primary => Level::Primary,
    }
}
