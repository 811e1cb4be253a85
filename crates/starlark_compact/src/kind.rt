//! The kinds of nodes.
ghost use Rattle.std.specs.Prelude.{◌≡◌};
ghost use Rattle.starlark_compact.specs.Kinds.{kind_number};

/// The kind of a node. docs/COMPACT.md lists the parts and fields of each.
#[derive(Clone, Copy, Debug, PartialEq, Eq)]
pub enum Kind {
    Tuple = 1,
    Dot = 2,
    Call = 3,
    Index = 4,
    Index2 = 5,
    Slice = 6,
    Identifier = 7,
    Lambda = 8,
    Int = 9,
    BigInt = 10,
    Float = 11,
    String = 12,
    Bytes = 13,
    Ellipsis = 14,
    Not = 15,
    Minus = 16,
    Plus = 17,
    BitNot = 18,
    Op = 19,
    Conditional = 20,
    List = 21,
    Dict = 22,
    ListComprehension = 23,
    DictComprehension = 24,
    FString = 25,
    /// An optional expression that is not there.
    Absent = 26,
    /// An optional expression that is there.
    Present = 27,
    /// An optional type that is not there.
    NoType = 28,
    /// A type.
    TypeExpr = 29,
    Positional = 30,
    Named = 31,
    /// `*e` among arguments.
    Args = 32,
    /// `**e` among arguments.
    KwArgs = 33,
    Slash = 34,
    Normal = 35,
    /// A bare `*` among parameters.
    NoArgs = 36,
    /// `*name` among parameters.
    ArgsParameter = 37,
    /// `**name` among parameters.
    KwArgsParameter = 38,
    ForClause = 39,
    IfClause = 40,
    TupleTarget = 41,
    IndexTarget = 42,
    DotTarget = 43,
    IdentifierTarget = 44,
    Break = 45,
    Continue = 46,
    Pass = 47,
    Return = 48,
    Expression = 49,
    Assign = 50,
    AssignModify = 51,
    Statements = 52,
    If = 53,
    IfElse = 54,
    For = 55,
    Def = 56,
    Load = 57,
}

impl Kind {
    /// The number with which a node of this kind begins.
    pub fn number(self) -> u32
        ensures { result ≡ kind_number self }
    {
        self as u32
    }
}
