//! What is due after tokens that begin a program.
use starlark_lexer::kind::Kind;

/// The levels of the binary operators, the loosest first.
#[derive(Clone, Copy)]
pub enum Level {
    Or,
    And,
    BitOr,
    Xor,
    BitAnd,
    Shift,
    Add,
    Multiply,
}

/// The lists with commas between their elements that are in delimiters, and the parameters of a `lambda`.
#[derive(Clone, Copy)]
pub enum Listed {
    Elements,
    Arguments,
    Entries,
    LambdaParameters,
    Symbols,
    DefParameters,
}

/// A part of a program that is due. What is called a tail may be empty.
#[derive(Clone, Copy)]
pub enum Word {
    /// A token of the kind.
    Token(Kind),
    /// Statements and ends of lines up to the end.
    ModuleTail,
    Statement,
    /// A line of small statements, or a block.
    Suite,
    /// Ends of lines.
    NewlinesTail,
    /// Statements and ends of lines up to the end of their block.
    BlockTail,
    /// `elif` or `else`.
    IfTail,
    /// `->` and a type.
    ReturnTypeTail,
    /// `:` and a type.
    TypeTail,
    /// `=` and the default of a parameter.
    DefaultTail,
    /// The name after a `*` in the parameters of a `def`, and its type.
    StarTail,
    /// The name after a `*` in the parameters of a `lambda`.
    LambdaStarTail,
    /// `;` or the end of a line.
    LineEnd,
    /// After a `;`: a small statement, or the end of the line.
    AfterSemicolon,
    /// What `return` returns.
    ReturnTail,
    /// After the first expression of a statement: a comma, or an assignment.
    StatementTail,
    /// After several expressions of a statement: an assignment.
    Assignment,
    /// The operator of an assignment.
    AssignSign,
    /// A comma, after an expression without delimiters around it.
    TupleTail,
    /// An expression, after a comma without delimiters around it.
    AfterTupleComma,
    /// A comma and the symbols of a `load`.
    SymbolsTail,
    /// `=` and a string, after the name of a symbol.
    SymbolTail,
    /// An expression.
    Test,
    /// `if` and what it chooses.
    ChoiceTail,
    /// Operands with operators of the level between them, or an operand alone.
    Operands(Level),
    /// An operator of the level and what comes after it.
    OperatorTail(Level),
    /// An operand of `and`.
    NotTest,
    /// The operator of a comparison and an operand.
    ComparisonTail,
    /// After a comparison: not the operator of another.
    Compared,
    /// An operand of `*` and its like.
    Unary,
    /// `.`, `[` or `(`, after an operand.
    SuffixTail,
    /// What is between the square brackets of an index or of a slice.
    Subscript,
    /// After the first expression of a subscript.
    SubscriptTail,
    /// After the second bound of a slice.
    SliceTail,
    /// A bound of a slice, or nothing.
    BoundTail,
    /// The elements of a list.
    ListTail(Listed),
    /// A comma, after an element of a list.
    CommaTail(Listed),
    /// An element, after a comma of a list.
    AfterComma(Listed),
    /// `=` and a value, after an argument that is a name.
    NamedTail,
    /// What is after `[`, up to `]`.
    Square,
    /// What is after the first element in `[`, up to `]`.
    SquareRest,
    /// What is after `{`, up to `}`.
    Curly,
    /// What is after the first entry in `{`, up to `}`.
    CurlyRest,
    /// Text and holes of an f-string.
    PartsTail,
    /// `!` in a hole of an f-string.
    ConversionTail,
    /// The name after a `!`.
    ConversionNameTail,
    /// A comma, after a variable of a loop.
    VariablesTail,
    /// A variable, after a comma of a loop's variables.
    AfterVariablesComma,
    /// The clauses of a comprehension after the first.
    ClausesTail,
}
