//! The types of the tree. A type whose name ends in `P` has the payloads of its parameter; a name that begins with `Ast`
//! is the type of a value with its span, a span of byte offsets in the file's text.
use starlark_lexer::span::Spanned;
use starlark_lexer::token::TokenInt;

mod argument;
mod equality;
pub mod operator;
mod parameter;
pub mod payload;
pub mod plain;
mod signature;
pub mod to_ast;

pub use crate::ast::operator::{AssignOp, BinOp, Visibility};
pub use crate::ast::payload::{AstNoPayload, AstPayload};
pub use crate::ast::plain::{
    Argument, AssignIdent, AssignTarget, AstArgument, AstAssignIdent, AstAssignTarget, AstExpr,
    AstFString, AstIdent, AstParameter, AstStmt, AstTypeExpr, Clause, Expr, ForClause, Ident, Load,
    Parameter, Stmt, TypeExpr,
};
pub use crate::ast::to_ast::ToAst;
pub use crate::display::literal::Quoted;

/// An expression, and where it is.
pub type AstExprP<P> = Spanned<ExprP<P>>;

/// A type, and where it is.
pub type AstTypeExprP<P> = Spanned<TypeExprP<P>>;

/// A target of an assignment, and where it is.
pub type AstAssignTargetP<P> = Spanned<AssignTargetP<P>>;

/// A name that is assigned to, and where it is.
pub type AstAssignIdentP<P> = Spanned<AssignIdentP<P>>;

/// A name that is read, and where it is.
pub type AstIdentP<P> = Spanned<IdentP<P>>;

/// An argument of a call, and where it is.
pub type AstArgumentP<P> = Spanned<ArgumentP<P>>;

/// A parameter, and where it is.
pub type AstParameterP<P> = Spanned<ParameterP<P>>;

/// A statement, and where it is.
pub type AstStmtP<P> = Spanned<StmtP<P>>;

/// An f-string, and where it is.
pub type AstFStringP<P> = Spanned<FStringP<P>>;

/// A text with its span: an attribute's or argument's name, or the value of a string literal.
pub type AstString = Spanned<String>;

/// The value of a bytes literal.
pub type AstBytes = Spanned<Vec<u8>>;

/// The value of an integer literal, or its source text if it does not fit 32 bits.
pub type AstInt = Spanned<TokenInt>;

/// The source text of a float literal.
pub type AstFloat = Spanned<String>;

/// A comma, of which only the position matters.
#[derive(Clone, Copy, Debug)]
pub struct Comma;

/// A literal (Starlark specification, "Lexical elements").
#[derive(Debug, Drop)]
pub enum AstLiteral {
    Int(AstInt),
    Float(AstFloat),
    String(AstString),
    Bytes(AstBytes),
    Ellipsis,
}

/// A name that is read (Starlark specification, "Identifiers").
#[derive(Debug, Drop)]
pub struct IdentP<P: AstPayload> {
    pub ident: String,
    pub payload: P::IdentPayload,
}

/// A name that is bound.
#[derive(Debug, Drop)]
pub struct AssignIdentP<P: AstPayload> {
    pub ident: String,
    pub payload: P::IdentAssignPayload,
}

/// An argument of a call (Starlark specification, "Function and method calls").
#[cycle(ast)]
#[derive(Debug, Drop)]
pub enum ArgumentP<P: AstPayload> {
    Positional(AstExprP<P>),
    Named(AstString, AstExprP<P>),
    /// `*e`
    Args(AstExprP<P>),
    /// `**e`
    KwArgs(AstExprP<P>),
}

/// A parameter of a function or lambda (Starlark specification, "Function definitions").
#[cycle(ast)]
#[derive(Debug, Drop)]
pub enum ParameterP<P: AstPayload> {
    /// `/`: the parameters before it are passed by position only.
    Slash,
    /// A name with its type and its default value.
    Normal(AstAssignIdentP<P>, Option<Box<AstTypeExprP<P>>>, Option<Box<AstExprP<P>>>),
    /// `*`: the parameters after it are passed by name only.
    NoArgs,
    /// `*name`, with its type.
    Args(AstAssignIdentP<P>, Option<Box<AstTypeExprP<P>>>),
    /// `**name`, with its type.
    KwArgs(AstAssignIdentP<P>, Option<Box<AstTypeExprP<P>>>),
}

/// A lambda (Starlark specification, "Lambda expressions").
#[cycle(ast)]
#[derive(Debug, Drop)]
pub struct LambdaP<P: AstPayload> {
    pub params: Vec<AstParameterP<P>>,
    pub body: Box<AstExprP<P>>,
    pub payload: P::DefPayload,
}

/// The arguments of a call, in order.
#[cycle(ast)]
#[derive(Debug, Drop)]
pub struct CallArgsP<P: AstPayload> {
    pub args: Vec<AstArgumentP<P>>,
}

/// An expression (Starlark specification, "Expressions").
#[cycle(ast)]
#[derive(Debug, Drop)]
pub enum ExprP<P: AstPayload> {
    Tuple(Vec<AstExprP<P>>),
    Dot(Box<AstExprP<P>>, AstString),
    Call(Box<AstExprP<P>>, CallArgsP<P>),
    /// `a[i]`
    Index(Box<(AstExprP<P>, AstExprP<P>)>),
    /// `a[i, j]`
    Index2(Box<(AstExprP<P>, AstExprP<P>, AstExprP<P>)>),
    /// `a[start:stop:step]`
    Slice(
        Box<AstExprP<P>>,
        Option<Box<AstExprP<P>>>,
        Option<Box<AstExprP<P>>>,
        Option<Box<AstExprP<P>>>,
    ),
    Identifier(AstIdentP<P>),
    Lambda(LambdaP<P>),
    Literal(AstLiteral),
    Not(Box<AstExprP<P>>),
    Minus(Box<AstExprP<P>>),
    Plus(Box<AstExprP<P>>),
    BitNot(Box<AstExprP<P>>),
    Op(Box<AstExprP<P>>, BinOp, Box<AstExprP<P>>),
    /// The condition, the value if it holds, and the other value.
    If(Box<(AstExprP<P>, AstExprP<P>, AstExprP<P>)>),
    List(Vec<AstExprP<P>>),
    /// Each key with its value.
    Dict(Vec<(AstExprP<P>, AstExprP<P>)>),
    ListComprehension(Box<AstExprP<P>>, Box<ForClauseP<P>>, Vec<ClauseP<P>>),
    DictComprehension(Box<(AstExprP<P>, AstExprP<P>)>, Box<ForClauseP<P>>, Vec<ClauseP<P>>),
    FString(AstFStringP<P>),
}

/// A type annotation: an expression.
#[cycle(ast)]
#[derive(Debug, Drop)]
pub struct TypeExprP<P: AstPayload> {
    pub expr: AstExprP<P>,
    pub payload: P::TypeExprPayload,
}

/// The target of an assignment (Starlark specification, "Assignments").
#[cycle(ast)]
#[derive(Debug, Drop)]
pub enum AssignTargetP<P: AstPayload> {
    Tuple(Vec<AstAssignTargetP<P>>),
    Index(Box<(AstExprP<P>, AstExprP<P>)>),
    Dot(Box<AstExprP<P>>, AstString),
    Identifier(AstAssignIdentP<P>),
}

/// An assignment, with the type of its target.
#[derive(Debug, Drop)]
pub struct AssignP<P: AstPayload> {
    pub lhs: AstAssignTargetP<P>,
    pub ty: Option<AstTypeExprP<P>>,
    pub rhs: AstExprP<P>,
}

/// A name that a load binds: the name in this module, and the name in the loaded module.
#[derive(Debug, Drop)]
pub struct LoadArgP<P: AstPayload> {
    pub local: AstAssignIdentP<P>,
    pub their: AstString,
    /// The comma after it, if there is one.
    pub comma: Option<Spanned<Comma>>,
}

/// A load statement (Starlark specification, "Load statements").
#[derive(Debug, Drop)]
pub struct LoadP<P: AstPayload> {
    pub module: AstString,
    pub args: Vec<LoadArgP<P>>,
    pub payload: P::LoadPayload,
}

/// `for var in over`, in a comprehension (Starlark specification, "Comprehensions").
#[cycle(ast)]
#[derive(Debug, Drop)]
pub struct ForClauseP<P: AstPayload> {
    pub var: AstAssignTargetP<P>,
    pub over: AstExprP<P>,
}

/// A clause of a comprehension, after the first.
#[cycle(ast)]
#[derive(Debug, Drop)]
pub enum ClauseP<P: AstPayload> {
    For(ForClauseP<P>),
    If(AstExprP<P>),
}

/// A function definition (Starlark specification, "Function definitions").
#[cycle(statement)]
#[derive(Debug, Drop)]
pub struct DefP<P: AstPayload> {
    pub name: AstAssignIdentP<P>,
    pub params: Vec<AstParameterP<P>>,
    pub return_type: Option<Box<AstTypeExprP<P>>>,
    pub body: Box<AstStmtP<P>>,
    pub payload: P::DefPayload,
}

/// A for statement (Starlark specification, "For loops").
#[cycle(statement)]
#[derive(Debug, Drop)]
pub struct ForP<P: AstPayload> {
    pub var: AstAssignTargetP<P>,
    pub over: AstExprP<P>,
    pub body: Box<AstStmtP<P>>,
}

/// An f-string: its text with a `{}` for each expression, and the expressions.
#[cycle(ast)]
#[derive(Debug, Drop)]
pub struct FStringP<P: AstPayload> {
    pub format: AstString,
    pub expressions: Vec<AstExprP<P>>,
}

/// A statement (Starlark specification, "Statements").
#[cycle(statement)]
#[derive(Debug, Drop)]
pub enum StmtP<P: AstPayload> {
    Break,
    Continue,
    Pass,
    Return(Option<AstExprP<P>>),
    Expression(AstExprP<P>),
    Assign(AssignP<P>),
    AssignModify(AstAssignTargetP<P>, AssignOp, Box<AstExprP<P>>),
    /// Statements one after another.
    Statements(Vec<AstStmtP<P>>),
    /// An `if` without `else`.
    If(AstExprP<P>, Box<AstStmtP<P>>),
    IfElse(AstExprP<P>, Box<(AstStmtP<P>, AstStmtP<P>)>),
    For(ForP<P>),
    Def(DefP<P>),
    Load(LoadP<P>),
}
