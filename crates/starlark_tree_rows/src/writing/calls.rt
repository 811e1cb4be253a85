//! The calls of a closure, and what they leave at the nodes that they write.
ghost use Rattle.std.specs.Prelude.{◌≡◌, ◌≤◌};
ghost use Rattle.starlark_tree.specs.Views.{expression_of};
ghost use Rattle.starlark_uniplate_mut.specs.Types.Types.{types_in};

use starlark_lexer::span::{Span, Spanned};
use starlark_parse_held::{HeldExpr, HeldStmt, HeldTree};
use starlark_tree::ast::{AstExpr, AstLiteral, AstNoPayload, AstStmt, ExprP, StmtP};
use starlark_uniplate_mut::uniplate_mut::VisitMut;
use std::alloc::{AllocError, Global};
use std::convert::Infallible;
use std::mem;

/// A closure fails.
#[derive(Clone, Copy)]
pub struct Stop;

/// What replaces an expression.
#[derive(Clone, Copy)]
pub enum Left {
    /// `...`
    Dots,
    /// `not`, and after it the expression.
    Not,
}

/// The calls of a closure.
#[derive(Drop)]
pub struct Calls {
    alloc: Global,
    left: Left,
    /// How many were made.
    pub made: u32,
    /// After how many others the call is made that fails.
    last: Option<u32>,
    /// Whether an expression was left unchanged, since an allocation failed.
    pub is_out_of_memory: bool,
}

impl Calls {
    /// Of no calls yet.
    pub fn new(alloc: Global, left: Left, last: Option<u32>) -> Calls {
        Calls {
            alloc,
            left,
            made: 0,
            last,
            is_out_of_memory: false,
        }
    }

    /// Counts a call.
    pub fn count(&mut self) -> Result<(), Stop> {
        let is_last = self.last == Some(self.made);
        self.made = self.made.saturating_add(1);
        if is_last { Err(Stop) } else { Ok(()) }
    }

    /// Writes an expression, and counts the call.
    pub fn write_expr(&mut self, expr: &mut AstExpr) -> Result<(), Stop>
        ensures { types_in (expression_of expr.new) ≤ types_in (expression_of expr.old) }
    {
        match self.left {
            Left::Dots => leave_dots(expr),
            Left::Not => {
                if leave_not(self.alloc, expr).is_err() {
                    self.is_out_of_memory = true;
                }
            }
        }
        self.count()
    }

    /// Writes a statement, and counts the call.
    pub fn write_stmt(&mut self, stmt: &mut AstStmt) -> Result<(), Stop> {
        leave_pass(self.alloc, stmt);
        self.count()
    }
}

/// The expression `...`.
fn dots(span: Span) -> HeldTree
    ensures { types_in (expression_of result.tree) ≡ 0 }
{
    HeldTree {
        tree: Spanned {
            span,
            node: ExprP::Literal(AstLiteral::Ellipsis),
        },
    }
}

/// Replaces an expression by `...`.
fn leave_dots(expr: &mut AstExpr)
    ensures { types_in (expression_of expr.new) ≤ types_in (expression_of expr.old) }
{
    let dots = dots(expr.span);
    let _cleared = HeldTree {
        tree: mem::replace(expr, dots.into_tree()),
    };
}

/// Leaves an expression after a `not`. If an allocation fails, the expression is unchanged.
fn leave_not(alloc: Global, expr: &mut AstExpr) -> Result<(), AllocError>
    ensures { types_in (expression_of expr.new) ≤ types_in (expression_of expr.old) }
{
    let span = expr.span;
    let mut operand = HeldExpr::new(alloc, dots(span).into_tree())?;
    mem::swap(&mut *operand.tree, expr);
    let node = ExprP::Not(operand.into_box());
    let _dots = HeldTree {
        tree: mem::replace(expr, Spanned { span, node }),
    };
    Ok(())
}

/// Replaces a statement by `pass`.
fn leave_pass(alloc: Global, stmt: &mut AstStmt) {
    let pass = Spanned {
        span: stmt.span,
        node: StmtP::Pass,
    };
    let _cleared = HeldStmt::new(alloc, mem::replace(stmt, pass));
}

impl VisitMut<AstNoPayload, Infallible> for Calls {
    fn stmt(&mut self, stmt: &mut AstStmt) -> Result<(), Infallible> {
        let _ = self.write_stmt(stmt);
        Ok(())
    }

    fn expr(&mut self, expr: &mut AstExpr) -> Result<(), Infallible> {
        let _ = self.write_expr(expr);
        Ok(())
    }
}

impl VisitMut<AstNoPayload, Stop> for Calls {
    fn stmt(&mut self, stmt: &mut AstStmt) -> Result<(), Stop> {
        self.write_stmt(stmt)
    }

    fn expr(&mut self, expr: &mut AstExpr) -> Result<(), Stop> {
        self.write_expr(expr)
    }
}
