//! Walks over a module: the positions that they visit, in order.
//!
//! A call on a statement is made on the module's own, a call on an expression on the value of an expression statement, a
//! call on a target on what is assigned to, a call on a clause on each of a comprehension, and a call on a parameter on
//! each of a definition. Then the call is made again and again, with a closure that fails at each
//! position in turn: a call that may fail has to stop there, with that error.
use starlark_lexer::codemap::Span;
use starlark_passes::outline::top_level_stmts::top_level_stmts;
use starlark_tree::ast::{
    AssignTarget, AstAssignIdent, AstExpr, AstIdent, AstNoPayload, AstParameter, AstStmt,
    AstTypeExpr, DefP, Expr, Stmt,
};
use starlark_uniplate::uniplate::{
    AssignTargetPVisit, DefPVisit, ExprPVisit, StmtPVisit, StmtPVisitAll, StmtPVisitTypes, Visit,
    VisitExpr, visit_children_err,
};
use std::alloc::{AllocError, Global};
use std::fmt::Write;

/// Appends the positions that a call visits, or how it does not stop at one of them.
pub fn push_walk(out: &mut String, walk: &str, statement: &AstStmt) -> Result<(), AllocError> {
    let alloc = *out.allocator();
    let whole = visited(Places::new(alloc, None), walk, statement)?;
    for last in 0..whole.visits {
        let part = visited(Places::new(alloc, Some(last)), walk, statement)?;
        let stops = part.has_stopped && part.visits == last.saturating_add(1);
        if !stops || !whole.text.starts_with(part.text.as_str()) {
            let (visits, text) = (part.visits, part.text);
            return writeln!(out, "to stop after {last}: {visits} visits, {text}");
        }
    }
    writeln!(out, "{}", whole.text)
}

/// What ends a walk.
#[derive(Drop)]
enum Halt {
    /// An allocation for a position failed.
    Memory,
    /// It was to stop here.
    Stop,
}

impl From<AllocError> for Halt {
    fn from(_: AllocError) -> Halt {
        Halt::Memory
    }
}

/// The positions of a walk.
#[derive(Drop)]
struct Places {
    text: String,
    visits: u32,
    /// After how many others the position comes at which the walk is to stop.
    last: Option<u32>,
    has_stopped: bool,
}

impl Places {
    fn new(alloc: Global, last: Option<u32>) -> Places {
        Places {
            text: String::new(alloc),
            visits: 0,
            last,
            has_stopped: false,
        }
    }

    /// Writes a position, with a space before it if another comes before it.
    fn add(&mut self, place: Span) -> Result<(), Halt> {
        let begin = place.begin().get();
        let end = place.end().get();
        if !self.text.is_empty() {
            self.text.push_str(" ")?;
        }
        write!(self.text, "{begin}..{end}")?;
        let is_last = self.last == Some(self.visits);
        self.visits = self.visits.saturating_add(1);
        if is_last { Err(Halt::Stop) } else { Ok(()) }
    }
}

/// The positions that a call visits.
fn visited(places: Places, walk: &str, statement: &AstStmt) -> Result<Places, AllocError> {
    let mut places = places;
    match walk_by(&mut places, walk, statement) {
        Some(Ok(())) => {}
        Some(Err(Halt::Stop)) => places.has_stopped = true,
        Some(Err(Halt::Memory)) => return Err(AllocError),
        None => places.text.push_str("no walk of such a tree")?,
    }
    Ok(places)
}

/// Makes a call, if the tree has what it is made on.
fn walk_by(places: &mut Places, walk: &str, statement: &AstStmt) -> Option<Result<(), Halt>> {
    let stmt = &statement.node;
    Some(match walk {
        "StmtP::visit_expr" => exprs_of(places, stmt),
        "StmtP::visit_expr_result" => exprs_of_stmt(places, stmt),
        "StmtP::visit_stmt" => stmts_of(places, stmt),
        "StmtP::visit_stmt_result" => stmts_of_stmt(places, stmt),
        "StmtP::visit_ident" => idents_of_stmt(places, stmt),
        "StmtP::visit_all_exprs" => all_exprs_of_stmt(places, stmt),
        "StmtP::visit_all_stmts" => all_stmts_of_stmt(places, stmt),
        "StmtP::visit_type_expr_err" => types_of_stmt(places, stmt),
        "visit_children_err" => children_of_stmt(places, stmt),
        "top_level_stmts" => top_stmts(places, statement),
        _ => return walk_part(places, walk, statement),
    })
}

/// Makes a call on a part of a statement, or on what shows one.
fn walk_part(places: &mut Places, walk: &str, statement: &AstStmt) -> Option<Result<(), Halt>> {
    Some(match (walk, &statement.node) {
        ("ExprP::visit_expr", Stmt::Expression(value)) => exprs_of(places, &value.node),
        ("ExprP::visit_expr_err", Stmt::Expression(value)) => exprs_of_expr(places, &value.node),
        ("ExprP::visit_all_exprs", Stmt::Expression(value)) => {
            all_exprs_of_expr(places, &value.node)
        }
        ("ClauseP::visit_expr", Stmt::Expression(value)) => exprs_of_clauses(places, &value.node),
        ("ParameterP::visit_expr", Stmt::Def(def)) => exprs_of_each(places, &def.params),
        ("DefP::visit_children_err", Stmt::Def(def)) => children_of_def(places, def),
        ("AssignTargetP::visit_expr", Stmt::Assign(assign)) => exprs_of(places, &assign.lhs.node),
        ("AssignTargetP::visit_lvalue", Stmt::Assign(assign)) => {
            names_of_target(places, &assign.lhs.node)
        }
        ("Visit::visit_children", _) => children_of(places, shown(statement)),
        ("Visit::visit_children_err", _) => children_of_shown(places, shown(statement)),
        _ => return None,
    })
}

/// What shows the value of an expression statement, or any other statement.
fn shown(statement: &AstStmt) -> Visit<'_, AstNoPayload> {
    match &statement.node {
        Stmt::Expression(value) => Visit::Expr(value),
        _ => Visit::Stmt(statement),
    }
}

/// The span of a child.
fn place_of(child: Visit<'_, AstNoPayload>) -> Span {
    match child {
        Visit::Stmt(stmt) => stmt.span,
        Visit::Expr(expr) => expr.span,
    }
}

fn top_stmts(places: &mut Places, statement: &AstStmt) -> Result<(), Halt> {
    for stmt in top_level_stmts(*places.text.allocator(), statement)? {
        places.add(stmt.span)?;
    }
    Ok(())
}

#[tactic(auto, using(crate::proofs::Always::may_always))]
fn exprs_of_stmt(places: &mut Places, stmt: &Stmt) -> Result<(), Halt> {
    let mut add = |expr: &AstExpr| -> Result<(), Halt> { places.add(expr.span) };
    stmt.visit_expr_result(&mut add)
}

#[tactic(auto, using(crate::proofs::Always::may_always))]
fn stmts_of_stmt(places: &mut Places, stmt: &Stmt) -> Result<(), Halt> {
    let mut add = |stmt: &AstStmt| -> Result<(), Halt> { places.add(stmt.span) };
    stmt.visit_stmt_result(&mut add)
}

#[tactic(auto, using(crate::proofs::Always::may_always))]
fn children_of_stmt(places: &mut Places, stmt: &Stmt) -> Result<(), Halt> {
    let mut add = |child: Visit<'_, AstNoPayload>| -> Result<(), Halt> {
        places.add(place_of(child))
    };
    visit_children_err(stmt, &mut add)
}

#[tactic(auto, using(crate::proofs::Always::may_always))]
fn children_of_def(places: &mut Places, def: &DefP<AstNoPayload>) -> Result<(), Halt> {
    let mut add = |child: Visit<'_, AstNoPayload>| -> Result<(), Halt> {
        places.add(place_of(child))
    };
    def.visit_children_err(&mut add)
}

#[tactic(auto, using(crate::proofs::Always::may_always))]
fn children_of_shown(places: &mut Places, shown: Visit<'_, AstNoPayload>) -> Result<(), Halt> {
    let mut add = |child: Visit<'_, AstNoPayload>| -> Result<(), Halt> {
        places.add(place_of(child))
    };
    shown.visit_children_err(&mut add)
}

#[tactic(auto, using(crate::proofs::Always::may_always))]
fn idents_of_stmt(places: &mut Places, stmt: &Stmt) -> Result<(), Halt> {
    let mut add = |ident: &AstIdent| -> Result<(), Halt> { places.add(ident.span) };
    stmt.visit_ident(&mut add)
}

#[tactic(auto, using(crate::proofs::Always::may_always))]
fn all_exprs_of_stmt(places: &mut Places, stmt: &Stmt) -> Result<(), Halt> {
    let mut add = |expr: &AstExpr| -> Result<(), Halt> { places.add(expr.span) };
    stmt.visit_all_exprs(&mut add)
}

#[tactic(auto, using(crate::proofs::Always::may_always))]
fn all_stmts_of_stmt(places: &mut Places, stmt: &Stmt) -> Result<(), Halt> {
    let mut add = |stmt: &AstStmt| -> Result<(), Halt> { places.add(stmt.span) };
    stmt.visit_all_stmts(&mut add)
}

#[tactic(auto, using(crate::proofs::Always::may_always))]
fn types_of_stmt(places: &mut Places, stmt: &Stmt) -> Result<(), Halt> {
    let mut add = |ty: &AstTypeExpr| -> Result<(), Halt> { places.add(ty.span) };
    stmt.visit_type_expr_err(&mut add)
}

#[tactic(auto, using(crate::proofs::Always::may_always))]
fn all_exprs_of_expr(places: &mut Places, expr: &Expr) -> Result<(), Halt> {
    let mut add = |expr: &AstExpr| -> Result<(), Halt> { places.add(expr.span) };
    expr.visit_all_exprs(&mut add)
}

#[tactic(auto, using(crate::proofs::Always::may_always))]
fn exprs_of_expr(places: &mut Places, expr: &Expr) -> Result<(), Halt> {
    let mut add = |expr: &AstExpr| -> Result<(), Halt> { places.add(expr.span) };
    expr.visit_expr_err(&mut add)
}

/// A call that cannot fail keeps what would have ended it.
#[tactic(auto, using(crate::proofs::Always::may_always))]
fn exprs_of<T: VisitExpr<AstNoPayload>>(places: &mut Places, part: &T) -> Result<(), Halt> {
    let mut ended = Ok(());
    let mut add = |expr: &AstExpr| {
        if ended.is_ok() {
            ended = places.add(expr.span);
        }
    };
    part.visit_expr(&mut add);
    ended
}

/// The expressions of parameters, one after another.
fn exprs_of_each(places: &mut Places, params: &[AstParameter]) -> Result<(), Halt> {
    for param in params {
        exprs_of(places, &param.node)?;
    }
    Ok(())
}

/// The expressions of the clauses of a comprehension, if it is one of a list.
fn exprs_of_clauses(places: &mut Places, expr: &Expr) -> Result<(), Halt> {
    if let Expr::ListComprehension(_, first, rest) = expr {
        exprs_of(places, &**first)?;
        for clause in rest {
            exprs_of(places, clause)?;
        }
    }
    Ok(())
}

#[tactic(auto, using(crate::proofs::Always::may_always))]
fn stmts_of(places: &mut Places, stmt: &Stmt) -> Result<(), Halt> {
    let mut ended = Ok(());
    let mut add = |stmt: &AstStmt| {
        if ended.is_ok() {
            ended = places.add(stmt.span);
        }
    };
    stmt.visit_stmt(&mut add);
    ended
}

#[tactic(auto, using(crate::proofs::Always::may_always))]
fn children_of(places: &mut Places, shown: Visit<'_, AstNoPayload>) -> Result<(), Halt> {
    let mut ended = Ok(());
    let mut add = |child: Visit<'_, AstNoPayload>| {
        if ended.is_ok() {
            ended = places.add(place_of(child));
        }
    };
    shown.visit_children(&mut add);
    ended
}

#[tactic(auto, using(crate::proofs::Always::may_always))]
fn names_of_target(places: &mut Places, target: &AssignTarget) -> Result<(), Halt> {
    let mut ended = Ok(());
    let mut add = |name: &AstAssignIdent| {
        if ended.is_ok() {
            ended = places.add(name.span);
        }
    };
    target.visit_lvalue(&mut add);
    ended
}
