//! The texts of parts of a tree, and that of a statement to writers that fail.
use crate::unpacking::Report;
use starlark_tree::ast::{AstLiteral, Clause, Expr, ForClause, Stmt};
use starlark_tree::display::literal::Quoted;
use std::alloc::Global;
use std::fmt;
use std::fmt::Write;

/// The text of the operator of a modification, or of a part of the value of an expression statement. A width is ignored.
pub fn report_part(alloc: Global, stmt: &Stmt) -> Report {
    match stmt {
        Stmt::Expression(value) => part_of_expr(alloc, &value.node),
        Stmt::AssignModify(_, op, _) => format!(in alloc; "{op:>9}"),
        _ => String::from_str(alloc, "no part"),
    }
}

/// The text of a name, an operator, a literal, or the clauses of a list.
fn part_of_expr(alloc: Global, expr: &Expr) -> Report {
    match expr {
        Expr::Identifier(name) => format!(in alloc; "{:>9}", name.node),
        Expr::Op(_, op, _) => format!(in alloc; "{op:>9}"),
        Expr::Literal(literal) => report_literal(alloc, literal),
        Expr::ListComprehension(_, first, others) => report_clauses(alloc, first, others),
        _ => String::from_str(alloc, "no part"),
    }
}

/// The text of a literal, and that of a string once more as what is put in quotes.
fn report_literal(alloc: Global, literal: &AstLiteral) -> Report {
    match literal {
        AstLiteral::String(text) => {
            let quoted = Quoted(text.node.as_str());
            format!(in alloc; "{literal:>9} {quoted:>9}")
        }
        _ => format!(in alloc; "{literal:>9}"),
    }
}

fn report_clauses(alloc: Global, first: &ForClause, others: &[Clause]) -> Report {
    let mut line = format!(in alloc; "{first:>9}")?;
    for clause in others {
        write!(line, ";{clause:>9}")?;
    }
    Ok(line)
}

/// A writer that fails at one write, and keeps the text of the others.
#[derive(Drop)]
struct Faulty {
    text: String,
    writes: u32,
    fault: Option<u32>,
}

impl Write for Faulty {
    fn write_str(&mut self, s: &str) -> fmt::Result {
        let is_fault = self.fault == Some(self.writes);
        self.writes = self.writes.saturating_add(1);
        if is_fault {
            return Err(fmt::Error);
        }
        self.text.push_str(s)?;
        Ok(())
    }
}

/// The statement written to a writer with that fault, and whether a fault was reported.
fn written(alloc: Global, stmt: &Stmt, fault: Option<u32>) -> (Faulty, bool) {
    let text = String::new(alloc);
    let mut writer = Faulty {
        text,
        writes: 0,
        fault,
    };
    let failed = write!(writer, "{stmt}").is_err();
    (writer, failed)
}

/// The text of the statement, if a fault at each write in turn is returned, and nothing is written after it.
pub fn report_despite_faults(alloc: Global, stmt: &Stmt) -> Report {
    let (whole, _) = written(alloc, stmt, None);
    for fault in 0..whole.writes {
        let (part, failed) = written(alloc, stmt, Some(fault));
        let stops = failed && part.writes == fault.saturating_add(1);
        if !stops || !whole.text.starts_with(part.text.as_str()) {
            return format!(in alloc; "a fault after {fault} writes is not passed on");
        }
    }
    Ok(whole.text)
}
