//! Trees that a program makes of a text's, most of which no text says.
use starlark_lexer::token::TokenInt;
use starlark_tree::ast::{
    AstExpr, AstLiteral, AstNoPayload, AstStmt, DefP, ExprP, ParameterP, StmtP,
};
use std::alloc::{AllocError, Global};
use std::mem;

/// Changes the tree in the way that the arguments name, and returns whether there is such a way for such a tree.
///
/// - `name WORD`, of a name, an attribute or a definition: it is called so.
/// - `int NUMBER`, `large DIGITS`, `float DIGITS`, of such a literal: it is of this value, or of this text.
/// - `format TEXT`, of an f-string: its format.
/// - `empty`, of a load: it brings in nothing.
/// - `types`, of a definition whose value is a lambda: the first parameters of both exchange their types.
/// - `types`, of two assignments: they exchange their types.
/// - `targets`, of two assignments of which the first has an operator: they exchange what is assigned to.
/// - `statements`, of a line of two statements and another line: the first of the line and that other are swapped.
pub fn change(alloc: Global, words: &str, statement: &mut AstStmt) -> Result<bool, AllocError> {
    let (what, word) = words.split_once(' ').unwrap_or((words, ""));
    match &mut statement.node {
        StmtP::Expression(value) => change_value(alloc, what, word, value),
        StmtP::Def(def) => change_def(alloc, what, word, def),
        StmtP::Load(load) if what == "empty" => {
            load.args.clear();
            Ok(true)
        }
        StmtP::Statements(parts) => match parts.as_mut_slice() {
            [first, second] => Ok(exchange(what, first, second)),
            _ => Ok(false),
        },
        _ => Ok(false),
    }
}

/// Changes the expression of a statement.
fn change_value(
    alloc: Global,
    what: &str,
    word: &str,
    value: &mut AstExpr,
) -> Result<bool, AllocError> {
    match (what, &mut value.node) {
        ("name", ExprP::Identifier(name)) => name.node.ident = String::from_str(alloc, word)?,
        ("name", ExprP::Dot(_, name)) => name.node = String::from_str(alloc, word)?,
        ("format", ExprP::FString(text)) => {
            text.node.format.node = String::from_str(alloc, word)?;
        }
        (_, ExprP::Literal(literal)) => return change_literal(alloc, what, word, literal),
        _ => return Ok(false),
    }
    Ok(true)
}

fn change_literal(
    alloc: Global,
    what: &str,
    word: &str,
    literal: &mut AstLiteral,
) -> Result<bool, AllocError> {
    match (what, literal) {
        ("int", AstLiteral::Int(number)) => match word.parse::<i32>() {
            Ok(value) => number.node = TokenInt::I32(value),
            Err(_) => return Ok(false),
        },
        ("large", AstLiteral::Int(number)) => {
            number.node = TokenInt::BigInt(String::from_str(alloc, word)?);
        }
        ("float", AstLiteral::Float(text)) => text.node = String::from_str(alloc, word)?,
        _ => return Ok(false),
    }
    Ok(true)
}

fn change_def(
    alloc: Global,
    what: &str,
    word: &str,
    def: &mut DefP<AstNoPayload>,
) -> Result<bool, AllocError> {
    match what {
        "name" => {
            def.name.node.ident = String::from_str(alloc, word)?;
            Ok(true)
        }
        "types" => Ok(exchange_types(def)),
        _ => Ok(false),
    }
}

/// Exchanges the types of the first parameters of a definition and of the lambda that it returns.
fn exchange_types(def: &mut DefP<AstNoPayload>) -> bool {
    let [own, ..] = def.params.as_mut_slice() else {
        return false;
    };
    let StmtP::Return(Some(value)) = &mut def.body.node else {
        return false;
    };
    let ExprP::Lambda(lambda) = &mut value.node else {
        return false;
    };
    let [other, ..] = lambda.params.as_mut_slice() else {
        return false;
    };
    match (&mut own.node, &mut other.node) {
        (ParameterP::Normal(_, own, _), ParameterP::Normal(_, other, _)) => {
            mem::swap(own, other);
            true
        }
        _ => false,
    }
}

/// Exchanges parts of two statements.
fn exchange(what: &str, first: &mut AstStmt, second: &mut AstStmt) -> bool {
    match (what, &mut first.node, &mut second.node) {
        ("types", StmtP::Assign(first), StmtP::Assign(second)) => {
            mem::swap(&mut first.ty, &mut second.ty);
            true
        }
        ("targets", StmtP::AssignModify(target, _, _), StmtP::Assign(second)) => {
            mem::swap(target, &mut second.lhs);
            true
        }
        ("statements", StmtP::Statements(line), _) => match line.as_mut_slice() {
            [part, ..] => {
                mem::swap(part, second);
                true
            }
            [] => false,
        },
        _ => false,
    }
}
