//! Loads (Starlark specification, "Load statements").
ghost use Rattle.std.specs.Prelude.{◌≡◌, ◌≤◌};
ghost use Rattle.starlark_lexer.specs.Tokens.{span_of};
ghost use Rattle.starlark_spec.specs.Grammar.Nonterminal.{Sym as SymN};
ghost use Rattle.starlark_spec.specs.Machine.States.State.{load_round_due};
ghost use Rattle.starlark_parse_cursor.specs.Reading.{at, Ready};
ghost use Rattle.starlark_parse_cursor.specs.Contract.{MayMove, MovesOn, Parses};
ghost use Rattle.starlark_parse.specs.Stmt.Lines.{IsSymbol, ParsesSmallFrom, ParsesSymbols};

use starlark_lexer::kind::Kind;
use starlark_lexer::span::{Span, Spanned};
use starlark_lexer::token::Lexeme;
use starlark_parse_build::statement::load_statement;
use starlark_parse_cursor::cursor::Cursor;
use starlark_parse_cursor::token::{expect, take_name, take_string};
use starlark_parse_held::{HeldStmts, HeldSymbol, HeldSymbols};
use starlark_spec::error::GrammarError;
use starlark_spec::refusal::Refusal;
use std::alloc::Global;

/// Adds the statement of a `load`, which is followed in parentheses by the text of a module, and after a comma by symbols.
#[inline(never)]
pub fn after_load<I: Iterator<Item = Lexeme>>(
    alloc: Global,
    cursor: &mut Cursor<I>,
    statements: &mut HeldStmts,
    keyword: Span,
) -> Result<(), Refusal>
    requires keyword { cursor.old.end ≡ keyword.end }
    requires ready { Ready I.can_next I.remaining I.next_gives (at cursor.old) }
    ensures moves { MovesOn I.can_next I.remaining I.next_gives cursor.old result cursor.new }
    ensures parses { ParsesSmallFrom I.next_gives (λ p. load_round_due (span_of keyword) p) keyword.begin.byte statements.old statements.new
        (at cursor.old) result
        (at cursor.new) }
{
    let _opening = expect(cursor, Kind::OpeningRound)?;
    let module = take_string(cursor)?;
    let symbols = symbols(alloc, cursor)?;
    let _closing = expect(cursor, Kind::ClosingRound)?;
    Ok(load_statement(statements, module, symbols, keyword.begin(), cursor.end)?)
}

/// After a comma symbols with commas between them, and perhaps one after the last; there may be none.
fn symbols<I: Iterator<Item = Lexeme>>(
    alloc: Global,
    cursor: &mut Cursor<I>,
) -> Result<HeldSymbols, Refusal>
    requires ready { Ready I.can_next I.remaining I.next_gives (at cursor.old) }
    ensures moves { MayMove I.can_next I.remaining I.next_gives cursor.old result cursor.new }
    ensures parses { ParsesSymbols I.next_gives (at cursor.old) result (at cursor.new) }
{
    let mut symbols = HeldSymbols::new(alloc);
    let Some(_comma) = cursor.take_if(Kind::Comma) else {
        return Ok(symbols);
    };
    'listing: while cursor.at_symbol() {
        let symbol = symbol(cursor)?;
        let Some(comma) = cursor.take_if(Kind::Comma) else {
            symbols.push(symbol, None)?;
            return Ok(symbols);
        };
        symbols.push(symbol, Some(comma))?;
    }
    Ok(symbols)
}

/// A symbol: the text of a name, optionally after the name that it is bound to and `=`. That name alone breaks a rule.
fn symbol<I: Iterator<Item = Lexeme>>(cursor: &mut Cursor<I>) -> Result<HeldSymbol, Refusal>
    requires ready { Ready I.can_next I.remaining I.next_gives (at cursor.old) }
    ensures moves { MovesOn I.can_next I.remaining I.next_gives cursor.old result cursor.new }
    ensures parses { Parses I.next_gives SymN IsSymbol (at cursor.old) result (at cursor.new) }
{
    if cursor.at(Kind::String) {
        let their = take_string(cursor)?;
        let local = Spanned {
            node: their.node.clone()?,
            span: their.span,
        };
        return Ok(HeldSymbol::new(local, their));
    }
    let local = take_name(cursor)?;
    let Some(_equal) = cursor.take_if(Kind::Equal) else {
        let rule = GrammarError::LoadNameWithoutEqual;
        return Err(cursor.broken(rule, local.span));
    };
    let their = take_string(cursor)?;
    Ok(HeldSymbol::new(local, their))
}
