//! Atoms: names, literals, and what is in delimiters.
ghost use Rattle.std.specs.Prelude.{◌≡◌, true, IfOk, MatchResult};
ghost use Rattle.starlark_lexer.specs.Tokens.{terminal, span_of};
ghost use Rattle.starlark_parse_held.specs.Held.{expression_of, unboxed_of};
ghost use Rattle.starlark_spec.specs.Grammar.Nonterminal.{Atom as AtomN};
ghost use Rattle.starlark_lexer.specs.Kinds.{kind_of};
ghost use Rattle.starlark_spec.specs.Machine.Sight.{look_at};
ghost use Rattle.starlark_spec.specs.Machine.Firsts.{is_leaf};
ghost use Rattle.starlark_spec.specs.declared.refusal.Refusal.TheVariants.{Memory};
ghost use Rattle.starlark_parse_cursor.specs.Reading.{at, begin_at, Ready};
ghost use Rattle.starlark_parse_cursor.specs.Contract.{MovesOn, Parses};
ghost use Rattle.starlark_parse.specs.Expr.Expressions.{IsAtom, Lies, leaf_expression};
ghost use Rattle.starlark_parse.specs.Expr.NestedParsers.{NestsBelow};

use crate::expr::f_string::take_start;
use crate::expr::rules::{Level, Rules};
use starlark_lexer::kind::Kind;
use starlark_lexer::span::{Span, Spanned};
use starlark_lexer::token::{Lexeme, Token};
use starlark_parse_build::expression::{identifier_tree, literal_tree};
use starlark_parse_cursor::cursor::{Cursor, Look};
use starlark_parse_held::{HeldExpr, HeldTree};
use starlark_spec::refusal::Refusal;
use starlark_tree::ast::AstLiteral;
use std::alloc::Global;
use std::mem;

/// The expression that a name, a number, a string, bytes or `...` is.
pub fn leaf_of(alloc: Global, token: Token, span: Span) -> Result<HeldExpr, Refusal>
    requires { is_leaf (kind_of (terminal token)) ≡ true }
    ensures { MatchResult result (λ e. expression_of e ≡ leaf_expression (terminal token) (span_of span)) (λ e. e ≡ Memory) }
{
    let tree = leaf_tree(token, span)?;
    Ok(HeldExpr::new(alloc, tree.into_tree())?)
}

/// The same, by value.
#[inline(always)]
pub fn leaf_tree(token: Token, span: Span) -> Result<HeldTree, Refusal>
    requires { is_leaf (kind_of (terminal token)) ≡ true }
    ensures { MatchResult result (λ t. unboxed_of t ≡ leaf_expression (terminal token) (span_of span)) (λ e. ⊥) }
{
    match token {
        Token::Identifier(node) => Ok(identifier_tree(Spanned { node, span })),
        Token::Int(node) => Ok(literal_tree(AstLiteral::Int(Spanned { node, span }), span)),
        Token::Float(node) => Ok(literal_tree(AstLiteral::Float(Spanned { node, span }), span)),
        Token::String(node) => Ok(literal_tree(AstLiteral::String(Spanned { node, span }), span)),
        Token::Bytes(node) => Ok(literal_tree(AstLiteral::Bytes(Spanned { node, span }), span)),
        Token::Ellipsis => Ok(literal_tree(AstLiteral::Ellipsis, span)),
        _ => Err(Refusal::UnexpectedToken(span)),
    }
}

/// An atom of one token.
#[inline(never)]
pub(crate) fn leaf<I: Iterator<Item = Lexeme>>(
    alloc: Global,
    cursor: &mut Cursor<I>,
) -> Result<HeldExpr, Refusal>
    requires leaf { is_leaf (look_at (at cursor.old).sight).kind ≡ true }
    requires ready { Ready I.can_next I.remaining I.next_gives (at cursor.old) }
    ensures moves { MovesOn I.can_next I.remaining I.next_gives cursor.old result cursor.new }
    ensures parses { Parses I.next_gives AtomN IsAtom (at cursor.old) result (at cursor.new) }
    ensures inside { IfOk result (Lies (begin_at (at cursor.old)) cursor.new.end.byte) }
{
    match mem::replace(&mut cursor.look, Look::End) {
        Look::Token(token, span) => {
            let tree = leaf_tree(token, span)?;
            let atom = HeldExpr::new(alloc, tree.into_tree());
            cursor.end = span.end();
            cursor.advance(span.end());
            Ok(atom?)
        }
        look => {
            cursor.look = look;
            Err(cursor.refusal())
        }
    }
}

impl<
    I: Iterator<Item = Lexeme>,
    F: Fn(Global, &mut Cursor<'_, I>, Level) -> Result<HeldExpr, Refusal>,
> Rules<I, F> {
    /// A name, a literal, or what is in delimiters.
    pub(crate) fn atom(&self, cursor: &mut Cursor<I>) -> Result<HeldExpr, Refusal>
        requires ready { Ready I.can_next I.remaining I.next_gives (at cursor.old) }
        requires nests { NestsBelow I.can_next I.remaining I.next_gives (at cursor.old) (F.pre self.now.expression) (F.post self.now.expression) }
        ensures moves { MovesOn I.can_next I.remaining I.next_gives cursor.old result cursor.new }
        ensures parses { Parses I.next_gives AtomN IsAtom (at cursor.old) result (at cursor.new) }
        ensures inside { IfOk result (Lies (begin_at (at cursor.old)) cursor.new.end.byte) }
    {
        if cursor.at_leaf() {
            return leaf(self.alloc, cursor);
        }
        if let Some(opening) = cursor.take_if(Kind::OpeningRound) {
            return self.round(cursor, opening);
        }
        if let Some(opening) = cursor.take_if(Kind::OpeningSquare) {
            return self.square(cursor, opening);
        }
        if let Some(opening) = cursor.take_if(Kind::OpeningCurly) {
            return self.curly(cursor, opening);
        }
        if let Some(start) = take_start(cursor) {
            return self.f_string(cursor, start);
        }
        Err(cursor.refusal())
    }
}
