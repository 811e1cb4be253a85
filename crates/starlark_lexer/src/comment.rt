//! Comments.
ghost use Rattle.std.specs.Prelude.{◌≡◌};
ghost use Rattle.starlark_lexer.specs.Newlines as newlines;
ghost use Rattle.starlark_lexer.specs.Lexing as spec;
ghost use Rattle.starlark_lexer.specs.Cutting.{Cuts};

use crate::cut::Cut;
use crate::text::{Class, run_len};
use crate::token::Token;
use std::alloc::{AllocError, Global};

/// How many bytes are before the newline, or before the end.
fn before_newline(rest: &[u8]) -> usize
    ensures { result ≡ spec.before_newline rest.now }
{
    let line = run_len(rest, Class::Line);
    if line < rest.len() && line > 0 && rest[line - 1] == b'\r' {
        line - 1
    } else {
        line
    }
}

#[tactic(auto, unfolding(crate::specs::Lexing::comment_cut))]
pub(crate) fn comment_cut(alloc: Global, rest: &str) -> Result<Cut, AllocError>
    requires { newlines.first rest.now ≡ 35 }
    ensures { Cuts result (spec.comment_cut rest.now) }
{
    let bytes = rest.as_bytes();
    let line = before_newline(bytes);
    let len = if bytes[line - 1] == b'\r' {
        line - 1
    } else {
        line
    };
    let text = String::from_str(alloc, &rest[1..len])?;
    Ok(Cut {
        what: Ok(Token::Comment(text)),
        begin: 0,
        len,
        taken: line,
    })
}
