//! What may follow the first lexemes of a text.
ghost use Rattle.std.specs.Prelude.{◌<◌, ◌^◌, length};

use starlark_expected::expected::expected;
use starlark_lexer::dialect::Dialect;
use starlark_lexer::lexer::Lexer;
use std::alloc::AllocError;
use std::fmt::Write;

/// Appends the kinds of the tokens that may follow the first `count` lexemes of the text, and `end` if these are a program; or `none` if
/// no program begins with them.
pub fn push_following(out: &mut String, count: &str, text: &str) -> Result<(), AllocError>
    requires { length text.now < 2 ^ 32 }
{
    let alloc = *out.allocator();
    let count = count.parse::<usize>().unwrap_or(0);
    let mut lexemes = Vec::new(alloc);
    for lexeme in Lexer::new(alloc, text, &Dialect::All) {
        if lexemes.len() < count {
            lexemes.push(lexeme)?;
        }
    }
    match expected(alloc, &lexemes)? {
        None => writeln!(out, "none"),
        Some(found) => {
            for kind in &found.kinds {
                write!(out, "{kind:?} ")?;
            }
            writeln!(out, "{}", if found.is_end { "end" } else { "-" })
        }
    }
}
