//! Messages on the lexer's errors.
ghost use Rattle.std.specs.Prelude.{◌≡◌, IfOk, string_bytes};
ghost use Rattle.starlark_diagnostics.specs.Messages as messages;

use crate::diagnostic::Note;
use crate::refusal::Explanation;
use crate::token::is_short;
use starlark_lexer::token::LexerErrorKind;
use std::alloc::{AllocError, Global};

/// Explains an error of the lexer at this text of a source.
pub(crate) fn explain_lexer(
    alloc: Global,
    kind: LexerErrorKind,
    text: &str,
    source: &str,
) -> Result<Explanation, AllocError>
    ensures { IfOk result (λ explanation. string_bytes explanation.message ≡ messages.lexer_message kind text.now) }
{
    let mut notes = Vec::new(alloc);
    if let Some(help) = help(kind, text, source) {
        notes.push(Note {
            message: String::from_str(alloc, help)?,
            span: None,
        })?;
    }
    Ok(Explanation {
        message: message(alloc, kind, text)?,
        notes,
    })
}

/// The message.
fn message(alloc: Global, kind: LexerErrorKind, text: &str) -> Result<String, AllocError>
    ensures { IfOk result (λ message. string_bytes message ≡ messages.lexer_message kind text.now) }
{
    match kind {
        LexerErrorKind::InvalidCharacter => {
            format!(in alloc; "the character `{text}` has no meaning")
        }
        LexerErrorKind::ReservedKeyword => format!(in alloc; "`{text}` is a reserved word"),
        LexerErrorKind::InvalidNumber => about(alloc, text, " is not a number"),
        LexerErrorKind::UnfinishedString => String::from_str(alloc, "this string is not closed"),
        LexerErrorKind::InvalidEscape => about(alloc, text, " is not an escape sequence"),
        LexerErrorKind::Indentation => String::from_str(
            alloc,
            "the indentation of this line is that of no block around it",
        ),
        LexerErrorKind::InvalidFString => {
            String::from_str(alloc, "a single `}` in an f-string is written `}}`")
        }
        LexerErrorKind::TooDeep => String::from_str(alloc, "the code nests too deeply here"),
        LexerErrorKind::Memory => String::from_str(alloc, "out of memory"),
    }
}

/// The message about a text, which is repeated if it is short.
fn about(alloc: Global, text: &str, what: &str) -> Result<String, AllocError>
    ensures { IfOk result (λ message. string_bytes message ≡ messages.about text.now what.now) }
{
    if is_short(text) {
        format!(in alloc; "`{text}`{what}")
    } else {
        format!(in alloc; "this{what}")
    }
}

/// How to write it, if it is a common mistake.
fn help(kind: LexerErrorKind, text: &str, source: &str) -> Option<&'static str> {
    match kind {
        LexerErrorKind::ReservedKeyword => help_for_word(text),
        LexerErrorKind::InvalidCharacter => match text {
            "!" => Some("`not` negates"),
            "?" => Some("`a if condition else b` chooses"),
            _ => None,
        },
        LexerErrorKind::InvalidNumber => Some("an octal number begins with `0o`"),
        LexerErrorKind::Indentation if source.contains("\n\t") && source.contains("\n ") => {
            Some("some lines are indented by tabs, and others by spaces")
        }
        _ => None,
    }
}

/// What Starlark has in place of a reserved word.
fn help_for_word(word: &str) -> Option<&'static str> {
    match word {
        "while" => Some("Starlark has no `while`; `for` loops over a list or a `range`"),
        "is" => Some("`==` compares"),
        "import" | "from" => Some("`load` takes names from another file"),
        "try" | "raise" | "except" => Some("Starlark has no exceptions; `fail` stops"),
        "class" => Some("Starlark has no classes; `struct` may hold fields"),
        _ => None,
    }
}
