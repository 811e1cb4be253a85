//! Rows of the lexer and of the code map.
use crate::text::equality::{push_equal, push_words};
use crate::text::following::push_following;
use crate::text::places::{push_file_spans, push_lines, push_spans};
use crate::text::tokens::push_tokens;
use starlark_lexer::dialect::Dialect;
use std::alloc::AllocError;

/// Appends what the lexer or the code map returns:
///
/// - `tokens`, `tokens standard`, `tokens bare`: the lexemes of the text in this dialect.
/// - `equal tokens`: which of the text's tokens are equal. `words`, of no text: numbers, errors and dialects that no token shows.
/// - `lines`: the text's lines, and the line and column of each byte. `file_span`: each span of the text with its file.
/// - `following N`: what may follow the first N lexemes of the text, comments among them.
/// - `spans`: what the spans that the text lists are merged to, and which of them meet.
pub fn push_lexed(row: &mut String, call: &str, text: &str) -> Result<(), AllocError> {
    row.push('\n')?;
    if text.len() >= 0x1_0000_0000 {
        return Ok(());
    }
    if let Some(count) = call.strip_prefix("following ") {
        return push_following(row, count, text);
    }
    match call {
        "tokens" => push_tokens(row, text, &Dialect::All),
        "tokens standard" => push_tokens(row, text, &Dialect::Standard),
        "tokens bare" => push_tokens(row, text, &Dialect::Bare),
        "equal tokens" => push_equal(row, text),
        "words" => push_words(row),
        "lines" => push_lines(row, text),
        "file_span" => push_file_spans(row, text),
        "spans" => push_spans(row, text),
        _ => row.push_str("no such call\n"),
    }
}
