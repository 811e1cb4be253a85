//! What is shown of a line.
ghost use Rattle.std.specs.Prelude.{◌≡◌};
ghost use Rattle.starlark_lexer.specs.Spans.{ends};
ghost use Rattle.starlark_lexer.specs.Tokens.{span_of};
ghost use Rattle.starlark_diagnostics.specs.Snippet as specs;
ghost use Rattle.starlark_diagnostics.specs.Snippet.{row_of};

use starlark_lexer::codemap::Span;

/// The number of bytes of a line that are shown.
const SHOWN: u32 = 160;

/// The number of bytes before the span that are shown of a longer line.
const BEFORE: u32 = 80;

/// What is shown of a line, and what of it is in a span, in byte offsets of the file.
#[derive(Clone, Copy)]
pub(crate) struct Row {
    /// Where the line begins.
    pub first: u32,
    /// Where what is shown begins.
    pub from: u32,
    /// Where what is in the span begins.
    pub begin: u32,
    /// Where what is in the span ends.
    pub end: u32,
    /// Where what is shown ends.
    pub to: u32,
    /// Where the line ends.
    pub last: u32,
}

impl Row {
    /// Of a line with these ends, for a span.
    pub fn new(line: Span, span: Span) -> Row
        ensures { result ≡ row_of (ends line) (span_of span) }
    {
        let (first, last) = (line.begin().get(), line.end().get());
        let begin = within(first, last, span.begin().get());
        let from = shown_from(first, last, begin);
        let to = shown_to(from, last);
        let end = within(first, last, span.end().get()).min(to);
        Row {
            first,
            from,
            begin,
            end,
            to,
            last,
        }
    }

    /// What is written where the start of the line is cut off.
    pub fn cut(self) -> &'static str
        ensures { result.now ≡ specs.cut self }
    {
        if self.first < self.from { "..." } else { "" }
    }

    /// What is written where the end of the line is cut off.
    pub fn tail(self) -> &'static str
        ensures { result.now ≡ specs.tail self }
    {
        if self.to < self.last { "..." } else { "" }
    }
}

/// The position, moved between the ends of a line.
fn within(first: u32, last: u32, at: u32) -> u32
    ensures { result ≡ specs.within first last at }
{
    at.min(last).max(first)
}

/// Where what is shown of a line begins: of a short line at its start, else a little before the span.
fn shown_from(first: u32, last: u32, begin: u32) -> u32
    ensures { result ≡ specs.shown_from first last begin }
{
    if last.saturating_sub(first) <= SHOWN {
        first
    } else {
        begin.saturating_sub(BEFORE).max(first)
    }
}

/// Where what is shown of a line ends.
fn shown_to(from: u32, last: u32) -> u32
    ensures { result ≡ specs.shown_to from last }
{
    if last.saturating_sub(from) <= SHOWN {
        last
    } else {
        from + SHOWN
    }
}
