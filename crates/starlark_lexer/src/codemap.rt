//! The text of a file, and the lines and columns of its positions.
//!
//! A [`Pos`] is a byte offset, and may have any value. If a function reads the text at a position, one past the end of the text
//! counts as the end, and one inside a character counts as the start of that character.
ghost use Rattle.std.specs.Prelude.{◌≡◌, ℕ, ◌+◌, ◌-◌, ◌^◌, ◌<◌, ◌≤◌, length, take, slice_index, option_map, string_bytes, IfOk, IfSome, IsSome, Some};
ghost use Rattle.std.specs.List.Sorted.{IsNonDecreasing};
ghost use Rattle.starlark_lexer.specs.Places as places;
ghost use Rattle.starlark_lexer.specs.ResolvedSpans as resolved;
ghost use Rattle.starlark_lexer.specs.Spans as spans;

pub use crate::span::{Pos, Span, Spanned};
use crate::text::{Class, run_len};
use memchr::memchr_iter;
use std::alloc::{AllocError, Global};
use std::fmt;
use std::marker::Model;
use std::rc::{Rc, RcStr};

/// The name of a file, and its text of fewer than 2^32 bytes. Clones share both.
#[derive(Debug, Drop)]
pub struct CodeMap {
    filename: RcStr,
    contents: Rc<Contents>,
}

/// A text and the tables that find lines and columns in it.
#[derive(Debug, Drop)]
struct Contents {
    source: String,
    /// Where each line except the first begins.
    begins: Vec<u32>,
    /// For each block, how many bytes before it do not begin a character. Empty if that is 0 for every block.
    char_rests: Vec<u32>,
}

/// The number of bytes in a block.
const BLOCK: usize = 64;

impl Model for CodeMap {
    ghost use Rattle.std.specs.Prelude.{◌<◌, ◌^◌, length};
    ghost use Rattle.std.specs.Rc.{rc_str_bytes, rc_value};
    ghost use Rattle.std.specs.String.{string_bytes};
    ghost use Rattle.starlark_lexer.specs.Places.{File, Lined};

    ghost Value = { File };

    ghost view = { λ c. record { name = rc_str_bytes c.filename; text = string_bytes (rc_value c.contents).source } };

    ghost invariant = { λ c. Lined (string_bytes (rc_value c.contents).source) (rc_value c.contents).begins.items (rc_value c.contents).char_rests.items };
}

impl CodeMap {
    /// Creates a file with this name and this text. Both are copied into memory of `alloc`.
    ///
    /// Fails if that memory cannot be allocated.
    pub fn new(alloc: Global, filename: &str, text: &str) -> Result<Self, AllocError>
        requires { length text.now < 2 ^ 32 }
        ensures { IfOk result (λ c. c ≡ record { name = filename.now; text = text.now }) }
    {
        CodeMap::from_string(alloc, filename, String::from_str(alloc, text)?)
    }

    /// Creates a file with this name, which is copied into memory of `alloc`, and this text, which is kept without a copy.
    ///
    /// Fails if memory for the name or for the tables of lines and columns cannot be allocated.
    pub fn from_string(alloc: Global, filename: &str, text: String) -> Result<Self, AllocError>
        requires { length (string_bytes text) < 2 ^ 32 }
        ensures { IfOk result (λ c. c ≡ record { name = filename.now; text = string_bytes text }) }
    {
        let begins = line_begins(alloc, text.as_bytes())?;
        let char_rests = char_rests_before_blocks(alloc, text.as_bytes())?;
        let contents = Contents {
            source: text,
            begins,
            char_rests,
        };
        Ok(CodeMap {
            filename: RcStr::from_str(alloc, filename)?,
            contents: Rc::new(alloc, contents)?,
        })
    }

    /// Returns the same file. The clone shares the name and the text.
    ///
    /// Fails if one of them has too many clones to count.
    pub fn clone(&self) -> Result<Self, AllocError>
        ensures { IfOk result (λ c. c ≡ self.now) }
    {
        Ok(CodeMap {
            filename: self.filename.clone()?,
            contents: self.contents.clone()?,
        })
    }

    /// The name given to the file.
    pub fn filename(&self) -> &str
        ensures { result.now ≡ self.now.name }
    {
        self.filename.as_str()
    }

    /// The whole text.
    pub fn source(&self) -> &str
        ensures text { result.now ≡ self.now.text }
        ensures small { length result.now < 2 ^ 32 }
    {
        self.contents.source.as_str()
    }

    /// The text of a span.
    pub fn source_span(&self, span: Span) -> &str
        ensures { result.now ≡ places.text_between self.now.text span.begin.byte span.end.byte }
    {
        let text = self.source();
        let begin = place_in(text, span.begin());
        let end = place_in(text, span.end());
        &text[begin..end]
    }

    /// The line of a position, counted from 0: the number of line feeds before it.
    pub fn find_line(&self, pos: Pos) -> usize
        ensures { result ≡ places.line_of self.now.text pos.byte }
    {
        let at = place_in(self.source(), pos);
        begins_up_to(self.contents.begins.as_slice(), at)
    }

    /// The span of a line, counted from 0, with its line feed, or `None` past the last line.
    ///
    /// What follows the last line feed is a line too, even if it is empty. This reads the bytes of the line.
    pub fn line_span_opt(&self, line: usize) -> Option<Span>
        ensures line { option_map spans.ends result ≡ places.line_at line self.now.text }
        ensures within { IfSome result (λ span. span.end.byte ≤ length self.now.text) }
    {
        let contents = self.contents.as_ref();
        let text = contents.source.as_bytes();
        let begin = bytes_before(text, contents.begins.as_slice(), line)?;
        let len = line_len(&text[begin..]);
        Some(Span::new(Pos::new(begin as u32), Pos::new((begin + len) as u32)))
    }

    /// The span of a line, counted from 0, without a line feed at its end, and then without one carriage return there.
    ///
    /// The line has to exist. This reads the bytes of the line.
    pub fn line_span_trim_newline(&self, line: usize) -> Span
        requires { IsSome (places.line_at line self.now.text) }
        ensures { places.trimmed_line_at line self.now.text ≡ Some (spans.ends result) }
    {
        let Some(span) = self.line_span_opt(line) else {
            return Span::new(Pos::new(0), Pos::new(0)); // no line is missing here
        };
        let (begin, end) = (span.begin().get() as usize, span.end().get() as usize);
        let end = trimmed_end(self.source().as_bytes(), begin, end);
        Span::new(span.begin(), Pos::new(end as u32))
    }

    /// A span of this file, which shares the file's text. The span is kept unchanged.
    ///
    /// Fails as `clone` does.
    pub fn file_span(&self, span: Span) -> Result<FileSpan, AllocError>
        ensures file { IfOk result (λ f. f.file ≡ self.now) }
        ensures span { IfOk result (λ f. f.span ≡ span) }
    {
        let file = self.clone()?;
        Ok(FileSpan { file, span })
    }

    /// The lines and columns of a span's ends.
    pub fn resolve_span(&self, span: Span) -> ResolvedSpan
        ensures begin { resolved.place result.begin ≡ places.place_of self.now.text span.begin.byte }
        ensures end { resolved.place result.end ≡ places.place_of self.now.text span.end.byte }
    {
        let contents = self.contents.as_ref();
        let text = contents.source.as_str();
        let begins = contents.begins.as_slice();
        let rests = contents.char_rests.as_slice();
        ResolvedSpan {
            begin: resolve(text, begins, rests, span.begin()),
            end: resolve(text, begins, rests, span.end()),
        }
    }
}

/// A span of a file. It is displayed as the file's name, `:`, and the resolved span.
#[derive(Debug, Drop)]
pub struct FileSpan {
    pub file: CodeMap,
    pub span: Span,
}

impl FileSpan {
    /// Returns the same span. The clone shares the file's name and text.
    ///
    /// Fails if one of them has too many clones to count.
    pub fn clone(&self) -> Result<Self, AllocError>
        ensures { IfOk result (λ f. f ≡ self.now) }
    {
        let file = self.file.clone()?;
        let span = self.span;
        Ok(FileSpan { file, span })
    }

    /// The lines and columns of the span's ends.
    pub fn resolve_span(&self) -> ResolvedSpan
        ensures begin { resolved.place result.begin ≡ places.place_of self.now.file.text self.now.span.begin.byte }
        ensures end { resolved.place result.end ≡ places.place_of self.now.file.text self.now.span.end.byte }
    {
        self.file.resolve_span(self.span)
    }

    /// The text of the span.
    pub fn source_span(&self) -> &str
        ensures { result.now ≡ places.text_between self.now.file.text self.now.span.begin.byte self.now.span.end.byte }
    {
        self.file.source_span(self.span)
    }
}

impl fmt::Display for FileSpan {
    ghost use Rattle.std.specs.Prelude.{Some};
    ghost use Rattle.starlark_lexer.specs.ResolvedSpans.{file_span_text};

    ghost output = { λ s. Some (file_span_text s) };

    fn fmt<W: fmt::Write>(&self, f: &mut fmt::Formatter<W>) -> fmt::Result {
        let name = self.file.filename();
        let span = self.resolve_span();
        write!(f, "{name}:{span}")
    }
}

/// Where each line except the first begins.
fn line_begins(alloc: Global, text: &[u8]) -> Result<Vec<u32>, AllocError>
    requires { length text.now < 2 ^ 32 }
    ensures { IfOk result (λ begins. begins.items ≡ places.line_begins 0 text.now) }
{
    let mut begins = Vec::new(alloc);
    for at in memchr_iter(b'\n', text) {
        begins.push(at as u32 + 1)?;
    }
    Ok(begins)
}

/// For each block, how many bytes before it do not begin a character. Empty if that is 0 for every block.
fn char_rests_before_blocks(alloc: Global, text: &[u8]) -> Result<Vec<u32>, AllocError>
    requires { length text.now < 2 ^ 32 }
    ensures { IfOk result (λ rests. places.CountsBlocks text.now rests.items) }
{
    if text.is_ascii() {
        return Ok(Vec::new(alloc));
    }
    let mut rests = Vec::new(alloc);
    let mut before: u32 = 0;
    'blocks: for block in 0..text.len() / BLOCK {
        rests.push(before)?;
        before += char_rests(&text[block * BLOCK..(block + 1) * BLOCK]) as u32;
    }
    rests.push(before)?;
    if before == 0 {
        return Ok(Vec::new(alloc));
    }
    Ok(rests)
}

/// How many of these bytes, at most a block, do not begin a character.
fn char_rests(bytes: &[u8]) -> u8
    requires { length bytes.now ≤ 64 }
    ensures rests { result ≡ places.char_rests bytes.now }
    ensures within { result ≤ length bytes.now }
{
    let mut rests = 0;
    'bytes: for byte in bytes {
        if !begins_char(*byte) {
            rests += 1;
        }
    }
    rests
}

/// Whether a byte begins a character.
fn begins_char(byte: u8) -> bool
    ensures { result ≡ places.begins_char byte }
{
    byte < 0x80 || byte >= 0xc0
}

/// How many bytes before a position do not begin a character.
fn char_rests_before(text: &[u8], rests: &[u32], at: usize) -> u32
    requires counted { places.CountsBlocks text.now rests.now }
    requires small { length text.now < 2 ^ 32 }
    requires within { at ≤ length text.now }
    ensures { result ≡ places.char_rests (take at text.now) }
{
    let block = at / BLOCK;
    let before = if block < rests.len() { rests[block] } else { 0 };
    before + char_rests(&text[block * BLOCK..at]) as u32
}

/// How many lines begin at or before a position, by binary search.
fn begins_up_to(begins: &[u32], at: usize) -> usize
    requires { IsNonDecreasing begins.now }
    ensures within { result ≤ length begins.now }
    ensures below { 0 < result → slice_index begins.now (result - 1) ≤ at }
    ensures above { result < length begins.now → at < slice_index begins.now result }
{
    begins.partition_point(|begin| *begin as usize <= at)
}

/// How many bytes are before a line.
fn bytes_before(text: &[u8], begins: &[u32], line: usize) -> Option<usize>
    requires { begins.now ≡ places.line_begins 0 text.now }
    ensures before { result ≡ places.bytes_before line text.now }
    ensures within { IfSome result (λ n. n ≤ length text.now) }
{
    if line == 0 {
        return Some(0);
    }
    if line - 1 < begins.len() {
        Some(begins[line - 1] as usize)
    } else {
        None
    }
}

/// The length of the first line, with its line feed.
fn line_len(text: &[u8]) -> usize
    ensures len { result ≡ places.first_line_len text.now }
    ensures within { result ≤ length text.now }
{
    let before = run_len(text, Class::Line);
    if before < text.len() {
        before + 1
    } else {
        before
    }
}

/// The end of a line without a line feed at its end, and then without one carriage return there.
fn trimmed_end(text: &[u8], begin: usize, end: usize) -> usize
    requires order { begin ≤ end }
    requires within { end ≤ length text.now }
    ensures end { result ≡ places.trimmed_end text.now begin end }
    ensures after { begin ≤ result }
    ensures before { result ≤ end }
{
    let end = end_before(text, begin, end, b'\n');
    end_before(text, begin, end, b'\r')
}

/// The end of a span without its last byte, if that is `byte`.
fn end_before(text: &[u8], begin: usize, end: usize, byte: u8) -> usize
    requires order { begin ≤ end }
    requires within { end ≤ length text.now }
    ensures end { result ≡ places.end_before byte text.now begin end }
    ensures after { begin ≤ result }
    ensures before { result ≤ end }
{
    if begin < end && text[end - 1] == byte {
        end - 1
    } else {
        end
    }
}

/// The line and column of a position.
fn resolve(text: &str, begins: &[u32], rests: &[u32], pos: Pos) -> ResolvedPos
    requires { places.Lined text.now begins.now rests.now }
    ensures { resolved.place result ≡ places.place_of text.now pos.byte }
{
    let at = place_in(text, pos);
    let text = text.as_bytes();
    let line = begins_up_to(begins, at);
    let begin = if line == 0 {
        0
    } else {
        begins[line - 1] as usize
    };
    let inside = char_rests_before(text, rests, at) - char_rests_before(text, rests, begin);
    ResolvedPos {
        line: line as u32,
        column: (at - begin) as u32 - inside,
    }
}

/// A position moved into the text: past the end it becomes the end, inside a character the start of that character.
fn place_in(text: &str, pos: Pos) -> usize
    ensures place { result ≡ places.place_in text.now pos.byte }
    ensures within { places.IsPlaceIn text.now pos.byte result }
{
    text.floor_char_boundary(pos.get() as usize)
}

/// A line, and a column in characters, both counted from 0.
#[derive(Clone, Copy, Debug, PartialEq, Eq)]
pub struct ResolvedPos {
    pub line: u32,
    pub column: u32,
}

/// The lines and columns of a span's ends.
///
/// It is displayed as `L:C` if the ends are equal, as `L:C-D` within one line, and otherwise as `L:C-M:D`, all counted from 1.
#[derive(Clone, Copy, Debug, PartialEq, Eq)]
pub struct ResolvedSpan {
    pub begin: ResolvedPos,
    pub end: ResolvedPos,
}

impl fmt::Display for ResolvedSpan {
    ghost use Rattle.starlark_lexer.specs.ResolvedSpans.{place};
    ghost use Rattle.starlark_lexer.specs.Places.{places_text};

    ghost output = { λ s. Some (places_text (place s.begin) (place s.end)) };

    fn fmt<W: fmt::Write>(&self, f: &mut fmt::Formatter<W>) -> fmt::Result {
        let (line, column) = (self.begin.line, self.begin.column);
        let (end_line, end_column) = (self.end.line, self.end.column);
        let (line, column) = (line as u64 + 1, column as u64 + 1);
        let (end_line, end_column) = (end_line as u64 + 1, end_column as u64 + 1);
        if line == end_line && column == end_column {
            write!(f, "{line}:{column}")
        } else if line == end_line {
            write!(f, "{line}:{column}-{end_column}")
        } else {
            write!(f, "{line}:{column}-{end_line}:{end_column}")
        }
    }
}
