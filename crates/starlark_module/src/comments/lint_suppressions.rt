//! What comments suppress, and where.
ghost use Rattle.std.specs.Prelude.{◌≡◌, Any, Result, ◌+◌, ◌<◌, ◌≤◌, ◌^◌, ◌↔◌, ◌∷◌, ◌++◌, [], List, None, Ok, Err, Some, map, option_map};
ghost use Rattle.std.specs.Prelude.{length, string_bytes, IfOk, IfSome, OnOk, OnErr, IsTrue, Contains, false, true};
ghost use Rattle.std.specs.List.{position};
ghost use Rattle.std.specs.List.Sorted.{IsNonDecreasingBy};
ghost use Rattle.starlark_lexer.specs.Places.{line_of};
ghost use Rattle.starlark_lexer.specs.Tokens.{Lexeme, LexerFault, Text, lexeme, span_of};
ghost use Rattle.starlark_lexer.specs.Tokens as tokens;
ghost use Rattle.starlark_module.specs.Comments.Comments.{comment_of};
ghost use Rattle.starlark_module.specs.Comments.Suppressions as spec;
ghost use Rattle.starlark_module.specs.Comments.Building.{suppressing, suppression, suppressions_in, HasRead};
ghost use Rattle.starlark_tree.specs.Signatures.{merge};

use crate::comments::short_names::ShortNames;
pub use crate::comments::suppressed::LintSuppressions;
use starlark_lexer::codemap::{CodeMap, Span};
use std::alloc::{AllocError, Global};

/// What a comment that suppresses lints begins with. The lints' short names follow.
const LINT_SUPPRESSION_PREFIX: &str = "starlark-lint-disable ";

/// What one block of comments suppresses.
#[derive(Debug, Drop)]
pub(crate) struct SuppressionInfo {
    short_names: ShortNames,
    /// Where the comments are.
    token_span: Span,
    /// Where lints are suppressed.
    pub(crate) effective_span: Span,
    /// Whether the line after the comments is covered.
    suppress_next_line: bool,
}

impl Clone for SuppressionInfo {
    ghost use Rattle.std.specs.Prelude.{◌≡◌};
    ghost use Rattle.starlark_module.specs.Comments.Building.{suppression};

    ghost is_clone = { λ s t. suppression t ≡ suppression s };

    fn clone(&self) -> Result<Self, AllocError> {
        let short_names = self.short_names.clone()?;
        Ok(SuppressionInfo {
            short_names,
            token_span: self.token_span,
            effective_span: self.effective_span,
            suppress_next_line: self.suppress_next_line,
        })
    }
}

impl SuppressionInfo {
    /// What a comment by itself suppresses, whose line is this.
    fn new(codemap: &CodeMap, short_names: Vec<String>, token_span: Span, line_span: Span) -> Self
        requires line { span_of line_span ≡ spec.line_around codemap.now.text token_span.begin.byte }
        requires before { line_span.begin.byte ≤ token_span.begin.byte }
        ensures { suppression result ≡ suppressing codemap.now.text (map string_bytes short_names.items) (span_of token_span)
            (spec.line_around codemap.now.text token_span.begin.byte) (line_of codemap.now.text token_span.begin.byte) false }
    {
        let suppress_next_line = is_alone(codemap, token_span, line_span);
        let effective_span = if suppress_next_line {
            with_line_after(codemap, token_span, line_span)
        } else {
            line_span
        };
        SuppressionInfo {
            short_names: ShortNames::new(short_names),
            token_span,
            effective_span,
            suppress_next_line,
        }
    }

    /// One more comment joins the block, whose lines are now these.
    fn join(
        &mut self,
        codemap: &CodeMap,
        short_names: Vec<String>,
        token_span: Span,
        lines: Span,
    ) -> Result<(), AllocError>
        ensures ok { OnOk result (suppression self.new ≡ suppressing codemap.now.text ((suppression self.old).names
            ++ map string_bytes short_names.items) (merge (span_of self.old.token_span) (span_of token_span)) (span_of lines)
            (line_of codemap.now.text token_span.begin.byte) true) }
        ensures err { OnErr result (suppression self.new ≡ suppression self.old) }
    {
        self.short_names.append(short_names)?;
        self.token_span = self.token_span.merge(token_span);
        self.effective_span = with_line_after(codemap, token_span, lines);
        self.suppress_next_line = true;
        Ok(())
    }

    /// Whether an issue of this name at this span is suppressed.
    fn covers(&self, issue_short_name: &str, issue_span: Span) -> bool
        ensures { IsTrue result ↔ (spec.Covers issue_short_name.now (span_of issue_span) (suppression self.now)) }
    {
        self.short_names.contains(issue_short_name)
            && issue_span.intersects(self.effective_span)
            && !self.ends(issue_span)
    }

    /// Whether the comments are the last of an issue, whose span has the newline after them, and cover the line after it.
    fn ends(&self, issue_span: Span) -> bool
        ensures { IsTrue result ↔ ((self.now.suppress_next_line ≡ true) × (issue_span.end.byte ≡ self.now.token_span.end.byte + 1)) }
    {
        self.suppress_next_line
            && issue_span.end().get() as u64 == self.token_span.end().get() as u64 + 1
    }
}

impl Clone for LintSuppressions {
    ghost use Rattle.std.specs.Prelude.{◌≡◌};
    ghost use Rattle.starlark_module.specs.Comments.Building.{suppressions_in};

    ghost is_clone = { λ s t. suppressions_in t ≡ suppressions_in s };

    fn clone(&self) -> Result<Self, AllocError> {
        let suppressions = self.suppressions.clone()?;
        Ok(LintSuppressions::new(suppressions))
    }
}

impl LintSuppressions {
    /// These suppressions.
    fn new(mut suppressions: Vec<SuppressionInfo>) -> Self
        ensures { map suppression result.suppressions.items ≡ map suppression suppressions.items }
    {
        index_names(&mut suppressions);
        let in_order = is_in_order(suppressions.as_slice());
        LintSuppressions {
            suppressions,
            in_order,
        }
    }

    /// Whether an issue of this name at this span is suppressed.
    pub fn is_suppressed(&self, issue_short_name: &str, issue_span: Span) -> bool
        ensures { IsTrue result ↔ (spec.IsCovered (suppressions_in self.now) issue_short_name.now (span_of issue_span)) }
    {
        self.near(issue_span)
            .iter()
            .any(|near| near.covers(issue_short_name, issue_span))
    }

    /// Suppressions among which are all that the span meets, and if they are in order no others.
    fn near(&self, span: Span) -> &[SuppressionInfo]
        ensures { (name : Text) → (Any (λ s. spec.Covers name (span_of span) (suppression s)) result.now) ↔
            (Any (λ s. spec.Covers name (span_of span) (suppression s)) self.now.suppressions.items) }
    {
        let all = self.suppressions.as_slice();
        if !self.in_order {
            return all;
        }
        let first = all.partition_point(|s| s.effective_span.end().get() < span.begin().get());
        let last = all.partition_point(|s| s.effective_span.begin().get() <= span.end().get());
        &all[first..last.max(first)]
    }
}

/// Prepares the names of each suppression for lookup.
fn index_names(suppressions: &mut Vec<SuppressionInfo>)
    ensures { map suppression suppressions.new.items ≡ map suppression suppressions.old.items }
{
    for at in 0..suppressions.len() {
        suppressions[at].short_names.index();
    }
}

/// Whether no suppression begins or ends before an earlier one does.
fn is_in_order(suppressions: &[SuppressionInfo]) -> bool
    ensures begins { result ≡ true → IsNonDecreasingBy (λ s. s.effective_span.begin.byte) suppressions.now }
    ensures ends { result ≡ true → IsNonDecreasingBy (λ s. s.effective_span.end.byte) suppressions.now }
{
    'pairs: for next in 1..suppressions.len() {
        let (before, after) = (&suppressions[next - 1], &suppressions[next]);
        if !is_before(before.effective_span, after.effective_span) {
            return false;
        }
    }
    true
}

/// Whether a span begins and ends no later than another.
fn is_before(before: Span, after: Span) -> bool
    ensures { IsTrue result ↔ ((before.begin.byte ≤ after.begin.byte) × (before.end.byte ≤ after.end.byte)) }
{
    before.begin().get() <= after.begin().get() && before.end().get() <= after.end().get()
}

/// Reads the comments of a text, one after the other, for what they suppress.
#[derive(Drop)]
pub struct LintSuppressionsBuilder {
    alloc: Global,
    suppressions: Vec<SuppressionInfo>,
    /// The lines of the block that is being read, once a comment of it has named something. What it suppresses so far is then the last
    /// of `suppressions`.
    lines: Option<Span>,
}

impl LintSuppressionsBuilder {
    /// A builder that has read nothing.
    pub fn new(alloc: Global) -> Self
        ensures { (text : Text) → HasRead text [] result }
    {
        LintSuppressionsBuilder {
            alloc,
            suppressions: Vec::new(alloc),
            lines: None,
        }
    }

    /// Call for each comment in a block of comments, with its text without the `#`.
    ///
    /// If an allocation fails, the builder is unchanged.
    pub fn parse_comment(
        &mut self,
        codemap: &CodeMap,
        comment: &str,
        span: Span,
    ) -> Result<(), AllocError>
        ensures ok { (lexemes : List (Result Lexeme LexerFault)) → HasRead codemap.now.text lexemes self.old
            → OnOk result (HasRead codemap.now.text (lexemes ++ Ok (lexeme (tokens.Comment comment.now) (span_of span)) ∷ []) self.new) }
        ensures err { (lexemes : List (Result Lexeme LexerFault)) → HasRead codemap.now.text lexemes self.old
            → OnErr result (HasRead codemap.now.text lexemes self.new) }
    {
        let short_names = parse_lint_suppressions(self.alloc, comment)?;
        match self.lines {
            Some(lines) => self.join(codemap, short_names, span, lines),
            None => {
                if short_names.is_empty() {
                    return Ok(());
                }
                self.begin(codemap, short_names, span)
            }
        }
    }

    /// The first comment of a block that names something.
    fn begin(
        &mut self,
        codemap: &CodeMap,
        short_names: Vec<String>,
        span: Span,
    ) -> Result<(), AllocError>
        ensures ok { OnOk result (map suppression self.new.suppressions.items ≡ map suppression self.old.suppressions.items
            ++ suppressing codemap.now.text (map string_bytes short_names.items) (span_of span) (spec.line_around codemap.now.text span.begin.byte)
            (line_of codemap.now.text span.begin.byte) false ∷ []) }
        ensures lines { OnOk result (option_map span_of self.new.lines ≡ Some (spec.line_around codemap.now.text span.begin.byte)) }
        ensures err { OnErr result (map suppression self.new.suppressions.items ≡ map suppression self.old.suppressions.items) }
        ensures err_lines { OnErr result (self.new.lines ≡ self.old.lines) }
    {
        let line = line_around(codemap, span);
        let first = SuppressionInfo::new(codemap, short_names, span, line);
        self.suppressions.push(first)?;
        self.lines = Some(line);
        Ok(())
    }

    /// A comment joins those of its block, which are on these lines.
    fn join(
        &mut self,
        codemap: &CodeMap,
        short_names: Vec<String>,
        span: Span,
        lines: Span,
    ) -> Result<(), AllocError>
        ensures ok { (front : List spec.Suppression) (last : spec.Suppression) → map suppression self.old.suppressions.items ≡ front ++ last ∷ []
            → OnOk result (map suppression self.new.suppressions.items ≡ front
            ++ suppressing codemap.now.text (last.names ++ map string_bytes short_names.items) (merge last.token (span_of span))
            (merge (span_of lines) (spec.line_around codemap.now.text span.begin.byte)) (line_of codemap.now.text span.begin.byte) true ∷ []) }
        ensures lines { OnOk result (option_map span_of self.new.lines
            ≡ Some (merge (span_of lines) (spec.line_around codemap.now.text span.begin.byte))) }
        ensures err { OnErr result (map suppression self.new.suppressions.items ≡ map suppression self.old.suppressions.items) }
        ensures err_lines { OnErr result (self.new.lines ≡ self.old.lines) }
    {
        let lines = lines.merge(line_around(codemap, span));
        if let Some(last) = self.suppressions.last_mut() {
            last.join(codemap, short_names, span, lines)?;
        }
        self.lines = Some(lines);
        Ok(())
    }

    /// Call after the last comment in a block of comments.
    pub fn end_of_comment_block(&mut self)
        ensures { (text : Text) (lexemes : List (Result Lexeme LexerFault)) (x : Result Lexeme LexerFault) → comment_of x ≡ None
            → HasRead text lexemes self.old → HasRead text (lexemes ++ x ∷ []) self.new }
    {
        self.lines = None;
    }

    /// What the comments suppress.
    pub fn build(self) -> LintSuppressions
        ensures { (text : Text) (lexemes : List (Result Lexeme LexerFault)) → HasRead text lexemes self → suppressions_in result
            ≡ spec.suppressions text lexemes }
    {
        LintSuppressions::new(self.suppressions)
    }
}

/// The line in which a span begins, without its newline.
fn line_around(codemap: &CodeMap, span: Span) -> Span
    ensures line { span_of result ≡ spec.line_around codemap.now.text span.begin.byte }
    ensures before { result.begin.byte ≤ span.begin.byte }
{
    codemap.line_span_trim_newline(codemap.find_line(span.begin()))
}

/// A span, and the line after the one in which `last` begins, with its newline, if there is one.
fn with_line_after(codemap: &CodeMap, last: Span, span: Span) -> Span
    ensures { span_of result ≡ spec.with_line_after codemap.now.text (line_of codemap.now.text last.begin.byte) (span_of span) }
{
    match codemap.line_span_opt(codemap.find_line(last.begin()) + 1) {
        Some(next) => span.merge(next),
        None => span,
    }
}

/// Whether a comment is alone on its line, except for whitespace before it.
fn is_alone(codemap: &CodeMap, token_span: Span, line_span: Span) -> bool
    requires { line_span.begin.byte ≤ token_span.begin.byte }
    ensures { result ≡ spec.is_alone codemap.now.text (span_of token_span) (span_of line_span) }
{
    let before = Span::new(line_span.begin(), token_span.begin());
    token_span == line_span
        || token_span.end() == line_span.end() && codemap.source_span(before).trim().is_empty()
}

/// The short names of the lints that a comment suppresses.
fn parse_lint_suppressions(alloc: Global, comment: &str) -> Result<Vec<String>, AllocError>
    ensures { IfOk result (λ names. map string_bytes names.items ≡ spec.names_in comment.now) }
{
    match comment.trim_start().strip_prefix(LINT_SUPPRESSION_PREFIX) {
        Some(short_names) => names_listed(alloc, short_names),
        None => Ok(Vec::new(alloc)),
    }
}

/// The names in a text that spaces and commas separate.
fn names_listed(alloc: Global, text: &str) -> Result<Vec<String>, AllocError>
    ensures { IfOk result (λ names. map string_bytes names.items ≡ spec.names_listed text.now) }
{
    let mut names = Vec::new(alloc);
    let mut rest = Some(text);
    'pieces: while let Some(text) = rest {
        let (piece, after) = split_piece(text);
        let name = piece.trim();
        if !name.is_empty() {
            names.push(String::from_str(alloc, name)?)?;
        }
        rest = after;
    }
    Ok(names)
}

/// A text up to its first space or comma, and what is after that, if there is one.
fn split_piece(text: &str) -> (&str, Option<&str>)
    ensures pieces { spec.pieces text.now ≡ result.0.now ∷ spec.pieces_of (option_map (λ rest. rest.now) result.1) }
    ensures shorter { IfSome result.1 (λ rest. length rest.now < length text.now) }
{
    match first_separator(text) {
        Some(at) => (&text[..at], Some(&text[at + 1..])),
        None => (text, None),
    }
}

/// The index of the first space or comma.
fn first_separator(text: &str) -> Option<usize>
    ensures { result ≡ position spec.is_separator text.now }
{
    text.as_bytes().iter().position(|b| is_separator(*b))
}

fn is_separator(byte: u8) -> bool
    ensures { result ≡ spec.is_separator byte }
{
    byte == b' ' || byte == b','
}
