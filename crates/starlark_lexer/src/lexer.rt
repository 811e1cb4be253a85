//! The lexer.
ghost use Rattle.std.specs.Prelude.{◌≡◌, ℕ, ◌+◌, ◌^◌, ◌<◌, ◌≤◌, length};
ghost use Rattle.std.specs.List.{All};
ghost use Rattle.std.specs.Str.{IsUtf8};
ghost use Rattle.starlark_lexer.specs.OpenFStrings.{IsOpen};

use crate::comment::comment_cut;
use crate::cut::Cut;
use crate::dialect::Dialect;
use crate::f_string::{FString, bracket_depth, f_string_quote, floor, is_at_hole, is_end};
use crate::lines::{blank_lines, indentation, newline_len, skip_len};
use crate::number::{begins_number, number_cut};
use crate::span::{Pos, Span};
use crate::string::escape::Stop;
use crate::string::opening::{Style, opening, quotes_len};
use crate::string::{decode, scan, string_cut};
use crate::text::{Class, after, byte_at, char_len, front, is_letter, run_len};
use crate::token::{Lexeme, LexerError, LexerErrorKind, Token};
use crate::words::{is_reserved, keyword, lone_sign, sign_of_one, sign_of_three, sign_of_two};
use std::alloc::Global;

/// The lexemes of a text, in order: an iterator that ends after the last one, or after the first error.
#[derive(Drop)]
pub struct Lexer<'a> {
    alloc: Global,
    rest: &'a str,
    at: usize,
    depth: usize,
    line_begins: bool,
    levels: Vec<usize>,
    f_strings: Vec<FString>,
    ended: bool,
    ghost small: { at + length rest.now < 2 ^ 32 },
    ghost shallow: { depth ≤ at },
    ghost utf8: { ∥ IsUtf8 rest.now ∥₁ },
    ghost opened: { All (IsOpen at) f_strings.items },
}

impl<'a> Lexer<'a> {
    ghost use Rattle.std.specs.Prelude.{◌≡◌, ◌+◌, ◌-◌, ◌<◌, ◌≤◌, ◌^◌, ◌==◌, ◌&&◌, ◌||◌, false, true, Ok, Err, List, length, take, nat_lt, IfSome, Some};
    ghost use Rattle.starlark_lexer.specs.Newlines.{first, newline_len};
    ghost use Rattle.starlark_lexer.specs.Classes.{is_letter, is_space};
    ghost use Rattle.starlark_lexer.specs.Lexing.{comment_cut, name_cut, sign_cut};
    ghost use Rattle.starlark_lexer.specs.Numbers.{begins_number, number_cut};
    ghost use Rattle.std.specs.Str.{IsCharBoundary};
    ghost use Rattle.std.specs.List.{prefix_len};
    ghost use Rattle.starlark_lexer.specs.Cuts.{IsCutOf, IsFault, token, token_taking};
    ghost use Rattle.starlark_lexer.specs.Cutting.{cut_of};
    ghost use Rattle.starlark_lexer.specs.Lexer.{CodeLexeme, GaveAll, AreLexemes, TakesMemory, Gave, Begins, lexeme_of, state_of};
    ghost use Rattle.starlark_lexer.specs.Tokens.{fault_of};
    ghost use Rattle.starlark_lexer.specs.Lexemes as spec;
    ghost use Rattle.starlark_lexer.specs.Lines.{whitespace_len};
    ghost use Rattle.starlark_lexer.specs.OpenFStrings.{IsOpen};
    ghost use Rattle.starlark_lexer.specs.Openings.{is_quote, opening};
    ghost use Rattle.starlark_lexer.specs.Strings.{run, stop_len, string_cut};
    ghost use Rattle.starlark_lexer.specs.Tokens.{terminal, lexeme, from_to};

    /// The lexemes of a text of at most `u32::MAX` bytes. They are the same in each dialect.
    pub fn new(alloc: Global, text: &'a str, _dialect: &Dialect) -> Self
        requires { length text.now < 2 ^ 32 }
        ensures start { state_of result ≡ spec.start text.now }
        ensures items { (xs : List CodeLexeme) → GaveAll result xs → AreLexemes xs (spec.lexemes text.now) }
    {
        Lexer {
            alloc,
            rest: text,
            at: 0,
            depth: 0,
            line_begins: true,
            levels: Vec::new(alloc),
            f_strings: Vec::new(alloc),
            ended: false,
        }
    }

    /// Advances by `n` bytes.
    #[inline(always)]
    fn advance(&mut self, n: usize)
        requires { IsCharBoundary self.old.rest.now n }
        ensures { state_of self.new ≡ spec.after n (state_of self.old) }
    {
        self.rest = after(self.rest, n);
        self.at += n;
    }

    /// Returns the token of the next `n` bytes.
    #[inline(always)]
    fn take(&mut self, what: Token, n: usize) -> Lexeme
        requires { IsCharBoundary self.old.rest.now n }
        ensures token { lexeme_of result ≡ Ok (lexeme (terminal what) (from_to self.old.at (self.old.at + n))) }
        ensures state { state_of self.new ≡ spec.after n (state_of self.old) }
    {
        let begin = self.at;
        self.advance(n);
        Ok((begin, what, self.at))
    }

    #[cold]
    #[inline(never)]
    fn end_with(&mut self, kind: LexerErrorKind, begin: usize, end: usize) -> LexerError
        requires order { begin ≤ end }
        requires small { end < 2 ^ 32 }
        ensures kind { result.kind ≡ kind }
        ensures step { (Err (fault_of result), state_of self.new) ≡ spec.refuses kind begin end (state_of self.old) }
    {
        self.ended = true;
        self.levels.clear();
        LexerError {
            kind,
            span: Span::new(Pos::new(begin as u32), Pos::new(end as u32)),
        }
    }

    /// Returns an error of the text, from `begin` to `end`. Nothing comes after it.
    #[inline(always)]
    fn refuse(&mut self, kind: LexerErrorKind, begin: usize, end: usize) -> Lexeme
        requires fault { IsFault kind }
        requires order { begin ≤ end }
        requires small { end < 2 ^ 32 }
        ensures { Gave (spec.refuses kind begin end (state_of self.old)) result (state_of self.new) }
    {
        Err(self.end_with(kind, begin, end))
    }

    #[inline(always)]
    fn out_of_memory(&mut self) -> Lexeme
        ensures { (p : spec.Step) → TakesMemory p.0 → Gave p result (state_of self.new) }
    {
        let at = self.at;
        Err(self.end_with(LexerErrorKind::Memory, at, at))
    }

    #[inline(always)]
    fn innermost(&self) -> Option<FString>
        ensures last { result ≡ spec.innermost self.now.f_strings.items }
        ensures open { IfSome result (λ f. IsOpen self.now.at f) }
    {
        self.f_strings.last().copied()
    }

    #[inline(always)]
    fn last_newline(&mut self) -> Lexeme
        requires { length self.old.rest.now ≡ 0 }
        ensures { Gave (spec.give_last_newline (state_of self.old)) result (state_of self.new) }
    {
        self.ended = true;
        Ok((self.at, Token::Newline, self.at))
    }

    /// Returns the token that was cut off from the front.
    #[inline(always)]
    fn take_token(&mut self, what: Token, len: usize, taken: usize) -> Lexeme
        requires cut { IsCutOf self.old.rest.now (token_taking (terminal what) len taken) }
        ensures { (lexeme_of result, state_of self.new) ≡ spec.take_cut (state_of self.old) (token_taking (terminal what) len taken) }
    {
        let bytes = self.rest.as_bytes();
        let depth = bracket_depth(floor(self.innermost()), byte_at(bytes, 0), self.depth);
        let line_begins = self.line_begins || newline_len(bytes) > 0;
        let begin = self.at;
        self.advance(taken);
        self.depth = depth;
        self.line_begins = line_begins;
        Ok((begin, what, begin + len))
    }

    /// Returns what was cut off from the front, or its error.
    #[inline(always)]
    fn take_cut(&mut self, cut: Cut) -> Lexeme
        requires { IsCutOf self.old.rest.now (cut_of cut) }
        ensures { Gave (spec.take_cut (state_of self.old) (cut_of cut)) result (state_of self.new) }
    {
        let Cut {
            what,
            begin,
            len,
            taken,
        } = cut;
        match what {
            Ok(token) => self.take_token(token, len, taken),
            Err(kind) => self.refuse(kind, self.at + begin, self.at + begin + len),
        }
    }

    fn open_f_string(&mut self, style: Style, n: usize) -> Lexeme
        requires opening { opening self.old.rest.now ≡ Some (style, n) }
        requires format { style.format ≡ true }
        ensures { Gave (spec.open_f_string style n (state_of self.old)) result (state_of self.new) }
    {
        let f_string = FString {
            style,
            begin: self.at,
            depth: self.depth,
        };
        if self.f_strings.push(f_string).is_err() {
            return self.out_of_memory();
        }
        self.take(Token::FStringStart(f_string_quote(style)), n)
    }

    /// Returns a piece of an f-string's text.
    fn give_text(&mut self, style: Style, len: usize, verbatim: bool) -> Lexeme
        requires quote { is_quote style.quote ≡ true }
        requires text { style.bytes ≡ false }
        requires len { len ≡ (run style self.old.rest.now).len }
        requires begin { IsCharBoundary self.old.rest.now len }
        requires verbatim { verbatim ≡ true → (run style self.old.rest.now).value ≡ take len self.old.rest.now }
        ensures { Gave (spec.give_text style (state_of self.old)) result (state_of self.new) }
    {
        let Ok(text) = decode(self.alloc, style, self.rest, len, verbatim) else {
            return self.out_of_memory();
        };
        self.take(Token::FStringText(text), len)
    }

    /// Returns what comes after the text of an f-string.
    fn end_text(&mut self, f: FString, len: usize, stop: Stop) -> Lexeme
        requires open { IsOpen self.old.at f }
        requires end { IsCharBoundary self.old.rest.now (len + stop_len f.style stop) }
        requires none { spec.is_end stop ≡ true → len ≡ 0 }
        ensures { Gave (spec.end_text f (state_of self.old) len stop) result (state_of self.new) }
    {
        match stop {
            Stop::Closed => {
                self.f_strings.pop();
                self.take(Token::FStringEnd, quotes_len(f.style.triple))
            }
            Stop::Hole => {
                let lexeme = self.take(Token::FStringExprStart, 1);
                self.depth += 1;
                lexeme
            }
            Stop::LoneBrace => self.refuse(
                LexerErrorKind::InvalidFString,
                self.at + len,
                self.at + len + 1,
            ),
            Stop::Unfinished => self.refuse(
                LexerErrorKind::UnfinishedString,
                f.begin,
                self.at + len,
            ),
            Stop::BadEscape(n) => self.refuse(
                LexerErrorKind::InvalidEscape,
                self.at + len,
                self.at + len + n,
            ),
        }
    }

    /// In the text of an f-string: returns its longest piece, or what comes after it.
    #[tactic(auto, unfolding(crate::specs::Lexemes::text_step))]
    fn text_step(&mut self, f: FString) -> Lexeme
        requires { IsOpen self.old.at f }
        ensures { Gave (spec.text_step f (state_of self.old)) result (state_of self.new) }
    {
        let (len, stop, verbatim) = scan(f.style, self.rest);
        if len > 0 && is_end(stop) {
            self.give_text(f.style, len, verbatim)
        } else {
            self.end_text(f, len, stop)
        }
    }

    /// The string at the front, which is not an f-string.
    fn string_step(&mut self, style: Style, n: usize) -> Lexeme
        requires opening { opening self.old.rest.now ≡ Some (style, n) }
        requires format { style.format ≡ false }
        ensures { Gave (spec.take_cut (state_of self.old) (string_cut style n self.old.rest.now)) result (state_of self.new) }
    {
        match string_cut(self.alloc, style, n, self.rest) {
            Ok(cut) => self.take_cut(cut),
            Err(_) => self.out_of_memory(),
        }
    }

    /// The string, bytes literal or f-string at the front.
    fn literal_step(&mut self, style: Style, n: usize) -> Lexeme
        requires { opening self.old.rest.now ≡ Some (style, n) }
        ensures { Gave (spec.literal_or (state_of self.old) (Some (style, n))) result (state_of self.new) }
    {
        if style.format {
            return self.open_f_string(style, n);
        }
        self.string_step(style, n)
    }

    /// The keyword or identifier at the front.
    #[inline(always)]
    fn name_step(&mut self) -> Lexeme
        requires { is_letter (first self.old.rest.now) ≡ true }
        ensures { Gave (spec.take_cut (state_of self.old) (name_cut self.old.rest.now)) result (state_of self.new) }
    {
        let len = run_len(self.rest.as_bytes(), Class::Name);
        let name = front(self.rest, len, Class::Name);
        if let Some(keyword) = keyword(name) {
            return self.take(keyword, len);
        }
        if is_reserved(name) {
            return self.refuse(LexerErrorKind::ReservedKeyword, self.at, self.at + len);
        }
        let Ok(text) = String::from_str(self.alloc, name) else {
            return self.out_of_memory();
        };
        self.take(Token::Identifier(text), len)
    }

    fn number_step(&mut self) -> Lexeme
        requires some { 0 < length self.old.rest.now }
        requires begins { begins_number self.old.rest.now ≡ true }
        ensures { Gave (spec.take_cut (state_of self.old) (number_cut self.old.rest.now)) result (state_of self.new) }
    {
        match number_cut(self.alloc, self.rest) {
            Ok(cut) => self.take_cut(cut),
            Err(_) => self.out_of_memory(),
        }
    }

    /// The operator or punctuation of the next `n` bytes, which is not a delimiter.
    #[inline(always)]
    fn take_sign(&mut self, what: Token, n: usize) -> Lexeme
        requires cut { IsCutOf self.old.rest.now (token (terminal what) n) }
        requires unbroken { newline_len self.old.rest.now ≡ 0 }
        requires no_bracket { (spec.opens (first self.old.rest.now) || spec.closes (first self.old.rest.now)) ≡ false }
        ensures { (lexeme_of result, state_of self.new) ≡ spec.take_cut (state_of self.old) (token (terminal what) n) }
    {
        self.take(what, n)
    }

    /// The longest operator or punctuation at the front, if that is not a delimiter.
    #[inline(always)]
    fn longest_sign_step(&mut self) -> Lexeme
        requires some { 0 < length self.old.rest.now }
        requires unbroken { newline_len self.old.rest.now ≡ 0 }
        requires no_bracket { (spec.opens (first self.old.rest.now) || spec.closes (first self.old.rest.now)) ≡ false }
        ensures { Gave (spec.take_cut (state_of self.old) (sign_cut self.old.rest.now)) result (state_of self.new) }
    {
        let bytes = self.rest.as_bytes();
        let first = byte_at(bytes, 0);
        let second = byte_at(bytes, 1);
        if let Some(sign) = sign_of_three(first, second, byte_at(bytes, 2)) {
            return self.take_sign(sign, 3);
        }
        if let Some(sign) = sign_of_two(first, second) {
            return self.take_sign(sign, 2);
        }
        if let Some(sign) = sign_of_one(first) {
            return self.take_sign(sign, 1);
        }
        self.refuse(
            LexerErrorKind::InvalidCharacter,
            self.at,
            self.at + char_len(bytes),
        )
    }

    /// The operator, punctuation or delimiter at the front, mostly by a table lookup on its first byte.
    #[inline(always)]
    fn sign_step(&mut self) -> Lexeme
        requires some { 0 < length self.old.rest.now }
        requires unbroken { newline_len self.old.rest.now ≡ 0 }
        ensures { Gave (spec.take_cut (state_of self.old) (sign_cut self.old.rest.now)) result (state_of self.new) }
    {
        let first = byte_at(self.rest.as_bytes(), 0);
        let Some(sign) = lone_sign(first) else {
            return self.longest_sign_step();
        };
        let depth = bracket_depth(floor(self.innermost()), first, self.depth);
        let lexeme = self.take(sign, 1);
        self.depth = depth;
        lexeme
    }

    /// The token that begins here, outside of all holes or inside delimiters.
    #[inline(always)]
    #[tactic(auto, unfolding(crate::specs::Lexemes::plain_step, crate::specs::Lexing::cut))]
    fn plain_step(&mut self) -> Lexeme
        requires { 0 < length self.old.rest.now }
        ensures { Gave (spec.plain_step (state_of self.old)) result (state_of self.new) }
    {
        let bytes = self.rest.as_bytes();
        if let Some((style, n)) = opening(bytes) {
            return self.literal_step(style, n);
        }
        let len = newline_len(bytes);
        if len > 0 {
            return self.take_token(Token::Newline, len, len);
        }
        let first = byte_at(bytes, 0);
        if first == b'#' {
            return self.comment_step();
        }
        if is_letter(first) {
            return self.name_step();
        }
        if begins_number(bytes) {
            return self.number_step();
        }
        self.sign_step()
    }

    /// The token that begins here, also in a hole of an f-string: there `}` ends the hole, and `!` alone is a token.
    #[inline(always)]
    #[tactic(auto, unfolding(crate::specs::Lexemes::front_step, crate::specs::Lexemes::hole_step))]
    fn front_step(&mut self) -> Lexeme
        requires { 0 < length self.old.rest.now }
        ensures { Gave (spec.front_step (state_of self.old)) result (state_of self.new) }
    {
        if is_at_hole(self.depth, self.innermost()) {
            let bytes = self.rest.as_bytes();
            if byte_at(bytes, 0) == b'}' {
                self.depth -= 1;
                return self.take(Token::FStringExprEnd, 1);
            }
            if byte_at(bytes, 0) == b'!' && byte_at(bytes, 1) != b'=' {
                return self.take(Token::FStringBang, 1);
            }
        }
        self.plain_step()
    }

    /// The next token on a line, or the `Newline` at the end of the text.
    #[inline(always)]
    #[tactic(auto, unfolding(crate::specs::Lexemes::token_step))]
    fn token_step(&mut self) -> Lexeme
        ensures { Gave (spec.token_step (state_of self.old)) result (state_of self.new) }
    {
        let skipped = skip_len(self.rest.as_bytes(), self.depth > 0);
        self.advance(skipped);
        if self.rest.is_empty() {
            return self.last_newline();
        }
        self.front_step()
    }

    #[inline(always)]
    fn comment_step(&mut self) -> Lexeme
        requires { first self.old.rest.now ≡ 35 }
        ensures { Gave (spec.take_cut (state_of self.old) (comment_cut self.old.rest.now)) result (state_of self.new) }
    {
        match comment_cut(self.alloc, self.rest) {
            Ok(cut) => self.take_cut(cut),
            Err(_) => self.out_of_memory(),
        }
    }

    fn indent(&mut self, whitespace: usize, indentation: usize) -> Lexeme
        requires { whitespace ≡ whitespace_len self.old.rest.now }
        ensures { Gave (spec.indent (state_of self.old) whitespace indentation) result (state_of self.new) }
    {
        if self.levels.push(indentation).is_err() {
            return self.out_of_memory();
        }
        self.line_begins = false;
        self.take(Token::Indent, whitespace)
    }

    /// Starts a line of this indentation, with `whitespace` bytes of whitespace. `None` if the line before has the same indentation.
    #[tactic(auto, unfolding(crate::specs::Lexemes::indent_step))]
    fn indent_step(&mut self, whitespace: usize, indentation: usize) -> Option<Lexeme>
        requires { whitespace ≡ whitespace_len self.old.rest.now }
        ensures { Begins (spec.indent_step (state_of self.old) whitespace indentation) result (state_of self.new) }
    {
        let level = self.levels.last().copied().unwrap_or(0);
        if indentation == level {
            self.advance(whitespace);
            self.line_begins = false;
            return None;
        }
        if indentation > level {
            return Some(self.indent(whitespace, indentation));
        }
        if indentation == 0 || self.levels.contains(&indentation) {
            self.levels.pop();
            return Some(self.take(Token::Dedent, 0));
        }
        Some(self.refuse(LexerErrorKind::Indentation, self.at, self.at + whitespace))
    }

    /// What comes first on a line that is not blank: a comment, or what its indentation results in.
    #[tactic(auto, unfolding(crate::specs::Lexemes::filled_line_step))]
    fn filled_line_step(&mut self, whitespace: usize, spaces: usize) -> Option<Lexeme>
        requires whitespace { whitespace ≡ whitespace_len self.old.rest.now }
        requires spaces { spaces ≡ prefix_len is_space self.old.rest.now }
        requires order { spaces ≤ whitespace }
        ensures { Begins (spec.filled_line_step (state_of self.old)) result (state_of self.new) }
    {
        let bytes = self.rest.as_bytes();
        if whitespace == bytes.len() {
            self.advance(whitespace);
            return Some(self.last_newline());
        }
        if bytes[whitespace] == b'#' {
            self.advance(whitespace);
            return Some(self.comment_step());
        }
        self.indent_step(whitespace, indentation(&bytes[..whitespace], spaces))
    }

    /// Skips blank lines.
    fn line_step(&mut self) -> Option<Lexeme>
        ensures { Begins (spec.line_step (state_of self.old)) result (state_of self.new) }
    {
        let (skipped, whitespace, spaces) = blank_lines(self.rest.as_bytes());
        self.advance(skipped);
        self.filled_line_step(whitespace, spaces)
    }
}

impl<'a> Iterator for Lexer<'a> {
    type Item = Lexeme;

    ghost use Rattle.starlark_lexer.specs.Lexer.{gives, remaining};

    ghost next_gives = { gives };

    ghost remaining = { remaining };

    #[tactic(auto, unfolding(crate::specs::Lexemes::step))]
    fn next(&mut self) -> Option<Lexeme> {
        if self.ended {
            self.levels.pop()?;
            return Some(Ok((self.at, Token::Dedent, self.at)));
        }
        if let Some(f) = self.innermost() {
            if f.depth == self.depth {
                return Some(self.text_step(f));
            }
        }
        if self.line_begins {
            if let Some(lexeme) = self.line_step() {
                return Some(lexeme);
            }
        }
        Some(self.token_step())
    }
}
