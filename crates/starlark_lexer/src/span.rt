//! Positions in a text and the spans between them.
ghost use Rattle.std.specs.Prelude.{◌≡◌, ℕ, ◌≤◌, ◌↔◌, ◌⊎◌, min, max, IsTrue};
ghost use Rattle.std.specs.Iterator.{IsFinite};
ghost use Rattle.std.specs.Iterator.Runs.{WholeRun};

/// A position in a text: how many bytes are before it.
#[derive(Clone, Copy, Debug, PartialEq, Eq, PartialOrd, Ord, Hash)]
pub struct Pos {
    pub byte: u32,
}

impl Pos {
    /// The position after `byte` bytes.
    pub fn new(byte: u32) -> Self
        ensures { result.byte ≡ byte }
    {
        Pos { byte }
    }

    /// How many bytes are before the position.
    pub fn get(self) -> u32
        ensures { result ≡ self.byte }
    {
        self.byte
    }
}

/// A span of a text, from one position to another that is not before it. It may be empty.
#[derive(Clone, Copy, Debug, PartialEq, Eq, Hash)]
pub struct Span {
    pub begin: Pos,
    pub end: Pos,
    pub ghost ordered: { begin.byte ≤ end.byte },
}

impl Span {
    ghost use Rattle.starlark_lexer.specs.Spans.{Covers, least_begin, greatest_end};

    /// The span from `begin` up to, but not including, `end`.
    pub fn new(begin: Pos, end: Pos) -> Self
        requires { begin.byte ≤ end.byte }
        ensures begin { result.begin ≡ begin }
        ensures end { result.end ≡ end }
    {
        Span { begin, end }
    }

    /// Where the span begins.
    pub fn begin(self) -> Pos
        ensures { result ≡ self.begin }
    {
        self.begin
    }

    /// Where the span ends: the position after its last byte.
    pub fn end(self) -> Pos
        ensures { result ≡ self.end }
    {
        self.end
    }

    /// The smallest span that contains both, with what lies between them.
    pub fn merge(self, other: Span) -> Span
        ensures begin { result.begin.byte ≡ min self.begin.byte other.begin.byte }
        ensures end { result.end.byte ≡ max self.end.byte other.end.byte }
    {
        Span {
            begin: self.begin.min(other.begin),
            end: self.end.max(other.end),
        }
    }

    /// The smallest span that contains all that the iterator returns; without any, the empty span at position 0.
    pub fn merge_all<I: Iterator<Item = Span>>(mut spans: I) -> Span
        requires can { I.can_next spans }
        requires finite { IsFinite (I.remaining spans) }
        ensures { WholeRun I.next_gives spans (λ run. (result.begin.byte ≡ least_begin run.items) × (result.end.byte ≡ greatest_end run.items)) }
    {
        let Some(first) = spans.next() else {
            return Span::new(Pos::new(0), Pos::new(0));
        };
        let mut over = first;
        while let Some(span) = spans.next() {
            over = over.merge(span);
        }
        over
    }

    /// Whether the position lies in the span or at one of its ends.
    pub fn contains(self, pos: Pos) -> bool
        ensures { IsTrue result ↔ (Covers self pos.byte) }
    {
        pos >= self.begin && pos <= self.end
    }

    /// Whether this span contains an end of the other, or the other contains the start of this one.
    /// Spans that only touch intersect.
    pub fn intersects(self, other: Span) -> bool
        ensures { IsTrue result ↔ (Covers self other.begin.byte ⊎ Covers self other.end.byte ⊎ Covers other self.begin.byte) }
    {
        self.contains(other.begin) || self.contains(other.end) || other.contains(self.begin)
    }
}

/// A value and where it is in a text.
#[derive(Clone, Copy, Debug, PartialEq, Eq, Drop)]
pub struct Spanned<T> {
    pub node: T,
    pub span: Span,
}
