//! A value with its span.
ghost use Rattle.std.specs.Prelude.{◌≡◌, ◌≤◌, ◌<◌, ◌^◌};

use starlark_lexer::span::{Pos, Span, Spanned};

/// Gives a value its span.
pub trait ToAst: Sized {
    /// The value with the span of the bytes from `begin` up to `end`.
    fn ast(self, begin: usize, end: usize) -> Spanned<Self>
        requires order { begin ≤ end }
        requires fits { end < 2 ^ 32 }
        ensures node { result.node ≡ self }
        ensures begin { result.span.begin.byte ≡ begin }
        ensures end { result.span.end.byte ≡ end }
    {
        let span = Span::new(Pos::new(begin as u32), Pos::new(end as u32));
        Spanned { node: self, span }
    }
}

impl<T> ToAst for T {}
