//! The text that is being written.
ghost use Rattle.std.specs.Prelude.{◌≡◌, [], ◌∷◌, IfOk, IfErr, string_bytes, Err};
ghost use Rattle.starlark_lexer.specs.Tokens.{Span, span_of};
ghost use Rattle.starlark_source.specs.Pages.{Wrote, Draft, fault, failed_state, refused, say, state_of, writing};

use crate::error::SourceError;
use starlark_lexer::span::Span;
use std::alloc::Global;

/// A text that is being written. The first error is kept, and nothing is written after it.
#[derive(Drop)]
pub(crate) struct Page {
    text: String,
    failure: Option<SourceError>,
}

impl Page {
    /// An empty page.
    pub(crate) fn new(alloc: Global) -> Self
        ensures { state_of result ≡ writing [] }
    {
        Page {
            text: String::new(alloc),
            failure: None,
        }
    }

    /// The text, or the first error.
    pub(crate) fn finish(self) -> Result<String, SourceError>
        ensures ok { IfOk result (λ text. state_of self ≡ writing (string_bytes text)) }
        ensures err { IfErr result (λ failure. state_of self ≡ failed_state [] (Some failure)) }
    {
        let Page { text, failure } = self;
        match failure {
            None => Ok(text),
            Some(failure) => Err(failure),
        }
    }

    /// The allocator of the text.
    pub(crate) fn allocator(&self) -> Global {
        *self.text.allocator()
    }

    /// Writes a text.
    #[tactic(auto, using(crate::proofs::PageLemmas::pages))]
    pub(crate) fn put(&mut self, text: &str)
        ensures { Wrote self.old (say text.now) self.new }
    {
        match self.failure {
            None => match self.text.push_str(text) {
                Ok(()) => {}
                Err(_) => self.failure = Some(SourceError::Memory),
            },
            Some(_) => {}
        }
    }

    /// Rejects this part of the tree.
    #[tactic(auto, using(crate::proofs::PageLemmas::pages))]
    pub(crate) fn refuse(&mut self, span: Span)
        ensures { Wrote self.old (fault (span_of span) ∷ []) self.new }
    {
        match self.failure {
            None => self.failure = Some(SourceError::NotSource(span)),
            Some(_) => {}
        }
    }

    /// Records that memory ran out.
    #[tactic(auto, using(crate::proofs::PageLemmas::pages))]
    pub(crate) fn report_out_of_memory(&mut self)
        ensures { (marks : Draft) → Wrote self.old marks self.new }
    {
        self.failure = Some(SourceError::Memory);
    }
}
