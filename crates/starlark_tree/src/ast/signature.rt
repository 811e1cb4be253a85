//! The spans of text that signatures and load symbols cover.
ghost use Rattle.std.specs.Prelude.{◌≡◌, map, option_map};
ghost use Rattle.starlark_lexer.specs.Tokens.{span_of};
ghost use Rattle.starlark_tree.specs.Views.{comma_span};
ghost use Rattle.starlark_tree.specs.Signatures.{merge, merge_all, merge_some, lambda_signature, def_signature};

use crate::ast::{AstParameterP, AstPayload, DefP, LambdaP, LoadArgP};
use starlark_lexer::span::Span;

/// The smallest span that contains `first` and the parameters.
fn merge_parameters<P: AstPayload>(first: Span, params: &[AstParameterP<P>]) -> Span
    ensures { span_of result ≡ merge_all (span_of first) (map (λ p. span_of p.span) params.now) }
{
    let mut merged = first;
    for param in params {
        merged = merged.merge(param.span);
    }
    merged
}

impl<P: AstPayload> LambdaP<P> {
    /// The span of the parameters, or of the body if there are none.
    pub fn signature_span(&self) -> Span
        ensures { span_of result ≡ lambda_signature (map (λ p. span_of p.span) self.now.params.items) (span_of self.now.body.value.span) }
    {
        match self.params.as_slice() {
            [] => self.body.span,
            [first, others @ ..] => merge_parameters(first.span, others),
        }
    }
}

impl<P: AstPayload> DefP<P> {
    /// The span of the name, the parameters and the return type.
    pub fn signature_span(&self) -> Span
        ensures { span_of result ≡ def_signature (span_of self.now.name.span) (map (λ p. span_of p.span) self.now.params.items)
            (option_map (λ ty. span_of ty.value.span) self.now.return_type) }
    {
        let merged = merge_parameters(self.name.span, &self.params);
        match &self.return_type {
            Some(return_type) => merged.merge(return_type.span),
            None => merged,
        }
    }
}

impl<P: AstPayload> LoadArgP<P> {
    /// The span of both names.
    pub fn span(&self) -> Span
        ensures { span_of result ≡ merge (span_of self.now.local.span) (span_of self.now.their.span) }
    {
        self.local.span.merge(self.their.span)
    }

    /// The span of both names, and of the comma after them if there is one.
    pub fn span_with_trailing_comma(&self) -> Span
        ensures { span_of result ≡ merge_some (merge (span_of self.now.local.span) (span_of self.now.their.span)) (option_map comma_span self.now.comma) }
    {
        match &self.comma {
            Some(comma) => self.span().merge(comma.span),
            None => self.span(),
        }
    }
}
