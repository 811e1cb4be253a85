//! Parameters over the parts that were read.
ghost use Rattle.std.specs.Prelude.{◌≡◌, ◌≤◌};
ghost use Rattle.starlark_lexer.specs.Tokens.{from_to, span_of};
ghost use Rattle.starlark_tree.specs.Ast.{Normal, Args, KwArgs, Slash, NoArgs, no_type, absent, present};
ghost use Rattle.starlark_tree.specs.Views.{assign_word, parameter_seen, word};
ghost use Rattle.starlark_parse_held.specs.Held.{annotation_of, expression_of, maybe_of, parameter_of};

use crate::optional::{boxed_tree, type_tree};
use starlark_lexer::span::{Pos, Span, Spanned};
use starlark_parse_held::{HeldExpr, HeldParameter, HeldType};
use starlark_tree::ast::{AssignIdentP, AstAssignIdent, AstString, Parameter, ParameterP};

/// A parameter `/`.
pub fn slash_parameter(span: Span) -> HeldParameter
    ensures { parameter_of result ≡ Slash (span_of span) }
{
    HeldParameter {
        tree: Spanned {
            node: ParameterP::Slash,
            span,
        },
    }
}

/// A parameter `*`.
pub fn star_parameter(span: Span) -> HeldParameter
    ensures { parameter_of result ≡ NoArgs (span_of span) }
{
    HeldParameter {
        tree: Spanned {
            node: ParameterP::NoArgs,
            span,
        },
    }
}

/// A name that is bound.
pub fn assigned(name: AstString) -> AstAssignIdent
    ensures { assign_word result ≡ word name }
{
    Spanned {
        node: AssignIdentP {
            ident: name.node,
            payload: (),
        },
        span: name.span,
    }
}

/// A parameter that is a name.
pub fn normal_parameter(name: AstString, begin: Pos, end: Pos) -> HeldParameter
    requires { begin.byte ≤ end.byte }
    ensures { parameter_of result ≡ Normal (from_to begin.byte end.byte) (word name) tt no_type absent }
{
    HeldParameter {
        tree: Spanned {
            node: ParameterP::Normal(assigned(name), None, None),
            span: Span::new(begin, end),
        },
    }
}

/// A parameter that is a name with a default value.
pub fn default_parameter(name: AstString, default: HeldExpr, begin: Pos, end: Pos) -> HeldParameter
    requires { begin.byte ≤ end.byte }
    ensures { parameter_of result ≡ Normal (from_to begin.byte end.byte) (word name) tt no_type (present (expression_of default)) }
{
    HeldParameter {
        tree: Spanned {
            node: ParameterP::Normal(assigned(name), None, Some(default.into_box())),
            span: Span::new(begin, end),
        },
    }
}

/// A parameter `*name`.
pub fn args_parameter(name: AstString, begin: Pos, end: Pos) -> HeldParameter
    requires { begin.byte ≤ end.byte }
    ensures { parameter_of result ≡ Args (from_to begin.byte end.byte) (word name) tt no_type }
{
    HeldParameter {
        tree: Spanned {
            node: ParameterP::Args(assigned(name), None),
            span: Span::new(begin, end),
        },
    }
}

/// A parameter `**name`.
pub fn kwargs_parameter(name: AstString, begin: Pos, end: Pos) -> HeldParameter
    requires { begin.byte ≤ end.byte }
    ensures { parameter_of result ≡ KwArgs (from_to begin.byte end.byte) (word name) tt no_type }
{
    HeldParameter {
        tree: Spanned {
            node: ParameterP::KwArgs(assigned(name), None),
            span: Span::new(begin, end),
        },
    }
}

/// A parameter, from `begin` to `end`.
fn spanned(node: Parameter, begin: Pos, end: Pos) -> HeldParameter
    requires { begin.byte ≤ end.byte }
    ensures { parameter_of result ≡ parameter_seen (from_to begin.byte end.byte) node }
{
    HeldParameter {
        tree: Spanned {
            node,
            span: Span::new(begin, end),
        },
    }
}

/// A parameter of a definition: a name with its type and its default value.
pub fn typed_parameter(
    name: AstString,
    annotation: Option<HeldType>,
    default: Option<HeldExpr>,
    begin: Pos,
    end: Pos,
) -> HeldParameter
    requires { begin.byte ≤ end.byte }
    ensures { parameter_of result ≡ Normal (from_to begin.byte end.byte) (word name) tt (annotation_of annotation) (maybe_of default) }
{
    let node = ParameterP::Normal(assigned(name), type_tree(annotation), boxed_tree(default));
    spanned(node, begin, end)
}

/// A parameter `*name` of a definition, with its type.
pub fn typed_args_parameter(
    name: AstString,
    annotation: Option<HeldType>,
    begin: Pos,
    end: Pos,
) -> HeldParameter
    requires { begin.byte ≤ end.byte }
    ensures { parameter_of result ≡ Args (from_to begin.byte end.byte) (word name) tt (annotation_of annotation) }
{
    let node = ParameterP::Args(assigned(name), type_tree(annotation));
    spanned(node, begin, end)
}

/// A parameter `**name` of a definition, with its type.
pub fn typed_kwargs_parameter(
    name: AstString,
    annotation: Option<HeldType>,
    begin: Pos,
    end: Pos,
) -> HeldParameter
    requires { begin.byte ≤ end.byte }
    ensures { parameter_of result ≡ KwArgs (from_to begin.byte end.byte) (word name) tt (annotation_of annotation) }
{
    let node = ParameterP::KwArgs(assigned(name), type_tree(annotation));
    spanned(node, begin, end)
}
