//! Types made of their parts, or the first error among those.
ghost use Rattle.std.specs.Prelude.{◌≡◌, IfOk};
ghost use Rattle.starlark_lexer.specs.Tokens.{span_of};
ghost use Rattle.starlark_tree.specs.Views.{literal_seen};
ghost use Rattle.starlark_checks.specs.Answers.{AnswersOutcome, AnswersBoth, AnswersMade};
ghost use Rattle.starlark_spec.specs.Targets.{map_ok};
ghost use Rattle.starlark_spec.specs.Types as types;
ghost use Rattle.starlark_checks.specs.TypeViews.{form_seen, name_seen, path_seen, row_seen, type_seen};

use crate::error::Error;
use crate::type_expr::fault::invalid;
use crate::type_expr::{TypeExprUnpackP, TypePathP};
use starlark_lexer::codemap::{CodeMap, Span};
use starlark_lexer::span::Spanned;
use starlark_spec::error::NoTypeForm;
use starlark_tree::ast::{AstIdentP, AstLiteral, AstPayload};
use std::alloc::{AllocError, Global};

/// The type of the form, at a span.
pub(super) fn with_span<'a, P: AstPayload>(
    form: Result<TypeExprUnpackP<'a, P>, Error>,
    span: Span,
) -> Result<Spanned<TypeExprUnpackP<'a, P>>, Error>
    ensures { AnswersMade (types.reads (span_of span)) form_seen form.entry type_seen result }
{
    Ok(Spanned { node: form?, span })
}

/// The form of a path.
pub(super) fn path_type<'a, P: AstPayload>(
    path: Result<TypePathP<'a, P>, Error>,
) -> Result<TypeExprUnpackP<'a, P>, Error>
    ensures { AnswersMade types.PathType path_seen path.entry form_seen result }
{
    Ok(TypeExprUnpackP::Path(path?))
}

/// The form of a tuple of the parts.
pub(super) fn tuple<'a, P: AstPayload>(
    parts: Result<Vec<Spanned<TypeExprUnpackP<'a, P>>>, Error>,
) -> Result<TypeExprUnpackP<'a, P>, Error>
    ensures { AnswersMade types.Tuple row_seen parts.entry form_seen result }
{
    Ok(TypeExprUnpackP::Tuple(parts?))
}

/// The form of a union of the members.
pub(super) fn union<'a, P: AstPayload>(
    members: Result<Vec<Spanned<TypeExprUnpackP<'a, P>>>, Error>,
) -> Result<TypeExprUnpackP<'a, P>, Error>
    ensures { AnswersMade types.Union row_seen members.entry form_seen result }
{
    Ok(TypeExprUnpackP::Union(members?))
}

/// The form of a list of the parts, between square brackets.
pub(super) fn type_list<'a, P: AstPayload>(
    parts: Result<Vec<Spanned<TypeExprUnpackP<'a, P>>>, Error>,
) -> Result<TypeExprUnpackP<'a, P>, Error>
    ensures { AnswersMade types.List row_seen parts.entry form_seen result }
{
    Ok(TypeExprUnpackP::List(parts?))
}

/// The form of a literal that spans `span`: only `...` is a type.
pub(super) fn literal_type<'a, P: AstPayload>(
    codemap: &CodeMap,
    literal: &AstLiteral,
    span: Span,
) -> Result<TypeExprUnpackP<'a, P>, Error>
    ensures { AnswersOutcome codemap.now (map_ok (λ _. types.Ellipsis) (types.constant (span_of span) (literal_seen literal.now))) form_seen result }
{
    match literal {
        AstLiteral::Ellipsis => Ok(TypeExprUnpackP::Ellipsis),
        AstLiteral::Int(_) => Err(invalid(codemap, NoTypeForm::Int, span)),
        AstLiteral::Float(_) => Err(invalid(codemap, NoTypeForm::Float, span)),
        AstLiteral::String(_) => Err(invalid(codemap, NoTypeForm::String, span)),
        AstLiteral::Bytes(_) => Err(invalid(codemap, NoTypeForm::Bytes, span)),
    }
}

/// The parts, and one more.
pub(super) fn with<'a, P: AstPayload>(
    mut parts: Vec<Spanned<TypeExprUnpackP<'a, P>>>,
    part: Result<Spanned<TypeExprUnpackP<'a, P>>, Error>,
) -> Result<Vec<Spanned<TypeExprUnpackP<'a, P>>>, Error>
    ensures { AnswersMade (λ r. types.append (row_seen parts.entry) (types.readings_with r types.no_readings)) type_seen part.entry row_seen result }
{
    parts.push(part?)?;
    Ok(parts)
}

/// The members on the left, and after them those on the right.
pub(super) fn joined<'a, P: AstPayload>(
    mut left: Vec<Spanned<TypeExprUnpackP<'a, P>>>,
    right: Result<Vec<Spanned<TypeExprUnpackP<'a, P>>>, Error>,
) -> Result<Vec<Spanned<TypeExprUnpackP<'a, P>>>, Error>
    ensures { AnswersMade (types.append (row_seen left.entry)) row_seen right.entry row_seen result }
{
    left.append(&mut right?)?;
    Ok(left)
}

/// The form of `name[index]`.
pub(super) fn index_by_one<'a, P: AstPayload>(
    alloc: Global,
    name: &'a AstIdentP<P>,
    index: Result<Spanned<TypeExprUnpackP<'a, P>>, Error>,
) -> Result<TypeExprUnpackP<'a, P>, Error>
    ensures { AnswersMade (types.Index (name_seen name.now)) type_seen index.entry form_seen result }
{
    let index = in_box(alloc, index?)?;
    Ok(TypeExprUnpackP::Index(name, index))
}

/// The form of `path[first, second]`.
pub(super) fn index_by_two<'a, P: AstPayload>(
    alloc: Global,
    path: Spanned<TypePathP<'a, P>>,
    first: Result<Spanned<TypeExprUnpackP<'a, P>>, Error>,
    second: Result<Spanned<TypeExprUnpackP<'a, P>>, Error>,
) -> Result<TypeExprUnpackP<'a, P>, Error>
    ensures { AnswersBoth (types.Index2 (span_of path.entry.span) (path_seen path.entry.node)) type_seen first.entry second.entry form_seen result }
{
    let first = in_box(alloc, first?)?;
    let second = in_box(alloc, second?)?;
    Ok(TypeExprUnpackP::Index2(path, first, second))
}

/// The value in a box.
fn in_box<T: Drop>(alloc: Global, value: T) -> Result<Box<T>, AllocError>
    ensures { IfOk result (λ b. b.value ≡ value) }
{
    Ok(Box::new(alloc, value)?)
}
