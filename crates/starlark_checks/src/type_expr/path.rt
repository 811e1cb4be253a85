//! Names with dots between them.
ghost use Rattle.std.specs.Prelude.{◌≡◌, ◌⊎◌, IfOk, string_bytes};
ghost use Rattle.starlark_tree.specs.Views.{expression_of, ident_word, word};
ghost use Rattle.starlark_checks.specs.Answers.{AnswersOutcome, AnswersMade};
ghost use Rattle.starlark_checks.specs.Faults.{refusal_of};
ghost use Rattle.starlark_spec.specs.Faults as rules;
ghost use Rattle.starlark_checks.specs.Refusals.{out_of_memory};
ghost use Rattle.starlark_spec.specs.Types as types;
ghost use Rattle.starlark_checks.specs.TypeViews.{path_seen};

use crate::error::{Error, TypeExprUnpackError};
use crate::type_expr::TypePathP;
use crate::type_expr::fault::type_error;
use starlark_lexer::codemap::CodeMap;
use starlark_lexer::span::Spanned;
use starlark_tree::ast::{AstExprP, AstIdentP, AstPayload, AstString, ExprP};
use std::alloc::{AllocError, Global};

/// The path that the expression before `[first, second]` is.
pub(super) fn path_of<'a, P: AstPayload>(
    alloc: Global,
    codemap: &CodeMap,
    x: &'a AstExprP<P>,
) -> Result<TypePathP<'a, P>, Error>
    ensures { AnswersOutcome codemap.now (types.path (expression_of x.now)) path_seen result }
{
    match &x.node {
        ExprP::Identifier(name) => Ok(alone(alloc, name)),
        ExprP::Dot(object, name) => member(alloc, codemap, object, name),
        _ => Err(type_error(codemap, TypeExprUnpackError::ExpectingPath, x.span)),
    }
}

/// The path `object.name`, whose last name is not `type`.
pub(super) fn member<'a, P: AstPayload>(
    alloc: Global,
    codemap: &CodeMap,
    object: &'a AstExprP<P>,
    name: &'a AstString,
) -> Result<TypePathP<'a, P>, Error>
    ensures { AnswersOutcome codemap.now (types.member (expression_of object.now) (word name.now)) path_seen result }
{
    let path = dotted(alloc, codemap, object)?;
    ended(codemap, path, name)
}

/// The names with dots between them that the expression is.
fn dotted<'a, P: AstPayload>(
    alloc: Global,
    codemap: &CodeMap,
    x: &'a AstExprP<P>,
) -> Result<TypePathP<'a, P>, Error>
    ensures { AnswersOutcome codemap.now (types.dotted (expression_of x.now)) path_seen result }
{
    match &x.node {
        ExprP::Identifier(name) => Ok(alone(alloc, name)),
        ExprP::Dot(object, name) => continued(dotted(alloc, codemap, object), name),
        _ => Err(type_error(codemap, TypeExprUnpackError::DotInType, x.span)),
    }
}

/// The path of one name.
pub(super) fn alone<'a, P: AstPayload>(alloc: Global, first: &'a AstIdentP<P>) -> TypePathP<'a, P>
    ensures { path_seen result ≡ types.alone (types.name (ident_word first.now) first.now.node.payload) }
{
    TypePathP {
        first,
        rem: Vec::new(alloc),
    }
}

/// The path, if it could be read, with one more name.
fn continued<'a, P: AstPayload>(
    path: Result<TypePathP<'a, P>, Error>,
    name: &'a AstString,
) -> Result<TypePathP<'a, P>, Error>
    ensures { AnswersMade (λ p. types.longer p (word name.now)) path_seen path.entry path_seen result }
{
    Ok(longer(path?, name)?)
}

/// The path with a last name, which is not `type`.
fn ended<'a, P: AstPayload>(
    codemap: &CodeMap,
    path: TypePathP<'a, P>,
    name: &'a AstString,
) -> Result<TypePathP<'a, P>, Error>
    ensures { AnswersOutcome codemap.now (types.extended_unless_type (word name.now) (path_seen path.entry)) path_seen result }
{
    if name.node.as_str() == "type" {
        return Err(banned(codemap, &path));
    }
    Ok(longer(path, name)?)
}

/// The error of a path before `.type`, or out of memory.
fn banned<P: AstPayload>(codemap: &CodeMap, path: &TypePathP<P>) -> Error
    ensures { (result ≡ refusal_of codemap.now (types.mistyped (rules.DotTypeBan (types.path_text (path_seen path.now)))
        (path_seen path.now).first.word.span)) ⊎ (result ≡ out_of_memory) }
{
    match path_text(path) {
        Ok(text) => {
            type_error(
                codemap,
                TypeExprUnpackError::DotTypeBan(text),
                path.first.span,
            )
        }
        Err(error) => Error::from(error),
    }
}

/// The path with one more name.
fn longer<'a, P: AstPayload>(
    mut path: TypePathP<'a, P>,
    name: &'a AstString,
) -> Result<TypePathP<'a, P>, AllocError>
    ensures { IfOk result (λ p. path_seen p ≡ types.longer (path_seen path.entry) (word name.now)) }
{
    path.rem.push(Spanned {
        node: name.node.as_str(),
        span: name.span,
    })?;
    Ok(path)
}

/// The names with dots between them.
fn path_text<P: AstPayload>(path: &TypePathP<P>) -> Result<String, AllocError>
    ensures { IfOk result (λ text. string_bytes text ≡ types.path_text (path_seen path.now)) }
{
    let mut text = path.first.node.ident.clone()?;
    for name in &path.rem {
        text.push('.')?;
        text.push_str(name.node)?;
    }
    Ok(text)
}
