//! Mutable walks over the types of parameters, expressions and statements: the closure is called at each of them.
ghost use Rattle.std.specs.Prelude.{◌≡◌, ◌<◌, [], false, length, map, true};
ghost use Rattle.std.specs.List.{flat_map};
ghost use Rattle.starlark_tree.specs.Views.{boxed_type_of, expression_of, parameter_of};
ghost use Rattle.starlark_tree.specs.Walks.{MayWriteBy, WriteBy, WritesIn};
ghost use Rattle.starlark_uniplate.specs.Types.{expr_types, types_in_parameter, types_of};
ghost use Rattle.starlark_uniplate_mut.specs.Types.Types.{type_calls, untyped, untyped_of, untyped_parameter};

use starlark_tree::ast::{AstExprP, AstParameterP, AstPayload, AstTypeExprP, ExprP, ParameterP};

/// Visits a type, if there is one.
pub fn write_type_if_there<P: AstPayload, E, F: FnMut(&mut AstTypeExprP<P>) -> Result<(), E>>(
    ty: &mut Option<Box<AstTypeExprP<P>>>,
    f: &mut F,
) -> Result<(), E>
    requires { MayWriteBy (type_calls F.FnMut) f.old (types_of (boxed_type_of ty.old)) }
    ensures { WriteBy (type_calls F.FnMut) f.old (types_of (boxed_type_of ty.old)) (types_of (boxed_type_of ty.new)) result f.new }
{
    match ty {
        Some(ty) => f(ty),
        None => Ok(()),
    }
}

/// Visits the type of a parameter, if it has one.
fn write_parameter_type<P: AstPayload, E, F: FnMut(&mut AstTypeExprP<P>) -> Result<(), E>>(
    parameter: &mut ParameterP<P>,
    f: &mut F,
) -> Result<(), E>
    requires { MayWriteBy (type_calls F.FnMut) f.old (types_in_parameter parameter.old) }
    ensures { WritesIn types_in_parameter untyped_of (type_calls F.FnMut) f.old parameter.old parameter.new result f.new }
{
    match parameter {
        ParameterP::Slash | ParameterP::NoArgs => Ok(()),
        ParameterP::Normal(_, ty, _) => write_type_if_there(ty, f),
        ParameterP::Args(_, ty) => write_type_if_there(ty, f),
        ParameterP::KwArgs(_, ty) => write_type_if_there(ty, f),
    }
}

/// Visits the types of parameters.
pub fn write_parameter_types<P: AstPayload, E, F: FnMut(&mut AstTypeExprP<P>) -> Result<(), E>>(
    parameters: &mut [AstParameterP<P>],
    f: &mut F,
) -> Result<(), E>
    requires { MayWriteBy (type_calls F.FnMut) f.old (flat_map (λ p. types_in_parameter p.node) parameters.old) }
    ensures { WritesIn (flat_map (λ p. types_in_parameter p.node)) (map (λ p. untyped_parameter (parameter_of p))) (type_calls F.FnMut) f.old parameters.old
        parameters.new result f.new }
{
    for parameter in parameters.iter_mut() {
        write_parameter_type(&mut parameter.node, f)?;
    }
    Ok(())
}

/// Visits the types of an expression itself: those of a lambda's parameters.
pub fn write_expr_types<P: AstPayload, E, F: FnMut(&mut AstTypeExprP<P>) -> Result<(), E>>(
    expr: &mut AstExprP<P>,
    f: &mut F,
) -> Result<(), E>
    requires { MayWriteBy (type_calls F.FnMut) f.old (expr_types (expression_of expr.old)) }
    ensures { WritesIn (λ e. expr_types (expression_of e)) (λ e. untyped (expression_of e)) (type_calls F.FnMut) f.old expr.old expr.new result f.new }
{
    match &mut expr.node {
        ExprP::Lambda(lambda) => write_parameter_types(&mut lambda.params, f),
        _ => Ok(()),
    }
}

/// Whether the parameter has a type.
fn is_typed<P: AstPayload>(parameter: &ParameterP<P>) -> bool
    ensures some { result ≡ true → 0 < length (types_in_parameter parameter.now) }
    ensures none { result ≡ false → types_in_parameter parameter.now ≡ [] }
{
    match parameter {
        ParameterP::Slash | ParameterP::NoArgs => false,
        ParameterP::Normal(_, ty, _) => ty.is_some(),
        ParameterP::Args(_, ty) => ty.is_some(),
        ParameterP::KwArgs(_, ty) => ty.is_some(),
    }
}

/// Whether one of the parameters has a type.
fn are_typed<P: AstPayload>(parameters: &[AstParameterP<P>]) -> bool
    ensures some { result ≡ true → 0 < length (flat_map (λ p. types_in_parameter p.node) parameters.now) }
    ensures none { result ≡ false → flat_map (λ p. types_in_parameter p.node) parameters.now ≡ [] }
{
    for parameter in parameters {
        if is_typed(&parameter.node) {
            return true;
        }
    }
    false
}

/// Whether the expression has types of its own: it is a lambda with a parameter that has a type.
pub fn has_types<P: AstPayload>(expr: &AstExprP<P>) -> bool
    ensures some { result ≡ true → 0 < length (expr_types (expression_of expr.now)) }
    ensures none { result ≡ false → expr_types (expression_of expr.now) ≡ [] }
{
    match &expr.node {
        ExprP::Lambda(lambda) => are_typed(&lambda.params),
        _ => false,
    }
}
