//! The parts of a parameter.
ghost use Rattle.std.specs.Prelude.{◌≡◌, option_copied, option_map};
ghost use Rattle.std.specs.Option.{option_copied_mut};
ghost use Rattle.std.specs.Borrow.{sem};
ghost use Rattle.starlark_tree.specs.Parts.{parameter_name, parameter_type, parameter_default};
ghost use Rattle.starlark_tree.specs.Lending.{LendsHeld, LendsName, LendsType, LendsDefault};

use crate::ast::{AstAssignIdentP, AstExprP, AstPayload, AstTypeExprP, ParameterP};

/// A mutable reference to the value in the box, if there is one.
fn held_mut<T>(held: &mut Option<Box<T>>) -> Option<&mut T>
    ensures* writes_back { sem 𝓛 (LendsHeld T.row held.entry result) }
    ensures value { option_copied_mut result ≡ option_map (λ b. b.value) held.old }
{
    match held {
        Some(held) => Some(held),
        None => None,
    }
}

impl<P: AstPayload> ParameterP<P> {
    /// The name; `None` for `/` and `*`.
    pub fn ident(&self) -> Option<&AstAssignIdentP<P>>
        ensures { option_copied result ≡ parameter_name self.now }
    {
        match self {
            ParameterP::Normal(x, _, _) | ParameterP::Args(x, _) | ParameterP::KwArgs(x, _) => {
                Some(x)
            }
            ParameterP::NoArgs | ParameterP::Slash => None,
        }
    }

    /// A mutable reference to the name; `None` for `/` and `*`.
    pub fn ident_mut(&mut self) -> Option<&mut AstAssignIdentP<P>>
        ensures* writes_back { sem 𝓛 (LendsName P.row P.LoadPayload.row P.IdentPayload.row P.IdentAssignPayload.row P.DefPayload.row P.TypeExprPayload.row
            self.entry result) }
        ensures value { option_copied_mut result ≡ parameter_name self.old }
    {
        match self {
            ParameterP::Normal(x, _, _) => Some(x),
            ParameterP::Args(x, _) => Some(x),
            ParameterP::KwArgs(x, _) => Some(x),
            ParameterP::NoArgs => None,
            ParameterP::Slash => None,
        }
    }

    /// A mutable reference to the type.
    pub fn type_mut(&mut self) -> Option<&mut AstTypeExprP<P>>
        ensures* writes_back { sem 𝓛 (LendsType P.row P.LoadPayload.row P.IdentPayload.row P.IdentAssignPayload.row P.DefPayload.row P.TypeExprPayload.row
            self.entry result) }
        ensures value { option_copied_mut result ≡ parameter_type self.old }
    {
        match self {
            ParameterP::Normal(_, ty, _) => held_mut(ty),
            ParameterP::Args(_, ty) => held_mut(ty),
            ParameterP::KwArgs(_, ty) => held_mut(ty),
            ParameterP::NoArgs => None,
            ParameterP::Slash => None,
        }
    }

    /// A mutable reference to the default value.
    pub fn default_mut(&mut self) -> Option<&mut AstExprP<P>>
        ensures* writes_back { sem 𝓛 (LendsDefault P.row P.LoadPayload.row P.IdentPayload.row P.IdentAssignPayload.row P.DefPayload.row
            P.TypeExprPayload.row self.entry result) }
        ensures value { option_copied_mut result ≡ parameter_default self.old }
    {
        match self {
            ParameterP::Normal(_, _, default) => held_mut(default),
            _ => None,
        }
    }

    /// The name, the type and the default value.
    pub fn split(
        &self,
    ) -> (
        Option<&AstAssignIdentP<P>>,
        Option<&AstTypeExprP<P>>,
        Option<&AstExprP<P>>,
    )
        ensures name { option_copied result.0 ≡ parameter_name self.now }
        ensures ty { option_copied result.1 ≡ parameter_type self.now }
        ensures default { option_copied result.2 ≡ parameter_default self.now }
    {
        match self {
            ParameterP::Normal(name, ty, default) => {
                (Some(name), ty.as_deref(), default.as_deref())
            }
            ParameterP::Args(name, ty) | ParameterP::KwArgs(name, ty) => {
                (Some(name), ty.as_deref(), None)
            }
            ParameterP::NoArgs | ParameterP::Slash => (None, None, None),
        }
    }
}
