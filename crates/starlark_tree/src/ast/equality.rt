//! Names are equal if their texts and payloads are.
ghost use Rattle.std.specs.Prelude.{◌&&◌};
ghost use Rattle.std.specs.String.{string_eq};
ghost use Rattle.std.proofs.Common.{rules};
ghost use Rattle.std.specs.Cmp.Rules.{comparing};

use crate::ast::{AssignIdentP, AstPayload, IdentP};

impl<P: AstPayload> PartialEq for IdentP<P>
where
    P::IdentPayload: PartialEq,
{
    ghost eq = { λ x y. string_eq x.ident y.ident && P.IdentPayload.eq x.payload y.payload };

    ghost laws = { Prim.search (comparing, rules) };

    fn eq(&self, other: &IdentP<P>) -> bool {
        self.ident == other.ident && self.payload == other.payload
    }
}

impl<P: AstPayload> Eq for IdentP<P>
where
    P::IdentPayload: Eq,
{
    ghost laws = { Prim.search (comparing, rules) };
}

impl<P: AstPayload> PartialEq for AssignIdentP<P>
where
    P::IdentAssignPayload: PartialEq,
{
    ghost eq = { λ x y. string_eq x.ident y.ident && P.IdentAssignPayload.eq x.payload y.payload };

    ghost laws = { Prim.search (comparing, rules) };

    fn eq(&self, other: &AssignIdentP<P>) -> bool {
        self.ident == other.ident && self.payload == other.payload
    }
}

impl<P: AstPayload> Eq for AssignIdentP<P>
where
    P::IdentAssignPayload: Eq,
{
    ghost laws = { Prim.search (comparing, rules) };
}
