//! Clones of load statements.
ghost use Rattle.std.specs.Prelude.{IfOk};
ghost use Rattle.std.specs.List.{AllZip};
ghost use Rattle.starlark_tree.specs.Clones.{ClonesForm, ClonesLoadArg, cloning};
ghost use Rattle.starlark_tree.specs.Views.{form_seen, load_arg_of};
ghost use Rattle.starlark_tree.specs.declared.ast.StmtP;

use crate::ast::{AstPayload, LoadArgP, LoadP};
use crate::clone::leaf::{
    Cloned, both, clone_assign_ident, clone_text, empty_like, made_of, push_made,
};

pub(super) fn clone_load_arg<P: AstPayload>(arg: &LoadArgP<P>) -> Cloned<LoadArgP<P>>
    ensures { IfOk result (λ copy. ClonesLoadArg
        (cloning P.LoadPayload.is_clone P.IdentPayload.is_clone P.IdentAssignPayload.is_clone P.DefPayload.is_clone P.TypeExprPayload.is_clone)
        (load_arg_of arg.now) (load_arg_of copy)) }
{
    let parts = both(clone_assign_ident(&arg.local), clone_text(&arg.their));
    let comma = arg.comma;
    made_of!(parts, (local, their) => LoadArgP { local, their, comma })
}

#[tactic(auto, using(crate::proofs::Clones::one_more))]
fn clone_load_args<P: AstPayload>(items: &Vec<LoadArgP<P>>) -> Cloned<Vec<LoadArgP<P>>>
    ensures { IfOk result (λ copies. AllZip (λ x y. ClonesLoadArg
        (cloning P.LoadPayload.is_clone P.IdentPayload.is_clone P.IdentAssignPayload.is_clone P.DefPayload.is_clone P.TypeExprPayload.is_clone)
        (load_arg_of x) (load_arg_of y)) items.now.items copies.items) }
{
    let mut copies = empty_like(items)?;
    for item in items {
        push_made(&mut copies, clone_load_arg(item))?;
    }
    Ok(copies)
}

#[tactic(auto, using(crate::proofs::Clones::zip_mapped))]
pub(super) fn clone_load<P: AstPayload>(load: &LoadP<P>) -> Cloned<LoadP<P>>
    ensures { IfOk result (λ copy. ClonesForm
        (cloning P.LoadPayload.is_clone P.IdentPayload.is_clone P.IdentAssignPayload.is_clone P.DefPayload.is_clone P.TypeExprPayload.is_clone)
        (form_seen (StmtP.Load load.now)) (form_seen (StmtP.Load copy))) }
{
    let names = both(clone_text(&load.module), clone_load_args(&load.args));
    let parts = both(names, load.payload.clone());
    made_of!(parts, ((module, args), payload) => LoadP { module, args, payload })
}
