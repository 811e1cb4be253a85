//! The names that a block of comments lists.
ghost use Rattle.std.specs.Prelude.{◌≡◌, ◌↔◌, ◌++◌, Contains, IfOk, IfSome, IsTrue, OnErr, OnOk, map, string_bytes};
ghost use Rattle.std.proofs.Props.{props};
ghost use Rattle.starlark_module.specs.Comments.Names.{HasNames, is_listed};

use std::alloc::{AllocError, Global};
use std::collections::HashSet;

/// Up to this many names are searched one by one.
const FEW: usize = 8;

/// Names in the order in which comments list them.
#[derive(Debug, Drop)]
pub(crate) struct ShortNames {
    listed: Vec<String>,
    /// The same names, to find one of many.
    set: Option<HashSet<String>>,
    ghost same: { IfSome set (λ s. HasNames s listed.items) } by { Prim.hlevel props },
}

impl Clone for ShortNames {
    ghost use Rattle.std.specs.Prelude.{◌≡◌, map, string_bytes};

    ghost is_clone = { λ s t. map string_bytes t.listed.items ≡ map string_bytes s.listed.items };

    fn clone(&self) -> Result<Self, AllocError> {
        let listed = self.listed.clone()?;
        Ok(ShortNames::new(listed))
    }
}

impl ShortNames {
    /// These names, in this order.
    pub(crate) fn new(listed: Vec<String>) -> Self
        ensures { result.listed ≡ listed }
    {
        ShortNames { listed, set: None }
    }

    /// More names after these. If an allocation fails, the names are unchanged.
    pub(crate) fn append(&mut self, mut more: Vec<String>) -> Result<(), AllocError>
        ensures ok { OnOk result (self.new.listed.items ≡ self.old.listed.items ++ more.items) }
        ensures err { OnErr result (self.new.listed.items ≡ self.old.listed.items) }
    {
        self.set = None;
        self.listed.append(&mut more)
    }

    /// Makes the set of many names. If an allocation fails, they are searched one by one.
    pub(crate) fn index(&mut self)
        ensures { self.new.listed ≡ self.old.listed }
    {
        if self.listed.len() > FEW {
            if let Ok(set) = to_hash_set(*self.listed.allocator(), self.listed.as_slice()) {
                self.set = Some(set);
            }
        }
    }

    /// Whether this is one of the names.
    pub(crate) fn contains(&self, name: &str) -> bool
        ensures { IsTrue result ↔ (Contains (map string_bytes self.now.listed.items) name.now) }
    {
        match &self.set {
            Some(set) => set.contains(name),
            None => is_among(self.listed.as_slice(), name),
        }
    }
}

/// Whether a name is one of these, searched one by one.
fn is_among(names: &[String], name: &str) -> bool
    ensures { result ≡ is_listed name.now names.now }
{
    names.iter().any(|listed| listed.as_str() == name)
}

/// The set of these names.
fn to_hash_set(alloc: Global, names: &[String]) -> Result<HashSet<String>, AllocError>
    ensures { IfOk result (λ s. HasNames s names.now) }
{
    let mut set = HashSet::new(alloc);
    for name in names {
        set.insert(name.clone()?)?;
    }
    Ok(set)
}
