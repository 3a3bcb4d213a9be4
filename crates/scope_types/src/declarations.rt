//! The declarations of a program in order, each found by its name through an index.
ghost use Rattle.std.specs.Prelude.{◌≡◌, ◌≤◌, ◌++◌, ◌∷◌, [], None, OnOk, OnErr, IfOk};
ghost use Rattle.std.specs.Prelude.{length, slice_get, option_copied, bytes_eq};
ghost use Rattle.std.specs.Hash as fed;
ghost use Rattle.std.specs.Cmp.Rules.{comparing, hashing};
ghost use Rattle.std.specs.Cmp.Lexicographic.{bytes_decides, nat_list_eq_equiv};
ghost use Rattle.std.proofs.Common.{ap, rules};
ghost use Rattle.ccp_base.specs.Limits.{most_fields};
ghost use Rattle.scope_types.specs.Names.{decl_from};

use ccp_base::same_bytes;
use indexmap::{Equivalent, IndexSet};
use portus_core::Decl;
use std::alloc::{AllocError, Global};
use std::hash::{Hash, Hasher};
use std::marker::Model;

/// A declaration, which is identified by its name.
#[derive(Drop)]
struct Named {
    decl: Decl,
}

impl Model for Named {
    ghost use Rattle.portus_core.specs.declared.program.Decl.{Decl};

    ghost Value = { Decl };

    ghost view = { λ n. n.decl };
}

impl PartialEq for Named {
    ghost eq = { λ a b. bytes_eq a.name b.name };

    ghost laws = { Prim.search (comparing, rules) };

    fn eq(&self, other: &Named) -> bool {
        same_bytes(self.decl.name.as_slice(), other.decl.name.as_slice())
    }
}

impl Eq for Named {
    ghost laws = { Prim.search (comparing, rules) };
}

impl Hash for Named {
    ghost hash_input = { λ a. fed.slice fed.u8 a.name };

    ghost respects_eq = { Prim.search (hashing, rules) };

    fn hash<H: Hasher>(&self, state: &mut H) {
        self.decl.name.as_slice().hash(state);
    }
}

/// A text is equivalent to the declaration that has it as its name.
impl Equivalent<Named> for &[u8] {
    ghost equivalent = { λ w a. bytes_eq w.now a.name };

    ghost respects_hash = { λ w a h. ap (fed.slice fed.u8) ((bytes_decides w.now a.name).0 h) };

    ghost respects_eq = { λ w a b. nat_list_eq_equiv.congr w.now a.name b.name };

    fn equivalent(&self, key: &Named) -> bool {
        same_bytes(*self, key.decl.name.as_slice())
    }
}

/// Declarations in order, each found by its name without a walk over the others. Contracts see them as a list.
#[derive(Drop)]
pub(crate) struct Declarations {
    all: IndexSet<Named>,
}

impl Model for Declarations {
    ghost use Rattle.std.specs.Prelude.{List};
    ghost use Rattle.portus_core.specs.declared.program.Decl.{Decl};

    ghost Value = { List Decl };

    ghost view = { λ d. d.all.keys };
}

impl Declarations {
    /// No declarations, which take no memory.
    pub(crate) fn new(alloc: Global) -> Self
        ensures { result ≡ [] }
    {
        Declarations {
            all: IndexSet::new(alloc),
        }
    }

    /// How many declarations there are.
    pub(crate) fn len(&self) -> usize
        ensures { result ≡ length self.now }
    {
        self.all.len()
    }

    /// The number of the declaration that has this name. A program has no more control variables than fields.
    pub(crate) fn position(&self, name: &[u8]) -> Option<u32>
        requires { length self.now ≤ most_fields }
        ensures { result ≡ decl_from 0 self.now name.now }
    {
        let index = self.all.get_index_of(name)?;
        Some(index as u32)
    }

    /// The declaration that has this number.
    pub(crate) fn get(&self, number: u32) -> Option<&Decl>
        ensures { option_copied result ≡ slice_get self.now number }
    {
        let named = self.all.get_index(number as usize)?;
        Some(&named.decl)
    }

    /// Appends a declaration of a new name.
    pub(crate) fn push(&mut self, decl: Decl) -> Result<(), AllocError>
        requires { decl_from 0 self.old decl.name ≡ None }
        ensures ok { OnOk result (self.new ≡ self.old ++ decl ∷ []) }
        ensures err { OnErr result (self.new ≡ self.old) }
    {
        match self.all.insert(Named { decl }) {
            Ok(_) => Ok(()),
            Err(refused) => Err(AllocError::from(refused)),
        }
    }

    /// The declarations as a `Vec`.
    pub(crate) fn to_vec(&self, alloc: Global) -> Result<Vec<Decl>, AllocError>
        ensures { IfOk result (λ decls. decls.items ≡ self.now) }
    {
        let mut decls = Vec::new(alloc);
        let mut rest = self.all.as_slice();
        while let Some((named, later)) = rest.split_first() {
            decls.push(named.decl)?;
            rest = later;
        }
        Ok(decls)
    }
}
