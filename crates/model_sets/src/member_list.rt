//! The members of one set.

ghost use Rattle.std.specs.Prelude.{◌≡◌, ◌<◌, ◌++◌, [], ◌∷◌, false, length, slice_index_or, OnOk, OnErr};
ghost use Rattle.std.specs.List.{IsDistinct};
ghost use Rattle.std.specs.Str.{bytes_eq};
ghost use Rattle.model_sets.specs.Members.{is_among, index_of};

use indexmap::IndexSet;
use std::alloc::{AllocError, Global};
use std::marker::Model;

/// The names of the members of a set, in the order in which they were added. None stands twice.
#[derive(Drop)]
pub(crate) struct MemberList {
    names: IndexSet<Vec<u8>>,
}

impl Model for MemberList {
    ghost use Rattle.std.specs.Prelude.{ℕ, List, map};

    ghost Value = { List (List ℕ) };

    ghost view = { λ list. map (λ name. name.items) list.names.keys };
}

impl MemberList {
    /// A list without members.
    pub(crate) fn new(alloc: Global) -> MemberList
        ensures { result ≡ [] }
    {
        MemberList {
            names: IndexSet::new(alloc),
        }
    }

    /// How many members there are.
    pub(crate) fn len(&self) -> usize
        ensures len { result ≡ length self.now }
        ensures distinct { IsDistinct bytes_eq self.now }
    {
        self.names.len()
    }

    /// The position of the member of this name.
    pub(crate) fn index_of(&self, name: &[u8]) -> Option<usize>
        ensures { result ≡ index_of self.now name.now }
    {
        self.names.get_index_of(name)
    }

    /// Whether there is a member of this name.
    pub(crate) fn contains(&self, name: &[u8]) -> bool
        ensures { result ≡ is_among self.now name.now }
    {
        self.names.contains(name)
    }

    /// The name of the member at the position.
    pub(crate) fn name_at(&self, index: usize) -> &[u8]
        requires { index < length self.now }
        ensures { result.now ≡ slice_index_or self.now index [] }
    {
        self.names.as_slice()[index].as_slice()
    }

    /// Adds a name that isn't there, as the last one. Refuses only where memory runs out, and then changes
    /// nothing.
    pub(crate) fn append(&mut self, alloc: Global, name: &[u8]) -> Result<(), AllocError>
        requires { is_among self.old name.now ≡ false }
        ensures appended { OnOk result (self.new ≡ self.old ++ name.now ∷ []) }
        ensures distinct { OnOk result (IsDistinct bytes_eq self.new) }
        ensures unchanged { OnErr result (self.new ≡ self.old) }
    {
        let copy = Vec::from_slice(alloc, name)?;
        self.names.insert(copy)?;
        Ok(())
    }
}
