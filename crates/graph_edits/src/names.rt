//! The names of a list, each found by one look-up.

ghost use Rattle.std.specs.Prelude.{◌≡◌, ◌≤◌, ◌<◌, ◌++◌, ◌∷◌, [], IfOk, OnErr, OnOk, length, remove};
ghost use Rattle.std.specs.List.{IsDistinct};
ghost use Rattle.std.specs.Str.{bytes_eq};
ghost use Rattle.graph_edits.specs.Names.{name_index};

use alloc_basics::NoMemory;
use indexmap::IndexSet;
use plane_rect::Name;
use std::alloc::Global;
use std::marker::Model;

/// Distinct names in an order, each found by one look-up. A clause sees them as their list.
#[derive(Drop)]
pub struct NameIndex {
    names: IndexSet<Name>,
}

impl Model for NameIndex {
    ghost use Rattle.std.specs.Prelude.{ℕ, List};

    ghost Value = { List (List ℕ) };

    ghost view = { λ index. index.names.keys };
}

impl NameIndex {
    /// Returns the index of no names, which takes no memory.
    pub fn new(alloc: Global) -> NameIndex
        ensures { result ≡ [] }
    {
        NameIndex {
            names: IndexSet::new(alloc),
        }
    }

    /// Returns the position of a name, and the number of names where it is not there.
    pub fn index_of(&self, name: Name) -> usize
        ensures value { result ≡ name_index self.now name }
        ensures bound { result ≤ length self.now }
    {
        match self.names.get_index_of(&name) {
            Some(index) => index,
            None => self.names.len(),
        }
    }

    /// Puts a name that is not there after the others.
    ///
    /// # Errors
    ///
    /// `NoMemory` if memory runs out: the index is unchanged.
    pub(crate) fn push(&mut self, name: Name) -> Result<(), NoMemory>
        requires { name_index self.old name ≡ length self.old }
        ensures pushed { OnOk result (self.new ≡ self.old ++ name ∷ []) }
        ensures unchanged { OnErr result (self.new ≡ self.old) }
    {
        self.names.insert(name)?;
        Ok(())
    }

    /// Takes the name at a position away; the others keep their order.
    pub(crate) fn remove(&mut self, index: usize)
        requires { index < length self.old }
        ensures { self.new ≡ remove self.old index }
    {
        let _ = self.names.shift_remove_index(index);
    }

    /// Returns an equal index.
    ///
    /// # Errors
    ///
    /// `NoMemory` if memory runs out.
    pub fn copy(&self) -> Result<NameIndex, NoMemory>
        ensures { IfOk result (λ copied. copied ≡ self.now) }
    {
        Ok(NameIndex {
            names: self.names.clone()?,
        })
    }
}
