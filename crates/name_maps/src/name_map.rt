//! Maps from names to small values, and how many names they have.

ghost use Rattle.std.specs.Prelude.{◌≡◌, IsSome, OnErr, OnOk};
ghost use Rattle.std.specs.FinMap as map;

use crate::name_pages::NamePages;
use alloc_basics::NoMemory;
use std::alloc::Global;
use std::marker::Model;

/// A map from names to values. A clause sees a finite map. Values of 32 names that follow one another are side
/// by side, so a name costs little more than its value where most names of its 32 are there.
#[derive(Drop)]
pub struct NameMap<V> {
    pages: NamePages<V>,
    len: usize,
}

impl<V> Model for NameMap<V> {
    ghost use Rattle.std.specs.Prelude.{◌≡◌};
    ghost use Rattle.std.specs.Coded.{coded_ℕ};
    ghost use Rattle.std.specs.FinMap as map;
    ghost use Rattle.chain_owners.specs.Values.{Named};

    ghost Value = { Named V };

    ghost coded = { map.code coded_ℕ V.code };

    ghost view = { λ a. a.pages };

    ghost invariant = { λ a. a.len ≡ map.len a.pages };
}

impl<V: Copy> NameMap<V> {
    /// Returns a map without names. Takes no memory.
    pub fn new(alloc: Global) -> NameMap<V>
        ensures { result ≡ map.empty }
    {
        NameMap {
            pages: NamePages::new(alloc),
            len: 0,
        }
    }

    /// Returns how many names there are.
    pub fn len(&self) -> usize
        ensures { result ≡ map.len self.now }
    {
        self.len
    }

    /// Returns the value of a name, where it has one.
    pub fn get(&self, name: u64) -> Option<V>
        ensures { result ≡ map.get self.now name }
    {
        self.pages.get(name)
    }

    /// Gives a name a value, which may be its first.
    ///
    /// # Errors
    ///
    /// `NoMemory`; then the map is unchanged.
    pub fn insert(&mut self, name: u64, value: V) -> Result<(), NoMemory>
        ensures inserted { OnOk result (self.new ≡ map.insert self.old name value) }
        ensures unchanged { OnErr result (self.new ≡ self.old) }
    {
        let more = self.pages.get(name).is_none() as usize;
        let len = self.len.checked_add(more).ok_or(NoMemory)?;
        self.pages.put(name, value)?;
        self.len = len;
        Ok(())
    }

    /// Gives a name that has a value another one. Takes no memory.
    pub fn set(&mut self, name: u64, value: V)
        requires { IsSome (map.get self.old name) }
        ensures { self.new ≡ map.insert self.old name value }
    {
        self.pages.set(name, value);
    }

    /// Takes a name out. Takes no memory.
    pub fn remove(&mut self, name: u64)
        ensures { self.new ≡ map.remove self.old name }
    {
        if self.pages.get(name).is_some() {
            self.pages.remove(name);
            self.len -= 1;
        }
    }
}
