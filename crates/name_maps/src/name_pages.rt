//! Pages of values by their numbers.

ghost use Rattle.std.specs.Prelude.{◌≡◌, ◌%◌, IsSome, OnErr, OnOk};
ghost use Rattle.std.specs.FinMap as map;

use crate::page::{clear_in, is_blank, replace_in, set_in, value_in};
use alloc_basics::NoMemory;
use std::alloc::Global;
use std::collections::HashMap;
use std::marker::Model;

/// How many names that follow one another have their values in one page.
const PAGE_NAMES: u64 = 32;

/// Returns the index of a name in its page.
fn index_of(name: u64) -> usize
    ensures { result ≡ name % 32 }
{
    (name % PAGE_NAMES) as usize
}

/// The values of names, in pages of 32 names each that follow one another. A clause sees the finite map from
/// names to values.
#[derive(Drop)]
pub struct NamePages<V> {
    pages: HashMap<u64, Vec<Option<V>>>,
    alloc: Global,
}

impl<V> Model for NamePages<V> {
    ghost use Rattle.std.specs.Coded.{coded_ℕ};
    ghost use Rattle.std.specs.FinMap as map;
    ghost use Rattle.chain_owners.specs.Values.{Named};
    ghost use Rattle.name_maps.specs.Pages.{names_of};

    ghost Value = { Named V };

    ghost coded = { map.code coded_ℕ V.code };

    ghost view = { λ a. names_of a.pages.entries };
}

impl<V: Copy> NamePages<V> {
    /// Returns no pages. Takes no memory.
    pub(crate) fn new(alloc: Global) -> NamePages<V>
        ensures { result ≡ map.empty }
    {
        NamePages {
            pages: HashMap::new(alloc),
            alloc,
        }
    }

    /// Returns the value of a name, where it has one.
    pub(crate) fn get(&self, name: u64) -> Option<V>
        ensures { result ≡ map.get self.now name }
    {
        match self.pages.get(&(name / PAGE_NAMES)) {
            Some(page) => value_in(page, index_of(name)),
            None => None,
        }
    }

    /// Gives a name a value, which may be its first.
    pub(crate) fn put(&mut self, name: u64, value: V) -> Result<(), NoMemory>
        ensures put { OnOk result (self.new ≡ map.insert self.old name value) }
        ensures unchanged { OnErr result (self.new ≡ self.old) }
    {
        if let Some(page) = self.pages.get_mut(&(name / PAGE_NAMES)) {
            return set_in(page, index_of(name), value);
        }
        let mut page = Vec::new(self.alloc);
        set_in(&mut page, index_of(name), value)?;
        self.pages.insert(name / PAGE_NAMES, page)?;
        Ok(())
    }

    /// Gives a name that has a value another one. Takes no memory.
    pub(crate) fn set(&mut self, name: u64, value: V)
        requires { IsSome (map.get self.old name) }
        ensures { self.new ≡ map.insert self.old name value }
    {
        if let Some(page) = self.pages.get_mut(&(name / PAGE_NAMES)) {
            replace_in(page, index_of(name), value);
        }
    }

    /// Takes a name out, and its page where no other name of it is there. Takes no memory.
    pub(crate) fn remove(&mut self, name: u64)
        ensures { self.new ≡ map.remove self.old name }
    {
        self.clear(name);
        self.drop_blank_page(name / PAGE_NAMES);
    }

    /// Takes a name out of its page.
    fn clear(&mut self, name: u64)
        ensures { self.new ≡ map.remove self.old name }
    {
        if let Some(page) = self.pages.get_mut(&(name / PAGE_NAMES)) {
            clear_in(page, index_of(name));
        }
    }

    /// Gives the memory of a page back that has no values.
    fn drop_blank_page(&mut self, number: u64)
        ensures { self.new ≡ self.old }
    {
        let blank = match self.pages.get(&number) {
            Some(page) => is_blank(page),
            None => false,
        };
        if blank {
            self.pages.remove(&number);
        }
    }
}
