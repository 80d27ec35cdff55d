//! Tables shared and released.

ghost use Rattle.std.specs.Prelude.{◌≡◌, ℕ, ◌<◌, ◌++◌, [], IfOk, IsSome, OnErr, OnOk};
ghost use Rattle.std.specs.Map.{values_of};
ghost use Rattle.chain_owners.specs.Owners.{Owns, Respects, times};
ghost use Rattle.chain_owners.specs.{Counts.Grows, Held.length_of};
ghost use Rattle.level_tables.specs.LevelTiles.{image_of, names};
ghost use Rattle.level_tables.specs.Over.{IsOver};

use crate::table::LevelTable;
use alloc_basics::NoMemory;
use chain_contracts::TileChain;
use indexmap::IndexMap;
use std::hash::Hash;

impl LevelTable {
    /// Returns a table of the same tiles, which is an owner of each name as this one is. The chain's names
    /// and bytes are unchanged. Takes one look into the chain for each tile, and a copy.
    ///
    /// # Errors
    ///
    /// `NoMemory` if memory runs out; then the chain is unchanged.
    pub fn share<C: TileChain>(&self, chain: &mut C) -> Result<LevelTable, NoMemory>
        requires { IsOver self.now.tiles (C.held chain.old) }
        ensures tiles { IfOk result (λ shared. shared.tiles ≡ self.now.tiles) }
        ensures lengths { (C.held chain.new).lengths ≡ (C.held chain.old).lengths }
        ensures content { (C.held chain.new).content ≡ (C.held chain.old).content }
        ensures unchanged { OnErr result (C.held chain.new ≡ C.held chain.old) }
        ensures image { image_of self.now.tiles (C.held chain.new) ≡ image_of self.now.tiles (C.held chain.old) }
        ensures over { IsOver self.now.tiles (C.held chain.new) }
        ensures owned { OnOk result (Owns (C.held chain.new) (names self.now.tiles ++ names self.now.tiles)) }
        ensures others { OnOk result (Respects (C.held chain.old) (C.held chain.new)
            (names self.now.tiles) (names self.now.tiles ++ names self.now.tiles)) }
        ensures counts { C.counts chain.new ≡ C.counts chain.old }
        ensures loans { C.loans chain.new ≡ C.loans chain.old }
        ensures valid { C.is_valid chain.old → C.is_valid chain.new }
    {
        let copy = self.copy()?;
        self.own(chain);
        Ok(copy)
    }

    /// Becomes an owner of each name once more, for a [`LevelTable::copy`] that holds it too. The chain's names and
    /// bytes are unchanged. Takes one look into the chain for each tile, and no memory.
    pub fn own<C: TileChain>(&self, chain: &mut C)
        requires { IsOver self.now.tiles (C.held chain.old) }
        ensures lengths { (C.held chain.new).lengths ≡ (C.held chain.old).lengths }
        ensures content { (C.held chain.new).content ≡ (C.held chain.old).content }
        ensures image { image_of self.now.tiles (C.held chain.new) ≡ image_of self.now.tiles (C.held chain.old) }
        ensures over { IsOver self.now.tiles (C.held chain.new) }
        ensures owned { Owns (C.held chain.new) (names self.now.tiles ++ names self.now.tiles) }
        ensures others { Respects (C.held chain.old) (C.held chain.new)
            (names self.now.tiles) (names self.now.tiles ++ names self.now.tiles) }
        ensures counts { C.counts chain.new ≡ C.counts chain.old }
        ensures loans { C.loans chain.new ≡ C.loans chain.old }
        ensures valid { C.is_valid chain.old → C.is_valid chain.new }
    {
        own_each(&self.put, chain);
        own_each(&self.levels, chain);
    }

    /// Gives the table up, and with it all its names. Takes no memory.
    pub fn release<C: TileChain>(self, chain: &mut C)
        requires { IsOver self.tiles (C.held chain.old) }
        ensures others { Respects (C.held chain.old) (C.held chain.new) (names self.tiles) [] }
        ensures counts { Grows 0 (C.counts chain.old) (C.counts chain.new) }
        ensures loans { C.loans chain.new ≡ C.loans chain.old }
        ensures valid { C.is_valid chain.old → C.is_valid chain.new }
    {
        disown_each(&self.put, chain);
        disown_each(&self.levels, chain);
    }
}

/// Becomes an owner of each of these names, as often as it is there.
fn own_each<K: Eq + Hash, C: TileChain>(entries: &IndexMap<K, u64>, chain: &mut C)
    requires { (name : ℕ) → 0 < times (values_of entries.now.entries) name → IsSome (length_of (C.held chain.old) name) }
    ensures lengths { (C.held chain.new).lengths ≡ (C.held chain.old).lengths }
    ensures content { (C.held chain.new).content ≡ (C.held chain.old).content }
    ensures others { Respects (C.held chain.old) (C.held chain.new) (values_of entries.now.entries)
        (values_of entries.now.entries ++ values_of entries.now.entries) }
    ensures counts { C.counts chain.new ≡ C.counts chain.old }
    ensures loans { C.loans chain.new ≡ C.loans chain.old }
    ensures valid { C.is_valid chain.old → C.is_valid chain.new }
{
    for name in entries.values() {
        chain.own(*name);
    }
}

/// Gives up each of these names, as often as it is there.
fn disown_each<K: Eq + Hash, C: TileChain>(entries: &IndexMap<K, u64>, chain: &mut C)
    requires owned { Owns (C.held chain.old) (values_of entries.now.entries) }
    requires there { (name : ℕ) → 0 < times (values_of entries.now.entries) name → IsSome (length_of (C.held chain.old) name) }
    ensures others { Respects (C.held chain.old) (C.held chain.new) (values_of entries.now.entries) [] }
    ensures counts { Grows 0 (C.counts chain.old) (C.counts chain.new) }
    ensures loans { C.loans chain.new ≡ C.loans chain.old }
    ensures valid { C.is_valid chain.old → C.is_valid chain.new }
{
    for name in entries.values() {
        chain.disown(*name);
    }
}
