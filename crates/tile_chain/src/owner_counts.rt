//! How many owners names have.

ghost use Rattle.std.specs.Prelude.{◌≡◌, ◌-◌, ◌^◌, ◌<◌, ◌≤◌, None, IfSome, IsSome, OnErr, OnOk};
ghost use Rattle.std.specs.FinMap as map;

use alloc_basics::NoMemory;
use name_maps::NameMap;
use std::alloc::Global;
use std::marker::Model;

/// How many names are looked at from one on that is likely to be absent.
const NEAR_NAMES: u64 = 16;

/// How many owners each name has. A clause sees the finite map from names to numbers.
#[derive(Drop)]
pub(crate) struct OwnerCounts {
    counts: NameMap<u32>,
}

impl Model for OwnerCounts {
    ghost use Rattle.std.specs.Prelude.{ℕ};
    ghost use Rattle.std.specs.Coded.{coded_ℕ};
    ghost use Rattle.std.specs.FinMap as map;
    ghost use Rattle.chain_owners.specs.Values.{Named};

    ghost Value = { Named ℕ };

    ghost coded = { map.code coded_ℕ coded_ℕ };

    ghost view = { λ owners. owners.counts };
}

impl OwnerCounts {
    /// Returns a map without names. Takes no memory.
    pub fn new(alloc: Global) -> OwnerCounts
        ensures { result ≡ map.empty }
    {
        OwnerCounts {
            counts: NameMap::new(alloc),
        }
    }

    /// Returns how many owners a name has, where it is there.
    pub fn of(&self, name: u64) -> Option<u32>
        ensures { result ≡ map.get self.now name }
    {
        self.counts.get(name)
    }

    /// Returns the first name from `from` on that isn't there. It looks at each name before that.
    pub fn first_absent(&self, from: u64) -> Option<u64>
        ensures absent { IfSome result (λ name. map.get self.now name ≡ None) }
        ensures range { IfSome result (λ name. (from ≤ name) × (name < 2 ^ 64 - 1)) }
    {
        (from..u64::MAX).find(|name| self.of(*name).is_none())
    }

    /// Returns the first name from `from` on that isn't there, where it is one of the first few.
    pub fn absent_near(&self, from: u64) -> Option<u64>
        ensures absent { IfSome result (λ name. map.get self.now name ≡ None) }
        ensures range { IfSome result (λ name. (from ≤ name) × (name < 2 ^ 64 - 1)) }
    {
        (from..from.saturating_add(NEAR_NAMES)).find(|name| self.of(*name).is_none())
    }

    /// Adds a name of one owner.
    pub fn add(&mut self, name: u64) -> Result<(), NoMemory>
        ensures added { OnOk result (self.new ≡ map.insert self.old name 1) }
        ensures unchanged { OnErr result (self.new ≡ self.old) }
    {
        self.counts.insert(name, 1)?;
        Ok(())
    }

    /// Gives a name that is there so many owners. Takes no memory.
    pub fn set(&mut self, name: u64, count: u32)
        requires { IsSome (map.get self.old name) }
        ensures { self.new ≡ map.insert self.old name count }
    {
        self.counts.set(name, count);
    }

    /// Takes a name out. Takes no memory.
    pub fn remove(&mut self, name: u64)
        ensures { self.new ≡ map.remove self.old name }
    {
        self.counts.remove(name);
    }
}
