//! Roots shared and released.

ghost use Rattle.std.specs.Prelude.{◌≡◌, ◌++◌, [], IfOk, OnErr, OnOk};
ghost use Rattle.chain_owners.specs.Owners.{Owns, Respects};
ghost use Rattle.root_tiles.specs.Chains.{Leaves, chain_state};
ghost use Rattle.root_tiles.specs.Roots.{IsRootOver, root_image, root_names};

use crate::root::Root;
use alloc_basics::NoMemory;
use chain_contracts::TileChain;

impl Root {
    /// Returns a root with the same box and tiles, which is an owner of each name as this one is. The chain's
    /// names and bytes are unchanged. Takes one look into the chain for each tile, and copies none.
    ///
    /// # Errors
    ///
    /// `NoMemory` if memory runs out; then the chain is unchanged.
    pub fn share<C: TileChain>(&self, chain: &mut C) -> Result<Root, NoMemory>
        requires { IsRootOver self.now (C.held chain.old) }
        ensures root { IfOk result (λ shared. shared ≡ self.now) }
        ensures lengths { (C.held chain.new).lengths ≡ (C.held chain.old).lengths }
        ensures content { (C.held chain.new).content ≡ (C.held chain.old).content }
        ensures unchanged { OnErr result (C.held chain.new ≡ C.held chain.old) }
        ensures image { root_image self.now (C.held chain.new) ≡ root_image self.now (C.held chain.old) }
        ensures over { IsRootOver self.now (C.held chain.new) }
        ensures owned { OnOk result (Owns (C.held chain.new) (root_names self.now ++ root_names self.now)) }
        ensures others { OnOk result (Respects (C.held chain.old) (C.held chain.new)
            (root_names self.now) (root_names self.now ++ root_names self.now)) }
        ensures counts { C.counts chain.new ≡ C.counts chain.old }
        ensures loans { C.loans chain.new ≡ C.loans chain.old }
        ensures valid { C.is_valid chain.old → C.is_valid chain.new }
    {
        Ok(Root {
            bounds: self.bounds(),
            table: self.table.share(chain)?,
            alloc: self.alloc,
        })
    }

    /// Returns a root with the same box and tiles, which is no owner of their names before a [`Root::own`].
    ///
    /// # Errors
    ///
    /// `NoMemory` if memory runs out.
    pub fn copy(&self) -> Result<Root, NoMemory>
        ensures { IfOk result (λ copy. copy ≡ self.now) }
    {
        Ok(Root {
            bounds: self.bounds(),
            table: self.table.copy()?,
            alloc: self.alloc,
        })
    }

    /// Becomes an owner of each name once more, for a [`Root::copy`] that holds it too. The chain's names and bytes
    /// are unchanged. Takes one look into the chain for each tile, and no memory.
    pub fn own<C: TileChain>(&self, chain: &mut C)
        requires { IsRootOver self.now (C.held chain.old) }
        ensures lengths { (C.held chain.new).lengths ≡ (C.held chain.old).lengths }
        ensures content { (C.held chain.new).content ≡ (C.held chain.old).content }
        ensures image { root_image self.now (C.held chain.new) ≡ root_image self.now (C.held chain.old) }
        ensures over { IsRootOver self.now (C.held chain.new) }
        ensures owned { Owns (C.held chain.new) (root_names self.now ++ root_names self.now) }
        ensures others { Respects (C.held chain.old) (C.held chain.new)
            (root_names self.now) (root_names self.now ++ root_names self.now) }
        ensures counts { C.counts chain.new ≡ C.counts chain.old }
        ensures loans { C.loans chain.new ≡ C.loans chain.old }
        ensures valid { C.is_valid chain.old → C.is_valid chain.new }
    {
        self.table.own(chain);
    }

    /// Gives the root up, and with it all its names. Takes no memory.
    pub fn release<C: TileChain>(self, chain: &mut C)
        requires { IsRootOver self (C.held chain.old) }
        ensures { Leaves 0 (root_names self) [] (chain_state C.ChainMeaning chain.old) (chain_state C.ChainMeaning chain.new) }
    {
        self.table.release(chain);
    }
}
