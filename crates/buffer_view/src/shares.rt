//! Buffers shared and released.

ghost use Rattle.std.specs.Prelude.{◌≡◌, ◌++◌, [], All, IfOk, MatchResult, OnErr, OnOk};
ghost use Rattle.chain_owners.specs.Owners.{Owns, Respects};
ghost use Rattle.chain_owners.specs.Counts.{Grows};
ghost use Rattle.root_tiles.specs.Chains.{Leaves, chain_state};
ghost use Rattle.root_tiles.specs.Roots.{IsRootOver};
ghost use Rattle.buffer_view.specs.BufferTables.{AreBuffersOver, buffers_names, names_of_roots, table_of};
ghost use Rattle.buffer_view.specs.Shares.{Shares};

use crate::buffers::Buffers;
use alloc_basics::NoMemory;
use chain_contracts::TileChain;
use root_tiles::Root;
use std::alloc::Global;

impl Buffers {
    /// Returns equal buffers, which are an owner of each name as these are. Takes all its memory before the chain is
    /// changed, and time in proportion to the tiles, of which it copies none.
    ///
    /// # Errors
    ///
    /// `NoMemory` if memory runs out; then the chain is unchanged.
    pub fn snapshot<C: TileChain>(&self, chain: &mut C) -> Result<Buffers, NoMemory>
        requires { AreBuffersOver self.now (C.held chain.old) }
        ensures buffers { IfOk result (λ shared. shared ≡ self.now) }
        ensures lengths { (C.held chain.new).lengths ≡ (C.held chain.old).lengths }
        ensures content { (C.held chain.new).content ≡ (C.held chain.old).content }
        ensures unchanged { OnErr result (C.held chain.new ≡ C.held chain.old) }
        ensures table { table_of self.now (C.held chain.new) ≡ table_of self.now (C.held chain.old) }
        ensures over { AreBuffersOver self.now (C.held chain.new) }
        ensures owned { OnOk result (Owns (C.held chain.new) (buffers_names self.now ++ buffers_names self.now)) }
        ensures others { MatchResult result
            (λ _. Respects (C.held chain.old) (C.held chain.new) (buffers_names self.now) (buffers_names self.now ++ buffers_names self.now))
            (λ _. Respects (C.held chain.old) (C.held chain.new) (buffers_names self.now) (buffers_names self.now)) }
        ensures counts { Grows 0 (C.counts chain.old) (C.counts chain.new) }
        ensures loans { C.loans chain.new ≡ C.loans chain.old }
        ensures valid { C.is_valid chain.old → C.is_valid chain.new }
    {
        let layout = self.layout.copy()?;
        let roots = copy_each(self.alloc, &self.roots)?;
        own_each(&self.roots, chain);
        Ok(Buffers {
            layout,
            roots,
            alloc: self.alloc,
        })
    }

    /// Gives the buffers up, and with them all their names. Takes no memory.
    pub fn release<C: TileChain>(self, chain: &mut C)
        requires { AreBuffersOver self (C.held chain.old) }
        ensures { Leaves 0 (buffers_names self) [] (chain_state C.ChainMeaning chain.old) (chain_state C.ChainMeaning chain.new) }
    {
        release_each(self.roots, chain);
    }
}

/// Returns a root with the same box and tiles for each root, in their order. They are no owners yet.
fn copy_each(alloc: Global, roots: &[Root]) -> Result<Vec<Root>, NoMemory>
    ensures { IfOk result (λ copies. copies.items ≡ roots.now) }
{
    let mut copies = Vec::with_capacity(alloc, roots.len())?;
    for root in roots {
        copies.push_reserved(root.copy()?);
    }
    Ok(copies)
}

/// Becomes an owner of the names of each root once more. Takes no memory.
fn own_each<C: TileChain>(roots: &[Root], chain: &mut C)
    requires over { All (λ root. IsRootOver root (C.held chain.old)) roots.now }
    requires owned { Owns (C.held chain.old) (names_of_roots roots.now) }
    ensures { Shares roots.now roots.now (chain_state C.ChainMeaning chain.old) (chain_state C.ChainMeaning chain.new) }
{
    for root in roots {
        root.own(chain);
    }
}

/// Gives each root up. Takes no memory.
fn release_each<C: TileChain>(roots: Vec<Root>, chain: &mut C)
    requires over { All (λ root. IsRootOver root (C.held chain.old)) roots.items }
    requires owned { Owns (C.held chain.old) (names_of_roots roots.items) }
    ensures { Leaves 0 (names_of_roots roots.items) [] (chain_state C.ChainMeaning chain.old) (chain_state C.ChainMeaning chain.new) }
{
    for root in roots {
        root.release(chain);
    }
}
