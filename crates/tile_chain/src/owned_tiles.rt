//! Tiles under names that have owners.

ghost use Rattle.std.specs.Prelude.{◌≡◌, ◌-◌, ◌^◌, ◌<◌, ◌≤◌, ◌∷◌, None, IfOk, IfSome, min};
ghost use Rattle.std.specs.FinMap as map;
ghost use Rattle.tile_chain.specs.OwnedTiles.{HaveOwners, counts_over, nothing_over, owned_has_counts, owned_is_chain, with_counts};
ghost use Rattle.tile_chain.specs.{DiskTiles.disk_held, Overlay.overlay};

use crate::cache_handler::CacheHandler;
use crate::chain_memory::ChainMemory;
use crate::disk_handler::DiskHandler;
use crate::empty_handler::EmptyHandler;
use crate::owner_counts::OwnerCounts;
use alloc_basics::NoMemory;
use chain_contracts::{TileChain, TileHandler};
use chain_owners::{ChainMeaning, SwapRefused};
use outside_io::{Lent, SwapDisk};
use std::alloc::Global;
use swap_store::Store;
use tile_cow::Tile;

/// The tiles of a chain: zeros where none is, then those in memory, then those on the disk.
type Tiles<D> = EmptyHandler<CacheHandler<DiskHandler<D>>>;

/// A map from names to tiles over a disk that it owns, in which each name has owners. A clause sees what
/// it holds by `ChainMeaning`. `near` is the name that came or went last, `next` one past the largest that was given.
#[derive(Drop)]
pub struct OwnedTiles<D: SwapDisk + Drop>
where
    // What the cache in `tiles` says of the handler below it is said by this bound's meanings.
    DiskHandler<D>: TileHandler,
{
    tiles: Tiles<D>,
    owners: OwnerCounts,
    next: u64,
    near: u64,
    ghost counted: { HaveOwners (overlay tiles.below.tiles.entries (disk_held
        tiles.below.below.store.placement (D.blocks tiles.below.below.store.disk))) owners },
}

/// A chain over a disk that was lent to it.
pub type Chain<'s, D> = OwnedTiles<Lent<'s, D>>;

impl<D: SwapDisk + Drop> ChainMeaning for OwnedTiles<D> {
    ghost held = { λ chain. with_counts (⟦<Tiles<D> as ChainMeaning>⟧.held chain.tiles) chain.owners };

    ghost counts = { λ chain. ⟦<Tiles<D> as ChainMeaning>⟧.counts chain.tiles };

    ghost store = { λ chain. ⟦<Tiles<D> as ChainMeaning>⟧.store chain.tiles };

    ghost resident = { λ chain. ⟦<Tiles<D> as ChainMeaning>⟧.resident chain.tiles };

    ghost loans = { λ chain. ⟦<Tiles<D> as ChainMeaning>⟧.loans chain.tiles };

    ghost is_valid = { λ chain. ⟦<Tiles<D> as ChainMeaning>⟧.is_valid chain.tiles };

    ghost same_names = { λ chain. ⟦<Tiles<D> as ChainMeaning>⟧.same_names chain.tiles };

    ghost same_counts = { λ chain. owned_has_counts _ _ _ chain.owners (⟦<Tiles<D> as ChainMeaning>⟧.same_counts chain.tiles) };

    ghost chain_laws = { λ chain valid. owned_is_chain _ _ _ _ chain.owners (⟦<Tiles<D> as ChainMeaning>⟧.chain_laws chain.tiles valid) };
}

impl<'s, D: SwapDisk> OwnedTiles<Lent<'s, D>> {
    /// Returns a chain without names, whose tiles take at most `blocks` blocks of a disk, or all where it
    /// has fewer, and of which at most `resident` are in memory. A caller that must still know the disk where
    /// memory runs out takes a `ChainMemory` first, and then makes the chain by `over`.
    pub fn new(
        alloc: Global,
        disk: &'s mut D,
        blocks: u32,
        resident: u32,
    ) -> Result<Chain<'s, D>, NoMemory>
        requires { 1 ≤ resident }
        ensures held { IfOk result (λ chain.
            ⟦<Chain<'s, D> as ChainMeaning>⟧.held chain ≡ nothing_over (D.blocks disk.old)) }
        ensures counts { IfOk result (λ chain. ⟦<Chain<'s, D> as ChainMeaning>⟧.counts chain
            ≡ counts_over (D.faults disk.old) (min blocks (D.block_count disk.old)) resident) }
        ensures resident { IfOk result (λ chain. ⟦<Chain<'s, D> as ChainMeaning>⟧.resident chain ≡ 0) }
        ensures loans { IfOk result (λ chain.
            ⟦<Chain<'s, D> as ChainMeaning>⟧.loans chain ≡ disk.entry.ghost_name ∷ D.loans disk.old) }
        ensures valid { IfOk result (λ chain. ⟦<Chain<'s, D> as ChainMeaning>⟧.is_valid chain) }
        ensures disk { IfOk result (λ chain. chain.tiles.below.below.store.disk.disk ≡ disk.entry) }
    {
        let memory = ChainMemory::new(alloc, blocks.min(disk.size()), resident)?;
        Ok(OwnedTiles::over(memory, Lent { disk }))
    }
}

impl<D: SwapDisk + Drop> OwnedTiles<D> {
    /// Returns a chain without names over a disk, for which the memory was taken before. It can't fail,
    /// so the disk is lent only once all memory is there.
    pub fn over(memory: ChainMemory, disk: D) -> OwnedTiles<D>
        requires { memory.store.used ≤ D.block_count disk }
        ensures held { ⟦<OwnedTiles<D> as ChainMeaning>⟧.held result ≡ nothing_over (D.blocks disk) }
        ensures counts { ⟦<OwnedTiles<D> as ChainMeaning>⟧.counts result
            ≡ counts_over (D.faults disk) memory.store.used memory.tiles.cap }
        ensures resident { ⟦<OwnedTiles<D> as ChainMeaning>⟧.resident result ≡ 0 }
        ensures loans { ⟦<OwnedTiles<D> as ChainMeaning>⟧.loans result ≡ D.loans disk }
        ensures valid { ⟦<OwnedTiles<D> as ChainMeaning>⟧.is_valid result }
        ensures disk { result.tiles.below.below.store.disk ≡ disk }
    {
        let ChainMemory {
            store,
            tiles,
            alloc,
        } = memory;
        let below = DiskHandler::new(Store::over(store, disk));
        let cache = CacheHandler::over(alloc, tiles, below);
        OwnedTiles {
            tiles: EmptyHandler::new(alloc, cache),
            owners: OwnerCounts::new(alloc),
            next: 1,
            near: 1,
        }
    }

    /// Gives the disk back, as the last call left it. Tiles that are in memory alone are lost.
    pub fn end(self) -> D
        ensures disk { result ≡ self.tiles.below.below.store.disk }
        ensures faults { D.faults result ≡ (⟦<OwnedTiles<D> as ChainMeaning>⟧.counts self).faults }
        ensures loans { D.loans result ≡ ⟦<OwnedTiles<D> as ChainMeaning>⟧.loans self }
    {
        let OwnedTiles {
            tiles,
            owners: _,
            next: _,
            near: _,
        } = self;
        tiles.into_below().into_below().end()
    }

    /// Returns a name that isn't there, and is never 0: one near the name that came or went last, so that
    /// names stay close to one another, or else the first one from the next on, or from 1 on where all of
    /// those are there. Takes time in proportion to the number of names at most.
    fn free_name(&self) -> Option<u64>
        ensures absent { IfSome result (λ name. map.get self.now.owners name ≡ None) }
        ensures range { IfSome result (λ name. (1 ≤ name) × (name < 2 ^ 64 - 1)) }
    {
        if let Some(name) = self.owners.absent_near(self.near.max(1)) {
            return Some(name);
        }
        if let Some(name) = self.owners.first_absent(self.next.max(1)) {
            return Some(name);
        }
        self.owners.first_absent(1)
    }
}

impl<D: SwapDisk + Drop> TileChain for OwnedTiles<D> {
    ghost in_swap = { λ chain. with_counts (⟦<Tiles<D> as TileHandler>⟧.in_swap chain.tiles) chain.owners };

    fn new_name(&mut self, tile: Tile) -> Result<u64, SwapRefused> {
        let name = self.free_name().ok_or(SwapRefused::NoMemory)?;
        self.owners.add(name)?;
        match self.tiles.put(name, &tile) {
            Ok(()) => {
                self.near = name + 1;
                self.next = self.next.max(name + 1);
                Ok(name)
            }
            Err(refused) => {
                self.owners.remove(name);
                Err(refused)
            }
        }
    }

    fn read(&mut self, name: u64, len: u32) -> Result<Tile, SwapRefused> {
        self.tiles.read(name, len)
    }

    fn zero(&mut self, len: u32) -> Result<Tile, NoMemory> {
        self.tiles.zero(len)
    }

    fn rewrite(&mut self, name: u64, tile: &Tile) -> Result<(), SwapRefused> {
        self.tiles.put(name, tile)
    }

    fn own(&mut self, name: u64) {
        let count = self.owners(name);
        if count < u32::MAX {
            self.owners.set(name, count + 1);
        }
    }

    fn disown(&mut self, name: u64) {
        let count = self.owners(name);
        if count == u32::MAX {
            return;
        }
        if count > 1 {
            self.owners.set(name, count - 1);
            return;
        }
        self.tiles.forget(name);
        self.owners.remove(name);
        self.near = name;
    }

    fn owners(&self, name: u64) -> u32 {
        self.owners.of(name).unwrap_or(0)
    }

    fn flush(&mut self) -> Result<(), SwapRefused> {
        self.tiles.flush()
    }
}
