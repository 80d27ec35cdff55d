//! The handler that reads zeros where no tile is.

ghost use Rattle.std.specs.Prelude.{◌≡◌, IfErr, IfOk, IfSome, replicate};
ghost use Rattle.tile_cow.specs.Tile.{IsTileLength};
ghost use Rattle.chain_owners.specs.{Counts.Continues, Held.length_of};
ghost use Rattle.chain_owners.specs.Cause.{HasSwapCause};
ghost use Rattle.chain_contracts.specs.Tiles.{OnFull, Reads, ReportsRoom, emptied};

use crate::zero_tiles::ZeroTiles;
use alloc_basics::NoMemory;
use chain_contracts::TileHandler;
use chain_owners::{ChainMeaning, SwapRefused};
use std::alloc::Global;
use tile_cow::Tile;

/// Reads zeros under each name that isn't below, and holds what is below.
#[derive(Drop)]
pub struct EmptyHandler<H: TileHandler + Drop> {
    zeros: ZeroTiles,
    below: H,
}

impl<H: TileHandler + Drop> ChainMeaning for EmptyHandler<H> {
    ghost held = { λ tiles. H.held tiles.below };

    ghost counts = { λ tiles. H.counts tiles.below };

    ghost store = { λ tiles. H.store tiles.below };

    ghost resident = { λ tiles. H.resident tiles.below };

    ghost loans = { λ tiles. H.loans tiles.below };

    ghost is_valid = { λ tiles. H.is_valid tiles.below };

    ghost same_names = { λ tiles. H.same_names tiles.below };

    ghost same_counts = { λ tiles. H.same_counts tiles.below };

    ghost chain_laws = { λ tiles. H.chain_laws tiles.below };
}

impl<H: TileHandler + Drop> EmptyHandler<H> {
    /// Returns a handler of the tiles below. Takes no memory.
    pub fn new(alloc: Global, below: H) -> EmptyHandler<H>
        ensures { result.below ≡ below }
    {
        EmptyHandler {
            zeros: ZeroTiles::new(alloc),
            below,
        }
    }

    /// Returns a tile of so many zeros, which all who ask for this length share.
    pub fn zero(&mut self, len: u32) -> Result<Tile, NoMemory>
        requires { IsTileLength len }
        ensures zero { IfOk result (λ tile. tile ≡ replicate len 0) }
        ensures below { self.new.below ≡ self.old.below }
    {
        self.zeros.zero(len)
    }

    /// Returns the tile of a name, which has this many bytes if it is there. Without the name it is zero.
    ///
    /// # Errors
    ///
    /// As `TileHandler::get`; `NoMemory` also where the tile of zeros isn't there yet.
    pub fn read(&mut self, name: u64, len: u32) -> Result<Tile, SwapRefused>
        requires size { IsTileLength len }
        requires known { IfSome (length_of (H.held self.old.below) name) (λ there. there ≡ len) }
        ensures read { IfOk result (Reads (H.held self.old.below) name len) }
        ensures held { H.held self.new.below ≡ H.held self.old.below }
        ensures cause { IfErr result (HasSwapCause (emptied (H.counts self.old.below))
            (H.counts self.new.below) (H.counts self.old.below).names) }
        ensures full { H.is_valid self.old.below →
            IfErr result (ReportsRoom (H.held self.old.below) (H.store self.new.below)) }
        ensures resident { IfErr result
            (OnFull (H.full_at_get self.new.below (H.counts self.old.below).names)) }
        ensures continues { Continues (H.counts self.old.below) (H.counts self.new.below) }
        ensures loans { H.loans self.new.below ≡ H.loans self.old.below }
        ensures valid { H.is_valid self.old.below → H.is_valid self.new.below }
    {
        if self.below.has(name) {
            return self.below.get(name, len);
        }
        let zeros = self.zeros.zero(len)?;
        Ok(zeros)
    }

    /// Gives the handler below back.
    pub fn into_below(self) -> H
        ensures { result ≡ self.below }
    {
        let EmptyHandler { zeros: _, below } = self;
        below
    }
}

impl<H: TileHandler + Drop> TileHandler for EmptyHandler<H> {
    ghost in_swap = { λ tiles. H.in_swap tiles.below };

    ghost full_at_get = { λ tiles. H.full_at_get tiles.below };

    ghost full_at_put = { λ tiles. H.full_at_put tiles.below };

    fn has(&self, name: u64) -> bool {
        self.below.has(name)
    }

    fn get(&mut self, name: u64, len: u32) -> Result<Tile, SwapRefused> {
        self.below.get(name, len)
    }

    fn put(&mut self, name: u64, tile: &Tile) -> Result<(), SwapRefused> {
        self.below.put(name, tile)
    }

    fn forget(&mut self, name: u64) {
        self.below.forget(name);
    }

    fn flush(&mut self) -> Result<(), SwapRefused> {
        self.below.flush()
    }
}
