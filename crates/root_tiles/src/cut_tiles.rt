//! Tiles of a raster that several threads cut, before their turn.

ghost use Rattle.std.specs.Prelude.{◌≡◌, ◌++◌, IfOk, OnOk};
ghost use denote.Param.Send.{IsSync};
ghost use Rattle.std.specs.Vec.Iter.{into_iter_items};
ghost use Rattle.root_tiles.specs.Cutting.{AreCutFrom, IsRaster, raster_cutting};

use crate::cutting::{CutTile, Raster};
use crate::ready::ReadyTiles;
use alloc_basics::NoMemory;
use plane_rect::{Rect, TileAt, Tiles};
use std::alloc::Global;
use std::thread::Threads;
use std::vec::IntoIter;
use tile_cow::Tile;
use worker_pieces::Workers;

/// How many bytes of tiles a batch has at most, which is how much of a raster is held a second time.
const BATCH_BYTES: usize = 4 << 20;

/// How many bytes of covered tiles make a batch worth splitting. One thread writes so many in 310 us into memory
/// that was in use before, and in 550 into new memory, at best, and the threads of four workers start in 40 to 150.
const SPLIT_BYTES: usize = 2 << 20;

/// The tiles of a part of a raster, a batch of which several threads cut when the first of it is asked for.
#[derive(Drop)]
pub(crate) struct CutTiles<'a, R: Threads + Sync> {
    raster: &'a Raster<'a>,
    workers: Workers<'a, R>,
    /// The positions that no batch had yet.
    left: Tiles,
    /// How many positions of the batch are still to be asked for.
    pending: usize,
    /// The batch, which is empty where it wasn't worth splitting.
    batch: IntoIter<CutTile>,
}

impl<'a, R: Threads + Sync> CutTiles<'a, R> {
    /// Returns the tiles of a part of a raster. None is cut yet.
    pub fn new(raster: &'a Raster<'a>, part: &Rect, workers: Workers<'a, R>) -> CutTiles<'a, R>
        requires { IsRaster raster.now }
        ensures raster { result.raster.now ≡ raster.now }
        ensures cut { AreCutFrom result.raster.now result.left (into_iter_items result.batch) }
    {
        let left = part.tiles();
        let batch = Vec::new(raster.alloc).into_iter();
        CutTiles {
            raster,
            workers,
            left,
            pending: 0,
            batch,
        }
    }

    /// Cuts the next batch where all of the last was asked for, if it is worth splitting.
    fn refill(&mut self) -> Result<(), NoMemory>
        requires { AreCutFrom self.old.raster.now self.old.left (into_iter_items self.old.batch) }
        ensures raster { self.new.raster.now ≡ self.old.raster.now }
        ensures cut { OnOk result (AreCutFrom self.new.raster.now self.new.left (into_iter_items self.new.batch)) }
    {
        if self.pending > 0 {
            return Ok(());
        }
        let count = BATCH_BYTES / self.raster.tile_len();
        let positions = take_positions(self.raster.alloc, &mut self.left, count)?;
        self.pending = positions.len();
        if self.raster.covered(&positions) >= SPLIT_BYTES / self.raster.tile_len() {
            let batch = self.raster.cut_all(self.workers, positions)?;
            self.batch = batch.into_iter();
        }
        Ok(())
    }
}

impl<R: Threads + Sync> ReadyTiles for CutTiles<'_, R> {
    ghost are_cut = { λ tiles cutting. IsSync R.row × (raster_cutting tiles.raster.now ≡ cutting)
        × AreCutFrom tiles.raster.now tiles.left (into_iter_items tiles.batch) };

    fn take(&mut self, at: TileAt) -> Result<Option<Tile>, NoMemory> {
        self.refill()?;
        self.pending = self.pending.saturating_sub(1);
        let Some(cut) = self.batch.next() else {
            return Ok(None);
        };
        // Asked out of order, it gives none, and the tile is painted as if it weren't ready.
        if cut.at == at { Ok(cut.tile) } else { Ok(None) }
    }
}

/// Takes the next tiles, at most so many.
fn take_positions(alloc: Global, tiles: &mut Tiles, count: usize) -> Result<Vec<TileAt>, NoMemory>
    ensures { IfOk result (λ positions. tiles.old ≡ positions.items ++ tiles.new) }
{
    let mut positions = Vec::with_capacity(alloc, count)?;
    for _ in 0..count {
        let Some(at) = tiles.next() else {
            return Ok(positions);
        };
        positions.push(at)?;
    }
    Ok(positions)
}
