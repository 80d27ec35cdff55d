//! Tiles that are cut from raw bytes.

ghost use Rattle.std.specs.Prelude.{◌≡◌, ◌<◌, All, IfOk};
ghost use Rattle.std.specs.List.{AllZip};
ghost use Rattle.level_tables.specs.Over.{tile_length};
ghost use Rattle.plane_rect.specs.Tile.{IsWhole};
ghost use Rattle.root_tiles.specs.Cutting.{IsCutAt, IsRaster};

use crate::painting::{is_covered, painted_over};
use alloc_basics::NoMemory;
use pixel_formats::Format;
use plane_rect::{Rect, TileAt};
use std::alloc::Global;
use std::thread::Threads;
use tile_cow::Tile;
use worker_pieces::Workers;

/// How many pixels a tile has.
const TILE_PIXELS: usize = 64 * 64;

/// The raw bytes of a rectangle, row by row, from which tiles of a root are cut. It has all that cutting
/// needs of the root, so that several threads may cut.
#[derive(Clone, Copy)]
pub(crate) struct Raster<'a> {
    pub alloc: Global,
    pub format: Format,
    /// The root's box.
    pub bounds: Rect,
    pub rect: Rect,
    pub bytes: &'a [u8],
}

/// A position, and its tile where the raster covers it.
#[derive(Drop)]
pub(crate) struct CutTile {
    pub at: TileAt,
    pub tile: Option<Tile>,
}

impl<'a> Raster<'a> {
    /// Returns how many bytes a tile has.
    pub fn tile_len(&self) -> usize
        ensures value { result ≡ tile_length self.now.format }
        ensures some { 0 < result }
    {
        TILE_PIXELS * self.format.pixel_bytes() as usize
    }

    /// Returns how many of these positions have a tile that is covered.
    pub fn covered(&self, positions: &[TileAt]) -> usize {
        positions
            .iter()
            .filter(|at| is_covered(**at, &self.bounds, &self.rect))
            .count()
    }

    /// Returns a position with its tile, where that is covered.
    ///
    /// # Errors
    ///
    /// `NoMemory` if memory runs out.
    pub fn cut(&self, at: TileAt) -> Result<CutTile, NoMemory>
        requires whole { IsWhole at }
        requires raster { IsRaster self.now }
        ensures { IfOk result (IsCutAt self.now at) }
    {
        if !is_covered(at, &self.bounds, &self.rect) {
            return Ok(CutTile { at, tile: None });
        }
        let zeros = vec![in self.alloc; 0; self.tile_len()]?;
        let tile = painted_over(self.alloc, self.format, at, zeros, self.bytes, &self.rect)?;
        Ok(CutTile {
            at,
            tile: Some(tile),
        })
    }

    /// Returns these positions with their tiles, in pieces cut by as many threads as there are workers.
    ///
    /// # Errors
    ///
    /// `NoMemory` if memory runs out.
    pub fn cut_all<R: Threads + Sync>(
        &self,
        workers: Workers<'_, R>,
        positions: Vec<TileAt>,
    ) -> Result<Vec<CutTile>, NoMemory>
        requires whole { All IsWhole positions.items }
        requires raster { IsRaster self.now }
        ensures { IfOk result (λ cut. AllZip (IsCutAt self.now) positions.items cut.items) }
    {
        workers.map(
            self.alloc,
            positions,
            |at: TileAt| -> Result<CutTile, NoMemory>
                requires whole { IsWhole at }
                requires raster { IsRaster self.now }
                ensures { IfOk result (IsCutAt self.entry.now at) }
            { self.cut(at) },
        )
    }
}
