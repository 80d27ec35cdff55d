//! Rectangles of a root that are written, all or nothing.

ghost use Rattle.std.specs.Prelude.{◌≡◌, ℕ, ◌<◌, All, IfOk, length, slice_index};
ghost use Rattle.model_images.specs.FromRaw.{byte_count, pixels_from_raw};
ghost use Rattle.pixel_formats.specs.Format.{channels, depth};
ghost use Rattle.pixel_formats.specs.Row.{sample_at};
ghost use Rattle.plane_rect.specs.Rectangle.{Includes};
ghost use Rattle.patch_abyss.specs.Samples.{IsSampleOf};
ghost use Rattle.root_tiles.specs.Chains.{chain_state};
ghost use Rattle.root_tiles.specs.{Paints.IsSolid, Roots.IsRootOver, Writes.IsWritten};

use crate::makers::{SplitRaw, TileMaker};
use crate::paint::Paint;
use crate::root::Root;
use alloc_basics::NoMemory;
use chain_contracts::TileChain;
use chain_owners::SwapRefused;
use level_tables::NewTiles;
use patch_abyss::solid_patch;
use plane_rect::{Rect, TILE_SIDE};
use std::thread::Threads;
use tile_cow::Tile;
use worker_pieces::Workers;

impl Root {
    /// Writes raw bytes over a rectangle of the box: its pixels row by row, each row from the left. Several workers
    /// cut the tiles that the rectangle covers, where that is worth it. After an error the tiles and the image are
    /// as before. Takes time in proportion to the tiles of the rectangle.
    ///
    /// # Errors
    ///
    /// `SwapFault` only where the swap's count of I/O errors rose in this call, `SwapFull` only where
    /// the chain's names and as many more as the rectangle meets tiles can fill the swap, and `NoMemory`
    /// if memory runs out.
    pub fn put_raw<C: TileChain, R: Threads + Sync>(
        &mut self,
        chain: &mut C,
        rect: Rect,
        bytes: &[u8],
        workers: Workers<'_, R>,
    ) -> Result<(), SwapRefused>
        requires over { IsRootOver self.old (C.held chain.old) }
        requires inside { Includes self.old.box rect }
        requires count { length bytes.now ≡ byte_count rect self.old.tiles.format }
        ensures { IsWritten rect (pixels_from_raw rect self.old.tiles.format bytes.now) result self.old self.new
            (chain_state C.ChainMeaning chain.old) (chain_state C.ChainMeaning chain.new) }
    {
        self.write(chain, rect, &mut SplitRaw { bytes, workers })
    }

    /// Writes raw bytes over a rectangle of the box as [`Root::put_raw`] does, on the caller's thread alone.
    ///
    /// # Errors
    ///
    /// As [`Root::put_raw`].
    pub fn put_raw_alone<C: TileChain>(
        &mut self,
        chain: &mut C,
        rect: Rect,
        bytes: &[u8],
    ) -> Result<(), SwapRefused>
        requires over { IsRootOver self.old (C.held chain.old) }
        requires inside { Includes self.old.box rect }
        requires count { length bytes.now ≡ byte_count rect self.old.tiles.format }
        ensures { IsWritten rect (pixels_from_raw rect self.old.tiles.format bytes.now) result self.old self.new
            (chain_state C.ChainMeaning chain.old) (chain_state C.ChainMeaning chain.new) }
    {
        self.write(chain, rect, &mut Paint::Raw(bytes))
    }

    /// Writes one pixel at each position of a rectangle of the box: a sample for each channel. After an error
    /// the tiles and the image are as before. Takes time in proportion to the tiles of the rectangle.
    ///
    /// # Errors
    ///
    /// As [`Root::put_raw`].
    pub fn fill<C: TileChain>(
        &mut self,
        chain: &mut C,
        rect: Rect,
        samples: &[u32],
    ) -> Result<(), SwapRefused>
        requires over { IsRootOver self.old (C.held chain.old) }
        requires inside { Includes self.old.box rect }
        requires count { length samples.now ≡ channels self.old.tiles.format }
        requires each { All (IsSampleOf self.old.tiles.format) samples.now }
        ensures { IsWritten rect (λ u v. slice_index samples.now) result self.old self.new
            (chain_state C.ChainMeaning chain.old) (chain_state C.ChainMeaning chain.new) }
    {
        let tile = self.solid_tile(samples)?;
        self.write(chain, rect, &mut Paint::Solid(&tile))
    }

    /// Returns a tile of one pixel everywhere.
    fn solid_tile(&self, samples: &[u32]) -> Result<Tile, NoMemory>
        requires count { length samples.now ≡ channels self.now.tiles.format }
        requires each { All (IsSampleOf self.now.tiles.format) samples.now }
        ensures solid { IfOk result (IsSolid self.now.tiles.format) }
        ensures samples { IfOk result (λ tile. (c : ℕ) → c < channels self.now.tiles.format →
            sample_at (depth self.now.tiles.format) tile c ≡ slice_index samples.now c) }
    {
        let square = Rect::spanning(0, 0, TILE_SIDE, TILE_SIDE);
        let solid = solid_patch(self.alloc, self.format(), samples, square)?;
        Tile::from_vec(self.alloc, solid.into_raw())
    }

    /// Writes over a rectangle of the box. After an error the tiles and the image are as before.
    fn write<C: TileChain, M: TileMaker>(
        &mut self,
        chain: &mut C,
        rect: Rect,
        maker: &mut M,
    ) -> Result<(), SwapRefused>
        requires over { IsRootOver self.old (C.held chain.old) }
        requires inside { Includes self.old.box rect }
        requires fits { M.fits maker.old self.old rect }
        ensures { IsWritten rect (M.pixels maker.old self.old.tiles.format rect) result self.old self.new
            (chain_state C.ChainMeaning chain.old) (chain_state C.ChainMeaning chain.new) }
    {
        self.table.reserve(rect.tiles().count())?;
        let mut made = NewTiles::new(self.alloc, self.format());
        if let Err(refused) = maker.make(self, chain, rect, &mut made) {
            made.discard(chain);
            return Err(refused);
        }
        self.table.switch(chain, made);
        Ok(())
    }
}
