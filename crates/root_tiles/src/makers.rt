//! What makes the tiles of a root that is written over.

ghost use Rattle.std.specs.Prelude.{◌≡◌, ℕ, ◌+◌, ◌++◌, ◌≤◌, [], IfErr, OnOk, length};
ghost use denote.Param.Send.{IsSync};
ghost use Rattle.std.specs.Map.{values_of};
ghost use Rattle.chain_owners.specs.Owners.{Owns};
ghost use Rattle.level_tables.specs.NewTiles.{AreNewTiles};
ghost use Rattle.model_images.specs.FromRaw.{byte_count, pixels_from_raw};
ghost use Rattle.model_images.specs.TileCounts.{tile_count};
ghost use Rattle.pixel_formats.specs.{Row.Pixel, declared.format.Format.Format};
ghost use Rattle.plane_rect.specs.Rectangle.{Includes, Rectangle};
ghost use Rattle.chain_owners.specs.Cause.{HasSwapCause};
ghost use Rattle.root_tiles.specs.Made.{HasAll, Makes, MakesMore};
ghost use Rattle.root_tiles.specs.Paints.{IsPaint, paint_pixels};
ghost use Rattle.root_tiles.specs.Chains.{chain_state};
ghost use Rattle.root_tiles.specs.Roots.{IsRootOver, RootTiles, root_names};
ghost use Rattle.root_tiles.specs.Cutting.{cutting_of};

use crate::cut_tiles::CutTiles;
use crate::cutting::Raster;
use crate::paint::Paint;
use crate::ready::{NoneReady, ReadyTiles};
use crate::root::Root;
use chain_contracts::TileChain;
use chain_owners::SwapRefused;
use level_tables::NewTiles;
use plane_rect::Rect;
use std::thread::Threads;
use worker_pieces::Workers;

/// Makes the tiles of a root as they are once something is written over a rectangle.
pub(crate) trait TileMaker {
    /// It has what is written over a rectangle of a root.
    ghost fits: { Self → RootTiles → Rectangle → Type 0 };

    /// The samples that are written.
    ghost pixels: { Self → Format → Rectangle → ℕ → ℕ → Pixel };

    /// Makes the tiles beside a root as they are once this is written over a rectangle of the box.
    fn make<C: TileChain>(
        &mut self,
        root: &Root,
        chain: &mut C,
        rect: Rect,
        made: &mut NewTiles,
    ) -> Result<(), SwapRefused>
        requires over { IsRootOver root.now (C.held chain.old) }
        requires inside { Includes root.now.box rect }
        requires fits { fits self.old root.now rect }
        requires format { made.old.format ≡ root.now.tiles.format }
        requires none { made.old.entries ≡ [] }
        ensures format { made.new.format ≡ root.now.tiles.format }
        ensures made { Makes root.now rect (pixels self.old root.now.tiles.format rect) (tile_count rect)
            (chain_state C.ChainMeaning chain.old) (chain_state C.ChainMeaning chain.new)
            made.new.entries }
        ensures few { length made.new.entries ≤ tile_count rect }
        ensures all { OnOk result (HasAll rect made.new.entries) }
        ensures cause { IfErr result (HasSwapCause (C.counts chain.old) (C.counts chain.new)
            ((C.counts chain.old).names + tile_count rect)) };
}

impl TileMaker for Paint<'_> {
    ghost fits = { λ paint root r. IsPaint root.tiles.format r paint };

    ghost pixels = { λ paint format r. paint_pixels format r paint };

    fn make<C: TileChain>(
        &mut self,
        root: &Root,
        chain: &mut C,
        rect: Rect,
        made: &mut NewTiles,
    ) -> Result<(), SwapRefused> {
        root.make_tiles(chain, rect, rect, self, &mut NoneReady, made)
    }
}

/// The raw bytes of the rectangle, row by row, from which several workers may cut tiles.
#[derive(Drop)]
pub(crate) struct SplitRaw<'a, R: Threads + Sync> {
    pub bytes: &'a [u8],
    pub workers: Workers<'a, R>,
}

impl<R: Threads + Sync> TileMaker for SplitRaw<'_, R> {
    ghost fits = { λ raw root r. IsSync R.row × (length raw.bytes.now ≡ byte_count r root.tiles.format) };

    ghost pixels = { λ raw format r. pixels_from_raw r format raw.bytes.now };

    fn make<C: TileChain>(
        &mut self,
        root: &Root,
        chain: &mut C,
        rect: Rect,
        made: &mut NewTiles,
    ) -> Result<(), SwapRefused> {
        root.make_raw(chain, rect, rect, self.bytes, self.workers, made)
    }
}

impl Root {
    /// Makes tiles beside the root, after others that were made: those of a part of a rectangle of the box, as they
    /// are once raw bytes are written over the rectangle. Several workers cut those that it covers, where that is
    /// worth it.
    pub(crate) fn make_raw<C: TileChain, R: Threads + Sync>(
        &self,
        chain: &mut C,
        part: Rect,
        rect: Rect,
        bytes: &[u8],
        workers: Workers<'_, R>,
        made: &mut NewTiles,
    ) -> Result<(), SwapRefused>
        requires over { IsRootOver self.now (C.held chain.old) }
        requires inside { Includes self.now.box rect }
        requires part { Includes rect part }
        requires count { length bytes.now ≡ byte_count rect self.now.tiles.format }
        requires format { made.old.format ≡ self.now.tiles.format }
        requires made { AreNewTiles self.now.tiles.format made.old.entries (C.held chain.old) }
        requires owned { Owns (C.held chain.old) (root_names self.now ++ values_of made.old.entries) }
        ensures format { made.new.format ≡ self.now.tiles.format }
        ensures made { MakesMore self.now part rect (pixels_from_raw rect self.now.tiles.format bytes.now) (tile_count part)
            (chain_state C.ChainMeaning chain.old) (chain_state C.ChainMeaning chain.new)
            made.old.entries made.new.entries }
        ensures few { length made.new.entries ≤ length made.old.entries + tile_count part }
        ensures all { OnOk result (HasAll part made.new.entries) }
        ensures cause { IfErr result (HasSwapCause (C.counts chain.old) (C.counts chain.new)
            ((C.counts chain.old).names + tile_count part)) }
    {
        let paint = Paint::Raw(bytes);
        if !workers.are_several() {
            return self.make_tiles(chain, part, rect, &paint, &mut NoneReady, made);
        }
        let raster = Raster {
            alloc: self.alloc,
            format: self.format(),
            bounds: self.bounds(),
            rect,
            bytes,
        };
        let mut ready = CutTiles::new(&raster, &part, workers);
        self.make_tiles(chain, part, rect, &paint, &mut ready, made)
    }

    /// Makes tiles beside the root, after others that were made: those of a part of a rectangle of the box, as they
    /// are once something is written over the rectangle.
    fn make_tiles<C: TileChain, T: ReadyTiles>(
        &self,
        chain: &mut C,
        part: Rect,
        rect: Rect,
        paint: &Paint,
        ready: &mut T,
        made: &mut NewTiles,
    ) -> Result<(), SwapRefused>
        requires over { IsRootOver self.now (C.held chain.old) }
        requires inside { Includes self.now.box rect }
        requires part { Includes rect part }
        requires paint { IsPaint self.now.tiles.format rect paint.now }
        requires ready { T.are_cut ready.old (cutting_of self.now rect paint.now) }
        requires format { made.old.format ≡ self.now.tiles.format }
        requires made { AreNewTiles self.now.tiles.format made.old.entries (C.held chain.old) }
        requires owned { Owns (C.held chain.old) (root_names self.now ++ values_of made.old.entries) }
        ensures format { made.new.format ≡ self.now.tiles.format }
        ensures made { MakesMore self.now part rect (paint_pixels self.now.tiles.format rect paint.now) (tile_count part)
            (chain_state C.ChainMeaning chain.old) (chain_state C.ChainMeaning chain.new)
            made.old.entries made.new.entries }
        ensures few { length made.new.entries ≤ length made.old.entries + tile_count part }
        ensures all { OnOk result (HasAll part made.new.entries) }
        ensures cause { IfErr result (HasSwapCause (C.counts chain.old) (C.counts chain.new)
            ((C.counts chain.old).names + tile_count part)) }
    {
        for at in part.tiles() {
            let tile = self.next_tile(chain, at, rect, paint, ready)?;
            made.add(chain, at, tile)?;
        }
        Ok(())
    }
}
