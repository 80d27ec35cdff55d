//! Parts of a root's image.

ghost use Rattle.std.specs.Prelude.{◌≡◌, ◌+◌, ◌-◌, ◌*◌, ◌<◌, ◌≤◌, IfErr, IfOk, IfSome, IsSome, OnOk, false, length, map, max, min};
ghost use Rattle.level_tables.specs.LevelTiles.{bytes_in};
ghost use Rattle.model_graphs.specs.Shapes.{shape_of_image};
ghost use Rattle.plane_rect.specs.Rectangle.{Includes, InLimits, end_row, is_empty, offset};
ghost use Rattle.plane_rect.specs.Tile.{last_tile, tile_end, tile_of};
ghost use Rattle.pixel_formats.specs.Format.{pixel_bytes};
ghost use Rattle.patch_abyss.specs.Lines.{AreLineTiles, HasFirstPixels, HasLine};
ghost use Rattle.chain_owners.specs.Cause.{HasSwapCause};
ghost use Rattle.root_tiles.specs.Chains.{chain_state};
ghost use Rattle.root_tiles.specs.Roots.{HasShape, IsRootOver, root_image, with_tile};
ghost use Rattle.root_tiles.specs.{Chains.IsRead, Reads.ReadsPart};

use crate::root::Root;
use alloc_basics::NoMemory;
use chain_contracts::TileChain;
use chain_owners::SwapRefused;
use patch_abyss::Patch;
use plane_rect::{Rect, TILE_SIDE, TileAt};
use std::alloc::Global;
use tile_cow::Tile;

/// From how many bytes on a part is put together row by row. Smaller ones stay in the nearest cache, where
/// rows by calls cost more than zeros before.
const LARGE_PART: u64 = 32_768;

impl Root {
    /// Returns a part of the image. Copies each tile of the part once, and takes time in proportion to the
    /// part. The chain's names, their bytes and their owners are unchanged, whatever it answers.
    ///
    /// # Errors
    ///
    /// `SwapFault` only where the swap's count of I/O errors rose in this call, `SwapFull` only where
    /// the chain's names can fill the swap, and `NoMemory` if memory runs out.
    pub fn part<C: TileChain>(&self, chain: &mut C, rect: Rect) -> Result<Patch, SwapRefused>
        requires over { IsRootOver self.now (C.held chain.old) }
        requires inside { Includes self.now.box rect }
        requires limits { InLimits rect }
        ensures { ReadsPart self.now rect result
            (chain_state C.ChainMeaning chain.old) (chain_state C.ChainMeaning chain.new) }
    {
        if rect.area() * u64::from(self.format().pixel_bytes()) < LARGE_PART {
            return self.part_by_tiles(chain, rect);
        }
        self.part_by_lines(chain, rect)
    }

    /// Returns a part of the image, into which each of its tiles is written.
    fn part_by_tiles<C: TileChain>(&self, chain: &mut C, rect: Rect) -> Result<Patch, SwapRefused>
        requires over { IsRootOver self.now (C.held chain.old) }
        requires inside { Includes self.now.box rect }
        requires limits { InLimits rect }
        ensures { ReadsPart self.now rect result
            (chain_state C.ChainMeaning chain.old) (chain_state C.ChainMeaning chain.new) }
    {
        let mut patch = Patch::zero(self.alloc, rect, self.format())?;
        for at in rect.tiles() {
            self.blit(chain, at, &mut patch)?;
        }
        Ok(patch)
    }

    /// Returns a part of the image that is put together row by row, so that its memory is written once.
    fn part_by_lines<C: TileChain>(&self, chain: &mut C, rect: Rect) -> Result<Patch, SwapRefused>
        requires some { false ≡ is_empty rect }
        requires over { IsRootOver self.now (C.held chain.old) }
        requires inside { Includes self.now.box rect }
        requires limits { InLimits rect }
        ensures { ReadsPart self.now rect result
            (chain_state C.ChainMeaning chain.old) (chain_state C.ChainMeaning chain.new) }
    {
        let format = self.format();
        let count = rect.area() as usize * format.pixel_bytes() as usize;
        let mut bytes = Vec::with_capacity(self.alloc, count)?;
        let end = rect.end_row().div_ceil(TILE_SIDE);
        for line in rect.first_row() / TILE_SIDE..end {
            self.add_line(chain, rect, line, &mut bytes)?;
        }
        Ok(Patch::from_vec(rect, format, bytes))
    }

    /// Adds the pixels of a part that are in a line of tiles, row by row.
    fn add_line<C: TileChain>(
        &self,
        chain: &mut C,
        rect: Rect,
        line: u32,
        bytes: &mut Vec<u8>,
    ) -> Result<(), SwapRefused>
        requires over { IsRootOver self.now (C.held chain.old) }
        requires inside { Includes self.now.box rect }
        requires some { false ≡ is_empty rect }
        requires first { tile_of rect.first_row ≤ line }
        requires end { line < tile_end (end_row rect) }
        ensures count { OnOk result (length bytes.new.items ≡ length bytes.old.items
            + (min (64 * line + 64) (end_row rect) - max (64 * line) rect.first_row) * (rect.width * pixel_bytes self.now.tiles.format)) }
        ensures pixels { OnOk result (IfSome (root_image self.now (C.held chain.old)) (λ image.
            HasFirstPixels image rect (offset rect rect.first_column (max (64 * line) rect.first_row)) bytes.old.items
            → HasFirstPixels image rect (offset rect rect.first_column (min (64 * line + 64) (end_row rect))) bytes.new.items)) }
        ensures cause { IfErr result (HasSwapCause (C.counts chain.old) (C.counts chain.new) (C.counts chain.old).names) }
        ensures read { IsRead
            (chain_state C.ChainMeaning chain.old) (chain_state C.ChainMeaning chain.new) }
    {
        let tiles = self.line_tiles(chain, rect, line)?;
        let tiles = bytes_of(self.alloc, &tiles)?;
        patch_abyss::add_line(self.format(), &rect, line, &tiles, bytes)?;
        Ok(())
    }

    /// Returns the tiles of a line from that of a part's first column to that of its last.
    fn line_tiles<C: TileChain>(
        &self,
        chain: &mut C,
        rect: Rect,
        line: u32,
    ) -> Result<Vec<Tile>, SwapRefused>
        requires over { IsRootOver self.now (C.held chain.old) }
        requires line { line ≤ last_tile }
        ensures tiles { IfOk result (λ tiles. AreLineTiles self.now.tiles.format rect tiles.items) }
        ensures pixels { IfOk result (λ tiles. IfSome (root_image self.now (C.held chain.old)) (λ image. HasLine image rect line tiles.items)) }
        ensures cause { IfErr result (HasSwapCause (C.counts chain.old) (C.counts chain.new) (C.counts chain.old).names) }
        ensures read { IsRead
            (chain_state C.ChainMeaning chain.old) (chain_state C.ChainMeaning chain.new) }
    {
        let mut tiles = Vec::new(self.alloc);
        let end = rect.end_column().div_ceil(TILE_SIDE);
        for column in rect.first_column() / TILE_SIDE..end {
            let tile = self.put_tile(chain, TileAt::from_indices(column, line))?;
            tiles.push(tile)?;
        }
        Ok(tiles)
    }

    /// Writes the pixels of a tile into a patch, where the tile was put.
    fn blit<C: TileChain>(
        &self,
        chain: &mut C,
        at: TileAt,
        patch: &mut Patch,
    ) -> Result<(), SwapRefused>
        requires over { IsRootOver self.now (C.held chain.old) }
        requires format { patch.old.format ≡ self.now.tiles.format }
        ensures shape { HasShape (shape_of_image patch.old) patch.new }
        ensures blitted { IfOk result (λ _. IsSome (C.held chain.old).content →
            patch.new ≡ with_tile patch.old at (bytes_in (C.held chain.old) self.now.tiles.put at)) }
        ensures cause { IfErr result (HasSwapCause (C.counts chain.old) (C.counts chain.new) (C.counts chain.old).names) }
        ensures read { IsRead
            (chain_state C.ChainMeaning chain.old) (chain_state C.ChainMeaning chain.new) }
    {
        if let Some(tile) = self.table.put_tile(chain, at)? {
            patch.put_tile(at, &tile);
        }
        Ok(())
    }
}

/// Returns the bytes of each tile.
fn bytes_of(alloc: Global, tiles: &[Tile]) -> Result<Vec<&[u8]>, NoMemory>
    ensures { IfOk result (λ lists. map (λ bytes. bytes.now) lists.items ≡ tiles.now) }
{
    let mut lists = Vec::with_capacity(alloc, tiles.len())?;
    for tile in tiles {
        lists.push(tile.bytes())?;
    }
    Ok(lists)
}
