//! A rectangle of an image as the tiles that it meets, from which patches of its rows are made.

ghost use Rattle.std.specs.Prelude.{◌≡◌, [], ◌∷◌, ◌++◌, ℕ, ◌+◌, ◌*◌, ◌<◌, All, IfOk, OnErr, OnOk, Some, length, slice_get};
ghost use Rattle.model_images.specs.{Image.Image, Paint.cut};
ghost use Rattle.plane_rect.specs.Tile.{strip_rectangles, IsWhole};
ghost use Rattle.plane_rect.specs.Rectangle.{InLimits, IsRectangle};
ghost use Rattle.pixel_formats.specs.Format.{pixel_bytes};
ghost use Rattle.op_contracts.specs.TileList.{HasLength};
ghost use Rattle.strip_patches.specs.Pictures.{HasRows};

use crate::bands::put_by_bands;
use crate::used_memory::patch_in;
use alloc_basics::NoMemory;
use op_contracts::WindowTiles;
use patch_abyss::Patch;
use pixel_formats::Format;
use plane_rect::{PLANE_SIDE, Rect, TILE_SIDE};
use std::alloc::Global;
use std::marker::Model;

/// A rectangle of an image as tiles: those of each row of tiles, from the top, as they were made and not copied. A clause
/// sees the rectangle, the format, and the tiles with their bytes.
#[derive(Drop)]
pub struct TiledPatch {
    rect: Rect,
    format: Format,
    rows: Vec<WindowTiles>,
}

impl Model for TiledPatch {
    ghost use Rattle.strip_patches.specs.Pictures.{IsTiled, TiledRect};

    ghost Value = { TiledRect };

    ghost view = { λ tiled. record { rect = tiled.rect; format = tiled.format; rows = tiled.rows.items } };

    ghost invariant = { λ tiled. IsTiled (record { rect = tiled.rect; format = tiled.format; rows = tiled.rows.items }) };
}

impl TiledPatch {
    /// Returns the rectangle to which no row of tiles was added. Takes no memory.
    pub fn new(alloc: Global, rect: Rect, format: Format) -> TiledPatch
        requires rectangle { IsRectangle rect }
        requires limits { InLimits rect }
        ensures rect { result.rect ≡ rect }
        ensures format { result.format ≡ format }
        ensures rows { result.rows ≡ [] }
    {
        TiledPatch {
            rect,
            format,
            rows: Vec::new(alloc),
        }
    }

    /// Returns the rectangle, in pixels.
    pub fn rect(&self) -> Rect
        ensures { result ≡ self.now.rect }
    {
        self.rect
    }

    /// Returns the format of the tiles.
    pub fn format(&self) -> Format
        ensures { result ≡ self.now.format }
    {
        self.format
    }

    /// Returns how many bands of rows the rectangle has: one for each row of tiles that it meets.
    pub fn bands(&self) -> u32
        ensures { result ≡ length (strip_rectangles self.now.rect) }
    {
        self.rect.end_row().div_ceil(TILE_SIDE) - self.rect.first_row() / TILE_SIDE
    }

    /// Adds the next row of tiles, which are shared and not copied. Takes constant time on average.
    ///
    /// # Errors
    ///
    /// `NoMemory` if memory runs out. No row is then added.
    pub fn add_tiles(&mut self, tiles: WindowTiles) -> Result<(), NoMemory>
        requires in_plane { All (λ entry. IsWhole entry.0) tiles }
        requires lengths { All (HasLength (4096 * pixel_bytes self.old.format)) tiles }
        ensures rect { self.new.rect ≡ self.old.rect }
        ensures format { self.new.format ≡ self.old.format }
        ensures added { OnOk result (self.new.rows ≡ self.old.rows ++ tiles ∷ []) }
        ensures unchanged { OnErr result (self.new ≡ self.old) }
    {
        self.rows.push(tiles)?;
        Ok(())
    }

    /// Returns the patch over the rows of the rectangle in one row of tiles, counted from the top: in the memory, whatever
    /// that has, where it suits the patch's size, and else in new memory. Takes time in proportion to its pixels.
    ///
    /// # Errors
    ///
    /// `NoMemory` if memory runs out.
    pub fn band(&self, alloc: Global, memory: Vec<u8>, index: u32) -> Result<Patch, NoMemory>
        requires { index < length (strip_rectangles self.now.rect) }
        ensures rect { IfOk result (λ patch. slice_get (strip_rectangles self.now.rect) index ≡ Some patch.box) }
        ensures format { IfOk result (λ patch. patch.format ≡ self.now.format) }
        ensures image { (image : Image) → HasRows image (length (strip_rectangles self.now.rect)) self.now →
            IfOk result (λ patch. patch ≡ cut image patch.box) }
    {
        let mut patch = patch_in(alloc, memory, self.band_rect(index), self.format)?;
        let Some(tiles) = self.rows.get(index as usize) else {
            return Ok(patch);
        };
        put_by_bands(&mut patch, tiles.as_slice());
        Ok(patch)
    }

    /// Returns the rectangle of a band.
    fn band_rect(&self, index: u32) -> Rect
        requires { index < length (strip_rectangles self.now.rect) }
        ensures value { slice_get (strip_rectangles self.now.rect) index ≡ Some result }
        ensures limits { InLimits result }
    {
        let first_row = (self.rect.first_row() / TILE_SIDE + index) * TILE_SIDE;
        let line = Rect::spanning(0, first_row, PLANE_SIDE, first_row + TILE_SIDE);
        self.rect.meet(&line)
    }
}
