//! What a part of a result is handed of one of its inputs.

ghost use Rattle.std.specs.Prelude.{◌≡◌, ◌<◌, ◌↔◌, IfOk, IfSome, IsSome, IsTrue};
ghost use Rattle.std.specs.Option.{option_copied};
ghost use Rattle.plane_rect.specs.Rectangle.{InLimits, Includes, InsideSigned, plane_index as index_of};
ghost use Rattle.plane_rect.specs.Tile.{Meets, Tile as TilePosition};
ghost use Rattle.pixel_formats.specs.Format.{channels};
ghost use Rattle.model_images.specs.{Image.at, Paint.cut, Tiles.AreTileBytes};
ghost use Rattle.model_graphs.specs.Windows.{IsWholeWindow, tiles_of, window_image};

use crate::held_bytes::held_bytes;
use crate::window_tiles::WindowTiles;
use alloc_basics::NoMemory;
use model_images::raw_bytes::are_bytes;
use patch_abyss::{Patch, sample_at};
use pixel_formats::Format;
use plane_rect::{Rect, TileAt, plane_index};
use std::alloc::Global;
use std::marker::Model;
use tile_cow::Tile;

/// How many pixels a tile has.
const TILE_PIXELS: usize = 64 * 64;

/// From how many bytes on a part is large: zeros that are written before its tiles no longer stay in
/// the processor's nearest cache, and cost more than calls for short rows.
const LARGE_PART: u64 = 32768;

/// Shows an input of an operation by tiles, of which it owns its shares: wherever the input is needed,
/// if the window is whole.
///
/// A clause sees it as the record of its fields. What it shows is `window_image` of that: an image over
/// the input's whole box, whose pixels are those of its tiles, and zero where it has no tile.
#[derive(Drop)]
pub struct Window {
    /// The positions that are needed.
    pub need: Rect,
    /// The input's format.
    pub format: Format,
    /// The input's bounding box.
    pub bounds: Rect,
    pub tiles: WindowTiles,
}

impl Model for Window {
    ghost use Rattle.model_graphs.specs.Windows.{Window as Record};

    ghost Value = { Record };

    ghost view = { λ window. record {
      need = window.need;
      format = window.format;
      bounds = window.bounds;
      tiles = window.tiles;
    } };
}

impl Window {
    /// Makes the window of these tiles, without memory.
    pub fn new(need: Rect, format: Format, bounds: Rect, tiles: WindowTiles) -> Window
        ensures { result ≡ record { need = need; format = format; bounds = bounds; tiles = tiles } }
    {
        Window {
            need,
            format,
            bounds,
            tiles,
        }
    }

    /// Returns whether it is whole: whether it has each tile that meets its need, none twice, and each
    /// with as many bytes as a tile of its format has. Takes time in proportion to the tiles times the
    /// tiles that meet its need.
    pub fn is_whole(&self) -> bool
        ensures { IsTrue result ↔ IsWholeWindow self.now }
    {
        let len = TILE_PIXELS * self.format.pixel_bytes() as usize;
        self.tiles.are_distinct() && self.tiles.have_length(len) && self.has_needed_tiles()
    }

    /// Returns whether it has each tile that meets its need.
    fn has_needed_tiles(&self) -> bool
        ensures { IsTrue result ↔ ((tile : TilePosition) → Meets tile self.now.need → IsSome (tiles_of self.now tile)) }
    {
        for at in self.need.tiles() {
            if self.tile_bytes(at).is_none() {
                return false;
            }
        }
        true
    }

    /// Returns the raw bytes of a whole tile, without a copy, where the window has it. Takes time in
    /// proportion to the number of tiles.
    pub fn tile_bytes(&self, at: TileAt) -> Option<&[u8]>
        ensures { option_copied result ≡ tiles_of self.now at }
    {
        self.tiles.bytes_of(at)
    }

    /// Returns a whole tile, where the window has it. Takes time in proportion to the number of tiles.
    pub fn tile(&self, at: TileAt) -> Option<&Tile>
        requires whole { IsWholeWindow self.now }
        ensures value { option_copied result ≡ tiles_of self.now at }
        ensures bytes { IfSome result (λ tile. AreTileBytes self.now.format tile.now) }
    {
        let tile = self.tiles.tile_of(at)?;
        are_bytes(tile.bytes());
        Some(tile)
    }

    /// Returns the sample of the position of x and y in a channel, and 0 at a position outside the
    /// input's box. Takes time in proportion to the number of tiles: to read many, take a `part`.
    pub fn at(&self, x: i32, y: i32, c: u32) -> u32
        requires whole { IsWholeWindow self.now }
        requires channel { c < channels self.now.format }
        ensures inside { InsideSigned x y self.now.bounds → result ≡ at (window_image self.now) (index_of x) (index_of y) c }
        ensures outside { ¬ InsideSigned x y self.now.bounds → result ≡ 0 }
    {
        if !self.bounds.has(x, y) {
            return 0;
        }
        let (column, row) = (plane_index(x), plane_index(y));
        prove!(column < self.bounds.end_column());
        prove!(row < self.bounds.end_row());
        let position = TileAt::of_position(column, row);
        match self.tile_bytes(position) {
            Some(bytes) => {
                let pixel = position.rect().offset(column, row);
                let index = pixel * self.format.channels() as usize + c as usize;
                sample_at(self.format, bytes, index)
            }
            None => 0,
        }
    }

    /// Returns what the window shows over a rectangle, zero outside the input's box and where it has no
    /// tile. It is what the input has there, if the window is of the input and its need contains the
    /// rectangle. Copies rows of tiles, and takes time in proportion to the rectangle's pixels and to
    /// the number of tiles.
    ///
    /// # Errors
    ///
    /// `NoMemory` if memory runs out.
    pub fn part(&self, alloc: Global, rect: Rect) -> Result<Patch, NoMemory>
        requires whole { IsWholeWindow self.now }
        requires limits { InLimits rect }
        ensures { IfOk result (λ patch. patch ≡ cut (window_image self.now) rect) }
    {
        if self.bounds.contains(&rect) {
            return self.inner_part(alloc, rect);
        }
        let inner = self.inner_part(alloc, rect.meet(&self.bounds))?;
        inner.part(alloc, rect)
    }

    /// Returns what the window shows over a part of the input's box. Where the part is large, its memory
    /// is written once.
    fn inner_part(&self, alloc: Global, part: Rect) -> Result<Patch, NoMemory>
        requires whole { IsWholeWindow self.now }
        requires limits { InLimits part }
        requires inside { Includes self.now.bounds part }
        ensures { IfOk result (λ patch. patch ≡ cut (window_image self.now) part) }
    {
        if part.area() * u64::from(self.format.pixel_bytes()) < LARGE_PART {
            return self.put_part(alloc, part);
        }
        match held_bytes(alloc, self, &part)? {
            Some(bytes) => Ok(Patch::from_vec(part, self.format, bytes)),
            None => self.put_part(alloc, part),
        }
    }

    /// Returns what the window shows over a part of the input's box, by its tiles put one after another
    /// into zeros.
    fn put_part(&self, alloc: Global, part: Rect) -> Result<Patch, NoMemory>
        requires whole { IsWholeWindow self.now }
        requires limits { InLimits part }
        requires inside { Includes self.now.bounds part }
        ensures { IfOk result (λ patch. patch ≡ cut (window_image self.now) part) }
    {
        let mut patch = Patch::zero(alloc, part, self.format)?;
        for entry in self.tiles.as_slice() {
            patch.put_tile(entry.0, &entry.1);
        }
        Ok(patch)
    }
}
