//! An image that is held by tiles in memory.

ghost use Rattle.std.specs.Prelude.{◌≡◌, ◌*◌, IfOk, OnErr, OnOk, length};
ghost use Rattle.indexmap.specs.IndexMap.{insert_entry};
ghost use Rattle.plane_rect.specs.Tile.{same_tile};
ghost use Rattle.pixel_formats.specs.Format.{pixel_bytes};
ghost use Rattle.model_images.specs.{Raw.tile_bytes, Tiles.AreZeroOutside};
ghost use Rattle.frozen_images.specs.Frozen.{frozen_image, no_tiles, zero_bytes};

use alloc_basics::NoMemory;
use indexmap::IndexMap;
use model_images::raw_bytes::are_bytes;
use pixel_formats::Format;
use plane_rect::{Rect, TileAt};
use std::alloc::Global;
use std::marker::Model;
use tile_cow::Tile;

/// How many pixels a tile has.
const TILE_PIXELS: u32 = 64 * 64;

/// An image that is held by tiles in memory, which may be shared with others. It is zero where no tile is
/// held. A clause sees its box, its format and the tiles with their bytes.
#[derive(Drop)]
pub struct Frozen {
    bounds: Rect,
    format: Format,
    tiles: IndexMap<TileAt, Tile>,
    zero: Tile,
    alloc: Global,
}

impl Model for Frozen {
    ghost use Rattle.std.specs.Prelude.{◌≡◌};
    ghost use Rattle.frozen_images.specs.Frozen.{AreFrozen, FrozenTiles, zero_bytes};

    ghost Value = { FrozenTiles };

    ghost view = { λ frozen. record { box = frozen.bounds; format = frozen.format; tiles = frozen.tiles.entries } };

    ghost invariant = { λ frozen. AreFrozen (record { box = frozen.bounds; format = frozen.format; tiles = frozen.tiles.entries })
        × (frozen.zero ≡ zero_bytes frozen.format) };
}

impl Frozen {
    /// Returns the image of zeros, which holds no tile.
    ///
    /// # Errors
    ///
    /// `NoMemory` if memory runs out.
    pub fn new(alloc: Global, format: Format, bounds: Rect) -> Result<Frozen, NoMemory>
        ensures { IfOk result (λ frozen. frozen ≡ no_tiles bounds format) }
    {
        Ok(Frozen {
            bounds,
            format,
            tiles: IndexMap::new(alloc),
            zero: Tile::zero(alloc, TILE_PIXELS * format.pixel_bytes())?,
            alloc,
        })
    }

    /// Holds a tile, in place of the one that it held there.
    ///
    /// # Errors
    ///
    /// `NoMemory` if memory runs out. The image is then unchanged.
    pub fn hold(&mut self, at: TileAt, tile: Tile) -> Result<(), NoMemory>
        requires length { length tile ≡ 4096 * pixel_bytes self.old.format }
        requires zero { AreZeroOutside self.old.box self.old.format at tile }
        ensures held { OnOk result (self.new ≡ record self.old { tiles = insert_entry same_tile self.old.tiles at tile }) }
        ensures unchanged { OnErr result (self.new ≡ self.old) }
    {
        are_bytes(tile.bytes());
        self.tiles.insert(at, tile)?;
        Ok(())
    }

    /// Returns the box.
    pub fn bounds(&self) -> Rect
        ensures { result ≡ self.now.box }
    {
        self.bounds
    }

    /// Returns the format.
    pub fn format(&self) -> Format
        ensures { result ≡ self.now.format }
    {
        self.format
    }

    /// Returns the 64 by 64 pixels of a tile, zero outside the box: a share of the one that is held. Takes
    /// constant time.
    ///
    /// # Errors
    ///
    /// `NoMemory` if memory runs out.
    pub fn tile(&self, at: TileAt) -> Result<Tile, NoMemory>
        ensures { IfOk result (λ tile. tile ≡ tile_bytes (frozen_image self.now) at) }
    {
        match self.tiles.get(&at) {
            Some(tile) => tile.share(self.alloc),
            None => self.zero.share(self.alloc),
        }
    }
}
