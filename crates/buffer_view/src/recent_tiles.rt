//! Tiles of buffers that were given last.

ghost use Rattle.std.specs.Prelude.{◌≡◌, ◌⊎◌, [], Contains, IfSome};
ghost use Rattle.buffer_view.specs.declared.recent_tiles.GivenTile.{GivenTile};

use alloc_basics::NoMemory;
use plane_rect::{Name, TileAt};
use std::alloc::Global;
use std::marker::Model;
use tile_cow::Tile;

/// How many tiles are kept: the nine at most that a window of an operation on squares meets, of which the window of the
/// next tile meets six, and as many more as that one adds.
const MAX_TILES: usize = 12;

/// A tile that was given, of a buffer at a position.
#[derive(Drop)]
pub(crate) struct GivenTile {
    pub buffer: Name,
    pub at: TileAt,
    pub tile: Tile,
}

/// The tiles that were given last, each by a share of it. A clause sees them as a list.
#[derive(Drop)]
pub(crate) struct RecentTiles {
    tiles: Vec<GivenTile>,
    /// The index of the next one.
    next: usize,
}

impl Model for RecentTiles {
    ghost use Rattle.std.specs.Prelude.{List};
    ghost use Rattle.buffer_view.specs.declared.recent_tiles.GivenTile.{GivenTile};

    ghost Value = { List GivenTile };

    ghost view = { λ recent. recent.tiles.items };
}

impl RecentTiles {
    /// Returns an empty list. Takes no memory.
    pub(crate) fn new(alloc: Global) -> RecentTiles
        ensures { result ≡ [] }
    {
        RecentTiles {
            tiles: Vec::new(alloc),
            next: 0,
        }
    }

    /// Returns the tile of a buffer at a position, where it is kept.
    pub(crate) fn find(&self, buffer: Name, at: TileAt) -> Option<&Tile>
        ensures { IfSome result (λ tile. Contains self.now (record { buffer = buffer; at = at; tile = tile.now })) }
    {
        let given = self
            .tiles
            .iter()
            .find(|given| given.at == at && given.buffer == buffer)?;
        Some(&given.tile)
    }

    /// Keeps a tile, and gives up the one that was kept first where there are `MAX_TILES`.
    ///
    /// # Errors
    ///
    /// `NoMemory` if memory runs out. The tiles are then unchanged.
    pub(crate) fn keep(&mut self, given: GivenTile) -> Result<(), NoMemory>
        ensures { (kept : GivenTile) → Contains self.new kept → (kept ≡ given) ⊎ Contains self.old kept }
    {
        if self.next < self.tiles.len() {
            self.tiles[self.next] = given;
        } else {
            self.tiles.push(given)?;
        }
        self.next = self.next.wrapping_add(1) % MAX_TILES;
        Ok(())
    }
}
