//! Tiles of nodes that a strip holds while it is in work.

ghost use Rattle.std.specs.Prelude.{◌≡◌, [], OnErr, OnOk};
ghost use Rattle.std.specs.Option.{option_copied};
ghost use Rattle.indexmap.specs.IndexMap.{insert_entry};
ghost use Rattle.node_tiles.specs.Held.{held_bytes, node_tile, same_node_tile};

use alloc_basics::NoMemory;
use indexmap::IndexMap;
use plane_rect::TileAt;
use std::alloc::Global;
use std::marker::Model;
use tile_cow::Tile;

/// A tile of the node at a position.
#[derive(Clone, Copy, Debug, PartialEq, Eq, Hash)]
pub struct NodeTile {
    /// The position of the node among the nodes.
    pub node: u32,
    /// The tile.
    pub at: TileAt,
}

/// Tiles of nodes that a strip holds while it is in work, so that it looks none up twice. It owns its
/// shares of them, whatever a cache gives up meanwhile. A clause sees it as the list of the tiles'
/// keys and bytes.
#[derive(Drop)]
pub struct StripTiles {
    tiles: IndexMap<NodeTile, Tile>,
}

impl Model for StripTiles {
    ghost use Rattle.node_tiles.specs.Held.{HeldTiles};

    ghost Value = { HeldTiles };

    ghost view = { λ held. held.tiles.entries };
}

impl StripTiles {
    /// Returns the list of no tile, without memory.
    pub fn new(alloc: Global) -> StripTiles
        ensures { result ≡ [] }
    {
        StripTiles {
            tiles: IndexMap::new(alloc),
        }
    }

    /// Makes room for so many more tiles.
    ///
    /// # Errors
    ///
    /// `NoMemory` if memory runs out.
    pub fn reserve(&mut self, count: usize) -> Result<(), NoMemory>
        ensures { self.new ≡ self.old }
    {
        self.tiles.reserve(count)?;
        Ok(())
    }

    /// Holds a tile of the node at a position, in place of the one that it held for it. Takes constant
    /// time.
    ///
    /// # Errors
    ///
    /// `NoMemory` if memory runs out. The tiles are then unchanged.
    pub fn hold(&mut self, node: u32, at: TileAt, tile: Tile) -> Result<(), NoMemory>
        ensures held { OnOk result (self.new ≡ insert_entry same_node_tile self.old (node_tile node at) tile) }
        ensures unchanged { OnErr result (self.new ≡ self.old) }
    {
        self.tiles.insert(NodeTile { node, at }, tile)?;
        Ok(())
    }

    /// Returns the tile of the node at a position, where it is held. Takes constant time.
    pub fn tile(&self, node: u32, at: TileAt) -> Option<&Tile>
        ensures { option_copied result ≡ held_bytes self.now node at }
    {
        self.tiles.get(&NodeTile { node, at })
    }
}
