//! A table of tiles and the names that it holds.

ghost use Rattle.std.specs.Prelude.{◌≡◌, ◌≤◌, ◌+◌, ◌∷◌, ◌++◌, [], None, IfOk, IfSome, IfNone, OnOk};
ghost use Rattle.std.specs.List.{IsDistinct};
ghost use Rattle.std.specs.List.Sorted.{IsPermutation};
ghost use Rattle.std.specs.Map.{keys_of, lookup};
ghost use Rattle.indexmap.specs.IndexMap.{insert_entry};
ghost use Rattle.plane_rect.specs.Tile.{same_tile};
ghost use Rattle.level_tables.specs.LevelTiles.{same_level_tile};

use crate::level_tile::LevelTile;
use alloc_basics::NoMemory;
use indexmap::IndexMap;
use pixel_formats::Format;
use plane_rect::TileAt;
use std::alloc::Global;
use std::marker::Model;

/// The tiles of one root buffer, by their names in a chain: those of level 0 that were put, and those of
/// the levels above that were averaged from them.
///
/// A clause sees a table as a record of its format, of the put tiles' positions with their names, and of
/// the levels' tiles with theirs, beside the room that it has for more of both. What it shows over what a
/// chain holds is `image_of` that.
#[derive(Drop)]
pub struct LevelTable {
    format: Format,
    pub(crate) put: IndexMap<TileAt, u64>,
    pub(crate) levels: IndexMap<LevelTile, u64>,
    alloc: Global,
}

impl Model for LevelTable {
    ghost use Rattle.indexmap.specs.IndexMap.{spare};
    ghost use Rattle.level_tables.specs.LevelTiles.{Table};

    ghost Value = { Table };

    ghost view = { λ t. record {
      tiles = record { format = t.format; put = t.put.entries; levels = t.levels.entries };
      room = spare t.put;
      level_room = spare t.levels;
    } };
}

impl LevelTable {
    /// Returns a table of no tile, whose later calls take memory from `alloc`.
    pub fn new(alloc: Global, format: Format) -> LevelTable
        ensures { result.tiles ≡ record { format = format; put = []; levels = [] } }
    {
        LevelTable {
            format,
            put: IndexMap::new(alloc),
            levels: IndexMap::new(alloc),
            alloc,
        }
    }

    /// Returns the format of its tiles.
    pub fn format(&self) -> Format
        ensures { result ≡ self.now.tiles.format }
    {
        self.format
    }

    /// Returns the allocator that its calls take memory from.
    pub(crate) fn allocator(&self) -> Global {
        self.alloc
    }

    /// Returns a table of the same tiles and names, of which it is no owner.
    ///
    /// # Errors
    ///
    /// `NoMemory` if memory runs out.
    pub fn copy(&self) -> Result<LevelTable, NoMemory>
        ensures { IfOk result (λ copy. copy.tiles ≡ self.now.tiles) }
    {
        Ok(LevelTable {
            format: self.format,
            put: self.put.clone()?,
            levels: self.levels.clone()?,
            alloc: self.alloc,
        })
    }

    /// Makes room for so many more positions, so that as many can be put without memory.
    ///
    /// # Errors
    ///
    /// `NoMemory` if memory runs out.
    pub fn reserve(&mut self, count: usize) -> Result<(), NoMemory>
        ensures tiles { self.new.tiles ≡ self.old.tiles }
        ensures room { OnOk result (count ≤ self.new.room) }
    {
        self.put.reserve(count)?;
        Ok(())
    }

    /// Makes room for a tile of a level.
    pub(crate) fn reserve_level(&mut self) -> Result<(), NoMemory>
        ensures tiles { self.new.tiles ≡ self.old.tiles }
        ensures room { OnOk result (1 ≤ self.new.level_room) }
    {
        self.levels.reserve(1)?;
        Ok(())
    }

    /// Returns the name of the tile that was put at a position.
    pub(crate) fn put_name(&self, at: TileAt) -> Option<u64>
        ensures { result ≡ lookup (same_tile at) self.now.tiles.put }
    {
        self.put.get(&at).copied()
    }

    /// Returns the name of a tile of a level that is held.
    pub(crate) fn level_name(&self, at: LevelTile) -> Option<u64>
        ensures { result ≡ lookup (same_level_tile at) self.now.tiles.levels }
    {
        self.levels.get(&at).copied()
    }

    /// Puts a name at a position, and returns the one that it had. Takes no memory.
    pub(crate) fn replace(&mut self, at: TileAt, name: u64) -> Option<u64>
        requires { 1 ≤ self.old.room }
        ensures old { result ≡ lookup (same_tile at) self.old.tiles.put }
        ensures put { self.new.tiles ≡ record self.old.tiles { put = insert_entry same_tile self.old.tiles.put at name } }
        ensures room { self.old.room ≤ self.new.room + 1 }
    {
        self.put.insert(at, name).ok().flatten()
    }

    /// Holds a name for a tile of a level. Takes no memory.
    pub(crate) fn hold(&mut self, at: LevelTile, name: u64)
        requires room { 1 ≤ self.old.level_room }
        requires absent { lookup (same_level_tile at) self.old.tiles.levels ≡ None }
        ensures held { self.new.tiles ≡ record self.old.tiles { levels = self.old.tiles.levels ++ (at, name) ∷ [] } }
        ensures once { IsDistinct same_level_tile (keys_of self.new.tiles.levels) }
    {
        let _held = self.levels.insert(at, name).is_ok();
    }

    /// Holds a tile of a level no longer, and returns the name that it had. Takes no memory.
    pub(crate) fn remove_level(&mut self, at: LevelTile) -> Option<u64>
        ensures removed { IfSome result (λ name. IsPermutation self.old.tiles.levels ((at, name) ∷ self.new.tiles.levels)) }
        ensures unchanged { IfNone result (self.new.tiles ≡ self.old.tiles) }
        ensures others { self.new.tiles ≡ record self.old.tiles { levels = self.new.tiles.levels } }
        ensures gone { lookup (same_level_tile at) self.new.tiles.levels ≡ None }
        ensures room { self.new.room ≡ self.old.room }
        ensures once { IsDistinct same_level_tile (keys_of self.new.tiles.levels) }
    {
        self.levels.swap_remove(&at)
    }
}
