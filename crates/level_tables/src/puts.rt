//! Tiles put into a table.

ghost use Rattle.std.specs.Prelude.{◌≡◌, ℕ, ◌+◌, ◌≤◌, ◌∷◌, ◌++◌, [], IfErr, OnErr, OnOk, Some, length};
ghost use Rattle.std.specs.Map.{keys_of, values_of};
ghost use Rattle.chain_owners.specs.Owners.{Owns, Respects};
ghost use Rattle.chain_owners.specs.Counts.{Grows};
ghost use Rattle.plane_rect.specs.Tile.{IsWhole, Tile as Position};
ghost use Rattle.pixel_formats.specs.Limits.{max_level};
ghost use Rattle.chain_owners.specs.Cause.{HasSwapCause};
ghost use Rattle.level_tables.specs.LevelTiles.{bytes_in, image_of, image_with, names, position_with, positions, positions_with, tiles_with};
ghost use Rattle.level_tables.specs.NewTiles.{AreNewTiles, tiles_in};
ghost use Rattle.level_tables.specs.Over.{IsOver, IsTileName, tile_length};
ghost use Rattle.level_tables.specs.Steps.{Switches, VoidsAbove, VoidsOne, state};

use crate::four_tiles::tile_above;
use crate::level_tile::LevelTile;
use crate::new_tiles::NewTiles;
use crate::table::LevelTable;
use crate::tile_bytes::bytes_of;
use chain_contracts::TileChain;
use chain_owners::SwapRefused;
use pixel_formats::limits::MAX_LEVEL;
use plane_rect::TileAt;
use tile_cow::Tile;

impl LevelTable {
    /// Holds a tile of a level no longer.
    fn void<C: TileChain>(&mut self, chain: &mut C, at: LevelTile)
        requires { IsOver self.old.tiles (C.held chain.old) }
        ensures voided { VoidsOne at
            (state self.old.tiles (C.held chain.old) (C.counts chain.old))
            (state self.new.tiles (C.held chain.new) (C.counts chain.new)) }
        ensures room { self.new.room ≡ self.old.room }
        ensures loans { C.loans chain.new ≡ C.loans chain.old }
        ensures valid { C.is_valid chain.old → C.is_valid chain.new }
    {
        if let Some(name) = self.remove_level(at) {
            chain.disown(name);
        }
    }

    /// Holds no longer what was averaged from the tile of a position. Takes no memory.
    fn void_above<C: TileChain>(&mut self, chain: &mut C, at: TileAt)
        requires { IsOver self.old.tiles (C.held chain.old) }
        ensures voided { VoidsAbove at max_level
            (state self.old.tiles (C.held chain.old) (C.counts chain.old))
            (state self.new.tiles (C.held chain.new) (C.counts chain.new)) }
        ensures room { self.new.room ≡ self.old.room }
        ensures loans { C.loans chain.new ≡ C.loans chain.old }
        ensures valid { C.is_valid chain.old → C.is_valid chain.new }
    {
        let mut above = at;
        for level in 0..MAX_LEVEL {
            above = tile_above(above);
            let averaged = LevelTile {
                level: level + 1,
                tile: above,
            };
            self.void(chain, averaged);
        }
    }

    /// Makes a name of its own the table's tile of a position, of which there may have been another, and
    /// holds no longer what was averaged from that. Takes no memory.
    pub(crate) fn switch_one<C: TileChain>(&mut self, chain: &mut C, at: TileAt, name: u64)
        requires over { IsOver self.old.tiles (C.held chain.old) }
        requires owned { Owns (C.held chain.old) (name ∷ names self.old.tiles) }
        requires named { IsTileName self.old.tiles.format (C.held chain.old) name }
        requires whole { IsWhole at }
        requires room { 1 ≤ self.old.room }
        ensures switched { Switches at name
            (state self.old.tiles (C.held chain.old) (C.counts chain.old))
            (state self.new.tiles (C.held chain.new) (C.counts chain.new)) }
        ensures room { self.old.room ≤ self.new.room + 1 }
        ensures loans { C.loans chain.new ≡ C.loans chain.old }
        ensures valid { C.is_valid chain.old → C.is_valid chain.new }
    {
        self.void_above(chain, at);
        if let Some(old) = self.replace(at, name) {
            chain.disown(old);
        }
    }

    /// Puts a tile at a position, in place of the one that it had. The image has these bytes there
    /// afterwards, and what was averaged from the old ones isn't held any more: it looks at one tile of
    /// each level. After an error the table, the names and their bytes are as before.
    ///
    /// # Errors
    ///
    /// `SwapFault` only where the swap's count of I/O errors rose in this call, `SwapFull` only where
    /// one name more can fill the swap, and `NoMemory` if memory runs out.
    pub fn put<C: TileChain>(
        &mut self,
        chain: &mut C,
        at: TileAt,
        tile: Tile,
    ) -> Result<(), SwapRefused>
        requires over { IsOver self.old.tiles (C.held chain.old) }
        requires length { length tile ≡ tile_length self.old.tiles.format }
        requires whole { IsWhole at }
        ensures image { OnOk result (image_of self.new.tiles (C.held chain.new)
            ≡ image_with self.old.tiles (C.held chain.old) ((at, Some tile) ∷ [])) }
        ensures positions { OnOk result (positions self.new.tiles ≡ position_with (positions self.old.tiles) at) }
        ensures format { self.new.tiles.format ≡ self.old.tiles.format }
        ensures unchanged { OnErr result (self.new.tiles ≡ self.old.tiles) }
        ensures held { OnErr result (C.held chain.new ≡ C.held chain.old) }
        ensures over { IsOver self.new.tiles (C.held chain.new) }
        ensures others { Respects (C.held chain.old) (C.held chain.new) (names self.old.tiles) (names self.new.tiles) }
        ensures counts { Grows 1 (C.counts chain.old) (C.counts chain.new) }
        ensures cause { IfErr result (HasSwapCause (C.counts chain.old) (C.counts chain.new)
            ((C.counts chain.old).names + 1)) }
        ensures loans { C.loans chain.new ≡ C.loans chain.old }
        ensures valid { C.is_valid chain.old → C.is_valid chain.new }
    {
        self.reserve(1)?;
        bytes_of(&tile);
        let name = chain.new_name(tile)?;
        self.switch_one(chain, at, name);
        Ok(())
    }

    /// Makes tiles that were made beside the table its own, all of them at once, each in place of the one
    /// that its position had. The image has their bytes there afterwards, those of the last one where a
    /// position is there twice, and what was averaged from the old ones isn't held any more. Takes no
    /// memory.
    pub fn switch<C: TileChain>(&mut self, chain: &mut C, tiles: NewTiles)
        requires over { IsOver self.old.tiles (C.held chain.old) }
        requires made { AreNewTiles self.old.tiles.format tiles.entries (C.held chain.old) }
        requires owned { Owns (C.held chain.old) (names self.old.tiles ++ values_of tiles.entries) }
        requires room { length tiles.entries ≤ self.old.room }
        ensures image { image_of self.new.tiles (C.held chain.new)
            ≡ image_with self.old.tiles (C.held chain.old) (tiles_in (C.held chain.old) tiles.entries) }
        ensures bytes { (tile : Position) → bytes_in (C.held chain.new) self.new.tiles.put tile
            ≡ tiles_with (bytes_in (C.held chain.old) self.old.tiles.put) (tiles_in (C.held chain.old) tiles.entries) tile }
        ensures positions { positions self.new.tiles
            ≡ positions_with (positions self.old.tiles) (keys_of tiles.entries) }
        ensures format { self.new.tiles.format ≡ self.old.tiles.format }
        ensures over { IsOver self.new.tiles (C.held chain.new) }
        ensures others { Respects (C.held chain.old) (C.held chain.new)
            (names self.old.tiles ++ values_of tiles.entries) (names self.new.tiles) }
        ensures counts { Grows 0 (C.counts chain.old) (C.counts chain.new) }
        ensures loans { C.loans chain.new ≡ C.loans chain.old }
        ensures valid { C.is_valid chain.old → C.is_valid chain.new }
    {
        for entry in tiles.entries() {
            self.switch_one(chain, entry.0, entry.1);
        }
    }
}
