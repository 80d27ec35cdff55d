//! Tiles read from a table.

ghost use Rattle.std.specs.Prelude.{◌≡◌, ℕ, ◌+◌, ◌-◌, ◌≤◌, ◌↔◌, ◌⊎◌, IfErr, IfOk, IsTrue, None, OnOk, length};
ghost use Rattle.std.specs.Map.{lookup};
ghost use Rattle.chain_owners.specs.{Counts.Grows, Owners.Respects};
ghost use Rattle.tile_cow.specs.Tile.{IsTileLength};
ghost use Rattle.pixel_formats.specs.Limits.{max_level};
ghost use Rattle.model_images.specs.TileCounts.{level_tiles};
ghost use Rattle.chain_owners.specs.Cause.{HasSwapCause};
ghost use Rattle.level_tables.specs.LevelTiles.{hull_of, image_of, names, positions, same_level_tile};
ghost use Rattle.level_tables.specs.Over.{IsOver, IsTileOfLevel, tile_length};
ghost use Rattle.level_tables.specs.Steps.{HoldsMore, names_with_levels, state};
ghost use Rattle.level_tables.specs.Found.{AreFound, Finds, HasNoneBelow, IsHeldTile, IsInHalf, name_in};

use crate::four_tiles::{FourTiles, at_level, is_in_half, tile_below};
use crate::level_tile::LevelTile;
use crate::table::LevelTable;
use crate::tile_bytes::bytes_of;
use chain_contracts::TileChain;
use chain_owners::SwapRefused;
use plane_rect::TileAt;
use tile_cow::Tile;

impl LevelTable {
    /// Returns the tile of a position at a level: as it was put at level 0, and averaged from the four
    /// tiles below it at the levels above, where it is held until one of those is put again. It is zero
    /// where nothing was put, and isn't held then. The image is unchanged whatever the answer, but after
    /// an error there may be tiles of levels that were made. Reads four tiles for each that it makes.
    ///
    /// # Errors
    ///
    /// `SwapFault` only where the swap's count of I/O errors rose in this call, `SwapFull` only where
    /// the names and as many more as the levels of the image have tiles can fill the swap, and
    /// `NoMemory` if memory runs out.
    pub fn tile<C: TileChain>(
        &mut self,
        chain: &mut C,
        level: u32,
        at: TileAt,
    ) -> Result<Tile, SwapRefused>
        requires over { IsOver self.old.tiles (C.held chain.old) }
        requires level { level ≤ max_level }
        ensures bytes { IfOk result (IsTileOfLevel (image_of self.old.tiles (C.held chain.old)) level at) }
        ensures length { IfOk result (λ tile. length tile ≡ tile_length self.old.tiles.format) }
        ensures put { self.new.tiles ≡ record self.old.tiles { levels = self.new.tiles.levels } }
        ensures image { image_of self.new.tiles (C.held chain.new) ≡ image_of self.old.tiles (C.held chain.old) }
        ensures over { IsOver self.new.tiles (C.held chain.new) }
        ensures others { Respects (C.held chain.old) (C.held chain.new) (names self.old.tiles) (names self.new.tiles) }
        ensures counts { Grows (level_tiles (hull_of self.old.tiles) level) (C.counts chain.old) (C.counts chain.new) }
        ensures more { HoldsMore level
            (state self.old.tiles (C.held chain.old) (C.counts chain.old))
            (state self.new.tiles (C.held chain.new) (C.counts chain.new)) }
        ensures cause { IfErr result (HasSwapCause (C.counts chain.old) (C.counts chain.new)
            ((C.counts chain.old).names + level_tiles (hull_of self.old.tiles) level)) }
        ensures causes { (top : ℕ) → level ≤ top → IfErr result (HasSwapCause (C.counts chain.old) (C.counts chain.new)
            (names_with_levels top (state self.old.tiles (C.held chain.old) (C.counts chain.old)))) }
        ensures loans { C.loans chain.new ≡ C.loans chain.old }
        ensures valid { C.is_valid chain.old → C.is_valid chain.new }
    {
        let mut spare = Vec::new(self.allocator());
        match self.find(chain, level, at, &mut spare)? {
            Some(tile) => Ok(tile),
            None => Ok(chain.zero(self.tile_len())?),
        }
    }

    /// Returns how many bytes a tile has.
    pub fn tile_len(&self) -> u32
        ensures value { result ≡ tile_length self.now.tiles.format }
        ensures size { IsTileLength result }
    {
        4096 * self.format().pixel_bytes()
    }

    /// Returns the name of a tile of a level, where the table holds one.
    fn name_of(&self, level: u32, at: TileAt) -> Option<u64>
        ensures { result ≡ name_in self.now.tiles level at }
    {
        if level == 0 {
            return self.put_name(at);
        }
        self.level_name(LevelTile { level, tile: at })
    }

    /// Returns a tile of a level, where the table holds its name.
    fn held_tile<C: TileChain>(
        &self,
        chain: &mut C,
        level: u32,
        at: TileAt,
    ) -> Result<Option<Tile>, SwapRefused>
        requires { IsOver self.now.tiles (C.held chain.old) }
        ensures found { IfOk result (IsHeldTile self.now.tiles (C.held chain.old) level at) }
        ensures held { C.held chain.new ≡ C.held chain.old }
        ensures counts { Grows 0 (C.counts chain.old) (C.counts chain.new) }
        ensures cause { IfErr result (HasSwapCause (C.counts chain.old) (C.counts chain.new) (C.counts chain.old).names) }
        ensures loans { C.loans chain.new ≡ C.loans chain.old }
        ensures valid { C.is_valid chain.old → C.is_valid chain.new }
    {
        let Some(name) = self.name_of(level, at) else {
            return Ok(None);
        };
        let tile = chain.read(name, self.tile_len())?;
        Ok(Some(tile))
    }

    /// Returns the mean of four tiles and holds it, if one of them is there. It is written into `spare`
    /// first.
    fn hold_average<C: TileChain>(
        &mut self,
        chain: &mut C,
        level: u32,
        at: TileAt,
        four: &FourTiles,
        spare: &mut Vec<u8>,
    ) -> Result<Option<Tile>, SwapRefused>
        requires over { IsOver self.old.tiles (C.held chain.old) }
        requires some_level { 1 ≤ level }
        requires known_level { level ≤ max_level }
        requires half { IsInHalf at }
        requires absent { lookup (same_level_tile (record { level = level; tile = at })) self.old.tiles.levels ≡ None }
        requires four { AreFound (image_of self.old.tiles (C.held chain.old)) (positions self.old.tiles)
            self.old.tiles.format (level - 1) at four.now }
        ensures finds { Finds level at result
            (state self.old.tiles (C.held chain.old) (C.counts chain.old))
            (state self.new.tiles (C.held chain.new) (C.counts chain.new)) }
        ensures loans { C.loans chain.new ≡ C.loans chain.old }
        ensures valid { C.is_valid chain.old → C.is_valid chain.new }
    {
        if four.is_empty() {
            return Ok(None);
        }
        let tile = four.average(self.allocator(), self.format(), at, spare)?;
        self.reserve_level()?;
        let copy = tile.share(self.allocator())?;
        bytes_of(&copy);
        let name = chain.new_name(copy)?;
        self.hold(LevelTile { level, tile: at }, name);
        Ok(Some(tile))
    }

    /// Returns whether a tile may have been put that is averaged for this tile of a level. It looks at each
    /// tile that was put, unless these are more than can be averaged for it: then it says yes.
    fn may_have_below(&self, level: u32, at: TileAt) -> bool
        requires { level ≤ max_level }
        ensures { IsTrue result ⊎ HasNoneBelow (positions self.now.tiles) level at }
    {
        let below = 1 << (2 * level);
        below < self.put.len() || self.has_below(level, at)
    }

    /// Returns whether a tile was put that is averaged for this tile of a level. Looks at each.
    fn has_below(&self, level: u32, at: TileAt) -> bool
        ensures { IsTrue result ⊎ HasNoneBelow (positions self.now.tiles) level at }
    {
        for tile in self.put.keys() {
            if at_level(*tile, level) == at {
                return true;
            }
        }
        false
    }

    /// Returns a tile of a level, or none where nothing was put that is averaged for it. What is averaged
    /// is written into `spare` first, one tile after another.
    fn find<C: TileChain>(
        &mut self,
        chain: &mut C,
        level: u32,
        at: TileAt,
        spare: &mut Vec<u8>,
    ) -> Result<Option<Tile>, SwapRefused>
        requires over { IsOver self.old.tiles (C.held chain.old) }
        requires level { level ≤ max_level }
        ensures finds { Finds level at result
            (state self.old.tiles (C.held chain.old) (C.counts chain.old))
            (state self.new.tiles (C.held chain.new) (C.counts chain.new)) }
        ensures loans { C.loans chain.new ≡ C.loans chain.old }
        ensures valid { C.is_valid chain.old → C.is_valid chain.new }
    {
        let held = self.held_tile(chain, level, at)?;
        if let Some(tile) = held {
            return Ok(Some(tile));
        }
        if !may_be_above(level, at) {
            return Ok(None);
        }
        if !self.may_have_below(level, at) {
            return Ok(None);
        }
        let upper_left = self.find(chain, level - 1, tile_below(at, 0, 0), spare)?;
        let upper_right = self.find(chain, level - 1, tile_below(at, 1, 0), spare)?;
        let lower_left = self.find(chain, level - 1, tile_below(at, 0, 1), spare)?;
        let lower_right = self.find(chain, level - 1, tile_below(at, 1, 1), spare)?;
        let four = FourTiles {
            upper_left,
            upper_right,
            lower_left,
            lower_right,
        };
        self.hold_average(chain, level, at, &four, spare)
    }
}

/// Returns whether tiles of the plane may be averaged for a tile of a level.
fn may_be_above(level: u32, at: TileAt) -> bool
    ensures { IsTrue result ↔ ((1 ≤ level) × IsInHalf at) }
{
    1 <= level && is_in_half(at)
}
