//! Tiles of a root's image and of its levels.

ghost use Rattle.std.specs.Prelude.{◌≡◌, ℕ, ◌+◌, ◌≤◌, IfErr, IfOk, length};
ghost use Rattle.pixel_formats.specs.Limits.{max_level};
ghost use Rattle.level_tables.specs.Over.{IsTileOfLevel, tile_length};
ghost use Rattle.model_images.specs.TileCounts.{level_tiles};
ghost use Rattle.chain_owners.specs.Cause.{HasSwapCause};
ghost use Rattle.root_tiles.specs.Growth.{HoldsMoreTiles, names_with_root_levels, root_state};
ghost use Rattle.root_tiles.specs.Roots.{IsRootOver, root_image};
ghost use Rattle.root_tiles.specs.Chains.{IsRead, chain_state};

use crate::root::Root;
use chain_contracts::TileChain;
use chain_owners::SwapRefused;
use plane_rect::TileAt;
use tile_cow::Tile;

impl Root {
    /// Returns a tile of the image, as it was put and without a copy, or zeros where none was. The chain's
    /// names, their bytes and their owners are unchanged, whatever it answers.
    ///
    /// # Errors
    ///
    /// `SwapFault` only where the swap's count of I/O errors rose in this call, `SwapFull` only where
    /// the chain's names can fill the swap, and `NoMemory` if memory runs out.
    pub fn put_tile<C: TileChain>(&self, chain: &mut C, at: TileAt) -> Result<Tile, SwapRefused>
        requires { IsRootOver self.now (C.held chain.old) }
        ensures bytes { IfOk result (IsTileOfLevel (root_image self.now (C.held chain.old)) 0 at) }
        ensures length { IfOk result (λ tile. length tile ≡ tile_length self.now.tiles.format) }
        ensures cause { IfErr result (HasSwapCause (C.counts chain.old) (C.counts chain.new) (C.counts chain.old).names) }
        ensures read { IsRead
            (chain_state C.ChainMeaning chain.old) (chain_state C.ChainMeaning chain.new) }
    {
        match self.table.put_tile(chain, at)? {
            Some(tile) => Ok(tile),
            None => Ok(chain.zero(self.table.tile_len())?),
        }
    }

    /// Returns a tile of a level of the image, and holds it, and each lower one that it is averaged from,
    /// until a tile below it is written. The image is unchanged, whatever it answers. Reads four tiles for
    /// each that it makes.
    ///
    /// # Errors
    ///
    /// `SwapFault` only where the swap's count of I/O errors rose in this call, `SwapFull` only where
    /// the names and as many more as the levels of the box have tiles can fill the swap, and `NoMemory` if
    /// memory runs out.
    pub fn tile<C: TileChain>(
        &mut self,
        chain: &mut C,
        level: u32,
        at: TileAt,
    ) -> Result<Tile, SwapRefused>
        requires over { IsRootOver self.old (C.held chain.old) }
        requires level { level ≤ max_level }
        ensures bytes { IfOk result (IsTileOfLevel (root_image self.old (C.held chain.old)) level at) }
        ensures length { IfOk result (λ tile. length tile ≡ tile_length self.old.tiles.format) }
        ensures more { HoldsMoreTiles level
            (root_state self.old (C.held chain.old) (C.counts chain.old))
            (root_state self.new (C.held chain.new) (C.counts chain.new)) }
        ensures names { (C.counts chain.new).names ≤ (C.counts chain.old).names + level_tiles self.old.box level }
        ensures cause { IfErr result (HasSwapCause (C.counts chain.old) (C.counts chain.new)
            ((C.counts chain.old).names + level_tiles self.old.box level)) }
        ensures causes { (top : ℕ) → level ≤ top → IfErr result (HasSwapCause (C.counts chain.old) (C.counts chain.new)
            (names_with_root_levels top (root_state self.old (C.held chain.old) (C.counts chain.old)))) }
        ensures loans { C.loans chain.new ≡ C.loans chain.old }
        ensures valid { C.is_valid chain.old → C.is_valid chain.new }
    {
        self.table.tile(chain, level, at)
    }
}
