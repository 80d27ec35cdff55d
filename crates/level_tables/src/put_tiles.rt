//! Tiles as they were put, read without a change of the table or of the chain's names.

ghost use Rattle.std.specs.Prelude.{◌≡◌, IfErr, IfOk};
ghost use Rattle.chain_owners.specs.Counts.{Grows};
ghost use Rattle.chain_owners.specs.Cause.{HasSwapCause};
ghost use Rattle.level_tables.specs.{Found.IsPutTile, Over.IsOver};

use crate::table::LevelTable;
use chain_contracts::TileChain;
use chain_owners::SwapRefused;
use plane_rect::TileAt;
use tile_cow::Tile;

impl LevelTable {
    /// Returns the tile that was put at a position, or none where none was. The chain's names, their bytes
    /// and their owners are unchanged, whatever it answers. Reads at most one name.
    ///
    /// # Errors
    ///
    /// `SwapFault` only where the swap's count of I/O errors rose in this call, `SwapFull` only where
    /// the chain's names can fill the swap, and `NoMemory` if memory runs out.
    pub fn put_tile<C: TileChain>(
        &self,
        chain: &mut C,
        at: TileAt,
    ) -> Result<Option<Tile>, SwapRefused>
        requires { IsOver self.now.tiles (C.held chain.old) }
        ensures found { IfOk result (IsPutTile self.now.tiles (C.held chain.old) at) }
        ensures held { C.held chain.new ≡ C.held chain.old }
        ensures counts { Grows 0 (C.counts chain.old) (C.counts chain.new) }
        ensures cause { IfErr result (HasSwapCause (C.counts chain.old) (C.counts chain.new) (C.counts chain.old).names) }
        ensures loans { C.loans chain.new ≡ C.loans chain.old }
        ensures valid { C.is_valid chain.old → C.is_valid chain.new }
    {
        let Some(name) = self.put_name(at) else {
            return Ok(None);
        };
        let tile = chain.read(name, self.tile_len())?;
        Ok(Some(tile))
    }
}
