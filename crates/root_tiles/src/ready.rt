//! Tiles that are ready before their turn.

ghost use Rattle.std.specs.Prelude.{IfOk, IfSome, OnOk};
ghost use Rattle.root_tiles.specs.Cutting.{Cutting, IsCut};

use alloc_basics::NoMemory;
use plane_rect::TileAt;
use tile_cow::Tile;

/// Gives tiles of a root that were made before their turn, since they depend on nothing of a chain.
pub(crate) trait ReadyTiles {
    /// They are cut from what is written over a rectangle.
    ghost are_cut: { Self → Cutting → Type 0 };

    /// Returns the tile of a position if it is ready. It is asked for each position that a rectangle meets, in
    /// their order.
    ///
    /// # Errors
    ///
    /// `NoMemory` if memory runs out.
    fn take(&mut self, at: TileAt) -> Result<Option<Tile>, NoMemory>
        requires { (cutting : Cutting) × are_cut self.old cutting }
        ensures cut { OnOk result ((cutting : Cutting) → are_cut self.old cutting → are_cut self.new cutting) }
        ensures ready { (cutting : Cutting) → are_cut self.old cutting →
            IfOk result (λ found. IfSome found (IsCut cutting at)) };
}

/// No tile is ready.
#[derive(Clone, Copy)]
pub(crate) struct NoneReady;

impl ReadyTiles for NoneReady {
    ghost are_cut = { λ _ _. Unit {0} };

    fn take(&mut self, _at: TileAt) -> Result<Option<Tile>, NoMemory> {
        Ok(None)
    }
}
