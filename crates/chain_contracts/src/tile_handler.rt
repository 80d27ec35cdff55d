//! Maps from names to tiles.

ghost use Rattle.std.specs.Prelude.{◌≡◌, ℕ, Some, IfErr, IfOk, OnErr, OnOk, IsSome, is_some};
ghost use Rattle.std.specs.FinMap as map;
ghost use Rattle.tile_cow.specs.Tile.{IsTileLength};
ghost use Rattle.chain_owners.specs.Held.{Held, length_of, with_tile, without_tile};
ghost use Rattle.chain_owners.specs.Counts.{Continues};
ghost use Rattle.chain_owners.specs.Cause.{HasSwapCause};
ghost use Rattle.chain_contracts.specs.Tiles.{OnFull, Reads, ReportsPut, ReportsRoom, emptied};

use chain_owners::{ChainMeaning, SwapRefused};
use tile_cow::Tile;

/// A map from names to tiles. A clause sees what it holds by `ChainMeaning`. After an error the map is
/// as before, but there may be other free runs and other tiles in memory.
pub trait TileHandler: ChainMeaning {
    /// What is on the swap disk, whatever is in memory.
    ghost in_swap: { Self → Held };

    /// Holds where a get is refused for room while there are so many names: a cache holds as many tiles
    /// as it can, and there are more names. Without a cache no get is.
    ghost full_at_get: { Self → ℕ → Type 0 };

    /// Holds where a put is refused for room that would have left so many names: the cache, where there
    /// is one, holds as many tiles as it can, which is fewer than that.
    ghost full_at_put: { Self → ℕ → Type 0 };

    /// Returns whether a name is there.
    fn has(&self, name: u64) -> bool
        ensures { result ≡ is_some (length_of (Self.held self.now) name) };

    /// Returns the tile of a name, which has this many bytes.
    fn get(&mut self, name: u64, len: u32) -> Result<Tile, SwapRefused>
        requires size { IsTileLength len }
        requires known { length_of (Self.held self.old) name ≡ Some len }
        ensures read { IfOk result (Reads (Self.held self.old) name len) }
        ensures held { Self.held self.new ≡ Self.held self.old }
        ensures cause { IfErr result (HasSwapCause (emptied (Self.counts self.old))
            (Self.counts self.new) (Self.counts self.old).names) }
        ensures full { Self.is_valid self.old →
            IfErr result (ReportsRoom (Self.held self.old) (Self.store self.new)) }
        ensures resident { IfErr result (OnFull (full_at_get self.new (Self.counts self.old).names)) }
        ensures continues { Continues (Self.counts self.old) (Self.counts self.new) }
        ensures loans { Self.loans self.new ≡ Self.loans self.old }
        ensures valid { Self.is_valid self.old → Self.is_valid self.new };

    /// Adds a name with the bytes of this tile, or replaces its bytes where it is there.
    fn put(&mut self, name: u64, tile: &Tile) -> Result<(), SwapRefused>
        ensures put { OnOk result (Self.held self.new ≡ with_tile (Self.held self.old) name tile.now) }
        ensures unchanged { OnErr result (Self.held self.new ≡ Self.held self.old) }
        ensures cause { IfErr result (HasSwapCause (emptied (Self.counts self.old)) (Self.counts self.new)
            (map.len (with_tile (Self.held self.old) name tile.now).lengths)) }
        ensures full { Self.is_valid self.old → IfErr result
            (ReportsPut (Self.held self.old) tile.now (Self.store self.new)) }
        ensures resident { IfErr result
            (OnFull (full_at_put self.new (map.len (with_tile (Self.held self.old) name tile.now).lengths))) }
        ensures continues { Continues (Self.counts self.old) (Self.counts self.new) }
        ensures loans { Self.loans self.new ≡ Self.loans self.old }
        ensures valid { Self.is_valid self.old → Self.is_valid self.new };

    /// Takes a name out. Takes no memory.
    fn forget(&mut self, name: u64)
        requires { IsSome (length_of (Self.held self.old) name) }
        ensures held { Self.held self.new ≡ without_tile (Self.held self.old) name }
        ensures continues { Continues (Self.counts self.old) (Self.counts self.new) }
        ensures loans { Self.loans self.new ≡ Self.loans self.old }
        ensures valid { Self.is_valid self.old → Self.is_valid self.new };

    /// Writes every tile to the swap disk that isn't there yet.
    fn flush(&mut self) -> Result<(), SwapRefused>
        ensures flushed { OnOk result (in_swap self.new ≡ Self.held self.new) }
        ensures held { Self.held self.new ≡ Self.held self.old }
        ensures cause { IfErr result (HasSwapCause (emptied (Self.counts self.old))
            (Self.counts self.new) (Self.counts self.old).names) }
        ensures full { Self.is_valid self.old →
            IfErr result (ReportsRoom (Self.held self.old) (Self.store self.new)) }
        ensures continues { Continues (Self.counts self.old) (Self.counts self.new) }
        ensures loans { Self.loans self.new ≡ Self.loans self.old }
        ensures valid { Self.is_valid self.old → Self.is_valid self.new };
}
