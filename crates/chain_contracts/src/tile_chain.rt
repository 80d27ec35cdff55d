//! Tiles under names that have owners.

ghost use Rattle.std.specs.Prelude.{◌≡◌, ◌≢◌, ◌+◌, ℕ, Some, None, IfErr, IfOk, IfSome, IsSome, OnErr, OnOk, length, replicate};
ghost use Rattle.tile_cow.specs.Tile.{IsTileLength};
ghost use Rattle.chain_owners.specs.Held.{Held, disowned, length_of, owned, owners_of, with_name, with_tile};
ghost use Rattle.chain_owners.specs.Counts.{Grows};
ghost use Rattle.chain_owners.specs.Cause.{HasSwapCause};
ghost use Rattle.chain_contracts.specs.Tiles.{OnFull, Reads, ReportsPut, ReportsRoom, emptied};

use alloc_basics::NoMemory;
use chain_owners::{ChainMeaning, SwapRefused};
use tile_cow::Tile;

/// A map from names to tiles, each name with a number of owners. Nothing is said of what is in memory:
/// a chain holds the same whatever its cache keeps there and whatever is on its swap.
///
/// Each call that is refused leaves the names, their bytes and their owners as they are.
///
/// # Errors
///
/// `SwapFault` comes only where the swap's count of I/O errors rose in the call. `SwapFull` comes only
/// where a tile had to leave memory, since as many are there as the chain's cache holds, and no free run
/// of the store was long enough: it has the blocks of a tile of the chain or of the call, and the longest
/// free run as the call leaves the store. `NoMemory` comes where memory runs out.
pub trait TileChain: ChainMeaning {
    /// What is on the swap disk, whatever is in memory.
    ghost in_swap: { Self → Held };

    /// Adds a name that isn't there, and is never 0. It has the bytes of this tile and one owner.
    fn new_name(&mut self, tile: Tile) -> Result<u64, SwapRefused>
        ensures absent { IfOk result (λ name. length_of (Self.held self.old) name ≡ None) }
        ensures unowned { IfOk result (λ name. owners_of (Self.held self.old) name ≡ 0) }
        ensures number { IfOk result (λ name. name ≢ 0) }
        ensures named { IfOk result (λ name. Self.held self.new ≡ with_name (Self.held self.old) name tile) }
        ensures unchanged { OnErr result (Self.held self.new ≡ Self.held self.old) }
        ensures cause { IfErr result (HasSwapCause (Self.counts self.old) (Self.counts self.new)
            ((Self.counts self.old).names + 1)) }
        ensures full { Self.is_valid self.old → IfErr result
            (ReportsPut (Self.held self.old) tile (Self.store self.new)) }
        ensures resident { IfErr result (OnFull (Self.resident self.new ≡ (Self.counts self.new).capacity)) }
        ensures counts { Grows 1 (Self.counts self.old) (Self.counts self.new) }
        ensures loans { Self.loans self.new ≡ Self.loans self.old }
        ensures valid { Self.is_valid self.old → Self.is_valid self.new };

    /// Returns the tile of a name, which has this many bytes if it is there. Without the name it is zero.
    fn read(&mut self, name: u64, len: u32) -> Result<Tile, SwapRefused>
        requires size { IsTileLength len }
        requires known { IfSome (length_of (Self.held self.old) name) (λ there. there ≡ len) }
        ensures read { IfOk result (Reads (Self.held self.old) name len) }
        ensures held { Self.held self.new ≡ Self.held self.old }
        ensures cause { IfErr result (HasSwapCause (Self.counts self.old) (Self.counts self.new)
            (Self.counts self.old).names) }
        ensures full { Self.is_valid self.old →
            IfErr result (ReportsRoom (Self.held self.old) (Self.store self.new)) }
        ensures resident { IfErr result (OnFull (Self.resident self.new ≡ (Self.counts self.new).capacity)) }
        ensures counts { Grows 0 (Self.counts self.old) (Self.counts self.new) }
        ensures loans { Self.loans self.new ≡ Self.loans self.old }
        ensures valid { Self.is_valid self.old → Self.is_valid self.new };

    /// Returns a tile of so many zeros, which all who ask for this length share.
    fn zero(&mut self, len: u32) -> Result<Tile, NoMemory>
        requires { IsTileLength len }
        ensures zero { IfOk result (λ tile. tile ≡ replicate len 0) }
        ensures held { Self.held self.new ≡ Self.held self.old }
        ensures counts { Self.counts self.new ≡ Self.counts self.old }
        ensures store { Self.store self.new ≡ Self.store self.old }
        ensures resident { Self.resident self.new ≡ Self.resident self.old }
        ensures loans { Self.loans self.new ≡ Self.loans self.old }
        ensures valid { Self.is_valid self.old → Self.is_valid self.new };

    /// Replaces the bytes of a name of one owner by as many of this tile.
    fn rewrite(&mut self, name: u64, tile: &Tile) -> Result<(), SwapRefused>
        requires owner { owners_of (Self.held self.old) name ≡ 1 }
        requires known { length_of (Self.held self.old) name ≡ Some (length tile.now) }
        ensures put { OnOk result (Self.held self.new ≡ with_tile (Self.held self.old) name tile.now) }
        ensures unchanged { OnErr result (Self.held self.new ≡ Self.held self.old) }
        ensures cause { IfErr result (HasSwapCause (Self.counts self.old) (Self.counts self.new)
            (Self.counts self.old).names) }
        ensures full { Self.is_valid self.old → IfErr result
            (ReportsPut (Self.held self.old) tile.now (Self.store self.new)) }
        ensures resident { IfErr result (OnFull (Self.resident self.new ≡ (Self.counts self.new).capacity)) }
        ensures counts { Grows 0 (Self.counts self.old) (Self.counts self.new) }
        ensures loans { Self.loans self.new ≡ Self.loans self.old }
        ensures valid { Self.is_valid self.old → Self.is_valid self.new };

    /// Adds an owner of a name. A number of owners that reaches 2^32 - 1 stays there. Takes no memory.
    fn own(&mut self, name: u64)
        requires { IsSome (length_of (Self.held self.old) name) }
        ensures held { Self.held self.new ≡ owned (Self.held self.old) name }
        ensures counts { Self.counts self.new ≡ Self.counts self.old }
        ensures store { Self.store self.new ≡ Self.store self.old }
        ensures resident { Self.resident self.new ≡ Self.resident self.old }
        ensures loans { Self.loans self.new ≡ Self.loans self.old }
        ensures valid { Self.is_valid self.old → Self.is_valid self.new };

    /// Takes an owner of a name away. The name goes with its last one, but stays for ever once its number
    /// of owners reached 2^32 - 1. Takes no memory.
    fn disown(&mut self, name: u64)
        requires { IsSome (length_of (Self.held self.old) name) }
        ensures held { Self.held self.new ≡ disowned (Self.held self.old) name }
        ensures counts { Grows 0 (Self.counts self.old) (Self.counts self.new) }
        ensures loans { Self.loans self.new ≡ Self.loans self.old }
        ensures valid { Self.is_valid self.old → Self.is_valid self.new };

    /// Returns how many owners a name has; 0 where it isn't there.
    fn owners(&self, name: u64) -> u32
        ensures owners { result ≡ owners_of (Self.held self.now) name }
        ensures absent { Self.is_valid self.now → length_of (Self.held self.now) name ≡ None → result ≡ 0 };

    /// Writes every tile to the swap that isn't there yet.
    fn flush(&mut self) -> Result<(), SwapRefused>
        ensures flushed { OnOk result (in_swap self.new ≡ Self.held self.new) }
        ensures held { Self.held self.new ≡ Self.held self.old }
        ensures cause { IfErr result (HasSwapCause (emptied (Self.counts self.old)) (Self.counts self.new)
            (Self.counts self.old).names) }
        ensures full { Self.is_valid self.old →
            IfErr result (ReportsRoom (Self.held self.old) (Self.store self.new)) }
        ensures counts { Grows 0 (Self.counts self.old) (Self.counts self.new) }
        ensures loans { Self.loans self.new ≡ Self.loans self.old }
        ensures valid { Self.is_valid self.old → Self.is_valid self.new };
}
