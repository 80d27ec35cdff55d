//! Calls on the handler below a cache, some of whose names are there. `len` is also called for its clause alone.

ghost use Rattle.std.specs.Prelude.{◌≡◌, IfErr, OnErr, OnOk, is_some, true};
ghost use Rattle.std.specs.FinMap as map;
ghost use Rattle.chain_owners.specs.Held.{length_of, with_tile, without_tile};
ghost use Rattle.chain_owners.specs.Counts.{Continues};
ghost use Rattle.chain_owners.specs.Cause.{HasSwapCause};
ghost use Rattle.chain_contracts.specs.Tiles.{ReportsPut, emptied};
ghost use Rattle.tile_chain.specs.Overlay.{IsCache, overlay};

use chain_contracts::TileHandler;
use chain_owners::SwapRefused;
use lru::LruCache;
use tile_cow::Tile;

/// Puts the tile of a name below, unless the name is there: then it has this tile already.
///
/// # Errors
///
/// As `TileHandler::put`.
pub(crate) fn put_where_missing<H: TileHandler>(
    below: &mut H,
    name: u64,
    tile: &Tile,
) -> Result<(), SwapRefused>
    requires { is_some (length_of (H.held below.old) name) ≡ true
        → with_tile (H.held below.old) name tile.now ≡ H.held below.old }
    ensures put { OnOk result (H.held below.new ≡ with_tile (H.held below.old) name tile.now) }
    ensures unchanged { OnErr result (H.held below.new ≡ H.held below.old) }
    ensures cause { IfErr result (HasSwapCause (emptied (H.counts below.old)) (H.counts below.new)
        (map.len (with_tile (H.held below.old) name tile.now).lengths)) }
    ensures full { H.is_valid below.old → IfErr result
        (ReportsPut (H.held below.old) tile.now (H.store below.new)) }
    ensures continues { Continues (H.counts below.old) (H.counts below.new) }
    ensures loans { H.loans below.new ≡ H.loans below.old }
    ensures valid { H.is_valid below.old → H.is_valid below.new }
{
    if below.has(name) {
        return Ok(());
    }
    below.put(name, tile)
}

/// Takes a name out of what is below, where it is there.
pub(crate) fn forget_where_there<H: TileHandler>(below: &mut H, name: u64)
    ensures held { H.held below.new ≡ without_tile (H.held below.old) name }
    ensures continues { Continues (H.counts below.old) (H.counts below.new) }
    ensures loans { H.loans below.new ≡ H.loans below.old }
    ensures valid { H.is_valid below.old → H.is_valid below.new }
{
    if below.has(name) {
        below.forget(name);
    }
}

/// Forgets below the names of these tiles, which are in memory. It looks at each of them.
pub(crate) fn forget_below<H: TileHandler>(below: &mut H, tiles: &LruCache<u64, Tile>)
    ensures held { overlay tiles.now.entries (H.held below.new) ≡ overlay tiles.now.entries (H.held below.old) }
    ensures cached { IsCache tiles.now.entries tiles.now.cap (H.held below.old)
        → IsCache tiles.now.entries tiles.now.cap (H.held below.new) }
    ensures continues { Continues (H.counts below.old) (H.counts below.new) }
    ensures loans { H.loans below.new ≡ H.loans below.old }
    ensures valid { H.is_valid below.old → H.is_valid below.new }
{
    tiles.len();
    for (name, _) in tiles.iter() {
        forget_where_there(below, *name);
    }
}
