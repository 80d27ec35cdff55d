//! Calls on a cache whose tiles all have four bytes, four times the same.

ghost use Rattle.std.specs.Prelude.{◌≡◌, ◌≤◌, IfOk, length, map};
ghost use Rattle.node_cache.specs.HandTiles.{IsHandCache, hand_size};
ghost use Rattle.node_cache.specs.NodeNames.{IsNodeCache, sizes_in};
ghost use Rattle.test_sessions.specs.Lengths.{HaveLength};

use crate::values::{Fields, check_row, name};
use alloc_basics::NoMemory;
use chain_owners::ChainMeaning;
use node_cache::{HandCache, NodeCache, PairStore};
use plane_rect::{Name, TileAt};
use std::alloc::Global;
use std::process::Abort;
use test_nodes::rect;
use tile_chain::{SwapRefused, TileChain};
use tile_cow::Tile;

/// A node by its word, and one of its tiles by the column and the row from the origin.
pub type Spot = (&'static str, i8, i8);

/// A node and one of its tiles.
type Pair = (Name, TileAt);

/// Returns the node and the tile of a spot.
fn pair(rt: &impl Abort, spot: Spot) -> Pair {
    let at = TileAt::of(i32::from(spot.1) * 64, i32::from(spot.2) * 64);
    (name(rt, spot.0), at)
}

/// Returns a cache over a chain, without a pair.
pub fn node_cache<C: TileChain>(
    _chain: &C,
    alloc: Global,
    capacity: u32,
) -> Result<NodeCache, NoMemory>
    requires { 1 ≤ capacity }
    ensures over { IfOk result (λ cache. IsNodeCache cache.names.entries cache.names.cap cache.capacity (C.held _chain.now)) }
    ensures lengths { IfOk result (λ cache. HaveLength 4 (sizes_in cache.names.entries (C.held _chain.now))) }
{
    let cache = NodeCache::new(alloc, capacity)?;
    Ok(cache)
}

/// Returns a cache in memory, without a pair.
pub fn hand_cache(alloc: Global, capacity: u32) -> Result<HandCache, NoMemory>
    requires { 1 ≤ capacity }
    ensures over { IfOk result (λ cache. IsHandCache cache.tiles.entries cache.tiles.cap) }
    ensures lengths { IfOk result (λ cache. HaveLength 4 (map hand_size cache.tiles.entries)) }
{
    let cache = HandCache::new(alloc, capacity)?;
    Ok(cache)
}

/// Returns a tile of four times this byte.
fn four(alloc: Global, byte: u8) -> Result<Tile, NoMemory>
    ensures { IfOk result (λ tile. length tile ≡ 4) }
{
    let tile = Tile::from_vec(alloc, vec![in alloc; byte; 4]?)?;
    Ok(tile)
}

/// Looks for the pair of a spot. Returns the first byte of its tile, where it is there.
pub fn look<H: ChainMeaning, C: PairStore<H>>(
    rt: &impl Abort,
    cache: &mut C,
    chain: &mut H,
    spot: Spot,
) -> Result<Option<u8>, SwapRefused>
    requires over { C.is_over cache.old (H.held chain.old) }
    requires lengths { HaveLength 4 (C.sizes cache.old (H.held chain.old)) }
    ensures over { C.is_over cache.new (H.held chain.new) }
    ensures lengths { HaveLength 4 (C.sizes cache.new (H.held chain.new)) }
{
    let (node, at) = pair(rt, spot);
    let found = cache.look(chain, node, at, 4)?;
    Ok(found.and_then(|tile| tile.bytes().first().copied()))
}

/// Keeps a tile of four times a byte for the pair of a spot that isn't there. Returns whether it wasn't.
pub fn keep<H: ChainMeaning, C: PairStore<H>>(
    rt: &impl Abort,
    cache: &mut C,
    chain: &mut H,
    alloc: Global,
    spot: Spot,
    byte: u8,
) -> Result<bool, SwapRefused>
    requires over { C.is_over cache.old (H.held chain.old) }
    requires lengths { HaveLength 4 (C.sizes cache.old (H.held chain.old)) }
    ensures over { C.is_over cache.new (H.held chain.new) }
    ensures lengths { HaveLength 4 (C.sizes cache.new (H.held chain.new)) }
{
    let (node, at) = pair(rt, spot);
    let tile = four(alloc, byte)?;
    let found = cache.look(chain, node, at, 4)?;
    if found.is_some() {
        return Ok(false);
    }
    cache.keep(chain, node, at, tile)?;
    Ok(true)
}

/// Takes the pairs of a node out whose tiles meet a rectangle.
pub fn void<H: ChainMeaning, C: PairStore<H>>(
    rt: &impl Abort,
    cache: &mut C,
    chain: &mut H,
    node: &str,
    fields: Fields,
)
    requires over { C.is_over cache.old (H.held chain.old) }
    requires lengths { HaveLength 4 (C.sizes cache.old (H.held chain.old)) }
    ensures over { C.is_over cache.new (H.held chain.new) }
    ensures lengths { HaveLength 4 (C.sizes cache.new (H.held chain.new)) }
{
    let node = name(rt, node);
    cache.void(chain, node, rect(fields));
}

/// Checks the pairs of a row and their order, the most recent first.
pub fn check_order<H: ChainMeaning, C: PairStore<H>>(
    rt: &impl Abort,
    row: usize,
    cache: &C,
    _chain: &H,
    alloc: Global,
    wanted: &[Spot],
) {
    let order = cache.order().expect(rt, "memory");
    let mut pairs = Vec::new(alloc);
    for spot in wanted {
        pairs.push(pair(rt, *spot)).expect(rt, "memory");
    }
    check_row(rt, row, &order, &pairs);
}
