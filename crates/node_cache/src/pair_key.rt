//! Keys of cached tiles.

ghost use Rattle.std.specs.Prelude.{◌≡◌, IfOk};
ghost use Rattle.node_cache.specs.{Keys.is_voided, NodeNames.pairs_in, Stores.pairs_at};

use alloc_basics::NoMemory;
use lru::LruCache;
use plane_rect::{Name, Rect, TileAt, meets};
use std::alloc::Global;

/// A tile of the node of a name.
#[derive(Clone, Copy, Debug, PartialEq, Eq, Hash)]
pub struct PairKey {
    /// The name of the node.
    pub node: Name,
    /// The tile.
    pub at: TileAt,
}

impl PairKey {
    /// Returns whether a void of a node's tiles that meet a rectangle takes the pair out.
    pub(crate) fn is_voided(&self, node: Name, rect: &Rect) -> bool
        ensures { result ≡ is_voided node rect.now self.now }
    {
        node == self.node && meets(&self.at, rect)
    }
}

/// Returns the pairs of a list, the most recent first.
pub(crate) fn order_of<V>(
    alloc: Global,
    entries: &LruCache<PairKey, V>,
) -> Result<Vec<(Name, TileAt)>, NoMemory>
    ensures { IfOk result (λ order. pairs_at order.items ≡ pairs_in entries.now.entries) }
{
    let mut order = Vec::with_capacity(alloc, entries.len())?;
    for (key, _value) in entries {
        order.push((key.node, key.at))?;
    }
    Ok(order)
}
