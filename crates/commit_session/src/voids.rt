//! Cached pairs that damage voids.

ghost use Rattle.std.specs.Prelude.{◌≡◌};
ghost use Rattle.std.specs.Map.{values_of};
ghost use Rattle.std.specs.Option.{option_map};
ghost use Rattle.model_states.specs.Cache.{all_voided, by_pair, itself};
ghost use Rattle.node_cache.specs.NodeNames.{IsNodeCache, cached_in, pairs_in, sizes_in};
ghost use Rattle.node_cache.specs.Stores.{AddsNoOther, HaveOneOwner, by_sized};
ghost use Rattle.root_tiles.specs.Chains.{Leaves, chain_state};

use chain_contracts::TileChain;
use node_cache::{NodeCache, PairStore};
use plane_rect::{Name, Rect};

/// Takes the pairs out whose tile meets the rectangle that is given for their node. Takes no memory, and time in
/// proportion to the tiles of the rectangles or to the pairs for each, whichever are fewer.
pub(crate) fn void_all<C: TileChain>(cache: &mut NodeCache, chain: &mut C, damages: &[(Name, Rect)])
    requires cache { IsNodeCache cache.old.names.entries cache.old.names.cap cache.old.capacity (C.held chain.old) }
    requires alone { HaveOneOwner (C.held chain.old) (values_of cache.old.names.entries) }
    ensures pairs { pairs_in cache.new.names.entries ≡ all_voided itself (pairs_in cache.old.names.entries) damages.now }
    ensures sizes { sizes_in cache.new.names.entries (C.held chain.new)
        ≡ all_voided by_sized (sizes_in cache.old.names.entries (C.held chain.old)) damages.now }
    ensures cached { cached_in cache.new.names.entries (C.held chain.new)
        ≡ option_map (λ list. all_voided by_pair list damages.now) (cached_in cache.old.names.entries (C.held chain.old)) }
    ensures over { IsNodeCache cache.new.names.entries cache.new.names.cap cache.new.capacity (C.held chain.new) }
    ensures capacity { cache.new.capacity ≡ cache.old.capacity }
    ensures alone { HaveOneOwner (C.held chain.new) (values_of cache.new.names.entries) }
    ensures other_names { AddsNoOther (C.counts chain.old) (C.counts chain.new)
        (values_of cache.old.names.entries) (values_of cache.new.names.entries) }
    ensures left { Leaves 0 (values_of cache.old.names.entries) (values_of cache.new.names.entries)
        (chain_state C.ChainMeaning chain.old) (chain_state C.ChainMeaning chain.new) }
{
    for (node, rect) in damages {
        cache.void(chain, *node, *rect);
    }
}
