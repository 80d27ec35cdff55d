//! The cache whose tiles are in a chain. `len` and `bytes` are also called for their clauses alone, which proofs cite.

ghost use Rattle.std.specs.Prelude.{◌≡◌, ℕ, ◌≤◌, [], ◌∷◌, ◌++◌, IfErr, IfOk, IfSome, MatchResult, OnErr, OnOk, None, Some};
ghost use Rattle.std.specs.Map.{lookup, remove_entry, values_of};
ghost use Rattle.tile_cow.specs.Tile.{IsTileLength};
ghost use Rattle.chain_owners.specs.Held.{Held, length_of};
ghost use Rattle.chain_owners.specs.{Counts.Grows, Owners.Owns};
ghost use Rattle.chain_owners.specs.Cause.{HasSwapCause};
ghost use Rattle.chain_owners.specs.declared.swap_refused.SwapRefused.TheVariants as refusals;
ghost use Rattle.chain_contracts.specs.Tiles.{Reads};
ghost use Rattle.lru.specs.LruCache.{promoted, put_entries};
ghost use Rattle.node_cache.specs.Keys.{entries_left, same_key};
ghost use Rattle.node_cache.specs.NodeNames.{Entries, Entry, GivesUp, IsFoundIn, IsNodeCache, IsTileName, cached_in, pairs_in, sizes_in};
ghost use Rattle.node_cache.specs.NodeLaws.{node_exposed, node_few_names, node_framed, node_framed_condition, node_framed_sizes, node_within, pairs_distinct};

use crate::pair_key::{PairKey, order_of};
use crate::pair_store::PairStore;
use crate::rectangles::tile_count;
use alloc_basics::NoMemory;
use chain_contracts::TileChain;
use chain_owners::SwapRefused;
use lru::LruCache;
use plane_rect::{Name, Rect, TileAt};
use std::alloc::Global;
use std::num::NonZeroUsize;
use tile_cow::Tile;

/// Keeps tiles in the chain that its calls are lent, each under a name of its own, and at most so many
/// as its capacity.
#[derive(Drop)]
pub struct NodeCache {
    names: LruCache<PairKey, u64>,
    capacity: u32,
    alloc: Global,
}

impl NodeCache {
    /// Returns a cache without pairs, which keeps at most `capacity` of them.
    pub fn new(alloc: Global, capacity: u32) -> Result<NodeCache, NoMemory>
        requires { 1 ≤ capacity }
        ensures empty { IfOk result (λ cache. cache.names.entries ≡ []) }
        ensures over { IfOk result (λ cache. (held : Held) →
            IsNodeCache cache.names.entries cache.names.cap cache.capacity held) }
        ensures capacity { IfOk result (λ cache. cache.capacity ≡ capacity) }
    {
        let most = NonZeroUsize::new(capacity as usize).unwrap();
        let names = LruCache::sparse(alloc, most)?;
        Ok(NodeCache {
            names,
            capacity,
            alloc,
        })
    }

    /// Returns the tile of a pair, and moves the pair to the front; None where it isn't there.
    fn find<C: TileChain>(
        &mut self,
        chain: &mut C,
        key: PairKey,
        len: u32,
    ) -> Result<Option<Tile>, SwapRefused>
        requires over { IsNodeCache self.old.names.entries self.old.names.cap self.old.capacity (C.held chain.old) }
        requires length { IfSome (lookup (same_key key) self.old.names.entries)
            (λ name. length_of (C.held chain.old) name ≡ Some len) }
        ensures found { IfOk result
            (IsFoundIn (C.held chain.old) (lookup (same_key key) self.old.names.entries) len) }
        ensures entries { OnOk result
            (self.new.names.entries ≡ promoted (same_key key) self.old.names.entries) }
        ensures unchanged { OnErr result (self.new.names ≡ self.old.names) }
        ensures over { IsNodeCache self.new.names.entries self.new.names.cap self.new.capacity (C.held chain.new) }
        ensures capacity { self.new.capacity ≡ self.old.capacity }
        ensures held { C.held chain.new ≡ C.held chain.old }
        ensures cause { IfErr result (HasSwapCause (C.counts chain.old) (C.counts chain.new) (C.counts chain.old).names) }
        ensures counts { Grows 0 (C.counts chain.old) (C.counts chain.new) }
        ensures loans { C.loans chain.new ≡ C.loans chain.old }
        ensures valid { C.is_valid chain.old → C.is_valid chain.new }
    {
        let Some(name) = self.names.peek(&key).copied() else {
            return Ok(None);
        };
        let tile = chain.read(name, len)?;
        self.names.promote(&key);
        self.names.len();
        Ok(Some(tile))
    }

    /// Takes a pair out, where it is there, and gives the name of its tile up.
    fn drop_pair<C: TileChain>(&mut self, chain: &mut C, key: PairKey)
        requires { IsNodeCache self.old.names.entries self.old.names.cap self.old.capacity (C.held chain.old) }
        ensures entries { self.new.names.entries ≡ remove_entry (same_key key) self.old.names.entries }
        ensures over { IsNodeCache self.new.names.entries self.new.names.cap self.new.capacity (C.held chain.new) }
        ensures capacity { self.new.capacity ≡ self.old.capacity }
        ensures given_up { GivesUp (C.held chain.old) (C.held chain.new) (C.counts chain.old) (C.counts chain.new)
            (values_of self.old.names.entries) (values_of self.new.names.entries) }
        ensures loans { C.loans chain.new ≡ C.loans chain.old }
        ensures valid { C.is_valid chain.old → C.is_valid chain.new }
    {
        let Some(name) = self.names.pop(&key) else {
            return;
        };
        chain.disown(name);
        self.names.len();
    }

    /// Puts a pair that isn't there at the front, with the name of its tile. The last pair gives its name up
    /// where it falls off, and the new name is given up where memory runs out.
    fn put_name<C: TileChain>(
        &mut self,
        chain: &mut C,
        key: PairKey,
        name: u64,
    ) -> Result<(), SwapRefused>
        requires over { IsNodeCache self.old.names.entries self.old.names.cap self.old.capacity (C.held chain.old) }
        requires owned { Owns (C.held chain.old) (name ∷ values_of self.old.names.entries) }
        requires tile { IsTileName (C.held chain.old) name }
        requires absent { lookup (same_key key) self.old.names.entries ≡ None }
        ensures entries { OnOk result
            (self.new.names.entries ≡ put_entries same_key self.old.names key name) }
        ensures unchanged { OnErr result (self.new.names ≡ self.old.names) }
        ensures cause { IfErr result (λ refused. refused ≡ refusals.NoMemory) }
        ensures over { IsNodeCache self.new.names.entries self.new.names.cap self.new.capacity (C.held chain.new) }
        ensures capacity { self.new.capacity ≡ self.old.capacity }
        ensures given_up { GivesUp (C.held chain.old) (C.held chain.new) (C.counts chain.old) (C.counts chain.new)
            (name ∷ values_of self.old.names.entries) (values_of self.new.names.entries) }
        ensures loans { C.loans chain.new ≡ C.loans chain.old }
        ensures valid { C.is_valid chain.old → C.is_valid chain.new }
    {
        match self.names.push(key, name) {
            Ok(None) => {
                self.names.len();
                Ok(())
            }
            Ok(Some((_, last))) => {
                self.names.len();
                chain.disown(last);
                Ok(())
            }
            Err(_) => {
                chain.disown(name);
                Err(SwapRefused::NoMemory)
            }
        }
    }

    /// Takes the last pair out where a void of a node's tiles that meet a rectangle does, and else moves it
    /// to the front.
    fn turn_last<C: TileChain>(&mut self, chain: &mut C, node: Name, rect: &Rect)
        requires { IsNodeCache self.old.names.entries self.old.names.cap self.old.capacity (C.held chain.old) }
        ensures entries { (rest : Entries) (e : Entry) → self.old.names.entries ≡ rest ++ e ∷ [] →
            self.new.names.entries ≡ entries_left node rect.now (e ∷ []) ++ rest }
        ensures over { IsNodeCache self.new.names.entries self.new.names.cap self.new.capacity (C.held chain.new) }
        ensures capacity { self.new.capacity ≡ self.old.capacity }
        ensures given_up { GivesUp (C.held chain.old) (C.held chain.new) (C.counts chain.old) (C.counts chain.new)
            (values_of self.old.names.entries) (values_of self.new.names.entries) }
        ensures loans { C.loans chain.new ≡ C.loans chain.old }
        ensures valid { C.is_valid chain.old → C.is_valid chain.new }
    {
        let Some((key, _name)) = self.names.peek_lru() else {
            return;
        };
        let last = *key;
        if last.is_voided(node, rect) {
            self.drop_pair(chain, last);
            return;
        }
        self.names.promote(&last);
        self.names.len();
    }

    /// Takes the pairs of a node out whose tiles meet a rectangle; the others keep their order. It goes
    /// over the tiles of the rectangle or over the list, whichever are fewer.
    fn take_out<C: TileChain>(&mut self, chain: &mut C, node: Name, rect: &Rect)
        requires { IsNodeCache self.old.names.entries self.old.names.cap self.old.capacity (C.held chain.old) }
        ensures entries { self.new.names.entries ≡ entries_left node rect.now self.old.names.entries }
        ensures over { IsNodeCache self.new.names.entries self.new.names.cap self.new.capacity (C.held chain.new) }
        ensures capacity { self.new.capacity ≡ self.old.capacity }
        ensures given_up { GivesUp (C.held chain.old) (C.held chain.new) (C.counts chain.old) (C.counts chain.new)
            (values_of self.old.names.entries) (values_of self.new.names.entries) }
        ensures loans { C.loans chain.new ≡ C.loans chain.old }
        ensures valid { C.is_valid chain.old → C.is_valid chain.new }
    {
        let count = self.names.len();
        if tile_count(rect) < count {
            for at in rect.tiles() {
                self.drop_pair(chain, PairKey { node, at });
            }
            return;
        }
        for _turn in 0..count {
            self.turn_last(chain, node, rect);
        }
    }
}

impl<C: TileChain> PairStore<C> for NodeCache {
    ghost pairs = { λ cache. pairs_in cache.names.entries };

    ghost sizes = { λ cache held. sizes_in cache.names.entries held };

    ghost cached = { λ cache held. cached_in cache.names.entries held };

    ghost capacity = { λ cache. Some cache.capacity };

    ghost names = { λ cache. values_of cache.names.entries };

    ghost is_over = { λ cache held. IsNodeCache cache.names.entries cache.names.cap cache.capacity held };

    fn look(
        &mut self,
        chain: &mut C,
        node: Name,
        at: TileAt,
        len: u32,
    ) -> Result<Option<Tile>, SwapRefused> {
        self.find(chain, PairKey { node, at }, len)
    }

    fn keep(
        &mut self,
        chain: &mut C,
        node: Name,
        at: TileAt,
        tile: Tile,
    ) -> Result<(), SwapRefused> {
        tile.bytes();
        let name = chain.new_name(tile)?;
        self.put_name(chain, PairKey { node, at }, name)
    }

    fn void(&mut self, chain: &mut C, node: Name, rect: Rect) {
        self.take_out(chain, node, &rect);
    }

    fn has(&self, node: Name, at: TileAt) -> bool {
        self.names.contains(&PairKey { node, at })
    }

    fn order(&self) -> Result<Vec<(Name, TileAt)>, NoMemory> {
        order_of(self.alloc, &self.names)
    }

    fn bound(&self) -> Option<u32> {
        Some(self.capacity)
    }

    ghost framed = { λ cache. node_framed cache.names.entries };

    ghost framed_sizes = { λ cache. node_framed_sizes cache.names.entries };

    ghost framed_condition = { λ cache.
        node_framed_condition cache.names.entries cache.names.cap cache.capacity };

    ghost owned = { λ cache held over. over.owned };

    ghost exposed = { λ cache held.
        node_exposed cache.names.entries cache.names.cap cache.capacity held };

    ghost distinct = { λ cache held over. pairs_distinct cache.names.entries over.distinct };

    ghost within = { λ cache held.
        node_within cache.names.entries cache.names.cap cache.capacity held };

    ghost few_names = { λ cache. node_few_names cache.names.entries };
}
