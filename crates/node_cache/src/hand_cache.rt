//! The cache that keeps its tiles itself. `len` is also called for its clause alone, that no pair is there twice.

ghost use Rattle.std.specs.Prelude.{◌≡◌, ℕ, ◌-◌, ◌^◌, ◌≤◌, List, [], ◌∷◌, ◌++◌, map, take, IfErr, IfOk, OnErr, OnOk, Some, None};
ghost use Rattle.std.specs.Map.{lookup, remove_entry};
ghost use Rattle.lru.specs.LruCache.{promoted, put_entries};
ghost use Rattle.chain_owners.specs.declared.swap_refused.SwapRefused.TheVariants as refusals;
ghost use Rattle.node_cache.specs.Keys.{entries_left, same_key};
ghost use Rattle.node_cache.specs.HandTiles.{HandEntries, HandEntry, IsHandCache, hand_bytes, hand_exposed, hand_few_names, hand_framed, hand_framed_condition, hand_owned, hand_size, hand_within};
ghost use Rattle.node_cache.specs.{NodeNames.pairs_in, NodeLaws.pairs_distinct};

use crate::pair_key::{PairKey, order_of};
use crate::pair_store::PairStore;
use crate::rectangles::tile_count;
use alloc_basics::NoMemory;
use chain_owners::SwapRefused;
use lru::LruCache;
use plane_rect::{Name, Rect, TileAt};
use std::alloc::Global;
use tile_cow::Tile;

/// Keeps tiles in memory, over no chain. No pair falls off at a keep: `trim` cuts the list to the capacity.
#[derive(Drop)]
pub struct HandCache {
    tiles: LruCache<PairKey, Tile>,
    capacity: u32,
    alloc: Global,
}

impl HandCache {
    /// Returns a cache without pairs, which `trim` cuts to `capacity` of them.
    pub fn new(alloc: Global, capacity: u32) -> Result<HandCache, NoMemory>
        requires { 1 ≤ capacity }
        ensures empty { IfOk result (λ cache. cache.tiles.entries ≡ []) }
        ensures over { IfOk result (λ cache. IsHandCache cache.tiles.entries cache.tiles.cap) }
        ensures capacity { IfOk result (λ cache. cache.capacity ≡ capacity) }
    {
        let tiles = LruCache::unbounded(alloc)?;
        Ok(HandCache {
            tiles,
            capacity,
            alloc,
        })
    }

    /// Cuts the list to the capacity: the last pairs go. Takes no memory.
    pub fn trim(&mut self)
        requires { IsHandCache self.old.tiles.entries self.old.tiles.cap }
        ensures entries { self.new.tiles.entries ≡ take self.old.capacity self.old.tiles.entries }
        ensures pairs { pairs_in self.new.tiles.entries ≡ take self.old.capacity (pairs_in self.old.tiles.entries) }
        ensures sizes { map hand_size self.new.tiles.entries
            ≡ take self.old.capacity (map hand_size self.old.tiles.entries) }
        ensures cached { map hand_bytes self.new.tiles.entries
            ≡ take self.old.capacity (map hand_bytes self.old.tiles.entries) }
        ensures over { IsHandCache self.new.tiles.entries self.new.tiles.cap }
        ensures capacity { self.new.capacity ≡ self.old.capacity }
    {
        self.trim_to(self.capacity);
    }

    /// Cuts the list to `most` pairs: the last ones go. Takes no memory.
    pub fn trim_to(&mut self, most: u32)
        requires { IsHandCache self.old.tiles.entries self.old.tiles.cap }
        ensures entries { self.new.tiles.entries ≡ take most self.old.tiles.entries }
        ensures pairs { pairs_in self.new.tiles.entries ≡ take most (pairs_in self.old.tiles.entries) }
        ensures sizes { map hand_size self.new.tiles.entries ≡ take most (map hand_size self.old.tiles.entries) }
        ensures cached { map hand_bytes self.new.tiles.entries ≡ take most (map hand_bytes self.old.tiles.entries) }
        ensures over { IsHandCache self.new.tiles.entries self.new.tiles.cap }
        ensures capacity { self.new.capacity ≡ self.old.capacity }
    {
        while self.tiles.len() > most as usize {
            self.tiles.pop_lru();
        }
    }

    /// Takes all pairs out. Takes no memory; costs time in proportion to their number.
    pub fn clear(&mut self)
        requires { IsHandCache self.old.tiles.entries self.old.tiles.cap }
        ensures entries { self.new.tiles.entries ≡ [] }
        ensures over { IsHandCache self.new.tiles.entries self.new.tiles.cap }
        ensures capacity { self.new.capacity ≡ self.old.capacity }
    {
        self.tiles.clear();
    }

    /// Returns the tile of a pair, and moves the pair to the front; None where it isn't there.
    fn find(&mut self, key: PairKey) -> Result<Option<Tile>, SwapRefused>
        requires { IsHandCache self.old.tiles.entries self.old.tiles.cap }
        ensures found { IfOk result (λ found. found ≡ lookup (same_key key) self.old.tiles.entries) }
        ensures entries { OnOk result (self.new.tiles.entries ≡ promoted (same_key key) self.old.tiles.entries) }
        ensures unchanged { OnErr result (self.new.tiles ≡ self.old.tiles) }
        ensures cause { IfErr result (λ refused. refused ≡ refusals.NoMemory) }
        ensures over { IsHandCache self.new.tiles.entries self.new.tiles.cap }
    {
        let Some(tile) = self.tiles.peek(&key) else {
            return Ok(None);
        };
        let shared = tile.share(self.alloc)?;
        self.tiles.promote(&key);
        self.tiles.len();
        Ok(Some(shared))
    }

    /// Puts a pair that isn't there at the front, with its tile.
    fn put(&mut self, key: PairKey, tile: Tile) -> Result<(), SwapRefused>
        requires over { IsHandCache self.old.tiles.entries self.old.tiles.cap }
        requires absent { lookup (same_key key) self.old.tiles.entries ≡ None }
        ensures entries { OnOk result (self.new.tiles.entries ≡ (key, tile) ∷ self.old.tiles.entries) }
        ensures unchanged { OnErr result (self.new.tiles ≡ self.old.tiles) }
        ensures cause { IfErr result (λ refused. refused ≡ refusals.NoMemory) }
        ensures over { IsHandCache self.new.tiles.entries self.new.tiles.cap }
    {
        self.tiles.len();
        self.tiles.put(key, tile)?;
        self.tiles.len();
        Ok(())
    }

    /// Takes a pair out, where it is there.
    fn drop_pair(&mut self, key: PairKey)
        requires { IsHandCache self.old.tiles.entries self.old.tiles.cap }
        ensures entries { self.new.tiles.entries ≡ remove_entry (same_key key) self.old.tiles.entries }
        ensures over { IsHandCache self.new.tiles.entries self.new.tiles.cap }
    {
        self.tiles.pop(&key);
        self.tiles.len();
    }

    /// Takes the last pair out where a void of a node's tiles that meet a rectangle does, and else moves it
    /// to the front.
    fn turn_last(&mut self, node: Name, rect: &Rect)
        requires { IsHandCache self.old.tiles.entries self.old.tiles.cap }
        ensures entries { (rest : HandEntries) (e : HandEntry) → self.old.tiles.entries ≡ rest ++ e ∷ [] →
            self.new.tiles.entries ≡ entries_left node rect.now (e ∷ []) ++ rest }
        ensures over { IsHandCache self.new.tiles.entries self.new.tiles.cap }
    {
        let Some((key, _tile)) = self.tiles.peek_lru() else {
            return;
        };
        let last = *key;
        if last.is_voided(node, rect) {
            self.drop_pair(last);
            return;
        }
        self.tiles.promote(&last);
        self.tiles.len();
    }

    /// Takes the pairs of a node out whose tiles meet a rectangle; the others keep their order. It goes
    /// over the tiles of the rectangle or over the list, whichever are fewer.
    fn take_out(&mut self, node: Name, rect: &Rect)
        requires { IsHandCache self.old.tiles.entries self.old.tiles.cap }
        ensures entries { self.new.tiles.entries ≡ entries_left node rect.now self.old.tiles.entries }
        ensures over { IsHandCache self.new.tiles.entries self.new.tiles.cap }
    {
        let count = self.tiles.len();
        if tile_count(rect) < count {
            for at in rect.tiles() {
                self.drop_pair(PairKey { node, at });
            }
            return;
        }
        for _turn in 0..count {
            self.turn_last(node, rect);
        }
    }
}

impl PairStore<()> for HandCache {
    ghost pairs = { λ cache. pairs_in cache.tiles.entries };

    ghost sizes = { λ cache _. map hand_size cache.tiles.entries };

    ghost cached = { λ cache _. Some (map hand_bytes cache.tiles.entries) };

    ghost capacity = { λ _. None };

    ghost names = { λ _. [] };

    ghost is_over = { λ cache _. IsHandCache cache.tiles.entries cache.tiles.cap };

    fn look(
        &mut self,
        _chain: &mut (),
        node: Name,
        at: TileAt,
        _len: u32,
    ) -> Result<Option<Tile>, SwapRefused> {
        self.find(PairKey { node, at })
    }

    fn keep(
        &mut self,
        _chain: &mut (),
        node: Name,
        at: TileAt,
        tile: Tile,
    ) -> Result<(), SwapRefused> {
        self.put(PairKey { node, at }, tile)
    }

    fn void(&mut self, _chain: &mut (), node: Name, rect: Rect) {
        self.take_out(node, &rect);
    }

    fn has(&self, node: Name, at: TileAt) -> bool {
        self.tiles.contains(&PairKey { node, at })
    }

    fn order(&self) -> Result<Vec<(Name, TileAt)>, NoMemory> {
        order_of(self.alloc, &self.tiles)
    }

    fn bound(&self) -> Option<u32> {
        None
    }

    ghost framed = { λ cache. hand_framed (Some (map hand_bytes cache.tiles.entries)) };

    ghost framed_sizes = { λ cache. hand_framed (map hand_size cache.tiles.entries) };

    ghost framed_condition = { λ cache.
        hand_framed_condition (IsHandCache cache.tiles.entries cache.tiles.cap) };

    ghost owned = { λ cache held over. hand_owned held };

    ghost exposed = { λ cache held over. hand_exposed cache.tiles.entries held };

    ghost distinct = { λ cache held over. pairs_distinct cache.tiles.entries over.distinct };

    ghost within = { λ cache held over. hand_within (pairs_in cache.tiles.entries) };

    ghost few_names = { λ cache. hand_few_names (pairs_in cache.tiles.entries) };
}
