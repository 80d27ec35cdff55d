//! The handler that keeps tiles in memory. `len` is also called for its clause alone, that no name is there twice.

ghost use Rattle.std.specs.Prelude.{◌≡◌, ◌⊎◌, ℕ, ◌≤◌, ◌<◌, ◌-◌, [], Some, None, IfErr, IfOk, IsNone, OnErr, OnOk, length, nat_eq};
ghost use Rattle.std.specs.FinMap as map;
ghost use Rattle.std.specs.List.{IsDistinct};
ghost use Rattle.std.specs.Map.{keys_of, lookup};
ghost use Rattle.std.specs.NonZero.{non_zero_usize_get};
ghost use Rattle.tile_cow.specs.Tile.{IsTileLength};
ghost use Rattle.chain_owners.specs.Held.{length_of, with_tile, without_tile};
ghost use Rattle.chain_owners.specs.Counts.{Continues};
ghost use Rattle.chain_owners.specs.Cause.{HasSwapCause};
ghost use Rattle.chain_contracts.specs.Tiles.{OnFull, Reads, ReportsPut, emptied};
ghost use Rattle.tile_chain.specs.CacheCalls.{CannotMove, MovesTiles};
ghost use Rattle.tile_chain.specs.Overlay.{IsCache, IsCrowded, cache_counts, cache_has_counts, cache_is_chain, overlay, overlay_has_same_names};

use crate::below::{forget_below, forget_where_there, put_where_missing};
use alloc_basics::NoMemory;
use chain_contracts::TileHandler;
use chain_owners::{ChainMeaning, SwapRefused};
use lru::LruCache;
use std::alloc::Global;
use std::num::NonZeroUsize;
use tile_cow::Tile;

/// Keeps tiles in memory, and the others below. A tile that has to leave is below before it does. One
/// that was brought in from below stays there as well until it is replaced, so it leaves without a write.
#[derive(Drop)]
pub struct CacheHandler<H: TileHandler + Drop> {
    tiles: LruCache<u64, Tile>,
    below: H,
    alloc: Global,
    ghost cached: { IsCache tiles.entries tiles.cap (H.held below) },
}

impl<H: TileHandler + Drop> ChainMeaning for CacheHandler<H> {
    ghost held = { λ cache. overlay cache.tiles.entries (H.held cache.below) };

    ghost counts = { λ cache.
        cache_counts cache.tiles.entries cache.tiles.cap (H.held cache.below) (H.counts cache.below) };

    ghost store = { λ cache. H.store cache.below };

    ghost resident = { λ cache. length cache.tiles.entries };

    ghost loans = { λ cache. H.loans cache.below };

    ghost is_valid = { λ cache. H.is_valid cache.below };

    ghost same_names = { λ cache.
        overlay_has_same_names cache.tiles.entries (H.held cache.below) (H.same_names cache.below) };

    ghost same_counts = { λ cache. cache_has_counts cache.tiles.entries cache.tiles.cap
        (H.held cache.below) (H.counts cache.below) (H.store cache.below) (H.same_counts cache.below) };

    ghost chain_laws = { λ cache valid. cache_is_chain cache.tiles.entries cache.tiles.cap
        (H.held cache.below) (H.counts cache.below) (H.store cache.below) (H.resident cache.below)
        (H.chain_laws cache.below valid) cache.cached };
}

impl<H: TileHandler + Drop> CacheHandler<H> {
    /// Returns a handler of the tiles below, which keeps at most `capacity` of them in memory. `NoMemory` if it runs out.
    pub fn new(alloc: Global, below: H, capacity: u32) -> Result<CacheHandler<H>, NoMemory>
        requires { 1 ≤ capacity }
        ensures below { IfOk result (λ cache. cache.below ≡ below) }
        ensures empty { IfOk result (λ cache. cache.tiles.entries ≡ []) }
        ensures capacity { IfOk result (λ cache. cache.tiles.cap ≡ capacity) }
    {
        let capacity = NonZeroUsize::new(capacity as usize).unwrap();
        let tiles = LruCache::sparse(alloc, capacity)?;
        Ok(CacheHandler::over(alloc, tiles, below))
    }

    /// Returns a handler of the tiles below, for which the memory was taken before.
    pub(crate) fn over(alloc: Global, tiles: LruCache<u64, Tile>, below: H) -> CacheHandler<H>
        requires { tiles.entries ≡ [] }
        ensures below { result.below ≡ below }
        ensures tiles { result.tiles ≡ tiles }
    {
        CacheHandler {
            tiles,
            below,
            alloc,
        }
    }

    /// Evicts the tile that was used the longest time ago: puts it below, unless it is there, and takes it out of
    /// memory.
    fn evict_once(&mut self) -> Result<(), SwapRefused>
        ensures moves { MovesTiles H.ChainMeaning self.old.tiles self.new.tiles self.old.below self.new.below }
        ensures refused { IfErr result (CannotMove H.ChainMeaning self.old.tiles self.old.below self.new.below) }
        ensures moved { OnOk result (length self.new.tiles.entries ≡ length self.old.tiles.entries - 1) }
        ensures unmoved { OnErr result (self.new.tiles ≡ self.old.tiles) }
        ensures fewer { (k : ℕ) → lookup (nat_eq k) self.old.tiles.entries ≡ None
            → lookup (nat_eq k) self.new.tiles.entries ≡ None }
    {
        let Some((name, tile)) = self.tiles.peek_lru() else {
            return Ok(());
        };
        self.tiles.len();
        put_where_missing(&mut self.below, *name, tile)?;
        self.tiles.pop_lru();
        Ok(())
    }

    /// Forgets below the names of all tiles in memory. It looks at each of them.
    fn forget_below(&mut self)
        ensures moves { MovesTiles H.ChainMeaning self.old.tiles self.new.tiles self.old.below self.new.below }
        ensures tiles { self.new.tiles ≡ self.old.tiles }
    {
        forget_below(&mut self.below, &self.tiles);
    }

    /// Evicts the tile that was used the longest time ago: puts it below, unless it is there, and takes it out of
    /// memory. Where there is no room below, the names of all tiles in memory are first forgotten there.
    fn evict(&mut self) -> Result<(), SwapRefused>
        ensures moves { MovesTiles H.ChainMeaning self.old.tiles self.new.tiles self.old.below self.new.below }
        ensures refused { IfErr result (CannotMove H.ChainMeaning self.old.tiles self.old.below self.new.below) }
        ensures moved { OnOk result (length self.new.tiles.entries ≡ length self.old.tiles.entries - 1) }
        ensures unmoved { OnErr result (self.new.tiles ≡ self.old.tiles) }
        ensures fewer { (k : ℕ) → lookup (nat_eq k) self.old.tiles.entries ≡ None
            → lookup (nat_eq k) self.new.tiles.entries ≡ None }
    {
        match self.evict_once() {
            Err(SwapRefused::SwapFull { .. }) => {
                self.forget_below();
                self.evict_once()
            }
            answer => answer,
        }
    }

    /// Makes room for one tile more in memory.
    fn make_room(&mut self) -> Result<(), SwapRefused>
        ensures moves { MovesTiles H.ChainMeaning self.old.tiles self.new.tiles self.old.below self.new.below }
        ensures refused { IfErr result (CannotMove H.ChainMeaning self.old.tiles self.old.below self.new.below) }
        ensures room { OnOk result (length self.new.tiles.entries < self.new.tiles.cap) }
        ensures unmoved { OnErr result (self.new.tiles ≡ self.old.tiles) }
        ensures crowded { OnErr result (length self.old.tiles.entries ≡ self.old.tiles.cap) }
        ensures apart { IsDistinct nat_eq (keys_of self.old.tiles.entries) }
        ensures fewer { (k : ℕ) → lookup (nat_eq k) self.old.tiles.entries ≡ None
            → lookup (nat_eq k) self.new.tiles.entries ≡ None }
    {
        if self.tiles.len() < self.tiles.cap().get() {
            return Ok(());
        }
        self.evict()
    }

    /// Keeps a tile in memory under a name, for which there is room, and nowhere else.
    fn insert(&mut self, name: u64, tile: &Tile) -> Result<(), NoMemory>
        requires { lookup (nat_eq name) self.old.tiles.entries ≡ None
            → length self.old.tiles.entries < self.old.tiles.cap }
        ensures held { OnOk result (overlay self.new.tiles.entries (H.held self.new.below)
            ≡ with_tile (overlay self.old.tiles.entries (H.held self.old.below)) name tile.now) }
        ensures tiles { OnErr result (self.new.tiles ≡ self.old.tiles) }
        ensures below { OnErr result (self.new.below ≡ self.old.below) }
        ensures capacity { self.new.tiles.cap ≡ self.old.tiles.cap }
        ensures continues { Continues (H.counts self.old.below) (H.counts self.new.below) }
        ensures loans { H.loans self.new.below ≡ H.loans self.old.below }
        ensures valid { H.is_valid self.old.below → H.is_valid self.new.below }
    {
        let shared = tile.share(self.alloc)?;
        self.tiles.put(name, shared)?;
        forget_where_there(&mut self.below, name);
        Ok(())
    }

    /// Keeps a tile in memory that is below, and stays there. There is room for it.
    fn bring_in(&mut self, name: u64, tile: &Tile) -> Result<(), NoMemory>
        requires room { lookup (nat_eq name) self.old.tiles.entries ≡ None
            → length self.old.tiles.entries < self.old.tiles.cap }
        requires known { with_tile (overlay self.old.tiles.entries (H.held self.old.below)) name tile.now
            ≡ overlay self.old.tiles.entries (H.held self.old.below) }
        ensures held { overlay self.new.tiles.entries (H.held self.new.below)
            ≡ overlay self.old.tiles.entries (H.held self.old.below) }
        ensures below { self.new.below ≡ self.old.below }
        ensures capacity { self.new.tiles.cap ≡ self.old.tiles.cap }
    {
        let shared = tile.share(self.alloc)?;
        self.tiles.put(name, shared)?;
        Ok(())
    }

    /// Returns the tile of a name that is in memory, and makes it the one that was used last.
    fn find(&mut self, name: u64) -> Result<Option<Tile>, NoMemory>
        ensures found { IfOk result (λ found. found ≡ lookup (nat_eq name) self.old.tiles.entries) }
        ensures absent { lookup (nat_eq name) self.old.tiles.entries ≡ None → self.new.tiles ≡ self.old.tiles }
        ensures held { overlay self.new.tiles.entries (H.held self.new.below)
            ≡ overlay self.old.tiles.entries (H.held self.old.below) }
        ensures below { self.new.below ≡ self.old.below }
        ensures capacity { self.new.tiles.cap ≡ self.old.tiles.cap }
    {
        let Some(tile) = self.tiles.peek(&name) else {
            return Ok(None);
        };
        let shared = tile.share(self.alloc)?;
        self.tiles.promote(&name);
        Ok(Some(shared))
    }

    /// Makes room in memory for a name, where it isn't there yet.
    fn make_room_for(&mut self, name: u64) -> Result<(), SwapRefused>
        ensures moves { MovesTiles H.ChainMeaning self.old.tiles self.new.tiles self.old.below self.new.below }
        ensures refused { IfErr result (CannotMove H.ChainMeaning self.old.tiles self.old.below self.new.below) }
        ensures room { OnOk result (lookup (nat_eq name) self.new.tiles.entries ≡ None
            → length self.new.tiles.entries < self.new.tiles.cap) }
        ensures crowded { OnErr result (length self.new.tiles.entries ≡ self.new.tiles.cap) }
        ensures absent { OnErr result (lookup (nat_eq name) self.new.tiles.entries ≡ None) }
        ensures apart { OnErr result (IsDistinct nat_eq (keys_of self.new.tiles.entries)) }
        ensures fewer { lookup (nat_eq name) self.old.tiles.entries ≡ None
            → lookup (nat_eq name) self.new.tiles.entries ≡ None }
    {
        if self.tiles.contains(&name) {
            return Ok(());
        }
        self.make_room()?;
        Ok(())
    }

    /// Takes a name out, in memory and below.
    fn remove(&mut self, name: u64)
        ensures held { overlay self.new.tiles.entries (H.held self.new.below)
            ≡ without_tile (overlay self.old.tiles.entries (H.held self.old.below)) name }
        ensures capacity { self.new.tiles.cap ≡ self.old.tiles.cap }
        ensures continues { Continues (H.counts self.old.below) (H.counts self.new.below) }
        ensures loans { H.loans self.new.below ≡ H.loans self.old.below }
        ensures valid { H.is_valid self.old.below → H.is_valid self.new.below }
    {
        self.tiles.len();
        self.tiles.pop(&name);
        forget_where_there(&mut self.below, name);
    }

    /// Keeps a tile in memory under a name, for which it makes room.
    fn keep(&mut self, name: u64, tile: &Tile) -> Result<(), SwapRefused>
        ensures put { OnOk result (overlay self.new.tiles.entries (H.held self.new.below)
            ≡ with_tile (overlay self.old.tiles.entries (H.held self.old.below)) name tile.now) }
        ensures unchanged { OnErr result (overlay self.new.tiles.entries (H.held self.new.below)
            ≡ overlay self.old.tiles.entries (H.held self.old.below)) }
        ensures capacity { self.new.tiles.cap ≡ self.old.tiles.cap }
        ensures cause { IfErr result (HasSwapCause (emptied (H.counts self.old.below)) (H.counts self.new.below)
            (map.len (with_tile (overlay self.old.tiles.entries (H.held self.old.below)) name tile.now).lengths)) }
        ensures full { H.is_valid self.old.below → IfErr result
            (ReportsPut (overlay self.old.tiles.entries (H.held self.old.below)) tile.now (H.store self.new.below)) }
        ensures resident { IfErr result (OnFull (IsCrowded (length self.new.tiles.entries) self.new.tiles.cap
            (map.len (with_tile (overlay self.old.tiles.entries (H.held self.old.below)) name tile.now).lengths))) }
        ensures continues { Continues (H.counts self.old.below) (H.counts self.new.below) }
        ensures loans { H.loans self.new.below ≡ H.loans self.old.below }
        ensures valid { H.is_valid self.old.below → H.is_valid self.new.below }
    {
        self.make_room_for(name)?;
        self.insert(name, tile)?;
        Ok(())
    }

    /// Reads a tile from below that isn't in memory, for which it makes room there. It stays below.
    fn fetch(&mut self, name: u64, len: u32) -> Result<Tile, SwapRefused>
        requires size { IsTileLength len }
        requires known { length_of (overlay self.old.tiles.entries (H.held self.old.below)) name ≡ Some len }
        requires absent { lookup (nat_eq name) self.old.tiles.entries ≡ None }
        ensures read { IfOk result (Reads (overlay self.old.tiles.entries (H.held self.old.below)) name len) }
        ensures moves { MovesTiles H.ChainMeaning self.old.tiles self.new.tiles self.old.below self.new.below }
        ensures refused { IfErr result (CannotMove H.ChainMeaning self.old.tiles self.old.below self.new.below) }
        ensures resident { IfErr result (OnFull (IsCrowded (length self.new.tiles.entries) self.new.tiles.cap
            (map.len (overlay self.old.tiles.entries (H.held self.old.below)).lengths)
            ⊎ H.full_at_get self.new.below (H.counts self.new.below).names)) }
    {
        let tile = self.below.get(name, len)?;
        self.make_room()?;
        self.bring_in(name, &tile)?;
        Ok(tile)
    }

    /// Puts all tiles below that are in memory, and takes them out of it.
    fn evict_all(&mut self) -> Result<(), SwapRefused>
        ensures moves { MovesTiles H.ChainMeaning self.old.tiles self.new.tiles self.old.below self.new.below }
        ensures refused { IfErr result (CannotMove H.ChainMeaning self.old.tiles self.old.below self.new.below) }
        ensures empty { OnOk result (self.new.tiles.entries ≡ []) }
    {
        while !self.tiles.is_empty() {
            self.evict()?;
        }
        Ok(())
    }

    /// Gives the handler below back, with every tile that it has; those in memory are lost.
    pub fn into_below(self) -> H
        ensures { result ≡ self.below }
    {
        let CacheHandler {
            tiles: _,
            below,
            alloc: _,
        } = self;
        below
    }
}

impl<H: TileHandler + Drop> TileHandler for CacheHandler<H> {
    ghost in_swap = { λ cache. H.in_swap cache.below };

    ghost full_at_get = { λ cache names. IsCrowded (length cache.tiles.entries) cache.tiles.cap names
        ⊎ H.full_at_get cache.below (H.counts cache.below).names };

    ghost full_at_put = { λ cache names. IsCrowded (length cache.tiles.entries) cache.tiles.cap names };

    fn has(&self, name: u64) -> bool {
        self.tiles.contains(&name) || self.below.has(name)
    }

    fn get(&mut self, name: u64, len: u32) -> Result<Tile, SwapRefused> {
        if let Some(tile) = self.find(name)? {
            return Ok(tile);
        }
        self.fetch(name, len)
    }

    fn put(&mut self, name: u64, tile: &Tile) -> Result<(), SwapRefused> {
        self.keep(name, tile)
    }

    fn forget(&mut self, name: u64) {
        self.remove(name);
    }

    fn flush(&mut self) -> Result<(), SwapRefused> {
        self.evict_all()?;
        self.below.flush()
    }
}
