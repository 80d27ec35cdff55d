//! The memory of a chain, before it has its disk.

ghost use Rattle.std.specs.Prelude.{◌≡◌, ◌≤◌, ◌^◌, [], IfOk};
ghost use Rattle.std.specs.FinMap as map;

use alloc_basics::NoMemory;
use lru::LruCache;
use std::alloc::Global;
use std::num::NonZeroUsize;
use swap_store::StoreMemory;
use tile_cow::Tile;

/// The memory of a chain without names, before it has its disk.
#[derive(Drop)]
pub struct ChainMemory {
    pub(crate) store: StoreMemory,
    pub(crate) tiles: LruCache<u64, Tile>,
    pub(crate) alloc: Global,
    ghost no_names: { map.len store.extents ≡ 0 },
    ghost no_tiles: { tiles.entries ≡ [] },
}

impl ChainMemory {
    /// Returns the memory of a chain over so many blocks, of whose tiles at most `resident` are in memory.
    pub fn new(alloc: Global, blocks: u32, resident: u32) -> Result<ChainMemory, NoMemory>
        requires blocks { blocks ≤ 2 ^ 20 }
        requires resident { 1 ≤ resident }
        ensures blocks { IfOk result (λ memory. memory.store.used ≡ blocks) }
        ensures resident { IfOk result (λ memory. memory.tiles.cap ≡ resident) }
    {
        let store = StoreMemory::new(alloc, blocks)?;
        let resident = NonZeroUsize::new(resident as usize).unwrap();
        let tiles = LruCache::sparse(alloc, resident)?;
        Ok(ChainMemory {
            store,
            tiles,
            alloc,
        })
    }
}
