//! Calls that are made on a store and on a naive one.

use crate::check::check;
use crate::stores::naive::NaiveStore;
use chain_owners::SwapRefused;
use outside_io::SwapDisk;
use std::alloc::Global;
use std::process::Abort;
use swap_store::{Store, SwapStore};
use tile_cow::Tile;

/// Returns a tile of so many bytes, which differ by their positions and by `seed`.
pub fn tile_of(rt: &impl Abort, alloc: Global, len: u64, seed: u64) -> Tile {
    let mut bytes = Vec::new(alloc);
    for place in 0..len {
        let byte = place
            .wrapping_mul(7)
            .wrapping_add(place / 4096)
            .wrapping_add(seed)
            % 251;
        bytes.push(byte as u8).expect(rt, "memory");
    }
    assert!(rt; !bytes.is_empty() && bytes.len() <= 65_536);
    Tile::of(alloc, &bytes).expect(rt, "memory")
}

/// Puts a tile under a name that isn't there.
pub fn put<D: SwapDisk>(
    rt: &impl Abort,
    store: &mut Store<D>,
    name: u64,
    tile: &Tile,
) -> Result<(), SwapRefused> {
    assert!(rt; !store.has(name), "{name} is there");
    store.put(name, tile)
}

/// Replaces the tile of a name that is there.
pub fn replace<D: SwapDisk>(
    rt: &impl Abort,
    store: &mut Store<D>,
    name: u64,
    tile: &Tile,
) -> Result<(), SwapRefused> {
    assert!(rt; store.has(name), "{name} isn't there");
    store.replace(name, tile)
}

/// Returns the tile of a name that is there.
pub fn get<D: SwapDisk>(
    rt: &impl Abort,
    store: &mut Store<D>,
    name: u64,
) -> Result<Tile, SwapRefused> {
    let len = store.len_of(name).expect(rt, "the name is there");
    store.get(name, len)
}

/// Forgets a name that is there.
pub fn forget<D: SwapDisk>(rt: &impl Abort, store: &mut Store<D>, name: u64) {
    assert!(rt; store.has(name), "{name} isn't there");
    store.forget(name);
}

/// Returns the next number of a fixed sequence without order.
fn next(random: u64) -> u64 {
    random
        .wrapping_mul(6_364_136_223_846_793_005)
        .wrapping_add(1_442_695_040_888_963_407)
}

/// Checks that the store has the naive one's free runs.
fn check_free<D: SwapDisk>(rt: &impl Abort, alloc: Global, store: &Store<D>, naive: &NaiveStore) {
    let runs = naive.free_runs(rt, alloc);
    check(rt, "free", store.free_runs(), runs.as_slice());
}

/// Checks that the store has the naive one's free runs, and the bytes of each of its names.
fn compare<D: SwapDisk>(
    rt: &impl Abort,
    alloc: Global,
    store: &mut Store<D>,
    naive: &NaiveStore,
) -> u32 {
    check_free(rt, alloc, store, naive);
    let mut faults = 0u32;
    for entry in &naive.entries {
        faults = faults.saturating_add(compare_bytes(rt, store, entry.0, &entry.1));
    }
    faults
}

/// Checks that a name has these bytes. The one read that fails is made again.
fn compare_bytes<D: SwapDisk>(
    rt: &impl Abort,
    store: &mut Store<D>,
    name: u64,
    bytes: &[u8],
) -> u32 {
    match get(rt, store, name) {
        Ok(tile) => {
            check(rt, name, tile.bytes(), bytes);
            0
        }
        Err(refused) => {
            check(rt, name, refused, SwapRefused::SwapFault);
            let tile = get(rt, store, name).expect(rt, "only one read fails");
            check(rt, name, tile.bytes(), bytes);
            1
        }
    }
}

/// Puts a tile into both. The one write that fails is made again, after a look at what it left.
fn put_into_both<D: SwapDisk>(
    rt: &impl Abort,
    alloc: Global,
    store: &mut Store<D>,
    naive: &mut NaiveStore,
    name: u64,
    tile: &Tile,
) -> u32 {
    let len = tile.bytes().len();
    let wanted = naive.wanted_answer(rt, alloc, len);
    let mut faults = 0u32;
    let mut answer = put(rt, store, name, tile);
    if answer == Err(SwapRefused::SwapFault) {
        assert!(rt; !store.has(name), "{name} was kept");
        faults = compare(rt, alloc, store, naive).saturating_add(1);
        answer = put(rt, store, name, tile);
    }
    check(rt, name, answer, wanted);
    if wanted.is_ok() {
        naive.put(rt, alloc, name, tile.bytes());
    }
    faults
}

/// Makes the call that a random number chooses on both. Returns how many times it answered an I/O error.
fn make_both<D: SwapDisk>(
    rt: &impl Abort,
    alloc: Global,
    store: &mut Store<D>,
    naive: &mut NaiveStore,
    random: u64,
    seed: u64,
) -> u32 {
    let name = (random >> 33) % 6;
    match naive.bytes(name) {
        None => {
            let tile = tile_of(rt, alloc, 1 + (random >> 40) % 9_000, seed);
            put_into_both(rt, alloc, store, naive, name, &tile)
        }
        Some(_) if random >> 62 == 0 => {
            forget(rt, store, name);
            naive.forget(name);
            0
        }
        Some(bytes) => compare_bytes(rt, store, name, bytes),
    }
}

/// Makes this many calls on a store over the disk, compares it with a naive one after each, and
/// gives the number of calls that answered an I/O error.
pub fn play<D: SwapDisk>(
    rt: &impl Abort,
    alloc: Global,
    disk: &mut D,
    blocks: u32,
    steps: u64,
) -> u32 {
    let mut store = SwapStore::new(alloc, disk, blocks).expect(rt, "memory");
    let mut naive = NaiveStore::new(rt, alloc, blocks as usize);
    let mut faults = 0u32;
    let mut random = next(steps);
    for step in 0..steps {
        random = next(random);
        let more = make_both(rt, alloc, &mut store, &mut naive, random, step);
        faults = faults.saturating_add(more);
        check_free(rt, alloc, &store, &naive);
    }
    faults.saturating_add(compare(rt, alloc, &mut store, &naive))
}
