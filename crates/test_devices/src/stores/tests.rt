//! Expected values are worked out by hand, or by a naive store.

use crate::check::check;
use crate::stores::scripts::{forget, get, play, put, replace, tile_of};
use chain_owners::SwapRefused;
use outside_io::{FileSwap, Lent, MemSwap, SureSwap, SwapDisk};
use std::alloc::Global;
use std::process::Abort;
use swap_store::{Run, Store, SwapStore};
use tile_cow::Tile;

/// A kind of call of a disk.
#[derive(Clone, Copy)]
enum Call {
    Read,
    Write,
}

/// Returns a disk of so many blocks whose call of this kind and number fails, counted from 1; at 0 none fails.
fn failing_disk(rt: &impl Abort, alloc: Global, blocks: u32, call: Call, number: u64) -> MemSwap {
    let (read, write) = match call {
        Call::Read => (number, 0),
        Call::Write => (0, number),
    };
    let reads = vec![in alloc; read].expect(rt, "memory");
    let writes = vec![in alloc; write].expect(rt, "memory");
    let blocks = blocks.min(1 << 20);
    MemSwap::new(alloc, blocks, reads, writes).expect(rt, "memory")
}

/// Returns a run of this first block and count.
fn run(first: u32, count: u32) -> Run {
    Run { first, count }
}

/// Returns the refusal of a store that is too full.
fn full(needed: u32, longest: u32) -> Result<(), SwapRefused> {
    Err(SwapRefused::SwapFull { needed, longest })
}

/// Puts a tile of so many bytes under a name that isn't there, and checks the answer and what is free then.
fn check_put<D: SwapDisk>(
    rt: &impl Abort,
    store: &mut Store<D>,
    name: u64,
    tile: &Tile,
    wanted: Result<(), SwapRefused>,
    left: &[Run],
) {
    check(rt, name, put(rt, store, name, tile), wanted);
    check(rt, name, store.free_runs(), left);
}

/// Checks the bytes of a name.
fn check_bytes<D: SwapDisk>(rt: &impl Abort, store: &mut Store<D>, name: u64, wanted: &Tile) {
    let found = get(rt, store, name).expect(rt, "the tile");
    check(rt, name, found.bytes(), wanted.bytes());
}

/// Puts a tile of so many bytes, which differ by their positions and by the name, and checks the answer and what is
/// free then.
fn put_sized<D: SwapDisk>(
    rt: &impl Abort,
    alloc: Global,
    store: &mut Store<D>,
    name: u64,
    len: u64,
    wanted: Result<(), SwapRefused>,
    left: &[Run],
) {
    let tile = tile_of(rt, alloc, len, name);
    check_put(rt, store, name, &tile, wanted, left);
}

/// Puts four tiles into a store of four blocks, of which the first is forgotten before the third.
fn put_four<D: SwapDisk>(rt: &impl Abort, alloc: Global, store: &mut Store<D>) {
    put_sized(rt, alloc, store, 1, 8_192, Ok(()), &[run(2, 2)]);
    put_sized(rt, alloc, store, 2, 4_096, Ok(()), &[run(3, 1)]);
    forget(rt, store, 1);
    let left = [run(0, 2), run(3, 1)];
    put_sized(rt, alloc, store, 3, 12_288, full(3, 2), &left);
    let left = [run(1, 1), run(3, 1)];
    put_sized(rt, alloc, store, 4, 4_096, Ok(()), &left);
    check_bytes(rt, store, 2, &tile_of(rt, alloc, 4_096, 2));
}

#[test]
fn a_name_takes_the_lowest_run_that_is_long_enough(rt: HostRuntime) {
    let alloc = rt.alloc();
    let mut disk = failing_disk(&rt, alloc, 4, Call::Write, 0);
    let mut store = SwapStore::new(alloc, &mut disk, 4).expect(&rt, "memory");
    put_four(&rt, alloc, &mut store);
}

/// Puts a tile into a store of four blocks whose first write fails, and puts it again.
fn put_again<D: SwapDisk>(rt: &impl Abort, alloc: Global, store: &mut Store<D>) {
    let tile = tile_of(rt, alloc, 8_192, 1);
    let failed = Err(SwapRefused::SwapFault);
    check_put(rt, store, 1, &tile, failed, &[run(0, 4)]);
    assert!(rt; !store.has(1));
    check_put(rt, store, 1, &tile, Ok(()), &[run(2, 2)]);
    check_bytes(rt, store, 1, &tile);
}

#[test]
fn a_put_that_failed_leaves_an_empty_store_empty(rt: HostRuntime) {
    let alloc = rt.alloc();
    let mut disk = failing_disk(&rt, alloc, 4, Call::Write, 1);
    let mut store = SwapStore::new(alloc, &mut disk, 4).expect(&rt, "memory");
    put_again(&rt, alloc, &mut store);
}

/// Puts names from 0 on, as many as have room of twelve, and forgets every second.
fn put_and_forget<D: SwapDisk>(rt: &impl Abort, store: &mut Store<D>, tile: &Tile) {
    for name in 0..12 {
        let _ = put(rt, store, name, tile);
    }
    for name in 0..12 {
        if name % 2 == 0 && store.has(name) {
            store.forget(name);
        }
    }
}

/// Fills 12 blocks with names of `each` blocks, forgets every second, and puts a longer one. Checks
/// its answer and what is free then.
fn put_between(
    rt: &impl Abort,
    alloc: Global,
    each: u64,
    longer: u64,
    wanted: Result<(), SwapRefused>,
    left: &[Run],
) {
    let mut disk = SureSwap::new(alloc, 12).expect(rt, "memory");
    let mut store = SwapStore::new(alloc, &mut disk, 12).expect(rt, "memory");
    let tile = tile_of(rt, alloc, each.saturating_mul(4_096), 1);
    put_and_forget(rt, &mut store, &tile);
    let long = tile_of(rt, alloc, longer.saturating_mul(4_096), 2);
    check_put(rt, &mut store, 100, &long, wanted, left);
}

/// Puts a tile of 3 blocks into a store, and replaces it by another of 3 blocks. Checks the answer, the bytes of the
/// name and what is free then.
fn replace_one<D: SwapDisk>(
    rt: &impl Abort,
    alloc: Global,
    store: &mut Store<D>,
    wanted: Result<(), SwapRefused>,
    left: &[Run],
) {
    let old = tile_of(rt, alloc, 9_000, 1);
    let new = tile_of(rt, alloc, 12_000, 2);
    check(rt, "put", put(rt, store, 1, &old), Ok(()));
    check(rt, "replaced", replace(rt, store, 1, &new), wanted);
    check_bytes(rt, store, 1, if wanted.is_ok() { &new } else { &old });
    check(rt, "left", store.free_runs(), left);
}

/// Replaces a tile in a store over so many blocks, where the write of this number fails.
fn replace_once(
    rt: &impl Abort,
    alloc: Global,
    blocks: u32,
    failing: u64,
    wanted: Result<(), SwapRefused>,
    left: &[Run],
) {
    let mut disk = failing_disk(rt, alloc, 8, Call::Write, failing);
    let mut store = SwapStore::new(alloc, &mut disk, blocks).expect(rt, "memory");
    replace_one(rt, alloc, &mut store, wanted, left);
}

#[test]
fn new_bytes_are_written_beside_the_old_ones(rt: HostRuntime) {
    let alloc = rt.alloc();
    let failed = Err(SwapRefused::SwapFault);
    for failing in 4..7 {
        replace_once(&rt, alloc, 8, failing, failed, &[run(3, 5)]);
    }
    replace_once(&rt, alloc, 8, 7, Ok(()), &[run(0, 3), run(6, 2)]);
    replace_once(&rt, alloc, 5, 7, full(3, 2), &[run(3, 2)]);
}

#[test]
fn fragmented_runs(rt: HostRuntime) {
    let alloc = rt.alloc();
    let single = [
        run(0, 1),
        run(2, 1),
        run(4, 1),
        run(6, 1),
        run(8, 1),
        run(10, 1),
    ];
    let double = [run(0, 2), run(4, 2), run(8, 2)];
    put_between(&rt, alloc, 1, 2, full(2, 1), &single);
    put_between(&rt, alloc, 2, 3, full(3, 2), &double);
    put_between(&rt, alloc, 3, 4, full(4, 3), &[run(0, 3), run(6, 3)]);
    put_between(&rt, alloc, 3, 2, Ok(()), &[run(2, 1), run(6, 3)]);
    put_between(&rt, alloc, 5, 6, full(6, 5), &[run(0, 5), run(10, 2)]);
    put_between(&rt, alloc, 7, 8, Ok(()), &[run(8, 4)]);
}

/// Lets each call of a kind fail in turn, until none does, and checks that one is refused each time.
fn fail_each(rt: &impl Abort, alloc: Global, call: Call) {
    for failing in 1..200 {
        let mut disk = failing_disk(rt, alloc, 8, call, failing);
        let faults = play(rt, alloc, &mut disk, 8, 30);
        assert!(rt; faults <= 1, "{faults} where call {failing} fails");
        if faults == 0 {
            assert!(rt; failing > 10, "only {failing} calls were made");
            return;
        }
    }
    assert!(rt; false, "more calls were made than one thinks");
}

#[test]
fn each_write_fails_in_turn(rt: HostRuntime) {
    fail_each(&rt, rt.alloc(), Call::Write);
}

#[test]
fn each_read_fails_in_turn(rt: HostRuntime) {
    fail_each(&rt, rt.alloc(), Call::Read);
}

/// Numbers of blocks, and of calls on a store over them, one after another over one disk.
const PLAYED: [(u32, u64); 3] = [(9, 100), (1, 20), (0, 5)];

#[test]
fn disks_of_other_sizes(rt: HostRuntime) {
    let alloc = rt.alloc();
    let mut disk = SureSwap::new(alloc, 9).expect(&rt, "memory");
    for (blocks, steps) in &PLAYED {
        check(&rt, blocks, play(&rt, alloc, &mut disk, *blocks, *steps), 0);
    }
    // The disk has no more.
    let store = SwapStore::new(alloc, &mut disk, 1_000).expect(&rt, "memory");
    check(&rt, "blocks", store.used_blocks(), 9);
    let Lent { disk: _back } = store.end();
}

#[test]
fn a_disk_in_a_file(rt: HostRuntime) {
    let alloc = rt.alloc();
    let mut file = FileSwap::new(&rt, 10);
    check(&rt, "file", play(&rt, alloc, &mut file, 10, 40), 0);
}
