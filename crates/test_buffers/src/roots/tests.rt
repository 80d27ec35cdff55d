//! Expected values are worked out by hand from the doc comments.

use crate::check::check;
use crate::roots::examples::{BORDERS, LARGE_PARTS, LEVELS, POLICIES, SHARED, VIEWS};
use crate::roots::refused_writes::write_or_refuse;
use crate::roots::steps::{Example, make};
use outside_io::{MemSwap, SureSwap, SwapDisk};
use std::alloc::Global;
use std::process::Abort;
use tile_chain::Chain;

/// Makes examples one after another over a chain of so many blocks, of one tile in memory.
fn make_over<D: SwapDisk>(
    rt: &impl Abort,
    alloc: Global,
    disk: &mut D,
    blocks: u32,
    examples: &[Example],
) {
    let mut chain = Chain::new(alloc, disk, blocks, 1).expect(rt, "memory");
    for example in examples {
        make(rt, &mut chain, alloc, *example);
    }
}

/// Makes examples over a disk of so many blocks.
fn make_on(rt: &impl Abort, alloc: Global, blocks: u32, examples: &[Example]) {
    assert!(rt; blocks <= 1 << 20);
    let mut disk = SureSwap::new(alloc, blocks).expect(rt, "memory");
    make_over(rt, alloc, &mut disk, blocks, examples);
}

#[test]
fn what_is_written_is_read_again(rt: HostRuntime) {
    make_on(&rt, rt.alloc(), 16, &[BORDERS, LARGE_PARTS]);
    make_on(&rt, rt.alloc(), 16, &[SHARED]);
}

#[test]
fn levels_are_means_of_roots_and_of_views(rt: HostRuntime) {
    make_on(&rt, rt.alloc(), 256, &[LEVELS]);
    make_on(&rt, rt.alloc(), 256, &[VIEWS, POLICIES]);
}

/// Writes over a chain of so many blocks and one tile in memory. Returns whether that was refused.
fn refuse_over<D: SwapDisk>(rt: &impl Abort, alloc: Global, disk: &mut D, blocks: u32) -> bool {
    let mut chain = Chain::new(alloc, disk, blocks, 1).expect(rt, "memory");
    write_or_refuse(rt, &mut chain, alloc)
}

/// Does so over a disk of so many blocks.
fn refuse_on(rt: &impl Abort, alloc: Global, blocks: u32) -> bool {
    assert!(rt; blocks <= 1 << 20);
    let mut disk = SureSwap::new(alloc, blocks).expect(rt, "memory");
    refuse_over(rt, alloc, &mut disk, blocks)
}

/// Numbers of blocks of a disk, and whether a write over it is refused.
const SIZES: [(u32, bool); 2] = [(6, true), (16, false)];

#[test]
fn a_write_that_does_not_fit_the_disk_leaves_the_image(rt: HostRuntime) {
    let alloc = rt.alloc();
    for (blocks, is_refused) in &SIZES {
        check(&rt, blocks, refuse_on(&rt, alloc, *blocks), *is_refused);
    }
}

#[test]
fn a_write_that_fails_at_a_later_tile_leaves_the_image(rt: HostRuntime) {
    let alloc = rt.alloc();
    for failing in 5..8 {
        let writes = vec![in alloc; failing].expect(&rt, "memory");
        let mut disk = MemSwap::new(alloc, 16, Vec::new(alloc), writes).expect(&rt, "memory");
        check(&rt, failing, refuse_over(&rt, alloc, &mut disk, 16), true);
    }
}
