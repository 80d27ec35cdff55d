//! Expected values are worked out by hand from the doc comments, or in plain lists of bytes.

use crate::comparisons::{compare_duplicates, compare_levels, compare_moves};
use crate::examples::{fill_again, freeze_parts, read_levels, write_to_duplicates, write_to_parts};
use crate::refusals::{add_too_many, write_refused};
use outside_io::{MemSwap, SureSwap, SwapDisk};
use std::alloc::Global;
use std::process::Abort;
use std::thread::Threads;
use tile_chain::{Chain, TileChain};

/// Calls on buffers.
#[derive(Clone, Copy)]
enum Calls {
    /// Duplicates and parts are written to.
    Write,
    /// A fill that the disk refuses is made again.
    Fill,
    /// The first cause is reported.
    Refuse,
    /// Levels are read, and parts frozen.
    Read,
    /// Buffers are compared with plain lists of bytes.
    Compare,
}

/// Makes calls over a chain.
fn make<C: TileChain>(
    rt: &(impl Abort + Threads + Sync),
    chain: &mut C,
    alloc: Global,
    calls: Calls,
) {
    match calls {
        Calls::Write => {
            write_to_duplicates(rt, chain, alloc);
            write_to_parts(rt, chain, alloc);
        }
        Calls::Fill => fill_again(rt, chain, alloc),
        Calls::Refuse => write_refused(rt, chain, alloc),
        Calls::Read => {
            read_levels(rt, chain, alloc);
            freeze_parts(rt, chain, alloc);
        }
        Calls::Compare => {
            compare_levels(rt, chain, alloc);
            compare_duplicates(rt, chain, alloc);
            compare_moves(rt, chain, alloc);
        }
    }
}

/// Makes calls over a chain of so many blocks and tiles in memory.
fn make_over<D: SwapDisk>(
    rt: &(impl Abort + Threads + Sync),
    alloc: Global,
    disk: &mut D,
    calls: Calls,
    blocks: u32,
    resident: u32,
) {
    assert!(rt; resident >= 1);
    let mut chain = Chain::new(alloc, disk, blocks, resident).expect(rt, "memory");
    make(rt, &mut chain, alloc, calls);
}

#[test]
fn buffers_show_what_is_written_to_their_roots(rt: HostRuntime) {
    let alloc = rt.alloc();
    for calls in [Calls::Write, Calls::Read, Calls::Refuse] {
        let mut disk = SureSwap::new(alloc, 16).expect(&rt, "memory");
        make_over(&rt, alloc, &mut disk, calls, 16, 1);
    }
    add_too_many(&rt, alloc);
}

#[test]
fn a_fill_that_the_disk_refuses_is_made_again(rt: HostRuntime) {
    let alloc = rt.alloc();
    let writes = vec![in alloc; 1].expect(&rt, "memory");
    let mut disk = MemSwap::new(alloc, 16, Vec::new(alloc), writes).expect(&rt, "memory");
    make_over(&rt, alloc, &mut disk, Calls::Fill, 16, 1);
}

#[test]
fn buffers_are_as_plain_lists(rt: HostRuntime) {
    let mut disk = SureSwap::new(rt.alloc(), 512).expect(&rt, "memory");
    make_over(&rt, rt.alloc(), &mut disk, Calls::Compare, 512, 2);
}
