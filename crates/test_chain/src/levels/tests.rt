//! Expected values are worked out by hand from the doc comments.

use crate::levels::examples::{add_in_vain, put_again, put_three, share_one, switch_three};
use outside_io::{MemSwap, SureSwap, SwapDisk};
use std::alloc::Global;
use std::process::Abort;
use tile_chain::Chain;

/// Makes the examples of whole disks over a chain of one tile in memory.
fn put_over<D: SwapDisk>(rt: &impl Abort, alloc: Global, disk: &mut D) {
    let mut chain = Chain::new(alloc, disk, 32, 1).expect(rt, "memory");
    put_again(rt, &mut chain, alloc);
    share_one(rt, &mut chain, alloc);
    put_three(rt, &mut chain, alloc);
    switch_three(rt, &mut chain, alloc);
}

#[test]
fn tables_have_the_tiles_that_were_put(rt: HostRuntime) {
    let mut disk = SureSwap::new(rt.alloc(), 32).expect(&rt, "memory");
    put_over(&rt, rt.alloc(), &mut disk);
}

/// Adds in vain over a chain of one tile in memory.
fn add_over<D: SwapDisk>(rt: &impl Abort, alloc: Global, disk: &mut D) {
    let mut chain = Chain::new(alloc, disk, 4, 1).expect(rt, "memory");
    add_in_vain(rt, &mut chain, alloc);
}

#[test]
fn a_refused_tile_changes_no_table(rt: HostRuntime) {
    let alloc = rt.alloc();
    let writes = vec![in alloc; 1].expect(&rt, "memory");
    let mut disk = MemSwap::new(alloc, 4, Vec::new(alloc), writes).expect(&rt, "memory");
    add_over(&rt, alloc, &mut disk);
}
