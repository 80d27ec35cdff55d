//! Caches of nodes' tiles, over chains and in memory, by calls. The expected lists were worked out by hand.

mod calls;
mod examples;
mod steps;

use calls::{check_order, hand_cache, node_cache};
use chain_owners::ChainMeaning;
use examples::{FAULTS, FOUR_OF_ONE, LOOKS, THREE_OF_TWO, TWO_KEPT, UNTIL_FULL, VOIDS};
use node_cache::PairStore;
use outside_io::{MemSwap, SwapDisk};
use std::alloc::Global;
use std::process::Abort;
use steps::{Step, make};
use tile_chain::Chain;

/// Returns how many pairs a keep leaves at most.
fn bound_of<H: ChainMeaning, C: PairStore<H>>(cache: &C, _chain: &H) -> Option<u32> {
    cache.bound()
}

/// Makes steps over a chain of so many blocks, of whose tiles one is in memory, on a cache of at most so many pairs, which
/// is its bound.
fn make_over<D: SwapDisk>(
    rt: &impl Abort,
    alloc: Global,
    disk: &mut D,
    (blocks, pairs): (u32, u32),
    steps: &[Step],
) {
    assert!(rt; pairs >= 1);
    let mut chain = Chain::new(alloc, disk, blocks, 1).expect(rt, "memory");
    let mut cache = node_cache(&chain, alloc, pairs).expect(rt, "memory");
    assert!(rt; bound_of(&cache, &chain) == Some(pairs));
    make(rt, &mut cache, &mut chain, alloc, steps);
}

/// Examples with the blocks of a chain, how many pairs are kept, and the number of the disk's read and write that fail,
/// counted from 1; at 0 none fails.
const OVER_CHAINS: [(&[Step], (u32, u32), u64); 6] = [
    (&THREE_OF_TWO, (16, 2), 0),
    (&LOOKS, (16, 6), 0),
    (&VOIDS, (16, 6), 0),
    (&FOUR_OF_ONE, (1, 1), 0),
    (&UNTIL_FULL, (1, 9), 0),
    (&FAULTS, (16, 2), 1),
];

#[test]
fn pairs_over_a_chain(rt: HostRuntime) {
    let alloc = rt.alloc();
    for (steps, sizes, failing) in &OVER_CHAINS {
        let fails = vec![in alloc; *failing].expect(&rt, "memory");
        let reads = fails.to_vec(alloc).expect(&rt, "memory");
        let mut disk = MemSwap::new(alloc, 16, reads, fails).expect(&rt, "memory");
        make_over(&rt, alloc, &mut disk, *sizes, steps);
    }
}

/// Examples in memory, where no pair falls off.
const IN_MEMORY: [&[Step]; 2] = [&LOOKS, &VOIDS];

#[test]
fn pairs_in_memory(rt: HostRuntime) {
    for steps in &IN_MEMORY {
        let mut cache = hand_cache(rt.alloc(), 1).expect(&rt, "memory");
        assert!(rt; bound_of(&cache, &()).is_none());
        make(&rt, &mut cache, &mut (), rt.alloc(), steps);
    }
}

#[test]
fn a_cache_in_memory_is_cut_by_its_trim(rt: HostRuntime) {
    let mut cache = hand_cache(rt.alloc(), 1).expect(&rt, "memory");
    make(&rt, &mut cache, &mut (), rt.alloc(), &TWO_KEPT);
    cache.trim();
    check_order(&rt, 0, &cache, &(), rt.alloc(), &[("n", 1, 0)]);
}

#[test]
fn a_cleared_cache_takes_pairs_again(rt: HostRuntime) {
    let mut cache = hand_cache(rt.alloc(), 1).expect(&rt, "memory");
    make(&rt, &mut cache, &mut (), rt.alloc(), &TWO_KEPT);
    cache.clear();
    check_order(&rt, 0, &cache, &(), rt.alloc(), &[]);
    make(&rt, &mut cache, &mut (), rt.alloc(), &TWO_KEPT);
    cache.trim();
    check_order(&rt, 0, &cache, &(), rt.alloc(), &[("n", 1, 0)]);
}
