//! Expected values are worked out by hand from the doc comments, or are those of a plain list.

mod examples;

ghost use Rattle.std.specs.Prelude.{◌≤◌};

use crate::check::check;
use crate::handlers::put_in_each;
use crate::pages::chain_over;
use crate::play::play;
use crate::steps::{Step, make};
use crate::tests::examples::{BLOCK_GIVEN_UP, BY_TURNS, TWO_NAMES, UNTIL_FULL};
use outside_io::{MemSwap, SureSwap, SwapDisk};
use std::alloc::Global;
use std::process::Abort;
use tile_chain::TileChain;

/// Makes steps on a chain over so many blocks of a disk, of which so many pages are in memory, and reads zeros.
fn make_over<D: SwapDisk>(
    rt: &impl Abort,
    alloc: Global,
    disk: &mut D,
    blocks: u32,
    resident: u32,
    steps: &[Step],
)
    requires { 1 ≤ resident }
{
    let mut chain = chain_over(alloc, disk, blocks, resident).expect(rt, "memory");
    make(rt, &mut chain, alloc, steps);
    let zeros = chain.zero(65_536).expect(rt, "memory");
    check(rt, "zeros", zeros.bytes().len(), 65_536);
    assert!(rt; zeros.bytes().iter().all(|byte| *byte == 0));
    let _disk = chain.end();
}

#[test]
fn names_keep_their_bytes_and_owners(rt: HostRuntime) {
    let mut disk = SureSwap::new(rt.alloc(), 4).expect(&rt, "memory");
    make_over(&rt, rt.alloc(), &mut disk, 4, 1, &TWO_NAMES);
}

#[test]
fn each_handler_answers_as_its_map(rt: HostRuntime) {
    let mut disk = SureSwap::new(rt.alloc(), 4).expect(&rt, "memory");
    put_in_each(&rt, rt.alloc(), &mut disk).expect(&rt, "memory");
}

/// Returns a disk whose read and write of these numbers fail, counted from 1; at 0 none fails.
fn failing_disk(rt: &impl Abort, alloc: Global, blocks: u32, read: u64, write: u64) -> MemSwap {
    let reads = vec![in alloc; read].expect(rt, "memory");
    let writes = vec![in alloc; write].expect(rt, "memory");
    MemSwap::new(alloc, blocks.min(1 << 20), reads, writes).expect(rt, "memory")
}

#[test]
fn a_refused_call_changes_no_name(rt: HostRuntime) {
    let mut disk = failing_disk(&rt, rt.alloc(), 1, 0, 1);
    make_over(&rt, rt.alloc(), &mut disk, 4, 1, &UNTIL_FULL);
}

#[test]
fn an_unchanged_page_is_written_once(rt: HostRuntime) {
    let mut disk = failing_disk(&rt, rt.alloc(), 4, 0, 3);
    make_over(&rt, rt.alloc(), &mut disk, 4, 1, &BY_TURNS);
}

#[test]
fn a_page_in_memory_gives_its_block_up(rt: HostRuntime) {
    let mut disk = SureSwap::new(rt.alloc(), 2).expect(&rt, "memory");
    make_over(&rt, rt.alloc(), &mut disk, 2, 2, &BLOCK_GIVEN_UP);
}

/// Makes so many calls on a chain over a disk, of which one page is in memory, and beside them on a plain
/// list. Returns how many of them were refused once.
fn play_over<D: SwapDisk>(rt: &impl Abort, alloc: Global, disk: &mut D, steps: u64) -> u32 {
    let mut chain = chain_over(alloc, disk, 16, 1).expect(rt, "memory");
    play(rt, &mut chain, alloc, steps)
}

#[test]
fn ten_thousand_calls_with_one_page_in_memory(rt: HostRuntime) {
    let mut disk = SureSwap::new(rt.alloc(), 16).expect(&rt, "memory");
    assert!(rt; play_over(&rt, rt.alloc(), &mut disk, 10_000) == 0);
}

/// Makes sixty calls over a disk whose read and write of these numbers fail. Returns how many were refused once.
fn play_failing(rt: &impl Abort, alloc: Global, read: u64, write: u64) -> u32 {
    let mut disk = failing_disk(rt, alloc, 16, read, write);
    play_over(rt, alloc, &mut disk, 60)
}

#[test]
fn each_read_and_each_write_fails_in_turn(rt: HostRuntime) {
    for failing in 1..15 {
        check(
            &rt,
            ("read", failing),
            play_failing(&rt, rt.alloc(), failing, 0),
            1,
        );
        check(
            &rt,
            ("write", failing),
            play_failing(&rt, rt.alloc(), 0, failing),
            1,
        );
    }
}
