//! Small examples, whose results are worked out by hand.

use crate::calls::{check, check_level, fill, fill_refused, name, one_buffer, part};
use crate::check::check as check_value;
use buffer_view::BufferRefused;
use pixel_formats::Abyss;
use plane_rect::TileAt;
use std::alloc::Global;
use std::process::Abort;
use std::thread::Threads;
use test_nodes::rect;
use tile_chain::{SwapRefused, TileChain};
use worker_pieces::Workers;

/// Duplicates a buffer, and writes to either one: the other is as it was.
pub fn write_to_duplicates<C: TileChain>(rt: &impl Abort, chain: &mut C, alloc: Global) {
    let mut buffers = one_buffer(rt, chain, alloc, "a", [0, 0, 100, 1]);
    fill(rt, &mut buffers, chain, "a", [0, 0, 2, 1], 7);
    let duplicate = buffers.dup(chain, name(rt, "b"), name(rt, "a"));
    duplicate.expect(rt, "a duplicate");
    fill(rt, &mut buffers, chain, "b", [0, 0, 1, 1], 8);
    check(rt, &mut buffers, chain, ("a", 0), 7);
    check(rt, &mut buffers, chain, ("b", 0), 8);
    fill(rt, &mut buffers, chain, "a", [1, 0, 1, 1], 9);
    check(rt, &mut buffers, chain, ("a", 1), 9);
    check(rt, &mut buffers, chain, ("b", 1), 7);
    buffers.release(chain);
}

/// Makes a part that reaches past its parent, whose own samples alone it shows, puts bytes into the part, and
/// copies a rectangle of it onto itself.
pub fn write_to_parts<C: TileChain>(
    rt: &(impl Abort + Threads + Sync),
    chain: &mut C,
    alloc: Global,
) {
    let mut buffers = one_buffer(rt, chain, alloc, "a", [0, 0, 8, 1]);
    fill(rt, &mut buffers, chain, "a", [0, 0, 8, 1], 5);
    part(rt, &mut buffers, "p", "a", [2, 0, 20, 1]);
    check(rt, &mut buffers, chain, ("p", 1), 0);
    check(rt, &mut buffers, chain, ("p", 7), 5);
    check(rt, &mut buffers, chain, ("p", 8), 0);
    let (extent, workers) = (rect([2, 0, 3, 1]), Workers::new(rt, 2));
    let put = buffers.put_raw(chain, name(rt, "p"), extent, &[1, 2, 3], workers);
    put.expect(rt, "bytes of a rectangle");
    check(rt, &mut buffers, chain, ("a", 3), 2);
    let copied = buffers.copy(chain, name(rt, "p"), name(rt, "a"), extent, 1, 0);
    copied.expect(rt, "a rectangle of both");
    check(rt, &mut buffers, chain, ("p", 3), 1);
    check(rt, &mut buffers, chain, ("p", 5), 3);
    buffers.release(chain);
}

/// Fills over a disk whose first write fails: all is as it was, and the call is made again.
pub fn fill_again<C: TileChain>(rt: &impl Abort, chain: &mut C, alloc: Global) {
    let failed = BufferRefused::Swap(SwapRefused::SwapFault);
    let mut buffers = one_buffer(rt, chain, alloc, "a", [0, 0, 130, 1]);
    fill(rt, &mut buffers, chain, "a", [0, 0, 1, 1], 5);
    fill_refused(rt, &mut buffers, chain, "a", [0, 0, 130, 1], &[9], failed);
    check(rt, &mut buffers, chain, ("a", 0), 5);
    check(rt, &mut buffers, chain, ("a", 1), 0);
    fill(rt, &mut buffers, chain, "a", [0, 0, 130, 1], 9);
    check(rt, &mut buffers, chain, ("a", 1), 9);
    buffers.release(chain);
}

/// Reads levels of a buffer and of a part of it under the policies.
pub fn read_levels<C: TileChain>(rt: &(impl Abort + Threads + Sync), chain: &mut C, alloc: Global) {
    let mut buffers = one_buffer(rt, chain, alloc, "a", [0, 0, 4, 1]);
    let (extent, workers) = (rect([0, 0, 4, 1]), Workers::new(rt, 2));
    let put = buffers.put_raw(chain, name(rt, "a"), extent, &[10, 20, 30, 40], workers);
    put.expect(rt, "bytes of a rectangle");
    let clamped = ("a", 0, Abyss::Clamp, [-1, 0, 6, 1]);
    check_level(rt, &mut buffers, chain, clamped, &[10, 10, 20, 30, 40, 40]);
    let wrapped = ("a", 0, Abyss::Loop, [3, 0, 3, 1]);
    check_level(rt, &mut buffers, chain, wrapped, &[40, 10, 20]);
    let halved = ("a", 1, Abyss::None, [0, 0, 2, 1]);
    check_level(rt, &mut buffers, chain, halved, &[8, 18]);
    part(rt, &mut buffers, "p", "a", [1, 0, 2, 1]);
    let white = ("p", 1, Abyss::White, [-1, 0, 3, 1]);
    check_level(rt, &mut buffers, chain, white, &[255, 5, 8]);
    buffers.release(chain);
}

/// Freezes a part of a buffer, of which a snapshot shows what it did.
pub fn freeze_parts<C: TileChain>(rt: &impl Abort, chain: &mut C, alloc: Global) {
    let mut buffers = one_buffer(rt, chain, alloc, "a", [0, 0, 4, 1]);
    fill(rt, &mut buffers, chain, "a", [0, 0, 4, 1], 5);
    part(rt, &mut buffers, "p", "a", [1, 0, 2, 1]);
    let frozen = buffers.freeze(chain, name(rt, "p"));
    let frozen = frozen.expect(rt, "a frozen part");
    let mut snapshot = buffers.snapshot(chain).expect(rt, "memory");
    check(rt, &mut snapshot, chain, ("a", 3), 5);
    snapshot.release(chain);
    let tile = frozen.tile(TileAt::of(0, 0)).expect(rt, "a tile");
    check_value(rt, "frozen", tile.bytes().get(..4), Some(&[0, 5, 5, 0][..]));
}
