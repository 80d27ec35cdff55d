//! Buffers beside plain lists of bytes.

ghost use Rattle.std.specs.Prelude.{◌≤◌};
ghost use Rattle.buffer_view.specs.BufferTables.{AreBuffersOver};

use crate::calls::{check_level, name, one_buffer};
use crate::check::check;
use crate::plain::Plain;
use buffer_view::Buffers;
use pixel_formats::Abyss;
use plane_rect::Name;
use std::alloc::Global;
use std::process::Abort;
use std::thread::Threads;
use test_nodes::rect;
use tile_chain::TileChain;
use worker_pieces::Workers;

/// All policies.
const POLICIES: [Abyss; 5] = [
    Abyss::None,
    Abyss::Clamp,
    Abyss::Loop,
    Abyss::Black,
    Abyss::White,
];

/// The moves of a rectangle that is copied onto itself: by less than its size in each direction.
const MOVES: [[i8; 2]; 8] = [
    [1, 0],
    [-1, 0],
    [0, 1],
    [0, -1],
    [7, 9],
    [-7, -9],
    [9, -7],
    [-9, 7],
];

/// Returns a table of one buffer that shows a plain image.
fn buffer_of<C: TileChain>(
    rt: &(impl Abort + Threads + Sync),
    chain: &mut C,
    alloc: Global,
    plain: &Plain,
) -> Buffers
    ensures { AreBuffersOver result (C.held chain.new) }
{
    let mut buffers = one_buffer(rt, chain, alloc, "n00", plain.fields());
    let all = rect(plain.fields());
    let workers = Workers::new(rt, 3);
    let put = buffers.put_raw(chain, name(rt, "n00"), all, &plain.bytes, workers);
    put.expect(rt, "bytes of a rectangle");
    buffers
}

/// Reads each level of a buffer that begins and ends inside tiles, and around it under each policy.
pub fn compare_levels<C: TileChain>(
    rt: &(impl Abort + Threads + Sync),
    chain: &mut C,
    alloc: Global,
) {
    let mut plain = Plain::noise(rt, alloc, [-37, 21], [150, 70]);
    let mut buffers = buffer_of(rt, chain, alloc, &plain);
    for level in 0..9u32 {
        compare_policies(rt, &mut buffers, chain, alloc, level, &plain);
        plain = plain.halved(rt, alloc);
    }
    buffers.release(chain);
}

/// Reads a level of a buffer, and three pixels around it, under each policy.
fn compare_policies<C: TileChain>(
    rt: &impl Abort,
    buffers: &mut Buffers,
    chain: &mut C,
    alloc: Global,
    level: u32,
    plain: &Plain,
)
    requires { AreBuffersOver buffers.old (C.held chain.old) }
    ensures { AreBuffersOver buffers.new (C.held chain.new) }
{
    let around = [
        i64::from(plain.left) - 3,
        i64::from(plain.top) - 3,
        i64::from(plain.width).saturating_add(6),
        i64::from(plain.height).saturating_add(6),
    ];
    for abyss in &POLICIES {
        let wanted = plain.around(rt, alloc, *abyss);
        check_level(rt, buffers, chain, ("n00", level, *abyss, around), &wanted);
    }
}

/// Returns the name of a number below 64.
fn numbered(rt: &impl Abort, number: u8) -> Name {
    let digits = [b'n', b'0' + number / 8, b'0' + number % 8];
    Name::parse(&digits).expect(rt, "a name")
}

/// Duplicates a buffer 63 times, writes a pixel of its own to it and to each duplicate, and reads all of them.
pub fn compare_duplicates<C: TileChain>(
    rt: &(impl Abort + Threads + Sync),
    chain: &mut C,
    alloc: Global,
) {
    let plain = Plain::noise(rt, alloc, [0, 0], [130, 2]);
    let mut buffers = buffer_of(rt, chain, alloc, &plain);
    duplicate_each(rt, &mut buffers, chain);
    write_each(rt, &mut buffers, chain);
    compare_each(rt, &mut buffers, chain, alloc, &plain);
    buffers.release(chain);
}

/// Adds 63 duplicates of the first buffer.
fn duplicate_each<C: TileChain>(rt: &impl Abort, buffers: &mut Buffers, chain: &mut C)
    requires { AreBuffersOver buffers.old (C.held chain.old) }
    ensures { AreBuffersOver buffers.new (C.held chain.new) }
{
    for number in 1..64u8 {
        let duplicate = buffers.dup(chain, numbered(rt, number), numbered(rt, 0));
        duplicate.expect(rt, "a duplicate");
    }
}

/// Writes a pixel of each buffer: another position and another byte each.
fn write_each<C: TileChain>(rt: &impl Abort, buffers: &mut Buffers, chain: &mut C)
    requires { AreBuffersOver buffers.old (C.held chain.old) }
    ensures { AreBuffersOver buffers.new (C.held chain.new) }
{
    for number in 0..64u8 {
        let pixel = rect([2 * i64::from(number), 0, 1, 1]);
        let samples = [u32::from(number) + 100];
        let filled = buffers.fill(chain, numbered(rt, number), pixel, &samples);
        filled.expect(rt, "a pixel of the buffer");
    }
}

/// Compares each buffer with the plain image of which only its own pixel was written.
fn compare_each<C: TileChain>(
    rt: &impl Abort,
    buffers: &mut Buffers,
    chain: &mut C,
    alloc: Global,
    plain: &Plain,
)
    requires { AreBuffersOver buffers.old (C.held chain.old) }
    ensures { AreBuffersOver buffers.new (C.held chain.new) }
{
    for number in 0..64u8 {
        let mut wanted = Vec::from_slice(alloc, &plain.bytes).expect(rt, "memory");
        if let Some(byte) = wanted.get_mut(2 * usize::from(number)) {
            *byte = number + 100;
        }
        let whole = rect(plain.fields());
        let patch = buffers.get(chain, numbered(rt, number), 0, Abyss::None, whole);
        let patch = patch.expect(rt, "the buffer");
        check(rt, number, patch.raw_bytes(), wanted.as_slice());
    }
}

/// Copies a rectangle of a buffer onto itself, in each direction by less than its size.
pub fn compare_moves<C: TileChain>(
    rt: &(impl Abort + Threads + Sync),
    chain: &mut C,
    alloc: Global,
) {
    let from = [10, 10, 80, 70];
    let mut plain = Plain::noise(rt, alloc, [0, 0], [100, 90]);
    let mut buffers = buffer_of(rt, chain, alloc, &plain);
    for by in &MOVES {
        plain = plain.moved(rt, alloc, from, *by);
        copy_to_itself(rt, &mut buffers, chain, from, *by);
        let all = ("n00", 0, Abyss::None, plain.fields());
        check_level(rt, &mut buffers, chain, all, &plain.bytes);
    }
    buffers.release(chain);
}

/// Copies a rectangle of the first buffer onto itself.
fn copy_to_itself<C: TileChain>(
    rt: &impl Abort,
    buffers: &mut Buffers,
    chain: &mut C,
    from: [u8; 4],
    by: [i8; 2],
)
    requires { AreBuffersOver buffers.old (C.held chain.old) }
    ensures { AreBuffersOver buffers.new (C.held chain.new) }
{
    let name = numbered(rt, 0);
    let from = rect(from.map(i64::from));
    let [dx, dy] = by.map(i64::from);
    let copied = buffers.copy(chain, name, name, from, dx, dy);
    copied.expect(rt, "a rectangle of the buffer");
}
