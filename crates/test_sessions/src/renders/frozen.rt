//! A render over a scene of frozen buffers, with a cache in memory that is trimmed.

use crate::renders::canvases::{answer, buffers_of};
use crate::renders::examples::{Given, Samples};
use crate::renders::plain::bytes;
use crate::values::{Fields, check_row, name};
use chain_contracts::TileChain;
use chain_owners::ChainMeaning;
use frozen_images::FrozenBuffer;
use model_graphs::BufferFact;
use node_cache::PairStore;
use pixel_formats::Format;
use std::alloc::Global;
use std::process::Abort;
use std::thread::Threads;
use test_nodes::{rect, sketched};
use test_renders::{Request, over_frozen};

/// The box of the buffer.
const BOX: Fields = [-30, 0, 130, 70];

/// A buffer of random pixels.
const GIVEN: [Given; 1] = [("a", Format::RGB8, BOX, Samples::Random(3))];

/// Returns the buffer, frozen.
pub fn frozen<C: TileChain>(
    rt: &(impl Abort + Threads + Sync),
    chain: &mut C,
    alloc: Global,
) -> FrozenBuffer {
    let buffers = buffers_of(rt, chain, alloc, &GIVEN);
    let name = name(rt, "a");
    let image = buffers.freeze(chain, name).expect(rt, "a buffer");
    buffers.release(chain);
    let fact = BufferFact {
        name,
        root: name,
        bounds: image.bounds(),
        format: image.format(),
    };
    FrozenBuffer::new(fact, image)
}

/// Returns how many pairs are cached.
fn cached<H: ChainMeaning, P: PairStore<H>>(rt: &impl Abort, cache: &P, _chain: &H) -> usize {
    cache.order().expect(rt, "memory").len()
}

/// Inverts the frozen buffer twice, the second time over what a trim left of the cache: both show the same.
pub fn invert_frozen(rt: &(impl Abort + Threads + Sync), alloc: Global, buffer: FrozenBuffer) {
    let facts = [*buffer.fact()];
    let buffers = [buffer];
    let nodes = sketched(alloc, "node s source a\nnode i invert s\n").expect(rt, "nodes");
    let canvas = over_frozen(alloc, &buffers, &facts, &nodes.edits, 2);
    let mut canvas = canvas.expect(rt, "nodes over the buffer");
    let all = Request {
        node: name(rt, "i"),
        level: 0,
        rect: rect(BOX),
        capacity: 200,
    };
    let first = answer(rt, &mut canvas, &mut (), &all);
    let all_kept = cached(rt, &canvas.cache, &());
    canvas.cache.trim();
    let few_kept = cached(rt, &canvas.cache, &());
    let second = answer(rt, &mut canvas, &mut (), &all);
    check_row(rt, 0, &(all_kept, few_kept), &(6, 2));
    let (first, counts) = first.expect(rt, "a render");
    check_row(rt, 1, &counts, &(6, 0));
    let (second, counts) = second.expect(rt, "a render");
    check_row(rt, 2, &counts, &(4, 2));
    let mut raw = bytes(rt, alloc, 3, 130 * 70 * 3);
    for byte in &mut raw {
        *byte = 255 - *byte;
    }
    assert!(rt; first.raw_bytes() == raw.as_slice() && second.raw_bytes() == raw.as_slice());
}
