//! Lists of calls on nodes over buffers, each with its answer.

ghost use Rattle.test_renders.specs.Ready.{AreBuffersAndCacheOver, IsReadyOverBuffers};

use crate::renders::canvases::{ask, write};
use crate::renders::seen::Seen;
use crate::values::Fields;
use buffer_view::Buffers;
use chain_contracts::TileChain;
use node_cache::PairStore;
use render_workers::RenderRefused;
use std::process::Abort;
use std::thread::Threads;
use test_renders::Canvas;

/// A node, a level of it, and a rectangle of the level, which are rendered.
pub type Asked = (&'static str, u32, Fields);

/// Bytes of a patch.
#[derive(Clone, Copy)]
pub enum Bytes {
    /// All of them.
    All(&'static [u8]),
    /// Those from an index on.
    From(usize, &'static [u8]),
    /// How many there are.
    Length(usize),
    /// How many there are of one value.
    Count(u8, usize),
    /// All of them: so many that look random, from this first number on.
    Random(u32, u64),
    /// All of them: those of an earlier render, counted from 0.
    Of(usize),
    /// All of them: what the plain program makes of the node.
    Plain,
}

/// What a render answers.
#[derive(Clone, Copy)]
pub enum Wanted {
    /// It evaluates so many tiles, finds so many in the cache, and shows these bytes.
    Shown((u64, u64), &'static [Bytes]),
    /// It shows these bytes.
    Again(&'static [Bytes]),
    /// It evaluates and finds as many tiles as a plain list of cached pairs says, and leaves the pairs of that list.
    Listed,
    /// It is refused.
    Refused(RenderRefused),
}

/// A call on nodes over buffers.
#[derive(Clone, Copy)]
pub enum Step {
    /// Renders, once more where the disk refuses it.
    Asks(Asked, Wanted),
    /// Writes one gray everywhere in a rectangle of the buffer `a`, and commits.
    Writes(Fields, u32),
    /// Of all tiles that the plain list was asked for, more than so many were new, and more than so many weren't.
    Lists(u64, u64),
}

/// Makes the step of a row.
fn make_step<C: TileChain, P: PairStore<C>>(
    rt: &(impl Abort + Threads + Sync),
    canvas: &mut Canvas<Buffers, P>,
    chain: &mut C,
    seen: &mut Seen,
    row: usize,
    step: &Step,
)
    requires over { AreBuffersAndCacheOver C.ChainMeaning P.PairStore canvas.old chain.old }
    requires ready { IsReadyOverBuffers C.ChainMeaning P.PairStore canvas.old chain.old }
    ensures over { AreBuffersAndCacheOver C.ChainMeaning P.PairStore canvas.new chain.new }
    ensures ready { IsReadyOverBuffers C.ChainMeaning P.PairStore canvas.new chain.new }
{
    match step {
        Step::Writes(fields, gray) => write(rt, canvas, chain, *fields, *gray),
        Step::Lists(applied, reused) => seen.check_lists(rt, *applied, *reused),
        Step::Asks(asked, wanted) => {
            let request = seen.request(rt, asked);
            let (answer, is_refused) = ask(rt, canvas, chain, &request);
            seen.is_refused = seen.is_refused || is_refused;
            let order = canvas.cache.order().expect(rt, "memory");
            seen.check(
                rt,
                row,
                (asked, wanted),
                answer,
                canvas.graph.nodes(),
                &order,
            );
        }
    }
}

/// Makes steps in their order.
pub fn make<C: TileChain, P: PairStore<C>>(
    rt: &(impl Abort + Threads + Sync),
    canvas: &mut Canvas<Buffers, P>,
    chain: &mut C,
    seen: &mut Seen,
    steps: &[Step],
)
    requires over { AreBuffersAndCacheOver C.ChainMeaning P.PairStore canvas.old chain.old }
    requires ready { IsReadyOverBuffers C.ChainMeaning P.PairStore canvas.old chain.old }
    ensures over { AreBuffersAndCacheOver C.ChainMeaning P.PairStore canvas.new chain.new }
    ensures ready { IsReadyOverBuffers C.ChainMeaning P.PairStore canvas.new chain.new }
{
    let mut row: usize = 0;
    for step in steps {
        make_step(rt, canvas, chain, seen, row, step);
        row = row.wrapping_add(1);
    }
}
