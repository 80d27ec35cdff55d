//! Nodes over buffers of a chain, with a cache, and calls on them.

ghost use Rattle.std.specs.Prelude.{◌≤◌};
ghost use Rattle.std.specs.Map.{values_of};
ghost use Rattle.buffer_view.specs.BufferTables.{AreBuffersOver, buffers_names};
ghost use Rattle.model_buffers.specs.Layout.{facts_of};
ghost use Rattle.model_operations.specs.Meanings.{int_meanings};
ghost use Rattle.node_cache.specs.NodeNames.{IsNodeCache, sizes_in};
ghost use Rattle.test_renders.specs.Ready.{AreBuffersAndCacheOver, AreOver, AreReady, IsOver, IsReady, IsReadyOverBuffers};

use crate::renders::examples::{Example, Given, Samples};
use crate::renders::plain::{bytes, pictures_of};
use crate::renders::seen::{Answer, Seen};
use crate::renders::steps::{Step, make};
use crate::values::{Fields, name};
use buffer_view::{BufferRefused, Buffers, no_buffers_ask_nothing};
use chain_contracts::TileChain;
use chain_owners::{ChainMeaning, SwapRefused};
use int_ops::IntKit;
use model_graphs::Edited;
use node_cache::{NodeCache, PairStore};
use op_contracts::SourceTiles;
use plane_rect::{Name, Rect};
use render_workers::RenderRefused;
use std::alloc::Global;
use std::process::Abort;
use std::thread::Threads;
use test_nodes::{rect, sketched};
use test_renders::{Canvas, Request, commit, empty_cache, over_buffers};
use worker_pieces::Workers;

/// Returns the table without a buffer.
fn no_buffers<C: TileChain>(_chain: &C, alloc: Global) -> Buffers
    ensures { AreBuffersOver result (C.held _chain.now) }
{
    no_buffers_ask_nothing();
    Buffers::new(alloc)
}

/// Writes raw bytes over a rectangle of a buffer, once more where the disk refuses it.
fn put<C: TileChain>(
    rt: &(impl Abort + Threads + Sync),
    buffers: &mut Buffers,
    chain: &mut C,
    name: Name,
    rect: Rect,
    bytes: &[u8],
)
    requires { AreBuffersOver buffers.old (C.held chain.old) }
    ensures { AreBuffersOver buffers.new (C.held chain.new) }
{
    let put = buffers.put_raw(chain, name, rect, bytes, Workers::new(rt, 3));
    if let Some(refused) = put.err() {
        assert!(rt; refused == BufferRefused::Swap(SwapRefused::SwapFault));
        let again = buffers.put_raw(chain, name, rect, bytes, Workers::new(rt, 3));
        again.expect(rt, "one call that fails");
    }
}

/// Adds a buffer to a table.
pub fn add_buffer<C: TileChain>(
    rt: &(impl Abort + Threads + Sync),
    buffers: &mut Buffers,
    chain: &mut C,
    alloc: Global,
    given: &Given,
)
    requires { AreBuffersOver buffers.old (C.held chain.old) }
    ensures { AreBuffersOver buffers.new (C.held chain.new) }
{
    let (word, format, fields, samples) = *given;
    let (name, rect) = (name(rt, word), rect(fields));
    buffers.create(name, format, rect).expect(rt, "a buffer");
    match samples {
        Samples::Zeros => {}
        Samples::Gray(gray) => {
            let filled = buffers.fill(chain, name, rect, &[gray]);
            filled.expect(rt, "a rectangle of the buffer");
        }
        Samples::Bytes(bytes) => put(rt, buffers, chain, name, rect, bytes),
        Samples::Random(seed) => {
            let count = rect.area() * u64::from(format.pixel_bytes());
            put(
                rt,
                buffers,
                chain,
                name,
                rect,
                &bytes(rt, alloc, seed, count),
            );
        }
    }
}

/// Returns a table of buffers.
pub fn buffers_of<C: TileChain>(
    rt: &(impl Abort + Threads + Sync),
    chain: &mut C,
    alloc: Global,
    given: &[Given],
) -> Buffers
    ensures { AreBuffersOver result (C.held chain.new) }
{
    let mut buffers = no_buffers(chain, alloc);
    for row in given {
        add_buffer(rt, &mut buffers, chain, alloc, row);
    }
    buffers
}

/// Returns the nodes of an example over its buffers, with a cache without a tile.
fn canvas_of<C: TileChain>(
    rt: &(impl Abort + Threads + Sync),
    chain: &mut C,
    alloc: Global,
    example: &Example,
) -> Canvas<Buffers, NodeCache>
    ensures over { AreOver (AreBuffersOver result.sources (C.held chain.new))
        (IsNodeCache result.cache.names.entries result.cache.names.cap result.cache.capacity (C.held chain.new))
        (buffers_names result.sources) (values_of result.cache.names.entries) (C.held chain.new) }
    ensures ready { AreReady int_meanings (facts_of result.sources.layout) result.graph.latest.nodes
        (sizes_in result.cache.names.entries (C.held chain.new)) }
{
    assert!(rt; example.cached >= 1);
    let sketch = sketched(alloc, example.nodes).expect(rt, "nodes");
    let buffers = buffers_of(rt, chain, alloc, example.given);
    let canvas = over_buffers(alloc, chain, buffers, &sketch.edits, example.cached);
    canvas.expect(rt, "nodes over the buffers")
}

/// Renders a request. Checks that the patch is the request's, and that as many permits were spent as tiles evaluated.
pub fn answer<H: ChainMeaning, S: SourceTiles<H>, P: PairStore<H>>(
    rt: &(impl Abort + Threads + Sync),
    canvas: &mut Canvas<S, P>,
    chain: &mut H,
    request: &Request,
) -> Answer
    requires level { request.now.level ≤ 8 }
    requires over { IsOver H.ChainMeaning S.SourceTiles P.PairStore canvas.old chain.old }
    requires ready { IsReady H.ChainMeaning S.SourceTiles P.PairStore canvas.old chain.old }
    ensures over { IsOver H.ChainMeaning S.SourceTiles P.PairStore canvas.new chain.new }
    ensures ready { IsReady H.ChainMeaning S.SourceTiles P.PairStore canvas.new chain.new }
{
    match canvas.shown(chain, request, Workers::new(rt, 3)) {
        Ok((shown, spent)) => {
            assert!(rt; shown.picture.rect() == request.rect && spent == shown.applied);
            let counts = (shown.applied, shown.reused);
            Ok((shown.picture.into_patch(), counts))
        }
        Err(refused) => Err(refused),
    }
}

/// Renders a request, once more where the disk refuses it. Returns whether it did, too.
pub fn ask<H: ChainMeaning, S: SourceTiles<H>, P: PairStore<H>>(
    rt: &(impl Abort + Threads + Sync),
    canvas: &mut Canvas<S, P>,
    chain: &mut H,
    request: &Request,
) -> (Answer, bool)
    requires level { request.now.level ≤ 8 }
    requires over { IsOver H.ChainMeaning S.SourceTiles P.PairStore canvas.old chain.old }
    requires ready { IsReady H.ChainMeaning S.SourceTiles P.PairStore canvas.old chain.old }
    ensures over { IsOver H.ChainMeaning S.SourceTiles P.PairStore canvas.new chain.new }
    ensures ready { IsReady H.ChainMeaning S.SourceTiles P.PairStore canvas.new chain.new }
{
    match answer(rt, canvas, chain, request) {
        Err(RenderRefused::SwapFault) => (answer(rt, canvas, chain, request), true),
        other => (other, false),
    }
}

/// Writes one gray everywhere in a rectangle of the buffer `a`, and commits.
pub fn write<C: TileChain, P: PairStore<C>>(
    rt: &impl Abort,
    canvas: &mut Canvas<Buffers, P>,
    chain: &mut C,
    fields: Fields,
    gray: u32,
)
    requires over { AreBuffersAndCacheOver C.ChainMeaning P.PairStore canvas.old chain.old }
    requires ready { IsReadyOverBuffers C.ChainMeaning P.PairStore canvas.old chain.old }
    ensures over { AreBuffersAndCacheOver C.ChainMeaning P.PairStore canvas.new chain.new }
    ensures ready { IsReadyOverBuffers C.ChainMeaning P.PairStore canvas.new chain.new }
{
    let (root, rect) = (name(rt, "a"), rect(fields));
    let filled = canvas.fill(chain, root, rect, &[gray]);
    filled.expect(rt, "a rectangle of the buffer");
    let committed = canvas.commit_written(chain, &[Edited { root, rect }]);
    committed.expect(rt, "a commit");
}

/// Commits the nodes of an example, whose damage takes all cached tiles out. Returns them with a cache without a tile.
fn recommitted<C: TileChain>(
    rt: &impl Abort,
    canvas: Canvas<Buffers, NodeCache>,
    chain: &mut C,
    example: &Example,
) -> Canvas<Buffers, NodeCache>
    requires over { AreOver (AreBuffersOver canvas.sources (C.held chain.old))
        (IsNodeCache canvas.cache.names.entries canvas.cache.names.cap canvas.cache.capacity (C.held chain.old))
        (buffers_names canvas.sources) (values_of canvas.cache.names.entries) (C.held chain.old) }
    requires ready { AreReady int_meanings (facts_of canvas.sources.layout) canvas.graph.latest.nodes
        (sizes_in canvas.cache.names.entries (C.held chain.old)) }
    ensures over { AreOver (AreBuffersOver result.sources (C.held chain.new))
        (IsNodeCache result.cache.names.entries result.cache.names.cap result.cache.capacity (C.held chain.new))
        (buffers_names result.sources) (values_of result.cache.names.entries) (C.held chain.new) }
    ensures ready { AreReady int_meanings (facts_of result.sources.layout) result.graph.latest.nodes
        (sizes_in result.cache.names.entries (C.held chain.new)) }
{
    let Canvas {
        alloc,
        mut graph,
        sources,
        mut cache,
    } = canvas;
    assert!(rt; example.cached >= 1);
    let edits = sketched(alloc, example.nodes).expect(rt, "nodes").edits;
    let done = commit(
        &IntKit,
        &mut graph,
        &sources,
        &mut cache,
        chain,
        &edits,
        &[],
    );
    done.expect(rt, "a commit");
    assert!(rt; has_none(rt, &cache, chain));
    let cache = empty_cache(alloc, &graph, &sources, chain, example.cached).expect(rt, "memory");
    Canvas {
        alloc,
        graph,
        sources,
        cache,
    }
}

/// Returns whether no pair is cached.
fn has_none<H: ChainMeaning, P: PairStore<H>>(rt: &impl Abort, cache: &P, _chain: &H) -> bool {
    cache.order().expect(rt, "memory").is_empty()
}

/// Runs an example over a chain by these steps, and then the one that follows it. Returns whether the disk refused a render.
pub fn run_example<C: TileChain>(
    rt: &(impl Abort + Threads + Sync),
    chain: &mut C,
    alloc: Global,
    example: &Example,
    steps: &[Step],
) -> bool {
    let pictures = pictures_of(rt, alloc, example);
    let mut seen = Seen::new(alloc, example.capacity, pictures);
    let mut canvas = canvas_of(rt, chain, alloc, example);
    make(rt, &mut canvas, chain, &mut seen, steps);
    if let Some(then) = example.then {
        seen.capacity = then.capacity;
        let mut canvas = recommitted(rt, canvas, chain, then);
        make(rt, &mut canvas, chain, &mut seen, then.steps);
    }
    seen.is_refused
}
