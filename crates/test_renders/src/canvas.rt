//! Nodes over a source of tiles, with a cache.

ghost use Rattle.std.specs.Prelude.{◌≡◌, ◌≤◌, [], ⊤, true, IfOk, map};
ghost use Rattle.std.specs.Map.{values_of};
ghost use Rattle.chain_owners.specs.Held.{nothing_held};
ghost use Rattle.model_buffers.specs.Layout.{facts_of};
ghost use Rattle.model_operations.specs.Meanings.{int_meanings};
ghost use Rattle.node_cache.specs.HandTiles.{IsHandCache, hand_size};
ghost use Rattle.node_cache.specs.NodeNames.{IsNodeCache, sizes_in};
ghost use Rattle.buffer_view.specs.BufferTables.{AreBuffersOver, buffers_names};
ghost use Rattle.frozen_images.specs.Scenes.{facts_in};
ghost use Rattle.strip_patches.specs.Shown.{is_patch};
ghost use Rattle.test_renders.specs.Ready.{AreBuffersAndCacheOver, AreOver, AreReady, IsOver, IsReady, IsReadyOverBuffers};

use crate::changes::{commit, fill};
use crate::renders::{Request, show};
use crate::setup::{committed, empty_cache, empty_hand_cache};
use buffer_view::{BufferRefused, Buffers};
use chain_contracts::TileChain;
use chain_owners::ChainMeaning;
use frozen_images::{FrozenBuffer, SceneTiles};
use graph_commits::{Graph, GraphRefused};
use int_ops::{IntKit, IntOp, IntPurse};
use model_graphs::{BufferFact, Edited, NodeEdit};
use node_cache::{HandCache, NodeCache, PairStore};
use op_contracts::{OpKit, SourceTiles};
use plane_rect::{Name, Rect};
use render_workers::{RenderRefused, Rendered};
use std::alloc::Global;
use std::thread::Threads;
use worker_pieces::Workers;

/// How many permits there are for each render.
const PERMITS: u64 = 1 << 32;

/// Nodes over a source of tiles, and a cache of the nodes' tiles.
#[derive(Drop)]
pub struct Canvas<S, P> {
    pub alloc: Global,
    pub graph: Graph<IntOp>,
    pub sources: S,
    pub cache: P,
}

/// Returns the nodes that edits of none make over buffers, with a cache over their chain.
///
/// # Errors
///
/// As [`committed`].
pub fn over_buffers<C: TileChain>(
    alloc: Global,
    chain: &C,
    buffers: Buffers,
    edits: &[NodeEdit<IntOp>],
    capacity: u32,
) -> Result<Canvas<Buffers, NodeCache>, GraphRefused>
    requires over { AreBuffersOver buffers (C.held chain.now) }
    requires capacity { 1 ≤ capacity }
    ensures over { IfOk result (λ canvas. AreOver (AreBuffersOver canvas.sources (C.held chain.now))
        (IsNodeCache canvas.cache.names.entries canvas.cache.names.cap canvas.cache.capacity (C.held chain.now))
        (buffers_names canvas.sources) (values_of canvas.cache.names.entries) (C.held chain.now)) }
    ensures ready { IfOk result (λ canvas. AreReady int_meanings (facts_of canvas.sources.layout) canvas.graph.latest.nodes
        (sizes_in canvas.cache.names.entries (C.held chain.now))) }
{
    let graph = committed(&IntKit, alloc, buffers.facts(), edits)?;
    let cache = empty_cache(alloc, &graph, &buffers, chain, capacity)?;
    Ok(Canvas {
        alloc,
        graph,
        sources: buffers,
        cache,
    })
}

/// Returns the nodes that edits of none make over frozen buffers, with a cache in memory.
///
/// # Errors
///
/// As [`committed`].
pub fn over_frozen<'a>(
    alloc: Global,
    buffers: &'a [FrozenBuffer],
    facts: &[BufferFact],
    edits: &[NodeEdit<IntOp>],
    capacity: u32,
) -> Result<Canvas<SceneTiles<'a>, HandCache>, GraphRefused>
    requires facts { facts.now ≡ facts_in buffers.now }
    requires capacity { 1 ≤ capacity }
    ensures over { IfOk result (λ canvas. AreOver ⊤ (IsHandCache canvas.cache.tiles.entries canvas.cache.tiles.cap) [] [] nothing_held) }
    ensures ready { IfOk result (λ canvas. AreReady int_meanings (facts_in canvas.sources.buffers.now) canvas.graph.latest.nodes
        (map hand_size canvas.cache.tiles.entries)) }
{
    let graph = committed(&IntKit, alloc, facts, edits)?;
    let cache = empty_hand_cache(alloc, &graph, facts, capacity)?;
    Ok(Canvas {
        alloc,
        graph,
        sources: SceneTiles::new(buffers),
        cache,
    })
}

impl<S, P> Canvas<S, P> {
    /// Renders a request with permits of its own, in the form of one patch. Returns what is shown, and how many permits
    /// were spent.
    ///
    /// # Errors
    ///
    /// As [`show`].
    pub fn shown<H: ChainMeaning, R: Threads + Sync>(
        &mut self,
        chain: &mut H,
        request: &Request,
        workers: Workers<'_, R>,
    ) -> Result<(Rendered, u64), RenderRefused>
    where
        S: SourceTiles<H>,
        P: PairStore<H>,
        requires level { request.now.level ≤ 8 }
        requires over { IsOver H.ChainMeaning S.SourceTiles P.PairStore self.old chain.old }
        requires ready { IsReady H.ChainMeaning S.SourceTiles P.PairStore self.old chain.old }
        ensures patch { IfOk result (λ done. is_patch done.0.picture ≡ true) }
        ensures over { IsOver H.ChainMeaning S.SourceTiles P.PairStore self.new chain.new }
        ensures ready { IsReady H.ChainMeaning S.SourceTiles P.PairStore self.new chain.new }
    {
        let mut purse = IntPurse::new(PERMITS);
        let shown = show(
            &IntKit,
            self.alloc,
            &self.graph,
            &mut self.sources,
            &mut self.cache,
            chain,
            &mut purse,
            request,
            workers,
        )?;
        Ok((shown, PERMITS.wrapping_sub(IntKit.left(&purse))))
    }
}

impl<P> Canvas<Buffers, P> {
    /// Writes one pixel everywhere in a rectangle of a buffer.
    ///
    /// # Errors
    ///
    /// As [`Buffers::fill`].
    pub fn fill<C: TileChain>(
        &mut self,
        chain: &mut C,
        name: Name,
        rect: Rect,
        samples: &[u32],
    ) -> Result<(), BufferRefused>
    where
        P: PairStore<C>,
        requires over { AreBuffersAndCacheOver C.ChainMeaning P.PairStore self.old chain.old }
        requires ready { IsReadyOverBuffers C.ChainMeaning P.PairStore self.old chain.old }
        ensures over { AreBuffersAndCacheOver C.ChainMeaning P.PairStore self.new chain.new }
        ensures ready { IsReadyOverBuffers C.ChainMeaning P.PairStore self.new chain.new }
    {
        fill(
            &self.graph,
            &mut self.sources,
            &self.cache,
            chain,
            name,
            rect,
            samples,
        )?;
        Ok(())
    }

    /// Commits what was written to rectangles of roots.
    ///
    /// # Errors
    ///
    /// As [`commit`].
    pub fn commit_written<C: TileChain>(
        &mut self,
        chain: &mut C,
        edited: &[Edited],
    ) -> Result<(), GraphRefused>
    where
        P: PairStore<C>,
        requires over { AreBuffersAndCacheOver C.ChainMeaning P.PairStore self.old chain.old }
        requires ready { IsReadyOverBuffers C.ChainMeaning P.PairStore self.old chain.old }
        ensures over { AreBuffersAndCacheOver C.ChainMeaning P.PairStore self.new chain.new }
        ensures ready { IfOk result (λ _. IsReadyOverBuffers C.ChainMeaning P.PairStore self.new chain.new) }
    {
        commit(
            &IntKit,
            &mut self.graph,
            &self.sources,
            &mut self.cache,
            chain,
            &[],
            edited,
        )?;
        Ok(())
    }
}
