//! Graphs over buffers, and caches without a tile.

ghost use Rattle.std.specs.Prelude.{◌≡◌, ◌≤◌, [], ⊤, IfOk, map};
ghost use Rattle.std.specs.Map.{values_of};
ghost use Rattle.chain_owners.specs.Held.{nothing_held};
ghost use Rattle.model_buffers.specs.Layout.{facts_of};
ghost use Rattle.model_graphs.specs.Facts.{shapes_of_facts};
ghost use Rattle.model_states.specs.Valid.{AreStated};
ghost use Rattle.node_cache.specs.HandTiles.{IsHandCache, hand_size};
ghost use Rattle.node_cache.specs.NodeNames.{IsNodeCache, sizes_in};
ghost use Rattle.buffer_view.specs.BufferTables.{AreBuffersOver, buffers_names};
ghost use Rattle.test_renders.specs.Ready.{AreOver, AreReady};

use alloc_basics::NoMemory;
use buffer_view::Buffers;
use chain_contracts::TileChain;
use graph_commits::{Graph, GraphRefused};
use model_graphs::{BufferFact, NodeEdit};
use model_states::StateRefused;
use node_cache::{HandCache, NodeCache};
use op_contracts::{OpKit, OpMeaning};
use std::alloc::Global;

/// Returns the graph that edits of no nodes make over buffers.
///
/// # Errors
///
/// As [`Graph::commit`].
pub fn committed<K: OpKit>(
    kit: &K,
    alloc: Global,
    buffers: &[BufferFact],
    edits: &[NodeEdit<K::Op>],
) -> Result<Graph<K::Op>, GraphRefused>
    ensures { IfOk result (λ graph. AreStated K.Op.meanings (shapes_of_facts buffers.now) graph.latest.nodes) }
{
    let mut graph = Graph::new(alloc);
    if !graph.has_all_buffers_in(buffers) {
        return Err(GraphRefused::State(StateRefused::UnknownInput));
    }
    graph.commit(kit, edits, buffers, &[])?;
    // The nodes are those of a graph, as this call says.
    let _ = graph.nodes();
    Ok(graph)
}

/// Returns a cache of tiles of these nodes, without a tile, over the chain that holds the buffers.
///
/// # Errors
///
/// `NoMemory` if memory runs out.
pub fn empty_cache<C: TileChain, Op: OpMeaning>(
    alloc: Global,
    graph: &Graph<Op>,
    buffers: &Buffers,
    chain: &C,
    capacity: u32,
) -> Result<NodeCache, NoMemory>
    requires stated { AreStated Op.meanings (shapes_of_facts (facts_of buffers.now.layout)) graph.now.latest.nodes }
    requires over { AreBuffersOver buffers.now (C.held chain.now) }
    requires capacity { 1 ≤ capacity }
    ensures over { IfOk result (λ cache. AreOver (AreBuffersOver buffers.now (C.held chain.now))
        (IsNodeCache cache.names.entries cache.names.cap cache.capacity (C.held chain.now))
        (buffers_names buffers.now) (values_of cache.names.entries) (C.held chain.now)) }
    ensures ready { IfOk result (λ cache. AreReady Op.meanings (facts_of buffers.now.layout) graph.now.latest.nodes
        (sizes_in cache.names.entries (C.held chain.now))) }
{
    let cache = NodeCache::new(alloc, capacity)?;
    Ok(cache)
}

/// Returns a cache in memory of tiles of these nodes over buffers, without a tile.
///
/// # Errors
///
/// `NoMemory` if memory runs out.
pub fn empty_hand_cache<Op: OpMeaning>(
    alloc: Global,
    graph: &Graph<Op>,
    buffers: &[BufferFact],
    capacity: u32,
) -> Result<HandCache, NoMemory>
    requires stated { AreStated Op.meanings (shapes_of_facts buffers.now) graph.now.latest.nodes }
    requires capacity { 1 ≤ capacity }
    ensures over { IfOk result (λ cache. AreOver ⊤ (IsHandCache cache.tiles.entries cache.tiles.cap) [] [] nothing_held) }
    ensures ready { IfOk result (λ cache. AreReady Op.meanings buffers.now graph.now.latest.nodes
        (map hand_size cache.tiles.entries)) }
{
    let cache = HandCache::new(alloc, capacity)?;
    Ok(cache)
}
