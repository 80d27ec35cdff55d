//! Changes of buffers and nodes beside cached tiles.

ghost use Rattle.std.specs.Prelude.{◌≡◌, [], List, OnOk};
ghost use Rattle.model_buffers.specs.Layout.{facts_of};
ghost use Rattle.model_graphs.specs.{declared.node.NodeFact.NodeFact as Fact, Facts.shapes_of_facts};
ghost use Rattle.model_states.specs.Valid.{AreStated};
ghost use Rattle.strip_renders.specs.Strips.{AreSizedPairs};
ghost use Rattle.buffer_view.specs.BufferTables.{AreBuffersOver, buffers_names};
ghost use Rattle.test_renders.specs.Ready.{AreOver, AreReady};

use buffer_view::{BufferRefused, Buffers, other_buffers_are_unchanged};
use chain_contracts::TileChain;
use graph_commits::{Graph, GraphRefused};
use model_graphs::{Edited, NodeEdit};
use model_states::StateRefused;
use node_cache::PairStore;
use node_cache::laws::stores_are_unchanged;
use op_contracts::{OpKit, OpMeaning};
use plane_rect::{Name, Rect};

/// Writes one pixel at each position of a rectangle of a buffer.
///
/// # Errors
///
/// As [`Buffers::fill`].
pub fn fill<C: TileChain, P: PairStore<C>, Op: OpMeaning>(
    graph: &Graph<Op>,
    buffers: &mut Buffers,
    cache: &P,
    chain: &mut C,
    name: Name,
    rect: Rect,
    samples: &[u32],
) -> Result<(), BufferRefused>
    requires over { AreOver (AreBuffersOver buffers.old (C.held chain.old)) (P.is_over cache.now (C.held chain.old))
        (buffers_names buffers.old) (P.names cache.now) (C.held chain.old) }
    requires ready { AreReady Op.meanings (facts_of buffers.old.layout) graph.now.latest.nodes (P.sizes cache.now (C.held chain.old)) }
    ensures over { AreOver (AreBuffersOver buffers.new (C.held chain.new)) (P.is_over cache.now (C.held chain.new))
        (buffers_names buffers.new) (P.names cache.now) (C.held chain.new) }
    ensures ready { AreReady Op.meanings (facts_of buffers.new.layout) graph.now.latest.nodes (P.sizes cache.now (C.held chain.new)) }
{
    stores_are_unchanged::<C, P>();
    buffers.fill(chain, name, rect, samples)?;
    Ok(())
}

/// Commits edits of nodes over buffers, to whose roots `edited` was written since the last commit, and takes the
/// cached tiles out that meet the damage of their nodes.
///
/// # Errors
///
/// As [`Graph::commit`]: the graph and the cache are unchanged.
pub fn commit<C: TileChain, P: PairStore<C>, K: OpKit>(
    kit: &K,
    graph: &mut Graph<K::Op>,
    buffers: &Buffers,
    cache: &mut P,
    chain: &mut C,
    edits: &[NodeEdit<K::Op>],
    edited: &[Edited],
) -> Result<(), GraphRefused>
    requires over { AreOver (AreBuffersOver buffers.now (C.held chain.old)) (P.is_over cache.old (C.held chain.old))
        (buffers_names buffers.now) (P.names cache.old) (C.held chain.old) }
    requires ready { AreReady K.Op.meanings (facts_of buffers.now.layout) graph.old.latest.nodes (P.sizes cache.old (C.held chain.old)) }
    ensures over { AreOver (AreBuffersOver buffers.now (C.held chain.new)) (P.is_over cache.new (C.held chain.new))
        (buffers_names buffers.now) (P.names cache.new) (C.held chain.new) }
    ensures stated { AreStated K.Op.meanings (shapes_of_facts (facts_of buffers.now.layout)) graph.new.latest.nodes }
    ensures ready { edits.now ≡ [] →
        AreReady K.Op.meanings (facts_of buffers.now.layout) graph.new.latest.nodes (P.sizes cache.new (C.held chain.new)) }
{
    if !graph.has_all_buffers_in(buffers.facts()) {
        return Err(GraphRefused::State(StateRefused::UnknownInput));
    }
    let damage = graph.commit(kit, edits, buffers.facts(), edited)?;
    void_all::<C, P, K::Op>(buffers, cache, chain, damage.rects.as_slice());
    Ok(())
}

/// Takes the cached tiles out that meet the rectangles of their nodes.
fn void_all<C: TileChain, P: PairStore<C>, Op: OpMeaning>(
    buffers: &Buffers,
    cache: &mut P,
    chain: &mut C,
    rects: &[(Name, Rect)],
)
    requires over { AreOver (AreBuffersOver buffers.now (C.held chain.old)) (P.is_over cache.old (C.held chain.old))
        (buffers_names buffers.now) (P.names cache.old) (C.held chain.old) }
    ensures over { AreOver (AreBuffersOver buffers.now (C.held chain.new)) (P.is_over cache.new (C.held chain.new))
        (buffers_names buffers.now) (P.names cache.new) (C.held chain.new) }
    ensures sized { (nodes : List (Fact Op)) → AreSizedPairs nodes (P.sizes cache.old (C.held chain.old)) →
        AreSizedPairs nodes (P.sizes cache.new (C.held chain.new)) }
{
    for (node, rect) in rects {
        void_one::<C, P, Op>(buffers, cache, chain, *node, *rect);
    }
}

/// Takes the cached tiles of a node out that meet a rectangle.
fn void_one<C: TileChain, P: PairStore<C>, Op: OpMeaning>(
    buffers: &Buffers,
    cache: &mut P,
    chain: &mut C,
    node: Name,
    rect: Rect,
)
    requires over { AreOver (AreBuffersOver buffers.now (C.held chain.old)) (P.is_over cache.old (C.held chain.old))
        (buffers_names buffers.now) (P.names cache.old) (C.held chain.old) }
    ensures over { AreOver (AreBuffersOver buffers.now (C.held chain.new)) (P.is_over cache.new (C.held chain.new))
        (buffers_names buffers.now) (P.names cache.new) (C.held chain.new) }
    ensures sized { (nodes : List (Fact Op)) → AreSizedPairs nodes (P.sizes cache.old (C.held chain.old)) →
        AreSizedPairs nodes (P.sizes cache.new (C.held chain.new)) }
{
    other_buffers_are_unchanged();
    cache.void(chain, node, rect);
}
