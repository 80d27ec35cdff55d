//! The strips of a request, one after another.

ghost use Rattle.std.specs.Prelude.{◌≡◌, ◌<◌, ◌≤◌, ◌^◌, length};
ghost use Rattle.plane_rect.specs.Rectangle.{InLimits};
ghost use Rattle.model_graphs.specs.Facts.{shapes_of_facts, specs_of};
ghost use Rattle.model_states.specs.{Cache.needed_pairs, Need.need, Valid.AreStated};
ghost use Rattle.node_tiles.specs.Stated.{shape_at};
ghost use Rattle.strip_renders.specs.Moments.{AreOver, render_state};
ghost use Rattle.strip_renders.specs.Strips.{AreSizedPairs};
ghost use Rattle.strip_patches.specs.Shown.{format_in, source_in};
ghost use Rattle.render_workers.specs.Renders.{RendersStrips};

use crate::part::{LookCounts, add_part};
use chain_owners::{ChainMeaning, SwapRefused};
use model_graphs::NodeFact;
use node_cache::PairStore;
use op_contracts::{OpKit, SourceTiles};
use roi_planner::{Strip, all_inputs};
use std::alloc::Global;
use std::thread::Threads;
use strip_patches::PictureStrips;
use strip_renders::{AheadTiles, Evaluator};
use worker_pieces::Workers;

/// Renders the strips of a request for the node at a position, which are its plan, from the top, and adds each to the
/// picture of the request. Returns how many of the needed tiles were evaluated and how many the cache had.
///
/// # Errors
///
/// As [`render_strip`](strip_renders::render_strip), for the pairs of all strips.
pub(crate) fn render_strips<
    H: ChainMeaning,
    S: SourceTiles<H>,
    C: PairStore<H>,
    K: OpKit + Sync,
    R,
>(
    kit: &K,
    alloc: Global,
    nodes: &[NodeFact<K::Op>],
    sources: &mut S,
    cache: &mut C,
    chain: &mut H,
    purse: &mut K::Purse,
    strips: &mut PictureStrips,
    node: u32,
    plan: &[Strip],
    workers: Workers<'_, R>,
) -> Result<LookCounts, SwapRefused>
where
    K::Op: Sync,
    K::Permit: Send,
    R: Threads + Sync,
    requires stated { AreStated K.Op.meanings (shapes_of_facts (S.facts sources.old)) nodes.now }
    requires node { node < length nodes.now }
    requires plan { plan.now ≡ need K.Op.meanings nodes.now node (source_in strips.old) }
    requires limits { InLimits (source_in strips.old) }
    requires format { format_in strips.old ≡ (shape_at nodes.now node).format }
    requires over { AreOver (render_state H.ChainMeaning S.SourceTiles C.PairStore sources.old cache.old chain.old (K.permits purse.old)) }
    requires sized { AreSizedPairs nodes.now (C.sizes cache.old (H.held chain.old)) }
    requires few { length (needed_pairs (specs_of nodes.now) plan.now) < 2 ^ 32 }
    requires permits { 2 ^ 32 ≤ K.permits purse.old }
    ensures { RendersStrips K.Op.meanings nodes.now node plan.now strips.old strips.new
        (render_state H.ChainMeaning S.SourceTiles C.PairStore sources.old cache.old chain.old (K.permits purse.old))
        (render_state H.ChainMeaning S.SourceTiles C.PairStore sources.new cache.new chain.new (K.permits purse.new)) result }
{
    let inputs = all_inputs(alloc, nodes)?;
    let by = Evaluator {
        kit,
        alloc,
        nodes,
        inputs: inputs.as_slice(),
    };
    let mut ahead = AheadTiles::new(alloc);
    let mut applied = 0;
    let mut reused = 0;
    for (index, strip) in plan.iter().enumerate() {
        let later = &plan[index + 1..];
        let counts = add_part(
            &by, node, strip, later, sources, cache, chain, purse, strips, workers, &mut ahead,
        )?;
        applied += counts.applied;
        reused += counts.reused;
    }
    Ok(LookCounts { applied, reused })
}
