//! One strip of a request, rendered.

ghost use Rattle.std.specs.Prelude.{◌≡◌, ◌+◌, ◌<◌, ◌≤◌, length};
ghost use Rattle.std.specs.List.{AllByRecursion};
ghost use Rattle.plane_rect.specs.Rectangle.{InLimits};
ghost use Rattle.model_states.specs.Need.{strip_of};
ghost use Rattle.node_tiles.specs.Stated.{shape_at};
ghost use Rattle.strip_renders.specs.Ahead.{AreNext};
ghost use Rattle.strip_renders.specs.Moments.{AreOver, render_state};
ghost use Rattle.strip_renders.specs.Strips.{AreSizedPairs, AreStatedWith, IsStripOf, needed_from};
ghost use Rattle.strip_patches.specs.Shown.{format_in};
ghost use Rattle.render_workers.specs.Renders.{RendersPart};

use chain_owners::{ChainMeaning, SwapRefused};
use node_cache::PairStore;
use op_contracts::{OpKit, SourceTiles};
use roi_planner::Strip;
use std::thread::Threads;
use strip_patches::PictureStrips;
use strip_renders::{AheadTiles, Evaluator, render_strip};
use worker_pieces::Workers;

/// How many of the needed tiles were evaluated and how many the cache had.
#[derive(Clone, Copy, Debug, PartialEq, Eq)]
pub(crate) struct LookCounts {
    pub(crate) applied: u64,
    pub(crate) reused: u64,
}

/// Renders a strip of a request for the node at a position, and adds it to the picture of the request. Tiles of the strips
/// after it may be made ahead, for the calls that render these.
/// Returns how many of its tiles were evaluated and how many the cache had.
///
/// # Errors
///
/// As [`render_strip`].
pub(crate) fn add_part<H: ChainMeaning, S: SourceTiles<H>, C: PairStore<H>, K: OpKit + Sync, R>(
    by: &Evaluator<'_, K>,
    node: u32,
    strip: &Strip,
    later: &[Strip],
    sources: &mut S,
    cache: &mut C,
    chain: &mut H,
    purse: &mut K::Purse,
    strips: &mut PictureStrips,
    workers: Workers<'_, R>,
    ahead: &mut AheadTiles,
) -> Result<LookCounts, SwapRefused>
where
    K::Op: Sync,
    K::Permit: Send,
    R: Threads + Sync,
    requires stated { AreStatedWith K.Op.meanings (S.facts sources.old) by.now.nodes.now by.now.inputs.now }
    requires node { node < length by.now.nodes.now }
    requires rect { strip.now ≡ strip_of K.Op.meanings by.now.nodes.now node strip.now.rect }
    requires limits { InLimits strip.now.rect }
    requires format { format_in strips.old ≡ (shape_at by.now.nodes.now node).format }
    requires strip { IsStripOf K.Op.meanings by.now.nodes.now strip.now }
    requires later { AllByRecursion (IsStripOf K.Op.meanings by.now.nodes.now) later.now }
    requires ahead { AreNext by.now.nodes.now (C.pairs cache.old) (needed_from strip.now later.now 0) ahead.old }
    requires over { AreOver (render_state H.ChainMeaning S.SourceTiles C.PairStore sources.old cache.old chain.old (K.permits purse.old)) }
    requires sized { AreSizedPairs by.now.nodes.now (C.sizes cache.old (H.held chain.old)) }
    requires permits { length (needed_from strip.now later.now 0) ≤ K.permits purse.old + length ahead.old }
    ensures { RendersPart K.Op.meanings by.now.nodes.now node strip.now later.now strips.old strips.new ahead.old ahead.new
        (render_state H.ChainMeaning S.SourceTiles C.PairStore sources.old cache.old chain.old (K.permits purse.old))
        (render_state H.ChainMeaning S.SourceTiles C.PairStore sources.new cache.new chain.new (K.permits purse.new)) result }
{
    let done = render_strip(
        by, sources, cache, chain, purse, strip, later, workers, ahead,
    )?;
    strips.add_strip(
        by.alloc,
        by.nodes,
        &done.tiles,
        sources,
        chain,
        node,
        strip.rect,
    )?;
    Ok(LookCounts {
        applied: done.applied,
        reused: done.reused,
    })
}
