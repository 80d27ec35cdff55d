//! Renders that can be followed by others.

ghost use Rattle.std.specs.Prelude.{◌≡◌, ◌≤◌, ◌^◌, true, IfOk};
ghost use Rattle.strip_patches.specs.Shown.{is_patch};
ghost use Rattle.test_renders.specs.Ready.{AreOver, AreReady};

use chain_owners::ChainMeaning;
use graph_commits::Graph;
use node_cache::PairStore;
use op_contracts::{OpKit, SourceTiles};
use plane_rect::{Name, Rect};
use render_workers::{RenderRefused, Rendered, render};
use std::alloc::Global;
use std::thread::Threads;
use strip_patches::PictureForm;
use worker_pieces::Workers;

/// What is asked of a render: a rectangle of a level of a node, of whose strips none needs more tiles than the
/// capacity.
#[derive(Drop)]
pub struct Request {
    pub node: Name,
    pub level: u32,
    pub rect: Rect,
    pub capacity: u32,
}

/// Renders a request over a source of tiles and a cache, in the form of one patch.
///
/// # Errors
///
/// As [`render`].
pub fn show<
    H: ChainMeaning,
    S: SourceTiles<H>,
    P: PairStore<H>,
    K: OpKit + Sync,
    R: Threads + Sync,
>(
    kit: &K,
    alloc: Global,
    graph: &Graph<K::Op>,
    sources: &mut S,
    cache: &mut P,
    chain: &mut H,
    purse: &mut K::Purse,
    request: &Request,
    workers: Workers<'_, R>,
) -> Result<Rendered, RenderRefused>
where
    K::Op: Sync,
    K::Permit: Send,
    requires level { request.now.level ≤ 8 }
    requires over { AreOver (S.is_over sources.old (H.held chain.old)) (P.is_over cache.old (H.held chain.old))
        (S.names sources.old) (P.names cache.old) (H.held chain.old) }
    requires ready { AreReady K.Op.meanings (S.facts sources.old) graph.now.latest.nodes (P.sizes cache.old (H.held chain.old)) }
    requires permits { 2 ^ 32 ≤ K.permits purse.old }
    ensures patch { IfOk result (λ done. is_patch done.picture ≡ true) }
    ensures over { AreOver (S.is_over sources.new (H.held chain.new)) (P.is_over cache.new (H.held chain.new))
        (S.names sources.new) (P.names cache.new) (H.held chain.new) }
    ensures ready { AreReady K.Op.meanings (S.facts sources.new) graph.now.latest.nodes (P.sizes cache.new (H.held chain.new)) }
{
    let (node, level, rect) = (request.node, request.level, request.rect);
    let shown = render(
        kit,
        alloc,
        graph.nodes(),
        sources,
        cache,
        chain,
        purse,
        node,
        level,
        rect,
        request.capacity,
        PictureForm::Patch,
        workers,
    )?;
    Ok(shown)
}
