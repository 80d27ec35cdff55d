//! Renders of requests.

ghost use Rattle.std.specs.Prelude.{◌≡◌, ◌<◌, ◌≤◌, ◌^◌, ◌++◌, IfOk, IsSome, Some, length, true};
ghost use Rattle.plane_rect.specs.Rectangle.{scaled};
ghost use Rattle.chain_owners.specs.Owners.{Owns};
ghost use Rattle.model_images.specs.Image.{Image};
ghost use Rattle.model_graphs.specs.{Facts.shapes_of_facts, Shapes.shape_of_image};
ghost use Rattle.model_states.specs.{Need.need, Valid.AreStated};
ghost use Rattle.model_sessions.specs.Sessions.{at_level_zero};
ghost use Rattle.node_tiles.specs.Stated.{shape_at};
ghost use Rattle.strip_renders.specs.{Moments.AreOver, Moments.render_state, Strips.AreSizedPairs};
ghost use Rattle.strip_patches.specs.Shown.{HasStripsOf, format_in, level_in, makes_patch, rect_in, source_in};
ghost use Rattle.render_workers.specs.Renders.{Renders, RendersPlanned};
ghost use Rattle.render_workers.specs.Requests.{request};

use crate::plan::{RequestPlan, plan_of};
use crate::refused::RenderRefused;
use crate::strips::render_strips;
use alloc_basics::NoMemory;
use chain_owners::{ChainMeaning, SwapRefused};
use model_graphs::NodeFact;
use node_cache::PairStore;
use op_contracts::{OpKit, SourceTiles};
use plane_rect::{Name, Rect};
use std::alloc::Global;
use std::thread::Threads;
use strip_patches::{Picture, PictureForm, PictureStrips};
use worker_pieces::Workers;

/// What a request gives: the rectangle of the level of the node's image, how many of the needed tiles
/// were evaluated, and how many the cache had.
#[derive(Drop)]
pub struct Rendered {
    pub picture: Picture,
    pub applied: u64,
    pub reused: u64,
}

/// Returns the picture of a request for the node at a position, to which no strip was added.
///
/// # Errors
///
/// `NoMemory` if memory runs out.
fn no_strips<Op>(
    alloc: Global,
    nodes: &[NodeFact<Op>],
    node: u32,
    level: u32,
    rect: Rect,
    form: PictureForm,
) -> Result<PictureStrips, NoMemory>
    requires node { node < length nodes.now }
    requires level { level ≤ 8 }
    requires source { IsSome (scaled level rect) }
    ensures rect { IfOk result (λ strips. rect_in strips ≡ rect) }
    ensures level { IfOk result (λ strips. level_in strips ≡ level) }
    ensures source { IfOk result (λ strips. scaled level rect ≡ Some (source_in strips)) }
    ensures format { IfOk result (λ strips. format_in strips ≡ (shape_at nodes.now node).format) }
    ensures none { IfOk result (λ strips. (image : Image) → shape_of_image image ≡ shape_at nodes.now node →
        HasStripsOf image 0 strips) }
    ensures patch { form ≡ PictureForm.Patch → IfOk result (λ strips. makes_patch strips ≡ true) }
{
    let fact = &nodes[node as usize];
    // The box is a rectangle of the plane, as this call says.
    let _area = fact.bounds.area();
    PictureStrips::new(alloc, rect, level, fact.format, fact.bounds, form)
}

/// Renders a request that can be: one for a rectangle of a level of the node at a position.
///
/// # Errors
///
/// As [`render`], of which the swap's and `NoMemory` are left.
fn render_planned<H: ChainMeaning, S: SourceTiles<H>, C: PairStore<H>, K: OpKit + Sync, R>(
    kit: &K,
    alloc: Global,
    nodes: &[NodeFact<K::Op>],
    plan: &RequestPlan,
    level: u32,
    rect: Rect,
    form: PictureForm,
    sources: &mut S,
    cache: &mut C,
    chain: &mut H,
    purse: &mut K::Purse,
    workers: Workers<'_, R>,
) -> Result<Rendered, SwapRefused>
where
    K::Op: Sync,
    K::Permit: Send,
    R: Threads + Sync,
    requires level { level ≤ 8 }
    requires source { IsSome (scaled level rect) }
    requires stated { AreStated K.Op.meanings (shapes_of_facts (S.facts sources.old)) nodes.now }
    requires node { plan.now.node < length nodes.now }
    requires plan { plan.now.strips ≡ need K.Op.meanings nodes.now plan.now.node (at_level_zero level rect) }
    requires over { AreOver (render_state H.ChainMeaning S.SourceTiles C.PairStore sources.old cache.old chain.old (K.permits purse.old)) }
    requires sized { AreSizedPairs nodes.now (C.sizes cache.old (H.held chain.old)) }
    requires permits { 2 ^ 32 ≤ K.permits purse.old }
    ensures { RendersPlanned K.Op.meanings nodes.now plan.now.node plan.now.strips level rect form
        (render_state H.ChainMeaning S.SourceTiles C.PairStore sources.old cache.old chain.old (K.permits purse.old))
        (render_state H.ChainMeaning S.SourceTiles C.PairStore sources.new cache.new chain.new (K.permits purse.new)) result }
{
    let mut strips = no_strips(alloc, nodes, plan.node, level, rect, form)?;
    let counts = render_strips(
        kit,
        alloc,
        nodes,
        sources,
        cache,
        chain,
        purse,
        &mut strips,
        plan.node,
        plan.strips.as_slice(),
        workers,
    )?;
    let picture = strips.finish(alloc)?;
    Ok(Rendered {
        picture,
        applied: counts.applied,
        reused: counts.reused,
    })
}

/// Renders a rectangle of a level of the node of a name, strip by strip: for each tile that a strip of the
/// rectangle at level 0 needs, looks its pair up in the cache, and evaluates and keeps the tile where it
/// isn't there. One permit is spent for each tile that is evaluated. Over images that are known, and where
/// the cached pairs are right, the picture is that rectangle of the level of the node's image, whatever the
/// cache had; the cached pairs and both counts are those of the list after these pairs are looked up, also
/// where no bytes are known. No strip may need more tiles than the capacity, which is tested before
/// anything is looked up. The picture has the form that is asked for. Takes time in proportion to the needed
/// tiles, to the rectangle at level 0, and to the inputs times the nodes for each strip.
///
/// # Errors
///
/// `UnknownNode` exactly where no node has the name; `Rect` exactly where one has, and the rectangle at
/// level 0 is not in limits; `Strip` exactly where, past these, a strip needs more tiles than the
/// capacity, with how many tiles the first such one needs. Then nothing has changed. `SwapFault` only where the
/// swap's count of I/O errors rose in this call, `SwapFull` only where the chain's names and one more for
/// each needed tile can fill the swap, and, where each cached name has one owner, the names of a full cache
/// and one more can too; and `NoMemory` if memory runs out. The cached pairs are then those of a part of
/// the request, and right where they were, and permits may be spent.
pub fn render<H: ChainMeaning, S: SourceTiles<H>, C: PairStore<H>, K: OpKit + Sync, R>(
    kit: &K,
    alloc: Global,
    nodes: &[NodeFact<K::Op>],
    sources: &mut S,
    cache: &mut C,
    chain: &mut H,
    purse: &mut K::Purse,
    node: Name,
    level: u32,
    rect: Rect,
    capacity: u32,
    form: PictureForm,
    workers: Workers<'_, R>,
) -> Result<Rendered, RenderRefused>
where
    K::Op: Sync,
    K::Permit: Send,
    R: Threads + Sync,
    requires level { level ≤ 8 }
    requires stated { AreStated K.Op.meanings (shapes_of_facts (S.facts sources.old)) nodes.now }
    requires sources_over { S.is_over sources.old (H.held chain.old) }
    requires cache_over { C.is_over cache.old (H.held chain.old) }
    requires owned { Owns (H.held chain.old) (S.names sources.old ++ C.names cache.old) }
    requires sized { AreSizedPairs nodes.now (C.sizes cache.old (H.held chain.old)) }
    requires permits { 2 ^ 32 ≤ K.permits purse.old }
    ensures { Renders K.Op.meanings nodes.now (request node level rect) capacity form
        (render_state H.ChainMeaning S.SourceTiles C.PairStore sources.old cache.old chain.old (K.permits purse.old))
        (render_state H.ChainMeaning S.SourceTiles C.PairStore sources.new cache.new chain.new (K.permits purse.new)) result }
{
    let plan = plan_of(kit, alloc, nodes, node, level, rect, capacity)?;
    let done = render_planned(
        kit, alloc, nodes, &plan, level, rect, form, sources, cache, chain, purse, workers,
    )?;
    Ok(done)
}
