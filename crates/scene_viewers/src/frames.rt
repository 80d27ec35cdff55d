//! Frames over one scene.

ghost use Rattle.std.specs.Prelude.{◌≡◌, ◌≤◌, ◌^◌, Err, IfErr, IfOk, OnOk, false, true};
ghost use Rattle.model_graphs.specs.{Facts.specs_of, Permits.Spent};
ghost use Rattle.model_states.specs.Edits.{has_node};
ghost use Rattle.node_cache.specs.{HandTiles.IsHandCache, NodeNames.pairs_in};
ghost use Rattle.scene_viewers.specs.Frames.{HasShape, IfUnknown, IsAfterEntering, LacksNode, counted_for, frame_of, unknown_node};
ghost use Rattle.scene_viewers.specs.Viewers.{AreRightFor, AreSizedFor};
ghost use Rattle.scene_viewers.specs.declared.refused.ViewRefused.TheVariants.{UnknownNode};

use crate::refused::ViewRefused;
use node_cache::HandCache;
use op_contracts::OpKit;
use patch_abyss::Patch;
use plane_rect::{Name, Rect};
use render_workers::{RenderRefused, Scene, render};
use std::alloc::Global;
use std::thread::Threads;
use strip_patches::PictureForm;
use worker_pieces::Workers;

/// Renders a rectangle of a node of a scene, with the tiles that are cached for it.
pub(crate) fn frame<K: OpKit + Sync, R: Threads + Sync>(
    alloc: Global,
    threads: &R,
    kit: &K,
    scene: &Scene<K::Op>,
    cache: &mut HandCache,
    purse: &mut K::Purse,
    node: Name,
    rect: Rect,
) -> Result<Patch, ViewRefused>
where
    K::Op: Sync,
    K::Permit: Send,
    requires over { IsHandCache cache.old.tiles.entries cache.old.tiles.cap }
    requires sized { AreSizedFor scene.now cache.old.tiles.entries }
    requires permits { 2 ^ 32 ≤ K.permits purse.old }
    ensures over { IsHandCache cache.new.tiles.entries cache.new.tiles.cap }
    ensures sized { AreSizedFor scene.now cache.new.tiles.entries }
    ensures right { AreRightFor K.Op.meanings scene.now cache.old.tiles.entries → AreRightFor K.Op.meanings scene.now cache.new.tiles.entries }
    ensures shown { AreRightFor K.Op.meanings scene.now cache.old.tiles.entries →
        IfOk result (λ patch. patch ≡ frame_of K.Op.meanings scene.now node rect) }
    ensures shape { IfOk result (λ patch. HasShape scene.now node rect patch) }
    ensures pairs { OnOk result (pairs_in cache.new.tiles.entries
        ≡ (counted_for K.Op.meanings scene.now node rect (pairs_in cache.old.tiles.entries)).list) }
    ensures spent { OnOk result (Spent (K.permits purse.old) (K.permits purse.new)
        (counted_for K.Op.meanings scene.now node rect (pairs_in cache.old.tiles.entries)).applied) }
    ensures known { OnOk result (has_node (specs_of scene.now.nodes) node ≡ true) }
    ensures unknown { has_node (specs_of scene.now.nodes) node ≡ false → result ≡ Err (UnknownNode scene.now.number) }
    ensures exactly { IfErr result (IfUnknown (LacksNode scene.now node)) }
    ensures only { IfErr result IsAfterEntering }
    ensures unchanged { IfErr result (IfUnknown (λ number. (pairs_in cache.new.tiles.entries ≡ pairs_in cache.old.tiles.entries)
        × (K.permits purse.new ≡ K.permits purse.old))) }
{
    let mut sources = scene.tiles();
    let workers = Workers::new(threads, 1);
    let done = render(
        kit,
        alloc,
        scene.nodes(),
        &mut sources,
        cache,
        &mut (),
        purse,
        node,
        0,
        rect,
        u32::MAX,
        PictureForm::Patch,
        workers,
    );
    match done {
        Ok(done) => Ok(done.picture.into_patch()),
        Err(refused) => Err(frame_refused(refused, scene.number())),
    }
}

/// Returns why a frame is refused: the rectangle is in limits, no strip needs so many tiles, and there is no
/// swap, so what is left is that the node is unknown or that memory ran out.
fn frame_refused(refused: RenderRefused, number: u64) -> ViewRefused
    ensures there { refused ≡ unknown_node → result ≡ UnknownNode number }
    ensures only { IfUnknown (λ n. (refused ≡ unknown_node) × (n ≡ number)) result }
    ensures after { IsAfterEntering result }
{
    match refused {
        RenderRefused::UnknownNode => ViewRefused::UnknownNode { number },
        _ => ViewRefused::NoMemory,
    }
}
