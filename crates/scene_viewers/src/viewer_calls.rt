//! What a viewer does. None of its calls waits.

ghost use Rattle.std.specs.Prelude.{◌≡◌, ◌≤◌, ◌^◌, Err, IfErr, IfOk, OnErr, OnOk, Some, false};
ghost use Rattle.std.specs.Option.{ForSome};
ghost use Rattle.plane_rect.specs.Rectangle.{in_limits};
ghost use Rattle.node_cache.specs.NodeNames.{pairs_in};
ghost use Rattle.scene_hub.specs.HubList.{IsSameHub, scenes};
ghost use Rattle.scene_hub.specs.SceneLog.{Begins, last_of};
ghost use Rattle.scene_viewers.specs.Frames.{Draws, IfOutside, IfRect, IfUnknown, IsAfterEntering, IsFrameOf, IsNotEntered, LacksNode, frame_of};
ghost use Rattle.scene_viewers.specs.Viewers.{AllFollowWholly, AreRightFor, HaveLeft, IsSameAs, LooksUp, ShowsUnknown, fresh_viewer, seen_by, told_by};
ghost use Rattle.scene_viewers.specs.declared.refused.ViewRefused.TheVariants.{Rect as OutsideLimits};

use crate::frames::frame;
use crate::hub_scene::HubScene;
use crate::leaving::leave;
use crate::refused::{ViewRefused, not_entered};
use crate::viewer::{Frame, Viewer};
use alloc_basics::NoMemory;
use model_graphs::OpMeaning;
use node_cache::HandCache;
use op_contracts::OpKit;
use plane_rect::{Name, Rect};
use render_workers::Scene;
use scene_hub::Receipt;
use std::alloc::Global;
use std::thread::Threads;

impl<Op: OpMeaning + Drop> Viewer<Op> {
    /// Makes a viewer without a cached tile, of which each frame leaves `capacity` at most.
    ///
    /// # Errors
    ///
    /// `NoMemory` if memory runs out.
    pub(crate) fn new(
        alloc: Global,
        entrance: scene_hub::Viewer<HubScene<Op>>,
        capacity: u32,
    ) -> Result<Viewer<Op>, NoMemory>
        requires { 1 ≤ capacity }
        ensures { IfOk result (λ viewer. viewer ≡ fresh_viewer capacity entrance.showing.list entrance.told.list) }
    {
        let cache = HandCache::new(alloc, capacity)?;
        Ok(Viewer {
            entrance,
            cache,
            capacity,
            alloc,
        })
    }

    /// Returns the scene that the viewer shows, which is the last that it has seen. The cached tiles are right for it
    /// where each scene that it has seen wholly follows the one before it.
    pub fn scene(&self) -> &Scene<Op>
        ensures last { last_of (seen_by self.now) ≡ Some result.now }
        ensures right { AllFollowWholly Op.meanings (seen_by self.now) → AreRightFor Op.meanings result.now self.now.entries }
    {
        self.entrance.scene().scene()
    }

    /// Takes in a receipt of the viewer's hub: from now on it enters at no earlier scene. The scene that it shows and
    /// the cached tiles are unchanged.
    pub fn told(&mut self, receipt: Receipt<HubScene<Op>>)
        requires { IsSameHub receipt.list self.old.shown }
        ensures told { Begins (told_by self.old) (told_by self.new) × Begins (scenes receipt.list) (told_by self.new) }
        ensures seen { seen_by self.new ≡ seen_by self.old }
        ensures cache { (self.new.entries ≡ self.old.entries) × (self.new.capacity ≡ self.old.capacity) }
        ensures hub { IsSameHub self.old.shown self.new.shown }
    {
        self.entrance.told(receipt);
    }

    /// Enters, and lets the cached tiles go that damages between the scene that it showed and the one that it shows
    /// void, or all of them where more commits lie between than the scene tells of.
    fn enter(&mut self) -> Result<(), ViewRefused>
        ensures entered { OnOk result (Begins (seen_by self.old) (seen_by self.new) × Begins (told_by self.old) (seen_by self.new)) }
        ensures left { OnOk result (HaveLeft self.old self.new) }
        ensures refused { OnErr result (IsSameAs self.old self.new) }
        ensures only { IfErr result IsNotEntered }
        ensures told { told_by self.new ≡ told_by self.old }
        ensures capacity { self.new.capacity ≡ self.old.capacity }
        ensures hub { IsSameHub self.old.shown self.new.shown }
    {
        let before = self.entrance.scene().scene().number();
        if let Err(refused) = self.entrance.enter() {
            return Err(not_entered(refused));
        }
        let scene = self.entrance.scene().scene();
        leave(&mut self.cache, before, scene.number(), scene.damages());
        Ok(())
    }

    /// Renders a rectangle of a node of the scene that the viewer shows, and keeps the most recent of the cached tiles.
    fn draw<K: OpKit<Op = Op> + Sync, R: Threads + Sync>(
        &mut self,
        threads: &R,
        kit: &K,
        purse: &mut K::Purse,
        node: Name,
        rect: Rect,
    ) -> Result<Frame, ViewRefused>
    where
        Op: Sync,
        K::Permit: Send,
        requires permits { 2 ^ 32 ≤ K.permits purse.old }
        ensures lists { (self.new.shown ≡ self.old.shown) × (self.new.told ≡ self.old.told) × (self.new.capacity ≡ self.old.capacity) }
        ensures frame { IfOk result (λ frame. ForSome (last_of (seen_by self.old)) (λ scene. IsFrameOf scene node rect frame.number frame.patch)) }
        ensures image { AllFollowWholly Op.meanings (seen_by self.old) →
            IfOk result (λ frame. ForSome (last_of (seen_by self.old)) (λ scene. frame.patch ≡ frame_of Op.meanings scene node rect)) }
        ensures drawn { OnOk result (ForSome (last_of (seen_by self.old)) (λ scene.
            Draws Op.meanings node rect scene (pairs_in self.old.entries) (pairs_in self.new.entries) self.old.capacity (K.permits purse.old) (K.permits purse.new))) }
        ensures unknown { IfErr result (IfUnknown (λ number. ForSome (last_of (seen_by self.old)) (λ scene. LacksNode scene node number)
            × (pairs_in self.new.entries ≡ pairs_in self.old.entries) × (K.permits purse.new ≡ K.permits purse.old))) }
        ensures only { IfErr result IsAfterEntering }
    {
        let scene = self.entrance.scene().scene();
        let number = scene.number();
        let drawn = frame(
            self.alloc,
            threads,
            kit,
            scene,
            &mut self.cache,
            purse,
            node,
            rect,
        );
        match drawn {
            Ok(patch) => {
                self.cache.trim_to(self.capacity);
                Ok(Frame { number, patch })
            }
            Err(refused) => Err(refused),
        }
    }

    /// Enters, and renders a rectangle of a node of the scene that it then shows. The cached tiles that damages between
    /// void go; then each tile that the frame needs is looked up, and evaluated and cached where it isn't there; of all
    /// cached tiles the most recent stay, as many as the capacity. It waits for nobody.
    ///
    /// # Errors
    ///
    /// `Rect` exactly where the rectangle is not in limits, and `NoEntry` where the hub has ended; the viewer is then as
    /// before. `UnknownNode` exactly where the scene that it entered has no node of the name; then nothing was spent.
    /// `NoMemory` if memory runs out; permits may be spent.
    pub fn render<K: OpKit<Op = Op> + Sync, R: Threads + Sync>(
        &mut self,
        threads: &R,
        kit: &K,
        purse: &mut K::Purse,
        node: Name,
        rect: Rect,
    ) -> Result<Frame, ViewRefused>
    where
        Op: Sync,
        K::Permit: Send,
        requires permits { 2 ^ 32 ≤ K.permits purse.old }
        ensures rect { in_limits rect ≡ false → result ≡ Err OutsideLimits }
        ensures exactly { IfErr result (IfRect (in_limits rect ≡ false)) }
        ensures outside { IfErr result (IfOutside (IsSameAs self.old self.new × (K.permits purse.new ≡ K.permits purse.old))) }
        ensures seen { Begins (seen_by self.old) (seen_by self.new) }
        ensures entered { OnOk result (Begins (told_by self.old) (seen_by self.new)) }
        ensures frame { IfOk result (λ frame. ForSome (last_of (seen_by self.new)) (λ scene. IsFrameOf scene node rect frame.number frame.patch)) }
        ensures image { AllFollowWholly Op.meanings (seen_by self.new) →
            IfOk result (λ frame. ForSome (last_of (seen_by self.new)) (λ scene. frame.patch ≡ frame_of Op.meanings scene node rect)) }
        ensures looked { OnOk result (LooksUp Op.meanings node rect self.old self.new (K.permits purse.old) (K.permits purse.new)) }
        ensures unknown { IfErr result (IfUnknown (ShowsUnknown node self.old self.new (K.permits purse.old) (K.permits purse.new))) }
        ensures told { told_by self.new ≡ told_by self.old }
        ensures capacity { self.new.capacity ≡ self.old.capacity }
        ensures hub { IsSameHub self.old.shown self.new.shown }
    {
        if !rect.in_limits() {
            return Err(ViewRefused::Rect);
        }
        self.enter()?;
        self.draw(threads, kit, purse, node, rect)
    }
}
