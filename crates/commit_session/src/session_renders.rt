//! Renders of a session.

ghost use Rattle.std.specs.Prelude.{◌≤◌, ◌+◌, ◌^◌};
ghost use Rattle.root_tiles.specs.Chains.{chain_state};
ghost use Rattle.render_workers.specs.Requests.{request};
ghost use Rattle.commit_session.specs.Renders.{RendersIn};
ghost use Rattle.strip_patches.specs.declared.picture.Picture.TheVariants.{Patch as PatchPicture};
ghost use Rattle.commit_session.specs.Seen.{IsOver};

use crate::refused::SessionRefused;
use crate::session::OwnedSession;
use chain_contracts::TileChain;
use op_contracts::OpKit;
use patch_abyss::Patch;
use plane_rect::{Name, Rect};
use std::thread::Threads;
use strip_patches::PictureForm;
use worker_pieces::Workers;

impl<K: OpKit + Sync, C: TileChain> OwnedSession<K, C> {
    /// Returns a rectangle of a level of the image of a node of the last state. Each tile that it needs is looked
    /// up in the cache, or else evaluated, kept there, and paid for by one permit. Takes time in
    /// proportion to the needed tiles and to the rectangle at level 0.
    ///
    /// # Errors
    ///
    /// `Render` with `UnknownNode` exactly where the last state has no node of the name; with `Rect` exactly where
    /// it has, and the rectangle at level 0 is not in limits; with `Strip` exactly where, past these, a strip needs
    /// more tiles than the cache holds. Then nothing has changed. Else `Render` with the swap's causes, and
    /// `NoMemory` if memory runs out: then the cached pairs may have changed, and are right, and permits may be spent. No
    /// refused render is counted.
    pub fn render<R: Threads + Sync>(
        &mut self,
        threads: &R,
        purse: &mut K::Purse,
        node: Name,
        level: u32,
        rect: Rect,
    ) -> Result<Patch, SessionRefused>
    where
        K::Op: Sync,
        K::Permit: Send,
        requires over { IsOver K.Op.same K.Op.meanings self.old.state (C.held self.old.chain) }
        requires level { level ≤ 8 }
        requires permits { 2 ^ 32 ≤ K.permits purse.old }
        ensures { RendersIn K.Op.same K.Op.meanings PictureForm.Patch PatchPicture (request node level rect) result
            self.old.state self.new.state (chain_state C.ChainMeaning self.old.chain) (chain_state C.ChainMeaning self.new.chain)
            (K.permits purse.old) (K.permits purse.new) }
    {
        let workers = Workers::new(threads, self.workers);
        let picture = self.state.render(
            &self.kit,
            &mut self.chain,
            purse,
            node,
            level,
            rect,
            PictureForm::Patch,
            workers,
        )?;
        Ok(picture.into_patch())
    }
}
