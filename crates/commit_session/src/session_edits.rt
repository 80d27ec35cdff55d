//! Edits and reads of the buffers of a session.

ghost use Rattle.std.specs.Prelude.{◌≤◌};
ghost use Rattle.pixel_formats.specs.Limits.{max_level};
ghost use Rattle.model_sessions.specs.Steps.{IsProper};
ghost use Rattle.plane_rect.specs.Rectangle.{InLimits};
ghost use Rattle.root_tiles.specs.Chains.{chain_state};
ghost use Rattle.commit_session.specs.Edits.{Edits, step_of};
ghost use Rattle.commit_session.specs.Grabs.{Grabs};
ghost use Rattle.commit_session.specs.Seen.{IsOver};
ghost use Rattle.commit_session.specs.declared.refused.SessionRefused.TheVariants.{Buffer};

use crate::edit::{Edit, EditPart};
use crate::refused::SessionRefused;
use crate::session::OwnedSession;
use chain_contracts::TileChain;
use op_contracts::OpKit;
use patch_abyss::{Abyss, Patch};
use plane_rect::{Name, Rect};
use std::thread::Threads;
use worker_pieces::Workers;

impl<K: OpKit, C: TileChain> OwnedSession<K, C> {
    /// Makes an edit of the buffers that are edited, or adds one of nodes to those that the next commit makes.
    ///
    /// # Errors
    ///
    /// `Buffer` with the cause of an edit of buffers, in its order; else `Buffer` with the swap's, where the edit's
    /// tiles may have been too many; and `NoMemory` if memory runs out. The session is unchanged.
    pub fn edit<R: Threads + Sync>(
        &mut self,
        threads: &R,
        edit: Edit<K::Op>,
    ) -> Result<(), SessionRefused>
        requires over { IsOver K.Op.same K.Op.meanings self.old.state (C.held self.old.chain) }
        requires proper { IsProper (step_of edit) }
        ensures { Edits K.Op.same K.Op.meanings (step_of edit) result self.old.state self.new.state
            (chain_state C.ChainMeaning self.old.chain) (chain_state C.ChainMeaning self.new.chain) }
    {
        match edit.part() {
            EditPart::Buffer(edit) => {
                let workers = Workers::new(threads, self.workers);
                self.state.edit(&mut self.chain, &edit, workers)
            }
            EditPart::Node(edit) => self.state.add_pending(edit),
        }
    }

    /// Returns a rectangle of a level of the image of a buffer that is edited, under a policy outside the
    /// level. Tiles of levels that it makes are held until a tile below them is written. The session is
    /// unchanged, whatever it answers.
    ///
    /// # Errors
    ///
    /// `Buffer` with `UnknownBuffer` exactly where no buffer that is edited has the name; else `Buffer` with the
    /// swap's, where the tiles of levels may have been too many; and `NoMemory` if memory runs out.
    pub fn grab(
        &mut self,
        name: Name,
        level: u32,
        abyss: Abyss,
        rect: Rect,
    ) -> Result<Patch, SessionRefused>
        requires over { IsOver K.Op.same K.Op.meanings self.old.state (C.held self.old.chain) }
        requires level { level ≤ max_level }
        requires limits { InLimits rect }
        ensures { Grabs K.Op.same K.Op.meanings name level abyss rect result self.old.state self.new.state
            (chain_state C.ChainMeaning self.old.chain) (chain_state C.ChainMeaning self.new.chain) }
    {
        self.state.grab(&mut self.chain, name, level, abyss, rect)
    }
}
