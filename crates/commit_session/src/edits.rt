//! Edits and reads of what is edited.

ghost use Rattle.std.specs.Prelude.{◌≡◌, ◌≤◌, ◌++◌, ◌∷◌, [], IfErr, OnErr, OnOk};
ghost use Rattle.chain_owners.specs.Held.{Held};
ghost use Rattle.pixel_formats.specs.Limits.{max_level};
ghost use Rattle.model_buffers.specs.BufferEdit.{IsProperEdit};
ghost use Rattle.model_buffers.specs.{Table.Table};
ghost use Rattle.model_sessions.specs.Steps.{EditBuffer, EditNode, after_step};
ghost use Rattle.model_sessions.specs.Sessions.{Session};
ghost use Rattle.plane_rect.specs.Rectangle.{InLimits};
ghost use Rattle.root_tiles.specs.Chains.{chain_state};
ghost use Rattle.commit_session.specs.{Edits.Edits, Grabs.Grabs};
ghost use Rattle.commit_session.specs.Seen.{IsOver, IsSessionOf};
ghost use Rattle.commit_session.specs.declared.refused.SessionRefused.TheVariants.{NoMemory};

use crate::refused::SessionRefused;
use crate::state::SessionState;
use crate::written::record_written;
use chain_contracts::TileChain;
use model_buffers::BufferEdit;
use model_graphs::{NodeEdit, OpMeaning};
use patch_abyss::{Abyss, Patch};
use plane_rect::{Name, Rect};
use std::thread::Threads;
use worker_pieces::Workers;

impl<Op: OpMeaning + Drop> SessionState<Op> {
    /// Makes an edit of the buffers that are edited, and records the rectangle of a root that it writes. The
    /// states and the cached pairs are unchanged.
    ///
    /// # Errors
    ///
    /// `Buffer` with the cause of the edit, in its order; else `Buffer` with the swap's, where the edit's tiles
    /// may have been too many; and `NoMemory` if memory runs out. The session is unchanged.
    pub fn edit<C: TileChain, R: Threads + Sync>(
        &mut self,
        chain: &mut C,
        edit: &BufferEdit,
        workers: Workers<'_, R>,
    ) -> Result<(), SessionRefused>
        requires over { IsOver Op.same Op.meanings self.old (C.held chain.old) }
        requires proper { IsProperEdit edit.now }
        ensures { Edits Op.same Op.meanings (EditBuffer edit.now) result self.old self.new
            (chain_state C.ChainMeaning chain.old) (chain_state C.ChainMeaning chain.new) }
    {
        self.written.reserve(1)?;
        self.versions.edit(chain, edit, workers)?;
        record_written(&mut self.written, self.versions.working(), edit);
        Ok(())
    }

    /// Adds an edit of nodes to the pending ones, which the next commit makes. Nothing else changes.
    ///
    /// # Errors
    ///
    /// `NoMemory` if memory runs out: the session is unchanged.
    pub fn add_pending(&mut self, edit: NodeEdit<Op>) -> Result<(), SessionRefused>
        ensures added { OnOk result (self.new ≡ record self.old { pending = self.old.pending ++ edit ∷ [] }) }
        ensures unchanged { OnErr result (self.new ≡ self.old) }
        ensures cause { IfErr result (λ refused. refused ≡ NoMemory) }
        ensures session { (held : Held) (session : Session Table Op) → IsSessionOf Op.same Op.meanings self.old held session →
            OnOk result (IsSessionOf Op.same Op.meanings self.new held
            (record session { history = after_step Op.meanings session.history (EditNode edit) })) }
        ensures over { (held : Held) → IsOver Op.same Op.meanings self.old held → IsOver Op.same Op.meanings self.new held }
    {
        self.pending.push(edit)?;
        Ok(())
    }

    /// Returns a rectangle of a level of the image of a buffer that is edited, under a policy outside the
    /// level. Tiles of levels that it makes are held until a tile below them is written. The session is
    /// unchanged, whatever it answers.
    ///
    /// # Errors
    ///
    /// `Buffer` with `UnknownBuffer` exactly where no buffer that is edited has the name; else `Buffer` with the
    /// swap's, where the tiles of levels may have been too many; and `NoMemory` if memory runs out.
    pub fn grab<C: TileChain>(
        &mut self,
        chain: &mut C,
        name: Name,
        level: u32,
        abyss: Abyss,
        rect: Rect,
    ) -> Result<Patch, SessionRefused>
        requires over { IsOver Op.same Op.meanings self.old (C.held chain.old) }
        requires level { level ≤ max_level }
        requires limits { InLimits rect }
        ensures { Grabs Op.same Op.meanings name level abyss rect result self.old self.new
            (chain_state C.ChainMeaning chain.old) (chain_state C.ChainMeaning chain.new) }
    {
        Ok(self.versions.get(chain, name, level, abyss, rect)?)
    }
}
