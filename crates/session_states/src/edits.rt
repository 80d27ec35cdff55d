//! Edits and reads of the buffers that are edited.

ghost use Rattle.std.specs.Prelude.{◌≡◌, ◌≤◌};
ghost use Rattle.pixel_formats.specs.Limits.{max_level};
ghost use Rattle.model_buffers.specs.BufferEdit.{IsProperEdit};
ghost use Rattle.model_buffers.specs.{Counts.tiles_added};
ghost use Rattle.model_images.specs.TileCounts.{level_tiles};
ghost use Rattle.plane_rect.specs.Rectangle.{InLimits};
ghost use Rattle.root_tiles.specs.Chains.{Leaves, chain_state};
ghost use Rattle.buffer_view.specs.BufferTables.{AreBuffersOver, table_of};
ghost use Rattle.buffer_view.specs.Reads.{GrabsBuffer, box_of_root};
ghost use Rattle.buffer_view.specs.Edits.{EditsBuffers};
ghost use Rattle.session_states.specs.OverChains.{AreVersionsOver, tables_of, versions_names};

use crate::versions::BufferVersions;
use buffer_view::{BufferRefused, Buffers};
use chain_contracts::TileChain;
use model_buffers::BufferEdit;
use patch_abyss::{Abyss, Patch};
use plane_rect::{Name, Rect};
use std::thread::Threads;
use worker_pieces::Workers;

impl BufferVersions {
    /// Makes an edit of the buffers that are edited: the call of [`Buffers`] that it names. All states are
    /// unchanged.
    ///
    /// # Errors
    ///
    /// The call's: then the buffers and their images are unchanged.
    pub fn edit<C: TileChain, R: Threads + Sync>(
        &mut self,
        chain: &mut C,
        edit: &BufferEdit,
        workers: Workers<'_, R>,
    ) -> Result<(), BufferRefused>
        requires over { AreVersionsOver self.old (C.held chain.old) }
        requires proper { IsProperEdit edit.now }
        ensures edited { EditsBuffers edit.now result self.old.working self.new.working
            (chain_state C.ChainMeaning chain.old) (chain_state C.ChainMeaning chain.new) }
        ensures states { self.new ≡ record self.old { working = self.new.working } }
        ensures tables { tables_of self.new (C.held chain.new)
            ≡ record (tables_of self.old (C.held chain.old)) { working = table_of self.new.working (C.held chain.new) } }
        ensures over { AreVersionsOver self.new (C.held chain.new) }
        ensures left { Leaves (tiles_added edit.now) (versions_names self.old) (versions_names self.new)
            (chain_state C.ChainMeaning chain.old) (chain_state C.ChainMeaning chain.new) }
    {
        edit_buffers(&mut self.working, chain, edit, workers)
    }

    /// Returns a rectangle of a level of the image of a buffer that is edited, under a policy outside the
    /// level, as [`Buffers::get`] does. All images are unchanged.
    ///
    /// # Errors
    ///
    /// As [`Buffers::get`].
    pub fn get<C: TileChain>(
        &mut self,
        chain: &mut C,
        name: Name,
        level: u32,
        abyss: Abyss,
        rect: Rect,
    ) -> Result<Patch, BufferRefused>
        requires over { AreVersionsOver self.old (C.held chain.old) }
        requires level { level ≤ max_level }
        requires limits { InLimits rect }
        ensures read { GrabsBuffer name level abyss rect result self.old.working self.new.working
            (chain_state C.ChainMeaning chain.old) (chain_state C.ChainMeaning chain.new) }
        ensures states { self.new ≡ record self.old { working = self.new.working } }
        ensures tables { tables_of self.new (C.held chain.new) ≡ tables_of self.old (C.held chain.old) }
        ensures over { AreVersionsOver self.new (C.held chain.new) }
        ensures left { Leaves (level_tiles (box_of_root self.old.working.layout name) level)
            (versions_names self.old) (versions_names self.new)
            (chain_state C.ChainMeaning chain.old) (chain_state C.ChainMeaning chain.new) }
    {
        self.working.get(chain, name, level, abyss, rect)
    }
}

/// Makes an edit of buffers by their call of its kind.
///
/// # Errors
///
/// The call's.
fn edit_buffers<C: TileChain, R: Threads + Sync>(
    buffers: &mut Buffers,
    chain: &mut C,
    edit: &BufferEdit,
    workers: Workers<'_, R>,
) -> Result<(), BufferRefused>
    requires over { AreBuffersOver buffers.old (C.held chain.old) }
    requires proper { IsProperEdit edit.now }
    ensures { EditsBuffers edit.now result buffers.old buffers.new
        (chain_state C.ChainMeaning chain.old) (chain_state C.ChainMeaning chain.new) }
{
    match edit {
        BufferEdit::Create {
            name,
            format,
            extent,
        } => buffers.create(*name, *format, *extent),
        BufferEdit::Sub { name, parent, rect } => buffers.sub(*name, *parent, *rect),
        BufferEdit::Duplicate { name, from } => buffers.dup(chain, *name, *from),
        BufferEdit::Fill {
            name,
            rect,
            samples,
        } => buffers.fill(chain, *name, *rect, samples.as_slice()),
        BufferEdit::Put { name, rect, bytes } => {
            buffers.put_raw(chain, *name, *rect, bytes.as_slice(), workers)
        }
        BufferEdit::Copy {
            from,
            to,
            rect,
            dx,
            dy,
        } => buffers.copy(chain, *from, *to, *rect, *dx, *dy),
    }
}
