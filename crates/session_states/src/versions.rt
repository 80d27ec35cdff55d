//! Versions of buffers.

ghost use Rattle.std.specs.Prelude.{◌≡◌, IfOk, length};
ghost use Rattle.chain_owners.specs.Held.{Held};
ghost use Rattle.buffer_view.specs.BufferTables.{empty_table};
ghost use Rattle.session_states.specs.Versions.{new_versions, versions_ahead};
ghost use Rattle.session_states.specs.OverChains.{AreVersionsOver};

use alloc_basics::NoMemory;
use buffer_view::{Buffers, no_buffers_ask_nothing};
use model_states::{Direction, MAX_UNDOABLE};
use std::alloc::Global;
use std::collections::VecDeque;
use std::marker::Model;

/// Buffers as they are edited, those of the last state, and those of the at most 64 states that can be undone
/// and redone to, the next one first. Each holds names of the chain that the calls are lent, and tiles that
/// several show are held once.
#[derive(Drop)]
pub struct BufferVersions {
    pub(crate) working: Buffers,
    pub(crate) latest: Buffers,
    /// It has room for one more than can be undone to, so that a step takes no memory for it.
    pub(crate) undoable: VecDeque<Buffers>,
    /// The same of a redo.
    pub(crate) redoable: VecDeque<Buffers>,
}

impl Model for BufferVersions {
    ghost use Rattle.std.specs.Prelude.{ℕ, ◌+◌, ◌<◌, ◌≤◌, length};
    ghost use Rattle.std.specs.VecDeque.{deque_capacity};
    ghost use Rattle.pixel_formats.specs.Limits.{max_undoable};
    ghost use Rattle.buffer_view.specs.BufferTables.{BufferTable};
    ghost use Rattle.session_states.specs.Versions.{Versions};

    ghost Value = { Versions BufferTable };

    ghost view = { λ v. record {
      working = v.working;
      latest = v.latest;
      undoable = v.undoable.items;
      redoable = v.redoable.items;
    } };

    ghost invariant = { λ v. (max_undoable < deque_capacity v.undoable) × (max_undoable < deque_capacity v.redoable)
        × (length v.undoable.items + length v.redoable.items ≤ max_undoable) };
}

impl BufferVersions {
    /// Returns the first state, which has no buffers, and no buffers that are edited.
    pub fn new(alloc: Global) -> Result<BufferVersions, NoMemory>
        ensures versions { IfOk result (λ versions. versions ≡ new_versions empty_table) }
        ensures over { IfOk result (λ versions. (held : Held) → AreVersionsOver versions held) }
    {
        no_buffers_ask_nothing();
        let undoable = VecDeque::with_capacity(alloc, MAX_UNDOABLE + 1)?;
        let redoable = VecDeque::with_capacity(alloc, MAX_UNDOABLE + 1)?;
        Ok(BufferVersions {
            working: Buffers::new(alloc),
            latest: Buffers::new(alloc),
            undoable,
            redoable,
        })
    }

    /// Returns the buffers as they are edited.
    pub fn working(&self) -> &Buffers
        ensures { result.now ≡ self.now.working }
    {
        &self.working
    }

    /// Returns the buffers of the last state.
    pub fn latest(&self) -> &Buffers
        ensures { result.now ≡ self.now.latest }
    {
        &self.latest
    }

    /// Returns how many states are ahead in a direction.
    pub fn count_ahead(&self, direction: Direction) -> usize
        ensures { result ≡ length (versions_ahead direction self.now) }
    {
        match direction {
            Direction::Undo => self.undoable.len(),
            Direction::Redo => self.redoable.len(),
        }
    }
}
