//! Commits, undos and redos of buffers.

ghost use Rattle.std.specs.Prelude.{◌≡◌, ◌<◌, ◌≤◌, ◌+◌, ◌-◌, ◌++◌, ◌∷◌, [], IfOk, List, Some, length, slice_get, take};
ghost use Rattle.std.specs.VecDeque.{deque_capacity, deque_len};
ghost use Rattle.chain_owners.specs.Owners.{Owns};
ghost use Rattle.pixel_formats.specs.Limits.{max_undoable};
ghost use Rattle.root_tiles.specs.Chains.{Leaves, chain_state};
ghost use Rattle.buffer_view.specs.BufferTables.{AreBuffersOver, BufferTable, buffers_names};
ghost use Rattle.session_states.specs.OverChains.{AreAllOver, AreAllSame, AreShared, AreVersionsOver, IsReleased, names_of_all, versions_names};
ghost use Rattle.session_states.specs.Versions.{IsMoved, IsOneOf, after_commit, all_versions, versions_after, versions_ahead};

use crate::versions::BufferVersions;
use alloc_basics::NoMemory;
use buffer_view::Buffers;
use chain_contracts::TileChain;
use model_states::{Direction, MAX_UNDOABLE};
use std::collections::VecDeque;
use std::mem;

impl BufferVersions {
    /// Returns buffers that are equal to those that are edited, and owners of the same names, for a
    /// [`BufferVersions::commit`]. Takes one look at each of their tiles, and copies none.
    ///
    /// # Errors
    ///
    /// `NoMemory` if memory runs out.
    pub fn share_working<C: TileChain>(&self, chain: &mut C) -> Result<Buffers, NoMemory>
        requires { AreVersionsOver self.now (C.held chain.old) }
        ensures shared { IfOk result (λ shared. shared ≡ self.now.working) }
        ensures shared_over { IfOk result (λ shared. AreBuffersOver shared (C.held chain.new)) }
        ensures kept { AreShared self.now result
            (chain_state C.ChainMeaning chain.old) (chain_state C.ChainMeaning chain.new) }
    {
        self.share(chain, self.working())
    }

    /// Returns buffers that are equal to those of the first state ahead in a direction, and owners of the same names,
    /// for a [`BufferVersions::step`]. Takes one look at each of their tiles, and copies none.
    ///
    /// # Errors
    ///
    /// `NoMemory` if memory runs out.
    pub fn share_ahead<C: TileChain>(
        &self,
        chain: &mut C,
        direction: Direction,
    ) -> Result<Buffers, NoMemory>
        requires over { AreVersionsOver self.now (C.held chain.old) }
        requires some { 0 < length (versions_ahead direction self.now) }
        ensures shared { IfOk result (λ shared. slice_get (versions_ahead direction self.now) 0 ≡ Some shared) }
        ensures shared_over { IfOk result (λ shared. AreBuffersOver shared (C.held chain.new)) }
        ensures kept { AreShared self.now result
            (chain_state C.ChainMeaning chain.old) (chain_state C.ChainMeaning chain.new) }
    {
        self.share(chain, self.first_ahead(direction))
    }

    /// Returns buffers that are equal to one of the versions, and owners of the same names.
    fn share<C: TileChain>(&self, chain: &mut C, buffers: &Buffers) -> Result<Buffers, NoMemory>
        requires over { AreVersionsOver self.now (C.held chain.old) }
        requires one { IsOneOf buffers.now (all_versions self.now) }
        ensures shared { IfOk result (λ shared. shared ≡ buffers.now) }
        ensures shared_over { IfOk result (λ shared. AreBuffersOver shared (C.held chain.new)) }
        ensures kept { AreShared self.now result
            (chain_state C.ChainMeaning chain.old) (chain_state C.ChainMeaning chain.new) }
    {
        buffers.snapshot(chain)
    }

    /// Returns the buffers of the first state ahead in a direction.
    fn first_ahead(&self, direction: Direction) -> &Buffers
        requires { 0 < length (versions_ahead direction self.now) }
        ensures { slice_get (versions_ahead direction self.now) 0 ≡ Some result.now }
    {
        match direction {
            Direction::Undo => &self.undoable[0],
            Direction::Redo => &self.redoable[0],
        }
    }

    /// Commits the buffers that are edited, of which `shared` are equal ones: they become those of the last
    /// state. Nothing can be redone after it, and what can't be undone to any more is released. Takes no memory.
    pub fn commit<C: TileChain>(&mut self, chain: &mut C, shared: Buffers)
        requires over { AreVersionsOver self.old (C.held chain.old) }
        requires shared { shared ≡ self.old.working }
        requires shared_over { AreBuffersOver shared (C.held chain.old) }
        requires owned { Owns (C.held chain.old) (buffers_names shared ++ versions_names self.old) }
        ensures committed { self.new ≡ after_commit self.old }
        ensures released { IsReleased (buffers_names shared ++ versions_names self.old) self.new
            (chain_state C.ChainMeaning chain.old) (chain_state C.ChainMeaning chain.new) }
    {
        let left = mem::replace(&mut self.latest, shared);
        self.undoable.push_front_reserved(left);
        release_past(&mut self.undoable, chain);
        release_all(&mut self.redoable, chain);
    }

    /// Goes back or on to the first state ahead in a direction, of whose buffers `shared` are equal ones, to be
    /// edited from then on. The buffers that were edited are released. Takes no memory.
    pub fn step<C: TileChain>(&mut self, chain: &mut C, direction: Direction, shared: Buffers)
        requires over { AreVersionsOver self.old (C.held chain.old) }
        requires shared { slice_get (versions_ahead direction self.old) 0 ≡ Some shared }
        requires shared_over { AreBuffersOver shared (C.held chain.old) }
        requires owned { Owns (C.held chain.old) (buffers_names shared ++ versions_names self.old) }
        ensures stepped { (rest : List BufferTable) → versions_ahead direction self.old ≡ shared ∷ rest →
            self.new ≡ versions_after direction self.old shared rest }
        ensures released { IsReleased (buffers_names shared ++ versions_names self.old) self.new
            (chain_state C.ChainMeaning chain.old) (chain_state C.ChainMeaning chain.new) }
    {
        self.move_latest(direction);
        let edited = mem::replace(&mut self.working, shared);
        edited.release(chain);
    }

    /// Makes the first state ahead in a direction, which is there, the last one. What is edited is unchanged.
    fn move_latest(&mut self, direction: Direction)
        requires { 0 < length (versions_ahead direction self.old) }
        ensures { IsMoved direction self.old self.new }
    {
        match direction {
            Direction::Undo => move_first(&mut self.undoable, &mut self.redoable, &mut self.latest),
            Direction::Redo => move_first(&mut self.redoable, &mut self.undoable, &mut self.latest),
        }
    }
}

/// Makes the first of the buffers ahead, which are there, those of the last state, and puts those that were before the
/// ones behind. Takes no memory.
fn move_first(ahead: &mut VecDeque<Buffers>, behind: &mut VecDeque<Buffers>, latest: &mut Buffers)
    requires some { 0 < length ahead.old.items }
    requires room { deque_len behind.old < deque_capacity behind.old }
    ensures taken { ahead.old.items ≡ latest.new ∷ ahead.new.items }
    ensures put { behind.new.items ≡ latest.old ∷ behind.old.items }
    ensures ahead_capacity { deque_capacity ahead.new ≡ deque_capacity ahead.old }
    ensures behind_capacity { deque_capacity behind.new ≡ deque_capacity behind.old }
{
    let first = ahead.pop_front().unwrap();
    let left = mem::replace(latest, first);
    behind.push_front_reserved(left);
}

/// Releases the last of some buffers where they are more than the states that can be undone to, which are one
/// more at most. Takes no memory.
fn release_past<C: TileChain>(states: &mut VecDeque<Buffers>, chain: &mut C)
    requires over { AreAllOver states.old.items (C.held chain.old) }
    requires owned { Owns (C.held chain.old) (names_of_all states.old.items) }
    requires few { length states.old.items ≤ max_undoable + 1 }
    ensures items { states.new.items ≡ take max_undoable states.old.items }
    ensures capacity { deque_capacity states.new ≡ deque_capacity states.old }
    ensures over { AreAllOver states.new.items (C.held chain.new) }
    ensures same { AreAllSame (C.held chain.old) (C.held chain.new) states.new.items }
    ensures left { Leaves 0 (names_of_all states.old.items) (names_of_all states.new.items)
        (chain_state C.ChainMeaning chain.old) (chain_state C.ChainMeaning chain.new) }
{
    if states.len() <= MAX_UNDOABLE {
        return;
    }
    release_last(states, chain);
}

/// Releases the last of some buffers, which are there. Takes no memory.
fn release_last<C: TileChain>(states: &mut VecDeque<Buffers>, chain: &mut C)
    requires over { AreAllOver states.old.items (C.held chain.old) }
    requires owned { Owns (C.held chain.old) (names_of_all states.old.items) }
    requires some { 0 < length states.old.items }
    ensures items { states.new.items ≡ take (length states.old.items - 1) states.old.items }
    ensures capacity { deque_capacity states.new ≡ deque_capacity states.old }
    ensures over { AreAllOver states.new.items (C.held chain.new) }
    ensures owned { Owns (C.held chain.new) (names_of_all states.new.items) }
    ensures same { AreAllSame (C.held chain.old) (C.held chain.new) states.new.items }
    ensures left { Leaves 0 (names_of_all states.old.items) (names_of_all states.new.items)
        (chain_state C.ChainMeaning chain.old) (chain_state C.ChainMeaning chain.new) }
{
    let last = states.pop_back().unwrap();
    last.release(chain);
}

/// Releases all of some buffers. Takes no memory.
fn release_all<C: TileChain>(states: &mut VecDeque<Buffers>, chain: &mut C)
    requires over { AreAllOver states.old.items (C.held chain.old) }
    requires owned { Owns (C.held chain.old) (names_of_all states.old.items) }
    ensures items { states.new.items ≡ [] }
    ensures capacity { deque_capacity states.new ≡ deque_capacity states.old }
    ensures left { Leaves 0 (names_of_all states.old.items) []
        (chain_state C.ChainMeaning chain.old) (chain_state C.ChainMeaning chain.new) }
{
    while !states.is_empty() {
        release_last(states, chain);
    }
}
