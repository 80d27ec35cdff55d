//! What is retained of a history of states, of whatever type.

ghost use Rattle.std.specs.Prelude.{◌≡◌, ◌+◌, ◌<◌, ◌∷◌, [], IfErr, IfOk, IsOkAnd, OnErr, OnOk, length, option_map};
ghost use Rattle.std.specs.VecDeque.{deque_capacity, deque_len};
ghost use Rattle.model_states.specs.Retained.{last_number, retained_from, with_commit};
ghost use Rattle.model_states.specs.declared.refused.StateRefused.TheVariants.{TooManyCommits};
ghost use Rattle.graph_edits.specs.declared.refused.GraphRefused.TheVariants as refusals;
ghost use Rattle.model_states.specs.Directions.{ahead, step_to};
ghost use Rattle.graph_commits.specs.Histories.{IsMoved, first_delta};

use alloc_basics::NoMemory;
use graph_edits::GraphRefused;
use model_states::{Direction, MAX_UNDOABLE, StateRefused};
use std::alloc::Global;
use std::collections::VecDeque;
use std::marker::Model;
use std::mem;

/// A state, and what separates it from another one. A clause sees it as these two.
#[derive(Drop)]
struct Separated<S, D> {
    state: S,
    delta: D,
}

impl<S, D> Model for Separated<S, D> {
    ghost use Rattle.model_states.specs.Retained.{Separated};

    ghost Value = { Separated S D };

    ghost view = { λ separated. record { state = separated.state; delta = separated.delta } };
}

/// The last state and its number, and the states that can be undone and redone to, the next one first. A
/// clause sees it as these four.
#[derive(Drop)]
pub(crate) struct History<S, D> {
    number: u32,
    latest: S,
    undoable: VecDeque<Separated<S, D>>,
    redoable: VecDeque<Separated<S, D>>,
}

impl<S, D> Model for History<S, D> {
    ghost use Rattle.model_states.specs.Retained.{Retained};

    ghost Value = { Retained S D };

    ghost view = { λ history. record {
      number = history.number;
      latest = history.latest;
      undoable = history.undoable.items;
      redoable = history.redoable.items;
    } };
}

impl<S: Drop, D: Drop> History<S, D> {
    /// Returns the history of a first state, which takes no memory.
    pub(crate) fn new(alloc: Global, state: S) -> History<S, D>
        ensures { result ≡ retained_from state }
    {
        History {
            number: 0,
            latest: state,
            undoable: VecDeque::new(alloc),
            redoable: VecDeque::new(alloc),
        }
    }

    /// Returns the number of the last state.
    pub(crate) fn number(&self) -> u64
        ensures { result ≡ self.now.number }
    {
        u64::from(self.number)
    }

    /// Returns the last state.
    pub(crate) fn latest(&self) -> &S
        ensures { result.now ≡ self.now.latest }
    {
        &self.latest
    }

    /// Returns the number that the next state will have.
    ///
    /// # Errors
    ///
    /// `TooManyCommits` where there is no such number.
    pub(crate) fn next_number(&self) -> Result<u64, GraphRefused>
        ensures next { IfOk result (λ number. number ≡ self.now.number + 1) }
        ensures room { OnOk result (self.now.number < last_number) }
        ensures refused { IfErr result (λ refused. refused ≡ refusals.State TooManyCommits) }
        ensures last { OnErr result (self.now.number ≡ last_number) }
    {
        match self.number.checked_add(1) {
            Some(number) => Ok(u64::from(number)),
            None => Err(GraphRefused::State(StateRefused::TooManyCommits)),
        }
    }

    /// Returns what separates the first state ahead in a direction.
    pub(crate) fn delta_ahead(&self, direction: Direction) -> Option<&D>
        ensures { option_map (λ delta. delta.now) result ≡ first_delta (ahead direction self.now) }
    {
        match direction {
            Direction::Undo => delta_of_first(&self.undoable),
            Direction::Redo => delta_of_first(&self.redoable),
        }
    }

    /// Makes a state the last one, separated by a delta from the one before it.
    ///
    /// # Errors
    ///
    /// `NoMemory` if memory runs out: the history is unchanged.
    pub(crate) fn commit(&mut self, state: S, delta: D) -> Result<(), NoMemory>
        requires { self.old.number < last_number }
        ensures committed { OnOk result (self.new ≡ with_commit self.old state delta) }
        ensures unchanged { OnErr result (self.new ≡ self.old) }
    {
        self.undoable.reserve(1)?;
        let left = mem::replace(&mut self.latest, state);
        put_first(&mut self.undoable, left, delta);
        self.undoable.truncate(MAX_UNDOABLE);
        self.redoable.clear();
        self.number += 1;
        Ok(())
    }

    /// Goes to the first state ahead in a direction, which is there.
    ///
    /// # Errors
    ///
    /// `NoMemory` if memory runs out: the history is unchanged.
    pub(crate) fn step(&mut self, direction: Direction) -> Result<(), NoMemory>
        requires number { self.old.number < last_number }
        requires some { 0 < length (ahead direction self.old) }
        ensures stepped { OnOk result
            (IsOkAnd (step_to direction self.old (ahead direction self.old)) (λ step. step.next ≡ self.new)) }
        ensures unchanged { OnErr result (self.new ≡ self.old) }
    {
        match direction {
            Direction::Undo => move_first(
                &mut self.undoable,
                &mut self.redoable,
                &mut self.latest,
            )?,
            Direction::Redo => move_first(
                &mut self.redoable,
                &mut self.undoable,
                &mut self.latest,
            )?,
        }
        self.number += 1;
        Ok(())
    }
}

/// Returns what separates the first of these states.
fn delta_of_first<S, D>(states: &VecDeque<Separated<S, D>>) -> Option<&D>
    ensures { option_map (λ delta. delta.now) result ≡ first_delta states.now.items }
{
    match states.front() {
        Some(first) => Some(&first.delta),
        None => None,
    }
}

/// Makes the first of the states ahead, which is there, the latest one, and puts the one that was before those
/// behind.
///
/// # Errors
///
/// `NoMemory` if memory runs out: nothing has changed.
fn move_first<S: Drop, D: Drop>(
    ahead: &mut VecDeque<Separated<S, D>>,
    behind: &mut VecDeque<Separated<S, D>>,
    latest: &mut S,
) -> Result<(), NoMemory>
    requires { 0 < length ahead.old.items }
    ensures moved { OnOk result
        (IsMoved ahead.old.items behind.old.items latest.old latest.new ahead.new.items behind.new.items) }
    ensures unchanged { OnErr result ((ahead.new.items ≡ ahead.old.items)
        × (behind.new.items ≡ behind.old.items) × (latest.new ≡ latest.old)) }
{
    behind.reserve(1)?;
    let (state, delta) = take_first(ahead);
    let left = mem::replace(latest, state);
    put_first(behind, left, delta);
    Ok(())
}

/// Puts a state before others, for which there is room.
fn put_first<S: Drop, D: Drop>(states: &mut VecDeque<Separated<S, D>>, state: S, delta: D)
    requires { deque_len states.old < deque_capacity states.old }
    ensures { states.new.items ≡ record { state = state; delta = delta } ∷ states.old.items }
{
    states.push_front(Separated { state, delta }).unwrap();
}

/// Takes the first of these states, of which there is one.
fn take_first<S, D>(states: &mut VecDeque<Separated<S, D>>) -> (S, D)
    requires { 0 < length states.old.items }
    ensures { states.old.items ≡ record { state = result.0; delta = result.1 } ∷ states.new.items }
{
    let first = states.pop_front().unwrap();
    let Separated { state, delta } = first;
    (state, delta)
}
