//! Lists of steps of a graph, each with what is wanted of it.

use crate::briefs::{Brief, add_buffer, edits_of, trial_over, write};
use crate::trial::Trial;
use crate::values::Fields;
use int_ops::IntKit;
use model_states::StateRefused;
use std::alloc::Global;
use std::process::Abort;

/// A step of a graph, or a check of what is there after the steps before it.
#[derive(Clone, Copy)]
pub(crate) enum Step {
    /// Adds a buffer of gray bytes with alpha.
    Add(&'static str),
    /// Takes all buffers but the first away.
    TakeAway,
    /// Commits edits.
    Commit(&'static [Brief]),
    /// Commits that a rectangle of the root `a` was written.
    Write(Fields),
    /// Goes back by one state.
    Undo,
    /// Goes on by one state.
    Redo,
    /// Checks why a commit of edits is refused.
    Refused(&'static [Brief], StateRefused),
    /// Checks that there is nothing to undo.
    First,
    /// Checks that there is nothing to redo.
    Last,
    /// Checks the number of the last state, and what the step to it damaged of its nodes, in their order.
    Damage(u64, &'static [(&'static str, Fields)]),
    /// Checks the number of the last state, and the names of its nodes in their order.
    Nodes(u64, &'static [&'static str]),
}

/// The box of a buffer `a` of gray bytes, and steps of a graph over it.
pub(crate) type Example = (Fields, &'static [Step]);

/// Makes the step of a row.
fn make(rt: &impl Abort, alloc: Global, trial: &mut Trial<IntKit>, row: usize, step: &Step) {
    match step {
        Step::Add(word) => add_buffer(rt, trial, word),
        Step::TakeAway => trial.buffers.truncate(1),
        Step::Commit(briefs) => trial.commit(rt, &edits_of(rt, alloc, briefs), &[]),
        Step::Write(fields) => write(rt, trial, *fields),
        Step::Undo => trial.undo(rt),
        Step::Redo => trial.redo(rt),
        Step::Refused(briefs, wanted) => {
            trial.check_refused(rt, row, &edits_of(rt, alloc, briefs), *wanted);
        }
        Step::First => trial.check_first(rt, row),
        Step::Last => trial.check_last(rt, row),
        Step::Damage(number, rects) => trial.check_damage(rt, alloc, row, *number, rects),
        Step::Nodes(number, names) => trial.check_nodes(rt, alloc, row, *number, names),
    }
}

/// Makes the steps of an example.
pub(crate) fn make_all(rt: &impl Abort, alloc: Global, example: &Example) {
    let (extent, steps) = example;
    let mut trial = trial_over(rt, alloc, *extent);
    for (row, step) in steps.iter().enumerate() {
        make(rt, alloc, &mut trial, row, step);
    }
}
