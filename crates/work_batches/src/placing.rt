//! Answers in the order of their numbers.

ghost use Rattle.std.specs.Prelude.{◌≡◌, [], All, IfOk, IsSome, Some, map};
ghost use Rattle.work_batches.specs.Placing.{AreBelow, HaveAnswers};

use crate::pieces::Answer;
use alloc_basics::NoMemory;
use std::alloc::Global;

/// Returns so many empty slots.
fn no_slots<U: Drop>(alloc: Global, count: usize) -> Result<Vec<Option<U>>, NoMemory>
    ensures { IfOk result (λ slots. HaveAnswers count slots.items []) }
{
    let mut slots = Vec::with_capacity(alloc, count)?;
    for _ in 0..count {
        slots.push(None)?;
    }
    Ok(slots)
}

/// Puts each answer into the slot of its number.
pub(crate) fn slots_of<U: Drop>(
    alloc: Global,
    count: usize,
    done: Vec<Answer<U>>,
) -> Result<Vec<Option<U>>, NoMemory>
    requires { AreBelow count done.items }
    ensures { IfOk result (λ slots. HaveAnswers count slots.items done.items) }
{
    let mut slots = no_slots(alloc, count)?;
    for answer in done {
        let Answer { number, value } = answer;
        slots[number as usize] = Some(value);
    }
    Ok(slots)
}

/// Returns what the slots hold, each of which is full.
pub(crate) fn values_of<U: Drop>(alloc: Global, slots: Vec<Option<U>>) -> Result<Vec<U>, NoMemory>
    requires { All IsSome slots.items }
    ensures { IfOk result (λ values. map Some values.items ≡ slots.items) }
{
    let mut values = Vec::with_capacity(alloc, slots.len())?;
    for slot in slots {
        match slot {
            Some(value) => values.push(value)?,
            None => unreachable!(),
        }
    }
    Ok(values)
}
