//! Facts of buffers, beside others and copied.

ghost use Rattle.std.specs.Prelude.{◌≡◌, IfOk};
ghost use Rattle.std.specs.List.{list_all};
ghost use Rattle.model_graphs.specs.Facts.{fact_of, shape_of_fact};
ghost use Rattle.model_states.specs.Damage.{same_shape};
ghost use Rattle.graph_commits.specs.Graphs.{is_still_there};

use alloc_basics::NoMemory;
use graph_edits::buffer_of;
use model_graphs::BufferFact;
use std::alloc::Global;

/// Returns whether each of these buffers is among others, with its root, its bounds and its format.
pub(crate) fn are_still_there(old: &[BufferFact], new: &[BufferFact]) -> bool
    ensures { result ≡ list_all (is_still_there new.now) old.now }
{
    old.iter().all(|fact| is_still_there(new, fact))
}

/// Returns whether a buffer is among these, with its root, its bounds and its format.
fn is_still_there(buffers: &[BufferFact], fact: &BufferFact) -> bool
    ensures { result ≡ is_still_there buffers.now fact.now }
{
    match buffer_of(buffers, fact.name) {
        Some(found) => fact.root == found.root && has_same_shape(fact, found),
        None => false,
    }
}

/// Returns whether two buffers have one box and one format.
fn has_same_shape(a: &BufferFact, b: &BufferFact) -> bool
    ensures { result ≡ same_shape (shape_of_fact a.now) (shape_of_fact b.now) }
{
    a.bounds == b.bounds && a.format == b.format
}

/// Returns equal facts of buffers.
///
/// # Errors
///
/// `NoMemory` if memory runs out.
pub(crate) fn copy_buffers(
    alloc: Global,
    buffers: &[BufferFact],
) -> Result<Vec<BufferFact>, NoMemory>
    ensures { IfOk result (λ copied. copied.items ≡ buffers.now) }
{
    Ok(buffers.to_vec(alloc)?)
}
