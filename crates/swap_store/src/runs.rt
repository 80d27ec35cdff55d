//! Free runs of blocks, in order.

ghost use Rattle.std.specs.Prelude.{◌≡◌, ℕ, ◌+◌, ◌<◌, ◌≤◌, ◌^◌, ◌↔◌, ◌⊎◌, length, slice_index_or, vec_len, vec_capacity, IsTrue, position, nat_le};
ghost use Rattle.swap_store.specs.Run.{BeginsWith, EndsBefore, HasBlock, IsRunList, InBlocks, longest};

use chain_owners::Run;

/// Returns how many blocks the longest of these runs has; 0 where there is none.
pub(crate) fn longest_run(runs: &[Run]) -> u32
    ensures { result ≡ longest runs.now }
{
    let mut most = 0;
    for run in runs {
        most = most.max(run.count);
    }
    most
}

/// Returns the index of the lowest of these runs that has at least `needed` blocks.
pub(crate) fn fitting_run(runs: &[Run], needed: u32) -> Option<usize>
    ensures { result ≡ position (λ run. nat_le needed run.count) runs.now }
{
    runs.iter().position(|run| run.count >= needed)
}

/// Takes the first `count` blocks of the run of this index away. Their memory is kept.
pub(crate) fn take_first(runs: &mut Vec<Run>, index: usize, count: u32)
    requires known { index < vec_len runs.old }
    requires taken { 1 ≤ count }
    requires long { (d : Run) → count ≤ (slice_index_or runs.old.items index d).count }
    requires list { IsRunList 0 (2 ^ 20) runs.old.items }
    ensures list { IsRunList 0 (2 ^ 20) runs.new.items }
    ensures blocks { (d : Run) (block : ℕ) → HasBlock runs.new.items block
        ↔ (HasBlock runs.old.items block × ¬ InBlocks block (slice_index_or runs.old.items index d).first count) }
    ensures shorter { vec_len runs.new ≤ vec_len runs.old }
    ensures capacity { vec_capacity runs.new ≡ vec_capacity runs.old }
{
    let run = runs[index];
    if run.count == count {
        runs.remove(index);
    } else {
        runs[index] = Run {
            first: run.first + count,
            count: run.count - count,
        };
    }
}

/// Returns how many of these runs begin before a block.
fn runs_before(runs: &[Run], block: u32) -> usize
    requires { IsRunList 0 (2 ^ 20) runs.now }
    ensures within { result ≤ length runs.now }
    ensures before { (k : ℕ) (d : Run) → k < result → (slice_index_or runs.now k d).first < block }
    ensures following { (k : ℕ) (d : Run) → result ≤ k → k < length runs.now → block ≤ (slice_index_or runs.now k d).first }
{
    runs.partition_point(|run| run.first < block)
}

/// Returns whether the run before this index ends just before a block.
fn ends_before(runs: &[Run], index: usize, block: u32) -> bool
    requires list { IsRunList 0 (2 ^ 20) runs.now }
    requires within { index ≤ length runs.now }
    ensures { IsTrue result ↔ EndsBefore runs.now index block }
{
    match index.checked_sub(1) {
        Some(last) => runs[last].first + runs[last].count == block,
        None => false,
    }
}

/// Returns whether the run of this index begins with a block.
fn begins_with(runs: &[Run], index: usize, block: u32) -> bool
    ensures { IsTrue result ↔ BeginsWith runs.now index block }
{
    match runs.get(index) {
        Some(run) => run.first == block,
        None => false,
    }
}

/// Gives these blocks back to the runs, of which none has any of them. Takes no memory.
pub(crate) fn give_back(runs: &mut Vec<Run>, first: u32, count: u32)
    requires given { 1 ≤ count }
    requires bound { first + count ≤ 2 ^ 20 }
    requires list { IsRunList 0 (2 ^ 20) runs.old.items }
    requires apart { (block : ℕ) → InBlocks block first count → ¬ HasBlock runs.old.items block }
    requires room { vec_len runs.old < vec_capacity runs.old }
    ensures list { IsRunList 0 (2 ^ 20) runs.new.items }
    ensures blocks { (block : ℕ) → HasBlock runs.new.items block
        ↔ (HasBlock runs.old.items block ⊎ InBlocks block first count) }
    ensures longer { vec_len runs.new ≤ vec_len runs.old + 1 }
    ensures capacity { vec_capacity runs.new ≡ vec_capacity runs.old }
{
    let at = runs_before(runs, first);
    let joins_left = ends_before(runs, at, first);
    let joins_right = begins_with(runs, at, first + count);
    match (joins_left, joins_right) {
        (true, true) => {
            let left = runs[at - 1];
            let right = runs.remove(at);
            runs[at - 1] = Run {
                first: left.first,
                count: left.count + count + right.count,
            };
        }
        (true, false) => {
            let left = runs[at - 1];
            runs[at - 1] = Run {
                first: left.first,
                count: left.count + count,
            };
        }
        (false, true) => {
            let right = runs[at];
            runs[at] = Run {
                first,
                count: count + right.count,
            };
        }
        (false, false) => runs.insert(at, Run { first, count }).unwrap(),
    }
}
