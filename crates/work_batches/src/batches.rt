//! The whole of a batch.

ghost use Rattle.std.specs.Prelude.{◌≤◌, All, IfOk};
ghost use Rattle.std.specs.List.{AllZip};

use crate::placing::{slots_of, values_of};
use crate::pool::Owner;
use crate::sharing::share_out;
use crate::takers::{drain, push_all};
use alloc_basics::NoMemory;
use std::alloc::Global;
use std::thread::Threads;

/// Does this work on each of the pieces once, by at most so many workers, of which this thread is one and each other a
/// thread of its own, and returns what it gave, in the order of the pieces. A piece is handed out when a worker has none.
/// It costs 35 to 250 ns, a thread 13 to 50 us.
///
/// # Errors
///
/// `NoMemory` if memory runs out, before any work or after some. The pieces are then gone.
pub fn work_batch<T, U, F, S>(
    threads: &S,
    alloc: Global,
    pieces: Vec<T>,
    workers: u32,
    work: &F,
) -> Result<Vec<U>, NoMemory>
where
    T: Send + Drop,
    U: Send + Drop,
    F: Fn(T) -> U + Sync,
    S: Threads + Sync,
    requires callable { All (F.pre work.now) pieces.items }
    requires workers { (1 ≤ workers) × (workers ≤ 16) }
    ensures { IfOk result (λ made. AllZip (F.post work.now) pieces.items made.items) }
{
    let count = pieces.len();
    let mut owner = Owner::fifo_as(alloc, count)?;
    push_all(&mut owner, pieces)?;
    let thief = owner.stealer()?;
    let thieves = thieves_for(count, workers);
    let (owner, done) = share_out(threads, alloc, owner, &thief, thieves, count, work);
    let mut owner = owner;
    let mut done = done?;
    drain(&mut owner, &mut done, count, work)?;
    let slots = slots_of(alloc, count, done)?;
    values_of(alloc, slots)
}

/// Returns how many workers are beside this thread: no more than there are pieces beside the first.
fn thieves_for(count: usize, workers: u32) -> u32
    requires { (1 ≤ workers) × (workers ≤ 16) }
    ensures { result ≤ 15 }
{
    count.saturating_sub(1).min(workers as usize - 1) as u32
}
