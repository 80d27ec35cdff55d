//! How many threads work is split among.

ghost use Rattle.std.specs.Prelude.{◌≡◌, ◌<◌, ◌≤◌, All, IfOk, Ok, length, map, nat_lt};
ghost use Rattle.std.specs.List.{AllZip};

use alloc_basics::NoMemory;
use std::alloc::{AllocError, Global};
use std::thread::{Threads, join, join_mut};
use work_batches::work_batch;

/// How much work a piece is worth at least, in nanoseconds: some times what it takes to start its thread.
const MIN_PIECE_NANOSECONDS: u64 = 150_000;

/// How many workers a batch has at most.
const MAX_BATCH_WORKERS: u32 = 16;

/// How many threads work may be split among, with the permission to start them. There is no pool of threads: each call
/// starts threads of its own, which takes 13 to 50 us each. So work is split only where it is worth more than that.
pub struct Workers<'r, R: Threads + Sync> {
    threads: &'r R,
    count: u32,
}

// A derive would ask that the leave itself can be copied, and not only the reference to it.
impl<'r, R: Threads + Sync> Clone for Workers<'r, R> {
    fn clone(&self) -> Result<Workers<'r, R>, AllocError> {
        Ok(*self)
    }
}

impl<'r, R: Threads + Sync> Copy for Workers<'r, R> {}

impl<'r, R: Threads + Sync> Workers<'r, R> {
    /// Makes the leave to split work into at most so many pieces; none and one both leave it whole.
    pub fn new(threads: &'r R, count: u32) -> Workers<'r, R>
        ensures { result.count ≡ count }
    {
        Workers { threads, count }
    }

    /// Returns how many there are; none and one both leave work whole.
    pub fn count(self) -> u32
        ensures { result ≡ self.entry.count }
    {
        self.count
    }

    /// Returns whether there is more than one.
    pub fn are_several(self) -> bool
        ensures { result ≡ nat_lt 1 self.entry.count }
    {
        self.count > 1
    }

    /// Returns as many of these workers as work of about so many nanoseconds is worth, each of a piece of it that is
    /// longer than it takes to start its thread. Work of less than two such pieces is left whole.
    pub fn for_work(self, nanoseconds: u64) -> Workers<'r, R>
        ensures { result.count ≤ self.entry.count }
    {
        let pieces = nanoseconds / MIN_PIECE_NANOSECONDS;
        let count = pieces.min(self.count as u64) as u32;
        Workers {
            threads: self.threads,
            count,
        }
    }

    /// Does each of these jobs once, in pieces of consecutive ones, each piece on a thread of its own, and at most
    /// as many as there are workers; one worker's piece stays on the caller's thread. Returns what the jobs made, in
    /// their order.
    ///
    /// # Errors
    ///
    /// `NoMemory` if memory runs out, in a job or around it.
    pub fn map<
        T: Send + Drop,
        U: Send + Drop,
        F: Fn(T) -> Result<U, NoMemory> + Copy + Send + Sync,
    >(self, alloc: Global, jobs: Vec<T>, job: F) -> Result<Vec<U>, NoMemory>
        requires { All (F.pre job) jobs.items }
        ensures { IfOk result (λ made. AllZip (λ x y. F.post job x (Ok y)) jobs.items made.items) }
    {
        if self.count < 2 {
            return in_turn(alloc, jobs, job);
        }
        in_pieces(self.threads, alloc, jobs, self.count as usize, job)
    }

    /// Does each of these jobs once, handed out one by one to whichever worker has none. The caller's thread is one of
    /// the workers, of which there are at most 16. Returns what the jobs made, in their order. A job that is handed out
    /// costs 35 to 250 ns.
    ///
    /// # Errors
    ///
    /// `NoMemory` if memory runs out, in a job or around it; other jobs may be done all the same.
    pub fn batch<
        T: Send + Drop,
        U: Send + Drop,
        F: Fn(T) -> Result<U, NoMemory> + Copy + Send + Sync,
    >(self, alloc: Global, jobs: Vec<T>, job: F) -> Result<Vec<U>, NoMemory>
        requires { All (F.pre job) jobs.items }
        ensures { IfOk result (λ made. AllZip (λ x y. F.post job x (Ok y)) jobs.items made.items) }
    {
        if self.count < 2 {
            return in_turn(alloc, jobs, job);
        }
        let workers = self.count.min(MAX_BATCH_WORKERS);
        made_of(alloc, work_batch(self.threads, alloc, jobs, workers, &job)?)
    }

    /// Does two jobs and returns what they gave: at the same time where there are several workers, the first one on a
    /// thread of its own, and else one after the other.
    pub fn both<A: Send, B, F: FnMut() -> A + Send, G: FnMut() -> B>(
        self,
        first: &mut F,
        second: &mut G,
    ) -> (A, B)
        requires { F.pre first.old × G.pre second.old }
        ensures { F.step first.old result.0 first.new × G.step second.old result.1 second.new }
    {
        if self.are_several() {
            return join_mut(self.threads, first, second);
        }
        let given = first();
        (given, second())
    }
}

/// Does these jobs in at most so many pieces, each on a thread of its own. This thread only starts them and waits: the
/// system may put a new thread on the processor of the one that starts it, where it would wait for a piece that was done
/// here.
#[cycle(pieces)]
fn in_pieces<
    R: Threads + Sync,
    T: Send + Drop,
    U: Send + Drop,
    F: Fn(T) -> Result<U, NoMemory> + Copy + Send + Sync,
>(threads: &R, alloc: Global, mut jobs: Vec<T>, pieces: usize, job: F) -> Result<Vec<U>, NoMemory>
    requires { All (F.pre job) jobs.items }
    ensures { IfOk result (λ made. AllZip (λ x y. F.post job x (Ok y)) jobs.items made.items) }
{
    if pieces == 0 || jobs.is_empty() {
        return in_turn(alloc, jobs, job);
    }
    let rest = jobs.split_off(jobs.len().div_ceil(pieces))?;
    let first = move || -> Result<Vec<U>, NoMemory>
        requires { All (F.pre job) jobs.items }
        ensures { IfOk result (λ made. AllZip (λ x y. F.post job x (Ok y)) jobs.items made.items) }
    { in_turn(alloc, jobs, job) };
    let others = move || -> Result<Vec<U>, NoMemory>
        requires { (0 < pieces) × All (F.pre job) rest.items }
        ensures { IfOk result (λ made. AllZip (λ x y. F.post job x (Ok y)) rest.items made.items) }
    { in_pieces(threads, alloc, rest, pieces - 1, job) };
    let (made, more) = join(threads, first, others);
    let mut all = made?;
    all.append(&mut more?)?;
    Ok(all)
}

/// Does these jobs one after another.
fn in_turn<T: Drop, U: Drop, F: Fn(T) -> Result<U, NoMemory> + Copy>(
    alloc: Global,
    jobs: Vec<T>,
    job: F,
) -> Result<Vec<U>, NoMemory>
    requires { All (F.pre job) jobs.items }
    ensures { IfOk result (λ made. AllZip (λ x y. F.post job x (Ok y)) jobs.items made.items) }
{
    let mut made = Vec::with_capacity(alloc, jobs.len())?;
    for next in jobs {
        made.push(job(next)?)?;
    }
    Ok(made)
}

/// Returns what jobs made, unless memory ran out in one of them.
fn made_of<U: Drop>(alloc: Global, answers: Vec<Result<U, NoMemory>>) -> Result<Vec<U>, NoMemory>
    ensures { IfOk result (λ made. map Ok made.items ≡ answers.items) }
{
    let mut made = Vec::with_capacity(alloc, answers.len())?;
    for answer in answers {
        made.push(answer?)?;
    }
    Ok(made)
}
