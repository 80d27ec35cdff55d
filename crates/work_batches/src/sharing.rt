//! The owner's loop and those of its thieves, side by side.

ghost use Rattle.std.specs.Prelude.{◌≡◌, ◌<◌, ◌+◌, IfOk};
ghost use Rattle.crossbeam_deque.specs.Handles.{IsPassOf, stealer_deque, view, worker_deque, worker_flavor, worker_view};
ghost use Rattle.work_batches.specs.Pool.{Answers, CanDo, HasTakenNone, IsNewThiefs, IsThiefs, OnlyTook, hand};

use crate::pieces::Answer;
use crate::pool::{Owner, Part, Thief, ThiefPass};
use crate::takers::{pop_all, steal_all};
use alloc_basics::NoMemory;
use std::alloc::Global;
use std::thread::{Threads, join};

/// Takes the pass of a thief that has ended into the owner's, and puts the answers of both together.
fn absorbed<T: Drop, U: Drop, F: Fn(T) -> U>(
    mut owner: Owner<T>,
    mine: Result<Vec<Answer<U>>, NoMemory>,
    pass: ThiefPass<T>,
    theirs: Result<Vec<Answer<U>>, NoMemory>,
    _work: &F,
) -> (Owner<T>, Result<Vec<Answer<U>>, NoMemory>)
    requires flavor { worker_flavor owner ≡ 0 }
    requires some { 0 < (worker_view owner).parts }
    requires mine { IfOk mine (λ v. Answers (F.post _work.now) (worker_view owner).taken v.items) }
    requires pass { IsPassOf (worker_deque owner) pass × IsThiefs (worker_view owner).pushed (view pass) }
    requires theirs { IfOk theirs (λ v. Answers (F.post _work.now) (view pass).taken v.items) }
    ensures same { (worker_deque result.0 ≡ worker_deque owner) × (worker_flavor result.0 ≡ 0) }
    ensures view { worker_view result.0 ≡ hand ((worker_view owner).parts + 1) (worker_view owner).pushed (worker_view result.0).taken }
    ensures answers { IfOk result.1 (λ v. Answers (F.post _work.now) (worker_view result.0).taken v.items) }
{
    owner.absorb::<Part>(pass);
    let (Ok(mut all), Ok(mut more)) = (mine, theirs) else {
        return (owner, Err(NoMemory));
    };
    match all.append(&mut more) {
        Ok(()) => (owner, Ok(all)),
        Err(_) => (owner, Err(NoMemory)),
    }
}

/// Has the pieces of the deque done by its owner, on this thread, and by so many thieves, each on a thread of its own.
#[cycle(share)]
pub(crate) fn share_out<T, U, F, S>(
    threads: &S,
    alloc: Global,
    mut owner: Owner<T>,
    thief: &Thief<T>,
    thieves: u32,
    most: usize,
    work: &F,
) -> (Owner<T>, Result<Vec<Answer<U>>, NoMemory>)
where
    T: Send + Drop,
    U: Send + Drop,
    F: Fn(T) -> U + Sync,
    S: Threads + Sync,
    requires callable { CanDo (F.pre work.now) (worker_view owner).pushed }
    requires flavor { worker_flavor owner ≡ 0 }
    requires thief { stealer_deque thief.now ≡ worker_deque owner }
    requires parts { thieves < (worker_view owner).parts }
    requires view { HasTakenNone (worker_view owner) }
    ensures same { (worker_deque result.0 ≡ worker_deque owner) × (worker_flavor result.0 ≡ 0) }
    ensures view { OnlyTook (worker_view owner) (worker_view result.0) }
    ensures answers { IfOk result.1 (λ v. Answers (F.post work.now) (worker_view result.0).taken v.items) }
{
    if thieves == 0 {
        return pop_all(alloc, owner, most, work);
    }
    let pass = owner.another::<Part>();
    let stealing = move || -> (ThiefPass<T>, Result<Vec<Answer<U>>, NoMemory>)
        requires callable { CanDo (F.pre work.now) (view pass).pushed }
        requires pass { IsPassOf (stealer_deque thief.now) pass × IsNewThiefs (view pass) }
        ensures pass { IsPassOf (stealer_deque thief.entry.now) result.0 × IsThiefs (view pass).pushed (view result.0) }
        ensures answers { IfOk result.1 (λ v. Answers (F.post work.entry.now) (view result.0).taken v.items) }
    { steal_all(alloc, thief, pass, most, work) };
    let others = move || -> (Owner<T>, Result<Vec<Answer<U>>, NoMemory>)
        requires callable { CanDo (F.pre work.now) (worker_view owner).pushed }
        requires flavor { worker_flavor owner ≡ 0 }
        requires thief { stealer_deque thief.now ≡ worker_deque owner }
        requires thieves { 0 < thieves }
        requires parts { thieves < (worker_view owner).parts + 1 }
        requires view { HasTakenNone (worker_view owner) }
        ensures same { (worker_deque result.0 ≡ worker_deque owner) × (worker_flavor result.0 ≡ 0) }
        ensures view { OnlyTook (worker_view owner) (worker_view result.0) }
        ensures answers { IfOk result.1 (λ v. Answers (F.post work.entry.now) (worker_view result.0).taken v.items) }
    { share_out(threads, alloc, owner, thief, thieves - 1, most, work) };
    let ((pass, theirs), (owner, mine)) = join(threads, stealing, others);
    absorbed(owner, mine, pass, theirs, work)
}
