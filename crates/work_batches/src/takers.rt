//! The steps of a batch: pieces are pushed, then taken one by one and answered, until none is left.

ghost use Rattle.std.specs.Prelude.{◌≡◌, ◌<◌, [], ◌∷◌, ◌++◌, IfNone, IfOk, IfSome, OnOk, length};
ghost use Rattle.crossbeam_deque.specs.Handles.{IsPassOf, stealer_deque, view, worker_deque, worker_flavor, worker_view};
ghost use Rattle.work_batches.specs.Pool.{AllTaken, Answers, CanDo, HasTakenNone, IsNewThiefs, IsPushed, IsThiefs, OnlyTook, hand, numbered};

use crate::pieces::{Answer, Piece};
use crate::pool::{Owner, Popped, Pushed, Stolen, Thief, ThiefPass, Whole};
use alloc_basics::NoMemory;
use crossbeam_deque::Steal;
use std::alloc::Global;

/// How often a thief tries in a row to steal a piece before it ends.
const TRIES: u8 = 64;

/// Steals pieces and answers each, until so many tries in a row found none.
pub(crate) fn steal_all<T, U: Drop, F: Fn(T) -> U>(
    alloc: Global,
    thief: &Thief<T>,
    mut pass: ThiefPass<T>,
    most: usize,
    work: &F,
) -> (ThiefPass<T>, Result<Vec<Answer<U>>, NoMemory>)
    requires callable { CanDo (F.pre work.now) (view pass).pushed }
    requires pass { IsPassOf (stealer_deque thief.now) pass × IsNewThiefs (view pass) }
    ensures pass { IsPassOf (stealer_deque thief.now) result.0 × IsThiefs (view pass).pushed (view result.0) }
    ensures answers { IfOk result.1 (λ v. Answers (F.post work.now) (view result.0).taken v.items) }
{
    let mut done = Vec::new(alloc);
    for _ in 0..most {
        if done.reserve(1).is_err() {
            return (pass, Err(NoMemory));
        }
        match try_often(thief, &mut pass) {
            Some(piece) => done.push_reserved(answer(piece, work)),
            None => break,
        }
    }
    (pass, Ok(done))
}

/// Steals a piece, by so many tries.
fn try_often<T>(thief: &Thief<T>, pass: &mut ThiefPass<T>) -> Option<Piece<T>>
    requires pass { IsPassOf (stealer_deque thief.now) pass.old × (0 < (view pass.old).parts) }
    ensures pass { IsPassOf (stealer_deque thief.now) pass.new }
    ensures some { IfSome result (λ x. view pass.new ≡ hand (view pass.old).parts (view pass.old).pushed ((view pass.old).taken ++ x ∷ [])) }
    ensures pushed { IfSome result (λ x. IsPushed (view pass.old).pushed x) }
    ensures none { IfNone result (view pass.new ≡ view pass.old) }
{
    for _ in 0..TRIES {
        if let Steal::Success(x) = thief.steal_as::<Stolen>(pass) {
            return Some(x);
        }
    }
    None
}

/// Does the work on a piece.
fn answer<T, U, F: Fn(T) -> U>(piece: Piece<T>, work: &F) -> Answer<U>
    requires { F.pre work.now piece.value }
    ensures number { result.number ≡ piece.number }
    ensures value { F.post work.now piece.value result.value }
{
    let Piece { number, value } = piece;
    Answer {
        number,
        value: work(value),
    }
}

/// Pushes every piece, numbered from 0. The deque was made for as many, so that no push asks for memory.
pub(crate) fn push_all<T>(owner: &mut Owner<T>, pieces: Vec<T>) -> Result<(), NoMemory>
where
    T: Drop,
    requires { worker_view owner.old ≡ hand 1024 [] [] }
    ensures same { (worker_deque owner.new ≡ worker_deque owner.old) × (worker_flavor owner.new ≡ worker_flavor owner.old) }
    ensures pushed { OnOk result (worker_view owner.new ≡ hand 1024 (numbered 0 pieces.items) []) }
{
    let mut number = 0u64;
    for value in pieces {
        // No vector has as many items.
        if number == u64::MAX {
            return Err(NoMemory);
        }
        if let Err(_refused) = owner.push_as::<Pushed>(Piece { number, value }) {
            return Err(NoMemory);
        }
        number += 1;
    }
    Ok(())
}

/// Pops pieces and answers each, until the deque is empty at one moment.
pub(crate) fn pop_all<T, U: Drop, F: Fn(T) -> U>(
    alloc: Global,
    mut owner: Owner<T>,
    most: usize,
    work: &F,
) -> (Owner<T>, Result<Vec<Answer<U>>, NoMemory>)
    requires callable { CanDo (F.pre work.now) (worker_view owner).pushed }
    requires flavor { worker_flavor owner ≡ 0 }
    requires view { HasTakenNone (worker_view owner) × (0 < (worker_view owner).parts) }
    ensures same { (worker_deque result.0 ≡ worker_deque owner) × (worker_flavor result.0 ≡ 0) }
    ensures view { OnlyTook (worker_view owner) (worker_view result.0) }
    ensures answers { IfOk result.1 (λ v. Answers (F.post work.now) (worker_view result.0).taken v.items) }
{
    let mut done = Vec::new(alloc);
    for _ in 0..most {
        if done.reserve(1).is_err() {
            return (owner, Err(NoMemory));
        }
        match owner.pop_as::<Popped>() {
            Some(piece) => done.push_reserved(answer(piece, work)),
            None => break,
        }
    }
    (owner, Ok(done))
}

/// Pops the pieces that are left and answers each. All thieves have ended, so that the deque is empty only where each
/// piece has its answer; after a batch in which memory sufficed that is so at once.
pub(crate) fn drain<T, U: Drop, F: Fn(T) -> U>(
    owner: &mut Owner<T>,
    done: &mut Vec<Answer<U>>,
    count: usize,
    work: &F,
) -> Result<(), NoMemory>
    requires callable { CanDo (F.pre work.now) (worker_view owner.old).pushed }
    requires flavor { worker_flavor owner.old ≡ 0 }
    requires view { worker_view owner.old ≡ hand 1024 (worker_view owner.old).pushed (worker_view owner.old).taken }
    requires count { length (worker_view owner.old).pushed ≡ count }
    requires answers { Answers (F.post work.now) (worker_view owner.old).taken done.old.items }
    ensures answers { OnOk result (Answers (F.post work.now) (worker_view owner.new).taken done.new.items) }
    ensures all { OnOk result (AllTaken (worker_view owner.old).pushed (worker_view owner.new).taken) }
{
    while done.len() < count {
        done.reserve(1)?;
        match owner.pop_as::<Popped>() {
            Some(piece) => done.push_reserved(answer(piece, work)),
            None => unreachable!(),
        }
    }
    owner.len_as::<Whole>();
    Ok(())
}
