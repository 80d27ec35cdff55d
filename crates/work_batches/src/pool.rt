//! The rule of a batch, and what each step on its deque does to what is seen of a pass. There are five kinds of step: a
//! deque is made, a stealer is made, a piece is pushed, popped or stolen.

ghost use Rattle.std.specs.Prelude.{◌≡◌, ◌+◌, ◌-◌, [], ◌++◌, length};
ghost use Rattle.work_batches.specs.Pool.{AllTaken, Each, IsPushed, Shared, hand};

use crate::pieces::{Hand, Piece};
use crossbeam_deque::protocol::{Join, Lesson, Outcome, Protocol, Split};
use crossbeam_deque::{Pass, Stealer, Worker};
use std::alloc::Global;

/// The rule that each piece that was pushed is in the deque or was taken by one pass, and is there once.
pub struct EachOnce;

impl<T> Protocol<Piece<T>, Hand<T>> for EachOnce {
    ghost holds = { Shared };

    ghost first = { hand 1024 [] [] };

    ghost guest = { hand 0 [] [] };
}

/// The deque's owner, who pushes all pieces and pops some.
pub type Owner<T> = Worker<Piece<T>, Global, Hand<T>, EachOnce>;

/// What other threads steal pieces by.
pub type Thief<T> = Stealer<Piece<T>, Global, Hand<T>, EachOnce>;

/// The pass of one other thread.
pub type ThiefPass<T> = Pass<Piece<T>, Hand<T>>;

/// One part of the owner's for a thief, and back to the owner with what the thief took.
pub(crate) struct Part;

impl<T> Split<Hand<T>> for Part {
    ghost left = { λ v. hand (v.parts - 1) v.pushed v.taken };

    ghost right = { λ v. hand 1 v.pushed [] };
}

impl<T> Join<Hand<T>> for Part {
    ghost both = { λ v w. hand (v.parts + w.parts) v.pushed (v.taken ++ w.taken) };

    ghost spent = { hand 0 [] [] };
}

/// A push by who has all parts.
pub(crate) struct Pushed;

impl<T> Outcome<Piece<T>, Hand<T>> for Pushed {
    ghost then = { λ v xs w. w ≡ hand v.parts (v.pushed ++ xs) v.taken };
}

/// A steal by who has a part, and so knows that the piece is one of the batch.
pub(crate) struct Stolen;

impl<T> Outcome<Piece<T>, Hand<T>> for Stolen {
    ghost then = { λ v xs w. (w ≡ hand v.parts v.pushed (v.taken ++ xs)) × Each (IsPushed v.pushed) xs };
}

/// A pop by who has a part. Who has all parts and finds the deque empty took all pieces.
pub(crate) struct Popped;

impl<T> Outcome<Piece<T>, Hand<T>> for Popped {
    ghost then = { λ v xs w. (w ≡ hand v.parts v.pushed (v.taken ++ xs)) × Each (IsPushed v.pushed) xs };

    ghost empty = { λ v. v.parts ≡ 1024 → length v.taken ≡ length v.pushed };
}

/// That who has all parts took what isn't in the deque.
pub(crate) struct Whole;

impl<T> Lesson<Piece<T>, Hand<T>> for Whole {
    ghost fact = { λ v items. v.parts ≡ 1024 → (length v.taken + length items ≡ length v.pushed) × (items ≡ [] → AllTaken v.pushed v.taken) };
}
