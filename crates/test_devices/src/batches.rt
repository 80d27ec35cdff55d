//! Batches of work, whose pieces wait for one another or are many, few or none.

ghost use Rattle.std.specs.Prelude.{◌≤◌};

use crate::check::check;
use alloc_basics::NoMemory;
use std::alloc::Global;
use std::process::Abort;
use std::sync::atomic::{AtomicU64, Ordering};
use std::thread::Threads;
use work_batches::work_batch;
use worker_pieces::Workers;

/// How often a piece that waits looks at most.
const LOOKS: u64 = 1_000_000_000;

/// Returns what so many workers make of these pieces by adding ten to each.
fn ten_more(
    rt: &(impl Abort + Threads + Sync),
    alloc: Global,
    pieces: Vec<u32>,
    workers: u32,
) -> Vec<u32>
    requires { (1 ≤ workers) × (workers ≤ 16) }
{
    work_batch(
        rt,
        alloc,
        pieces,
        workers,
        &|piece: u32| -> u32 { piece.wrapping_add(10) },
    )
    .expect(rt, "memory")
}

/// Returns so many numbers, one after another from the first on.
fn numbers(rt: &impl Abort, alloc: Global, first: u32, count: u32) -> Vec<u32> {
    let mut numbers = Vec::new(alloc);
    for index in 0..count {
        numbers.push(first.wrapping_add(index)).expect(rt, "memory");
    }
    numbers
}

/// Looks until a count is as high as this. Returns whether that came in time.
fn comes(count: &AtomicU64, wanted: u64) -> bool {
    for _look in 0..LOOKS {
        if count.load(Ordering::SeqCst) >= wanted {
            return true;
        }
    }
    false
}

#[test]
fn answers_come_by_the_numbers_of_their_pieces(rt: HostRuntime) {
    for workers in 1..17 {
        let pieces = vec![in rt.alloc(); 3, 1, 2].expect(&rt, "memory");
        let made = ten_more(&rt, rt.alloc(), pieces, workers);
        check(&rt, workers, made.as_slice(), [13, 11, 12].as_slice());
    }
}

#[test]
fn each_piece_is_answered_once(rt: HostRuntime) {
    for count in [0, 1, 1_000] {
        let wanted = numbers(&rt, rt.alloc(), 10, count);
        for workers in 1..17 {
            let pieces = numbers(&rt, rt.alloc(), 0, count);
            let made = ten_more(&rt, rt.alloc(), pieces, workers);
            assert!(rt; made == wanted, "{count} pieces, {workers} workers");
        }
    }
}

#[test]
fn one_worker_does_what_another_has_no_time_for(rt: HostRuntime) {
    let begun = AtomicU64::new(0);
    let ended = AtomicU64::new(0);
    let pieces = numbers(&rt, rt.alloc(), 0, 4);
    // The first piece that begins waits until the three others have ended.
    let in_time = work_batch(
        &rt,
        rt.alloc(),
        pieces,
        2,
        &|_piece: u32| -> bool {
            if begun.fetch_add(1, Ordering::SeqCst) == 0 {
                return comes(&ended, 3);
            }
            let _before = ended.fetch_add(1, Ordering::SeqCst);
            true
        },
    );
    let in_time = in_time.expect(&rt, "memory");
    check(&rt, "in time", in_time.as_slice(), [true; 4].as_slice());
}

#[test]
fn two_pieces_are_done_at_the_same_time(rt: HostRuntime) {
    let begun = AtomicU64::new(0);
    let pieces = numbers(&rt, rt.alloc(), 0, 2);
    let in_time = work_batch(
        &rt,
        rt.alloc(),
        pieces,
        2,
        &|_piece: u32| -> bool {
            let _before = begun.fetch_add(1, Ordering::SeqCst);
            comes(&begun, 2)
        },
    );
    let in_time = in_time.expect(&rt, "memory");
    check(&rt, "in time", in_time.as_slice(), [true; 2].as_slice());
}

/// Returns the squares of the numbers below 6, made by so many workers. Memory runs out at the job of one number, if
/// that is below 6.
fn squares(
    rt: &(impl Abort + Threads + Sync),
    alloc: Global,
    count: u32,
    scarce: u32,
) -> Result<Vec<u32>, NoMemory> {
    let jobs = numbers(rt, alloc, 0, 6);
    let workers = Workers::new(rt, count);
    workers.batch(alloc, jobs, |number: u32| -> Result<u32, NoMemory> {
        if number == scarce {
            return Err(NoMemory);
        }
        Ok(number.wrapping_mul(number))
    })
}

#[test]
fn a_batch_of_workers_makes_what_one_would(rt: HostRuntime) {
    for count in [0, 1, 2, 3, 16, 17] {
        let made = squares(&rt, rt.alloc(), count, 6).expect(&rt, "memory");
        check(&rt, count, made.as_slice(), [0, 1, 4, 9, 16, 25].as_slice());
    }
}

#[test]
fn memory_that_runs_out_in_one_piece_refuses_the_batch(rt: HostRuntime) {
    for count in [1, 2, 3, 16] {
        for scarce in 0..6 {
            let made = squares(&rt, rt.alloc(), count, scarce);
            assert!(rt; made.is_err(), "{count} workers, scarce at {scarce}");
        }
    }
}
