//! Expected values are worked out by hand.

use crate::tests::check::check;
use alloc_basics::NoMemory;
use std::alloc::Global;
use std::process::Abort;
use std::thread::Threads;
use worker_pieces::Workers;

/// Returns the squares of the numbers below 6, made by so many workers. Memory runs out at the job of one number, if
/// that is below 6.
fn squares(
    rt: &(impl Abort + Threads + Sync),
    alloc: Global,
    count: u32,
    scarce: u32,
) -> Result<Vec<u32>, NoMemory> {
    let jobs = vec![in alloc; 0, 1, 2, 3, 4, 5].expect(rt, "memory");
    let workers = Workers::new(rt, count);
    workers.map(alloc, jobs, |number: u32| -> Result<u32, NoMemory> {
        if number == scarce {
            return Err(NoMemory);
        }
        Ok(number.wrapping_mul(number))
    })
}

#[test]
fn jobs_are_done_once_and_in_their_order(rt: HostRuntime) {
    for count in [0, 1, 2, 3, 16] {
        let made = squares(&rt, rt.alloc(), count, 6).expect(&rt, "memory");
        check(&rt, count, made.as_slice(), [0, 1, 4, 9, 16, 25].as_slice());
    }
}

#[test]
fn memory_that_runs_out_in_one_piece_refuses_all(rt: HostRuntime) {
    for count in [1, 2, 3, 16] {
        for scarce in 0..6 {
            let made = squares(&rt, rt.alloc(), count, scarce);
            assert!(rt; made.is_err(), "{count} workers, scarce at {scarce}");
        }
    }
}

#[test]
fn two_jobs_are_done_once_each(rt: HostRuntime) {
    for count in [0, 1, 2, 3] {
        let workers = Workers::new(&rt, count);
        let mut first = 0u32;
        let mut second = 0u32;
        let given = workers.both(
            &mut || {
                first = first.wrapping_add(1);
                "first"
            },
            &mut || {
                second = second.wrapping_add(10);
                "second"
            },
        );
        check(&rt, count, given, ("first", "second"));
        check(&rt, count, (first, second), (1, 10));
    }
}
