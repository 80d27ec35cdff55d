//! Jobs of edits, commits and renders on sessions of the fifteen operations.

mod calls;
mod cuts;
mod jobs;
mod steps;

ghost use Rattle.std.specs.Prelude.{◌≤◌};

use crate::values::disk_of;
use commit_session::Session;
use cuts::cut_two_tiles;
use int_ops::IntKit;
use jobs::{
    ACROSS_THE_BORDER, EDITED_AND_UNDONE, LOADED, MEAN, ONE_PAIR, four_reads, inverted_and_painted,
    work_after_an_edit,
};
use outside_io::SwapDisk;
use std::alloc::Global;
use std::process::Abort;
use std::thread::Threads;
use steps::{Step, make};

/// Makes first steps and then others on a session of one tile in memory and so many cached ones. Returns whether the disk
/// refused a call.
fn make_over<D: SwapDisk>(
    rt: &(impl Abort + Threads + Sync),
    alloc: Global,
    disk: &mut D,
    cached: u32,
    first: &[Step<'_>],
    then: &[Step<'_>],
) -> bool {
    assert!(rt; cached >= 1);
    let session = Session::new(alloc, IntKit, disk, 64, 1, cached, 3);
    let mut session = session.expect(rt, "memory");
    let is_refused = make(rt, &mut session, alloc, first);
    make(rt, &mut session, alloc, then) || is_refused
}

/// How many pairs are cached, first steps, and others.
const JOBS: [(u32, &[Step<'static>], &[Step<'static>]); 4] = [
    (100, &MEAN, &EDITED_AND_UNDONE),
    (100, &LOADED, &[]),
    (1, &MEAN, &ONE_PAIR),
    (100, &MEAN, &ACROSS_THE_BORDER),
];

#[test]
fn sessions_show_what_is_committed(rt: HostRuntime) {
    for (cached, first, then) in &JOBS {
        let mut disk = disk_of(&rt, rt.alloc(), 0, 0);
        assert!(rt; !make_over(&rt, rt.alloc(), &mut disk, *cached, first, then));
    }
}

/// Returns the bytes of two tiles of gray, and the same with a part painted.
fn grays(rt: &impl Abort, alloc: Global) -> (Vec<u8>, Vec<u8>) {
    let mut raw = vec![in alloc; 0; 128 * 64].expect(rt, "memory");
    for (index, byte) in raw.iter_mut().enumerate() {
        *byte = (index % 251) as u8;
    }
    let mut painted = raw.to_vec(alloc).expect(rt, "memory");
    painted[60..68].fill(7);
    (raw, painted)
}

/// Makes steps over a disk of which this read and this write fail. Returns whether it refused a call.
fn is_refused(
    rt: &(impl Abort + Threads + Sync),
    alloc: Global,
    read: u64,
    write: u64,
    steps: &[Step<'_>],
) -> bool {
    let mut disk = disk_of(rt, alloc, read, write);
    make_over(rt, alloc, &mut disk, 4, steps, &[])
}

/// More calls of the disk than any job here makes.
const MOST_CALLS: u64 = 1_000;

/// Lets each read of the disk fail in turn, or each write, while these steps are made. Returns how many fail.
fn failures(
    rt: &(impl Abort + Threads + Sync),
    alloc: Global,
    are_reads: bool,
    steps: &[Step<'_>],
) -> u64 {
    for failed in 0..MOST_CALLS {
        let call = failed + 1;
        let (read, write) = if are_reads { (call, 0) } else { (0, call) };
        if !is_refused(rt, alloc, read, write, steps) {
            return failed;
        }
    }
    MOST_CALLS
}

/// Lets each read and each write of the disk fail in turn. Checks that at least so many reads do, and some writes.
fn fail_each(
    rt: &(impl Abort + Threads + Sync),
    alloc: Global,
    least_reads: u64,
    steps: &[Step<'_>],
) {
    let reads = failures(rt, alloc, true, steps);
    let writes = failures(rt, alloc, false, steps);
    assert!(rt; least_reads <= reads && reads < MOST_CALLS && 0 < writes && writes < MOST_CALLS);
}

/// Returns two tiles, one of ones and one of twos, as the bytes of their rows.
fn halves(rt: &impl Abort, alloc: Global) -> Vec<u8> {
    let mut halves = vec![in alloc; 1; 128 * 64].expect(rt, "memory");
    for (index, byte) in halves.iter_mut().enumerate() {
        if index % 128 >= 64 {
            *byte = 2;
        }
    }
    halves
}

/// Returns the mean of the nine pixels around one of a square of 128 by 128 pixels, which are 100, but for this first one
/// in the upper left corner. Outside of the square they are 0.
fn mean(index: usize, first: usize) -> u8
    requires { first ≤ 255 }
{
    let (x, y) = (index % 128, index / 128);
    let columns = if x == 0 || x == 127 { 2 } else { 3 };
    let rows = if y == 0 || y == 127 { 2 } else { 3 };
    let all = 100 * (columns * rows);
    let sum = if x < 2 && y < 2 {
        all - 100 + first
    } else {
        all
    };
    ((2 * sum + 9) / 18).min(255) as u8
}

/// Returns the means of all pixels of the square.
fn means(rt: &impl Abort, alloc: Global, first: usize) -> Vec<u8>
    requires { first ≤ 255 }
{
    let mut means = vec![in alloc; 0; 128 * 128].expect(rt, "memory");
    for (index, byte) in means.iter_mut().enumerate() {
        *byte = mean(index, first);
    }
    means
}

#[test]
fn a_call_that_the_disk_refuses_is_made_again(rt: HostRuntime) {
    let alloc = rt.alloc();
    let (raw, painted) = grays(&rt, alloc);
    fail_each(&rt, alloc, 1, &inverted_and_painted(&raw, &painted));
    let (first, second) = (means(&rt, alloc, 100), means(&rt, alloc, 200));
    fail_each(&rt, alloc, 1, &work_after_an_edit(&first, &second));
    // The third read that fails is one of the second time.
    fail_each(&rt, alloc, 3, &four_reads(&halves(&rt, alloc)));
}

#[test]
fn a_kit_of_required_methods_alone_serves_a_session(rt: HostRuntime) {
    let mut disk = disk_of(&rt, rt.alloc(), 0, 0);
    cut_two_tiles(&rt, rt.alloc(), &mut disk);
}
