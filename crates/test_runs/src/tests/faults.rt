//! Runs over devices of which one call fails.

use crate::contents::Kept;
use crate::examples::edits::MEANS_AFTER_AN_EDIT;
use crate::examples::faults::{EDITING_JOB, EITHER_SIDE, FOUR_GRABS, FOUR_TILES, TWO_LOADS};
use crate::examples::graphs::ONE_RENDER;
use crate::examples::pictures::FOUR_BANDS;
use crate::examples::{Case, Example, example_of};
use crate::runs::{
    Devices, Ended, PLAIN, SOUND, check_end, check_ended, check_files, check_row, folder_of,
    run_over,
};
use outside_io::MemShelf;
use std::alloc::Global;
use std::process::Abort;
use std::thread::Threads;

/// Words of a run with one tile in memory.
const ONE_RESIDENT: &str = "run script.txt --resident 1";

/// More calls of the swap than any case here makes.
const MOST_CALLS: u64 = 1_000;

/// A kind of call of the devices.
#[derive(Clone, Copy)]
enum Call {
    Read,
    Write,
    Put,
    SwapRead,
    SwapWrite,
}

/// Returns devices of which this call fails.
fn failing_at(call: Call, number: u64) -> Devices {
    let mut devices = SOUND;
    match call {
        Call::Read => devices.read = number,
        Call::Write => devices.write = number,
        Call::Put => devices.put = number,
        Call::SwapRead => devices.swap_read = number,
        Call::SwapWrite => devices.swap_write = number,
    }
    devices
}

/// Checks that a run ended after the first texts of an example and their files, with so much of the file whose text
/// isn't whole.
fn check_beginning(
    rt: &impl Abort,
    alloc: Global,
    example: &Example,
    ended: &Ended,
    shelf: &MemShelf,
    next: Kept,
) {
    assert!(rt; example.text.as_bytes().starts_with(&ended.text));
    let texts = ended.text.iter().filter(|byte| **byte == b'\n').count();
    check_files(rt, alloc, example, shelf, texts, next);
}

/// Runs an example with one resident tile. Where a call of the swap fails, checks that the run ended there, and that a
/// second run over the same folder and a sound swap leaves everything. Returns whether a call failed.
fn fail_and_run_again(
    rt: &(impl Abort + Threads + Sync),
    alloc: Global,
    example: &Example,
    devices: Devices,
) -> bool {
    let mut shelf = folder_of(rt, alloc, example, SOUND);
    let ended = run_over(rt, alloc, ONE_RESIDENT, &mut shelf, devices);
    let failed = ended.status != example.status;
    if failed {
        assert!(rt; ended.status == 5);
        check_beginning(rt, alloc, example, &ended, &shelf, Kept::Nothing);
        let again = run_over(rt, alloc, ONE_RESIDENT, &mut shelf, SOUND);
        check_end(rt, alloc, example, &again, &shelf);
    } else {
        check_end(rt, alloc, example, &ended, &shelf);
    }
    failed
}

/// Lets each call of a kind fail in turn. Returns how many fail.
fn failures(
    rt: &(impl Abort + Threads + Sync),
    alloc: Global,
    example: &Example,
    call: Call,
) -> u64 {
    for failed in 0..MOST_CALLS {
        let devices = failing_at(call, failed + 1);
        if !fail_and_run_again(rt, alloc, example, devices) {
            return failed;
        }
    }
    MOST_CALLS
}

/// Lets each call of a kind fail in turn, and checks that some do.
fn fail_each(rt: &(impl Abort + Threads + Sync), alloc: Global, case: &Case, call: Call) {
    let example = example_of(rt, alloc, case);
    let failed = failures(rt, alloc, &example, call);
    assert!(rt; failed > 0 && failed < MOST_CALLS);
}

#[test]
fn each_read_of_the_swap_ends_a_job_where_it_fails(rt: HostRuntime) {
    fail_each(&rt, rt.alloc(), &EDITING_JOB, Call::SwapRead);
}

#[test]
fn each_write_of_the_swap_ends_a_job_where_it_fails(rt: HostRuntime) {
    fail_each(&rt, rt.alloc(), &EDITING_JOB, Call::SwapWrite);
}

/// Cases, and the kind of call that fails.
const FAILING: [(&Case, Call); 4] = [
    (&MEANS_AFTER_AN_EDIT, Call::SwapRead),
    (&MEANS_AFTER_AN_EDIT, Call::SwapWrite),
    (&FOUR_GRABS, Call::SwapRead),
    (&FOUR_TILES, Call::SwapWrite),
];

#[test]
fn each_call_of_the_swap_ends_a_run_where_it_fails(rt: HostRuntime) {
    for (case, call) in &FAILING {
        fail_each(&rt, rt.alloc(), case, *call);
    }
}

/// Runs cases over devices of which a call of this kind fails, the one of the number beside each, and checks status,
/// files and text.
fn check_faults(
    rt: &(impl Abort + Threads + Sync),
    alloc: Global,
    call: Call,
    wanted: (u8, Kept),
    cases: &[(&Case, u64, &str)],
) {
    for (case, number, text) in cases {
        let example = example_of(rt, alloc, case);
        let devices = failing_at(call, *number);
        let mut shelf = folder_of(rt, alloc, &example, devices);
        let ended = run_over(rt, alloc, PLAIN, &mut shelf, devices);
        check_ended(rt, &example.script, &ended, wanted.0, text);
        check_beginning(rt, alloc, &example, &ended, &shelf, wanted.1);
    }
}

/// Puts that fail, and the texts then: that of the put is half there.
const PUTS: [(&Case, u64, &str); 6] = [
    (&ONE_RENDER, 1, "render 6 comm"),
    (&EITHER_SIDE, 1, "grab 5 "),
    (&EITHER_SIDE, 2, "grab 5 bytes 2\ngrab 6 "),
    (&EITHER_SIDE, 3, "grab 5 bytes 2\ngrab 6 bytes 2\ngrab 8 "),
    (
        &EITHER_SIDE,
        4,
        "grab 5 bytes 2\ngrab 6 bytes 2\ngrab 8 bytes 2\ngrab 9 ",
    ),
    (
        &EITHER_SIDE,
        5,
        "grab 5 bytes 2\ngrab 6 bytes 2\ngrab 8 bytes 2\ngrab 9 bytes 2\nreport applie",
    ),
];

/// Reads that fail, the first of which is that of the script, and the texts then.
const READS: [(&Case, u64, &str); 4] = [
    (&TWO_LOADS, 1, ""),
    (&TWO_LOADS, 2, ""),
    (&TWO_LOADS, 3, "grab 3 bytes 4\n"),
    (&ONE_RENDER, 2, ""),
];

/// Writes that fail, and the texts then.
const WRITES: [(&Case, u64, &str); 7] = [
    (&ONE_RENDER, 1, ""),
    (&EITHER_SIDE, 1, ""),
    (&EITHER_SIDE, 2, "grab 5 bytes 2\n"),
    (&EITHER_SIDE, 3, "grab 5 bytes 2\ngrab 6 bytes 2\n"),
    (
        &EITHER_SIDE,
        4,
        "grab 5 bytes 2\ngrab 6 bytes 2\ngrab 8 bytes 2\n",
    ),
    (&FOUR_BANDS, 1, ""),
    (&FOUR_BANDS, 2, "render 8 commit 1 bytes 269860\n"),
];

#[test]
fn a_put_that_fails_comes_after_its_file(rt: HostRuntime) {
    check_faults(&rt, rt.alloc(), Call::Put, (6, Kept::Whole), &PUTS);
}

/// Checks that a write that fails leaves half a file, also where the file comes in four bands of rows.
#[test]
fn a_call_of_the_shelf_that_fails_ends_the_run(rt: HostRuntime) {
    check_faults(&rt, rt.alloc(), Call::Read, (3, Kept::Nothing), &READS);
    check_faults(&rt, rt.alloc(), Call::Write, (4, Kept::Half), &WRITES);
}

/// Runs an example over a swap of so many blocks, and checks that it ends early with status 8, or does all. Returns the
/// status.
fn run_in_blocks(
    rt: &(impl Abort + Threads + Sync),
    alloc: Global,
    line: &str,
    example: &Example,
    blocks: u32,
) -> u8 {
    let devices = Devices { blocks, ..SOUND };
    let mut shelf = folder_of(rt, alloc, example, SOUND);
    let ended = run_over(rt, alloc, line, &mut shelf, devices);
    if ended.status == 8 {
        check_beginning(rt, alloc, example, &ended, &shelf, Kept::Nothing);
    } else {
        check_end(rt, alloc, example, &ended, &shelf);
    }
    ended.status
}

/// Checks that a job over a swap of few blocks ends early or does all.
fn check_few_blocks(rt: &(impl Abort + Threads + Sync), alloc: Global) {
    let example = example_of(rt, alloc, &EDITING_JOB);
    for blocks in 1..32 {
        let status = run_in_blocks(rt, alloc, ONE_RESIDENT, &example, blocks);
        assert!(rt; status == 0 || status == 8);
    }
}

/// Words of runs, cases, the blocks of the swap, and the status then. Four tiles and one more suffice for the first script, and
/// 27 for the last: so many in memory, or 32 blocks for each and for one more. No swap's end tears a file that is written by
/// bands.
const FULL: [(&str, &Case, u32, u8); 11] = [
    (ONE_RESIDENT, &FOUR_TILES, 1, 8),
    (
        "run script.txt --resident 1 --swap-blocks 1",
        &FOUR_TILES,
        64,
        8,
    ),
    (
        "run script.txt --resident 5 --swap-blocks 1",
        &FOUR_TILES,
        64,
        0,
    ),
    (ONE_RESIDENT, &FOUR_TILES, 192, 0),
    (
        "run script.txt --resident 1 --swap-blocks 192",
        &FOUR_TILES,
        192,
        0,
    ),
    (ONE_RESIDENT, &FOUR_BANDS, 64, 8),
    (ONE_RESIDENT, &FOUR_BANDS, 16_384, 0),
    ("run script.txt --workers 3", &FOUR_BANDS, 1, 0),
    (ONE_RESIDENT, &EDITING_JOB, 4, 8),
    (ONE_RESIDENT, &EDITING_JOB, 896, 0),
    ("run script.txt --resident 27", &EDITING_JOB, 1, 0),
];

#[test]
fn a_full_swap_ends_the_run(rt: HostRuntime) {
    let alloc = rt.alloc();
    for (line, case, blocks, status) in &FULL {
        let example = example_of(&rt, alloc, case);
        let ended = run_in_blocks(&rt, alloc, line, &example, *blocks);
        check_row(&rt, line, &ended, status);
    }
    check_few_blocks(&rt, alloc);
}

/// Does all, with ample memory. Where a request for memory is refused, as by `rt try --test --fail-alloc N`, the run
/// ends with status 7 after a beginning, or does all without it; where the request is one of this test, it fails.
#[test]
fn a_run_that_is_out_of_memory_ends_early(rt: HostRuntime) {
    let alloc = rt.alloc();
    let example = example_of(&rt, alloc, &MEANS_AFTER_AN_EDIT);
    let mut shelf = folder_of(&rt, alloc, &example, SOUND);
    let ended = run_over(&rt, alloc, ONE_RESIDENT, &mut shelf, SOUND);
    if ended.status == 7 {
        check_beginning(&rt, alloc, &example, &ended, &shelf, Kept::Beginning);
    } else {
        check_end(&rt, alloc, &example, &ended, &shelf);
    }
}
