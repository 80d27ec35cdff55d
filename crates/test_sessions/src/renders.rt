//! Renders over buffers and caches, as tables of what is asked and what is shown.

mod canvases;
mod examples;
mod frozen;
mod levels;
mod plain;
mod seen;
mod steps;
mod waiting_kit;

use crate::values::disk_of;
use canvases::run_example;
use examples::{
    COLORS, CORNER, DILATED, Example, FOUR, GROWN, INVERTED_TWICE, LISTS, MIDDLE, PHOTOGRAPH,
    REFUSED, ROW, TOO_WIDE, USUAL_PHOTOGRAPH,
};
use frozen::{frozen, invert_frozen};
use frozen_images::FrozenBuffer;
use levels::steps_at;
use outside_io::{SureSwap, SwapDisk};
use std::alloc::Global;
use std::process::Abort;
use std::sync::atomic::Ordering;
use std::thread::Threads;
use steps::Step;
use tile_chain::Chain;
use waiting_kit::{WaitingKit, show_gray};

/// Runs an example over a chain over a disk. Returns whether the disk refused a call.
fn run_over<D: SwapDisk>(
    rt: &(impl Abort + Threads + Sync),
    alloc: Global,
    disk: &mut D,
    example: &Example,
    steps: &[Step],
) -> bool {
    let (_, blocks, resident) = example.chain;
    assert!(rt; resident >= 1);
    let mut chain = Chain::new(alloc, disk, blocks, resident).expect(rt, "memory");
    run_example(rt, &mut chain, alloc, example, steps)
}

/// Runs an example over a sound disk.
fn run_sound(rt: &(impl Abort + Threads + Sync), alloc: Global, example: &Example, steps: &[Step]) {
    let (size, _, _) = example.chain;
    let mut disk = SureSwap::new(alloc, size.min(4_096)).expect(rt, "memory");
    assert!(rt; !run_over(rt, alloc, &mut disk, example, steps));
}

/// The examples of small images.
const SMALL: [&Example; 9] = [
    &FOUR, &GROWN, &COLORS, &CORNER, &MIDDLE, &ROW, &REFUSED, &TOO_WIDE, &LISTS,
];

#[test]
fn requests_show_what_the_nodes_are(rt: HostRuntime) {
    for example in &SMALL {
        run_sound(&rt, rt.alloc(), example, example.steps);
    }
}

#[test]
fn each_level_is_that_of_the_whole_image(rt: HostRuntime) {
    for z in 0..9 {
        run_sound(&rt, rt.alloc(), &DILATED, &steps_at(z));
    }
}

#[test]
fn a_photograph_is_rendered_as_the_plain_program_does(rt: HostRuntime) {
    run_sound(&rt, rt.alloc(), &PHOTOGRAPH, PHOTOGRAPH.steps);
}

#[test]
fn each_tile_of_a_photograph_is_evaluated_once(rt: HostRuntime) {
    run_sound(&rt, rt.alloc(), &USUAL_PHOTOGRAPH, USUAL_PHOTOGRAPH.steps);
}

/// Returns a frozen buffer, over a chain that then goes.
fn frozen_over<D: SwapDisk>(
    rt: &(impl Abort + Threads + Sync),
    alloc: Global,
    disk: &mut D,
) -> FrozenBuffer {
    let mut chain = Chain::new(alloc, disk, 64, 1).expect(rt, "memory");
    frozen(rt, &mut chain, alloc)
}

#[test]
fn frozen_buffers_are_rendered_without_a_chain(rt: HostRuntime) {
    let mut disk = SureSwap::new(rt.alloc(), 64).expect(&rt, "memory");
    let buffer = frozen_over(&rt, rt.alloc(), &mut disk);
    invert_frozen(&rt, rt.alloc(), buffer);
}

/// Renders over a disk of which the read and the write of these numbers fail. Returns whether it refused a render.
fn is_refused(rt: &(impl Abort + Threads + Sync), alloc: Global, read: u64, write: u64) -> bool {
    let mut disk = disk_of(rt, alloc, read, write);
    run_over(rt, alloc, &mut disk, &INVERTED_TWICE, INVERTED_TWICE.steps)
}

#[test]
fn a_render_that_the_disk_refuses_is_made_again(rt: HostRuntime) {
    let (mut by_a_read, mut by_a_write) = (false, false);
    for call in 1..=24 {
        by_a_read = is_refused(&rt, rt.alloc(), call, 0) || by_a_read;
        by_a_write = is_refused(&rt, rt.alloc(), 0, call) || by_a_write;
    }
    assert!(rt; by_a_read && by_a_write);
}

#[test]
fn two_tiles_are_made_at_the_same_time(rt: HostRuntime) {
    let kit = WaitingKit::new(2, 0);
    let two_tiles = [0, 0, 128, 64];
    assert!(rt; !show_gray(&rt, rt.alloc(), &kit, 2, ("k", two_tiles), 7));
    let begun = kit.begun.load(Ordering::SeqCst);
    let ran_out = kit.ran_out.load(Ordering::SeqCst);
    assert!(rt; begun == 2 && ran_out == 0);
}

/// Lets memory run out at each of the eight tiles of a render in turn, and at none.
#[test]
fn a_render_that_is_out_of_memory_in_one_tile_is_made_again(rt: HostRuntime) {
    let four_tiles = [0, 0, 128, 128];
    for workers in [1, 2, 3, 16] {
        for scarce in 0..10 {
            let kit = WaitingKit::new(0, scarce);
            let is_refused = show_gray(&rt, rt.alloc(), &kit, workers, ("i", four_tiles), 248);
            assert!(rt; is_refused == (1 <= scarce && scarce <= 8));
        }
    }
}
