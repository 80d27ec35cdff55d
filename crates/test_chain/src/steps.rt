//! Lists of calls on a chain, each with its answer.

ghost use Rattle.test_chain.specs.Pages.{HasPages};

use crate::check::check;
use crate::pages::{add, disown, own, read, replace};
use std::alloc::Global;
use std::process::Abort;
use tile_chain::{SwapRefused, TileChain};

/// A call on a chain. Its names are numbered from 0 on, in the order in which they were added.
#[derive(Clone, Copy)]
pub enum Step {
    /// Adds a name of a page of this byte, if that isn't refused.
    Add(u8, Option<SwapRefused>),

    /// Reads a name: the byte of its page, or why not.
    Read(usize, Result<u8, SwapRefused>),

    /// Replaces the page of a name of one owner by one of this byte.
    Replace(usize, u8),

    /// Adds an owner of a name, which has so many then.
    Own(usize, u32),

    /// Takes an owner of a name away, which has so many then.
    Disown(usize, u32),

    /// Writes all pages to the disk.
    Flush,
}

/// Returns the name of a number.
fn name_of(rt: &impl Abort, names: &[u64], number: usize) -> u64 {
    names.get(number).copied().expect(rt, "a number of a name")
}

/// Makes one step.
fn make_step<C: TileChain>(
    rt: &impl Abort,
    chain: &mut C,
    alloc: Global,
    names: &mut Vec<u64>,
    row: usize,
    step: Step,
)
    requires { HasPages (C.held chain.old) (C.is_valid chain.old) }
    ensures { HasPages (C.held chain.new) (C.is_valid chain.new) }
{
    match step {
        Step::Add(byte, refused) => {
            let added = add(chain, alloc, byte);
            check(rt, row, added.err(), refused);
            if let Ok(name) = added {
                names.push(name).expect(rt, "memory");
            }
        }
        Step::Read(number, answer) => {
            check(rt, row, read(rt, chain, name_of(rt, names, number)), answer);
        }
        Step::Replace(number, byte) => {
            let replaced = replace(rt, chain, alloc, name_of(rt, names, number), byte);
            check(rt, row, replaced, Ok(()));
        }
        Step::Own(number, owners) => {
            check(rt, row, own(rt, chain, name_of(rt, names, number)), owners);
        }
        Step::Disown(number, owners) => {
            check(
                rt,
                row,
                disown(rt, chain, name_of(rt, names, number)),
                owners,
            );
        }
        Step::Flush => check(rt, row, chain.flush(), Ok(())),
    }
}

/// Makes steps in their order, on a chain without names.
pub fn make<C: TileChain>(rt: &impl Abort, chain: &mut C, alloc: Global, steps: &[Step])
    requires { HasPages (C.held chain.old) (C.is_valid chain.old) }
    ensures { HasPages (C.held chain.new) (C.is_valid chain.new) }
{
    let mut names = Vec::new(alloc);
    for (row, step) in steps.iter().enumerate() {
        make_step(rt, chain, alloc, &mut names, row, *step);
    }
}
