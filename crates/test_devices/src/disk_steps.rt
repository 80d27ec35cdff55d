//! Lists of calls on a swap disk, each with what it returns.

use crate::check::check;
use outside_io::{SwapAnswer, SwapDisk};
use std::process::Abort;

/// A call on a disk, and what it returns. A block, or two, are of one byte everywhere.
#[derive(Clone, Copy)]
pub enum Step {
    /// Reads a block.
    Read(u32, Result<u8, SwapAnswer>),

    /// Writes a block.
    Write(u32, u8, Result<(), SwapAnswer>),

    /// Reads two blocks in one call.
    ReadTwo(u32, Result<u8, SwapAnswer>),

    /// Writes two blocks in one call.
    WriteTwo(u32, u8, Result<(), SwapAnswer>),
}

/// Returns the byte that blocks are of, if they were read.
fn byte_of(
    rt: &impl Abort,
    answer: Result<(), SwapAnswer>,
    blocks: &[u8],
) -> Result<u8, SwapAnswer> {
    answer?;
    let byte = blocks.first().copied().expect(rt, "a block");
    assert!(rt;
        blocks.iter().all(|other| *other == byte),
        "a block of one byte"
    );
    Ok(byte)
}

/// Reads a block.
pub fn read<D: SwapDisk>(rt: &impl Abort, disk: &mut D, block: u32) -> Result<u8, SwapAnswer> {
    let mut into = [1u8; 4096];
    assert!(rt; block < disk.size());
    let answer = disk.read_block(block, &mut into);
    byte_of(rt, answer, &into)
}

/// Writes a block.
pub fn write<D: SwapDisk>(
    rt: &impl Abort,
    disk: &mut D,
    block: u32,
    byte: u8,
) -> Result<(), SwapAnswer> {
    assert!(rt; block < disk.size());
    disk.write_block(block, &[byte; 4096])
}

/// Reads two blocks.
fn read_two<D: SwapDisk>(rt: &impl Abort, disk: &mut D, first: u32) -> Result<u8, SwapAnswer> {
    let mut into = [1u8; 8192];
    assert!(rt; first < 1 << 16 && first + 2 <= disk.size());
    let answer = disk.read_blocks(first, &mut into);
    byte_of(rt, answer, &into)
}

/// Writes two blocks.
fn write_two<D: SwapDisk>(
    rt: &impl Abort,
    disk: &mut D,
    first: u32,
    byte: u8,
) -> Result<(), SwapAnswer> {
    assert!(rt; first < 1 << 16 && first + 2 <= disk.size());
    disk.write_blocks(first, &[byte; 8192])
}

/// Makes steps on a disk of so many blocks, in their order.
pub fn make<D: SwapDisk>(rt: &impl Abort, disk: &mut D, size: u32, steps: &[Step]) {
    check(rt, "size", disk.size(), size);
    for (row, step) in steps.iter().enumerate() {
        match *step {
            Step::Read(block, wanted) => check(rt, row, read(rt, disk, block), wanted),
            Step::Write(block, byte, wanted) => {
                check(rt, row, write(rt, disk, block, byte), wanted);
            }
            Step::ReadTwo(first, wanted) => check(rt, row, read_two(rt, disk, first), wanted),
            Step::WriteTwo(first, byte, wanted) => {
                check(rt, row, write_two(rt, disk, first, byte), wanted);
            }
        }
    }
    check(rt, "size", disk.size(), size);
}
