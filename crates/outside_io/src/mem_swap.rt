//! A swap disk in memory.

ghost use Rattle.std.specs.Prelude.{◌≡◌, ◌+◌, ◌<◌, ◌≤◌, ◌^◌, [], Some, Ok, Err, IfOk, length, slice_set, refl, is_ok, if◌then◌else◌};
ghost use Rattle.outside_io.specs.Calls.{no_calls, next_fails, after_call};
ghost use Rattle.outside_io.specs.StoredBlocks.{zero_blocks, spoiled_block};
ghost use Rattle.outside_io.specs.Swap.{ReadsBlock, WritesBlock};

use crate::failing_calls::FailingCalls;
use crate::stored_blocks::StoredBlocks;
use crate::swap::{SwapAnswer, SwapDisk};
use alloc_basics::NoMemory;
use std::alloc::Global;
use std::marker::Model;

/// Keeps blocks in memory. Fails at chosen calls; a write that fails fills the block with EE. Its
/// block calls take no memory. A clause sees the blocks, and of reads and of writes which calls fail and how many did.
#[derive(Drop)]
pub struct MemSwap {
    blocks: StoredBlocks,
    reads: FailingCalls,
    writes: FailingCalls,
}

impl Model for MemSwap {
    ghost use Rattle.outside_io.specs.MemSwap.{SwapState};

    ghost Value = { SwapState };

    ghost view = { λ swap. record { blocks = swap.blocks; reads = swap.reads; writes = swap.writes } };
}

impl MemSwap {
    /// Returns a disk of this many blocks, all zero. The reads and writes of these numbers, each counted
    /// from 1, fail.
    pub fn new(
        alloc: Global,
        size: u32,
        fail_reads: Vec<u64>,
        fail_writes: Vec<u64>,
    ) -> Result<MemSwap, NoMemory>
        requires { size ≤ 2 ^ 20 }
        ensures blocks { IfOk result (λ swap. swap.blocks ≡ zero_blocks size) }
        ensures reads { IfOk result (λ swap. swap.reads ≡ no_calls fail_reads.items) }
        ensures writes { IfOk result (λ swap. swap.writes ≡ no_calls fail_writes.items) }
    {
        let blocks = StoredBlocks::new(alloc, size)?;
        Ok(MemSwap {
            blocks,
            reads: FailingCalls::new(fail_reads),
            writes: FailingCalls::new(fail_writes),
        })
    }
}

impl SwapDisk for MemSwap {
    ghost blocks = { λ swap. Some swap.blocks };

    ghost faults = { λ swap. swap.reads.faults + swap.writes.faults };

    ghost block_count = { λ swap. length swap.blocks };

    ghost loans = { λ _. [] };

    ghost exposes_all = { λ _. refl };

    fn size(&self) -> u32 {
        self.blocks.size()
    }

    fn read_block(&mut self, n: u32, into: &mut [u8]) -> Result<(), SwapAnswer>
        requires known { n < length self.old.blocks }
        requires whole { length into.old ≡ 4096 }
        ensures gives { ReadsBlock self.old.blocks n result into.new }
        ensures later { self.old.reads.faults ≤ self.new.reads.faults }

        // It fails at the chosen calls and at no others, and changes nothing but their count.
        ensures chosen { result ≡ (if next_fails self.old.reads then Err SwapAnswer.Failed else Ok tt) }
        ensures after { self.new ≡ record self.old { reads = after_call self.old.reads } }
    {
        if self.reads.fails() {
            return Err(SwapAnswer::Failed);
        }
        self.blocks.read(n, into);
        Ok(())
    }

    fn write_block(&mut self, n: u32, bytes: &[u8]) -> Result<(), SwapAnswer>
        requires known { n < length self.old.blocks }
        requires whole { length bytes.now ≡ 4096 }
        ensures leaves { WritesBlock (Some self.old.blocks) n bytes.now result (Some self.new.blocks) }
        ensures later { self.old.writes.faults ≤ self.new.writes.faults }

        // It fails at the chosen calls and at no others.
        ensures chosen { result ≡ (if next_fails self.old.writes then Err SwapAnswer.Failed else Ok tt) }
        ensures written { self.new.blocks
            ≡ slice_set self.old.blocks n (if is_ok result then bytes.now else spoiled_block) }
        ensures counted { self.new.writes ≡ after_call self.old.writes }
        ensures reads { self.new.reads ≡ self.old.reads }
    {
        if self.writes.fails() {
            self.blocks.spoil(n);
            return Err(SwapAnswer::Failed);
        }
        self.blocks.write(n, bytes);
        Ok(())
    }
}
