//! A swap disk in memory that never fails.

ghost use Rattle.std.specs.Prelude.{◌≡◌, ◌<◌, ◌≤◌, ◌^◌, [], Some, Ok, IfOk, length, slice_get, slice_set, refl};
ghost use Rattle.outside_io.specs.StoredBlocks.{zero_blocks};

use crate::stored_blocks::StoredBlocks;
use crate::swap::{SwapAnswer, SwapDisk};
use alloc_basics::NoMemory;
use std::alloc::Global;
use std::marker::Model;

/// Keeps blocks in memory. Its block calls take no memory and never fail. A clause sees the list of the blocks.
#[derive(Drop)]
pub struct SureSwap {
    blocks: StoredBlocks,
}

impl Model for SureSwap {
    ghost use Rattle.std.specs.Prelude.{ℕ, List};

    ghost Value = { List (List ℕ) };

    ghost view = { λ swap. swap.blocks };
}

impl SureSwap {
    /// Returns a disk of this many blocks, all zero.
    pub fn new(alloc: Global, size: u32) -> Result<SureSwap, NoMemory>
        requires { size ≤ 2 ^ 20 }
        ensures { IfOk result (λ swap. swap ≡ zero_blocks size) }
    {
        let blocks = StoredBlocks::new(alloc, size)?;
        Ok(SureSwap { blocks })
    }
}

impl SwapDisk for SureSwap {
    ghost blocks = { λ blocks. Some blocks };

    ghost faults = { λ _. 0 };

    ghost block_count = { λ blocks. length blocks };

    ghost loans = { λ _. [] };

    ghost exposes_all = { λ _. refl };

    fn size(&self) -> u32 {
        self.blocks.size()
    }

    fn read_block(&mut self, n: u32, into: &mut [u8]) -> Result<(), SwapAnswer>
        requires known { n < length self.old }
        requires whole { length into.old ≡ 4096 }
        ensures sure { result ≡ Ok tt }
        ensures gives { slice_get self.old n ≡ Some into.new }
        ensures same { self.new ≡ self.old }
    {
        self.blocks.read(n, into);
        Ok(())
    }

    fn write_block(&mut self, n: u32, bytes: &[u8]) -> Result<(), SwapAnswer>
        requires known { n < length self.old }
        requires whole { length bytes.now ≡ 4096 }
        ensures sure { result ≡ Ok tt }
        ensures written { self.new ≡ slice_set self.old n bytes.now }
    {
        self.blocks.write(n, bytes);
        Ok(())
    }
}
