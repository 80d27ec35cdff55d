//! Blocks in memory.

ghost use Rattle.std.specs.Prelude.{◌≡◌, ◌<◌, ◌≤◌, ◌^◌, IfOk, length, slice_get, slice_set, Some};
ghost use Rattle.outside_io.specs.StoredBlocks.{zero_blocks, spoiled_block};

use std::alloc::{AllocError, Global};
use std::marker::Model;

/// The bytes of a block.
pub(crate) const BLOCK_BYTES: usize = 4096;

/// Blocks by their numbers.
#[derive(Drop)]
pub(crate) struct StoredBlocks {
    blocks: Vec<[u8; BLOCK_BYTES]>,
}

impl Model for StoredBlocks {
    ghost use Rattle.std.specs.Prelude.{ℕ, ◌≤◌, ◌^◌, List, length};
    ghost use Rattle.outside_io.specs.Swap.{Blocks};

    ghost Value = { List (List ℕ) };

    ghost view = { λ stored. stored.blocks.items };

    ghost invariant = { λ stored. length stored.blocks.items ≤ 2 ^ 20 };
}

impl StoredBlocks {
    /// Returns this many blocks of zeros.
    #[tactic(auto, unfolding(crate::specs::StoredBlocks::zero_block))]
    pub fn new(alloc: Global, size: u32) -> Result<StoredBlocks, AllocError>
        requires { size ≤ 2 ^ 20 }
        ensures { IfOk result (λ stored. stored ≡ zero_blocks size) }
    {
        let mut blocks = Vec::new(alloc);
        blocks.resize(size as usize, [0; BLOCK_BYTES])?;
        Ok(StoredBlocks { blocks })
    }

    /// Returns how many blocks there are.
    pub fn size(&self) -> u32
        ensures value { result ≡ length self.now }
        ensures bound { result ≤ 2 ^ 20 }
    {
        self.blocks.len() as u32
    }

    /// Copies block `n` into a slice of its length.
    pub fn read(&self, n: u32, into: &mut [u8])
        requires known { n < length self.now }
        requires whole { length into.old ≡ 4096 }
        ensures { slice_get self.now n ≡ Some into.new }
    {
        into.copy_from_slice(&self.blocks[n as usize]);
    }

    /// Makes block `n` hold these bytes.
    pub fn write(&mut self, n: u32, bytes: &[u8])
        requires known { n < length self.old }
        requires whole { length bytes.now ≡ 4096 }
        ensures { self.new ≡ slice_set self.old n bytes.now }
    {
        let block = &mut self.blocks[n as usize];
        block.copy_from_slice(bytes);
    }

    /// Fills block `n` with the byte EE.
    #[tactic(auto, unfolding(crate::specs::StoredBlocks::spoiled_block))]
    pub fn spoil(&mut self, n: u32)
        requires { n < length self.old }
        ensures { self.new ≡ slice_set self.old n spoiled_block }
    {
        self.blocks[n as usize] = [0xEE; BLOCK_BYTES];
    }
}
