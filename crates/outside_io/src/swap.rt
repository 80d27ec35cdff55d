//! Swap disks: blocks of 4,096 bytes by their numbers.

ghost use Rattle.std.specs.Prelude.{◌≡◌, ℕ, ◌+◌, ◌/◌, ◌%◌, ◌<◌, ◌≤◌, ◌^◌, List, Option, IfSome, IsErrOf, OnOk, length};
ghost use Rattle.std.specs.Borrow.{GName};
ghost use Rattle.outside_io.specs.Swap.{Blocks, ReadsBlock, UnchangedOutside, WritesBlock, bytes_of_blocks};
ghost use Rattle.chain_owners.specs.Counts.{Rose};

use crate::stored_blocks::BLOCK_BYTES;
use thiserror::Error;

/// Why a swap disk did not do what it was asked to.
#[derive(Clone, Copy, Debug, PartialEq, Eq, Error)]
pub enum SwapAnswer {
    /// The device failed.
    #[error("the swap disk failed")]
    Failed,
    /// No memory was left.
    #[error("no memory was left")]
    NoMemory,
}

/// Blocks of 4,096 bytes, numbered from 0.
pub trait SwapDisk {
    /// The blocks, where the disk exposes them.
    ghost blocks: { Self → Option Blocks };

    /// How many calls failed.
    ghost faults: { Self → ℕ };

    /// How many blocks there are, which no call changes.
    ghost block_count: { Self → ℕ };

    /// The loans through which the disk is reached, which no call changes. By them whoever lent the
    /// disk learns what it holds when the loan ends.
    ghost loans: { Self → List GName };

    /// Returns how many blocks there are.
    fn size(&self) -> u32
        ensures value { result ≡ block_count self.now }
        ensures bound { result ≤ 2 ^ 20 };

    /// Reads block `n` into a slice of its length.
    fn read_block(&mut self, n: u32, into: &mut [u8]) -> Result<(), SwapAnswer>
        requires known { n < block_count self.old }
        requires whole { length into.old ≡ 4096 }
        ensures gives { IfSome (blocks self.old) (λ all. ReadsBlock all n result into.new) }
        ensures failed { IsErrOf result SwapAnswer.Failed → Rose (faults self.old) (faults self.new) }
        ensures later { faults self.old ≤ faults self.new }
        ensures blocks { blocks self.new ≡ blocks self.old }
        ensures block_count { block_count self.new ≡ block_count self.old }
        ensures loans { loans self.new ≡ loans self.old };

    /// Makes block `n` hold these bytes.
    fn write_block(&mut self, n: u32, bytes: &[u8]) -> Result<(), SwapAnswer>
        requires known { n < block_count self.old }
        requires whole { length bytes.now ≡ 4096 }
        ensures leaves { WritesBlock (blocks self.old) n bytes.now result (blocks self.new) }
        ensures failed { IsErrOf result SwapAnswer.Failed → Rose (faults self.old) (faults self.new) }
        ensures later { faults self.old ≤ faults self.new }
        ensures block_count { block_count self.new ≡ block_count self.old }
        ensures loans { loans self.new ≡ loans self.old };

    /// Reads the blocks from `first` on into a slice of whole blocks, as many as it has. A disk that
    /// has no faster way reads them one by one, up to the first that it fails at.
    fn read_blocks(&mut self, first: u32, into: &mut [u8]) -> Result<(), SwapAnswer>
        requires known { first + length into.old / 4096 ≤ block_count self.old }
        requires bound { first + length into.old / 4096 ≤ 2 ^ 20 }
        requires whole { length into.old % 4096 ≡ 0 }
        ensures gives { OnOk result (IfSome (blocks self.old)
            (λ all. bytes_of_blocks all first (length into.old / 4096) ≡ into.new)) }
        ensures failed { IsErrOf result SwapAnswer.Failed → Rose (faults self.old) (faults self.new) }
        ensures later { faults self.old ≤ faults self.new }
        ensures blocks { blocks self.new ≡ blocks self.old }
        ensures block_count { block_count self.new ≡ block_count self.old }
        ensures loans { loans self.new ≡ loans self.old }
    {
        for k in 0..into.len() / BLOCK_BYTES {
            let at = BLOCK_BYTES * k;
            self.read_block(first + k as u32, &mut into[at..at + BLOCK_BYTES])?;
        }
        Ok(())
    }

    /// Makes the blocks from `first` on hold these bytes, which are whole blocks. After an error each of
    /// them may have other bytes. A disk that has no faster way writes them one by one, up to the first
    /// that it fails at.
    fn write_blocks(&mut self, first: u32, bytes: &[u8]) -> Result<(), SwapAnswer>
        requires known { first + length bytes.now / 4096 ≤ block_count self.old }
        requires bound { first + length bytes.now / 4096 ≤ 2 ^ 20 }
        requires whole { length bytes.now % 4096 ≡ 0 }
        ensures written { OnOk result (IfSome (blocks self.new)
            (λ all. bytes_of_blocks all first (length bytes.now / 4096) ≡ bytes.now)) }
        ensures others { UnchangedOutside first (length bytes.now / 4096) (blocks self.old) (blocks self.new) }
        ensures failed { IsErrOf result SwapAnswer.Failed → Rose (faults self.old) (faults self.new) }
        ensures later { faults self.old ≤ faults self.new }
        ensures block_count { block_count self.new ≡ block_count self.old }
        ensures loans { loans self.new ≡ loans self.old }
    {
        for k in 0..bytes.len() / BLOCK_BYTES {
            let at = BLOCK_BYTES * k;
            self.write_block(first + k as u32, &bytes[at..at + BLOCK_BYTES])?;
        }
        Ok(())
    }

    /// The blocks that are known are all of them.
    ghost exposes_all: { (disk : Self) → IfSome (blocks disk) (λ all. length all ≡ block_count disk) };
}
