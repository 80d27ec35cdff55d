//! A swap disk that is lent.

ghost use Rattle.std.specs.Prelude.{◌∷◌};

use crate::swap::{SwapAnswer, SwapDisk};

/// A swap disk that belongs to whoever lent it, and means what that one means.
#[derive(Drop)]
pub struct Lent<'s, D> {
    /// The disk that was lent.
    pub disk: &'s mut D,
}

impl<D: SwapDisk> SwapDisk for Lent<'_, D> {
    ghost blocks = { λ lent. D.blocks lent.disk.now };

    ghost faults = { λ lent. D.faults lent.disk.now };

    ghost block_count = { λ lent. D.block_count lent.disk.now };

    ghost loans = { λ lent. lent.disk.ghost_name ∷ D.loans lent.disk.now };

    ghost exposes_all = { λ lent. D.exposes_all lent.disk.now };

    fn size(&self) -> u32 {
        self.disk.size()
    }

    fn read_block(&mut self, n: u32, into: &mut [u8]) -> Result<(), SwapAnswer> {
        self.disk.read_block(n, into)
    }

    fn write_block(&mut self, n: u32, bytes: &[u8]) -> Result<(), SwapAnswer> {
        self.disk.write_block(n, bytes)
    }

    fn read_blocks(&mut self, first: u32, into: &mut [u8]) -> Result<(), SwapAnswer> {
        self.disk.read_blocks(first, into)
    }

    fn write_blocks(&mut self, first: u32, bytes: &[u8]) -> Result<(), SwapAnswer> {
        self.disk.write_blocks(first, bytes)
    }
}
