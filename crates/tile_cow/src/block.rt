//! The block of a tile, while one owner has all of it: a count of owners, a length, and the bytes.
ghost use Rattle.std.specs.Prelude.{◌≡◌, ◌+◌, ◌≤◌, ℕ, List, Bool, IfOk, length, replicate, false};
ghost use Rattle.std.specs.Mem.Slots.{slots_items, slots_filled, slots_ptr, slots_len};
ghost use Rattle.std.specs.Mem.Slots.Ownership.{Filled, SameOutside};
ghost use Rattle.tile_cow.specs.Tile.{IsTileLength, overwritten};
ghost use Rattle.tile_cow.specs.Block.{block_owns, frame_owns, bytes_at, IsWritten};

use crate::room::Room;
use core::slots::Slots;
use std::alloc::{AllocError, Global};
use std::marker::{Model, PhantomData};

/// A block that one owner has whole. It can't be let go but by `free` and as an owner. `filled`
/// says which of the bytes are written.
pub(crate) struct Block {
    pub(crate) words: *mut u64,
    pub(crate) ghost owners: { ℕ },
    pub(crate) ghost bytes: { List ℕ },
    pub(crate) ghost filled: { List Bool },
}

impl Model for Block {
    ghost also_owns = { λ b. block_owns b.words b.owners b.bytes b.filled };
}

/// A block without its bytes.
pub(crate) struct Frame {
    pub(crate) words: *mut u64,
    pub(crate) ghost owners: { ℕ },
    pub(crate) ghost len: { ℕ },
}

impl Model for Frame {
    ghost also_owns = { λ f. frame_owns f.words f.owners f.len };
}

impl Block {
    /// Allocates a block with one owner, whose bytes are still to be written.
    pub(crate) fn new(alloc: Global, len: usize) -> Result<Block, AllocError>
        requires { IsTileLength len }
        ensures { IfOk result (λ block. (block.owners ≡ 1) × (block.bytes ≡ replicate len 0) × (block.filled ≡ replicate len false)) }
    {
        let room = Room::allocate(&alloc, len)?;
        Ok(Block::make(room, len))
    }

    /// Writes zeros over all of a block of zeros.
    pub(crate) fn zeroed(self) -> Block
        requires { self.bytes ≡ replicate (length self.bytes) 0 }
        ensures { (result.owners ≡ self.owners) × (result.bytes ≡ self.bytes) × IsWritten result.bytes result.filled }
    {
        let (frame, mut bytes) = self.open();
        for at in 0..bytes.len() {
            bytes.put(at, 0);
        }
        Block::close(frame, bytes)
    }

    /// Writes these bytes into the range that begins at byte `at`.
    pub(crate) fn overwrite(self, at: usize, bytes: &[u8]) -> Block
        requires { at + length bytes.now ≤ length self.bytes }
        ensures bytes { (result.owners ≡ self.owners) × (result.bytes ≡ overwritten self.bytes at bytes.now) }
        ensures filled { Filled result.filled at (at + length bytes.now) × SameOutside false self.filled result.filled at (at + length bytes.now) }
    {
        let (frame, mut slots) = self.open();
        slots.copy_in(at, bytes);
        Block::close(frame, slots)
    }

    /// Gives the memory of the block back.
    pub(crate) fn free(self, alloc: Global) {
        let (room, len) = self.into_room();
        room.free(&alloc, len);
    }

    /// Makes a block with one owner, whose bytes are still to be written.
    pub(crate) fn make(room: Room<Global>, len: usize) -> Block
        requires { room.len ≡ len }
        ensures { (result.owners ≡ 1) × (result.bytes ≡ replicate len 0) × (result.filled ≡ replicate len false) }
    {
        let Room { words, by: _ } = room;
        unsafe {
            words.write(1);
            words.add(1).write(len as u64);
        }
        Block { words }
    }

    /// Takes the block apart into its bytes, as slots, and the rest.
    pub(crate) fn open(self) -> (Frame, Slots<u8>)
        ensures frame { (result.0.owners ≡ self.owners) × (result.0.len ≡ length self.bytes) }
        ensures position { (slots_ptr result.1 ≡ bytes_at result.0.words) × (slots_len result.1 ≡ length self.bytes) }
        ensures bytes { (slots_items result.1 ≡ self.bytes) × (slots_filled result.1 ≡ self.filled) }
    {
        let Block { words } = self;
        unsafe {
            let len = words.add(1).read() as usize;
            (
                Frame { words },
                Slots::from_raw_parts(words.add(2) as *mut u8, len),
            )
        }
    }

    /// Puts the bytes into the block again.
    pub(crate) fn close(frame: Frame, bytes: Slots<u8>) -> Block
        requires { (slots_ptr bytes ≡ bytes_at frame.words) × (slots_len bytes ≡ frame.len) }
        ensures { (result.owners ≡ frame.owners) × (result.bytes ≡ slots_items bytes) × (result.filled ≡ slots_filled bytes) }
    {
        let Frame { words } = frame;
        let _parts = unsafe { bytes.into_raw_parts() };
        Block { words }
    }

    /// Returns the memory of the block as room again, with the length that it had.
    pub(crate) fn into_room(self) -> (Room<Global>, usize)
        ensures { (result.0.len ≡ length self.bytes) × (result.1 ≡ length self.bytes) }
    {
        let Block { words } = self;
        let len = unsafe { words.add(1).read() };
        let by = PhantomData;
        (Room { words, by }, len as usize)
    }
}
