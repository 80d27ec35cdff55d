//! A tile and its owners.

ghost use Rattle.std.specs.Prelude.{◌≡◌, ◌+◌, ◌≤◌, ◌^◌, ◌<◌, IfOk, IfSome, IsTrue, OnErr, OnOk, length, replicate, ℕ, List, true, false};
ghost use Rattle.tile_cow.specs.Tile.{IsTileLength, overwritten};
ghost use Rattle.tile_cow.specs.Block.{IsWritten};

use crate::block::Block;
use crate::owner::Owner;
use alloc_basics::NoMemory;
use core::mem;
use std::alloc::Global;
use std::marker::Model;

/// From 1 to 65,536 bytes. Tiles may share the memory of equal bytes until one of them is written,
/// and no owner sees another's writes. Dropping a tile takes no memory, and the last owner frees the
/// block. A clause sees a tile as the list of its bytes.
pub struct Tile {
    owner: Owner,
    alloc: Global,
}

impl Model for Tile {
    ghost use Rattle.std.specs.Prelude.{ℕ, List, length};
    ghost use Rattle.tile_cow.specs.Tile.{IsTileLength};

    ghost Value = { List ℕ };

    ghost view = { λ tile. tile.owner.bytes };

    ghost invariant = { λ tile. IsTileLength (length tile.owner.bytes) };
}

/// Where a write put its bytes.
#[derive(Clone, Copy, Debug, PartialEq, Eq)]
pub enum Wrote {
    /// Into the block that the tile had, of which it was the only owner. This took no memory, which
    /// tests alone show, since a contract doesn't see what memory is asked for.
    InPlace,
    /// Into a copy of the block, of which the tile is the only owner.
    Copied,
}

/// A block with fewer owners than this takes one owner more.
const MAX_OWNERS: u64 = 1 << 40;

impl Tile {
    /// Returns a tile of `len` bytes, all zero.
    pub fn zero(alloc: Global, len: u32) -> Result<Tile, NoMemory>
        requires { IsTileLength len }
        ensures { IfOk result (λ tile. tile ≡ replicate len 0) }
    {
        let block = Block::new(alloc, len as usize)?.zeroed();
        Ok(Tile::from_block(alloc, block))
    }

    /// Returns a tile of a copy of these bytes.
    pub fn of(alloc: Global, bytes: &[u8]) -> Result<Tile, NoMemory>
        requires { IsTileLength (length bytes.now) }
        ensures { IfOk result (λ tile. tile ≡ bytes.now) }
    {
        let block = Block::new(alloc, bytes.len())?.overwrite(0, bytes);
        Ok(Tile::from_block(alloc, block))
    }

    /// Returns a tile of a copy of these bytes, and frees the vector.
    pub fn from_vec(alloc: Global, bytes: Vec<u8>) -> Result<Tile, NoMemory>
        requires { IsTileLength (length bytes.items) }
        ensures { IfOk result (λ tile. tile ≡ bytes.items) }
    {
        Tile::of(alloc, &bytes)
    }

    /// Returns the only owner of a block.
    fn from_block(alloc: Global, block: Block) -> Tile
        requires { (block.owners ≡ 1) × IsWritten block.bytes block.filled × IsTileLength (length block.bytes) }
        ensures { result ≡ block.bytes }
    {
        let owner = Owner::first(block);
        Tile { owner, alloc }
    }

    /// Returns another owner of the same bytes. It tries once to become an owner of the block, and
    /// copies the bytes where the block has too many owners, or where another owner came or left
    /// between the two steps of the try.
    pub fn share(&self, alloc: Global) -> Result<Tile, NoMemory>
        ensures { IfOk result (λ tile. tile ≡ self.now) }
    {
        match self.another_owner() {
            Some(owner) => Ok(Tile {
                owner,
                alloc: self.alloc,
            }),
            None => Tile::of(alloc, self.bytes()),
        }
    }

    /// Tries once to make one owner more of the block.
    fn another_owner(&self) -> Option<Owner>
        ensures { IfSome result (λ owner. owner.bytes ≡ self.now) }
    {
        let seen = self.owner.load();
        if seen < MAX_OWNERS {
            self.owner.join(seen)
        } else {
            None
        }
    }

    /// Returns the bytes.
    pub fn bytes(&self) -> &[u8]
        ensures value { result.now ≡ self.now }
        ensures size { IsTileLength (length self.now) }
    {
        self.owner.bytes()
    }

    /// Writes these bytes into the range that begins at byte `at`: in place where this is the only
    /// owner of its block, else in a copy. Other owners' bytes are unchanged, and at an error this
    /// one's are too.
    pub fn write(&mut self, alloc: Global, at: u32, bytes: &[u8]) -> Result<Wrote, NoMemory>
        requires { at + length bytes.now ≤ length self.old }
        ensures written { OnOk result (self.new ≡ overwritten self.old at bytes.now) }
        ensures unchanged { OnErr result (self.new ≡ self.old) }
        ensures same_length { length self.new ≡ length self.old }
    {
        let at = at as usize;
        if mem::replace_with(&mut self.owner, (at, bytes), write_alone) {
            return Ok(Wrote::InPlace);
        }
        let copy = Block::new(alloc, self.bytes().len())?.overwrite(0, self.bytes());
        *self = Tile::from_block(alloc, copy.overwrite(at, bytes));
        Ok(Wrote::Copied)
    }
}

/// Writes the bytes of a patch, which begins at a byte of the block, where the block has no other
/// owner. Returns whether it had none.
fn write_alone(owner: Owner, patch: (usize, &[u8])) -> (Owner, bool)
    requires { patch.0 + length patch.1.now ≤ length owner.bytes }
    ensures written { result.1 ≡ true → result.0.bytes ≡ overwritten owner.bytes patch.entry.0 patch.entry.1.now }
    ensures unchanged { result.1 ≡ false → result.0.bytes ≡ owner.bytes }
{
    match owner.claim() {
        Ok(block) => (Owner::first(block.overwrite(patch.0, patch.1)), true),
        Err(owner) => (owner, false),
    }
}

impl Drop for Tile {
    fn drop(self) {
        let Tile { owner, alloc } = self;
        if let Some(block) = owner.leave() {
            block.free(alloc);
        }
    }
}
