//! Room for the block of a tile, from an allocator.
ghost use Rattle.std.specs.Prelude.{◌≡◌, ℕ, IfOk};
ghost use Rattle.tile_cow.specs.{Tile.IsTileLength, Block.room_owns};

use std::alloc::{AllocError, Allocator};
use std::marker::{Model, PhantomData};

/// Room for a block of `len` bytes at `words`, and the right to give it back to `heap`.
pub(crate) struct Room<A: Allocator> {
    pub(crate) words: *mut u64,
    pub(crate) by: PhantomData<A>,
    pub(crate) ghost len: { ℕ },
    pub(crate) ghost heap: { A },
}

impl<A: Allocator> Model for Room<A> {
    ghost also_owns = { λ r. room_owns (A.dealloc_token r.heap) r.words r.len };
}

impl<A: Allocator> Room<A> {
    /// Asks the allocator for room for a block of `len` bytes.
    pub(crate) fn allocate(alloc: &A, len: usize) -> Result<Room<A>, AllocError>
        requires { IsTileLength len }
        ensures { IfOk result (λ room. (room.len ≡ len) × (room.heap ≡ alloc.now)) }
    {
        match alloc.allocate((len + 23) / 8 * 8, 8) {
            Ok(block) => Ok(Room {
                words: block as *mut u64,
                by: PhantomData,
            }),
            Err(refused) => Err(refused),
        }
    }

    /// Gives the room back to its allocator.
    pub(crate) fn free(self, alloc: &A, len: usize)
        requires { (self.len ≡ len) × (self.heap ≡ alloc.now) }
    {
        let Room { words, by: _ } = self;
        unsafe {
            alloc.deallocate(words as *mut u8, (len + 23) / 8 * 8, 8);
        }
    }
}
