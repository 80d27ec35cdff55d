//! One of the owners of a block, and the four kinds of step on its count.
ghost use Rattle.std.specs.Prelude.{◌≡◌, ◌<◌, ◌^◌, ℕ, List, length, IfSome, MatchResult};
ghost use Rattle.tile_cow.specs.Owner.{owner_has, owner_lends};
ghost use Rattle.tile_cow.specs.{Tile.IsTileLength, Block.IsWritten};

use crate::block::Block;
use atomic_table::exchange;
use std::marker::{Brand, Model};
use std::slice;
use std::sync::atomic::Ordering::SeqCst;
use std::sync::atomic::raw;

/// An owner of a block. It can't be let go but by `claim` and `leave`. No one writes the block while
/// it has more owners than one, and the last one gets it whole. A clause sees an owner as its
/// `bytes`.
pub(crate) struct Owner {
    words: *mut u64,
    pub(crate) ghost bytes: { List ℕ },
}

impl Model for Owner {
    ghost also_owns = { λ o. owner_has o.words o.bytes };

    ghost also_shares = { λ o _ κ. owner_lends o.words o.bytes κ };
}

impl Owner {
    /// Makes the first owner of a block.
    pub(crate) fn first(block: Block) -> Owner
        requires { (block.owners ≡ 1) × IsWritten block.bytes block.filled }
        ensures { result.bytes ≡ block.bytes }
    {
        let Block { words } = block;
        Owner { words }
    }

    /// Returns how many owners the block has at this moment.
    pub(crate) fn load(&self) -> u64
        ensures { 0 < result }
    {
        unsafe { raw::load::<Brand>(self.words, SeqCst) }
    }

    /// Returns one owner more, if there are still `seen` owners.
    pub(crate) fn join(&self, seen: u64) -> Option<Owner>
        requires { seen < 2 ^ 40 }
        ensures { IfSome result (λ owner. owner.bytes ≡ self.now.bytes) }
    {
        let words = self.words;
        let found = unsafe { exchange::<Brand>(words, seen, seen + 1) };
        if found == seen {
            Some(Owner { words })
        } else {
            None
        }
    }

    /// Returns the whole block, if this is its only owner, else the owner.
    pub(crate) fn claim(self) -> Result<Block, Owner>
        ensures { MatchResult result (λ block. (block.owners ≡ 1) × (block.bytes ≡ self.bytes) × IsWritten block.bytes block.filled) (λ owner. owner ≡ self) }
    {
        let Owner { words } = self;
        let owners = unsafe { raw::load::<Brand>(words, SeqCst) };
        if owners == 1 {
            Ok(Block { words })
        } else {
            Err(Owner { words })
        }
    }

    /// Counts one owner less. The last one gets the whole block, which then counts none.
    pub(crate) fn leave(self) -> Option<Block>
        ensures { IfSome result (λ block. (block.owners ≡ 0) × (block.bytes ≡ self.bytes)) }
    {
        let Owner { words } = self;
        let owners = unsafe { raw::fetch_sub::<Brand>(words, 1, SeqCst) };
        if owners == 1 {
            Some(Block { words })
        } else {
            None
        }
    }

    /// Returns the bytes.
    pub(crate) fn bytes(&self) -> &[u8]
        requires { IsTileLength (length self.now.bytes) }
        ensures { result.now ≡ self.now.bytes }
    {
        unsafe {
            let words = self.words;
            let len = *words.add(1) as usize;
            slice::from_raw_parts(words.add(2) as *const u8, len)
        }
    }
}

unsafe impl Send for Owner {}

unsafe impl Sync for Owner {}
