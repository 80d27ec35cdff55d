//! Where names are on a disk.

ghost use Rattle.std.specs.Prelude.{◌≡◌, ℕ, ◌+◌, ◌<◌, ◌≤◌, ◌^◌, ◌↔◌, [], Some, None, Err, IsSome, IsNone, IfOk, OnOk, OnErr, MatchResult, length, slice_index_or, vec_capacity, vec_len};
ghost use Rattle.std.specs.FinMap as map;
ghost use Rattle.tile_cow.specs.Tile.{IsTileLength};
ghost use Rattle.swap_store.specs.Run.{IsFirstFit, blocks_for, longest};
ghost use Rattle.swap_store.specs.Placement.{HasRoomAt, IsPlacement, TakesBlocks};

use crate::runs;
use alloc_basics::NoMemory;
use chain_owners::{Run, SwapRefused};
use name_maps::NameMap;
use std::alloc::{AllocError, Global};
use std::marker::Model;

/// The bytes of a block.
pub(crate) const BLOCK_BYTES: usize = 4096;

/// Returns how many blocks so many bytes take.
pub(crate) fn blocks_for(len: u32) -> u32
    ensures { result ≡ blocks_for len }
{
    len.div_ceil(BLOCK_BYTES as u32)
}

/// Where the bytes of a name are.
#[derive(Clone, Copy, Debug, PartialEq, Eq)]
pub(crate) struct Extent {
    /// The number of the first block.
    pub first: u32,
    /// How many bytes there are.
    pub len: u32,
}

/// Makes room for so many runs more. Where there is too little, it asks for an eighth more than that, since
/// twice as much would cost a name 16 bytes and not 9.
fn reserve_runs(free: &mut Vec<Run>, more: usize) -> Result<(), NoMemory>
    ensures items { free.new.items ≡ free.old.items }
    ensures room { OnOk result (vec_len free.new + more ≤ vec_capacity free.new) }
    ensures capacity { vec_capacity free.old ≤ vec_capacity free.new }
{
    if more > free.capacity() - free.len() {
        free.reserve_exact(more.saturating_add(more / 8))?;
    }
    Ok(())
}

/// The extents of names, and the free runs of blocks: those that no name has. There is room for one
/// free run more for each name, so that to forget one takes no memory.
#[derive(Drop)]
pub(crate) struct BlockMap {
    extents: NameMap<Extent>,
    free: Vec<Run>,
    used: u32,
}

impl Model for BlockMap {
    ghost use Rattle.std.specs.Prelude.{◌+◌, ◌≤◌, vec_len, vec_capacity};
    ghost use Rattle.std.specs.FinMap as map;
    ghost use Rattle.swap_store.specs.Placement.{Placement, placement_code, IsPlacement};

    ghost Value = { Placement };

    ghost coded = { placement_code };

    ghost view = { λ a. record { extents = a.extents; free = a.free.items; used = a.used } };

    ghost invariant = { λ a. IsPlacement (record { extents = a.extents; free = a.free.items; used = a.used })
        × (vec_len a.free + map.len a.extents ≤ vec_capacity a.free) };
}

impl BlockMap {
    /// Returns a map without names, in which the first `used` blocks of a disk are free.
    pub fn new(alloc: Global, used: u32) -> Result<BlockMap, NoMemory>
        requires { used ≤ 2 ^ 20 }
        ensures used { IfOk result (λ made. made.used ≡ used) }
        ensures empty { IfOk result (λ made. made.extents ≡ map.empty) }
    {
        let mut free = Vec::new(alloc);
        if used > 0 {
            free.push(Run {
                first: 0,
                count: used,
            })?;
        }
        Ok(BlockMap {
            extents: NameMap::new(alloc),
            free,
            used,
        })
    }

    /// Returns the free runs.
    pub fn free_runs(&self) -> &[Run]
        ensures value { result.now ≡ self.now.free }
        ensures laws { IsPlacement self.now }
    {
        &self.free
    }

    /// Returns how many blocks are used.
    pub fn used_blocks(&self) -> u32
        ensures { result ≡ self.now.used }
    {
        self.used
    }

    /// Returns the extent of a name, where it has one.
    pub fn extent(&self, name: u64) -> Option<Extent>
        ensures value { result ≡ map.get self.now.extents name }
        ensures laws { IsPlacement self.now }
    {
        self.extents.get(name)
    }

    /// Returns the index of the lowest free run that so many bytes fit in.
    pub fn fitting_run(&self, len: u32) -> Result<usize, SwapRefused>
        requires { IsTileLength len }
        ensures found { MatchResult result (IsFirstFit self.now.free (blocks_for len))
            (λ refused. refused ≡ SwapRefused.SwapFull (blocks_for len) (longest self.now.free)) }
        ensures full { OnErr result (longest self.now.free < blocks_for len) }
    {
        let needed = blocks_for(len);
        runs::fitting_run(&self.free, needed).ok_or(SwapRefused::SwapFull {
            needed,
            longest: runs::longest_run(&self.free),
        })
    }

    /// Gives a name the first blocks of the free run of this index, as many as `len` bytes take.
    pub fn add(&mut self, name: u64, index: usize, len: u32) -> Result<(), NoMemory>
        requires absent { IsNone (map.get self.old.extents name) }
        requires room { HasRoomAt self.old index len }
        ensures { TakesBlocks self.old self.new name index len result }
    {
        let count = blocks_for(len);
        let first = self.free[index].first;
        reserve_runs(&mut self.free, self.extents.len() + 1)?;
        self.extents.insert(name, Extent { first, len })?;
        runs::take_first(&mut self.free, index, count);
        Ok(())
    }

    /// Moves a name to the first blocks of the free run of this index, as many as `len` bytes take, and
    /// makes its old blocks free.
    pub fn replace(&mut self, name: u64, index: usize, len: u32) -> Result<(), NoMemory>
        requires present { IsSome (map.get self.old.extents name) }
        requires room { HasRoomAt self.old index len }
        ensures { TakesBlocks self.old self.new name index len result }
    {
        let count = blocks_for(len);
        let first = self.free[index].first;
        reserve_runs(&mut self.free, self.extents.len() + 1)?;
        let old = self.extents.get(name).unwrap();
        self.extents.set(name, Extent { first, len });
        runs::take_first(&mut self.free, index, count);
        runs::give_back(&mut self.free, old.first, blocks_for(old.len));
        Ok(())
    }

    /// Makes the blocks of a name free.
    pub fn remove(&mut self, name: u64)
        requires { IsSome (map.get self.old.extents name) }
        ensures extents { self.new.extents ≡ map.remove self.old.extents name }
        ensures used { self.new.used ≡ self.old.used }
    {
        let extent = self.extents.get(name).unwrap();
        self.extents.remove(name);
        runs::give_back(&mut self.free, extent.first, blocks_for(extent.len));
    }
}
