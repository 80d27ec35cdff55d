//! Tiles under names on a swap disk.

ghost use Rattle.std.specs.Prelude.{◌≡◌, ◌≤◌, ◌^◌, IfErr, IfOk, IfSome, IsNone, IsSome, Some, length, min};
ghost use Rattle.std.specs.Option.{option_map};
ghost use Rattle.std.specs.FinMap as map;
ghost use Rattle.swap_store.specs.Content.{content_of, lengths_of};
ghost use Rattle.swap_store.specs.Store.{HasDiskCause, Keeps, WritesBeside, on_disk};
ghost use Rattle.swap_store.specs.Placement.{IsPlacement};

use crate::block_map::BlockMap;
use crate::extents;
use alloc_basics::NoMemory;
use chain_owners::{Run, SwapRefused};
use outside_io::{Lent, SwapDisk};
use std::alloc::Global;
use std::marker::Model;
use tile_cow::Tile;

/// The memory of a store without names, before it has its disk. A clause sees where its names and its
/// free runs are.
#[derive(Drop)]
pub struct StoreMemory {
    map: BlockMap,
    spare: Vec<u8>,
    alloc: Global,
}

impl Model for StoreMemory {
    ghost use Rattle.std.specs.Prelude.{◌≡◌, vec_len};
    ghost use Rattle.swap_store.specs.Placement.{Placement, placement_code};

    ghost Value = { Placement };

    ghost coded = { placement_code };

    ghost view = { λ a. a.map };

    ghost invariant = { λ a. vec_len a.spare ≡ 65536 };
}

impl StoreMemory {
    /// Returns the memory of a store over so many blocks, all of them free.
    pub fn new(alloc: Global, blocks: u32) -> Result<StoreMemory, NoMemory>
        requires { blocks ≤ 2 ^ 20 }
        ensures used { IfOk result (λ memory. memory.used ≡ blocks) }
        ensures empty { IfOk result (λ memory. memory.extents ≡ map.empty) }
    {
        let spare = vec![in alloc; 0; 65_536]?;
        let map = BlockMap::new(alloc, blocks)?;
        Ok(StoreMemory { map, spare, alloc })
    }
}

/// Keeps tiles under names in runs of blocks of a disk that it owns. A clause sees it as its `placement` and `disk`.
#[derive(Drop)]
pub struct Store<D: SwapDisk> {
    map: BlockMap,
    disk: D,
    spare: Vec<u8>,
    alloc: Global,
}

/// A store over a disk that was lent to it.
pub type SwapStore<'s, D> = Store<Lent<'s, D>>;

impl<D: SwapDisk> Model for Store<D> {
    ghost use Rattle.std.specs.Prelude.{◌≡◌, ◌≤◌, vec_len};
    ghost use Rattle.swap_store.specs.Store.{StoreState, store_code};
    ghost use Rattle.swap_store.specs.Placement.{IsPlacement};

    ghost Value = { StoreState D };

    ghost coded = { store_code D.code };

    ghost view = { λ a. record { placement = a.map; disk = a.disk } };

    ghost invariant = { λ a. (a.map.used ≤ D.block_count a.disk) × (vec_len a.spare ≡ 65536) };
}

impl<'s, D: SwapDisk> Store<Lent<'s, D>> {
    /// Returns a store without names, over the first `blocks` blocks of a disk, or all where it has
    /// fewer. A caller that must still know the disk where memory runs out takes a `StoreMemory` first, and
    /// then makes the store by `over`.
    pub fn new(alloc: Global, disk: &'s mut D, blocks: u32) -> Result<Store<Lent<'s, D>>, NoMemory>
        ensures used { IfOk result (λ store. store.placement.used ≡ min blocks (D.block_count disk.old)) }
        ensures empty { IfOk result (λ store. store.placement.extents ≡ map.empty) }
        ensures disk { IfOk result (λ store. store.disk.disk ≡ disk.entry) }
    {
        let memory = StoreMemory::new(alloc, blocks.min(disk.size()))?;
        Ok(Store::over(memory, Lent { disk }))
    }
}

impl<D: SwapDisk> Store<D> {
    /// Returns a store over a disk, for which the memory was taken before. It can't fail,
    /// so the disk is lent only once all memory is there.
    pub fn over(memory: StoreMemory, disk: D) -> Store<D>
        requires { memory.used ≤ D.block_count disk }
        ensures placement { result.placement ≡ memory }
        ensures disk { result.disk ≡ disk }
    {
        let StoreMemory { map, spare, alloc } = memory;
        Store {
            map,
            disk,
            spare,
            alloc,
        }
    }

    /// Returns whether a name is there.
    pub fn has(&self, name: u64) -> bool
        ensures { result ≡ map.contains_key self.now.placement.extents name }
    {
        self.map.extent(name).is_some()
    }

    /// Returns how many bytes a name has, where it is there.
    pub fn len_of(&self, name: u64) -> Option<u32>
        ensures { result ≡ map.get (lengths_of self.now.placement.extents) name }
    {
        self.map.extent(name).map(|extent| extent.len)
    }

    /// Returns the free runs, in order. They have exactly the blocks of no name, and neighbors are one
    /// run.
    pub fn free_runs(&self) -> &[Run]
        ensures value { result.now ≡ self.now.placement.free }
        ensures laws { IsPlacement self.now.placement }
    {
        self.map.free_runs()
    }

    /// Returns how many blocks of the disk are used, from block 0 on.
    pub fn used_blocks(&self) -> u32
        ensures used { result ≡ self.now.placement.used }
        ensures known { result ≤ D.block_count self.now.disk }
    {
        self.map.used_blocks()
    }

    /// Writes the bytes of a tile to the lowest free run that is long enough for them, and returns its
    /// index. No name has its blocks yet, so the bytes of all names are unchanged.
    fn write_beside(&mut self, tile: &Tile) -> Result<usize, SwapRefused>
        ensures { WritesBeside tile.now result
            (on_disk D.blocks D.faults D.block_count D.loans self.old)
            (on_disk D.blocks D.faults D.block_count D.loans self.new) }
    {
        let bytes = tile.bytes();
        let index = self.map.fitting_run(bytes.len() as u32)?;
        let first = self.map.free_runs()[index].first;
        extents::write_extent(&mut self.disk, first, bytes, &mut self.spare)?;
        Ok(index)
    }

    /// Keeps the bytes of a tile under a name, in the lowest free run that is long enough for them.
    /// After `SwapFault`, `SwapFull` or `NoMemory` no name was changed, but blocks of no name may have other bytes.
    pub fn put(&mut self, name: u64, tile: &Tile) -> Result<(), SwapRefused>
        requires { IsNone (map.get self.old.placement.extents name) }
        ensures { Keeps name tile.now result
            (on_disk D.blocks D.faults D.block_count D.loans self.old)
            (on_disk D.blocks D.faults D.block_count D.loans self.new) }
    {
        let index = self.write_beside(tile)?;
        self.map.add(name, index, tile.bytes().len() as u32)?;
        Ok(())
    }

    /// Replaces the bytes of a name that is there. The new ones are written to the lowest free run that
    /// is long enough, beside the old ones, whose blocks become free then. After an error the name
    /// has its old bytes, but blocks of no name may have other bytes. The errors are those of [`Store::put`].
    pub fn replace(&mut self, name: u64, tile: &Tile) -> Result<(), SwapRefused>
        requires { IsSome (map.get self.old.placement.extents name) }
        ensures { Keeps name tile.now result
            (on_disk D.blocks D.faults D.block_count D.loans self.old)
            (on_disk D.blocks D.faults D.block_count D.loans self.new) }
    {
        let index = self.write_beside(tile)?;
        self.map.replace(name, index, tile.bytes().len() as u32)?;
        Ok(())
    }

    /// Reads the tile of a name, which has this many bytes. `SwapFault` where the disk fails, `NoMemory` if memory runs out.
    pub fn get(&mut self, name: u64, len: u32) -> Result<Tile, SwapRefused>
        requires { map.get (lengths_of self.old.placement.extents) name ≡ Some len }
        ensures length { IfOk result (λ tile. length tile ≡ len) }
        ensures bytes { IfOk result (λ tile. IfSome (content_of self.old.placement.extents (D.blocks self.old.disk))
            (λ content. map.get content name ≡ Some tile)) }
        ensures same { self.new.placement ≡ self.old.placement }
        ensures blocks { D.blocks self.new.disk ≡ D.blocks self.old.disk }
        ensures cause { IfErr result (HasDiskCause (D.faults self.old.disk) (D.faults self.new.disk)) }
        ensures later { D.faults self.old.disk ≤ D.faults self.new.disk }
        ensures block_count { D.block_count self.new.disk ≡ D.block_count self.old.disk }
        ensures loans { D.loans self.new.disk ≡ D.loans self.old.disk }
    {
        let first = self.map.extent(name).unwrap().first;
        extents::read_extent(&mut self.disk, first, len, &mut self.spare)?;
        Ok(Tile::of(self.alloc, &self.spare[..len as usize])?)
    }

    /// Takes a name out, and makes its blocks free. Takes no memory.
    pub fn forget(&mut self, name: u64)
        requires { IsSome (map.get self.old.placement.extents name) }
        ensures extents { self.new.placement.extents ≡ map.remove self.old.placement.extents name }
        ensures used { self.new.placement.used ≡ self.old.placement.used }
        ensures lengths { lengths_of self.new.placement.extents ≡ map.remove (lengths_of self.old.placement.extents) name }
        ensures content { content_of self.new.placement.extents (D.blocks self.new.disk)
            ≡ option_map (λ content. map.remove content name)
            (content_of self.old.placement.extents (D.blocks self.old.disk)) }
        ensures disk { self.new.disk ≡ self.old.disk }
    {
        self.map.remove(name);
    }

    /// Gives the disk back, as the last call left it.
    pub fn end(self) -> D
        ensures { result ≡ self.disk }
    {
        let Store {
            map: _,
            disk,
            spare: _,
            alloc: _,
        } = self;
        disk
    }
}
