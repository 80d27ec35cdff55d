//! The handler whose tiles are on a swap disk. `free_runs` and `bytes` are also called for their clauses alone.

ghost use Rattle.std.specs.Prelude.{◌≡◌, ◌≤◌, Some, IfErr, OnErr, OnOk, length, ⊤};
ghost use Rattle.std.specs.Option.{option_map};
ghost use Rattle.std.specs.FinMap as map;
ghost use Rattle.chain_owners.specs.Held.{HasLengths};
ghost use Rattle.swap_store.specs.Content.{content_of, lengths_of};
ghost use Rattle.swap_store.specs.Store.{HasPutCause};
ghost use Rattle.tile_chain.specs.DiskTiles.{IsDisk, disk_counts, disk_has_counts, disk_has_same_names, disk_held, disk_is_chain, disk_room};

use chain_contracts::TileHandler;
use chain_owners::{ChainMeaning, SwapRefused};
use outside_io::{Lent, SwapDisk};
use swap_store::Store;
use tile_cow::Tile;

/// Keeps each of its tiles in the store that it owns.
#[derive(Drop)]
pub struct DiskHandler<D: SwapDisk> {
    store: Store<D>,
}

/// A handler over a disk that was lent to it.
pub type SwapHandler<'s, D> = DiskHandler<Lent<'s, D>>;

impl<D: SwapDisk> ChainMeaning for DiskHandler<D> {
    ghost held = { λ tiles. disk_held tiles.store.placement (D.blocks tiles.store.disk) };

    ghost counts = { λ tiles. disk_counts tiles.store.placement (D.faults tiles.store.disk) };

    ghost store = { λ tiles. Some (disk_room tiles.store.placement) };

    ghost resident = { λ _. 0 };

    ghost loans = { λ tiles. D.loans tiles.store.disk };

    ghost is_valid = { λ tiles. IsDisk tiles.store.placement (D.blocks tiles.store.disk) };

    ghost same_names = { λ tiles. disk_has_same_names tiles.store.placement (D.blocks tiles.store.disk) };

    ghost same_counts = { λ tiles.
        disk_has_counts tiles.store.placement (D.blocks tiles.store.disk) (D.faults tiles.store.disk) };

    ghost chain_laws = { λ tiles.
        disk_is_chain tiles.store.placement (D.blocks tiles.store.disk) (D.faults tiles.store.disk) };
}

impl<D: SwapDisk> DiskHandler<D> {
    /// Returns a handler of the tiles of a store.
    pub fn new(store: Store<D>) -> DiskHandler<D>
        ensures store { result.store ≡ store }
        ensures valid { HasLengths (disk_held store.placement (D.blocks store.disk))
            → IsDisk store.placement (D.blocks store.disk) }
    {
        store.free_runs();
        DiskHandler { store }
    }

    /// Keeps the bytes of a tile under a name, beside those that it has, where it is there.
    fn write(&mut self, name: u64, tile: &Tile) -> Result<(), SwapRefused>
        ensures lengths { OnOk result (lengths_of self.new.store.placement.extents
            ≡ map.insert (lengths_of self.old.store.placement.extents) name (length tile.now)) }
        ensures content { OnOk result (content_of self.new.store.placement.extents (D.blocks self.new.store.disk)
            ≡ option_map (λ content. map.insert content name tile.now)
            (content_of self.old.store.placement.extents (D.blocks self.old.store.disk))) }
        ensures err { OnErr result (self.new.store.placement ≡ self.old.store.placement) }
        ensures unchanged { OnErr result (content_of self.new.store.placement.extents (D.blocks self.new.store.disk)
            ≡ content_of self.old.store.placement.extents (D.blocks self.old.store.disk)) }
        ensures cause { IfErr result (HasPutCause self.old.store.placement.free (length tile.now)
            (D.faults self.old.store.disk) (D.faults self.new.store.disk)) }
        ensures used { self.new.store.placement.used ≡ self.old.store.placement.used }
        ensures later { D.faults self.old.store.disk ≤ D.faults self.new.store.disk }
        ensures loans { D.loans self.new.store.disk ≡ D.loans self.old.store.disk }
    {
        if self.store.has(name) {
            return self.store.replace(name, tile);
        }
        self.store.put(name, tile)
    }

    /// Gives the disk back, as the last call left it.
    pub fn end(self) -> D
        ensures { result ≡ self.store.disk }
    {
        let DiskHandler { store } = self;
        store.end()
    }
}

impl<D: SwapDisk> TileHandler for DiskHandler<D> {
    ghost in_swap = { λ tiles. disk_held tiles.store.placement (D.blocks tiles.store.disk) };

    ghost full_at_get = { λ _ _. ⊥ };

    ghost full_at_put = { λ _ _. ⊤ };

    fn has(&self, name: u64) -> bool {
        self.store.has(name)
    }

    fn get(&mut self, name: u64, len: u32) -> Result<Tile, SwapRefused> {
        let tile = self.store.get(name, len);
        self.store.free_runs();
        tile
    }

    fn put(&mut self, name: u64, tile: &Tile) -> Result<(), SwapRefused> {
        let answer = self.write(name, tile);
        tile.bytes();
        self.store.free_runs();
        answer
    }

    fn forget(&mut self, name: u64) {
        self.store.forget(name);
        self.store.free_runs();
    }

    fn flush(&mut self) -> Result<(), SwapRefused> {
        Ok(())
    }
}
