//! A disk that is lent to a store, and what its owner knows of it afterwards.

ghost use Rattle.std.specs.Prelude.{◌≡◌, ◌≤◌, IsErrOf};
ghost use Rattle.chain_owners.specs.Counts.{Rose};

use chain_owners::SwapRefused;
use outside_io::{Lent, SwapDisk};
use std::alloc::Global;
use swap_store::{Store, StoreMemory};
use tile_cow::Tile;

/// Keeps a tile on a disk by a store of its own. It is refused for an I/O error only where the disk's count
/// rose. The count and the size of the disk are known whatever is answered, also where the store's own
/// memory was refused.
pub fn keep<D: SwapDisk>(alloc: Global, disk: &mut D, tile: &Tile) -> Result<(), SwapRefused>
    ensures cause { IsErrOf result SwapRefused.SwapFault → Rose (D.faults disk.old) (D.faults disk.new) }
    ensures later { D.faults disk.old ≤ D.faults disk.new }
    ensures block_count { D.block_count disk.new ≡ D.block_count disk.old }
{
    let memory = StoreMemory::new(alloc, disk.size().min(16))?;
    let mut store = Store::over(memory, Lent { disk });
    let answer = store.put(1, tile);
    let Lent { disk: _back } = store.end();
    answer
}
