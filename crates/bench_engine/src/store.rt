//! Calls of a store of tiles, on a disk in memory and in the real swap file, beside the plain blocks.

ghost use Rattle.std.specs.Prelude.{◌≡◌, length};

use crate::bench::{Bench, Host, Times, Work};
use crate::bytes::{last, noise};
use outside_io::{Lent, SureSwap, SwapDisk};
use std::alloc::Global;
use swap_store::{Store, SwapStore};
use tile_cow::Tile;

/// Blocks of a disk that are written or read one after another, again from the first on after the last.
#[derive(Drop)]
pub struct BlockWork<'a, D: SwapDisk> {
    disk: &'a mut D,
    is_read: bool,
    next: u32,
    block: Vec<u8>,
    ghost whole: { length block.items ≡ 4096 },
}

impl<D: SwapDisk> Work for BlockWork<'_, D> {
    fn call(&mut self) -> Option<u64> {
        let at = self.next;
        if at >= self.disk.size() {
            return None;
        }
        self.next = at + 1;
        if self.is_read {
            self.disk.read_block(at, &mut self.block).ok()?;
        } else {
            self.disk.write_block(at, &self.block).ok()?;
        }
        Some(last(&self.block))
    }
}

/// A call on a store.
#[derive(Clone, Copy)]
enum Call {
    Put,
    Get,
    Replace,
    Forget,
}

/// The calls and their names.
const CALLS: [(&str, Call); 4] = [
    ("put", Call::Put),
    ("get", Call::Get),
    ("forget and put", Call::Replace),
    ("forget", Call::Forget),
];

/// Tiles of 1 to 16 blocks, and a store of so many names, on each of which a call is made.
#[derive(Drop)]
struct StoreWork<D: SwapDisk> {
    store: Store<D>,
    tiles: Vec<Tile>,
    call: Call,
    names: u64,
    next: u64,
}

impl<D: SwapDisk> StoreWork<D> {
    /// Puts a tile of some length under a name that isn't there.
    fn put(&mut self, name: u64, number: u64) -> Option<u64> {
        let tile = self.tiles.get((number.wrapping_mul(7) % 16) as usize)?;
        if self.store.has(name) {
            return None;
        }
        self.store.put(name, tile).ok()?;
        Some(tile.bytes().len() as u64)
    }

    /// Forgets a name that is there, and returns how many free runs there are then.
    fn forget(&mut self, name: u64) -> Option<u64> {
        if !self.store.has(name) {
            return None;
        }
        self.store.forget(name);
        Some(self.store.free_runs().len() as u64)
    }
}

impl<D: SwapDisk> Work for StoreWork<D> {
    fn call(&mut self) -> Option<u64> {
        let round = self.next;
        self.next = round.wrapping_add(1);
        let name = round.wrapping_mul(7_919).checked_rem(self.names)?;
        match self.call {
            Call::Put => self.put(name, name),
            Call::Get => {
                let len = self.store.len_of(name)?;
                Some(last(self.store.get(name, len).ok()?.bytes()))
            }
            Call::Replace => {
                self.forget(name)?;
                self.put(name, name.wrapping_add(3))
            }
            Call::Forget => self.forget(name),
        }
    }
}

/// Returns a tile of each number of blocks from 1 to 16. None if memory runs out.
fn tiles_of_all_lengths(alloc: Global) -> Option<Vec<Tile>> {
    let mut tiles = Vec::new(alloc);
    for count in 1..17u8 {
        let bytes = vec![in alloc; count; usize::from(count) * 4_096].ok()?;
        tiles.push(Tile::of(alloc, &bytes).ok()?).ok()?;
    }
    Some(tiles)
}

/// Times the first blocks of a disk: each written, and then each read.
pub fn time_blocks<R: Host, D: SwapDisk>(
    bench: &Bench<'_, R>,
    label: &str,
    disk: &mut D,
    blocks: u32,
) -> Option<()> {
    for is_read in [false, true] {
        let mut work = BlockWork {
            disk: &mut *disk,
            is_read,
            next: 0,
            block: noise(bench.rt.alloc(), 4_096)?,
        };
        let times = Times {
            rounds: 1,
            calls: blocks,
            units: 1,
            bytes: 4_096,
        };
        let name = if is_read { "read" } else { "written" };
        let label = format!(in bench.rt.alloc(); "{label}: block {name}").ok()?;
        bench.time(&label, times, &mut work)?;
    }
    Some(())
}

/// Times the calls of a store of so many names on a disk.
fn time_store<R: Host, D: SwapDisk>(
    bench: &Bench<'_, R>,
    label: &str,
    disk: &mut D,
    names: u32,
) -> Option<()> {
    let alloc = bench.rt.alloc();
    let blocks = names.saturating_mul(11);
    time_blocks(bench, label, disk, blocks.min(1 << 20))?;
    let mut work: StoreWork<Lent<'_, D>> = StoreWork {
        store: SwapStore::new(alloc, disk, blocks).ok()?,
        tiles: tiles_of_all_lengths(alloc)?,
        call: Call::Put,
        names: u64::from(names),
        next: 0,
    };
    let times = Times {
        rounds: 1,
        calls: names,
        units: 1,
        bytes: 34_816,
    };
    for (name, call) in &CALLS {
        work.call = *call;
        let label = format!(in alloc; "{label}: {name}").ok()?;
        bench.time(&label, times, &mut work)?;
    }
    Some(())
}

/// Times the store over a disk in memory and in a file.
pub fn time_all<R: Host, D: SwapDisk>(bench: &Bench<'_, R>, file: &mut D) -> Option<()> {
    let names = bench.size.min(95_000);
    let mut memory = SureSwap::new(bench.rt.alloc(), names * 11).ok()?;
    time_store(bench, "swap in memory", &mut memory, names)?;
    time_store(bench, "swap in a file", file, names)
}
