//! Calls on tiles, beside the same of a vector whose owners `Arc` counts, and beside plain copies.

ghost use Rattle.std.specs.Prelude.{◌≡◌, length};
ghost use Rattle.tile_cow.specs.Tile.{IsTileLength};

use crate::bench::{Bench, Host, Times, Work};
use crate::bytes::{last, mark, noise};
use std::alloc::Global;
use std::sync::Arc;
use tile_cow::{Tile, Wrote};

/// A call on a tile, on a vector with a count of owners, or on plain bytes.
#[derive(Clone, Copy)]
enum Call {
    /// Another owner of a tile comes and goes.
    Share,
    /// A tile is made of bytes.
    Make,
    /// A tile's bytes are copied out.
    Read,
    /// All bytes of a tile of one owner are written.
    Write,
    /// All bytes of a tile of two owners are written.
    WriteShared,
    ArcShare,
    ArcMake,
    ArcWrite,
    /// Bytes are copied to others.
    Copy,
    /// Bytes are copied into memory that is asked for.
    CopyAfresh,
}

/// The calls and their names.
const CALLS: [(&str, Call); 10] = [
    ("share and drop", Call::Share),
    ("make and drop", Call::Make),
    ("read", Call::Read),
    ("write in place", Call::Write),
    ("share and write", Call::WriteShared),
    ("Arc: share and drop", Call::ArcShare),
    ("Arc: make and drop", Call::ArcMake),
    ("Arc: write in place", Call::ArcWrite),
    ("copy", Call::Copy),
    ("copy afresh", Call::CopyAfresh),
];

/// What the calls are made on: a tile, a vector with owners, and two rows of as many bytes.
#[derive(Drop)]
struct TileWork {
    call: Call,
    alloc: Global,
    tile: Tile,
    shared: Arc<Vec<u8>>,
    row: Vec<u8>,
    into: Vec<u8>,
    ghost size: { IsTileLength (length row.items) },
    ghost whole: { length tile ≡ length row.items },
    ghost other: { length into.items ≡ length row.items },
}

impl TileWork {
    /// Makes a tile of so many bytes. None if memory runs out.
    fn new(alloc: Global, call: Call, length: u32) -> Option<TileWork>
        requires { IsTileLength length }
    {
        let row = noise(alloc, length as usize)?;
        let into = noise(alloc, length as usize)?;
        Some(TileWork {
            call,
            alloc,
            tile: Tile::of(alloc, &row).ok()?,
            shared: counted(alloc, &row)?,
            row,
            into,
        })
    }

    /// Makes a call on the tile.
    fn call_tile(&mut self) -> Option<u64> {
        let wrote = match self.call {
            Call::Share => return Some(self.tile.share(self.alloc).ok()?.bytes().len() as u64),
            Call::Make => return Some(last(Tile::of(self.alloc, &self.row).ok()?.bytes())),
            Call::WriteShared => {
                let _other = self.tile.share(self.alloc).ok()?;
                self.tile.write(self.alloc, 0, &self.row).ok()?
            }
            _ => self.tile.write(self.alloc, 0, &self.row).ok()?,
        };
        Some(u64::from(wrote == Wrote::InPlace))
    }

    /// Makes a call on the vector that has owners.
    fn call_arc(&mut self) -> Option<u64> {
        match self.call {
            Call::ArcShare => Some(Arc::try_clone(&self.shared).ok()?.len() as u64),
            Call::ArcMake => Some(last(&*counted(self.alloc, &self.row)?)),
            _ => {
                let own = Arc::get_mut(&mut self.shared)?;
                let end = own.len().min(self.row.len());
                own[..end].copy_from_slice(&self.row[..end]);
                Some(1)
            }
        }
    }
}

impl Work for TileWork {
    fn call(&mut self) -> Option<u64> {
        mark(&mut self.row);
        match self.call {
            Call::Share | Call::Make | Call::Write | Call::WriteShared => self.call_tile(),
            Call::ArcShare | Call::ArcMake | Call::ArcWrite => self.call_arc(),
            Call::Read => {
                self.into.copy_from_slice(self.tile.bytes());
                Some(last(&self.into))
            }
            Call::Copy => {
                self.into.copy_from_slice(&self.row);
                Some(last(&self.into))
            }
            Call::CopyAfresh => Some(last(&Vec::from_slice(self.alloc, &self.row).ok()?)),
        }
    }
}

/// Copies bytes into a vector with a count of owners.
fn counted(alloc: Global, bytes: &[u8]) -> Option<Arc<Vec<u8>>> {
    Arc::new(alloc, Vec::from_slice(alloc, bytes).ok()?).ok()
}

/// Times each call, of 64 by 64 pixels of one byte and of four.
pub fn time_all<R: Host>(bench: &Bench<'_, R>) -> Option<()> {
    for length in [4_096u32, 16_384] {
        for (name, call) in &CALLS {
            let mut work = TileWork::new(bench.rt.alloc(), *call, length)?;
            let label = format!(in bench.rt.alloc(); "tiles: {name}, {length} bytes").ok()?;
            let times = Times {
                rounds: bench.rounds,
                calls: 1_000,
                units: 1,
                bytes: u64::from(length),
            };
            bench.time(&label, times, &mut work)?;
        }
    }
    Some(())
}
