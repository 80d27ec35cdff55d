//! Tables of tiles and their levels over a chain, of whose tiles all are in memory, or one.

ghost use Rattle.std.specs.Prelude.{◌≡◌, length};
ghost use Rattle.plane_rect.specs.Tile.{IsWhole};
ghost use Rattle.tile_cow.specs.Tile.{IsTileLength};
ghost use Rattle.level_tables.specs.Over.{IsOver, tile_length};

use crate::bench::{Bench, Host, Times, Work};
use crate::bytes::noise;
use crate::plain::PlainWork;
use level_tables::{LevelTable, new_tables_ask_nothing};
use outside_io::{SureSwap, SwapDisk};
use pixel_formats::Format;
use plane_rect::TileAt;
use std::alloc::Global;
use tile_chain::{Chain, TileChain};
use tile_cow::Tile;

/// A call on a table.
#[derive(Clone, Copy)]
enum Call {
    /// A tile is made and put.
    Put,
    /// A tile of a level is looked up and shared, or averaged first; level 0 has the tiles that were put.
    Level(u32),
}

/// What is timed: a call, by how many levels fewer the columns and rows of tiles are on which it is made one after
/// another, and those of how many calls there are.
type Step = (&'static str, Call, u32, u32);

/// Calls on each tile, and then on one again and again.
const NAMES: [Step; 4] = [
    ("tile made and put", Call::Put, 0, 0),
    ("tile read", Call::Level(0), 0, 0),
    ("one tile read", Call::Level(0), 8, 0),
    ("one tile made and put", Call::Put, 8, 0),
];

/// Level 3 averaged in new memory, in memory that was used before, held, and after one tile was put.
const LEVELS: [Step; 8] = [
    ("tile made and put", Call::Put, 0, 0),
    ("tile of level 3", Call::Level(3), 3, 3),
    ("tile put again", Call::Put, 0, 0),
    ("tile of level 3 again", Call::Level(3), 3, 3),
    ("tile of level 3 that is held", Call::Level(3), 3, 3),
    ("one tile made and put", Call::Put, 8, 8),
    ("tile of level 3 after that", Call::Level(3), 3, 3),
    ("tile of level 8", Call::Level(8), 8, 8),
];

/// A table over its chain, and the tiles on which a call is made one after another.
#[derive(Drop)]
struct TableWork<C: TileChain> {
    alloc: Global,
    chain: C,
    table: LevelTable,
    bytes: Vec<u8>,
    call: Call,
    columns: u8,
    next: u32,
}

impl<C: TileChain> Work for TableWork<C> {
    ghost is_ready = { λ work. IsOver work.table.tiles (C.held work.chain)
        × (length work.bytes.items ≡ tile_length work.table.tiles.format) × IsTileLength (length work.bytes.items) };

    fn call(&mut self) -> Option<u64> {
        let at = tile_at(self.columns, self.next);
        self.next = self.next.wrapping_add(1);
        let Call::Level(level) = self.call else {
            let tile = Tile::of(self.alloc, &self.bytes).ok()?;
            self.table.put(&mut self.chain, at, tile).ok()?;
            return Some(1);
        };
        let tile = self.table.tile(&mut self.chain, level.min(8), at).ok()?;
        Some(tile.bytes().first().copied().map_or(0, u64::from))
    }
}

/// Returns the tile of a number, of so many columns and half as many rows of tiles from that of the origin on, and again
/// from the first on after the last.
fn tile_at(columns: u8, number: u32) -> TileAt
    ensures { IsWhole result }
{
    let columns = u32::from(columns.max(1));
    let number = number % (columns * columns.div_ceil(2));
    TileAt::from_indices(262_144 + number % columns, 262_144 + number / columns)
}

/// Times calls on a table of a format over a chain.
fn time_steps<R: Host, C: TileChain + Drop>(
    bench: &Bench<'_, R>,
    label: &str,
    chain: C,
    format: Format,
    steps: &[Step],
) -> Option<()> {
    let alloc = bench.rt.alloc();
    let columns = bench.size.clamp(1, 128);
    new_tables_ask_nothing();
    let table = LevelTable::new(alloc, format);
    let bytes = noise(alloc, table.tile_len() as usize)?;
    let mut work = TableWork {
        alloc,
        chain,
        table,
        bytes,
        call: Call::Put,
        columns: 1,
        next: 0,
    };
    for (name, call, fewer, fewer_calls) in steps {
        let called = (columns >> fewer_calls.min(&8)).max(1);
        work.call = *call;
        work.columns = (columns >> fewer.min(&8)).max(1) as u8;
        work.next = 0;
        let label = format!(in alloc; "{label}: {name}").ok()?;
        let times = Times {
            rounds: 1,
            calls: called * called.div_ceil(2),
            units: 1,
            bytes: 0,
        };
        bench.time(&label, times, &mut work)?;
    }
    Some(())
}

/// Times names over a disk, of whose tiles so many are in memory.
fn time_names<R: Host, D: SwapDisk>(
    bench: &Bench<'_, R>,
    label: &str,
    disk: &mut D,
    resident: u32,
) -> Option<()> {
    let chain = Chain::new(bench.rt.alloc(), disk, 1 << 15, resident.max(1)).ok()?;
    time_steps(bench, label, chain, Format::Y8, &NAMES)
}

/// Times names with all tiles in memory, and with one of them in memory and the rest on a disk in memory, or in a file.
pub fn time_all_names<R: Host, D: SwapDisk>(bench: &Bench<'_, R>, file: &mut D) -> Option<()> {
    let alloc = bench.rt.alloc();
    let mut small = SureSwap::new(alloc, 16).ok()?;
    time_names(bench, "names in memory", &mut small, 1 << 16)?;
    let mut memory = SureSwap::new(alloc, 1 << 15).ok()?;
    time_names(bench, "names on a disk in memory", &mut memory, 1)?;
    time_names(bench, "names in a file", file, 1)
}

/// Times levels of a table with all tiles in memory, and beside it level 3 of plain rows.
pub fn time_levels<R: Host>(bench: &Bench<'_, R>) -> Option<()> {
    let alloc = bench.rt.alloc();
    let columns = bench.size.clamp(1, 128) as usize;
    let mut plain = PlainWork {
        alloc,
        format: Format::RGB8,
        image: noise(alloc, columns * columns * 6_144)?,
        row_bytes: columns * 192,
        is_averaged: true,
    };
    let times = Times {
        rounds: 3,
        calls: 1,
        units: 1,
        bytes: 0,
    };
    bench.time("levels: level 3 of plain rows", times, &mut plain)?;
    let mut disk = SureSwap::new(alloc, 16).ok()?;
    let chain = Chain::new(alloc, &mut disk, 16, 1 << 16).ok()?;
    time_steps(bench, "levels", chain, Format::RGB8, &LEVELS)
}
