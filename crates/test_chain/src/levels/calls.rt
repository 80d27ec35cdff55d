//! Calls on tables of gray tiles, each of one byte everywhere.

ghost use Rattle.std.specs.Prelude.{◌≡◌, ◌+◌, ◌≤◌, IfOk, OnOk, length};
ghost use Rattle.plane_rect.specs.Tile.{IsWhole};
ghost use Rattle.chain_owners.specs.Owners.{Respects};
ghost use Rattle.level_tables.specs.LevelTiles.{names};
ghost use Rattle.test_chain.specs.Tables.{AreTwo, HasBeside, IsGray};

use crate::check::check as check_value;
use crate::pages::page;
use alloc_basics::NoMemory;
use chain_owners::SwapRefused;
use level_tables::{LevelTable, NewTiles, new_tables_ask_nothing, no_new_tiles_ask_nothing};
use pixel_formats::Format;
use plane_rect::TileAt;
use std::alloc::Global;
use std::process::Abort;
use tile_chain::TileChain;

/// Returns the tile so many columns and rows after that of the origin.
pub fn tile_at(column: u8, row: u8) -> TileAt
    ensures { IsWhole result }
{
    TileAt::from_indices(262_144 + u32::from(column), 262_144 + u32::from(row))
}

/// Returns a table of no tile.
pub fn no_tiles<C: TileChain>(chain: &C, alloc: Global) -> LevelTable
    ensures { IsGray result.tiles (C.held chain.now) }
{
    new_tables_ask_nothing();
    LevelTable::new(alloc, Format::Y8)
}

/// Puts a tile of this byte.
pub fn put<C: TileChain>(
    table: &mut LevelTable,
    chain: &mut C,
    alloc: Global,
    at: TileAt,
    byte: u8,
) -> Result<(), SwapRefused>
    requires gray { IsGray table.old.tiles (C.held chain.old) }
    requires whole { IsWhole at }
    ensures gray { IsGray table.new.tiles (C.held chain.new) }
    ensures others { Respects (C.held chain.old) (C.held chain.new) (names table.old.tiles) (names table.new.tiles) }
{
    let tile = page(alloc, byte)?;
    table.put(chain, at, tile)?;
    Ok(())
}

/// Returns no new tile beside a table.
pub fn no_new_tiles<C: TileChain>(table: &LevelTable, chain: &C, alloc: Global) -> NewTiles
    requires { IsGray table.now.tiles (C.held chain.now) }
    ensures beside { HasBeside table.now.tiles result.format result.entries (C.held chain.now) }
    ensures none { length result.entries ≡ 0 }
{
    no_new_tiles_ask_nothing();
    NewTiles::new(alloc, Format::Y8)
}

/// Adds a new tile of this byte beside a table.
pub fn add<C: TileChain>(
    tiles: &mut NewTiles,
    table: &LevelTable,
    chain: &mut C,
    alloc: Global,
    at: TileAt,
    byte: u8,
) -> Result<(), SwapRefused>
    requires beside { HasBeside table.now.tiles tiles.old.format tiles.old.entries (C.held chain.old) }
    requires whole { IsWhole at }
    ensures beside { HasBeside table.now.tiles tiles.new.format tiles.new.entries (C.held chain.new) }
    ensures one { OnOk result (length tiles.new.entries ≡ length tiles.old.entries + 1) }
{
    let tile = page(alloc, byte)?;
    tiles.add(chain, at, tile)
}

/// Makes new tiles beside a table its own.
pub fn switch<C: TileChain>(table: &mut LevelTable, chain: &mut C, tiles: NewTiles)
    requires beside { HasBeside table.old.tiles tiles.format tiles.entries (C.held chain.old) }
    requires room { length tiles.entries ≤ table.old.room }
    ensures { IsGray table.new.tiles (C.held chain.new) }
{
    table.switch(chain, tiles);
}

/// Gives new tiles beside a table up.
pub fn discard<C: TileChain>(table: &LevelTable, chain: &mut C, tiles: NewTiles)
    requires { HasBeside table.now.tiles tiles.format tiles.entries (C.held chain.old) }
    ensures { IsGray table.now.tiles (C.held chain.new) }
{
    tiles.discard(chain);
}

/// Returns a table that shares the tiles of another.
pub fn share<C: TileChain>(table: &LevelTable, chain: &mut C) -> Result<LevelTable, NoMemory>
    requires { IsGray table.now.tiles (C.held chain.old) }
    ensures { IfOk result (λ shared. AreTwo table.now.tiles shared.tiles (C.held chain.new)) }
{
    table.share(chain)
}

/// Puts a tile of this byte into the second of two tables.
pub fn put_second<C: TileChain>(
    first: &LevelTable,
    table: &mut LevelTable,
    chain: &mut C,
    alloc: Global,
    at: TileAt,
    byte: u8,
) -> Result<(), SwapRefused>
    requires two { AreTwo first.now.tiles table.old.tiles (C.held chain.old) }
    requires whole { IsWhole at }
    ensures { AreTwo first.now.tiles table.new.tiles (C.held chain.new) }
{
    put(table, chain, alloc, at, byte)
}

/// Gives the first of two tables up.
pub fn release_first<C: TileChain>(table: LevelTable, second: &LevelTable, chain: &mut C)
    requires { AreTwo table.tiles second.now.tiles (C.held chain.old) }
    ensures { IsGray second.now.tiles (C.held chain.new) }
{
    table.release(chain);
}

/// Checks that a tile of a level has this byte in its first rows and columns, so many of both, and zero
/// elsewhere.
pub fn check<C: TileChain>(
    rt: &impl Abort,
    table: &mut LevelTable,
    chain: &mut C,
    level: u32,
    at: TileAt,
    side: usize,
    byte: u8,
)
    requires gray { IsGray table.old.tiles (C.held chain.old) }
    ensures gray { IsGray table.new.tiles (C.held chain.new) }
    ensures others { Respects (C.held chain.old) (C.held chain.new) (names table.old.tiles) (names table.new.tiles) }
{
    assert!(rt; level <= 8);
    let tile = table.tile(chain, level, at).expect(rt, "a tile");
    check_samples(rt, tile.bytes(), side, byte);
}

/// Checks that a tile has this byte in its first rows and columns, so many of both, and zero elsewhere.
fn check_samples(rt: &impl Abort, samples: &[u8], side: usize, byte: u8) {
    for (index, found) in samples.iter().enumerate() {
        let is_in = index % 64 < side && index / 64 < side;
        let wanted = if is_in { byte } else { 0 };
        check_value(rt, index, *found, wanted);
    }
}

/// Does the same with the first of two tables.
pub fn check_first<C: TileChain>(
    rt: &impl Abort,
    table: &mut LevelTable,
    second: &LevelTable,
    chain: &mut C,
    level: u32,
    side: usize,
    byte: u8,
)
    requires two { AreTwo table.old.tiles second.now.tiles (C.held chain.old) }
    ensures { AreTwo table.new.tiles second.now.tiles (C.held chain.new) }
{
    check(rt, table, chain, level, tile_at(0, 0), side, byte);
}
