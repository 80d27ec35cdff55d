//! Lists of calls on a table, each with what is wanted after it.

ghost use Rattle.test_chain.specs.Tables.{IsGray};

use crate::check::check as check_value;
use crate::levels::calls::{check, put, tile_at};
use level_tables::LevelTable;
use std::alloc::Global;
use std::process::Abort;
use tile_chain::TileChain;

/// How many names are looked at, from 1 on. A chain without names gives them in this order.
const MANY: u64 = 40;

/// A call on a table of gray tiles, or a look at its chain.
#[derive(Clone, Copy)]
pub enum Step {
    /// Puts a tile at a column and a row, of this byte everywhere.
    Put(u8, u8, u8),

    /// Checks that the tile of a level, at a column and a row, has a byte in its first rows and columns, so
    /// many of both, and zero elsewhere: level, column, row, side, byte.
    Shows(u32, u8, u8, usize, u8),

    /// Checks that the chain has so many names.
    Names(u32),
}

/// Returns how many of the first names a chain has.
pub fn count_names<C: TileChain>(chain: &C) -> u32 {
    let mut count = 0u32;
    for name in 1..MANY {
        if chain.owners(name) > 0 {
            count = count.saturating_add(1);
        }
    }
    count
}

/// Makes one step.
fn make_step<C: TileChain>(
    rt: &impl Abort,
    table: &mut LevelTable,
    chain: &mut C,
    alloc: Global,
    row: usize,
    step: Step,
)
    requires { IsGray table.old.tiles (C.held chain.old) }
    ensures { IsGray table.new.tiles (C.held chain.new) }
{
    match step {
        Step::Put(column, row, byte) => {
            let put = put(table, chain, alloc, tile_at(column, row), byte);
            put.expect(rt, "room for a tile");
        }
        Step::Shows(level, column, row, side, byte) => {
            check(rt, table, chain, level, tile_at(column, row), side, byte);
        }
        Step::Names(count) => check_value(rt, row, count_names(chain), count),
    }
}

/// Makes steps in their order.
pub fn make<C: TileChain>(
    rt: &impl Abort,
    table: &mut LevelTable,
    chain: &mut C,
    alloc: Global,
    steps: &[Step],
)
    requires { IsGray table.old.tiles (C.held chain.old) }
    ensures { IsGray table.new.tiles (C.held chain.new) }
{
    for (row, step) in steps.iter().enumerate() {
        make_step(rt, table, chain, alloc, row, *step);
    }
}
