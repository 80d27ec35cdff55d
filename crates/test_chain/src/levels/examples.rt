//! Small examples, whose results are worked out by hand.

ghost use Rattle.std.specs.Prelude.{◌≡◌, ◌+◌, OnOk, length};
ghost use Rattle.test_chain.specs.Tables.{AreTwo, HasBeside};

use crate::levels::calls::{
    add, check_first, discard, no_new_tiles, no_tiles, put_second, release_first, share, switch,
    tile_at,
};
use crate::levels::steps::{Step, count_names, make};
use level_tables::{LevelTable, NewTiles};
use std::alloc::Global;
use std::process::Abort;
use tile_chain::{SwapRefused, TileChain};

/// A tile put twice, and what is averaged from it. A tile of a level is held, under a name, once it was asked
/// for, until a tile below it is put; it is never held where nothing was put.
const PUT_AGAIN: [Step; 18] = [
    Step::Put(0, 0, 100),
    Step::Names(1),
    Step::Shows(0, 0, 0, 64, 100),
    Step::Shows(1, 0, 0, 32, 100),
    Step::Names(2),
    Step::Shows(3, 0, 0, 8, 100),
    Step::Names(4),
    Step::Shows(8, 1, 0, 0, 0),
    Step::Names(4),
    Step::Put(0, 0, 4),
    Step::Names(1),
    Step::Shows(3, 0, 0, 8, 4),
    Step::Shows(1, 0, 0, 32, 4),
    Step::Names(4),
    Step::Put(1, 1, 4),
    Step::Names(2),
    Step::Shows(2, 1, 1, 0, 0),
    Step::Names(2),
];

/// Three tiles, and what is averaged from each of them.
const THREE: [Step; 7] = [
    Step::Shows(0, 0, 0, 64, 100),
    Step::Shows(0, 2, 0, 64, 40),
    Step::Shows(0, 0, 2, 64, 8),
    Step::Shows(0, 1, 1, 0, 0),
    Step::Shows(1, 0, 0, 32, 100),
    Step::Shows(1, 1, 0, 32, 40),
    Step::Shows(1, 0, 1, 32, 8),
];

/// Puts a tile twice, and checks what is averaged from it and which names there are.
pub fn put_again<C: TileChain>(rt: &impl Abort, chain: &mut C, alloc: Global) {
    let mut table = no_tiles(chain, alloc);
    make(rt, &mut table, chain, alloc, &PUT_AGAIN);
    table.release(chain);
    assert!(rt; count_names(chain) == 0);
}

/// Checks that a tile that is put into the second of two tables isn't in the first.
fn put_apart<C: TileChain>(
    rt: &impl Abort,
    one: &mut LevelTable,
    other: &mut LevelTable,
    chain: &mut C,
    alloc: Global,
)
    requires { AreTwo one.old.tiles other.old.tiles (C.held chain.old) }
    ensures { AreTwo one.new.tiles other.new.tiles (C.held chain.new) }
{
    put_second(one, other, chain, alloc, tile_at(0, 0), 4).expect(rt, "room for a tile");
    check_first(rt, one, other, chain, 0, 64, 100);
    check_first(rt, one, other, chain, 1, 32, 100);
}

/// Shares a table, and checks that a tile that is put into one of the two isn't in the other, also after
/// that is given up.
pub fn share_one<C: TileChain>(rt: &impl Abort, chain: &mut C, alloc: Global) {
    let mut one = no_tiles(chain, alloc);
    let steps = [Step::Put(0, 0, 100), Step::Shows(1, 0, 0, 32, 100)];
    make(rt, &mut one, chain, alloc, &steps);
    let mut other = share(&one, chain).expect(rt, "memory");
    put_apart(rt, &mut one, &mut other, chain, alloc);
    release_first(one, &other, chain);
    let steps = [
        Step::Names(1),
        Step::Shows(0, 0, 0, 64, 4),
        Step::Shows(1, 0, 0, 32, 4),
        Step::Names(2),
    ];
    make(rt, &mut other, chain, alloc, &steps);
    other.release(chain);
    assert!(rt; count_names(chain) == 0);
}

/// Puts three tiles, one after another.
pub fn put_three<C: TileChain>(rt: &impl Abort, chain: &mut C, alloc: Global) {
    let mut table = no_tiles(chain, alloc);
    let steps = [
        Step::Put(0, 0, 9),
        Step::Shows(1, 0, 0, 32, 9),
        Step::Put(0, 0, 100),
        Step::Put(2, 0, 40),
        Step::Put(0, 2, 8),
    ];
    make(rt, &mut table, chain, alloc, &steps);
    make(rt, &mut table, chain, alloc, &THREE);
}

/// Adds three new tiles beside a table.
fn add_three<C: TileChain>(
    tiles: &mut NewTiles,
    table: &LevelTable,
    chain: &mut C,
    alloc: Global,
) -> Result<(), SwapRefused>
    requires { HasBeside table.now.tiles tiles.old.format tiles.old.entries (C.held chain.old) }
    ensures beside { HasBeside table.now.tiles tiles.new.format tiles.new.entries (C.held chain.new) }
    ensures three { OnOk result (length tiles.new.entries ≡ length tiles.old.entries + 3) }
{
    add(tiles, table, chain, alloc, tile_at(0, 0), 100)?;
    add(tiles, table, chain, alloc, tile_at(2, 0), 40)?;
    add(tiles, table, chain, alloc, tile_at(0, 2), 8)
}

/// Makes three tiles a table's own at once.
pub fn switch_three<C: TileChain>(rt: &impl Abort, chain: &mut C, alloc: Global) {
    let mut table = no_tiles(chain, alloc);
    let steps = [Step::Put(0, 0, 9), Step::Shows(1, 0, 0, 32, 9)];
    make(rt, &mut table, chain, alloc, &steps);
    table.reserve(3).expect(rt, "memory");
    let mut tiles = no_new_tiles(&table, chain, alloc);
    add_three(&mut tiles, &table, chain, alloc).expect(rt, "room for tiles");
    switch(&mut table, chain, tiles);
    make(rt, &mut table, chain, alloc, &THREE);
}

/// Adds new tiles over a disk that fails at its first write, gives them up, and checks that the table is
/// as before.
pub fn add_in_vain<C: TileChain>(rt: &impl Abort, chain: &mut C, alloc: Global) {
    let mut table = no_tiles(chain, alloc);
    make(rt, &mut table, chain, alloc, &[Step::Put(0, 0, 9)]);
    let mut tiles = no_new_tiles(&table, chain, alloc);
    let refused = add(&mut tiles, &table, chain, alloc, tile_at(0, 0), 100);
    assert!(rt; refused == Err(SwapRefused::SwapFault), "{refused:?}");
    add(&mut tiles, &table, chain, alloc, tile_at(2, 0), 40).expect(rt, "room for a tile");
    discard(&table, chain, tiles);
    let steps = [
        Step::Names(1),
        Step::Shows(0, 0, 0, 64, 9),
        Step::Shows(0, 2, 0, 0, 0),
        Step::Names(1),
    ];
    make(rt, &mut table, chain, alloc, &steps);
}
