//! Calls on a chain whose tiles all have 4,096 bytes.

ghost use Rattle.std.specs.Prelude.{◌≡◌, ◌≤◌, IfOk, length};
ghost use Rattle.test_chain.specs.Pages.{HasPages};

use alloc_basics::NoMemory;
use chain_owners::ChainMeaning;
use outside_io::SwapDisk;
use std::alloc::Global;
use std::process::Abort;
use tile_chain::{Chain, SwapRefused, TileChain};
use tile_cow::Tile;

/// Returns a tile of 4,096 times this byte.
pub fn page(alloc: Global, byte: u8) -> Result<Tile, NoMemory>
    ensures { IfOk result (λ tile. length tile ≡ 4096) }
{
    let tile = Tile::from_vec(alloc, vec![in alloc; byte; 4_096]?)?;
    Ok(tile)
}

/// Adds a name of a page of this byte.
pub fn add<C: TileChain>(chain: &mut C, alloc: Global, byte: u8) -> Result<u64, SwapRefused>
    requires { HasPages (C.held chain.old) (C.is_valid chain.old) }
    ensures { HasPages (C.held chain.new) (C.is_valid chain.new) }
{
    let tile = page(alloc, byte)?;
    let name = chain.new_name(tile)?;
    Ok(name)
}

/// Replaces the page of a name of one owner by one of this byte.
pub fn replace<C: TileChain>(
    rt: &impl Abort,
    chain: &mut C,
    alloc: Global,
    name: u64,
    byte: u8,
) -> Result<(), SwapRefused>
    requires { HasPages (C.held chain.old) (C.is_valid chain.old) }
    ensures { HasPages (C.held chain.new) (C.is_valid chain.new) }
{
    let tile = page(alloc, byte)?;
    assert!(rt; chain.owners(name) == 1);
    chain.rewrite(name, &tile)?;
    Ok(())
}

/// Adds an owner of a name that is there, and returns how many there are then.
pub fn own<C: TileChain>(rt: &impl Abort, chain: &mut C, name: u64) -> u32
    requires { HasPages (C.held chain.old) (C.is_valid chain.old) }
    ensures { HasPages (C.held chain.new) (C.is_valid chain.new) }
{
    assert!(rt; chain.owners(name) > 0);
    chain.own(name);
    chain.owners(name)
}

/// Takes an owner of a name away that is there, and returns how many there are then.
pub fn disown<C: TileChain>(rt: &impl Abort, chain: &mut C, name: u64) -> u32
    requires { HasPages (C.held chain.old) (C.is_valid chain.old) }
    ensures { HasPages (C.held chain.new) (C.is_valid chain.new) }
{
    assert!(rt; chain.owners(name) > 0);
    chain.disown(name);
    chain.owners(name)
}

/// Returns the byte that a page has everywhere.
pub fn byte_of(rt: &impl Abort, page: &Tile) -> u8 {
    let byte = page.bytes().first().copied();
    assert!(rt;
        page.bytes().len() == 4_096 && page.bytes().iter().all(|other| Some(*other) == byte)
    );
    byte.unwrap_or(0)
}

/// Reads a name, and returns the byte of its page.
pub fn read<C: TileChain>(rt: &impl Abort, chain: &mut C, name: u64) -> Result<u8, SwapRefused>
    requires { HasPages (C.held chain.old) (C.is_valid chain.old) }
    ensures { HasPages (C.held chain.new) (C.is_valid chain.new) }
{
    let tile = chain.read(name, 4_096)?;
    Ok(byte_of(rt, &tile))
}

/// Returns a chain without names over so many blocks of a disk, of which so many pages are in memory.
pub fn chain_over<'s, D: SwapDisk>(
    alloc: Global,
    disk: &'s mut D,
    blocks: u32,
    resident: u32,
) -> Result<Chain<'s, D>, NoMemory>
    requires { 1 ≤ resident }
    ensures { IfOk result (λ chain. HasPages (⟦<Chain<'s, D> as ChainMeaning>⟧.held chain) (⟦<Chain<'s, D> as ChainMeaning>⟧.is_valid chain)) }
{
    let chain = Chain::new(alloc, disk, blocks, resident)?;
    Ok(chain)
}
