//! Handlers by themselves. Each answers the same reads as a plain map of its names would.

ghost use Rattle.std.specs.Prelude.{◌≡◌, ◌≤◌, IfOk};
ghost use Rattle.test_chain.specs.Pages.{ArePages};

use crate::check::check;
use crate::pages::{byte_of, page};
use alloc_basics::NoMemory;
use chain_owners::ChainMeaning;
use outside_io::{Lent, SwapDisk};
use std::alloc::Global;
use std::process::Abort;
use swap_store::SwapStore;
use tile_chain::{CacheHandler, EmptyHandler, SwapHandler, SwapRefused, TileHandler};

/// Returns a handler without names over all blocks of a disk.
fn on_disk<'s, D: SwapDisk>(alloc: Global, disk: &'s mut D) -> Result<SwapHandler<'s, D>, NoMemory>
    ensures { IfOk result (λ handler. ArePages (⟦<SwapHandler<'s, D> as ChainMeaning>⟧.held handler)) }
{
    let store = SwapStore::new(alloc, disk, 1 << 20)?;
    Ok(SwapHandler::new(store))
}

/// Gives a name a page of this byte.
fn put<H: TileHandler>(
    handler: &mut H,
    alloc: Global,
    name: u64,
    byte: u8,
) -> Result<(), SwapRefused>
    requires { ArePages (H.held handler.old) }
    ensures { ArePages (H.held handler.new) }
{
    let tile = page(alloc, byte)?;
    handler.put(name, &tile)?;
    Ok(())
}

/// Checks that a name is there, with a page of this byte.
fn check_page<H: TileHandler>(rt: &impl Abort, handler: &mut H, name: u64, byte: u8)
    requires { ArePages (H.held handler.old) }
    ensures { ArePages (H.held handler.new) }
{
    assert!(rt; handler.has(name), "{name} is there");
    let tile = handler.get(name, 4_096).expect(rt, "a page");
    check(rt, name, byte_of(rt, &tile), byte);
}

/// Takes a name out that is there.
fn forget<H: TileHandler>(rt: &impl Abort, handler: &mut H, name: u64)
    requires { ArePages (H.held handler.old) }
    ensures { ArePages (H.held handler.new) }
{
    assert!(rt; handler.has(name), "{name} is there");
    handler.forget(name);
}

/// A call on a handler, or a look at it.
#[derive(Clone, Copy)]
enum Call {
    /// Gives a name a page of this byte.
    Put(u64, u8),

    /// Checks that a name has a page of this byte.
    Shows(u64, u8),

    /// Checks that there is no such name.
    Lacks(u64),

    /// Takes a name out.
    Forget(u64),

    /// Writes all pages to the disk.
    Flush,
}

/// Gives three names pages, replaces one of these and takes another out, and checks all reads.
const THREE: [Call; 14] = [
    Call::Lacks(1),
    Call::Put(1, 10),
    Call::Put(2, 20),
    Call::Put(3, 30),
    Call::Shows(1, 10),
    Call::Shows(3, 30),
    Call::Put(1, 40),
    Call::Shows(2, 20),
    Call::Shows(1, 40),
    Call::Forget(2),
    Call::Lacks(2),
    Call::Flush,
    Call::Shows(1, 40),
    Call::Shows(3, 30),
];

/// Makes one call.
fn make<H: TileHandler>(rt: &impl Abort, handler: &mut H, alloc: Global, call: Call)
    requires { ArePages (H.held handler.old) }
    ensures { ArePages (H.held handler.new) }
{
    match call {
        Call::Put(name, byte) => put(handler, alloc, name, byte).expect(rt, "room"),
        Call::Shows(name, byte) => check_page(rt, handler, name, byte),
        Call::Lacks(name) => assert!(rt; !handler.has(name), "{name} is there"),
        Call::Forget(name) => forget(rt, handler, name),
        Call::Flush => handler.flush().expect(rt, "a sound disk"),
    }
}

/// Makes the calls on three names.
fn put_three<H: TileHandler>(rt: &impl Abort, handler: &mut H, alloc: Global)
    requires { ArePages (H.held handler.old) }
    ensures { ArePages (H.held handler.new) }
{
    for call in &THREE {
        make(rt, handler, alloc, *call);
    }
}

/// Checks zeros over a handler. Returns the handler.
fn put_in_empty<H: TileHandler + Drop>(rt: &impl Abort, alloc: Global, below: H) -> H
    requires { ArePages (H.held below) }
{
    let mut empty = EmptyHandler::new(alloc, below);
    put_three(rt, &mut empty, alloc);
    empty.into_below()
}

/// Checks a cache of one page over a handler whose name 3 has a page of 30, and zeros over both. Returns the handler.
fn put_in_cache<H: TileHandler + Drop>(
    rt: &impl Abort,
    alloc: Global,
    below: H,
) -> Result<H, NoMemory>
    requires { ArePages (H.held below) }
{
    let mut cache = CacheHandler::new(alloc, below, 1)?;
    check_page(rt, &mut cache, 3, 30);
    put_three(rt, &mut cache, alloc);
    forget(rt, &mut cache, 1);
    Ok(put_in_empty(rt, alloc, cache).into_below())
}

/// Checks a handler over a disk, then a cache of one page over it, then zeros over both.
pub fn put_in_each<D: SwapDisk>(
    rt: &impl Abort,
    alloc: Global,
    disk: &mut D,
) -> Result<(), NoMemory> {
    let mut below = on_disk(alloc, disk)?;
    put_three(rt, &mut below, alloc);
    forget(rt, &mut below, 1);
    let again = put_in_cache(rt, alloc, below)?;
    assert!(rt; again.has(1) && !again.has(2) && again.has(3));
    let Lent { disk: _back } = again.end();
    Ok(())
}
