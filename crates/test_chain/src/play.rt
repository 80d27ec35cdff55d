//! Calls that are made on a chain and on a plain list. A call that is refused, since the disk failed, has
//! changed nothing, and is made again.

ghost use Rattle.test_chain.specs.Pages.{HasPages};

use crate::check::check;
use crate::pages::{add, disown, own, read, replace};
use crate::plain::{PlainName, PlainNames};
use std::alloc::Global;
use std::process::Abort;
use tile_chain::{SwapRefused, TileChain};

/// How many names there are at most.
const MANY: usize = 12;

/// Returns the next number of a fixed sequence without order.
fn next(random: u64) -> u64 {
    random
        .wrapping_mul(6_364_136_223_846_793_005)
        .wrapping_add(1_442_695_040_888_963_407)
}

/// Returns the number of refusals of a call: none or one, by an I/O error of the disk.
fn refusals<T>(rt: &impl Abort, answer: &Result<T, SwapRefused>) -> u32 {
    match answer {
        Ok(_) => 0,
        Err(refused) => {
            assert!(rt; *refused == SwapRefused::SwapFault, "{refused:?}");
            1
        }
    }
}

/// Checks the page and the owners of a name. Returns how many reads were refused once.
fn check_name<C: TileChain>(rt: &impl Abort, chain: &mut C, entry: PlainName) -> u32
    requires { HasPages (C.held chain.old) (C.is_valid chain.old) }
    ensures { HasPages (C.held chain.new) (C.is_valid chain.new) }
{
    check(rt, entry.name, chain.owners(entry.name), entry.owners);
    let refused = refusals(rt, &read(rt, chain, entry.name));
    check(rt, entry.name, read(rt, chain, entry.name), Ok(entry.byte));
    refused
}

/// Checks the pages and the owners of all names. Returns how many reads were refused once.
fn check_all<C: TileChain>(rt: &impl Abort, chain: &mut C, names: &PlainNames) -> u32
    requires { HasPages (C.held chain.old) (C.is_valid chain.old) }
    ensures { HasPages (C.held chain.new) (C.is_valid chain.new) }
{
    let mut refused = 0u32;
    for entry in names.as_slice() {
        refused = refused.saturating_add(check_name(rt, chain, *entry));
    }
    refused
}

/// A call on a chain, with what the list has of its name before it.
#[derive(Clone, Copy)]
enum Call {
    /// Adds a name of a page of this byte.
    Add(u8),

    /// Adds an owner.
    Own(PlainName),

    /// Takes an owner away.
    Disown(PlainName),

    /// Replaces the page of a name of one owner by one of this byte.
    Replace(PlainName, u8),

    /// Reads a page.
    Read(PlainName),

    /// Writes all pages to the disk.
    Flush,
}

/// Returns the call that a random number chooses.
fn chosen(names: &PlainNames, random: u64) -> Call {
    let byte = ((random >> 20) % 256) as u8;
    if random >> 60 == 0 {
        return Call::Flush;
    }
    let few = names.as_slice().len() < MANY;
    let entry = match names.some(random >> 33) {
        Some(entry) if !few || (random >> 30) % 3 > 0 => entry,
        _ => return Call::Add(byte),
    };
    match (random >> 40) % 5 {
        0 => Call::Own(entry),
        1 | 2 => Call::Disown(entry),
        3 if entry.owners == 1 => Call::Replace(entry, byte),
        _ => Call::Read(entry),
    }
}

/// Makes a call on a chain. Returns what the list should have of its name then, if it is of a name.
fn make<C: TileChain>(
    rt: &impl Abort,
    chain: &mut C,
    alloc: Global,
    call: Call,
) -> Result<Option<PlainName>, SwapRefused>
    requires { HasPages (C.held chain.old) (C.is_valid chain.old) }
    ensures { HasPages (C.held chain.new) (C.is_valid chain.new) }
{
    match call {
        Call::Add(byte) => {
            let name = add(chain, alloc, byte)?;
            let owners = 1;
            Ok(Some(PlainName { name, byte, owners }))
        }
        Call::Own(entry) => {
            let owners = own(rt, chain, entry.name);
            Ok(Some(PlainName { owners, ..entry }))
        }
        Call::Disown(entry) => {
            let owners = disown(rt, chain, entry.name);
            Ok(Some(PlainName { owners, ..entry }))
        }
        Call::Replace(entry, byte) => {
            replace(rt, chain, alloc, entry.name, byte)?;
            Ok(Some(PlainName { byte, ..entry }))
        }
        Call::Read(entry) => {
            let byte = read(rt, chain, entry.name)?;
            let (name, owners) = (entry.name, chain.owners(entry.name));
            Ok(Some(PlainName { name, byte, owners }))
        }
        Call::Flush => {
            chain.flush()?;
            Ok(None)
        }
    }
}

/// Makes a call that was made on a chain on the list, which then has this of its name.
fn note(rt: &impl Abort, names: &mut PlainNames, call: Call, after: PlainName) {
    match call {
        Call::Add(_) => {
            let mut others = names.as_slice().iter();
            assert!(rt; after.name != 0 && others.all(|entry| entry.name != after.name));
            names.add(rt, after);
        }
        Call::Read(entry) => check(rt, entry.name, after, entry),
        _ => names.change(after),
    }
}

/// Makes a call on a chain and on a plain list. Returns how often it was refused.
fn make_both<C: TileChain>(
    rt: &impl Abort,
    chain: &mut C,
    alloc: Global,
    names: &mut PlainNames,
    call: Call,
) -> u32
    requires { HasPages (C.held chain.old) (C.is_valid chain.old) }
    ensures { HasPages (C.held chain.new) (C.is_valid chain.new) }
{
    let first = make(rt, chain, alloc, call);
    let refused = refusals(rt, &first);
    let after = match first {
        Ok(after) => after,
        Err(_) => {
            check_all(rt, chain, names);
            make(rt, chain, alloc, call).expect(rt, "the call again")
        }
    };
    if let Some(after) = after {
        note(rt, names, call, after);
    }
    refused
}

/// Makes so many calls on a chain without names and on a plain list, and compares them at the end. Returns
/// how many calls were refused once.
pub fn play<C: TileChain>(rt: &impl Abort, chain: &mut C, alloc: Global, steps: u64) -> u32
    requires { HasPages (C.held chain.old) (C.is_valid chain.old) }
{
    let mut names = PlainNames::new(alloc);
    let mut refused = 0u32;
    let mut random = next(steps);
    for _step in 0..steps {
        random = next(random);
        let call = chosen(&names, random);
        refused = refused.saturating_add(make_both(rt, chain, alloc, &mut names, call));
    }
    refused.saturating_add(check_all(rt, chain, &names))
}
