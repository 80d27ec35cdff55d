//! Expected values are worked out by hand from the doc comments.

ghost use Rattle.std.specs.Prelude.{◌≡◌, ◌+◌, ◌≤◌, length};
ghost use Rattle.tile_cow.specs.Tile.{IsTileLength};

use crate::tests::check::check;
use std::alloc::Global;
use std::process::Abort;
use std::thread;
use tile_cow::{Tile, Wrote};

/// Returns another owner of a tile.
fn share(rt: &impl Abort, alloc: Global, tile: &Tile) -> Tile
    ensures { result ≡ tile.now }
{
    tile.share(alloc).expect(rt, "memory")
}

/// Writes bytes, and checks how.
fn write(rt: &impl Abort, alloc: Global, tile: &mut Tile, at: u32, bytes: &[u8], wanted: Wrote)
    requires { at + length bytes.now ≤ length tile.old }
    ensures { length tile.new ≡ length tile.old }
{
    let wrote = tile.write(alloc, at, bytes).expect(rt, "memory");
    assert!(rt; wrote == wanted, "{bytes:?} at {at}");
}

#[test]
fn a_write_is_seen_by_its_owner_alone(rt: HostRuntime) {
    let alloc = rt.alloc();
    let mut tile = Tile::of(alloc, &[1, 2, 3]).expect(&rt, "memory");
    let other = share(&rt, alloc, &tile);
    write(&rt, alloc, &mut tile, 1, &[9], Wrote::Copied);
    check(&rt, "written", tile.bytes(), [1, 9, 3].as_slice());
    check(&rt, "unchanged", other.bytes(), [1, 2, 3].as_slice());

    drop(other);
    write(&rt, alloc, &mut tile, 0, &[8], Wrote::InPlace);
    check(&rt, "again", tile.bytes(), [8, 9, 3].as_slice());
}

#[test]
fn a_vector_becomes_a_tile(rt: HostRuntime) {
    let alloc = rt.alloc();
    let bytes = vec![in alloc; 5; 3].expect(&rt, "memory");
    let tile = Tile::from_vec(alloc, bytes).expect(&rt, "memory");
    check(&rt, "tile", tile.bytes(), [5, 5, 5].as_slice());
}

#[test]
fn a_shared_block_is_copied_and_a_lone_one_is_not(rt: HostRuntime) {
    let alloc = rt.alloc();
    let mut tile = Tile::zero(alloc, 4).expect(&rt, "memory");
    check(&rt, "zeros", tile.bytes(), [0, 0, 0, 0].as_slice());
    let other = share(&rt, alloc, &tile);
    write(&rt, alloc, &mut tile, 1, &[9], Wrote::Copied);
    write(&rt, alloc, &mut tile, 0, &[8], Wrote::InPlace);
    check(&rt, "written", tile.bytes(), [8, 9, 0, 0].as_slice());
    check(&rt, "unchanged", other.bytes(), [0, 0, 0, 0].as_slice());

    drop(share(&rt, alloc, &tile));
    // No other owner is left.
    write(&rt, alloc, &mut tile, 2, &[7, 6], Wrote::InPlace);
    check(&rt, "again", tile.bytes(), [8, 9, 7, 6].as_slice());
}

/// Writes 2 as the last byte of a tile of zeros, 1 as the first, and nothing after the last. Returns
/// an owner of the zeros too.
fn write_both_ends(rt: &impl Abort, alloc: Global, len: u32) -> (Tile, Tile)
    requires { IsTileLength len }
{
    let mut tile = Tile::zero(alloc, len).expect(rt, "memory");
    let zeros = share(rt, alloc, &tile);
    tile.write(alloc, len - 1, &[2]).expect(rt, "memory");
    tile.write(alloc, 0, &[1]).expect(rt, "memory");
    tile.write(alloc, len, &[]).expect(rt, "memory");
    (tile, zeros)
}

#[test]
fn both_ends_of_a_tile_of_one_byte(rt: HostRuntime) {
    let (tile, zeros) = write_both_ends(&rt, rt.alloc(), 1);
    check(&rt, "tile", tile.bytes(), [1].as_slice());
    check(&rt, "zeros", zeros.bytes(), [0].as_slice());
}

#[test]
fn both_ends_of_a_large_tile(rt: HostRuntime) {
    let (tile, zeros) = write_both_ends(&rt, rt.alloc(), 65_536);
    check(&rt, "bytes", tile.bytes().len(), 65_536);
    let mut wanted = vec![in rt.alloc(); 0; 65_536].expect(&rt, "memory");
    assert!(rt; zeros.bytes() == wanted.as_slice());
    wanted[0] = 1;
    wanted[65_535] = 2;
    assert!(rt; tile.bytes() == wanted.as_slice());
}

/// How often each of four threads shares, reads, writes and drops a tile.
const ROUNDS: u32 = 10_000;

/// Writes `mark` as the first and the last byte of one owner more, and returns whether every owner read its own
/// bytes. The second write is in place, since the first one left the owner alone. The first one is too where another
/// thread counted between the load and the exchange of `share`, which then copied.
fn is_good_round(rt: &impl Abort, alloc: Global, mine: &Tile, lent: &Tile, mark: u8) -> bool {
    let mut own = share(rt, alloc, lent);
    let last = own.bytes().len() - 1;
    own.write(alloc, last as u32, &[mark]).expect(rt, "memory");
    let wrote = own.write(alloc, 0, &[mark]).expect(rt, "memory");
    let is_own = own.bytes() == [mark, 2, mark].as_slice();
    wrote == Wrote::InPlace && is_own && lent.bytes() == mine.bytes()
}

/// Counts the good rounds.
fn good_rounds(rt: &impl Abort, alloc: Global, mine: &Tile, lent: &Tile, mark: u8) -> u32 {
    let mut good = 0u32;
    for _ in 0..ROUNDS {
        if is_good_round(rt, alloc, mine, lent, mark) {
            good = good.wrapping_add(1);
        }
    }
    good
}

/// Returns four more owners of one block, each with the number of its thread.
fn four_owners(rt: &impl Abort, alloc: Global, tile: &Tile) -> Vec<(Tile, u8)> {
    let mut owners = Vec::new(alloc);
    for mark in 4..8 {
        let owner = (share(rt, alloc, tile), mark);
        owners.push(owner).expect(rt, "memory");
    }
    owners
}

#[test]
fn four_threads_share_read_write_and_drop(rt: HostRuntime) {
    let alloc = rt.alloc();
    let tile = Tile::of(alloc, &[1, 2, 3]).expect(&rt, "memory");
    let owners = four_owners(&rt, alloc, &tile);
    let (lent, lent_rt) = (&tile, &rt);
    let work = move |job: (Tile, u8)| -> u32 { good_rounds(lent_rt, alloc, &job.0, lent, job.1) };
    let counts = thread::map_vec(&rt, owners, &work).expect(&rt, "memory");
    check(&rt, "rounds", counts.as_slice(), [ROUNDS; 4].as_slice());
    check(&rt, "tile", tile.bytes(), [1, 2, 3].as_slice());
}
