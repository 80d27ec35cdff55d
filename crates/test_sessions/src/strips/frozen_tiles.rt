//! Images that tiles in memory hold, and their tiles by name.

ghost use Rattle.std.specs.Prelude.{◌≡◌, IfOk};

use crate::strips::patches::{even, gray};
use crate::values::{check_row, name};
use alloc_basics::NoMemory;
use frozen_images::{Frozen, FrozenBuffer, SceneTiles};
use model_graphs::BufferFact;
use op_contracts::SourceTiles;
use patch_abyss::Patch;
use pixel_formats::Format;
use plane_rect::TileAt;
use std::alloc::Global;
use test_nodes::rect;

/// Returns the image that the tiles of a patch hold.
fn frozen(alloc: Global, patch: &Patch) -> Result<Frozen, NoMemory>
    ensures bounds { IfOk result (λ frozen. frozen.box ≡ patch.now.box) }
    ensures format { IfOk result (λ frozen. frozen.format ≡ patch.now.format) }
{
    let mut frozen = Frozen::new(alloc, patch.format(), patch.rect())?;
    for at in patch.rect().tiles() {
        let tile = patch.tile(alloc, at)?;
        frozen.hold(at, tile)?;
    }
    Ok(frozen)
}

/// Returns the value, which threads may move and share.
fn shared<T: Send + Sync>(value: T) -> T
    ensures { result ≡ value }
{
    value
}

/// The tiles that hold an image across the column 64, and one beside it: the column of each, and some of its bytes from an
/// index on.
const TILES: [(i32, usize, &[u8]); 3] = [
    (0, 126, &[0, 7, 0]),
    (64, 63, &[0, 9, 0]),
    (128, 0, &[0; 4096]),
];

#[test]
fn tiles_of_a_frozen_image(rt: HostRuntime) {
    let alloc = rt.alloc();
    let patch = gray(&rt, alloc, [63, 1, 2, 1], &[7, 9]);
    let image = shared(frozen(alloc, &patch).expect(&rt, "memory"));
    assert!(rt; image.bounds() == rect([63, 1, 2, 1]) && image.format() == Format::Y8);
    for (row, (x, index, bytes)) in TILES.iter().enumerate() {
        let tile = image.tile(TileAt::of(*x, 0)).expect(&rt, "memory");
        let rest = tile.bytes().get(*index..).unwrap_or(&[]);
        check_row(&rt, row, &rest.get(..bytes.len()), &Some(*bytes));
    }
}

/// Checks the tile of a buffer by its name.
#[test]
fn tiles_of_a_scene(rt: HostRuntime) {
    let alloc = rt.alloc();
    let patch = even(&rt, alloc, [0, 0, 64, 64], 5);
    let image = frozen(alloc, &patch).expect(&rt, "memory");
    let name = name(&rt, "a");
    let fact = BufferFact {
        name,
        root: name,
        bounds: image.bounds(),
        format: image.format(),
    };
    let buffers = [FrozenBuffer::new(fact, image)];
    let mut sources = SceneTiles::new(&buffers);
    let tile = sources
        .tile(&mut (), name, TileAt::of(0, 0))
        .expect(&rt, "memory");
    assert!(rt; tile.bytes() == [5; 4096].as_slice());
}
