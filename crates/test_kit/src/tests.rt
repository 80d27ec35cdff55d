//! Each call on its happy path. Expected values are worked out by hand from the doc comments.

ghost use Rattle.std.specs.Prelude.{◌≡◌, IfOk};
ghost use Rattle.plane_rect.specs.Rectangle.{InLimits};
ghost use Rattle.pixel_formats.specs.declared.format.Format.TheVariants.{Y8};

use crate::{BlankTiles, CutKit, CutPurse, CutTo, applied_part, applied_tile};
use alloc_basics::NoMemory;
use model_graphs::BufferFact;
use op_contracts::{OpKit, SourceTiles, Window, WindowTiles};
use pixel_formats::Format;
use plane_rect::{Name, Rect, TileAt};
use std::alloc::Global;
use std::test::Fail;
use tile_cow::Tile;

/// Returns the rectangle of four fields, or the one without a position where they are none.
fn rect(fields: [i64; 4]) -> Rect
    ensures { InLimits result }
{
    let [x, y, w, h] = fields;
    match Rect::new(x, y, w, h) {
        Ok(rect) if rect.in_limits() => rect,
        _ => Rect::EMPTY,
    }
}

/// Returns a window of two tiles, of sevens and of nines, beside one another from the origin on. Its
/// need begins four columns before the second tile.
fn sevens_and_nines(alloc: Global) -> Result<Window, NoMemory>
    ensures { IfOk result (λ window. window.format ≡ Y8) }
{
    let mut entries = Vec::new(alloc);
    for (x, value) in [(0, 7), (64, 9)] {
        let bytes = [value; 4096];
        entries.push((TileAt::of(x, 0), Tile::of(alloc, &bytes)?))?;
    }
    Ok(Window::new(
        rect([60, 2, 8, 2]),
        Format::Y8,
        rect([0, 0, 70, 70]),
        WindowTiles::new(entries),
    ))
}

#[test]
fn window_shows_its_tiles(rt: HostRuntime) -> Result<(), Fail> {
    let alloc = rt.alloc();
    let window = sevens_and_nines(alloc)?;
    assert!(rt; window.is_whole());
    assert!(rt;
        (
            window.at(63, 2, 0),
            window.at(64, 2, 0),
            window.at(70, 2, 0)
        ) == (7, 9, 0)
    );
    let part = window.part(alloc, rect([62, 2, 4, 1]))?;
    assert!(rt; part.raw_bytes() == [7, 7, 9, 9].as_slice());
    let past = window.part(alloc, rect([68, 3, 4, 1]))?;
    assert!(rt; past.raw_bytes() == [9, 9, 0, 0].as_slice());
    Ok(())
}

#[test]
fn window_that_lacks_a_tile_is_not_whole(rt: HostRuntime) -> Result<(), Fail> {
    let window = sevens_and_nines(rt.alloc())?;
    let below = Window::new(
        rect([60, 62, 8, 4]),
        Format::Y8,
        rect([0, 0, 70, 70]),
        window.tiles,
    );
    assert!(rt; !below.is_whole());
    Ok(())
}

#[test]
fn kit_cuts_a_tile(rt: HostRuntime) -> Result<(), Fail> {
    let alloc = rt.alloc();
    let (kit, mut purse) = (CutKit, CutPurse::new(1));
    let op = CutTo {
        rect: rect([66, 3, 2, 1]),
    };
    let copy = kit.copy_op(alloc, &op)?;
    assert!(rt; kit.same(&op, &copy));
    let windows = [sevens_and_nines(alloc)?];
    let cut = applied_tile(&kit, alloc, &mut purse, &op, &windows, TileAt::of(64, 0))?;
    assert!(rt; cut.is_some_and(|patch| patch.raw_bytes() == [9, 9].as_slice()));
    assert!(rt; kit.left(&purse) == 0);
    let refused = applied_tile(&kit, alloc, &mut purse, &op, &windows, TileAt::of(64, 0))?;
    assert!(rt; refused.is_none());
    Ok(())
}

#[test]
fn source_gives_a_tile_without_a_chain(rt: HostRuntime) -> Result<(), Fail> {
    let name = Name::parse(b"paper");
    assert!(rt; name.is_some());
    let Some(name) = name else {
        return Ok(());
    };
    let fact = BufferFact {
        name,
        root: name,
        bounds: rect([0, 0, 10, 10]),
        format: Format::RGB16,
    };
    let mut sources = BlankTiles::new(rt.alloc(), fact);
    let tile = sources.tile(&mut (), name, TileAt::of(0, 0))?;
    assert!(rt; tile.bytes().len() == 6 * 4096);
    Ok(())
}

#[test]
fn kit_cuts_a_part(rt: HostRuntime) -> Result<(), Fail> {
    let alloc = rt.alloc();
    let mut purse = CutPurse::new(1);
    let op = CutTo {
        rect: rect([62, 2, 4, 1]),
    };
    let windows = [sevens_and_nines(alloc)?];
    let (tile, out) = (TileAt::of(64, 0), rect([64, 2, 2, 1]));
    let cut = applied_part(&CutKit, alloc, &mut purse, &op, &windows, tile, out)?;
    assert!(rt; cut.is_some_and(|patch| patch.raw_bytes() == [9, 9].as_slice()));
    Ok(())
}
