//! Operations on a whole tile whose windows are ready, beside the kernels alone that they call.

ghost use Rattle.std.specs.Prelude.{◌≡◌};
ghost use Rattle.op_contracts.specs.Applying.{window_bounds};
ghost use Rattle.test_kit.specs.Applicable.{IsApplicable};

use crate::areas::AreaWork;
use crate::bench::{Bench, Host, Times, Work};
use crate::bytes::{last, noise};
use crate::rows::{Kernel, RowWork};
use alloc_basics::NoMemory;
use int_ops::{IntKit, IntOp, IntPurse};
use op_contracts::{OpKit, Window, WindowTiles};
use patch_abyss::{Abyss, Patch};
use pixel_formats::Format;
use plane_rect::{Rect, TileAt};
use std::alloc::Global;
use test_kit::{boxes_of, formats_of, is_applicable};
use test_nodes::rect;

/// How often a call applies its operation.
const TIMES: u32 = 64;

/// The kernels of operations on each pixel of one input by itself, and their names.
const POINTS: [(&str, Kernel); 3] = [
    ("invert", Kernel::Invert),
    ("gain", Kernel::Gain),
    ("threshold", Kernel::Threshold),
];

/// The radii of operations on the square around each pixel, and whether it is the mean or the max.
const AREAS: [(&str, bool, u32); 4] = [
    ("box 5", true, 5),
    ("box 50", true, 50),
    ("dilate 3", false, 3),
    ("dilate 50", false, 50),
];

/// An operation and the windows that it reads.
#[derive(Drop)]
struct OperationWork {
    alloc: Global,
    op: IntOp,
    windows: Vec<Window>,
}

impl Work for OperationWork {
    fn call(&mut self) -> Option<u64> {
        let (op, windows) = (&self.op, self.windows.as_slice());
        let (tile, out) = (middle(), middle().rect());
        let boxes = boxes_of(self.alloc, windows).ok()?;
        let formats = formats_of(self.alloc, windows).ok()?;
        if !is_applicable(&IntKit, op, windows, &formats, &boxes, tile, &out) {
            return None;
        }
        let mut purse = IntPurse::new(u64::from(TIMES));
        apply(&IntKit, self.alloc, &mut purse, op, &boxes, windows, out).ok()
    }
}

/// Applies an operation as often as there are permits, at most.
fn apply<K: OpKit>(
    kit: &K,
    alloc: Global,
    purse: &mut K::Purse,
    op: &K::Op,
    boxes: &[Rect],
    windows: &[Window],
    out: Rect,
) -> Result<u64, NoMemory>
    requires applicable { IsApplicable K.Op.meanings op.now windows.now out }
    requires boxes { boxes.now ≡ window_bounds windows.now }
{
    let mut found = 0u64;
    for _ in 0..TIMES {
        let Some(permit) = kit.take(purse) else {
            return Ok(found);
        };
        let patch = kit.apply(alloc, permit, op, boxes, windows, out)?;
        found = found.wrapping_add(last(patch.raw_bytes()));
    }
    Ok(found)
}

/// Returns the tile in the middle of the windows.
fn middle() -> TileAt {
    TileAt::of(64, 64)
}

/// Returns the window of an image of three by three tiles from the origin on, of which the tile in the middle is needed,
/// grown by a radius. None if memory runs out.
fn window(alloc: Global, format: Format, radius: u32) -> Option<Window> {
    let bounds = rect([0, 0, 192, 192]);
    let count = bounds
        .area()
        .saturating_mul(u64::from(format.pixel_bytes()));
    let patch = Patch::from_raw(alloc, bounds, format, &noise(alloc, count as usize)?).ok()?;
    let radius = i64::from(radius);
    let corner = 64i64.saturating_sub(radius);
    let side = radius.saturating_mul(2).saturating_add(64);
    let need = rect([corner, corner, side, side]);
    let mut entries = Vec::new(alloc);
    for at in need.tiles() {
        entries.push((at, patch.tile(alloc, at).ok()?)).ok()?;
    }
    Some(Window::new(need, format, bounds, WindowTiles::new(entries)))
}

/// Returns the operation of a kernel. None of one that is no operation's.
fn operation_of(kernel: Kernel) -> Option<IntOp> {
    match kernel {
        Kernel::Invert => Some(IntOp::Invert),
        Kernel::Gain => Some(IntOp::Gain { num: 5, den: 4 }),
        Kernel::Threshold => Some(IntOp::Threshold { at: 100 }),
        Kernel::Convert(format) => Some(IntOp::Convert { format }),
        Kernel::Add => Some(IntOp::Add),
        Kernel::Over => Some(IntOp::Over),
        Kernel::Mask => Some(IntOp::Mask),
        _ => None,
    }
}

/// Times an operation on a tile of a format, which reads its inputs by a radius.
fn time_operation<R: Host>(
    bench: &Bench<'_, R>,
    name: &str,
    op: IntOp,
    formats: &[Format],
    radius: u32,
) -> Option<()> {
    let alloc = bench.rt.alloc();
    let mut windows = Vec::new(alloc);
    for format in formats {
        windows.push(window(alloc, *format, radius)?).ok()?;
    }
    let times = Times {
        rounds: bench.rounds,
        calls: 1,
        units: u64::from(TIMES),
        bytes: formats
            .first()
            .map_or(0, |format| 4_096 * u64::from(format.pixel_bytes())),
    };
    let mut work = OperationWork { alloc, op, windows };
    bench.time(name, times, &mut work)
}

/// Times an operation on each pixel by itself, and its kernel.
fn time_point<R: Host>(
    bench: &Bench<'_, R>,
    name: &str,
    kernel: Kernel,
    formats: &[Format],
) -> Option<()> {
    let alloc = bench.rt.alloc();
    let format = *formats.first()?;
    let label = format!(in alloc; "points: {name} {}", format.word()).ok()?;
    time_operation(bench, &label, operation_of(kernel)?, formats, 0)?;
    let label = format!(in alloc; "points: kernel of {name} {}", format.word()).ok()?;
    RowWork::new(alloc, kernel, format, 4_096)?.time(bench, &label, 1)
}

/// Times the operations on each pixel by itself, and their kernels.
pub fn time_points<R: Host>(bench: &Bench<'_, R>) -> Option<()> {
    for (format, other, gray) in [
        (Format::RGB8, Format::RGBA8, Format::Y8),
        (Format::RGBA8, Format::RGB8, Format::Y8),
        (Format::RGB16, Format::RGB8, Format::Y16),
    ] {
        for (name, kernel) in &POINTS {
            time_point(bench, name, *kernel, &[format])?;
        }
        time_point(bench, "convert", Kernel::Convert(other), &[format])?;
        time_point(bench, "add", Kernel::Add, &[format, format])?;
        if format.has_alpha() {
            time_point(bench, "over", Kernel::Over, &[format, format])?;
        }
        time_point(bench, "mask", Kernel::Mask, &[format, gray])?;
    }
    Some(())
}

/// Times the operations on the square around each pixel, and their kernels.
pub fn time_areas<R: Host>(bench: &Bench<'_, R>) -> Option<()> {
    let (alloc, abyss) = (bench.rt.alloc(), Abyss::Clamp);
    for format in [Format::RGB8, Format::RGB16] {
        for (name, is_mean, radius) in &AREAS {
            let radius = *radius;
            let op = if *is_mean {
                IntOp::BoxMean { radius, abyss }
            } else {
                IntOp::Dilate { radius, abyss }
            };
            let label = format!(in alloc; "areas: {name} {}", format.word()).ok()?;
            time_operation(bench, &label, op, &[format], radius)?;
            let mut kernel = AreaWork::new(alloc, *is_mean, format, radius as usize)?;
            let label = format!(in alloc; "areas: kernel of {name} {}", format.word()).ok()?;
            let times = Times {
                rounds: bench.rounds,
                calls: TIMES,
                units: 1,
                bytes: 4_096 * u64::from(format.pixel_bytes()),
            };
            bench.time(&label, times, &mut kernel)?;
        }
    }
    Some(())
}
