//! Reading and halving of images in memory, beside a plain copy.

use crate::bench::{Bench, Host, Times, Work};
use crate::bytes::{last, noise};
use patch_abyss::{Abyss, Patch, fetch, halve};
use pixel_formats::Format;
use std::alloc::Global;
use test_nodes::rect;

/// What is made of an image.
#[derive(Clone, Copy)]
enum Call {
    /// A copy of its bytes.
    Copy,
    /// A square of as many pixels under a policy, at so many halves of the image's side to the right and down.
    Fetch(Abyss, i64),
    /// An image of half its size.
    Halve,
}

/// The calls and their names.
const CALLS: [(&str, Call); 9] = [
    ("copy afresh", Call::Copy),
    ("inside", Call::Fetch(Abyss::Clamp, 0)),
    ("none around", Call::Fetch(Abyss::None, -1)),
    ("clamp around", Call::Fetch(Abyss::Clamp, -1)),
    ("clamp outside", Call::Fetch(Abyss::Clamp, 3)),
    ("loop around", Call::Fetch(Abyss::Loop, -1)),
    ("black around", Call::Fetch(Abyss::Black, -1)),
    ("white outside", Call::Fetch(Abyss::White, 3)),
    ("halve", Call::Halve),
];

/// An image over a square from the origin on.
#[derive(Drop)]
struct PatchWork {
    alloc: Global,
    call: Call,
    side: i64,
    image: Patch,
}

impl Work for PatchWork {
    fn call(&mut self) -> Option<u64> {
        match self.call {
            Call::Copy => {
                let copy = Vec::from_slice(self.alloc, self.image.raw_bytes()).ok()?;
                Some(last(&copy))
            }
            Call::Fetch(abyss, halves) => {
                let corner = (self.side / 2).saturating_mul(halves);
                let square = rect([corner, corner, self.side, self.side]);
                let patch = fetch(self.alloc, &self.image, abyss, square).ok()?;
                Some(last(patch.raw_bytes()))
            }
            Call::Halve => {
                let patch = halve(self.alloc, &self.image).ok()?;
                Some(last(patch.raw_bytes()))
            }
        }
    }
}

/// Returns an image over a square from the origin on. None if memory runs out.
fn image(alloc: Global, side: i64, format: Format) -> Option<Patch> {
    let square = rect([0, 0, side, side]);
    let count = square
        .area()
        .saturating_mul(u64::from(format.pixel_bytes()));
    Patch::from_raw(alloc, square, format, &noise(alloc, count as usize)?).ok()
}

/// Times each call on images of 64 and of 512 columns and rows, of one, four and six bytes a pixel.
pub fn time_all<R: Host>(bench: &Bench<'_, R>) -> Option<()> {
    let alloc = bench.rt.alloc();
    for (side, calls) in [(64i64, 64u32), (512, 1)] {
        for format in [Format::Y8, Format::RGBA8, Format::RGB16] {
            for (name, call) in &CALLS {
                let mut work = PatchWork {
                    alloc,
                    call: *call,
                    side,
                    image: image(alloc, side, format)?,
                };
                let times = Times {
                    rounds: bench.rounds,
                    calls,
                    units: 1,
                    bytes: work.image.raw_bytes().len() as u64,
                };
                let label = format!(in alloc;
                    "patches: {name} {}, {side} columns",
                    format.word()
                ).ok()?;
                bench.time(&label, times, &mut work)?;
            }
        }
    }
    Some(())
}
