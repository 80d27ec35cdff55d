//! The limits of the script language, of the operations and of what a session holds.

ghost use Rattle.std.specs.Prelude.{◌≡◌, ◌↔◌, IsTrue};
ghost use Rattle.pixel_formats.specs.Limits.{ArePixel, IsArea, IsIn, IsMove, is_area, is_in, is_move};

use crate::abyss::Abyss;

/// The largest sample of all formats.
pub const MAX_SAMPLE: u32 = u32::MAX;

/// The largest number that a gain multiplies by, and the largest that it divides by.
pub const MAX_FACTOR: u32 = 65_535;

/// The largest level: how many times an image is halved.
pub const MAX_LEVEL: u32 = 8;

/// How far an image or a copy may be moved along each axis, in pixels.
pub const MAX_MOVE: i64 = 1 << 25;

/// The largest radius of the square that an operation reads around a position, in pixels.
pub const MAX_RADIUS: u32 = 64;

/// The longest side of a checker's squares, in pixels.
pub const MAX_CHECKER_SIZE: u32 = 4096;

/// The most pixels that the viewers of a watch may render.
pub const MAX_WATCHED_PIXELS: u64 = 1 << 25;

/// The most viewers of a watch.
pub const MAX_VIEWERS: u32 = 16;

/// The most frames of each viewer of a watch, but the last.
pub const MAX_FRAMES: u32 = 64;

/// The most bytes of what the names of a watch's files begin with.
pub const MAX_PREFIX_BYTES: usize = 58;

/// The most bytes of a script.
pub const MAX_SCRIPT_BYTES: u64 = 1 << 20;

/// The most bytes of a line of a script, without its end.
pub const MAX_LINE_BYTES: usize = 1024;

/// The most lines of a script.
pub const MAX_LINES: u32 = 10_000;

/// The most nodes of a graph.
pub const MAX_NODES: usize = 256;

/// Returns whether a number is in a range, whose ends are included.
pub fn is_in(low: u32, high: u32, value: u32) -> bool
    ensures test { result ≡ is_in low high value }
    ensures fact { IsTrue result ↔ IsIn low high value }
{
    low <= value && value <= high
}

/// Returns whether there are 1 to 4 samples.
pub fn are_pixel(samples: &[u32]) -> bool
    ensures { IsTrue result ↔ ArePixel samples.now }
{
    1 <= samples.len() && samples.len() <= 4 && samples.iter().all(|sample| *sample <= MAX_SAMPLE)
}

/// Returns whether something may be moved so far along an axis, in pixels.
pub fn is_move(distance: i64) -> bool
    ensures test { result ≡ is_move distance }
    ensures fact { IsTrue result ↔ IsMove distance }
{
    -MAX_MOVE <= distance && distance <= MAX_MOVE
}

/// Returns whether an operation may read squares of a radius, in pixels, under a policy.
pub fn is_area(radius: u32, abyss: Abyss) -> bool
    ensures test { result ≡ is_area radius abyss }
    ensures fact { IsTrue result ↔ IsArea radius abyss }
{
    is_in(1, MAX_RADIUS, radius) && abyss != Abyss::Loop
}
