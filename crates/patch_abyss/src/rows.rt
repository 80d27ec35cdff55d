//! Rows of raw bytes.

ghost use Rattle.std.specs.Prelude.{◌≡◌, ◌+◌, ◌*◌, ◌^◌, ◌<◌, ◌≤◌, IfOk, false, length, take};
ghost use Rattle.plane_rect.specs.Rectangle.{Includes, area, is_empty, meet, offset};
ghost use Rattle.patch_abyss.specs.Copied.{AreRows, HasPart, HasRows, HaveRoom, bytes_of, row_byte};
ghost use Rattle.model_images.specs.FromRaw.{AreBytes};

use plane_rect::Rect;
use std::alloc::{AllocError, Global};
use std::ops::Range;
use std::simd::prelude::*;

/// From how many bytes on a row is long: copied faster by a call than block by block.
pub(crate) const LONG_ROW: usize = 256;

/// Rows of bytes that begin equally far apart.
#[derive(Clone, Copy)]
pub(crate) struct Rows {
    /// Where the first one begins.
    pub start: usize,
    /// How far it is from the beginning of a row to that of the next one, in bytes.
    pub stride: usize,
}

impl Rows {
    /// Returns the rows that begin there and so far apart.
    pub fn new(start: usize, stride: usize) -> Rows
        ensures { result ≡ record { start = start; stride = stride } }
    {
        Rows { start, stride }
    }

    /// Returns the rows of a part of a rectangle, of pixels of so many bytes.
    pub fn of_part(rect: &Rect, part: &Rect, pixel: usize) -> Rows
        requires part { Includes rect.now part.now }
        requires some { false ≡ is_empty part.now }
        requires pixel { pixel ≤ 16 }
        ensures start { result.start ≡ offset rect.now part.now.first_column part.now.first_row * pixel }
        ensures stride { result.stride ≡ rect.now.width * pixel }
    {
        Rows {
            start: rect.offset(part.first_column(), part.first_row()) * pixel,
            stride: rect.w as usize * pixel,
        }
    }

    /// Returns the indices of a row of so many bytes.
    #[inline(always)]
    pub fn row(self, row: usize, count: usize) -> Range<usize>
        requires { row_byte self row count < 2 ^ 64 }
        ensures start { result.start ≡ row_byte self row 0 }
        ensures end { result.end ≡ row_byte self row count }
    {
        let start = self.start + row * self.stride;
        start..start + count
    }
}

/// Copies the positions that are in both rectangles, of pixels of so many bytes.
pub(crate) fn copy_meet(to: &mut [u8], to_rect: &Rect, from: &[u8], from_rect: &Rect, pixel: usize)
    requires pixel { pixel ≤ 16 }
    requires to { length to.old ≡ area to_rect.now * pixel }
    requires from { length from.now ≡ area from_rect.now * pixel }
    ensures len { length to.new ≡ length to.old }
    ensures small { AreBytes to.new }
    ensures part { HasPart to_rect.now from_rect.now (meet to_rect.now from_rect.now) pixel
        from.now to.old to.new }
{
    let part = to_rect.meet(from_rect);
    if part.is_empty() {
        return;
    }
    let targets = Rows::of_part(to_rect, &part, pixel);
    let sources = Rows::of_part(from_rect, &part, pixel);
    let count = part.w as usize * pixel;
    copy_rows(to, targets, from, sources, count, part.h as usize);
}

/// Returns a vector of so many rows of `count` bytes, one after the other. It is not inlined, so
/// that nothing else keeps registers.
#[inline(never)]
pub(crate) fn cut_rows(
    alloc: Global,
    from: &[u8],
    rows: Rows,
    count: usize,
    many: usize,
) -> Result<Vec<u8>, AllocError>
    requires size { many * count < 2 ^ 64 }
    requires from { HaveRoom rows count many from.now }
    ensures { IfOk result (λ cut. AreRows rows count many from.now cut.items) }
{
    let mut bytes = Vec::with_capacity(alloc, many * count)?;
    for row in 0..many {
        bytes.extend_from_slice(&from[rows.row(row, count)])?;
    }
    Ok(bytes)
}

/// Copies so many rows of `count` bytes, long ones each by a call.
pub(crate) fn copy_rows(
    to: &mut [u8],
    targets: Rows,
    from: &[u8],
    sources: Rows,
    count: usize,
    many: usize,
)
    requires apart { count ≤ targets.stride }
    requires to { HaveRoom targets count many to.old }
    requires from { HaveRoom sources count many from.now }
    ensures len { length to.new ≡ length to.old }
    ensures rows { HasRows targets count many (bytes_of sources from.now) to.old to.new }
{
    match count {
        0 => {}
        1..4 => copy_short_rows::<1>(to, targets, from, sources, count, many),
        4..16 => copy_short_rows::<4>(to, targets, from, sources, count, many),
        16..64 => copy_short_rows::<16>(to, targets, from, sources, count, many),
        64..LONG_ROW => copy_short_rows::<64>(to, targets, from, sources, count, many),
        _ => {
            for row in 0..many {
                to[targets.row(row, count)].copy_from_slice(&from[sources.row(row, count)]);
            }
        }
    }
}

/// Copies rows in blocks of `N` bytes. It is not inlined, so that nothing else keeps registers.
#[inline(never)]
fn copy_short_rows<const N: usize>(
    to: &mut [u8],
    targets: Rows,
    from: &[u8],
    sources: Rows,
    count: usize,
    many: usize,
)
    requires some { 0 < N }
    requires long { N ≤ count }
    requires apart { count ≤ targets.stride }
    requires to { HaveRoom targets count many to.old }
    requires from { HaveRoom sources count many from.now }
    ensures len { length to.new ≡ length to.old }
    ensures rows { HasRows targets count many (bytes_of sources from.now) to.old to.new }
{
    for row in 0..many {
        copy_blocks::<N>(
            &mut to[targets.row(row, count)],
            &from[sources.row(row, count)],
        );
    }
}

/// Copies a row in blocks of `N` bytes, the last of which may overlap the one before it.
#[inline(always)]
fn copy_blocks<const N: usize>(to: &mut [u8], from: &[u8])
    requires same { length to.old ≡ length from.now }
    requires some { 0 < N }
    requires long { N ≤ length from.now }
    ensures { to.new ≡ from.now }
{
    let last = from.len() - N;
    let mut start = 0;
    while start < last {
        copy_block::<N>(to, from, start);
        start += N;
    }
    copy_block::<N>(to, from, last);
}

/// Copies `N` bytes from an index on, where those before it are copied.
#[inline(always)]
fn copy_block<const N: usize>(to: &mut [u8], from: &[u8], start: usize)
    requires same { length to.old ≡ length from.now }
    requires room { start + N ≤ length from.now }
    requires copied { take start to.old ≡ take start from.now }
    ensures len { length to.new ≡ length to.old }
    ensures copied { take (start + N) to.new ≡ take (start + N) from.now }
{
    Simd::<u8, N>::from_slice(&from[start..]).copy_to_slice(&mut to[start..]);
}
