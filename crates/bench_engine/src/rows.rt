//! Kernels over rows of pixels, beside a plain copy of a row.

use crate::bench::{Bench, Host, Times, Work};
use crate::bytes::{last, mark, noise};
use pixel_formats::Format;
use sample_rows::{
    convert_row, row_add, row_average4, row_gain, row_invert, row_mask, row_max, row_min, row_over,
    row_threshold,
};
use std::alloc::Global;

/// What is made of rows.
#[derive(Clone, Copy)]
pub enum Kernel {
    Copy,
    Invert,
    Threshold,
    Gain,
    Add,
    Min,
    Max,
    /// In formats with alpha; in others it does nothing.
    Over,
    Mask,
    /// The mean of four, of rows that are twice as long.
    Average,
    Convert(Format),
}

/// The kernels of one format and their names.
const KERNELS: [(&str, Kernel); 10] = [
    ("copy", Kernel::Copy),
    ("invert", Kernel::Invert),
    ("threshold", Kernel::Threshold),
    ("gain", Kernel::Gain),
    ("add", Kernel::Add),
    ("min", Kernel::Min),
    ("max", Kernel::Max),
    ("over", Kernel::Over),
    ("mask", Kernel::Mask),
    ("average", Kernel::Average),
];

/// All formats.
const FORMATS: [Format; 12] = [
    Format::Y8,
    Format::YA8,
    Format::RGB8,
    Format::RGBA8,
    Format::Y16,
    Format::YA16,
    Format::RGB16,
    Format::RGBA16,
    Format::Y32,
    Format::YA32,
    Format::RGB32,
    Format::RGBA32,
];

/// How many rows a call makes.
const ROWS: u32 = 256;

/// A kernel, the format of what it reads, and the rows that it reads and writes.
#[derive(Drop)]
pub struct RowWork {
    kernel: Kernel,
    format: Format,
    first: Vec<u8>,
    second: Vec<u8>,
    dst: Vec<u8>,
}

impl RowWork {
    /// Returns rows of so many pixels. None if memory runs out.
    pub fn new(alloc: Global, kernel: Kernel, format: Format, count: u32) -> Option<RowWork> {
        let [first, second, dst] = kernel
            .pixel_bytes(format)
            .map(|bytes| bytes.saturating_mul(count));
        let first = noise(alloc, first as usize)?;
        let second = noise(alloc, second as usize)?;
        let dst = noise(alloc, dst as usize)?;
        Some(RowWork {
            kernel,
            format,
            first,
            second,
            dst,
        })
    }

    /// Times the rows, of which each call makes so many.
    pub fn time<R: Host>(&mut self, bench: &Bench<'_, R>, label: &str, calls: u32) -> Option<()> {
        let times = Times {
            rounds: bench.rounds,
            calls,
            units: u64::from(ROWS),
            bytes: self.dst.len() as u64,
        };
        bench.time(label, times, self)
    }
}

impl Work for RowWork {
    fn call(&mut self) -> Option<u64> {
        let first = self.first.as_mut_slice();
        let dst = self.dst.as_mut_slice();
        let mut found = 0u64;
        for _row in 0..ROWS {
            mark(first);
            self.kernel.run(self.format, first, &self.second, dst);
            found = found.wrapping_add(last(dst));
        }
        Some(found)
    }
}

impl Kernel {
    /// Returns how many bytes of the first row, of the second and of the written one there are for a pixel.
    fn pixel_bytes(self, format: Format) -> [u32; 3] {
        let bytes = format.pixel_bytes();
        match self {
            Kernel::Average => [2 * bytes, 2 * bytes, bytes],
            Kernel::Mask => [bytes, format.depth(), bytes],
            Kernel::Convert(to) => [bytes, bytes, to.pixel_bytes()],
            _ => [bytes; 3],
        }
    }

    /// Makes a row, where the lengths suit.
    #[inline(always)]
    fn run(self, format: Format, first: &[u8], second: &[u8], dst: &mut [u8]) {
        match self {
            Kernel::Mask => mask(format, first, second, dst),
            Kernel::Average => average(format, first, second, dst),
            Kernel::Convert(to) => convert(format, first, to, dst),
            _ => self.run_equal(format, first, second, dst),
        }
    }

    /// Makes a row of rows that are as long.
    #[inline(always)]
    fn run_equal(self, f: Format, first: &[u8], second: &[u8], dst: &mut [u8]) {
        if first.len() % f.pixel_bytes() as usize != 0
            || second.len() != first.len()
            || dst.len() != first.len()
        {
            return;
        }
        match self {
            Kernel::Invert => row_invert(f, first, dst),
            Kernel::Threshold => row_threshold(f, 100, first, dst),
            Kernel::Gain => row_gain(f, 5, 4, first, dst),
            Kernel::Add => row_add(f, first, second, dst),
            Kernel::Min => row_min(f, first, second, dst),
            Kernel::Max => row_max(f, first, second, dst),
            Kernel::Over if f.has_alpha() => row_over(f, first, second, dst),
            Kernel::Copy => dst.copy_from_slice(first),
            _ => {}
        }
    }
}

/// Scales a row by a mask, where the lengths suit.
#[inline(always)]
fn mask(f: Format, src: &[u8], mask: &[u8], dst: &mut [u8]) {
    let count = src.len() / f.pixel_bytes() as usize;
    let wanted = count.checked_mul(f.depth() as usize);
    if src.len() % f.pixel_bytes() as usize == 0
        && wanted == Some(mask.len())
        && dst.len() == src.len()
    {
        row_mask(f, src, mask, dst);
    }
}

/// Halves two rows, where the lengths suit.
#[inline(always)]
pub fn average(f: Format, up: &[u8], down: &[u8], dst: &mut [u8]) {
    let wanted = dst.len().checked_mul(2);
    if dst.len() % f.pixel_bytes() as usize == 0
        && wanted == Some(up.len())
        && wanted == Some(down.len())
    {
        row_average4(f, up, down, dst);
    }
}

/// Converts a row, where the lengths suit.
#[inline(always)]
fn convert(from: Format, src: &[u8], to: Format, dst: &mut [u8]) {
    let count = src.len() / from.pixel_bytes() as usize;
    let written = count.checked_mul(to.pixel_bytes() as usize);
    if src.len() % from.pixel_bytes() as usize == 0 && written == Some(dst.len()) {
        convert_row(from, src, to, dst);
    }
}

/// Times each kernel of one format on rows of so many bytes.
fn time_kernels<R: Host>(
    bench: &Bench<'_, R>,
    format: Format,
    length: u32,
    calls: u32,
) -> Option<()> {
    let alloc = bench.rt.alloc();
    let count = length / format.pixel_bytes();
    let word = format.word();
    for (name, kernel) in &KERNELS {
        let label = format!(in alloc; "rows: {name} {word}, {length} bytes").ok()?;
        RowWork::new(alloc, *kernel, format, count)?.time(bench, &label, calls)?;
    }
    Some(())
}

/// Times conversions of rows of so many pixels to each other format.
fn time_conversions<R: Host>(
    bench: &Bench<'_, R>,
    format: Format,
    count: u32,
    calls: u32,
) -> Option<()> {
    let alloc = bench.rt.alloc();
    for to in &FORMATS {
        if *to != format {
            let label = format!(in alloc;
                "rows: {} to {}, {count} pixels",
                format.word(),
                to.word()
            ).ok()?;
            RowWork::new(alloc, Kernel::Convert(*to), format, count)?.time(bench, &label, calls)?;
        }
    }
    Some(())
}

/// Times each kernel on rows of 64, 1,024 and 4,096 bytes of each format, and each conversion of 1,024 pixels.
pub fn time_all<R: Host>(bench: &Bench<'_, R>) -> Option<()> {
    let calls = bench.size.max(1);
    for format in &FORMATS {
        time_kernels(bench, *format, 64, calls.saturating_mul(64))?;
        time_kernels(bench, *format, 1_024, calls.saturating_mul(4))?;
        time_kernels(bench, *format, 4_096, calls)?;
        time_conversions(bench, *format, 1_024, calls)?;
    }
    Some(())
}
