//! Kernels over the squares around the pixels of a tile.

ghost use Rattle.std.specs.Prelude.{◌≡◌, ◌*◌, ◌+◌};
ghost use Rattle.pixel_formats.specs.Format.{channels, depth};
ghost use Rattle.area_kernels.specs.Parts.{read_samples, written_samples};

use crate::bench::Work;
use crate::bytes::{last, noise};
use area_kernels::{Area, area_max, area_mean};
use pixel_formats::Format;
use std::alloc::Global;

/// A kernel on what it reads for a part of an image.
#[derive(Drop)]
pub struct AreaWork {
    is_mean: bool,
    format: Format,
    area: Area,
    read: Vec<u8>,
    patch: Vec<u8>,
    dst: Vec<u8>,
}

impl AreaWork {
    /// Returns the kernel of a radius for a tile. None if memory runs out.
    pub fn new(alloc: Global, is_mean: bool, format: Format, radius: usize) -> Option<AreaWork> {
        let area = Area {
            radius: radius.min(64),
            width: 64,
            height: 64,
        };
        let count = read_bytes(format, area);
        Some(AreaWork {
            is_mean,
            format,
            area,
            read: noise(alloc, count)?,
            patch: noise(alloc, count)?,
            dst: noise(alloc, written_bytes(format, area))?,
        })
    }
}

/// Returns how many bytes are read, with the sixteen samples after them.
fn read_bytes(format: Format, area: Area) -> usize
    ensures { result ≡ depth format * (read_samples area (channels format) + 16) }
{
    let (width, height) = (area.width + 2 * area.radius, area.height + 2 * area.radius);
    let samples = height * (width * format.channels() as usize);
    format.depth() as usize * (samples + 16)
}

/// Returns how many bytes are written.
fn written_bytes(format: Format, area: Area) -> usize
    ensures { result ≡ depth format * written_samples area (channels format) }
{
    format.depth() as usize * (area.height * (area.width * format.channels() as usize))
}

impl Work for AreaWork {
    fn call(&mut self) -> Option<u64> {
        if self.patch.len() != read_bytes(self.format, self.area)
            || self.read.len() != self.patch.len()
            || self.dst.len() != written_bytes(self.format, self.area)
        {
            return None;
        }
        self.patch.copy_from_slice(&self.read);
        if self.is_mean {
            area_mean(self.format, self.area, &self.patch, &mut self.dst);
        } else {
            area_max(self.format, self.area, &mut self.patch, &mut self.dst);
        }
        Some(last(&self.dst))
    }
}
