//! Images and their raw bytes.

ghost use Rattle.std.specs.Prelude.{◌≡◌, ◌+◌, ◌*◌, ◌<◌, ◌≤◌, ◌^◌, ◌++◌, IfOk, length, slice_index};
ghost use Rattle.std.specs.List.{flat_map};
ghost use Rattle.plane_rect.specs.Rectangle.{InLimits};
ghost use Rattle.pixel_formats.specs.Format.{depth, max_sample};
ghost use Rattle.pixel_formats.specs.Row.{sample_at};
ghost use Rattle.model_images.specs.Raw.{raw, sample_bytes};
ghost use Rattle.model_images.specs.FromRaw.{byte_count, image_from_raw, pixels_from_raw};
ghost use Rattle.model_images.specs.Abyss.{raw_with};
ghost use Rattle.plain_images.specs.Picture.{AreSamples};

use crate::picture::{Picture, Samples, draw, sample_all};
use crate::policies::Read;
use alloc_basics::NoMemory;
use byteorder::{ByteOrder, LittleEndian};
use pixel_formats::{Abyss, Format};
use plane_rect::Rect;
use std::alloc::Global;

/// The samples that are decoded from the raw bytes of a rectangle.
#[derive(Drop)]
struct RawBytes<'a> {
    rect: Rect,
    format: Format,
    bytes: &'a [u8],
}

impl Samples for RawBytes<'_> {
    ghost sample_format = { λ text. text.format };

    ghost value = { λ text. pixels_from_raw text.rect text.format text.bytes.now };

    fn format(&self) -> Format {
        self.format
    }

    fn sample(&self, column: u32, row: u32, channel: u32) -> u32 {
        let width = u64::from(self.rect.end_column() - self.rect.first_column());
        let above = u64::from(row.saturating_sub(self.rect.first_row()));
        let before = u64::from(column.saturating_sub(self.rect.first_column()));
        let index = (above * width + before) * u64::from(self.format.channels())
            + u64::from(channel);
        sample_at(self.format, self.bytes, index as usize)
    }
}

/// Returns the image that the raw bytes of a rectangle encode: its pixels row by row, each row from the
/// left, the least significant byte of a sample first.
///
/// # Errors
///
/// No memory was left.
pub fn from_raw(
    alloc: Global,
    rect: Rect,
    format: Format,
    bytes: &[u8],
) -> Result<Picture, NoMemory>
    requires limits { InLimits rect }
    requires size { length bytes.now ≡ byte_count rect format }
    ensures image { IfOk result (λ picture. picture ≡ image_from_raw rect format bytes.now) }
    ensures raw { IfOk result (λ picture. raw picture rect ≡ bytes.now) }
{
    draw(
        alloc,
        rect,
        &RawBytes {
            rect,
            format,
            bytes,
        },
    )
}

/// Returns the raw bytes of a rectangle of an image under a policy.
///
/// # Errors
///
/// No memory was left.
pub fn raw_with(
    alloc: Global,
    picture: &Picture,
    policy: Abyss,
    rect: &Rect,
) -> Result<Vec<u8>, NoMemory>
    ensures { IfOk result (λ bytes. bytes.items ≡ raw_with picture.now policy rect.now) }
{
    let samples = sample_all(alloc, rect, &Read { picture, policy })?;
    to_bytes(alloc, picture.format(), &samples)
}

/// Returns the raw bytes of samples.
///
/// # Errors
///
/// No memory was left.
fn to_bytes(alloc: Global, format: Format, samples: &[u32]) -> Result<Vec<u8>, NoMemory>
    requires { AreSamples format samples.now }
    ensures { IfOk result (λ bytes. bytes.items ≡ flat_map (sample_bytes (depth format)) samples.now) }
{
    let mut bytes = Vec::new(alloc);
    for sample in samples {
        push_sample(&mut bytes, format, *sample)?;
    }
    Ok(bytes)
}

/// Adds the raw bytes of a sample.
///
/// # Errors
///
/// No memory was left.
fn push_sample(bytes: &mut Vec<u8>, format: Format, sample: u32) -> Result<(), NoMemory>
    requires { sample ≤ max_sample format }
    ensures { IfOk result (λ _. bytes.new.items ≡ bytes.old.items ++ sample_bytes (depth format) sample) }
{
    let mut encoded = [0; 4];
    LittleEndian::write_u32(&mut encoded, sample);
    bytes.extend_from_slice(&encoded[..format.depth() as usize])?;
    Ok(())
}

/// Returns a sample of raw bytes, by its index: 0 after the last.
fn sample_at(format: Format, bytes: &[u8], index: usize) -> u32
    requires { index < 2 ^ 62 }
    ensures value { result ≡ sample_at (depth format) bytes.now index }
    ensures range { result ≤ max_sample format }
{
    match format.depth() {
        1 => byte_at(bytes, index),
        2 => two_bytes_at(bytes, 2 * index),
        4 => two_bytes_at(bytes, 4 * index) + 65_536 * two_bytes_at(bytes, 4 * index + 2),
        _ => unreachable!(),
    }
}

/// Returns the number that two bytes encode from an index on.
fn two_bytes_at(bytes: &[u8], index: usize) -> u32
    requires { index + 1 < 2 ^ 64 }
    ensures value { result ≡ slice_index bytes.now index + 256 * slice_index bytes.now (index + 1) }
    ensures range { result < 65536 }
{
    byte_at(bytes, index) + 256 * byte_at(bytes, index + 1)
}

/// Returns a byte, and 0 after the last.
fn byte_at(bytes: &[u8], index: usize) -> u32
    ensures value { result ≡ slice_index bytes.now index }
    ensures range { result < 256 }
{
    bytes.get(index).map_or(0, |byte| u32::from(*byte))
}
