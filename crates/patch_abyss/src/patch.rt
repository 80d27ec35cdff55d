//! Images in memory.

ghost use Rattle.std.specs.Prelude.{◌≡◌, ◌≢◌, ◌<◌, ◌≤◌, ◌+◌, ◌-◌, ◌*◌, ℕ, ◌↔◌, ◌⊎◌, IfErr, IfOk, IsTrue, false, length};
ghost use Rattle.plane_rect.specs.Rectangle.{InLimits, Includes, IsRectangle, InsideSigned, Within, end_row, is_empty, plane_index as index_of};
ghost use Rattle.plane_rect.specs.Tile.{tile_square};
ghost use Rattle.pixel_formats.specs.Format.{channels, depth, pixel_bytes};
ghost use Rattle.pixel_formats.specs.Row.{pixel_at, sample_at};
ghost use Rattle.model_images.specs.Image.{IsImage, at};
ghost use Rattle.model_images.specs.Paint.{blank, cut, painted, put_raw};
ghost use Rattle.model_images.specs.Raw.{raw, tile_bytes};
ghost use Rattle.model_images.specs.FromRaw.{byte_count, image_from_raw};
ghost use Rattle.patch_abyss.specs.declared.patch.PatchRefused.TheVariants.{NoMemory, WrongSize};
ghost use Rattle.patch_abyss.specs.Rows.{HasWholeRows};

use crate::rows::{LONG_ROW, Rows, copy_meet, cut_rows};
use alloc_basics::NoMemory;
use byteorder::{ByteOrder, LittleEndian};
use pixel_formats::Format;
use plane_rect::{Rect, TileAt, plane_index};
use std::alloc::{AllocError, Global};
use std::marker::Model;
use std::ops::Range;
use thiserror::Error;
use tile_cow::Tile;

/// How many pixels a tile has.
const TILE_PIXELS: u32 = 64 * 64;

/// An image in memory. Its rectangle is in limits.
///
/// A clause sees it as an image: its box, its format and its pixels, which are zero outside the
/// box.
#[derive(Drop)]
pub struct Patch {
    rect: Rect,
    format: Format,
    /// The raw bytes of the rectangle.
    bytes: Vec<u8>,
}

impl Model for Patch {
    ghost use Rattle.model_images.specs.FromRaw.{IsRaw, image_from_raw};
    ghost use Rattle.model_images.specs.Image.{Image};

    ghost Value = { Image };

    ghost view = { λ patch. image_from_raw patch.rect patch.format patch.bytes.items };

    ghost invariant = { λ patch. IsRaw patch.rect patch.format patch.bytes.items };
}

/// Why bytes make no patch.
#[derive(Clone, Copy, Debug, PartialEq, Eq, Error)]
pub enum PatchRefused {
    /// There are `found` bytes, and the rectangle has `wanted`.
    #[error("{found} bytes for a rectangle of {wanted}")]
    WrongSize { found: u64, wanted: u64 },
    /// Memory ran out.
    #[error("no memory was left")]
    NoMemory,
}

impl From<AllocError> for PatchRefused {
    ghost from_gives = { λ _ refused. refused ≡ NoMemory };

    fn from(_error: AllocError) -> PatchRefused {
        PatchRefused::NoMemory
    }
}

impl Patch {
    /// Returns the patch of zeros. Takes time in proportion to the pixels.
    ///
    /// # Errors
    ///
    /// `NoMemory` if memory runs out.
    pub fn zero(alloc: Global, rect: Rect, format: Format) -> Result<Patch, NoMemory>
        requires { InLimits rect }
        ensures { IfOk result (λ patch. patch ≡ blank rect format) }
    {
        let bytes = vec![in alloc; 0; byte_count(&rect, format)]?;
        Ok(Patch::from_vec(rect, format, bytes))
    }

    /// Returns the patch of a copy of these raw bytes: the pixels row by row, each row from the left.
    ///
    /// # Errors
    ///
    /// `WrongSize` exactly where they are too many or too few, and `NoMemory` if memory runs out.
    pub fn from_raw(
        alloc: Global,
        rect: Rect,
        format: Format,
        bytes: &[u8],
    ) -> Result<Patch, PatchRefused>
        requires { InLimits rect }
        ensures image { IfOk result (λ patch. patch ≡ image_from_raw rect format bytes.now) }
        ensures raw { IfOk result (λ patch. raw patch rect ≡ bytes.now) }
        ensures size { (result ≡ Err (WrongSize (length bytes.now) (byte_count rect format)))
            ↔ (length bytes.now ≢ byte_count rect format) }
        ensures causes { IfErr result (λ refused. (refused ≡ PatchRefused.NoMemory)
            ⊎ (refused ≡ WrongSize (length bytes.now) (byte_count rect format))) }
    {
        let wanted = byte_count(&rect, format);
        if bytes.len() != wanted {
            return Err(PatchRefused::WrongSize {
                found: bytes.len() as u64,
                wanted: wanted as u64,
            });
        }
        Ok(Patch {
            rect,
            format,
            bytes: Vec::from_slice(alloc, bytes)?,
        })
    }

    /// Returns the rectangle.
    pub fn rect(&self) -> Rect
        ensures value { result ≡ self.now.box }
        ensures rectangle { IsRectangle result }
        ensures limits { InLimits result }
        ensures whole { IsImage self.now }
    {
        self.rect
    }

    /// Returns the format.
    pub fn format(&self) -> Format
        ensures { result ≡ self.now.format }
    {
        self.format
    }

    /// Returns the sample of the position of x and y in a channel, and 0 at a position outside the
    /// rectangle.
    pub fn at(&self, x: i32, y: i32, c: u32) -> u32
        requires { c < channels self.now.format }
        ensures inside { InsideSigned x y self.now.box → result ≡ at self.now (index_of x) (index_of y) c }
        ensures outside { ¬ InsideSigned x y self.now.box → result ≡ 0 }
    {
        if !self.rect.has(x, y) {
            return 0;
        }
        let position = self.rect.offset(plane_index(x), plane_index(y));
        let index = position * self.format.channels() as usize + c as usize;
        sample_at(self.format, &self.bytes, index)
    }

    /// Returns the patch over another rectangle, zero where this one has no position. Takes time in
    /// proportion to the other rectangle's pixels.
    ///
    /// # Errors
    ///
    /// `NoMemory` if memory runs out.
    pub fn part(&self, alloc: Global, rect: Rect) -> Result<Patch, NoMemory>
        requires { InLimits rect }
        ensures { IfOk result (λ patch. patch ≡ cut self.now rect) }
    {
        let format = self.format;
        let pixel = format.pixel_bytes() as usize;
        if has_rows(&self.rect, &rect, rect.first_row()..rect.end_row()) {
            return self.band(alloc, rect);
        }
        if rect.w as usize * pixel >= LONG_ROW && self.rect.contains(&rect) {
            return self.cut(alloc, rect);
        }
        let mut bytes = vec![in alloc; 0; byte_count(&rect, format)]?;
        copy_meet(&mut bytes, &rect, &self.bytes, &self.rect, pixel);
        Ok(Patch::from_vec(rect, format, bytes))
    }

    /// Returns the patch over whole rows of the rectangle, whose bytes follow one another.
    fn band(&self, alloc: Global, rows: Rect) -> Result<Patch, NoMemory>
        requires limits { InLimits rows }
        requires rectangle { IsRectangle rows }
        requires rows { HasWholeRows self.now.box rows rows.first_row (end_row rows) }
        ensures { IfOk result (λ patch. patch ≡ cut self.now rows) }
    {
        let bytes = Vec::from_slice(alloc, self.rows(rows.first_row()..rows.end_row()))?;
        Ok(Patch::from_vec(rows, self.format, bytes))
    }

    /// Returns the patch over a part of the rectangle, whose memory is written once.
    fn cut(&self, alloc: Global, part: Rect) -> Result<Patch, NoMemory>
        requires limits { InLimits part }
        requires part { Includes self.now.box part }
        requires some { false ≡ is_empty part }
        ensures { IfOk result (λ patch. patch ≡ cut self.now part) }
    {
        let format = self.format;
        let pixel = format.pixel_bytes() as usize;
        let rows = Rows::of_part(&self.rect, &part, pixel);
        let (count, many) = (part.w as usize * pixel, part.h as usize);
        let bytes = cut_rows(alloc, &self.bytes, rows, count, many)?;
        Ok(Patch::from_vec(part, format, bytes))
    }

    /// Writes the samples of the other patch at the positions that are in both rectangles. Takes
    /// time in proportion to these positions.
    pub fn blit(&mut self, from: &Patch)
        requires { from.now.format ≡ self.old.format }
        ensures { self.new ≡ painted self.old from.now.box (at from.now) }
    {
        self.paint(&from.rect, &from.bytes);
    }

    /// Writes the samples of the raw bytes of a rectangle at the positions that are in both. Takes
    /// time in proportion to these positions.
    pub fn paint(&mut self, rect: &Rect, bytes: &[u8])
        requires { length bytes.now ≡ byte_count rect.now self.old.format }
        ensures { self.new ≡ put_raw self.old rect.now bytes.now }
    {
        let pixel = self.format.pixel_bytes() as usize;
        copy_meet(&mut self.bytes, &self.rect, bytes, rect, pixel);
    }

    /// Returns the 64 by 64 pixels of a tile, zero where the patch has no position.
    ///
    /// # Errors
    ///
    /// `NoMemory` if memory runs out.
    pub fn tile(&self, alloc: Global, at: TileAt) -> Result<Tile, NoMemory>
        ensures { IfOk result (λ tile. tile ≡ tile_bytes self.now at) }
    {
        let rect = at.rect();
        if rect.is_empty() {
            return Tile::zero(alloc, TILE_PIXELS * self.format.pixel_bytes());
        }
        if self.rect == rect {
            return Tile::of(alloc, self.raw_bytes());
        }
        let part = self.part(alloc, rect)?;
        Tile::from_vec(alloc, part.into_raw())
    }

    /// Writes the samples of a tile at the positions that are in the rectangle.
    pub fn put_tile(&mut self, at: TileAt, tile: &Tile)
        requires { length tile.now ≡ 4096 * pixel_bytes self.old.format }
        ensures { self.new ≡ put_raw self.old (tile_square at) tile.now }
    {
        let square = at.rect();
        if self.rect.meet(&square).is_empty() {
            return;
        }
        self.paint(&square, tile.bytes());
    }

    /// Returns the patch of as many raw bytes as the rectangle has, without a copy: the pixels row by
    /// row, each row from the left.
    pub fn from_vec(rect: Rect, format: Format, bytes: Vec<u8>) -> Patch
        requires limits { InLimits rect }
        requires count { length bytes.items ≡ byte_count rect format }
        ensures { result ≡ image_from_raw rect format bytes.items }
    {
        Patch {
            rect,
            format,
            bytes,
        }
    }

    /// Returns the raw bytes of rows of the rectangle that follow one another.
    pub(crate) fn rows(&self, rows: Range<u32>) -> &[u8]
        requires some { rows.start < rows.end }
        requires first_row { self.now.box.first_row ≤ rows.start }
        requires end_row { rows.end ≤ end_row self.now.box }
        ensures len { length result.now ≡ (rows.end - rows.start) * (self.now.box.width * pixel_bytes self.now.format) }
        ensures samples { (u v c : ℕ) → Within self.now.box.first_column self.now.box.width u → rows.start ≤ v → v < rows.end
            → c < channels self.now.format
            → pixel_at self.now.format result.now ((v - rows.start) * self.now.box.width + (u - self.now.box.first_column)) c ≡ at self.now u v c }
    {
        let pixel = self.format.pixel_bytes() as usize;
        let first = self.rect.part_row(&self.rect, rows.start);
        let last = self.rect.part_row(&self.rect, rows.end - 1);
        &self.bytes[first.start * pixel..last.end * pixel]
    }

    /// Returns the raw bytes, without a copy.
    pub fn into_raw(self) -> Vec<u8>
        ensures value { result.items ≡ raw self self.box }
        ensures count { length result.items ≡ byte_count self.box self.format }
    {
        self.bytes
    }

    /// Returns the raw bytes of the rectangle: its pixels row by row, each row from the left.
    pub fn raw_bytes(&self) -> &[u8]
        ensures value { result.now ≡ raw self.now self.now.box }
        ensures count { length result.now ≡ byte_count self.now.box self.now.format }
    {
        &self.bytes
    }
}

/// Returns whether a rectangle has just these columns, and these rows, of which there is one.
pub(crate) fn has_rows(rect: &Rect, columns: &Rect, rows: Range<u32>) -> bool
    ensures { IsTrue result → HasWholeRows rect.now columns.now rows.start rows.end }
{
    rect.first_column() == columns.first_column()
        && rect.w == columns.w
        && rows.start < rows.end
        && rect.first_row() <= rows.start
        && rows.end <= rect.end_row()
}

/// Returns how many raw bytes a rectangle has.
pub(crate) fn byte_count(rect: &Rect, format: Format) -> usize
    requires { InLimits rect.now }
    ensures value { result ≡ byte_count rect.now format }
    ensures rectangle { IsRectangle rect.now }
{
    rect.area() as usize * format.pixel_bytes() as usize
}

/// Returns a sample of raw bytes, by its index.
pub fn sample_at(format: Format, bytes: &[u8], index: usize) -> u32
    requires { depth format * (index + 1) ≤ length bytes.now }
    ensures { result ≡ sample_at (depth format) bytes.now index }
{
    let depth = format.depth() as usize;
    LittleEndian::read_uint(&bytes[depth * index..], depth) as u32
}
