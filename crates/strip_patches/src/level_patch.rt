//! The patch of a request of a level, made of strips of level 0.

ghost use Rattle.std.specs.Prelude.{◌≡◌, ℕ, ◌+◌, ◌*◌, ◌≤◌, All, IfOk, IsSome, OnErr, OnOk, Some, length, min, slice_get};
ghost use Rattle.plane_rect.specs.Rectangle.{InLimits, IsRectangle, Rectangle, meet, scaled};
ghost use Rattle.plane_rect.specs.Tile.{IsWhole, strip_rectangles};
ghost use Rattle.pixel_formats.specs.Format.{pixel_bytes};
ghost use Rattle.model_images.specs.Image.{Image, at};
ghost use Rattle.model_images.specs.Level.{level as image_level, level_box};
ghost use Rattle.model_images.specs.Paint.{cut, painted};
ghost use Rattle.op_contracts.specs.TileList.{HasLength};
ghost use Rattle.strip_patches.specs.LevelStrips.{AreOfOne, HasStrips, LevelStrips, source_of};
ghost use Rattle.strip_patches.specs.Pictures.{AreTilesOver};

use crate::bands::put_by_bands;
use crate::patching::patch_of_tiles;
use alloc_basics::NoMemory;
use patch_abyss::{Patch, halve};
use pixel_formats::Format;
use plane_rect::{Rect, TileAt};
use std::alloc::Global;
use std::marker::Model;
use tile_cow::Tile;

/// How many times a strip is halved by itself. Strips are cut at multiples of 64 rows, so up to here no
/// row of a level is averaged of rows of two strips.
const STRIP_LEVELS: u32 = 6;

/// The patch of a rectangle of a level, made of strips of level 0 one after another. A clause sees the
/// rectangle, the level, and the patch so far.
#[derive(Drop)]
pub struct LevelPatch {
    rect: Rect,
    level: u32,
    /// Of the level of the request, of 6 at most.
    patch: Patch,
}

impl Model for LevelPatch {
    ghost use Rattle.strip_patches.specs.LevelStrips.{IsRequest, LevelStrips};

    ghost Value = { LevelStrips };

    ghost view = { λ strips. record { rect = strips.rect; at_level = strips.level; patch = strips.patch } };

    ghost invariant = { λ strips. IsRequest (record { rect = strips.rect; at_level = strips.level; patch = strips.patch }) };
}

impl LevelPatch {
    /// Returns the patch to which no strip was added.
    ///
    /// # Errors
    ///
    /// `NoMemory` if memory runs out.
    pub fn new(
        alloc: Global,
        rect: Rect,
        level: u32,
        format: Format,
    ) -> Result<LevelPatch, NoMemory>
        requires level { level ≤ 8 }
        requires source { IsSome (scaled level rect) }
        ensures rect { IfOk result (λ strips. strips.rect ≡ rect) }
        ensures level { IfOk result (λ strips. strips.at_level ≡ level) }
        ensures format { IfOk result (λ strips. strips.patch.format ≡ format) }
        ensures none { IfOk result (λ strips. (image : Image) → IsRectangle image.box → image.format ≡ format →
            HasStrips image 0 strips) }
    {
        let source = rect.scaled(level).unwrap();
        // Both are rectangles of the plane, as these calls say.
        let _areas = (rect.area(), source.area());
        let over = halved_rect(source, level.min(STRIP_LEVELS));
        let patch = Patch::zero(alloc, over, format)?;
        Ok(LevelPatch { rect, level, patch })
    }

    /// Adds the next strip of level 0 of the request's rectangle, as they follow one another from the top.
    /// Takes time in proportion to the strip's pixels.
    ///
    /// # Errors
    ///
    /// `NoMemory` if memory runs out. Nothing is then added.
    pub fn add(&mut self, alloc: Global, strip: Patch) -> Result<(), NoMemory>
        requires { strip.format ≡ self.old.patch.format }
        ensures request { AreOfOne self.old self.new }
        ensures added { OnOk result ((image : Image) (k : ℕ) (r : Rectangle) → HasStrips image k self.old →
            slice_get (strip_rectangles (source_of self.old)) k ≡ Some r → strip ≡ cut image r → HasStrips image (k + 1) self.new) }
        ensures unchanged { OnErr result (self.new ≡ self.old) }
    {
        let part = halved_patch(alloc, strip, self.level.min(STRIP_LEVELS))?;
        lay(&mut self.patch, part);
        Ok(())
    }

    /// Adds the next strip as [`add`](LevelPatch::add) does, by the tiles of an image over `bounds` that meet the strip's
    /// rectangle within them. At level 0, where the rectangle is within the bounds, the tiles are put into the patch as
    /// they are, and no strip is made.
    ///
    /// # Errors
    ///
    /// `NoMemory` if memory runs out. Nothing is then added.
    pub(crate) fn add_tiles(
        &mut self,
        alloc: Global,
        tiles: &[(TileAt, Tile)],
        rect: Rect,
        bounds: Rect,
    ) -> Result<(), NoMemory>
        requires in_plane { All (λ entry. IsWhole entry.0) tiles.now }
        requires lengths { All (HasLength (4096 * pixel_bytes self.old.patch.format)) tiles.now }
        requires limits { InLimits rect }
        ensures request { AreOfOne self.old self.new }
        ensures added { (image : Image) → image.box ≡ bounds → AreTilesOver image (meet rect image.box) tiles.now →
            (k : ℕ) → HasStrips image k self.old → slice_get (strip_rectangles (source_of self.old)) k ≡ Some rect →
            OnOk result (HasStrips image (k + 1) self.new) }
        ensures unchanged { OnErr result (self.new ≡ self.old) }
    {
        if self.level == 0 && bounds.contains(&rect) {
            put_by_bands(&mut self.patch, tiles);
            return Ok(());
        }
        let strip = patch_of_tiles(alloc, tiles, rect, self.patch.format())?;
        self.add(alloc, strip)
    }

    /// Returns the patch of the request, once each strip was added.
    ///
    /// # Errors
    ///
    /// `NoMemory` if memory runs out.
    pub fn finish(self, alloc: Global) -> Result<Patch, NoMemory>
        ensures rect { IfOk result (λ patch. patch.box ≡ self.rect) }
        ensures format { IfOk result (λ patch. patch.format ≡ self.patch.format) }
        ensures image { (image : Image) → HasStrips image (length (strip_rectangles (source_of self))) self →
            IfOk result (λ patch. patch ≡ cut (image_level image self.at_level) self.rect) }
    {
        halved_patch(alloc, self.patch, self.level.saturating_sub(STRIP_LEVELS))
    }
}

/// Writes the samples of the other patch at the positions that are in both. Where these are all, moves it
/// instead of copying.
fn lay(patch: &mut Patch, part: Patch)
    requires { part.format ≡ patch.old.format }
    ensures { patch.new ≡ painted patch.old part.box (at part) }
{
    if part.rect() == patch.rect() {
        *patch = part;
        return;
    }
    patch.blit(&part);
}

/// Returns the rectangle halved so many times.
fn halved_rect(rect: Rect, times: u32) -> Rect
    requires rectangle { IsRectangle rect }
    requires limits { InLimits rect }
    ensures value { result ≡ level_box rect times }
    ensures limits { InLimits result }
{
    let mut halved = rect;
    for _round in 0..times {
        halved = halved.halved();
    }
    halved
}

/// Returns the patch halved so many times.
///
/// # Errors
///
/// `NoMemory` if memory runs out.
fn halved_patch(alloc: Global, patch: Patch, times: u32) -> Result<Patch, NoMemory>
    ensures { IfOk result (λ halved. halved ≡ image_level patch times) }
{
    let mut halved = patch;
    for _round in 0..times {
        halved = halve(alloc, &halved)?;
    }
    Ok(halved)
}
