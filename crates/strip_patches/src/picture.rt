//! What a render gives: a patch, or tiles.

ghost use Rattle.std.specs.Prelude.{◌≡◌, true};
ghost use Rattle.model_images.specs.{Image.Image, Paint.cut};
ghost use Rattle.plane_rect.specs.Rectangle.{Rectangle};
ghost use Rattle.strip_patches.specs.Shown.{Shows, is_patch, picture_box, picture_format};

use crate::tiled_patch::TiledPatch;
use patch_abyss::Patch;
use pixel_formats::Format;
use plane_rect::Rect;

/// In which form a picture is given.
#[derive(Clone, Copy, Debug, PartialEq, Eq)]
pub enum PictureForm {
    /// One patch.
    Patch,
    /// Tiles where the rectangle is a large one of level 0 within the image's box, and else one patch.
    Tiles,
}

/// A rectangle of a level of an image.
#[derive(Drop)]
pub enum Picture {
    /// Its samples in one block of memory.
    Patch(Patch),
    /// The tiles that it meets, of a large rectangle of level 0.
    Tiles(TiledPatch),
}

impl Picture {
    /// Returns the rectangle, in pixels of its level.
    pub fn rect(&self) -> Rect
        ensures { result ≡ picture_box self.now }
    {
        match self {
            Picture::Patch(patch) => patch.rect(),
            Picture::Tiles(tiled) => tiled.rect(),
        }
    }

    /// Returns the format of the samples.
    pub fn format(&self) -> Format
        ensures { result ≡ picture_format self.now }
    {
        match self {
            Picture::Patch(patch) => patch.format(),
            Picture::Tiles(tiled) => tiled.format(),
        }
    }

    /// Returns the patch, of a picture that is one.
    pub fn into_patch(self) -> Patch
        requires { is_patch self ≡ true }
        ensures rect { result.box ≡ picture_box self }
        ensures format { result.format ≡ picture_format self }
        ensures image { (image : Image) (rect : Rectangle) → Shows image rect self → result ≡ cut image rect }
    {
        match self {
            Picture::Patch(patch) => patch,
            Picture::Tiles(_) => unreachable!(),
        }
    }
}
