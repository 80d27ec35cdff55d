//! The raw bytes of parts of what windows show.

ghost use Rattle.std.specs.Prelude.{◌≡◌, IfOk, IfSome};
ghost use Rattle.plane_rect.specs.{Rectangle.InLimits, Tile.tile_square};
ghost use Rattle.model_graphs.specs.Windows.{IsWholeWindow, window_image};
ghost use Rattle.op_contracts.specs.PartBytes.{AreRawBytesOf, bytes_of};

use crate::window::Window;
use alloc_basics::NoMemory;
use patch_abyss::Patch;
use plane_rect::{Rect, TileAt};
use std::alloc::Global;

/// The raw bytes of a part of what a window shows.
#[derive(Drop)]
pub enum PartBytes<'a> {
    /// Those of a tile of the window, which the part is.
    Lent(&'a [u8]),
    /// A copy of the part.
    Copied(Patch),
}

impl PartBytes<'_> {
    /// Returns the bytes.
    pub fn as_slice(&self) -> &[u8]
        ensures { result.now ≡ bytes_of self.now }
    {
        match self {
            PartBytes::Lent(bytes) => bytes,
            PartBytes::Copied(patch) => patch.raw_bytes(),
        }
    }
}

impl Window {
    /// Returns the raw bytes of what the window shows over a rectangle, as `part` has it, without a copy where that is a
    /// tile in the input's box. Else it takes time in proportion to the rectangle's pixels and to the number of tiles.
    ///
    /// # Errors
    ///
    /// `NoMemory` if memory runs out.
    pub fn part_bytes(&self, alloc: Global, rect: Rect) -> Result<PartBytes<'_>, NoMemory>
        requires whole { IsWholeWindow self.now }
        requires limits { InLimits rect }
        ensures { IfOk result (λ part. AreRawBytesOf (window_image self.now) rect (bytes_of part)) }
    {
        match lent_tile(self, &rect) {
            Some(bytes) => Ok(PartBytes::Lent(bytes)),
            None => Ok(PartBytes::Copied(self.part(alloc, rect)?)),
        }
    }
}

/// Returns the raw bytes of the tile that a rectangle is, where it is one in the input's box and the
/// window has it.
fn lent_tile<'a>(window: &'a Window, rect: &Rect) -> Option<&'a [u8]>
    requires { IsWholeWindow window.now }
    ensures { IfSome result (λ bytes. AreRawBytesOf (window_image window.now) rect.now bytes.now) }
{
    let bytes = window.tile_bytes(whole_tile(rect)?)?;
    if window.bounds.contains(rect) {
        Some(bytes)
    } else {
        None
    }
}

/// Returns the tile that a rectangle is, where it is one.
fn whole_tile(rect: &Rect) -> Option<TileAt>
    ensures { IfSome result (λ at. rect.now ≡ tile_square at) }
{
    let at = TileAt::of_position(rect.first_column(), rect.first_row());
    if at.rect() == *rect { Some(at) } else { None }
}
