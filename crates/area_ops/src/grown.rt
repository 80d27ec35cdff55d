//! Parts of windows grown by a radius, and read under a policy.

ghost use Rattle.std.specs.Prelude.{◌≡◌, ◌≢◌, ℕ, ◌+◌, ◌*◌, ◌++◌, ◌<◌, ◌≤◌, IfOk, IsTrue, length, replicate};
ghost use Rattle.plane_rect.specs.Rectangle.{InLimits, Rectangle};
ghost use Rattle.pixel_formats.specs.Format.{channels, depth};
ghost use Rattle.pixel_formats.specs.Limits.{suits_areas};
ghost use Rattle.model_images.specs.{FromRaw.image_from_raw, Raw.raw};
ghost use Rattle.model_graphs.specs.Windows.{IsWholeWindow, window_image};
ghost use Rattle.area_ops.specs.Grown.{HoldsGrown, IsNear, IsPartNear, counted_part, near_part};

use alloc_basics::NoMemory;
use op_contracts::Window;
use patch_abyss::{Abyss, Patch, fetch};
use plane_rect::Rect;
use std::alloc::Global;

/// Returns the raw bytes of a part grown by a radius, of what a window shows and what is read outside
/// the input's box under a policy, and zeros after them: as many as sixteen samples have, or more.
/// The grown part may leave the plane. Takes time in proportion to its pixels and to the number of
/// tiles.
///
/// # Errors
///
/// `NoMemory` if memory runs out.
pub(crate) fn grown_part(
    alloc: Global,
    radius: u32,
    abyss: Abyss,
    window: &Window,
    out: &Rect,
) -> Result<Vec<u8>, NoMemory>
    requires radius { radius ≤ 64 }
    requires policy { IsTrue (suits_areas abyss) }
    requires whole { IsWholeWindow window.now }
    requires columns { out.now.width ≤ 64 }
    requires rows { out.now.height ≤ 64 }
    requires near { IsNear radius window.now.bounds out.now }
    ensures { IfOk result (λ bytes. HoldsGrown (window_image window.now) radius abyss out.now bytes.items) }
{
    let near = near_part(radius, &window.bounds, out);
    let part = window.part(alloc, near)?;
    if is_all_near(radius, out, &near) {
        return padded_bytes(part);
    }
    let counted = counted_part(radius, out, &part.rect());
    let moved = moved_patch(part, counted);
    let grown = Rect::spanning(0, 0, out.w + 2 * radius, out.h + 2 * radius);
    let read = fetch(alloc, &moved, abyss, grown)?;
    padded_bytes(read)
}

/// Returns the positions of a box that are in a part grown by a radius.
fn near_part(radius: u32, bounds: &Rect, out: &Rect) -> Rect
    requires { radius ≤ 64 }
    ensures { result ≡ near_part radius bounds.now out.now }
{
    Rect::spanning(
        out.first_column()
            .saturating_sub(radius)
            .max(bounds.first_column()),
        out.first_row()
            .saturating_sub(radius)
            .max(bounds.first_row()),
        (out.end_column() + radius).min(bounds.end_column()),
        (out.end_row() + radius).min(bounds.end_row()),
    )
}

/// Returns whether the positions of a box that are in a part grown by a radius are all of the grown
/// part, so that nothing is read outside the box.
fn is_all_near(radius: u32, out: &Rect, near: &Rect) -> bool
    requires radius { radius ≤ 64 }
    requires columns { out.now.width ≤ 64 }
    requires rows { out.now.height ≤ 64 }
    ensures columns { IsTrue result → near.now.width ≡ out.now.width + 2 * radius }
    ensures rows { IsTrue result → near.now.height ≡ out.now.height + 2 * radius }
{
    near.w == out.w + 2 * radius && near.h == out.h + 2 * radius
}

/// Returns a rectangle of a part grown by a radius, in columns and rows that count from those with
/// which the grown part begins.
fn counted_part(radius: u32, out: &Rect, part: &Rect) -> Rect
    requires radius { radius ≤ 64 }
    requires columns { out.now.width ≤ 64 }
    requires rows { out.now.height ≤ 64 }
    requires part { IsPartNear radius out.now part.now }
    ensures { result ≡ counted_part radius out.now part.now }
{
    Rect::spanning(
        part.first_column() + radius - out.first_column(),
        part.first_row() + radius - out.first_row(),
        part.end_column() + radius - out.first_column(),
        part.end_row() + radius - out.first_row(),
    )
}

/// Returns the patch of the same raw bytes over another rectangle of as many columns and rows,
/// without a copy.
fn moved_patch(patch: Patch, rect: Rect) -> Patch
    requires width { rect.width ≡ patch.box.width }
    requires height { rect.height ≡ patch.box.height }
    ensures { result ≡ image_from_raw rect patch.format (raw patch patch.box) }
{
    prove!(patch.rect().in_limits());
    let format = patch.format();
    Patch::from_vec(rect, format, patch.into_raw())
}

/// Returns the raw bytes of a patch, and after them as many zeros as sixteen samples have at most.
/// Most allocators make room for the zeros without a copy.
///
/// # Errors
///
/// `NoMemory` if memory runs out.
fn padded_bytes(patch: Patch) -> Result<Vec<u8>, NoMemory>
    ensures { IfOk result (λ bytes. bytes.items ≡ raw patch patch.box ++ replicate 64 0) }
{
    let mut bytes = patch.into_raw();
    bytes.reserve_exact(64)?;
    bytes.extend_from_slice(&[0; 64])?;
    Ok(bytes)
}
