//! Operations on the square around each position, on parts of windows.

ghost use Rattle.std.specs.Prelude.{◌≡◌, ◌∷◌, [], IfOk};
ghost use Rattle.plane_rect.specs.Rectangle.{Includes};
ghost use Rattle.pixel_formats.specs.Limits.{IsArea};
ghost use Rattle.model_images.specs.Paint.{cut};
ghost use Rattle.model_graphs.specs.{Meanings.result_box, Windows.IsWholeWindow};
ghost use Rattle.model_operations.specs.Meanings.{int_meanings};
ghost use Rattle.op_contracts.specs.Applying.{IsInOneTile, result_of_windows};
ghost use Rattle.area_ops.specs.Kinds.{operation_of};

use crate::grown::grown_part;
use crate::kind::AreaKind;
use alloc_basics::NoMemory;
use area_kernels::Area;
use op_contracts::Window;
use patch_abyss::{Abyss, Patch};
use plane_rect::Rect;
use std::alloc::Global;

/// Returns a part of what an operation on the squares of `2 * radius + 1` pixels a side around each
/// position gives of the image that a window shows. The part is in one tile. Takes time in
/// proportion to the pixels of the part grown by the radius, to the logarithm of the radius and to
/// the number of tiles, and not to the pixels of a square.
///
/// # Errors
///
/// `NoMemory` if memory runs out.
pub fn area_part(
    alloc: Global,
    kind: AreaKind,
    radius: u32,
    abyss: Abyss,
    window: &Window,
    out: Rect,
) -> Result<Patch, NoMemory>
    requires area { IsArea radius abyss }
    requires whole { IsWholeWindow window.now }
    requires part { Includes (result_box int_meanings (operation_of kind radius abyss) (window.now.bounds ∷ [])) out }
    requires tile { IsInOneTile out }
    ensures { IfOk result (λ patch. patch ≡ cut (result_of_windows int_meanings (operation_of kind radius abyss) (window.now ∷ [])) out) }
{
    if out.is_empty() {
        return Patch::zero(alloc, out, window.format);
    }
    let area = Area {
        radius: radius as usize,
        width: out.w as usize,
        height: out.h as usize,
    };
    let mut read = grown_part(alloc, radius, abyss, window, &out)?;
    let bytes = kind.bytes(alloc, window.format, area, &mut read)?;
    Ok(Patch::from_vec(out, window.format, bytes))
}
