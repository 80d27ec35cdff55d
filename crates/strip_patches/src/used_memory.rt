//! Patches in memory that was used before.

ghost use Rattle.std.specs.Prelude.{◌≡◌, IfOk, length};
ghost use Rattle.plane_rect.specs.Rectangle.{InLimits};
ghost use Rattle.model_images.specs.Image.{IsImage};

use alloc_basics::NoMemory;
use patch_abyss::Patch;
use pixel_formats::Format;
use plane_rect::Rect;
use std::alloc::Global;

/// Returns a patch over a rectangle, whichever its samples are: in the memory where that suits their number,
/// and else in new memory.
///
/// # Errors
///
/// `NoMemory` if memory runs out.
pub(crate) fn patch_in(
    alloc: Global,
    memory: Vec<u8>,
    rect: Rect,
    format: Format,
) -> Result<Patch, NoMemory>
    requires { InLimits rect }
    ensures rect { IfOk result (λ patch. patch.box ≡ rect) }
    ensures format { IfOk result (λ patch. patch.format ≡ format) }
    ensures whole { IfOk result (λ patch. IsImage patch) }
{
    let count = rect.area() as usize * format.pixel_bytes() as usize;
    let bytes = bytes_in(alloc, memory, count)?;
    Ok(Patch::from_vec(rect, format, bytes))
}

/// Returns so many bytes, whichever they are: in the memory where that suits them, and else zeros in new memory.
///
/// Memory suits that has room for half of them, since a large vector grows by moving its pages to other addresses
/// (`mremap` of the system), with no copy; and whose room isn't more than four times theirs, since a small patch would
/// hold all of it.
///
/// # Errors
///
/// `NoMemory` if memory runs out.
fn bytes_in(alloc: Global, memory: Vec<u8>, count: usize) -> Result<Vec<u8>, NoMemory>
    ensures { IfOk result (λ bytes. length bytes.items ≡ count) }
{
    let room = memory.capacity();
    if room < count / 2 || count < room / 4 {
        drop(memory);
        return Ok(vec![in alloc; 0; count]?);
    }
    let mut bytes = memory;
    bytes.reserve_exact(count.saturating_sub(bytes.len()))?;
    bytes.resize(count, 0)?;
    Ok(bytes)
}
