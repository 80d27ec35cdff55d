//! Patches of gray pixels, in few words.

ghost use Rattle.std.specs.Prelude.{◌≡◌};
ghost use Rattle.pixel_formats.specs.declared.format.Format.TheVariants.{Y8};

use crate::values::Fields;
use patch_abyss::Patch;
use pixel_formats::Format;
use std::alloc::Global;
use std::process::Abort;
use test_nodes::rect;

/// Returns the patch of these gray pixels.
pub fn gray(rt: &impl Abort, alloc: Global, fields: Fields, pixels: &[u8]) -> Patch
    ensures { result.format ≡ Y8 }
{
    Patch::from_raw(alloc, rect(fields), Format::Y8, pixels).expect(rt, "a patch")
}

/// Returns the patch of one gray everywhere.
pub fn even(rt: &impl Abort, alloc: Global, fields: Fields, gray: u8) -> Patch
    ensures { result.format ≡ Y8 }
{
    let rect = rect(fields);
    let pixels = vec![in alloc; gray; rect.area() as usize].expect(rt, "memory");
    Patch::from_raw(alloc, rect, Format::Y8, &pixels).expect(rt, "a patch")
}
