//! Small images that are read under each policy.

ghost use Rattle.std.specs.Prelude.{◌≤◌};

use crate::check::check;
use crate::patches::patch_of;
use crate::read_cases::{AROUND_TWO, Drawn, Image, READ, TWO};
use patch_abyss::{Abyss, Patch, fetch};
use std::alloc::Global;
use std::process::Abort;
use test_nodes::rect;

/// The policies.
pub const POLICIES: [Abyss; 5] = [
    Abyss::None,
    Abyss::Clamp,
    Abyss::Loop,
    Abyss::Black,
    Abyss::White,
];

/// The bytes of a white pixel of the widest format, and of one that is zero.
const WHITE: &[u8] = &[255; 16];

const ZERO: &[u8] = &[0; 16];

/// Returns how many bytes a pixel of an image has.
fn width_of(image: &Image) -> usize
    ensures { 1 ≤ result }
{
    image.black.len().max(1)
}

/// Returns the bytes of a pixel as it is drawn: one of the image's, or what a policy has outside.
fn drawn_pixel(image: &Image, abyss: Abyss, drawn: u8) -> Option<&'static [u8]> {
    let width = width_of(image);
    match (drawn, abyss) {
        (b'.', Abyss::Black) => Some(image.black),
        (b'.', Abyss::White) => WHITE.get(..width),
        (b'.', _) => ZERO.get(..width),
        _ => image
            .bytes
            .chunks(width)
            .nth(usize::from(drawn.wrapping_sub(b'1'))),
    }
}

/// Returns the bytes of the pixels that are drawn.
fn drawn_bytes(
    rt: &impl Abort,
    alloc: Global,
    image: &Image,
    abyss: Abyss,
    drawn: &str,
) -> Vec<u8> {
    let mut bytes = Vec::new(alloc);
    for byte in drawn.as_bytes() {
        let pixel = drawn_pixel(image, abyss, *byte).expect(rt, "a pixel");
        bytes.extend_from_slice(pixel).expect(rt, "memory");
    }
    bytes
}

/// Checks what is read of an image over a rectangle under a policy, where the image's patch is `from`.
fn check_read(
    rt: &impl Abort,
    alloc: Global,
    image: &Image,
    from: &Patch,
    abyss: Abyss,
    drawn: &Drawn,
) {
    let (over, [plain, clamped, looped]) = drawn;
    let drawn = match abyss {
        Abyss::Clamp => clamped,
        Abyss::Loop => looped,
        _ => plain,
    };
    let patch = fetch(alloc, from, abyss, rect(*over)).expect(rt, "memory");
    check(rt, abyss, patch.rect(), rect(*over));
    check(rt, abyss, patch.format(), image.format);
    let wanted = drawn_bytes(rt, alloc, image, abyss, drawn);
    check(rt, (*over, abyss), patch.raw_bytes(), wanted.as_slice());
}

/// Checks what is read of an image over a rectangle under each policy.
fn check_reads(rt: &impl Abort, alloc: Global, image: &Image, drawn: &Drawn) {
    let from = patch_of(rt, alloc, image.bounds, image.format, image.bytes);
    for abyss in &POLICIES {
        check_read(rt, alloc, image, &from, *abyss, drawn);
    }
}

#[test]
fn reads_under_each_policy(rt: HostRuntime) {
    for (image, drawn) in &READ {
        check_reads(&rt, rt.alloc(), image, drawn);
    }
}

#[test]
fn reads_of_each_format(rt: HostRuntime) {
    for (format, black, bytes) in &TWO {
        let image = Image {
            bounds: [0, 0, 2, 1],
            format: *format,
            black: *black,
            bytes: *bytes,
        };
        check_reads(&rt, rt.alloc(), &image, &AROUND_TWO);
    }
}
