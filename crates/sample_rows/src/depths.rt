//! The depth of a format, which says by which lanes its rows are computed.

ghost use Rattle.std.specs.Prelude.{◌≡◌};
ghost use Rattle.pixel_formats.specs.Format.{depth};
ghost use Rattle.sample_rows.specs.Depths.{bytes_of};

use pixel_formats::Format;

/// How many bytes a sample has: one, two or four.
#[derive(Clone, Copy)]
pub(crate) enum Depth {
    Byte,
    Word,
    Long,
}

/// Returns the depth of a format.
#[inline(always)]
pub(crate) fn depth_of(f: Format) -> Depth
    ensures { depth f ≡ bytes_of result }
{
    match f {
        Format::Y8 | Format::YA8 | Format::RGB8 | Format::RGBA8 => Depth::Byte,
        Format::Y16 | Format::YA16 | Format::RGB16 | Format::RGBA16 => Depth::Word,
        Format::Y32 | Format::YA32 | Format::RGB32 | Format::RGBA32 => Depth::Long,
    }
}
