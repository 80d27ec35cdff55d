//! The formats of pixels.

ghost use Rattle.std.specs.Prelude.{◌≡◌, IfSome, IfNone, ◌≢◌};
ghost use Rattle.pixel_formats.specs.Format.{channels, depth, has_alpha, max_sample, pixel_bytes, word as word_of};

/// How the samples of a pixel are laid out: its channels and the bytes of a sample. Samples of several
/// bytes have the least significant byte first. With alpha, colors are premultiplied.
#[derive(Clone, Copy, Debug, PartialEq, Eq, Hash)]
pub enum Format {
    Y8,
    YA8,
    RGB8,
    RGBA8,
    Y16,
    YA16,
    RGB16,
    RGBA16,
    Y32,
    YA32,
    RGB32,
    RGBA32,
}

/// The name of each format in a script, in the order of the variants.
const WORDS: [&str; 12] = [
    "Y8", "YA8", "RGB8", "RGBA8", "Y16", "YA16", "RGB16", "RGBA16", "Y32", "YA32", "RGB32",
    "RGBA32",
];

impl Format {
    /// Returns how many channels a pixel has, alpha among them: 1 to 4.
    pub fn channels(self) -> u32
        ensures { result ≡ channels self }
    {
        match self {
            Format::Y8 | Format::Y16 | Format::Y32 => 1,
            Format::YA8 | Format::YA16 | Format::YA32 => 2,
            Format::RGB8 | Format::RGB16 | Format::RGB32 => 3,
            Format::RGBA8 | Format::RGBA16 | Format::RGBA32 => 4,
        }
    }

    /// Returns the bytes of a sample: 1, 2 or 4.
    pub fn depth(self) -> u32
        ensures { result ≡ depth self }
    {
        match self {
            Format::Y8 | Format::YA8 | Format::RGB8 | Format::RGBA8 => 1,
            Format::Y16 | Format::YA16 | Format::RGB16 | Format::RGBA16 => 2,
            Format::Y32 | Format::YA32 | Format::RGB32 | Format::RGBA32 => 4,
        }
    }

    /// Returns the maximum sample: 255, 65,535 or 4,294,967,295.
    pub fn max(self) -> u32
        ensures { result ≡ max_sample self }
    {
        match self {
            Format::Y8 | Format::YA8 | Format::RGB8 | Format::RGBA8 => 255,
            Format::Y16 | Format::YA16 | Format::RGB16 | Format::RGBA16 => 65_535,
            Format::Y32 | Format::YA32 | Format::RGB32 | Format::RGBA32 => u32::MAX,
        }
    }

    /// Returns the bytes of a pixel: 1 to 16.
    pub fn pixel_bytes(self) -> u32
        ensures { result ≡ pixel_bytes self }
    {
        self.channels() * self.depth()
    }

    /// Returns whether the last channel is alpha.
    pub fn has_alpha(self) -> bool
        ensures { result ≡ has_alpha self }
    {
        match self {
            Format::Y8 | Format::RGB8 | Format::Y16 | Format::RGB16 | Format::Y32 | Format::RGB32 =>
                false,
            Format::YA8
            | Format::RGBA8
            | Format::YA16
            | Format::RGBA16
            | Format::YA32
            | Format::RGBA32 => true,
        }
    }

    /// Returns the name in a script.
    pub fn word(self) -> &'static str
        ensures { result.now ≡ word_of self }
    {
        WORDS[self as usize]
    }

    /// Returns the format of a name, and None exactly where it names none.
    pub fn parse(word: &[u8]) -> Option<Format>
        ensures some { IfSome result (λ format. word.now ≡ word_of format) }
        ensures none { IfNone result ((format : _) → word.now ≢ word_of format) }
    {
        match word {
            b"Y8" => Some(Format::Y8),
            b"YA8" => Some(Format::YA8),
            b"RGB8" => Some(Format::RGB8),
            b"RGBA8" => Some(Format::RGBA8),
            b"Y16" => Some(Format::Y16),
            b"YA16" => Some(Format::YA16),
            b"RGB16" => Some(Format::RGB16),
            b"RGBA16" => Some(Format::RGBA16),
            b"Y32" => Some(Format::Y32),
            b"YA32" => Some(Format::YA32),
            b"RGB32" => Some(Format::RGB32),
            b"RGBA32" => Some(Format::RGBA32),
            _ => None,
        }
    }
}
