//! A maker of bands that are pieces of a slice.

ghost use Rattle.std.specs.Prelude.{◌≡◌, length};

use outside_io::Bands;

/// How many bytes a band has, but for the last one.
const BAND_BYTES: usize = 3;

/// Makes bands of three bytes of a slice, the last one of what is left, and refuses one where so many bytes are left.
#[derive(Drop)]
pub struct Pieces<'a> {
    band: &'a [u8],
    rest: &'a [u8],
    refused: Option<usize>,
}

impl<'a> Pieces<'a> {
    /// Returns the bands of these bytes, of which none was made.
    pub fn new(bytes: &'a [u8], refused: Option<usize>) -> Pieces<'a> {
        Pieces {
            band: &[],
            rest: bytes,
            refused,
        }
    }
}

impl Bands for Pieces<'_> {
    /// How many bytes were left.
    type Refused = usize;

    ghost made = { λ pieces. pieces.band.now };

    ghost may_give = { λ pieces bytes. bytes ≡ pieces.rest.now };

    ghost left = { λ pieces. length pieces.rest.now };

    ghost refuses = { λ pieces left. left ≡ length pieces.rest.now };

    fn next(&mut self) -> Result<bool, usize> {
        let left = self.rest.len();
        if self.refused == Some(left) {
            return Err(left);
        }
        if left == 0 {
            return Ok(false);
        }
        let (band, rest) = self.rest.split_at(BAND_BYTES.min(left));
        self.band = band;
        self.rest = rest;
        Ok(true)
    }

    fn band(&self) -> &[u8] {
        self.band
    }
}
