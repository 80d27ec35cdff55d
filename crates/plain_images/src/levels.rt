//! Images at reduced levels.

ghost use Rattle.std.specs.Prelude.{◌≡◌, ◌*◌, ◌<◌, IfOk};
ghost use Rattle.plane_rect.specs.Rectangle.{plane_side};
ghost use Rattle.model_images.specs.Level.{doubled, halved_image, level, mean_at};

use crate::formulas::mean_of_four;
use crate::picture::{Picture, Samples, draw};
use alloc_basics::NoMemory;
use pixel_formats::Format;
use plane_rect::PLANE_ORIGIN;
use std::alloc::Global;

/// The means of the positions of an image, four by four.
#[derive(Drop)]
struct MeansOfFour<'a> {
    of: &'a Picture,
}

impl Samples for MeansOfFour<'_> {
    ghost sample_format = { λ means. means.of.now.format };

    ghost value = { λ halved. mean_at halved.of.now };

    fn format(&self) -> Format {
        self.of.format()
    }

    fn sample(&self, column: u32, row: u32, channel: u32) -> u32 {
        let (first_column, first_row) = (doubled(column), doubled(row));
        mean_of_four(
            self.of.at(first_column, first_row, channel),
            self.of.at(first_column + 1, first_row, channel),
            self.of.at(first_column, first_row + 1, channel),
            self.of.at(first_column + 1, first_row + 1, channel),
        )
    }
}

/// Returns the image at a level: halved so many times.
///
/// # Errors
///
/// No memory was left.
pub fn level(alloc: Global, picture: &Picture, z: u32) -> Result<Picture, NoMemory>
    ensures { IfOk result (λ reduced. reduced ≡ level picture.now z) }
{
    let mut reduced = picture.copy(alloc)?;
    for _halving in 0..z {
        reduced = halved(alloc, &reduced)?;
    }
    Ok(reduced)
}

/// Returns the image over half its rectangle.
fn halved(alloc: Global, picture: &Picture) -> Result<Picture, NoMemory>
    ensures { IfOk result (λ half. half ≡ halved_image picture.now) }
{
    draw(alloc, picture.rect().halved(), &MeansOfFour { of: picture })
}

/// Returns the column of twice an x, or the row of twice a y.
fn doubled(n: u32) -> u32
    requires { n < plane_side }
    ensures value { result ≡ doubled n }
    ensures side { result < 2 * plane_side }
{
    (2 * n).saturating_sub(PLANE_ORIGIN)
}
