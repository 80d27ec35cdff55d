//! Images whose samples are in memory one by one.

ghost use Rattle.std.specs.Prelude.{◌≡◌, ℕ, ◌+◌, ◌/◌, ◌%◌, ◌<◌, ◌≤◌, IfOk};
ghost use Rattle.plane_rect.specs.Rectangle.{InLimits, IsRectangle, area};
ghost use Rattle.pixel_formats.specs.Format.{channels, max_sample};
ghost use Rattle.pixel_formats.specs.{Row.Pixel, declared.format.Format.Format};
ghost use Rattle.model_images.specs.Image.{at, image_from_fn, sampled};
ghost use Rattle.model_images.specs.Paint.{no_image};
ghost use Rattle.plain_images.specs.Picture.{AreSamples, IsPicture, IsPosition};

use alloc_basics::NoMemory;
use pixel_formats::Format;
use plane_rect::Rect;
use std::alloc::Global;
use std::marker::Model;

/// An image, whose rectangle is in limits and whose samples are none above its format's largest. A clause sees an image.
#[derive(Drop)]
pub struct Picture {
    rect: Rect,
    format: Format,
    /// Row by row from the top, each row from the left, the channels of a position in their order.
    samples: Vec<u32>,
}

impl Model for Picture {
    ghost use Rattle.model_images.specs.Image.{Image};
    ghost use Rattle.plain_images.specs.Picture.{IsPicture};

    ghost Value = { Image };

    ghost view = { λ p. record { box = p.rect; format = p.format; samples = p.samples.items } };

    ghost invariant = { λ p. IsPicture (record { box = p.rect; format = p.format; samples = p.samples.items }) };
}

/// A sample for each position of the plane and each channel of a format.
pub trait Samples {
    /// The format.
    ghost sample_format: { Self → Format };

    /// The sample of a column, a row and a channel.
    ghost value: { Self → ℕ → ℕ → Pixel };

    /// The samples can be asked for.
    ghost can_sample: { Self → Type 0 } = { λ _. Unit {0} };

    /// Returns the format.
    fn format(&self) -> Format
        ensures { result ≡ sample_format self.now };

    /// Returns the sample of a column and a row, both counted from the plane's corner, and a channel.
    fn sample(&self, column: u32, row: u32, channel: u32) -> u32
        requires can { can_sample self.now }
        requires position { IsPosition column row }
        ensures value { result ≡ value self.now column row channel }
        ensures range { result ≤ max_sample (sample_format self.now) };
}

impl Picture {
    /// Returns the rectangle.
    pub fn rect(&self) -> Rect
        ensures value { result ≡ self.now.box }
        ensures picture { IsPicture self.now }
    {
        self.rect
    }

    /// Returns the sample of a column and a row, both counted from the plane's corner, and a channel: 0
    /// outside the rectangle, and for a channel that the format lacks.
    pub fn at(&self, column: u32, row: u32, channel: u32) -> u32
        ensures value { result ≡ at self.now column row channel }
        ensures range { result ≤ max_sample self.now.format }
        ensures picture { IsPicture self.now }
    {
        let channels = self.format.channels();
        if !self.rect.has_position(column, row) || channel >= channels {
            return 0;
        }
        let position = self.rect.offset(column, row);
        self.samples[position * channels as usize + channel as usize]
    }

    /// Returns the samples, row by row from the top, each row from the left, the channels of a position in
    /// their order.
    pub fn samples(&self) -> &[u32]
        ensures { result.now ≡ self.now.samples }
    {
        &self.samples
    }

    /// Returns the same image once more.
    ///
    /// # Errors
    ///
    /// No memory was left.
    pub fn copy(&self, alloc: Global) -> Result<Picture, NoMemory>
        ensures { IfOk result (λ picture. picture ≡ self.now) }
    {
        draw(alloc, self.rect(), self)
    }
}

impl Samples for Picture {
    ghost sample_format = { λ picture. picture.format };

    ghost value = { at };

    fn format(&self) -> Format
        ensures value { result ≡ self.now.format }
        ensures picture { IsPicture self.now }
    {
        self.format
    }

    fn sample(&self, column: u32, row: u32, channel: u32) -> u32 {
        self.at(column, row, channel)
    }
}

/// Returns the image of no position, which is taken where one is missing.
pub(crate) fn no_picture(alloc: Global) -> Picture
    ensures { result ≡ no_image }
{
    Picture {
        rect: Rect::EMPTY,
        format: Format::Y8,
        samples: Vec::new(alloc),
    }
}

/// Returns the image of these samples over a rectangle.
///
/// # Errors
///
/// No memory was left.
pub fn draw<S: Samples>(alloc: Global, rect: Rect, samples: &S) -> Result<Picture, NoMemory>
    requires can { S.can_sample samples.now }
    requires limits { InLimits rect }
    ensures { IfOk result (λ picture.
        picture ≡ image_from_fn rect (S.sample_format samples.now) (S.value samples.now)) }
{
    Ok(Picture {
        rect,
        format: samples.format(),
        samples: sample_all(alloc, &rect, samples)?,
    })
}

/// Returns the samples of all positions of a rectangle, row by row from the top, each row from the left, the
/// channels of a position in their order.
///
/// # Errors
///
/// No memory was left.
pub fn sample_all<S: Samples>(alloc: Global, rect: &Rect, samples: &S) -> Result<Vec<u32>, NoMemory>
    requires can { S.can_sample samples.now }
    ensures value { IfOk result (λ all.
        all.items ≡ sampled rect.now (channels (S.sample_format samples.now)) (S.value samples.now)) }
    ensures range { IfOk result (λ all. AreSamples (S.sample_format samples.now) all.items) }
    ensures rectangle { IsRectangle rect.now }
{
    let channels = u64::from(samples.format().channels());
    let mut all = Vec::new(alloc);
    for index in 0..rect.area() * channels {
        let (column, row) = position_of(rect, index / channels);
        all.push(samples.sample(column, row, (index % channels) as u32))?;
    }
    Ok(all)
}

/// Returns the column and the row of a position of a rectangle, by its index among them.
fn position_of(rect: &Rect, index: u64) -> (u32, u32)
    requires { index < area rect.now }
    ensures column { result.0 ≡ rect.now.first_column + index % rect.now.width }
    ensures row { result.1 ≡ rect.now.first_row + index / rect.now.width }
    ensures position { IsPosition result.0 result.1 }
{
    let width = u64::from(rect.end_column() - rect.first_column());
    (
        rect.first_column() + (index % width) as u32,
        rect.first_row() + (index / width) as u32,
    )
}
