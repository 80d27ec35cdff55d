//! What is read outside an image.

ghost use Rattle.std.specs.Prelude.{◌≡◌, ◌+◌, ◌-◌, ◌<◌, ◌≤◌};
ghost use Rattle.plane_rect.specs.Rectangle.{plane_side};
ghost use Rattle.pixel_formats.specs.{Format.max_sample, Recolor.is_alpha};
ghost use Rattle.model_images.specs.Abyss.{abyss_at, nearest, outside_at, wrapped};

use crate::picture::{Picture, Samples};
use pixel_formats::{Abyss, Format};

/// The samples of an image under a policy.
#[derive(Drop)]
pub(crate) struct Read<'a> {
    pub(crate) picture: &'a Picture,
    pub(crate) policy: Abyss,
}

impl Samples for Read<'_> {
    ghost sample_format = { λ read. read.picture.now.format };

    ghost value = { λ read. abyss_at read.picture.now read.policy };

    fn format(&self) -> Format {
        self.picture.format()
    }

    fn sample(&self, column: u32, row: u32, channel: u32) -> u32 {
        read_at(self.picture, self.policy, column, row, channel)
    }
}

/// Returns the sample of a position under a policy.
pub(crate) fn read_at(picture: &Picture, policy: Abyss, column: u32, row: u32, channel: u32) -> u32
    ensures value { result ≡ abyss_at picture.now policy column row channel }
    ensures range { result ≤ max_sample picture.now.format }
{
    if picture.rect().has_position(column, row) {
        picture.at(column, row, channel)
    } else {
        outside_at(picture, policy, column, row, channel)
    }
}

/// Returns the sample that a policy gives for a position outside the rectangle.
pub(crate) fn outside_at(
    picture: &Picture,
    policy: Abyss,
    column: u32,
    row: u32,
    channel: u32,
) -> u32
    ensures value { result ≡ outside_at picture.now policy column row channel }
    ensures range { result ≤ max_sample picture.now.format }
{
    match policy {
        Abyss::None => 0,
        Abyss::Clamp => clamped_at(picture, column, row, channel),
        Abyss::Loop => looped_at(picture, column, row, channel),
        Abyss::Black if !is_alpha(picture.format(), channel) => 0,
        Abyss::Black | Abyss::White => picture.format().max(),
    }
}

/// Returns the sample of the nearest position of the rectangle.
fn clamped_at(picture: &Picture, column: u32, row: u32, channel: u32) -> u32
    ensures value { result ≡ outside_at picture.now Abyss.Clamp column row channel }
    ensures range { result ≤ max_sample picture.now.format }
{
    let rect = picture.rect();
    picture.at(
        nearest(rect.first_column(), rect.end_column(), column),
        nearest(rect.first_row(), rect.end_row(), row),
        channel,
    )
}

/// Returns the sample of the position of the rectangle that is whole widths and heights away.
fn looped_at(picture: &Picture, column: u32, row: u32, channel: u32) -> u32
    ensures value { result ≡ outside_at picture.now Abyss.Loop column row channel }
    ensures range { result ≤ max_sample picture.now.format }
{
    let rect = picture.rect();
    if rect.is_empty() {
        return 0;
    }
    picture.at(
        wrapped(
            rect.first_column(),
            rect.end_column() - rect.first_column(),
            column,
        ),
        wrapped(rect.first_row(), rect.end_row() - rect.first_row(), row),
        channel,
    )
}

/// Returns the nearest of the numbers from `start` up to `end`.
fn nearest(start: u32, end: u32, n: u32) -> u32
    requires { start ≤ end }
    ensures { result ≡ nearest start (end - start) n }
{
    start.max(n.min(end.saturating_sub(1)))
}

/// Returns, of the `len` numbers from `start` on, the one that is a multiple of `len` away.
fn wrapped(start: u32, len: u32, n: u32) -> u32
    requires some { 0 < len }
    requires side { start + len ≤ plane_side }
    ensures { result ≡ wrapped start len n }
{
    let (from, length) = (u64::from(start), u64::from(len));
    start + ((u64::from(n) + from * length - from) % length) as u32
}

/// Returns whether a channel is a format's alpha.
pub(crate) fn is_alpha(format: Format, channel: u32) -> bool
    ensures { result ≡ is_alpha format channel }
{
    format.has_alpha() && u64::from(channel) + 1 == u64::from(format.channels())
}
