//! The squares of pixels around a position.

ghost use Rattle.std.specs.Prelude.{◌≡◌, ◌<◌, ◌≤◌, length, slice_index};
ghost use Rattle.pixel_formats.specs.Format.{max_sample};
ghost use Rattle.model_operations.specs.Windows.{max_of_all, min_of_all, mean_of, read_before, window};
ghost use Rattle.plain_images.specs.Picture.{IsPosition};

use crate::picture::Picture;
use crate::policies::{outside_at, read_at};
use pixel_formats::Abyss;
use std::marker::Model;

/// The samples of a channel in the square of `2 * radius + 1` pixels a side around a position, row by
/// row from the top, each row from the left, under a policy. The radius is 1 to 64 positions.
#[derive(Drop)]
pub(crate) struct Window<'a> {
    picture: &'a Picture,
    radius: u32,
    policy: Abyss,
    column: u32,
    row: u32,
    channel: u32,
}

impl<'a> Model for Window<'a> {
    ghost use Rattle.std.specs.Prelude.{ℕ, List, ◌≤◌};
    ghost use Rattle.model_operations.specs.Windows.{window};
    ghost use Rattle.plain_images.specs.Picture.{IsPosition};

    ghost Value = { List ℕ };

    ghost view = { λ w. window w.radius w.picture.now w.policy w.column w.row w.channel };

    ghost invariant = { λ w. (w.radius ≤ 64) × IsPosition w.column w.row };
}

impl<'a> Window<'a> {
    /// Returns the window of a position.
    pub(crate) fn new(
        picture: &'a Picture,
        radius: u32,
        policy: Abyss,
        column: u32,
        row: u32,
        channel: u32,
    ) -> Window<'a>
        requires radius { radius ≤ 64 }
        requires position { IsPosition column row }
        ensures { result ≡ window radius picture.now policy column row channel }
    {
        Window {
            picture,
            radius,
            policy,
            column,
            row,
            channel,
        }
    }

    /// Returns how many samples it has.
    fn len(&self) -> u32
        ensures value { result ≡ length self.now }
        ensures some { 0 < result }
    {
        let side = 2 * self.radius + 1;
        side * side
    }

    /// Returns a sample, by its index.
    fn get(&self, index: u32) -> u32
        requires { index < length self.now }
        ensures { result ≡ slice_index self.now index }
    {
        let side = 2 * self.radius + 1;
        let column = self.column + index % side;
        let row = self.row + index / side;
        read_before(
            self.radius,
            self.picture,
            self.policy,
            column,
            row,
            self.channel,
        )
    }

    /// Returns the mean, rounded to the nearest.
    pub(crate) fn mean(&self) -> u32
        ensures { result ≡ mean_of (length self.now) self.now }
    {
        let count = u64::from(self.len());
        let mut sum = 0;
        for index in 0..self.len() {
            sum += u64::from(self.get(index));
        }
        ((sum + count / 2) / count) as u32
    }

    /// Returns the largest sample.
    pub(crate) fn max_sample(&self) -> u32
        ensures { result ≡ max_of_all self.now }
    {
        let mut max_sample = 0;
        for index in 0..self.len() {
            max_sample = self.get(index).max(max_sample);
        }
        max_sample
    }

    /// Returns the smallest sample.
    pub(crate) fn minimum(&self) -> u32
        ensures { result ≡ min_of_all self.now }
    {
        let count = self.len();
        let mut minimum = self.get(0);
        for index in 1..count {
            minimum = self.get(index).min(minimum);
        }
        minimum
    }
}

/// Returns the sample under a policy of a column and a row that count from `by` positions left of and above
/// the plane's corner.
fn read_before(
    by: u32,
    picture: &Picture,
    policy: Abyss,
    column: u32,
    row: u32,
    channel: u32,
) -> u32
    ensures value { result ≡ read_before by picture.now policy column row channel }
    ensures range { result ≤ max_sample picture.now.format }
{
    if by <= column && by <= row {
        read_at(picture, policy, column - by, row - by, channel)
    } else {
        outside_at(
            picture,
            policy,
            column.saturating_sub(by),
            row.saturating_sub(by),
            channel,
        )
    }
}
