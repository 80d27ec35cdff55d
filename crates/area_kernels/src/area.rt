//! The sizes of area operations.

ghost use Rattle.std.specs.Prelude.{◌≡◌, ℕ, ◌+◌, ◌*◌, ◌<◌, ◌≤◌};

/// How large the result of an area operation is, and how far it reads around each position, all in
/// pixels. What it reads is the result's part, grown by the radius on each side.
#[derive(Clone, Copy, Debug, PartialEq, Eq)]
pub struct Area {
    /// The radius of the square around each position: 0 to 64.
    pub radius: usize,
    /// The width of the result: 1 to 64.
    pub width: usize,
    /// The height of the result: 1 to 64.
    pub height: usize,
    pub ghost radius_in_range: { radius ≤ 64 },
    pub ghost some_columns: { 0 < width },
    pub ghost few_columns: { width ≤ 64 },
    pub ghost some_rows: { 0 < height },
    pub ghost few_rows: { height ≤ 64 },
}

impl Area {
    /// Returns how many pixels a side a square has.
    pub(crate) fn side(self) -> usize
        ensures { result ≡ 2 * self.radius + 1 }
    {
        2 * self.radius + 1
    }

    /// Returns how many rows are read.
    pub(crate) fn read_rows(self) -> usize
        ensures { result ≡ self.height + 2 * self.radius }
    {
        self.height + 2 * self.radius
    }

    /// Returns how many samples of so many channels a row has that is read.
    pub(crate) fn stride(self, channels: usize) -> usize
        requires { channels ≤ 4 }
        ensures { result ≡ (self.width + 2 * self.radius) * channels }
    {
        (self.width + 2 * self.radius) * channels
    }
}
