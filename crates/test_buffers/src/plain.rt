//! Small gray images as plain lists of bytes, each of whose samples is worked out by itself.

use pixel_formats::Abyss;
use std::alloc::Global;
use std::process::Abort;

/// The bytes of a rectangle of pixels, row by row, each row from the left. It has at least one pixel.
#[derive(Drop)]
pub struct Plain {
    pub left: i16,
    pub top: i16,
    pub width: u8,
    pub height: u8,
    pub bytes: Vec<u8>,
}

impl Plain {
    /// Returns an image of bytes that repeat after 251.
    pub fn noise(
        rt: &impl Abort,
        alloc: Global,
        [left, top]: [i16; 2],
        [width, height]: [u8; 2],
    ) -> Plain {
        let count = usize::from(width) * usize::from(height);
        let mut bytes = vec![in alloc; 0u8; count].expect(rt, "memory");
        for (index, byte) in bytes.iter_mut().enumerate() {
            *byte = ((index % 251) as u8).wrapping_mul(37);
        }
        Plain {
            left,
            top,
            width,
            height,
            bytes,
        }
    }

    /// Returns the rectangle, as four numbers.
    pub fn fields(&self) -> [i64; 4] {
        [
            i64::from(self.left),
            i64::from(self.top),
            i64::from(self.width),
            i64::from(self.height),
        ]
    }

    /// Returns the index of a position's byte, or None outside.
    pub fn index(&self, [x, y]: [i64; 2]) -> Option<usize> {
        let column = u8::try_from(x.wrapping_sub(i64::from(self.left))).ok()?;
        let row = u8::try_from(y.wrapping_sub(i64::from(self.top))).ok()?;
        if column < self.width && row < self.height {
            return Some(usize::from(row) * usize::from(self.width) + usize::from(column));
        }
        None
    }

    /// Returns the sample of a position, 0 outside.
    pub fn at(&self, position: [i64; 2]) -> u8 {
        let byte = self.index(position).and_then(|index| self.bytes.get(index));
        byte.copied().unwrap_or(0)
    }

    /// Returns the sample of a position under a policy.
    fn under(&self, abyss: Abyss, [x, y]: [i64; 2]) -> u8 {
        match abyss {
            Abyss::None | Abyss::Black => self.at([x, y]),
            Abyss::White if self.index([x, y]).is_none() => 255,
            Abyss::White => self.at([x, y]),
            Abyss::Clamp => self.at([
                nearest(self.left, self.width, x),
                nearest(self.top, self.height, y),
            ]),
            Abyss::Loop => self.at([
                wrapped(self.left, self.width, x),
                wrapped(self.top, self.height, y),
            ]),
        }
    }

    /// Returns the bytes of the rectangle and of three pixels on each side of it, under a policy.
    pub fn around(&self, rt: &impl Abort, alloc: Global, abyss: Abyss) -> Vec<u8> {
        let columns = u32::from(self.width) + 6;
        let mut bytes = Vec::new(alloc);
        for index in 0..count_around(self.width, self.height) {
            let x = i64::from(self.left) - 3 + i64::from(index % columns);
            let y = i64::from(self.top) - 3 + i64::from(index / columns);
            bytes.push(self.under(abyss, [x, y])).expect(rt, "memory");
        }
        bytes
    }

    /// Returns the image of half the coordinates: the mean of four samples each, a half rounded up.
    pub fn halved(&self, rt: &impl Abort, alloc: Global) -> Plain {
        let (left, width) = half_span(self.left, self.width);
        let (top, height) = half_span(self.top, self.height);
        let columns = u32::from(width.max(1));
        let mut bytes = Vec::new(alloc);
        for index in 0..u32::from(width) * u32::from(height) {
            let x = 2 * (i64::from(left) + i64::from(index % columns));
            let y = 2 * (i64::from(top) + i64::from(index / columns));
            bytes.push(self.mean_of_four(x, y)).expect(rt, "memory");
        }
        Plain {
            left,
            top,
            width,
            height,
            bytes,
        }
    }

    /// Returns the image after a rectangle of it is copied `dx` to the right and `dy` down.
    pub fn moved(
        &self,
        rt: &impl Abort,
        alloc: Global,
        [left, top, width, height]: [u8; 4],
        [dx, dy]: [i8; 2],
    ) -> Plain {
        let mut bytes = Vec::from_slice(alloc, &self.bytes).expect(rt, "memory");
        let columns = u32::from(width.max(1));
        for index in 0..u32::from(width) * u32::from(height) {
            let x = i64::from(left) + i64::from(index % columns);
            let y = i64::from(top) + i64::from(index / columns);
            let target = self.index([x + i64::from(dx), y + i64::from(dy)]);
            if let Some(byte) = target.and_then(|target| bytes.get_mut(target)) {
                *byte = self.at([x, y]);
            }
        }
        Plain { bytes, ..*self }
    }

    /// Returns the mean of the samples of a position, of its right neighbor and of the two below them.
    fn mean_of_four(&self, x: i64, y: i64) -> u8 {
        let right = x.saturating_add(1);
        let lower = y.saturating_add(1);
        let upper_sum = u16::from(self.at([x, y])) + u16::from(self.at([right, y]));
        let lower_sum = u16::from(self.at([x, lower])) + u16::from(self.at([right, lower]));
        ((upper_sum + lower_sum + 2) / 4) as u8
    }
}

/// Returns how many pixels a rectangle has with three more on each side.
fn count_around(width: u8, height: u8) -> u32 {
    (u32::from(width) + 6) * (u32::from(height) + 6)
}

/// Returns the number that is nearest to a coordinate, of so many from the first on.
fn nearest(first: i16, len: u8, coordinate: i64) -> i64 {
    let last = i64::from(first) + i64::from(len) - 1;
    coordinate.min(last).max(i64::from(first))
}

/// Returns the number that is a whole multiple of `len` away from a coordinate, of so many from the first on.
fn wrapped(first: i16, len: u8, coordinate: i64) -> i64 {
    let moved = coordinate.wrapping_sub(i64::from(first));
    i64::from(first) + moved.rem_euclid(i64::from(len.max(1)))
}

/// Returns the first of the halves of so many numbers from the first on, rounded down, and how many there are.
fn half_span(first: i16, len: u8) -> (i16, u8) {
    let odd = first.rem_euclid(2) as u16;
    let half_len = (u16::from(len) + odd + 1) / 2;
    (first.div_euclid(2), half_len as u8)
}
