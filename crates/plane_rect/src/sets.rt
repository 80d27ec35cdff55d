//! Rectangles as sets of positions: inclusion, meet, hull and difference.

ghost use Rattle.std.specs.Prelude.{◌≡◌, ◌≢◌, ℕ, ◌≤◌, ◌↔◌, IsTrue, All, AllPairs, Any, take, drop, filter};
ghost use Rattle.plane_rect.specs.Rectangle.{AreDisjoint, Includes, Inside, Rectangle, empty, has_positions, hull, includes, meet, minus, surroundings};
ghost use Rattle.plane_rect.specs.Parts.{parts_of};

use crate::rect::Rect;

/// Rectangles without a common position: the first `count` of `parts`, none of which is empty. The
/// others are empty.
#[derive(Clone, Copy, Debug, PartialEq, Eq)]
pub struct Parts {
    pub count: u32,
    pub parts: [Rect; 4],
}

impl Rect {
    /// Returns whether it contains each position of the other.
    pub fn contains(&self, other: &Rect) -> bool
        ensures value { result ≡ includes self.now other.now }
        ensures positions { IsTrue result ↔ Includes self.now other.now }
    {
        other.is_empty()
            || self.first_column() <= other.first_column()
                && self.first_row() <= other.first_row()
                && other.end_column() <= self.end_column()
                && other.end_row() <= self.end_row()
    }

    /// Returns the positions that are in both.
    pub fn meet(&self, other: &Rect) -> Rect
        ensures value { result ≡ meet self.now other.now }
        ensures positions { (u v : ℕ) → Inside u v result ↔ (Inside u v self.now × Inside u v other.now) }
        ensures in_this { Includes self.now result }
        ensures in_other { Includes other.now result }
    {
        Rect::spanning(
            self.first_column().max(other.first_column()),
            self.first_row().max(other.first_row()),
            self.end_column().min(other.end_column()),
            self.end_row().min(other.end_row()),
        )
    }

    /// Returns the smallest rectangle that contains both.
    pub fn hull(&self, other: &Rect) -> Rect
        ensures value { result ≡ hull self.now other.now }
        ensures contains_this { Includes result self.now }
        ensures contains_other { Includes result other.now }
        ensures minimum { (r : Rectangle) →
            Includes r self.now → Includes r other.now → Includes r result }
    {
        if self.is_empty() {
            return *other;
        }
        if other.is_empty() {
            return *self;
        }
        Rect::spanning(
            self.first_column().min(other.first_column()),
            self.first_row().min(other.first_row()),
            self.end_column().max(other.end_column()),
            self.end_row().max(other.end_row()),
        )
    }

    /// Returns the positions that are not in the other, as at most four rectangles: the rows above
    /// the other, what is left of it, what is right of it, and the rows below it. The rows above
    /// and below have the full width.
    pub fn minus(&self, other: &Rect) -> Parts
        ensures value { result ≡ parts_of (minus self.now other.now) }
        ensures positions { (u v : ℕ) →
            Any (Inside u v) result.parts ↔ (Inside u v self.now × ¬ Inside u v other.now) }
        ensures disjoint { AllPairs AreDisjoint result.parts }
        ensures count { result.count ≤ 4 }
        ensures some { All (λ part. part ≢ empty) (take result.count result.parts) }
        ensures unused { All (λ part. part ≡ empty) (drop result.count result.parts) }
    {
        let part = self.meet(other);
        if part.is_empty() {
            return Parts::gather([*self, Rect::EMPTY, Rect::EMPTY, Rect::EMPTY]);
        }
        Parts::gather(self.surroundings(&part))
    }

    /// Returns what surrounds a part of it: above, left, right and below.
    fn surroundings(&self, part: &Rect) -> [Rect; 4]
        requires { Includes self.now part.now }
        ensures { result ≡ surroundings self.now part.now }
    {
        let (first_column, first_row) = (self.first_column(), self.first_row());
        let (end_column, end_row) = (self.end_column(), self.end_row());
        [
            Rect::spanning(first_column, first_row, end_column, part.first_row()),
            Rect::spanning(
                first_column,
                part.first_row(),
                part.first_column(),
                part.end_row(),
            ),
            Rect::spanning(
                part.end_column(),
                part.first_row(),
                end_column,
                part.end_row(),
            ),
            Rect::spanning(first_column, part.end_row(), end_column, end_row),
        ]
    }
}

impl Parts {
    /// Returns those of four rectangles that are not empty, in their order.
    fn gather(rectangles: [Rect; 4]) -> Parts
        ensures { result ≡ parts_of (filter has_positions rectangles) }
    {
        let mut gathered = Parts {
            count: 0,
            parts: [Rect::EMPTY; 4],
        };
        for rectangle in rectangles {
            if !rectangle.is_empty() {
                gathered.parts[gathered.count as usize] = rectangle;
                gathered.count += 1;
            }
        }
        gathered
    }
}
