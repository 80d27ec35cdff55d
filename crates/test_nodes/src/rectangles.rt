//! Rectangles in few words, for tests and benchmarks.

ghost use Rattle.plane_rect.specs.Rectangle.{InLimits};

use plane_rect::Rect;

/// Returns the rectangle of x, y, width and height, or the one without a position where they are none in limits.
pub fn rect(fields: [i64; 4]) -> Rect
    ensures { InLimits result }
{
    let [x, y, w, h] = fields;
    match Rect::new(x, y, w, h) {
        Ok(rect) if rect.in_limits() => rect,
        _ => Rect::EMPTY,
    }
}
