//! The operation.

use plane_rect::Rect;

/// Cuts an image to a rectangle.
#[derive(Clone, Copy, Drop)]
pub struct CutTo {
    pub rect: Rect,
}
