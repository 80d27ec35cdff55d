//! Rectangles of roots.

ghost use Rattle.std.specs.Prelude.{◌≡◌};
ghost use Rattle.model_graphs.specs.Facts.{rectangles_of};
ghost use Rattle.model_states.specs.Rectangles.{rectangle_of};

use model_graphs::Edited;
use plane_rect::Rect;

/// Returns the rectangle that was written of the root buffer of a name, without a position where none
/// was.
pub(crate) fn rectangle_of(edited: &[Edited], root: &[u8]) -> Rect
    ensures { result ≡ rectangle_of (rectangles_of edited.now) root.now }
{
    for written in edited {
        if root == written.root.as_bytes() {
            return written.rect;
        }
    }
    Rect::EMPTY
}
