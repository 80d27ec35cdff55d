//! The rectangles of roots that were written since the last state.

ghost use Rattle.std.specs.Prelude.{◌≡◌, ◌<◌, Ok, vec_capacity, vec_len};
ghost use Rattle.std.specs.Option.{option_and_then};
ghost use Rattle.model_buffers.specs.BufferEdit.{on_root, written_by};
ghost use Rattle.model_buffers.specs.Layout.{TableLayout};
ghost use Rattle.model_graphs.specs.Facts.{rectangles_of};
ghost use Rattle.model_states.specs.Rectangles.{with_written};
ghost use Rattle.commit_session.specs.Steps.{after_writing};

use buffer_view::Buffers;
use model_buffers::BufferEdit;
use model_graphs::Edited;
use plane_rect::{Name, Rect};

/// A rectangle of a buffer that an edit writes.
#[derive(Clone, Copy)]
pub(crate) struct Target {
    pub buffer: Name,
    pub rect: Rect,
}

/// Returns the buffer that an edit writes to, and where; None for one that adds a buffer, and where the copied
/// rectangle can't be moved.
fn target_of(edit: &BufferEdit) -> Option<Target>
    ensures { (layout : TableLayout) → written_by layout edit.now
        ≡ option_and_then (λ target. on_root layout target.buffer (Ok target.rect)) result }
{
    match edit {
        BufferEdit::Create { .. } | BufferEdit::Sub { .. } | BufferEdit::Duplicate { .. } => None,
        BufferEdit::Fill { name, rect, .. } | BufferEdit::Put { name, rect, .. } => Some(Target {
            buffer: *name,
            rect: *rect,
        }),
        BufferEdit::Copy {
            to,
            rect,
            dx,
            dy,
            ..
        } => match rect.shift(*dx, *dy) {
            Ok(moved) => Some(Target {
                buffer: *to,
                rect: moved,
            }),
            Err(_) => None,
        },
    }
}

/// Records the rectangle of a root that an edit of these buffers wrote, where it wrote one. There is room for one
/// more.
pub(crate) fn record_written(written: &mut Vec<Edited>, buffers: &Buffers, edit: &BufferEdit)
    requires { vec_len written.old < vec_capacity written.old }
    ensures { rectangles_of written.new.items
        ≡ after_writing (rectangles_of written.old.items) (written_by buffers.now.layout edit.now) }
{
    if let Some(target) = target_of(edit) {
        record_target(written, buffers, target);
    }
}

/// Records the rectangle of a root that a rectangle of one of these buffers is. There is room for one more.
fn record_target(written: &mut Vec<Edited>, buffers: &Buffers, target: Target)
    requires { vec_len written.old < vec_capacity written.old }
    ensures { rectangles_of written.new.items
        ≡ after_writing (rectangles_of written.old.items) (on_root buffers.now.layout target.buffer (Ok target.rect)) }
{
    if let Some(fact) = buffers.fact(target.buffer) {
        add_written(written, fact.root, target.rect);
    }
}

/// Adds a rectangle of a root: the smallest one that contains it and the root's, or last where the root has none.
/// There is room for one more.
fn add_written(written: &mut Vec<Edited>, root: Name, rect: Rect)
    requires { vec_len written.old < vec_capacity written.old }
    ensures { rectangles_of written.new.items ≡ with_written (rectangles_of written.old.items) root rect }
{
    match written.iter().position(|entry| root == entry.root) {
        Some(index) => {
            let entry = &mut written[index];
            entry.rect = entry.rect.hull(&rect);
        }
        None => written.push_reserved(Edited { root, rect }),
    }
}
