//! What edits make of layouts, without memory.

ghost use Rattle.std.specs.Prelude.{◌≡◌, ◌≤◌, None};
ghost use Rattle.plane_rect.specs.Rectangle.{InLimits};
ghost use Rattle.model_buffers.specs.declared.edit.BufferEdit.TheVariants.{Create, Duplicate, Sub};
ghost use Rattle.model_buffers.specs.BufferEdit.{edit_refused, layout_with, layout_with_root};
ghost use Rattle.model_buffers.specs.Layout.{IsLayout, find};

use crate::layout::BufferLayout;
use crate::views::RootShape;
use model_graphs::BufferFact;
use pixel_formats::Format;
use plane_rect::{Name, Rect};

impl BufferLayout {
    /// Adds a buffer on a root of its own, the last of both. The extent is in pixels, and in the limits of an
    /// image.
    pub fn create(&mut self, name: Name, format: Format, extent: Rect)
        requires room { 1 ≤ self.old.room }
        requires limits { InLimits extent }
        requires carried_out { edit_refused self.old.layout (Create name format extent) ≡ None }
        ensures { self.new.layout ≡ layout_with self.old.layout (Create name format extent) }
    {
        // `first_column` is called for its clause that the extent is a rectangle of the plane.
        let _ = extent.first_column();
        let _ = &self.facts;
        self.add_root(name, format, extent, extent);
    }

    /// Adds a buffer, the last, on the root of a parent, which shows what the parent shows of a rectangle. Its
    /// cost is proportional to the number of buffers.
    pub fn sub(&mut self, name: Name, parent: Name, rect: Rect)
        requires room { 1 ≤ self.old.room }
        requires carried_out { edit_refused self.old.layout (Sub name parent rect) ≡ None }
        ensures { self.new.layout ≡ layout_with self.old.layout (Sub name parent rect) }
    {
        // `first_column` is called for its clause that the rectangle is one of the plane.
        let _ = rect.first_column();
        if let Some(fact) = self.fact(parent) {
            self.facts.push_reserved(BufferFact {
                name,
                root: fact.root,
                bounds: rect.meet(&fact.bounds),
                format: fact.format,
            });
        }
    }

    /// Adds a buffer with the extent of another, on a root of its own that is shaped as the other's root, the
    /// last of both. Its cost is proportional to the number of buffers.
    pub fn duplicate(&mut self, name: Name, from: Name)
        requires room { 1 ≤ self.old.room }
        requires carried_out { edit_refused self.old.layout (Duplicate name from) ≡ None }
        ensures { self.new.layout ≡ layout_with self.old.layout (Duplicate name from) }
    {
        if let Some(view) = self.view(from) {
            self.add_root(name, view.format, view.bounds, view.extent);
        }
    }

    /// Adds a root, and a buffer of the root's name that shows an extent of it.
    fn add_root(&mut self, name: Name, format: Format, bounds: Rect, extent: Rect)
        requires room { 1 ≤ self.old.room }
        requires layout { IsLayout (layout_with_root self.old.layout name (record { box = bounds; format = format }) extent) }
        requires new { find self.old.layout.buffers name ≡ None }
        ensures { self.new.layout ≡ layout_with_root self.old.layout name (record { box = bounds; format = format }) extent }
    {
        self.roots.push_reserved(RootShape {
            name,
            bounds,
            format,
        });
        self.facts.push_reserved(BufferFact {
            name,
            root: name,
            bounds: extent,
            format,
        });
    }
}
