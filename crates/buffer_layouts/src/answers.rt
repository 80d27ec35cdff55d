//! What a layout answers before an edit: why it is refused, or what it needs.

ghost use Rattle.std.specs.Prelude.{◌≡◌, IfErr, IfOk, None, Some};
ghost use Rattle.model_buffers.specs.declared.edit.BufferEdit.TheVariants.{Copy, Create, Duplicate, Fill, Put, Sub};
ghost use Rattle.model_buffers.specs.BufferEdit.{edit_refused};
ghost use Rattle.buffer_layouts.specs.Views.{AreCopyParts, IsTarget};

use crate::layout::BufferLayout;
use crate::refusals::{fill_refused, moved_part, put_refused};
use crate::views::{CopyParts, RootView};
use model_buffers::EditRefused;
use plane_rect::{Name, Rect};

/// The most buffers of a layout.
const MAX_BUFFERS: usize = 64;

impl BufferLayout {
    /// Returns why no buffer of a name is created, or None where one is: `NameTaken` where a buffer has the name,
    /// and else `TooManyBuffers` where 64 are there. Its cost is proportional to the number of buffers, as that
    /// of each call below.
    pub fn create_refused(&self, name: Name) -> Option<EditRefused>
        ensures { (format : _) (extent : _) → result ≡ edit_refused self.now.layout (Create name format extent) }
    {
        if self.fact(name).is_some() {
            return Some(EditRefused::NameTaken);
        }
        if self.facts().len() >= MAX_BUFFERS {
            return Some(EditRefused::TooManyBuffers);
        }
        None
    }

    /// Returns why no sub-buffer of a parent is made, or None where one is: `UnknownBuffer` where there is no
    /// parent of the name, and else as [`BufferLayout::create_refused`] has it.
    pub fn sub_refused(&self, name: Name, parent: Name) -> Option<EditRefused>
        ensures { (rect : _) → result ≡ edit_refused self.now.layout (Sub name parent rect) }
    {
        match self.fact(parent) {
            Some(_) => self.create_refused(name),
            None => Some(EditRefused::UnknownBuffer),
        }
    }

    /// Returns what a buffer that is duplicated shows: its root is duplicated whole.
    ///
    /// # Errors
    ///
    /// As [`BufferLayout::sub_refused`] has it, of the buffer in place of the parent.
    pub fn duplicate_source(&self, name: Name, from: Name) -> Result<RootView, EditRefused>
        ensures { IsTarget self.now.layout from (Duplicate name from) result }
    {
        match self.view(from) {
            Some(view) => unless_refused(view, self.create_refused(name)),
            None => Err(EditRefused::UnknownBuffer),
        }
    }

    /// Returns what a buffer shows whose rectangle is filled with one pixel.
    ///
    /// # Errors
    ///
    /// `UnknownBuffer` where no buffer has the name, else `OutOfBounds` where the buffer lacks a position of the
    /// rectangle, and else `Formats` where the samples are more or fewer than the channels of the buffer's
    /// format, or one is above its maximum.
    pub fn fill_target(
        &self,
        name: Name,
        rect: Rect,
        samples: &[u32],
    ) -> Result<RootView, EditRefused>
        ensures { IsTarget self.now.layout name (Fill name rect samples.now) result }
    {
        match self.view(name) {
            Some(view) => unless_refused(view, fill_refused(&view, &rect, samples)),
            None => Err(EditRefused::UnknownBuffer),
        }
    }

    /// Returns what a buffer shows over whose rectangle raw bytes are put.
    ///
    /// # Errors
    ///
    /// `UnknownBuffer` where no buffer has the name, else `OutOfBounds` where the buffer lacks a position of the
    /// rectangle, and else `WrongSize` where the bytes are more or fewer than those of the rectangle.
    pub fn put_target(&self, name: Name, rect: Rect, bytes: &[u8]) -> Result<RootView, EditRefused>
        ensures { IsTarget self.now.layout name (Put name rect bytes.now) result }
    {
        match self.view(name) {
            Some(view) => unless_refused(view, put_refused(&view, &rect, bytes)),
            None => Err(EditRefused::UnknownBuffer),
        }
    }

    /// Returns what two buffers show, or one, of which a rectangle is copied `dx` to the right and `dy` down, in
    /// pixels, and the rectangle that is written.
    ///
    /// # Errors
    ///
    /// `UnknownBuffer` where no buffer has one of the names, else `OutOfBounds` where the first lacks a position
    /// of the rectangle, or the second one of the moved rectangle, or that is none of the plane, and else
    /// `Formats` where the buffers have different formats.
    pub fn copy_parts(
        &self,
        from: Name,
        to: Name,
        rect: Rect,
        dx: i64,
        dy: i64,
    ) -> Result<CopyParts, EditRefused>
        ensures carried_out { IfOk result (λ _. edit_refused self.now.layout (Copy from to rect dx dy) ≡ None) }
        ensures parts { IfOk result (AreCopyParts self.now.layout from to rect dx dy) }
        ensures refused { IfErr result (λ cause. edit_refused self.now.layout (Copy from to rect dx dy) ≡ Some cause) }
    {
        let Some(source) = self.view(from) else {
            return Err(EditRefused::UnknownBuffer);
        };
        let Some(target) = self.view(to) else {
            return Err(EditRefused::UnknownBuffer);
        };
        match moved_part(&source, &target, &rect, dx, dy) {
            Ok(moved) => Ok(CopyParts {
                source,
                target,
                moved,
            }),
            Err(refused) => Err(refused),
        }
    }
}

/// Returns what a buffer shows, unless an edit of it is refused.
fn unless_refused(view: RootView, refused: Option<EditRefused>) -> Result<RootView, EditRefused>
    ensures view { IfOk result (λ shown. (shown ≡ view) × (refused ≡ None)) }
    ensures refused { IfErr result (λ cause. refused ≡ Some cause) }
{
    match refused {
        Some(refused) => Err(refused),
        None => Ok(view),
    }
}
