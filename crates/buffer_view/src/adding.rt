//! Buffers that are added without a tile.

ghost use Rattle.plane_rect.specs.Rectangle.{InLimits};
ghost use Rattle.model_buffers.specs.declared.edit.BufferEdit.TheVariants.{Create, Sub};
ghost use Rattle.buffer_view.specs.Edits.{AddsBuffer};

use crate::buffers::Buffers;
use crate::refused::BufferRefused;
use pixel_formats::Format;
use plane_rect::{Name, Rect};
use root_tiles::{Root, new_roots_are_blank};

impl Buffers {
    /// Adds a buffer of zeros on a root of its own. The extent is in pixels, and in the limits of an image.
    ///
    /// # Errors
    ///
    /// `NameTaken` where a buffer has the name, else `TooManyBuffers` where 64 are there, and `NoMemory` if
    /// memory runs out: the buffers are unchanged.
    pub fn create(&mut self, name: Name, format: Format, extent: Rect) -> Result<(), BufferRefused>
        requires { InLimits extent }
        ensures { AddsBuffer (Create name format extent) result self.old self.new }
    {
        if let Some(refused) = self.layout.create_refused(name) {
            return Err(BufferRefused::Edit(refused));
        }
        new_roots_are_blank();
        // `first_column` is called for its clause that the extent is a rectangle of the plane.
        let _ = extent.first_column();
        self.layout.reserve()?;
        self.roots.reserve(1)?;
        self.layout.create(name, format, extent);
        self.roots
            .push_reserved(Root::new(self.alloc, format, extent));
        Ok(())
    }

    /// Adds a buffer on the root of a parent, which shows what the parent shows of a rectangle. Its cost is
    /// proportional to the number of buffers.
    ///
    /// # Errors
    ///
    /// `UnknownBuffer` where there is no parent of the name, else as [`Buffers::create`]: the buffers are
    /// unchanged.
    pub fn sub(&mut self, name: Name, parent: Name, rect: Rect) -> Result<(), BufferRefused>
        ensures { AddsBuffer (Sub name parent rect) result self.old self.new }
    {
        if let Some(refused) = self.layout.sub_refused(name, parent) {
            return Err(BufferRefused::Edit(refused));
        }
        // `first_column` is called for its clause that the rectangle is one of the plane.
        let _ = rect.first_column();
        self.layout.reserve()?;
        self.layout.sub(name, parent, rect);
        Ok(())
    }
}
