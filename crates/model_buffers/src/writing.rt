//! What the buffers show once an edit has written samples.

ghost use Rattle.std.specs.Prelude.{◌≡◌, ℤ, ◌+ℤ◌, ◌<◌, List, ℕ, IfOk, Ok};
ghost use Rattle.plane_rect.specs.Rectangle.{Inside, Rectangle, plane_coordinate, shifted};
ghost use Rattle.pixel_formats.specs.Format.{channels};
ghost use Rattle.model_images.specs.{Image.at, FromRaw.pixels_from_raw};
ghost use Rattle.model_buffers.specs.declared.edit.BufferEdit.TheVariants.{Copy, Fill, Put};
ghost use Rattle.model_buffers.specs.Edits.{edited_table, evenly, moved_samples};
ghost use Rattle.model_buffers.specs.Table.{IsTable, Table, image_of};
ghost use Rattle.model_buffers.specs.Effects.{IsWritten};

/// States that a filled rectangle has the pixel at each of its positions, and nothing else changes.
pub fn filled_rectangle()
    ensures { (table : Table) (name : List ℕ) (rectangle : Rectangle) (samples : List ℕ) →
        IsTable table → IfOk (edited_table table (Fill name rectangle samples)) (IsWritten table name rectangle (evenly samples)) }
{}

/// States that a rectangle that is put has the samples that are decoded from the bytes, and nothing else
/// changes.
pub fn put_rectangle()
    ensures { (table : Table) (name : List ℕ) (rectangle : Rectangle) (bytes : List ℕ) →
        IsTable table → IfOk (edited_table table (Put name rectangle bytes))
        (IsWritten table name rectangle (pixels_from_raw rectangle (image_of table name).format bytes)) }
{}

/// States that a moved rectangle has the samples that the rectangle had before the copy, and nothing else
/// changes. So the sample of a position goes to the position that is dx and dy away, also where a buffer is
/// copied onto itself and the two rectangles overlap.
pub fn copied_rectangle()
    ensures moved { (table : Table) (from to : List ℕ) (rectangle moved : Rectangle) (dx dy : ℤ) →
        IsTable table → shifted dx dy rectangle ≡ Ok moved → IfOk (edited_table table (Copy from to rectangle dx dy))
        (IsWritten table to moved (moved_samples (image_of table from) rectangle moved)) }
    ensures position { (table : Table) (from to : List ℕ) (rectangle : Rectangle) (dx dy : ℤ) (u v moved_u moved_v c : ℕ) →
        IsTable table → Inside u v rectangle → c < channels (image_of table to).format →
        plane_coordinate moved_u ≡ (plane_coordinate u +ℤ dx) →
        plane_coordinate moved_v ≡ (plane_coordinate v +ℤ dy) →
        IfOk (edited_table table (Copy from to rectangle dx dy))
        (λ after. at (image_of after to) moved_u moved_v c ≡ at (image_of table from) u v c) }
{}
