//! What the buffers show that an edit adds.

ghost use Rattle.std.specs.Prelude.{◌≡◌, List, ℕ, IfOk};
ghost use Rattle.plane_rect.specs.Rectangle.{IsRectangle, Rectangle, meet};
ghost use Rattle.pixel_formats.specs.declared.format.Format.{Format};
ghost use Rattle.model_images.specs.Paint.{blank, cut};
ghost use Rattle.model_buffers.specs.declared.edit.BufferEdit.TheVariants.{Create, Duplicate, Sub};
ghost use Rattle.model_buffers.specs.Effects.{HasOwnRoot, IsAdded};
ghost use Rattle.model_buffers.specs.Table.{IsTable, Table, image_of, root_of};
ghost use Rattle.model_buffers.specs.Edits.{edited_table};

/// States that a created buffer shows zeros, on a root of its own.
pub fn created_buffer()
    ensures image { (table : Table) (name : List ℕ) (format : Format) (extent : Rectangle) →
        IsTable table → IfOk (edited_table table (Create name format extent)) (IsAdded table name (blank extent format)) }
    ensures root { (table : Table) (name : List ℕ) (format : Format) (extent : Rectangle) →
        IsTable table → IfOk (edited_table table (Create name format extent)) (λ after. HasOwnRoot after name) }
{}

/// States that a sub-buffer shows the part of its parent's image that is in the rectangle, on the parent's
/// root.
pub fn sub_buffer_of_parent()
    ensures image { (table : Table) (name parent : List ℕ) (rectangle : Rectangle) →
        IsTable table → IsRectangle rectangle → IfOk (edited_table table (Sub name parent rectangle))
        (IsAdded table name (cut (image_of table parent) (meet rectangle (image_of table parent).box))) }
    ensures root { (table : Table) (name parent : List ℕ) (rectangle : Rectangle) →
        IsTable table → IsRectangle rectangle → IfOk (edited_table table (Sub name parent rectangle))
        (λ after. root_of after name ≡ root_of table parent) }
{}

/// States that a duplicate shows the same image, on a root of its own.
pub fn duplicated_buffer()
    ensures image { (table : Table) (name from : List ℕ) →
        IsTable table → IfOk (edited_table table (Duplicate name from)) (IsAdded table name (image_of table from)) }
    ensures root { (table : Table) (name from : List ℕ) →
        IsTable table → IfOk (edited_table table (Duplicate name from)) (λ after. HasOwnRoot after name) }
{}
