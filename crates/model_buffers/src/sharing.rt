//! Which buffers see what is written to another.

ghost use Rattle.std.specs.Prelude.{◌≡◌, List, ℕ, IfOk};
ghost use Rattle.plane_rect.specs.Rectangle.{IsRectangle, Rectangle};
ghost use Rattle.model_buffers.specs.declared.edit.BufferEdit.TheVariants.{Duplicate, Sub};
ghost use Rattle.model_buffers.specs.Effects.{IsWritten, ShowsOver};
ghost use Rattle.model_buffers.specs.Table.{IsTable, Table, image_of};
ghost use Rattle.model_buffers.specs.Edits.{edited_table};

/// States that a sub-buffer shows what is written to its parent, and its parent what is written to it.
pub fn sub_buffer_shares_samples()
    ensures of_parent { (table : Table) (name parent : List ℕ) (part : Rectangle) →
        IsTable table → IsRectangle part → IfOk (edited_table table (Sub name parent part)) (λ both.
        (rectangle : Rectangle) (f : ℕ → ℕ → ℕ → ℕ) (after : Table) →
        IsWritten both parent rectangle f after → ShowsOver rectangle f (image_of after name)) }
    ensures of_part { (table : Table) (name parent : List ℕ) (part : Rectangle) →
        IsTable table → IsRectangle part → IfOk (edited_table table (Sub name parent part)) (λ both.
        (rectangle : Rectangle) (f : ℕ → ℕ → ℕ → ℕ) (after : Table) →
        IsWritten both name rectangle f after → ShowsOver rectangle f (image_of after parent)) }
{}

/// States that a duplicate keeps its image whatever is written to the buffer that it was made from, and that
/// buffer keeps its own whatever is written to the duplicate.
pub fn duplicate_shares_none()
    ensures of_original { (table : Table) (name from : List ℕ) →
        IsTable table → IfOk (edited_table table (Duplicate name from)) (λ both.
        (rectangle : Rectangle) (f : ℕ → ℕ → ℕ → ℕ) (after : Table) →
        IsWritten both from rectangle f after → image_of after name ≡ image_of table from) }
    ensures of_duplicate { (table : Table) (name from : List ℕ) →
        IsTable table → IfOk (edited_table table (Duplicate name from)) (λ both.
        (rectangle : Rectangle) (f : ℕ → ℕ → ℕ → ℕ) (after : Table) →
        IsWritten both name rectangle f after → image_of after from ≡ image_of table from) }
{}
