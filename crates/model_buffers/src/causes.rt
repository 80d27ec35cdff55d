//! When an edit is carried out, and when each refusal comes.

ghost use Rattle.std.specs.Prelude.{◌≡◌, ◌↔◌, ℤ, List, ℕ, Err, IsOk, None, Ok, Some};
ghost use Rattle.plane_rect.specs.Rectangle.{Rectangle};
ghost use Rattle.pixel_formats.specs.declared.format.Format.{Format};
ghost use Rattle.model_buffers.specs.declared.edit.BufferEdit.TheVariants.{Copy, Create, Duplicate, Fill, Put, Sub};
ghost use Rattle.model_buffers.specs.Causes.{AddFromRefused, AddRefused, CopyRefused, FillRefused, IsAddable, IsCarriedOut, IsCopyable, IsFillable, IsKnown, IsPuttable, IsRefused, PutRefused};
ghost use Rattle.model_buffers.specs.Edits.{edited_table, table_with};
ghost use Rattle.model_buffers.specs.Table.{Table, layout_of};
ghost use Rattle.model_buffers.specs.{declared.edit.BufferEdit.BufferEdit, BufferEdit.edit_refused, Layout.TableLayout};
ghost use Rattle.model_buffers.specs.declared.refused.EditRefused.{EditRefused as Refused};

/// States that an edit is carried out, or refused by one cause, by the layout alone.
pub fn answers_by_layout()
    ensures carried_out { (layout : TableLayout) (edit : BufferEdit) →
        (edit_refused layout edit ≡ None) ↔ IsCarriedOut layout edit }
    ensures refused { (layout : TableLayout) (edit : BufferEdit) (cause : Refused) →
        (edit_refused layout edit ≡ Some cause) ↔ IsRefused layout edit cause }
{}

/// States that an edited table is what the edit makes of it, exactly where the edit is carried out. It is
/// refused exactly by the edit's cause.
pub fn answers_of_tables()
    ensures carried_out { (table : Table) (edit : BufferEdit) →
        IsOk (edited_table table edit) ↔ IsCarriedOut (layout_of table) edit }
    ensures refused { (table : Table) (edit : BufferEdit) (cause : Refused) →
        (edited_table table edit ≡ Err cause) ↔ IsRefused (layout_of table) edit cause }
    ensures after { (table : Table) (edit : BufferEdit) →
        edit_refused (layout_of table) edit ≡ None → edited_table table edit ≡ Ok (table_with table edit) }
{}

/// States that a buffer is created exactly where its name is new and there is room. It is refused exactly
/// where the name is taken, and else where 64 buffers are there.
pub fn create_answers()
    ensures carried_out { (table : Table) (name : List ℕ) (format : Format) (extent : Rectangle) →
        IsOk (edited_table table (Create name format extent)) ↔ IsAddable (layout_of table) name }
    ensures refused { (table : Table) (name : List ℕ) (format : Format) (extent : Rectangle) (cause : Refused) →
        (edited_table table (Create name format extent) ≡ Err cause) ↔ AddRefused (layout_of table) name cause }
{}

/// States that a sub-buffer is made exactly where its parent is there, its name is new and there is room. The
/// causes of refusals come in this order.
pub fn sub_buffer_answers()
    ensures carried_out { (table : Table) (name parent : List ℕ) (rectangle : Rectangle) →
        IsOk (edited_table table (Sub name parent rectangle))
        ↔ (IsKnown (layout_of table) parent × IsAddable (layout_of table) name) }
    ensures refused { (table : Table) (name parent : List ℕ) (rectangle : Rectangle) (cause : Refused) →
        (edited_table table (Sub name parent rectangle) ≡ Err cause) ↔ AddFromRefused (layout_of table) name parent cause }
{}

/// States that a buffer is duplicated exactly where it is there, the new name is new and there is room. The
/// causes of refusals come in this order.
pub fn duplicate_answers()
    ensures carried_out { (table : Table) (name from : List ℕ) →
        IsOk (edited_table table (Duplicate name from))
        ↔ (IsKnown (layout_of table) from × IsAddable (layout_of table) name) }
    ensures refused { (table : Table) (name from : List ℕ) (cause : Refused) →
        (edited_table table (Duplicate name from) ≡ Err cause) ↔ AddFromRefused (layout_of table) name from cause }
{}

/// States that a rectangle is filled exactly where the buffer is there and has all its positions, and the
/// samples are a pixel of the buffer's format. The causes of refusals come in this order.
pub fn fill_answers()
    ensures carried_out { (table : Table) (name : List ℕ) (rectangle : Rectangle) (samples : List ℕ) →
        IsOk (edited_table table (Fill name rectangle samples)) ↔ IsFillable (layout_of table) name rectangle samples }
    ensures refused { (table : Table) (name : List ℕ) (rectangle : Rectangle) (samples : List ℕ) (cause : Refused) →
        (edited_table table (Fill name rectangle samples) ≡ Err cause)
        ↔ FillRefused (layout_of table) name rectangle samples cause }
{}

/// States that raw bytes are put exactly where the buffer is there and has all positions of the rectangle,
/// and there are as many bytes as these positions have. The causes of refusals come in this order.
pub fn put_answers()
    ensures carried_out { (table : Table) (name : List ℕ) (rectangle : Rectangle) (bytes : List ℕ) →
        IsOk (edited_table table (Put name rectangle bytes)) ↔ IsPuttable (layout_of table) name rectangle bytes }
    ensures refused { (table : Table) (name : List ℕ) (rectangle : Rectangle) (bytes : List ℕ) (cause : Refused) →
        (edited_table table (Put name rectangle bytes) ≡ Err cause)
        ↔ PutRefused (layout_of table) name rectangle bytes cause }
{}

/// States that a rectangle is copied exactly where both buffers are there, the first has all its positions,
/// the second all positions of the moved rectangle, and both have one format. The causes of refusals come in
/// this order.
pub fn copy_answers()
    ensures carried_out { (table : Table) (from to : List ℕ) (rectangle : Rectangle) (dx dy : ℤ) →
        IsOk (edited_table table (Copy from to rectangle dx dy)) ↔ IsCopyable (layout_of table) from to rectangle dx dy }
    ensures refused { (table : Table) (from to : List ℕ) (rectangle : Rectangle) (dx dy : ℤ) (cause : Refused) →
        (edited_table table (Copy from to rectangle dx dy) ≡ Err cause)
        ↔ CopyRefused (layout_of table) from to rectangle dx dy cause }
{}
