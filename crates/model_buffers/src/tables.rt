//! What holds of each table, and that each edit of a table gives a table.

ghost use Rattle.std.specs.Prelude.{◌≡◌, ◌<◌, List, ℕ, IfOk, Some, length, slice_index_or};
ghost use Rattle.model_images.specs.Image.{Image, IsImage};
ghost use Rattle.model_graphs.specs.Shapes.{shape_of_image};
ghost use Rattle.model_buffers.specs.Layout.{IsValidShape, IsLayout, TableLayout, View, find};
ghost use Rattle.model_buffers.specs.Table.{IsTable, Table, image_of, no_buffers};
ghost use Rattle.model_buffers.specs.{declared.edit.BufferEdit.BufferEdit, BufferEdit.IsProperEdit, Edits.edited_table};

/// States that each entry of a table's lists is found by its name.
pub fn entries_are_found()
    ensures buffers { (layout : TableLayout) (i : ℕ) (d : List ℕ × View) → IsLayout layout → i < length layout.buffers →
        find layout.buffers (slice_index_or layout.buffers i d).0 ≡ Some (slice_index_or layout.buffers i d).1 }
    ensures roots { (table : Table) (i : ℕ) (d : List ℕ × Image) → IsTable table → i < length table.roots →
        find table.roots (slice_index_or table.roots i d).0 ≡ Some (slice_index_or table.roots i d).1 }
{}

/// States that the image of a buffer is one that a table may hold: it is whole, and its box is a rectangle in
/// limits.
pub fn images_are_kept()
    ensures whole { (table : Table) (name : List ℕ) → IsTable table → IsImage (image_of table name) }
    ensures shape { (table : Table) (name : List ℕ) → IsTable table → IsValidShape (shape_of_image (image_of table name)) }
{}

/// States that a table without buffers is a table, and so is one after an edit.
pub fn edits_keep_tables()
    ensures first { IsTable no_buffers }
    ensures edited { (table : Table) (edit : BufferEdit) →
        IsTable table → IsProperEdit edit → IfOk (edited_table table edit) IsTable }
{}
