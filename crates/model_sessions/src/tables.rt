//! Tables of buffers are read by graphs as they are.

ghost use Rattle.std.specs.Prelude.{◌≡◌, ℕ, List, IfOk};
ghost use Rattle.std.specs.List.{IsDistinct};
ghost use Rattle.std.specs.Option.{option_map};
ghost use Rattle.std.specs.Str.{bytes_eq};
ghost use Rattle.model_buffers.specs.Layout.{fact_in, find};
ghost use Rattle.model_buffers.specs.Table.{IsTable, Table, image_of, layout_of};
ghost use Rattle.model_buffers.specs.{declared.edit.BufferEdit.BufferEdit, BufferEdit.IsProperEdit, Edits.edited_table};
ghost use Rattle.model_graphs.specs.Facts.{AreImagesOf, fact_names, fact_of};
ghost use Rattle.model_graphs.specs.Evaluation.{buffer_image};
ghost use Rattle.model_states.specs.Rectangles.{Rectangles};
ghost use Rattle.model_sessions.specs.Tables.{Continues, table_facts, table_images};
ghost use Rattle.model_sessions.specs.{Histories.AreTablesSeparated, Steps.rectangles_by};

/// States that a table's buffers have distinct names, and a graph knows and reads them as they are.
pub fn tables_are_sources()
    ensures distinct { (table : Table) → IsTable table → IsDistinct bytes_eq (fact_names (table_facts table)) }
    ensures found { (table : Table) (name : List ℕ) →
        fact_of (table_facts table) name ≡ option_map (fact_in (layout_of table) name) (find table.buffers name) }
    ensures shapes { (table : Table) → AreImagesOf (table_facts table) (table_images table) }
    ensures images { (table : Table) (name : List ℕ) →
        buffer_image (table_images table) name ≡ image_of table name }
{}

/// States that an edit keeps each buffer on its root, and changes no image outside the rectangle that it writes to its root.
pub fn edits_continue_tables()
    ensures table { (table : Table) (edit : BufferEdit) →
        IsTable table → IsProperEdit edit → IfOk (edited_table table edit) IsTable }
    ensures buffers { (table : Table) (edit : BufferEdit) →
        IsTable table → IsProperEdit edit →
        IfOk (edited_table table edit) (Continues table (rectangles_by table edit)) }
{}

/// States that a table and one that continues it are neighbors, also the other way round.
pub fn continued_tables_are_neighbors()
    ensures on { (table next : Table) (rectangles : Rectangles) →
        Continues table rectangles next → AreTablesSeparated table next rectangles }
    ensures back { (table next : Table) (rectangles : Rectangles) →
        AreTablesSeparated table next rectangles → AreTablesSeparated next table rectangles }
{}
