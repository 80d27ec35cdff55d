//! What is known of tables without their samples, and how edits change it.

ghost use Rattle.std.specs.Prelude.{◌≡◌, List, ℕ, IfOk, None, option_map};
ghost use Rattle.std.specs.List.{IsDistinct};
ghost use Rattle.std.specs.Str.{bytes_eq};
ghost use Rattle.model_graphs.specs.Facts.{fact_names, fact_of, shapes_of_facts};
ghost use Rattle.model_graphs.specs.Shapes.{shape_in, shape_of_image};
ghost use Rattle.model_buffers.specs.BufferEdit.{IsProperEdit, edit_refused, layout_with};
ghost use Rattle.model_buffers.specs.Edits.{edited_table, table_with};
ghost use Rattle.model_buffers.specs.Layout.{IsLayout, TableLayout, buffer_shape, fact_in, facts_of, find, root_shape, view_shape};
ghost use Rattle.model_buffers.specs.Table.{Table, image_of, layout_of, root_image};
ghost use Rattle.model_buffers.specs.declared.edit.BufferEdit.{BufferEdit};

/// States that the shape of a buffer, or of a root, is that of its image.
pub fn shapes_of_images()
    ensures buffer { (table : Table) (name : List ℕ) →
        buffer_shape (layout_of table) name ≡ shape_of_image (image_of table name) }
    ensures root { (table : Table) (root : List ℕ) →
        root_shape (layout_of table) root ≡ shape_of_image (root_image table root) }
{}

/// States that what a graph knows of a buffer is found by its name, and its shape is the buffer's. No name is
/// there twice.
pub fn facts_of_buffers()
    ensures found { (layout : TableLayout) (name : List ℕ) →
        fact_of (facts_of layout) name ≡ option_map (fact_in layout name) (find layout.buffers name) }
    ensures shapes { (layout : TableLayout) (name : List ℕ) →
        shape_in (shapes_of_facts (facts_of layout)) name ≡ option_map (view_shape layout) (find layout.buffers name) }
    ensures distinct { (layout : TableLayout) → IsLayout layout → IsDistinct bytes_eq (fact_names (facts_of layout)) }
{}

/// States that the layout after an edit depends on the layout before it alone.
pub fn layout_after_an_edit()
    ensures table { (table : Table) (edit : BufferEdit) →
        layout_of (table_with table edit) ≡ layout_with (layout_of table) edit }
    ensures edited { (table : Table) (edit : BufferEdit) →
        IfOk (edited_table table edit) (λ after. layout_of after ≡ layout_with (layout_of table) edit) }
{}

/// States that an edit that isn't refused makes a layout of a layout.
pub fn edits_keep_layouts()
    ensures { (layout : TableLayout) (edit : BufferEdit) →
        IsLayout layout → IsProperEdit edit → edit_refused layout edit ≡ None → IsLayout (layout_with layout edit) }
{}
