//! Tables whose roots are held by tiles: what the edits make of the tiles.

ghost use Rattle.std.specs.Prelude.{◌≡◌, List, ℕ, None, Some};
ghost use Rattle.plane_rect.specs.{Rectangle.Rectangle, Tile.Tile};
ghost use Rattle.pixel_formats.specs.declared.format.Format.{Format};
ghost use Rattle.model_buffers.specs.Edits.{table_with, written};
ghost use Rattle.model_buffers.specs.Held.{ArePainted, AreSameBut, HeldRoots, held_root, held_table};
ghost use Rattle.model_buffers.specs.Layout.{IsLayout, TableLayout, View, find, root_shape, view_shape};
ghost use Rattle.model_buffers.specs.Table.{IsTable, image_of, layout_of, root_image};
ghost use Rattle.model_buffers.specs.declared.edit.BufferEdit.TheVariants.{Create, Duplicate, Sub};
ghost use Rattle.model_buffers.specs.BufferEdit.{layout_with};

/// States that a table that is held by tiles has the layout that it is held for, and is a table. Its buffers
/// are held by the tiles of their roots.
pub fn held_tables()
    ensures layout { (layout : TableLayout) (held : HeldRoots) → layout_of (held_table layout held) ≡ layout }
    ensures table { (layout : TableLayout) (held : HeldRoots) → IsLayout layout → IsTable (held_table layout held) }
    ensures root { (layout : TableLayout) (held : HeldRoots) (root : List ℕ) →
        root_image (held_table layout held) root ≡ held_root held root (root_shape layout root) }
    ensures buffer { (layout : TableLayout) (held : HeldRoots) (name : List ℕ) (view : View) →
        IsLayout layout → find layout.buffers name ≡ Some view →
        image_of (held_table layout held) name ≡ held_root held view.root (view_shape layout view) }
{}

/// States that a new buffer has no tiles, a sub-buffer none of its own, and a duplicate those of the other
/// root.
pub fn added_buffers_by_tiles()
    ensures created { (layout : TableLayout) (held later : HeldRoots) (name : List ℕ) (format : Format) (extent : Rectangle) →
        find layout.roots name ≡ None → AreSameBut name held later → ((tile : Tile) → later name tile ≡ None) →
        held_table (layout_with layout (Create name format extent)) later
        ≡ table_with (held_table layout held) (Create name format extent) }
    ensures part { (layout : TableLayout) (held : HeldRoots) (name parent : List ℕ) (rectangle : Rectangle) →
        held_table (layout_with layout (Sub name parent rectangle)) held
        ≡ table_with (held_table layout held) (Sub name parent rectangle) }
    ensures duplicated { (layout : TableLayout) (held later : HeldRoots) (name from : List ℕ) (view : View) →
        find layout.roots name ≡ None → find layout.buffers from ≡ Some view →
        AreSameBut name held later → ((tile : Tile) → later name tile ≡ held view.root tile) →
        held_table (layout_with layout (Duplicate name from)) later ≡ table_with (held_table layout held) (Duplicate name from) }
{}

/// States that samples are written to a root where its tiles are painted, and no other root's tiles change.
pub fn written_tiles()
    ensures { (layout : TableLayout) (held later : HeldRoots) (root : List ℕ) (rectangle : Rectangle) (f : ℕ → ℕ → ℕ → ℕ) →
        IsLayout layout → AreSameBut root held later → ArePainted held later root (root_shape layout root) rectangle f →
        held_table layout later ≡ written (held_table layout held) root rectangle f }
{}
