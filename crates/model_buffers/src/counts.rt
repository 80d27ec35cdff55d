//! How many tiles edits may add, and what follows for the names of a chain.

ghost use Rattle.std.specs.Prelude.{◌≡◌, ◌+◌, ◌≤◌, ℕ, IfSome, List};
ghost use Rattle.plane_rect.specs.Rectangle.{Rectangle};
ghost use Rattle.model_images.specs.TileCounts.{tile_count};
ghost use Rattle.model_buffers.specs.Counts.{RoomFor, names_after_render, tiles_added};
ghost use Rattle.model_buffers.specs.{Layout.TableLayout, BufferEdit.written_by, declared.edit.BufferEdit.BufferEdit};

/// States that an edit adds the tiles that meet the rectangle that it writes.
pub fn tiles_of_written_rectangles()
    ensures { (layout : TableLayout) (edit : BufferEdit) →
        IfSome (written_by layout edit) (λ (written : List ℕ × Rectangle). tiles_added edit ≡ tile_count written.1) }
{}

/// States that a render leaves no more names where there were fewer before it, or fewer pairs are applied in
/// all.
pub fn fewer_names_after_renders()
    ensures { (others more cached applied later total capacity : ℕ) →
        others ≤ more → cached + applied ≤ later + total →
        names_after_render others cached capacity applied ≤ names_after_render more later capacity total }
{}

/// States that where there is room for some names there is room for fewer, and so in a store of more blocks.
pub fn room_for_fewer()
    ensures { (k fewer used more : ℕ) → fewer ≤ k → used ≤ more → RoomFor k used → RoomFor fewer more }
{}
