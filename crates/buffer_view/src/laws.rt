//! Laws by which callers speak of tables of buffers.

ghost use Rattle.std.specs.Prelude.{◌≡◌, ℕ, ◌++◌, IfSome, IsSome, List};
ghost use Rattle.chain_owners.specs.Owners.{Owns, Respects};
ghost use Rattle.chain_owners.specs.{Counts.Counts, Held.Held};
ghost use Rattle.model_buffers.specs.Table.{IsTable, layout_of};
ghost use Rattle.model_buffers.specs.{Layout.TableLayout, declared.edit.BufferEdit.BufferEdit};
ghost use Rattle.buffer_view.specs.BufferTables.{AreBuffersOver, BufferTable, IsBufferTable, buffers_names, empty_table, table_of};
ghost use Rattle.buffer_view.specs.Causes.{HasAddCause, HasEditCause};
ghost use Rattle.buffer_view.specs.declared.refused.BufferRefused.{BufferRefused as Refused};

/// States that no buffers ask nothing of a chain.
pub fn no_buffers_ask_nothing()
    ensures { (held : Held) → AreBuffersOver empty_table held }
{}

/// States that the images of buffers, where the chain exposes its bytes, are a table of their layout.
pub fn buffers_are_tables()
    ensures layout { (buffers : BufferTable) (held : Held) → IsBufferTable buffers →
        IfSome (table_of buffers held) (λ table. layout_of table ≡ buffers.layout) }
    ensures table { (buffers : BufferTable) (held : Held) → IsBufferTable buffers → IfSome (table_of buffers held) IsTable }
    ensures known { (buffers : BufferTable) (held : Held) → IsSome held.content → IsSome (table_of buffers held) }
{}

/// States that what refuses to add a buffer refuses it as an edit.
pub fn added_buffers_have_causes()
    ensures { (layout : TableLayout) (edit : BufferEdit) (old new : Counts) (refused : Refused) →
        HasAddCause layout edit refused → HasEditCause layout edit old new refused }
{}

/// States that a call on the chain that respects its other owners leaves buffers as they were that it wasn't
/// handed: their images are unchanged, and what they ask of the chain holds again.
pub fn other_buffers_are_unchanged()
    ensures table { (buffers : BufferTable) (old new : Held) (before after : List ℕ) →
        Respects old new before after → Owns old (before ++ buffers_names buffers) → table_of buffers new ≡ table_of buffers old }
    ensures over { (buffers : BufferTable) (old new : Held) (before after : List ℕ) →
        Respects old new before after → Owns old (before ++ buffers_names buffers) →
        AreBuffersOver buffers old → AreBuffersOver buffers new }
{}
