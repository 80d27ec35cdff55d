//! A table of buffers: a layout, and the roots whose images it shows.

ghost use Rattle.std.specs.Prelude.{◌≡◌};
ghost use Rattle.model_buffers.specs.Layout.{facts_of};
ghost use Rattle.model_graphs.specs.Facts.{fact_of};
ghost use Rattle.buffer_view.specs.BufferTables.{IsBufferTable, empty_table};

use buffer_layouts::BufferLayout;
use model_graphs::BufferFact;
use plane_rect::Name;
use root_tiles::Root;
use std::alloc::Global;
use std::marker::Model;

/// At most 64 named buffers, each of which shows a part of the image of a root. The images are held by tiles
/// under names of the chain that the calls are lent.
///
/// A clause sees buffers as their layout, and the tiles of the roots. The images over what a chain holds are
/// `table_of` that.
#[derive(Drop)]
pub struct Buffers {
    pub(crate) layout: BufferLayout,
    /// The roots, in the order of the layout's.
    pub(crate) roots: Vec<Root>,
    pub(crate) alloc: Global,
}

impl Model for Buffers {
    ghost use Rattle.buffer_view.specs.BufferTables.{BufferTable, IsBufferTable};

    ghost Value = { BufferTable };

    ghost view = { λ b. record { layout = b.layout.layout; roots = b.roots.items } };

    ghost invariant = { λ b. IsBufferTable (record { layout = b.layout.layout; roots = b.roots.items }) };
}

impl Buffers {
    /// Returns no buffers, whose later calls take memory from `alloc`. Takes none.
    pub fn new(alloc: Global) -> Buffers
        ensures { result ≡ empty_table }
    {
        let layout = BufferLayout::new(alloc);
        // `facts` is called for its clause that this is a layout.
        let _ = layout.facts();
        Buffers {
            layout,
            roots: Vec::new(alloc),
            alloc,
        }
    }

    /// Returns the facts of the buffers, in the order in which they were added.
    pub fn facts(&self) -> &[BufferFact]
        ensures facts { result.now ≡ facts_of self.now.layout }
        ensures table { IsBufferTable self.now }
    {
        self.layout.facts()
    }

    /// Returns the fact of the buffer of a name, where there is one. Its cost is proportional to the number of
    /// buffers.
    pub fn fact(&self, name: Name) -> Option<BufferFact>
        ensures { result ≡ fact_of (facts_of self.now.layout) name }
    {
        self.layout.fact(name)
    }
}
