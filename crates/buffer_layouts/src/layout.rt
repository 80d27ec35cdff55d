//! Layouts of tables of buffers, held as facts of buffers and shapes of roots.

ghost use Rattle.std.specs.Prelude.{◌≡◌, ◌≤◌, [], IfOk, OnOk, map, option_map};
ghost use Rattle.std.specs.List.{position};
ghost use Rattle.std.specs.Str.{bytes_eq};
ghost use Rattle.model_graphs.specs.Facts.{fact_of};
ghost use Rattle.model_buffers.specs.Layout.{IsLayout, facts_of, root_shape};
ghost use Rattle.buffer_layouts.specs.Views.{root_number, root_view, shape_at};
ghost use Rattle.buffer_layouts.specs.Layouts.{root_entry};

use crate::views::{RootShape, RootView};
use alloc_basics::NoMemory;
use model_graphs::BufferFact;
use plane_rect::{Name, Rect};
use std::alloc::Global;
use std::marker::Model;

/// What is known of a table of at most 64 named buffers without their samples: the facts of the buffers, and
/// the shapes of the roots that they show. Names are found by a search over all of them.
///
/// A clause sees it as a record of the `layout`, and of the `room` that it has for more buffers with a root
/// each.
#[derive(Drop)]
pub struct BufferLayout {
    pub(crate) roots: Vec<RootShape>,
    pub(crate) facts: Vec<BufferFact>,
    alloc: Global,
}

impl Model for BufferLayout {
    ghost use Rattle.std.specs.Prelude.{◌-◌, min, vec_capacity, vec_len};
    ghost use Rattle.buffer_layouts.specs.Layouts.{AreHeld, RoomyLayout, layout_of_facts};

    ghost Value = { RoomyLayout };

    ghost view = { λ l. record {
      layout = layout_of_facts l.roots.items l.facts.items;
      room = min (vec_capacity l.roots - vec_len l.roots) (vec_capacity l.facts - vec_len l.facts);
    } };

    ghost invariant = { λ l. AreHeld l.roots.items l.facts.items };
}

impl BufferLayout {
    /// Returns the layout of no buffer, whose later calls take memory from `alloc`. Takes none.
    pub fn new(alloc: Global) -> BufferLayout
        ensures { result.layout ≡ record { roots = []; buffers = [] } }
    {
        BufferLayout {
            roots: Vec::new(alloc),
            facts: Vec::new(alloc),
            alloc,
        }
    }

    /// Returns the facts of the buffers, in the order in which they were added.
    pub fn facts(&self) -> &[BufferFact]
        ensures facts { result.now ≡ facts_of self.now.layout }
        ensures layout { IsLayout self.now.layout }
    {
        &self.facts
    }

    /// Returns the shapes of the roots, in the order in which they were added.
    pub fn roots(&self) -> &[RootShape]
        ensures { map root_entry result.now ≡ self.now.layout.roots }
    {
        &self.roots
    }

    /// Returns the fact of the buffer of a name, where there is one. Its cost is proportional to the number of
    /// buffers.
    pub fn fact(&self, name: Name) -> Option<BufferFact>
        ensures value { result ≡ fact_of (facts_of self.now.layout) name }
        ensures layout { IsLayout self.now.layout }
    {
        fact_named(self.facts(), name).copied()
    }

    /// Returns what the buffer of a name shows of its root, where there is one. Its cost is proportional to the
    /// number of buffers.
    pub fn view(&self, name: Name) -> Option<RootView>
        ensures value { result ≡ root_view self.now.layout name }
        ensures layout { IsLayout self.now.layout }
    {
        match self.fact(name) {
            Some(fact) => Some(self.view_of(&fact)),
            None => None,
        }
    }

    /// Returns what a buffer shows of its root, by its fact.
    fn view_of(&self, fact: &BufferFact) -> RootView
        ensures root { result.root ≡ root_number self.now.layout fact.now.root }
        ensures bounds { result.bounds ≡ (root_shape self.now.layout fact.now.root).box }
        ensures format { result.format ≡ fact.now.format }
        ensures extent { result.extent ≡ fact.now.bounds }
    {
        let root = self.root_number(fact.root);
        RootView {
            root,
            bounds: self.bounds_of(root),
            format: fact.format,
            extent: fact.bounds,
        }
    }

    /// Returns the number of the root of a name, and the number of roots where there is none.
    fn root_number(&self, name: Name) -> usize
        ensures { result ≡ root_number self.now.layout name }
    {
        let roots = self.roots();
        number_named(roots, name).unwrap_or(roots.len())
    }

    /// Returns the bounding box of the root at an index, and that of no position past the last.
    fn bounds_of(&self, root: usize) -> Rect
        ensures { result ≡ (shape_at self.now.layout root).box }
    {
        match self.roots.get(root) {
            Some(root) => root.bounds,
            None => Rect::EMPTY,
        }
    }

    /// Makes room for one more buffer with a root of its own, so that both can be added without memory.
    ///
    /// # Errors
    ///
    /// `NoMemory` if memory runs out: the layout is unchanged.
    pub fn reserve(&mut self) -> Result<(), NoMemory>
        ensures layout { self.new.layout ≡ self.old.layout }
        ensures room { OnOk result (1 ≤ self.new.room) }
    {
        self.roots.reserve(1)?;
        self.facts.reserve(1)?;
        Ok(())
    }

    /// Returns an equal layout, which has memory of its own.
    ///
    /// # Errors
    ///
    /// `NoMemory` if memory runs out.
    pub fn copy(&self) -> Result<BufferLayout, NoMemory>
        ensures { IfOk result (λ copied. copied.layout ≡ self.now.layout) }
    {
        Ok(BufferLayout {
            roots: self.roots.as_slice().to_vec(self.alloc)?,
            facts: self.facts.as_slice().to_vec(self.alloc)?,
            alloc: self.alloc,
        })
    }
}

/// Returns the first fact of a name.
fn fact_named(facts: &[BufferFact], name: Name) -> Option<&BufferFact>
    ensures { option_map (λ fact. fact.now) result ≡ fact_of facts.now name }
{
    facts.iter().find(|fact| name == fact.name)
}

/// Returns the number of the first root of a name.
fn number_named(roots: &[RootShape], name: Name) -> Option<usize>
    ensures { result ≡ position (λ root. bytes_eq name root.name) roots.now }
{
    roots.iter().position(|root| name == root.name)
}
