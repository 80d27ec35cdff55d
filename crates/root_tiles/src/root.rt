//! A root: a box, and a table of tiles.

ghost use Rattle.std.specs.Prelude.{◌≡◌};
ghost use Rattle.plane_rect.specs.Rectangle.{InLimits};
ghost use Rattle.root_tiles.specs.Roots.{empty_root, root_shape};

use level_tables::LevelTable;
use pixel_formats::Format;
use plane_rect::Rect;
use std::alloc::Global;
use std::marker::Model;

/// The image of a root buffer: its tiles by their names in a chain, zero where none was put.
///
/// A clause sees a root as its box and what its table holds. What it shows over what a chain holds is
/// `root_image` of that.
#[derive(Drop)]
pub struct Root {
    pub(crate) bounds: Rect,
    pub(crate) table: LevelTable,
    pub(crate) alloc: Global,
}

impl Model for Root {
    ghost use Rattle.root_tiles.specs.Roots.{RootTiles};

    ghost Value = { RootTiles };

    ghost view = { λ root. record { box = root.bounds; tiles = root.table.tiles } };
}

impl Root {
    /// Returns the root of zeros over a box, whose calls take memory from `alloc`. It holds no tile.
    pub fn new(alloc: Global, format: Format, bounds: Rect) -> Root
        requires { InLimits bounds }
        ensures { result ≡ empty_root bounds format }
    {
        Root {
            bounds,
            table: LevelTable::new(alloc, format),
            alloc,
        }
    }

    /// Returns the box.
    pub fn bounds(&self) -> Rect
        ensures { result ≡ (root_shape self.now).box }
    {
        self.bounds
    }

    /// Returns the format.
    pub fn format(&self) -> Format
        ensures { result ≡ (root_shape self.now).format }
    {
        self.table.format()
    }

    /// Returns the allocator that its calls take memory from.
    pub fn allocator(&self) -> Global {
        self.alloc
    }
}
