//! Reads of gray roots and of views of them, on rectangles of four numbers.

ghost use Rattle.plane_rect.specs.Rectangle.{Includes, IsRectangle};
ghost use Rattle.test_buffers.specs.Gray.{IsGray};

use crate::roots::calls::part;
use chain_owners::SwapRefused;
use patch_abyss::Patch;
use pixel_formats::Abyss;
use plane_rect::{Rect, TileAt};
use root_tiles::Root;
use std::process::Abort;
use test_nodes::rect;
use tile_chain::TileChain;
use tile_cow::Tile;
use view_reads::{get, level_part, level_tile, view_tile};

/// A rectangle by x, y, width and height.
pub type Fields = [i64; 4];

/// The tile at the origin of an image of a root.
#[derive(Clone, Copy, Debug)]
pub enum First {
    /// Of the root, as it was put.
    Put,

    /// Of a level of the root.
    Level(u32),

    /// Of a view of a rectangle of the root.
    View(Fields),

    /// Of a level of a view of a rectangle of the root.
    ViewLevel(Fields, u32),
}

/// A part of an image of a root.
#[derive(Clone, Copy, Debug)]
pub enum Part {
    /// Of the root.
    Root(Fields),

    /// Of level 1 of a view of a rectangle of the root.
    ViewLevelOne(Fields, Fields),

    /// Of a level of a view of a rectangle of the root, under a policy.
    Under(Fields, u32, Abyss, Fields),
}

/// Returns a rectangle of the box of a root.
fn extent(rt: &impl Abort, root: &Root, fields: Fields) -> Rect
    ensures inside { Includes root.now.box result }
    ensures rectangle { IsRectangle result }
{
    let extent = rect(fields);
    assert!(rt; root.bounds().contains(&extent));
    let _first_column = extent.first_column();
    extent
}

/// Reads a tile at the origin.
pub fn first_tile<C: TileChain>(
    rt: &impl Abort,
    root: &mut Root,
    chain: &mut C,
    of: First,
) -> Result<Tile, SwapRefused>
    requires { IsGray root.old (C.held chain.old) }
    ensures { IsGray root.new (C.held chain.new) }
{
    let origin = TileAt::of(0, 0);
    match of {
        First::Put => root.put_tile(chain, origin),
        First::Level(level) => {
            assert!(rt; level <= 8);
            root.tile(chain, level, origin)
        }
        First::View(view) => view_tile(root, chain, extent(rt, root, view), origin),
        First::ViewLevel(view, level) => {
            assert!(rt; level <= 8);
            level_tile(root, chain, extent(rt, root, view), level, origin)
        }
    }
}

/// Reads a part.
pub fn read_part<C: TileChain>(
    rt: &impl Abort,
    root: &mut Root,
    chain: &mut C,
    of: Part,
) -> Result<Patch, SwapRefused>
    requires { IsGray root.old (C.held chain.old) }
    ensures { IsGray root.new (C.held chain.new) }
{
    match of {
        Part::Root(fields) => part(rt, root, chain, fields),
        Part::ViewLevelOne(view, fields) => {
            level_part(root, chain, extent(rt, root, view), 1, rect(fields))
        }
        Part::Under(view, level, abyss, fields) => {
            assert!(rt; level <= 8);
            get(
                root,
                chain,
                extent(rt, root, view),
                level,
                abyss,
                rect(fields),
            )
        }
    }
}
