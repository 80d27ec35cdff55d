//! Names, rectangles and tiles of positions in the plane.
#![tactic(auto)]

mod moves;
mod name;
mod name_list;
mod plane;
mod rect;
mod sets;
mod tile;
mod tile_parts;

pub use name::Name;
pub use name_list::NameList;
pub use plane::{PLANE_ORIGIN, PLANE_SIDE, plane_index};
pub use rect::{Rect, RectRefused};
pub use sets::Parts;
pub use tile::{TILE_SIDE, TileAt, Tiles};
pub use tile_parts::{meets, strip_rects, tile_part};
