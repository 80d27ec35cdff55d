//! Tiles of levels.

use plane_rect::TileAt;

/// A tile of a level above the first: the position that it has among the tiles of this level.
#[derive(Clone, Copy, Debug, PartialEq, Eq, Hash)]
pub struct LevelTile {
    pub level: u32,
    pub tile: TileAt,
}
