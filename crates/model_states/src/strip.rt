//! Strips of requests, as plain data.

use alloc_basics::ItemList;
use plane_rect::{Rect, TileAt};

/// Needed tiles in their order, each with the position of its node. A clause sees them as a list.
pub type NeedList = ItemList<(u32, TileAt)>;

/// A request cut to one row of tiles, and the tiles that are needed for it: those of sources are
/// left out.
#[derive(Drop)]
pub struct Strip {
    pub rect: Rect,
    pub need: NeedList,
}
