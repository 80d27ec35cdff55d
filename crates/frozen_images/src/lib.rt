//! Images that tiles in memory hold, and sources of tiles over them, for readers that have no chain.
#![tactic(auto)]

mod frozen;
mod scene_tiles;

pub use frozen::Frozen;
pub use scene_tiles::{FrozenBuffer, SceneTiles};
