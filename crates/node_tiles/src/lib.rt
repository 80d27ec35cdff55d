//! The tiles of nodes that a strip of a render holds while it is in work, and how one more is evaluated.
#![tactic(auto)]

mod input_windows;
mod strip_tiles;
mod tile_jobs;

pub use input_windows::input_tiles;
pub use strip_tiles::{NodeTile, StripTiles};
pub use tile_jobs::{TileJob, apply_job, tile_job};
