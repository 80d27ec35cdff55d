//! The images of root buffers, each held by the tiles of a table over a chain.
#![tactic(auto)]

mod cut_tiles;
mod cutting;
mod laws;
mod makers;
mod paint;
mod painting;
mod reading;
mod ready;
mod root;
mod shares;
mod tiles;
mod writing;

pub use laws::{more_root_tiles_are_held, new_roots_are_blank, other_roots_are_unchanged};
pub use root::Root;
