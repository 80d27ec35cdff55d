//! The picture of a request: strips of a node's image, from tiles, and their levels.
#![tactic(auto)]

mod bands;
pub mod laws;
mod level_patch;
mod patching;
mod picture;
mod picture_strips;
mod tiled_patch;
mod used_memory;

pub use level_patch::LevelPatch;
pub use picture::{Picture, PictureForm};
pub use picture_strips::PictureStrips;
pub use tiled_patch::TiledPatch;
