//! Images: boxes, samples, raw bytes, what is read outside an image, and levels. The definitions, and
//! the laws by which other crates reason about them.
#![tactic(auto)]

pub mod agreement;
pub mod examples;
pub mod images;
pub mod levels;
pub mod policies;
pub mod raw_bytes;
pub mod tile_counts;
pub mod tiles;
