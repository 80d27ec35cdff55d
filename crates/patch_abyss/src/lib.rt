//! Images in memory: patches, what is read outside of them, and parts that are put together from lines of tiles.
#![tactic(auto)]

mod fill;
mod halving;
mod lines;
mod outside;
mod painting;
mod patch;
mod reading;
mod rows;
mod samples;
mod solid;

pub use halving::halve;
pub use lines::add_line;
pub use painting::paint_raw;
pub use patch::{Patch, PatchRefused, sample_at};
pub use pixel_formats::Abyss;
pub use reading::fetch;
pub use samples::raw_pixel;
pub use solid::solid_patch;
