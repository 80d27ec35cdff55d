//! A kit of one operation and a source of tiles, by which tests show that the contracts can be met.
#![tactic(auto)]

mod blank_tiles;
mod cut_kit;
mod cutting;
mod meanings;
mod part;
mod step;
#[cfg(test)]
mod tests;

pub use blank_tiles::BlankTiles;
pub use cut_kit::{CutKit, CutPermit, CutPurse};
pub use cutting::CutTo;
pub use part::{applied_part, boxes_of, formats_of, is_applicable};
pub use step::applied_tile;
