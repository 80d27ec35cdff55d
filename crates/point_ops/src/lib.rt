//! The operations whose pixels are each of one pixel of every input, carried out on parts of tiles.
#![tactic(auto)]

mod applying;
mod change;
mod checker;
mod combine;
mod flip;
mod moves;
mod patches;

pub use applying::{apply, is_point_op};
