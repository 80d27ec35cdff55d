//! Reads of views of roots: of tiles and parts of the levels of a view's own image, and under a policy.
#![tactic(auto)]

mod levels;
mod policies;
mod positions;
mod views;

pub use levels::{level_part, level_tile};
pub use policies::get;
pub use views::view_tile;
