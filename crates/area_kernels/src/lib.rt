//! Kernels over parts of images, for operations that read the square around each position.
#![tactic(auto)]

mod area;
mod column_numbers;
mod columns;
mod divisor;
mod extremes;
mod four_sums;
pub mod laws;
mod long_divisor;
mod means;
mod picks;
mod rows;
mod square_numbers;
mod square_sums;
mod sums;

pub use area::Area;
pub use extremes::{area_max, area_min};
pub use means::area_mean;
