//! Kernels over rows of samples.
#![tactic(auto)]

mod add;
mod average;
mod blend;
mod blocks;
mod combine;
mod convert;
mod depths;
mod extremes;
mod gain;
mod invert;
mod mask;
mod over;
mod recolor;
mod threshold;
mod vectors;

pub use add::row_add;
pub use average::row_average4;
pub use blend::row_blend;
pub use convert::convert_row;
pub use extremes::{row_max, row_min};
pub use gain::row_gain;
pub use invert::row_invert;
pub use mask::row_mask;
pub use over::row_over;
pub use pixel_formats::Format;
pub use threshold::row_threshold;
