//! What operations need to know of their inputs and results, computed: formats, boxes, and the
//! regions that an operation reads and that a change reaches.
#![tactic(auto)]

mod areas;
mod boxes;
mod formats;
mod moves;
mod regions;

pub use boxes::box_of;
pub use formats::{format_of, input_count};
pub use regions::{invalidated, required};
