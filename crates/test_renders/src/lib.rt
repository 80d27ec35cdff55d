//! Renders over buffers and caches, by calls that hand on what the next one asks, for tests and benchmarks.
#![tactic(auto)]

mod canvas;
mod changes;
mod renders;
mod setup;

pub use canvas::{Canvas, over_buffers, over_frozen};
pub use changes::{commit, fill};
pub use renders::{Request, show};
pub use setup::{committed, empty_cache, empty_hand_cache};
