//! Layouts of tables of named buffers: what is known of the buffers without their samples, why edits of them
//! are refused, and what edits make of what is known.
#![tactic(auto)]

mod answers;
mod edits;
pub mod laws;
mod layout;
mod refusals;
mod views;

pub use layout::BufferLayout;
pub use model_buffers::EditRefused;
pub use model_graphs::BufferFact;
pub use views::{CopyParts, RootShape, RootView};
