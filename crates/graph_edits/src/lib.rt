//! Edits of the nodes of a graph, for whatever kit of operations: made one by one on a copy of the nodes,
//! until the first that is refused.
#![tactic(auto)]

mod buffers;
mod copies;
mod draft;
mod names;
mod refused;

pub use buffers::buffer_of;
pub use draft::Draft;
pub use names::NameIndex;
pub use refused::GraphRefused;
