//! The definitions of graphs of the fifteen operations, computed plainly: not fast, and not clever.
//! Of images it has boxes and formats, and of cached pairs the list and the counts.
#![tactic(auto)]

mod cache;
mod changes;
mod edits;
mod graph;
mod names;
mod needs;
mod shapes;
mod tiles;
mod walk;

pub use cache::{Lookups, Pair, needed_pairs};
pub use changes::Change;
pub use edits::{edit_refused, with_edits};
pub use graph::{Graph, Shape};
pub use model_graphs::{Body, BufferFact, NodeEdit, NodeFact, NodeSpec};
pub use model_states::{NeedList, StateRefused, Strip};
pub use needs::need;
pub use shapes::node_shapes;
pub use walk::walk_refused;
