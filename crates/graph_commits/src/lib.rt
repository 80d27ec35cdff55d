//! Graphs that are edited by commits, for whatever kit of operations: their states, the damage between
//! one state and the next, and the states that can be undone and redone to.
#![tactic(auto)]

mod bodies;
mod buffers;
mod change;
mod graph;
mod history;
mod inputs;
pub mod laws;
mod regions;
mod shape;
mod state;
mod walk;

pub use graph::Graph;
pub use graph_edits::GraphRefused;
pub use state::GraphState;
