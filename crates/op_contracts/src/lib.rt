//! What carries out operations: kits, the windows that they read, and where the tiles of buffers come from.
#![tactic(auto)]

mod held_bytes;
mod kit;
pub mod laws;
mod mixture;
mod node_op;
mod part_bytes;
mod source_tiles;
mod window;
mod window_tiles;

pub use kit::OpKit;
pub use model_graphs::{Body, BufferFact, Edited, NodeEdit, NodeFact, NodeSpec, OpMeaning};
pub use node_op::NodeOp;
pub use part_bytes::PartBytes;
pub use source_tiles::SourceTiles;
pub use window::Window;
pub use window_tiles::WindowTiles;
