//! Tiles of nodes that were evaluated, kept for the next render: most recent first.
#![tactic(auto)]

mod hand_cache;
pub mod laws;
mod node_cache;
mod pair_key;
mod pair_store;
mod rectangles;

pub use chain_owners::{ChainMeaning, SwapRefused};
pub use hand_cache::HandCache;
pub use node_cache::NodeCache;
pub use pair_key::PairKey;
pub use pair_store::PairStore;
