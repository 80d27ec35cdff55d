//! What handlers of tiles and chains of them answer: their traits.
#![tactic(auto)]

mod tile_chain;
mod tile_handler;

pub use chain_owners::{ChainMeaning, SwapRefused};
pub use tile_chain::TileChain;
pub use tile_handler::TileHandler;
