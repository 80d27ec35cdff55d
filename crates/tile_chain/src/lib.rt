//! Chains of tiles with their handlers, each over another, and the tables of tiles over them.
#![tactic(auto)]

mod below;
mod cache_handler;
mod chain_memory;
mod disk_handler;
mod empty_handler;
mod owned_tiles;
mod owner_counts;
mod zero_tiles;

pub use cache_handler::CacheHandler;
pub use chain_contracts::{TileChain, TileHandler};
pub use chain_memory::ChainMemory;
pub use chain_owners::SwapRefused;
pub use disk_handler::{DiskHandler, SwapHandler};
pub use empty_handler::EmptyHandler;
pub use level_tables::{LevelTable, LevelTile, NewTiles};
pub use owned_tiles::{Chain, OwnedTiles};
